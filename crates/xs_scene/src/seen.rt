/// What a column shows at one row. Levels, drawings and sheets have numbers from 0.
#[derive(Clone, Copy, Debug, PartialEq, Eq)]
pub enum Seen {
    /// Nothing.
    Empty,
    /// Drawing `index` of the level.
    Drawing { level: u32, index: u32 },
    /// A row of another sheet.
    Row { sheet: u32, row: u32 },
}
