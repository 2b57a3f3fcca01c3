/// What the scenes of a kind have.
pub struct Kind {
    /// What the line of the kind begins with.
    pub name: &'static str,
    /// The seed of the first scene.
    pub first_seed: u32,
    /// The format, 1 or 2. In format 1 there is nothing that came with format 2.
    pub format: u32,
    /// Whether all drawings are CM32 ones.
    pub words_alone: bool,
    /// The most sheets.
    pub sheets: u32,
    /// The most nodes of a sheet.
    pub nodes: u32,
    /// The kinds of its nodes, by their places in the list of `node`: the first and the last.
    pub first_node: u32,
    pub last_node: u32,
}

/// The kinds of scenes that are drawn.
pub const KINDS: [Kind; 6] = [
    Kind {
        name: "format 1",
        first_seed: 1000,
        format: 1,
        words_alone: false,
        sheets: 2,
        nodes: 3,
        first_node: 0,
        last_node: 6,
    },
    Kind {
        name: "columns on pegs",
        first_seed: 2000,
        format: 2,
        words_alone: false,
        sheets: 1,
        nodes: 0,
        first_node: 0,
        last_node: 0,
    },
    Kind {
        name: "nested sheets",
        first_seed: 3000,
        format: 2,
        words_alone: false,
        sheets: 3,
        nodes: 0,
        first_node: 0,
        last_node: 0,
    },
    Kind {
        name: "operations and blurs",
        first_seed: 4000,
        format: 2,
        words_alone: false,
        sheets: 1,
        nodes: 6,
        first_node: 0,
        last_node: 9,
    },
    Kind {
        name: "palettes and filters",
        first_seed: 5000,
        format: 2,
        words_alone: true,
        sheets: 2,
        nodes: 4,
        first_node: 6,
        last_node: 8,
    },
    Kind {
        name: "everything",
        first_seed: 6000,
        format: 2,
        words_alone: false,
        sheets: 3,
        nodes: 4,
        first_node: 0,
        last_node: 9,
    },
];
