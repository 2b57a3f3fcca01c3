//! The spots of a scene: what there is an answer for.
ghost use Rattle.std.specs.Prelude.{◌≡◌};
ghost use Rattle.xs_step.specs.Spots.{spot, input_spot};

use xs_base::limits::{DEEPEST_NEST, MOST_NODES};
use xs_scene::Ref;

/// Where in a sheet.
#[derive(Clone, Copy, Debug, PartialEq, Eq, Hash)]
pub enum At {
    /// The whole row.
    Row,
    /// A column or a node.
    Input(Ref),
}

/// A row of a sheet, or a column or node of the sheet at a row.
#[derive(Clone, Copy, Debug, PartialEq, Eq, Hash)]
pub struct Spot {
    /// The number of the sheet.
    pub sheet: u32,
    /// Where in the sheet.
    pub at: At,
    /// The row of the sheet.
    pub row: u32,
}

/// No way from spot to spot has more spots: in each sheet it has the row, nodes and a column.
pub const LONGEST_WAY: u32 = DEEPEST_NEST * (1 + MOST_NODES as u32 + 1);

/// A column or node of a sheet at a row.
pub fn input(sheet: u32, of: Ref, row: u32) -> Spot
    ensures { result ≡ input_spot sheet of row }
{
    Spot {
        sheet,
        at: At::Input(of),
        row,
    }
}

/// A row of a sheet.
pub fn row(sheet: u32, row: u32) -> Spot
    ensures { result ≡ spot sheet At.Row row }
{
    Spot {
        sheet,
        at: At::Row,
        row,
    }
}
