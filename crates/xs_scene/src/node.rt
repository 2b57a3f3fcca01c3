ghost use Rattle.std.specs.Prelude.{◌↔◌, IsTrue, All};
ghost use Rattle.xs_scene.specs.Ranges.{IsRow, IsFiltered};

use crate::range::{is_reference, is_row};
use xs_base::List;
use xs_base::limits::{GREATEST_RADIUS, STYLE_NUMBERS};
use xs_pixel::{Op, Style};

/// A column or a node of the same sheet, by its number from 0.
#[derive(Clone, Copy, Debug, PartialEq, Eq, Hash)]
pub enum Ref {
    /// The column with this number, from the left.
    Column(u32),
    /// The node with this number.
    Node(u32),
}

/// The inputs of a node.
#[derive(Clone, Copy, Debug, PartialEq, Eq)]
pub enum Inputs {
    /// No input.
    Zero,
    /// One input.
    One(Ref),
    /// Two inputs, the first the upper one.
    Two { first: Ref, second: Ref },
}

/// A node of the schematic.
#[derive(Debug, Drop)]
pub enum Node {
    /// `op` of two inputs, the first the upper one.
    Pair { op: Op, first: Ref, second: Ref },
    /// The pixel of one style, everywhere.
    Card(Style),
    /// The input at other rows: entry `i` of the list, from 0, is the row that is shown at row `i + 1`.
    Shuffle { input: Ref, list: List<u32> },
    /// The mean of the input over squares of side `2 * radius + 1`.
    Blur { input: Ref, radius: u32 },
    /// The input without the styles that are not listed.
    Keep { input: Ref, styles: List<u32> },
    /// The input without the listed styles.
    Delete { input: Ref, styles: List<u32> },
}

impl Ref {
    ghost use Rattle.std.specs.Prelude.{◌↔◌, IsTrue};
    ghost use Rattle.xs_scene.specs.Ranges.{IsRef};

    pub(crate) fn is_in_range(self) -> bool
        ensures { IsTrue result ↔ IsRef self }
    {
        match self {
            Ref::Column(number) => is_reference(number),
            Ref::Node(number) => is_reference(number),
        }
    }
}

fn are_rows(list: &List<u32>) -> bool
    ensures { IsTrue result ↔ All IsRow list.now }
{
    list.items().iter().all(|&row| is_row(row))
}

fn are_styles(list: &List<u32>) -> bool
    ensures { IsTrue result ↔ All IsFiltered list.now }
{
    list.items().iter().all(|&style| style < STYLE_NUMBERS)
}

impl Node {
    ghost use Rattle.std.specs.Prelude.{◌≡◌, ◌↔◌, IsTrue};
    ghost use Rattle.xs_scene.specs.Ranges.{IsNode, IsOldNode};
    ghost use Rattle.xs_scene.specs.Inputs.{inputs_of_node};

    /// The inputs of the node.
    pub fn inputs(&self) -> Inputs
        ensures { result ≡ inputs_of_node self.now }
    {
        match self {
            Node::Pair {
                op: _,
                first,
                second,
            } => Inputs::Two {
                first: *first,
                second: *second,
            },
            Node::Card(_) => Inputs::Zero,
            Node::Shuffle { input, list: _ } => Inputs::One(*input),
            Node::Blur { input, radius: _ } => Inputs::One(*input),
            Node::Keep { input, styles: _ } => Inputs::One(*input),
            Node::Delete { input, styles: _ } => Inputs::One(*input),
        }
    }

    pub(crate) fn is_in_range(&self) -> bool
        ensures { IsTrue result ↔ IsNode self.now }
    {
        match self {
            Node::Pair {
                op: _,
                first,
                second,
            } => first.is_in_range() && second.is_in_range(),
            Node::Card(_) => true,
            Node::Shuffle { input, list } => input.is_in_range() && are_rows(list),
            Node::Blur { input, radius } => input.is_in_range()
                && 1 <= *radius
                && *radius <= GREATEST_RADIUS,
            Node::Keep { input, styles } => input.is_in_range() && are_styles(styles),
            Node::Delete { input, styles } => input.is_in_range() && are_styles(styles),
        }
    }

    /// Whether format 1 knows this kind of node.
    pub(crate) fn is_old(&self) -> bool
        ensures { IsTrue result ↔ IsOldNode self.now }
    {
        match self {
            Node::Pair { .. } | Node::Card(_) | Node::Shuffle { .. } => true,
            Node::Blur { .. } | Node::Keep { .. } | Node::Delete { .. } => false,
        }
    }
}
