//! One step of the rules of a scene.
ghost use Rattle.std.specs.Prelude.{◌≡◌, ◌<◌, ◌-◌, None, Some, MatchOption, IfSome, length, slice_get};
ghost use Rattle.xs_meaning.specs.Walk.{sheet_at, column_at};
ghost use Rattle.xs_scene.specs.Ranges.{IsNode};
ghost use Rattle.xs_step.specs.Steps.{step_in, step_of, step_of_node, step_of_listed, AreThere, IsBounded};

use crate::offset::Offset;
use crate::spot::{At, Spot, input, row as whole_row};
use crate::styles::Styles;
use crate::terminals::Terminals;
use xs_check::GoodScene;
use xs_pixel::{Op, Style};
use xs_scene::{Node, Ref, Seen};

/// What a spot is made of, one step down.
#[derive(Drop)]
pub enum Step<'s> {
    /// Nothing is seen.
    Clear,
    /// A drawing by its level and its place in the level's list, moved by an offset.
    Drawing {
        level: u32,
        index: u32,
        offset: Offset,
    },
    /// The row of a nested sheet, moved by an offset.
    Nested {
        row: Spot,
        offset: Offset,
    },
    /// Another spot as it is: a shuffle's input at the listed row.
    Same(Spot),
    /// A spot with those styles dropped besides that are not listed.
    Keep(Spot, Styles<'s>),
    /// A spot with those styles dropped besides that are listed.
    Delete(Spot, Styles<'s>),
    /// An operation of two spots, the first the upper one.
    Pair(Op, Spot, Spot),
    /// The mean of a spot over squares of side `2 * radius + 1`.
    Blur(u32, Spot),
    /// The pixel of one style, everywhere.
    Card(Style),
    /// Columns and nodes of the same sheet at the same row laid over one another, bottom to top.
    Over(Terminals<'s>),
}

/// What a spot is made of.
#[tactic(auto, unfolding(crate::specs::Steps::step_of))]
pub fn step_at<'s>(s: &'s GoodScene, spot: Spot) -> Step<'s>
    requires { spot.sheet < length s.now.sheets }
    ensures step { result ≡ step_of s.now spot }
    ensures there { AreThere s.now spot result }
    ensures bounds { IsBounded result }
{
    match spot.at {
        At::Row => Step::Over(Terminals::of(s.sheet(spot.sheet))),
        At::Input(Ref::Column(column)) => column_step(s, spot.sheet, column, spot.row),
        At::Input(Ref::Node(node)) => node_step(s, spot.sheet, node, spot.row),
    }
}

/// What a column is made of at a row: what it shows there, moved by the place of its peg.
fn column_step<'s>(s: &'s GoodScene, sheet: u32, column: u32, row: u32) -> Step<'s>
    requires { sheet < length s.now.sheets }
    ensures step { result ≡ step_in s.now sheet (At.Input (Ref.Column column)) row }
    ensures there { AreThere s.now (record { sheet = sheet; at = At.Input (Ref.Column column); row = row }) result }
    ensures bounds { IsBounded result }
{
    let offset = Offset::of(s.place(sheet, peg_of(s, sheet, column), row));
    match s.seen(sheet, column, row) {
        Seen::Empty => Step::Clear,
        Seen::Drawing { level, index } => Step::Drawing {
            level,
            index,
            offset,
        },
        Seen::Row { sheet, row } => Step::Nested {
            row: whole_row(sheet, row),
            offset,
        },
    }
}

/// The peg of a column.
fn peg_of(s: &GoodScene, sheet: u32, column: u32) -> Option<u32>
    requires { sheet < length s.now.sheets }
    ensures { result ≡ (column_at (sheet_at s.now.sheets sheet) column).peg }
{
    let sheet = s.sheet(sheet);
    match sheet.columns.items().get(column as usize) {
        Some(column) => column.peg,
        None => None,
    }
}

/// What a node is made of at a row.
fn node_step<'s>(s: &'s GoodScene, sheet: u32, node: u32, row: u32) -> Step<'s>
    requires { sheet < length s.now.sheets }
    ensures step { result ≡ step_in s.now sheet (At.Input (Ref.Node node)) row }
    ensures there { AreThere s.now (record { sheet = sheet; at = At.Input (Ref.Node node); row = row }) result }
    ensures bounds { IsBounded result }
{
    match node_of(s, sheet, node) {
        Some(node) => inputs_step(s, sheet, node, row),
        None => Step::Clear,
    }
}

/// A node of a sheet, by its number.
fn node_of(s: &GoodScene, sheet: u32, node: u32) -> Option<&Node>
    requires { sheet < length s.now.sheets }
    ensures value { MatchOption result (slice_get (sheet_at s.now.sheets sheet).nodes node ≡ None)
        (λ n. slice_get (sheet_at s.now.sheets sheet).nodes node ≡ Some n.now) }
    ensures range { IfSome result (λ n. IsNode n.now) }
{
    let sheet = s.sheet(sheet);
    sheet.nodes.items().get(node as usize)
}

/// What a node is made of at a row, by its inputs.
fn inputs_step<'s>(s: &'s GoodScene, sheet: u32, node: &'s Node, row: u32) -> Step<'s>
    requires there { sheet < length s.now.sheets }
    requires range { IsNode node.now }
    ensures step { result ≡ step_of_node sheet row (Some node.now) }
    ensures there { AreThere s.now (record { sheet = sheet; at = At.Row; row = row }) result }
    ensures bounds { IsBounded result }
{
    match node {
        Node::Pair { op, first, second } => {
            Step::Pair(*op, input(sheet, *first, row), input(sheet, *second, row))
        }
        Node::Card(style) => Step::Card(*style),
        Node::Shuffle { input: of, list } => shuffle_step(sheet, *of, list.items(), row),
        Node::Blur { input: of, radius } => Step::Blur(*radius, input(sheet, *of, row)),
        Node::Keep { input: of, styles } => {
            Step::Keep(input(sheet, *of, row), Styles::of(styles.items()))
        }
        Node::Delete { input: of, styles } => {
            Step::Delete(input(sheet, *of, row), Styles::of(styles.items()))
        }
    }
}

/// A shuffle: its input at the row that the list has for this one.
fn shuffle_step<'s>(sheet: u32, of: Ref, list: &[u32], row: u32) -> Step<'s>
    ensures { result ≡ step_of_listed sheet of (slice_get list.now (row - 1)) }
{
    match list.get(row.saturating_sub(1) as usize) {
        Some(&listed) => Step::Same(input(sheet, of, listed)),
        None => Step::Clear,
    }
}
