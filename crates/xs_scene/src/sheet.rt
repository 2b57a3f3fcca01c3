ghost use Rattle.std.specs.Prelude.{◌↔◌, IsTrue, IfSome, All};
ghost use Rattle.xs_scene.specs.Ranges.{IsNode, IsRef};

use crate::column::Column;
use crate::in_range::each_in_range;
use crate::node::{Node, Ref};
use crate::peg::Peg;
use std::marker::Model;
use xs_base::List;

/// An exposure sheet: its pegs, its columns from left to right, the nodes of its schematic, and what is
/// rendered of it from bottom to top. Without `out` that is every column that is not off.
#[derive(Debug, Drop)]
pub struct Sheet {
    pub pegs: List<Peg>,
    pub columns: List<Column>,
    pub nodes: List<Node>,
    pub out: Option<List<Ref>>,
}

impl Model for Sheet {
    ghost use Rattle.xs_scene.specs.Records.{SheetRecord};

    ghost Value = { SheetRecord };

    ghost use Rattle.xs_scene.specs.InRange.{SheetInRange};

    ghost view = { λ s. record { pegs = s.pegs; columns = s.columns; nodes = s.nodes; out = s.out } };

    ghost invariant = { λ s. SheetInRange (record { pegs = s.pegs; columns = s.columns; nodes = s.nodes; out = s.out }) };
}

fn are_nodes_in_range(nodes: &List<Node>) -> bool
    ensures { IsTrue result ↔ All IsNode nodes.now }
{
    nodes.items().iter().all(|node| node.is_in_range())
}

fn is_out_in_range(out: &Option<List<Ref>>) -> bool
    ensures { IsTrue result ↔ IfSome out.now (All IsRef) }
{
    match out {
        Some(list) => list.items().iter().all(|target| target.is_in_range()),
        None => true,
    }
}

impl Sheet {
    ghost use Rattle.std.specs.Prelude.{◌↔◌, IsTrue, IfSome, All};
    ghost use Rattle.std.specs.Option.{SomeIff};
    ghost use Rattle.xs_scene.specs.Ranges.{IsSheet, HasNoLines, HasOldNodes};

    /// The sheet with these fields; None exactly where a number of a node or of `out` is out of its range.
    pub fn new(
        pegs: List<Peg>,
        columns: List<Column>,
        nodes: List<Node>,
        out: Option<List<Ref>>,
    ) -> Option<Sheet>
        ensures { SomeIff result (IsSheet nodes out)
            (record { pegs = pegs; columns = columns; nodes = nodes; out = out }) }
    {
        if are_nodes_in_range(&nodes) && is_out_in_range(&out) {
            each_in_range(&pegs);
            each_in_range(&columns);
            each_in_range(&nodes);
            Some(Sheet {
                pegs,
                columns,
                nodes,
                out,
            })
        } else {
            None
        }
    }

    /// Whether no key of a peg has a line.
    #[tactic(auto, unfolding(crate::specs::Ranges::HasNoLines))]
    pub(crate) fn has_no_lines(&self) -> bool
        ensures { IsTrue result ↔ HasNoLines self.now }
    {
        self.pegs.items().iter().all(|peg| peg.has_no_line())
    }

    /// Whether format 1 knows all its kinds of nodes.
    #[tactic(auto, unfolding(crate::specs::Ranges::HasOldNodes))]
    pub(crate) fn has_old_nodes(&self) -> bool
        ensures { IsTrue result ↔ HasOldNodes self.now }
    {
        self.nodes.items().iter().all(|node| node.is_old())
    }
}
