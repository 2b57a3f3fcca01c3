use crate::in_range::each_in_range;
use crate::range::{is_offset, is_reference_or_none, is_row};
use std::marker::Model;
use xs_base::List;

/// From its row on, where a peg is set: an offset in whole pixels, each coordinate within 65,536 of 0.
/// With `line` the peg moves on from here in a straight line to its next key.
#[derive(Clone, Copy, Debug, PartialEq, Eq)]
pub struct PegKey {
    pub row: u32,
    pub x: i32,
    pub y: i32,
    pub line: bool,
}

impl Model for PegKey {
    ghost use Rattle.xs_scene.specs.Records.{PegKeyRecord};

    ghost Value = { PegKeyRecord };

    ghost use Rattle.xs_scene.specs.Ranges.{IsPegKey};

    ghost view = { λ k. record { row = k.row; x = k.x; y = k.y; line = k.line } };

    ghost invariant = { λ k. IsPegKey (record { row = k.row; x = k.x; y = k.y; line = k.line }) };

    ghost inverse = { λ k. record { row = k.row; x = k.x; y = k.y; line = k.line } };
}

impl PegKey {
    ghost use Rattle.std.specs.Option.{SomeIff};
    ghost use Rattle.xs_scene.specs.Records.{PegKeyRecord};
    ghost use Rattle.xs_scene.specs.Ranges.{IsPegKey};

    /// The key with these fields; None exactly where one is out of its range.
    pub fn new(row: u32, x: i32, y: i32, line: bool) -> Option<PegKey>
        ensures { let key : PegKeyRecord = record { row = row; x = x; y = y; line = line } in
            SomeIff result (IsPegKey key) key }
    {
        if is_row(row) && is_offset(x) && is_offset(y) {
            Some(PegKey { row, x, y, line })
        } else {
            None
        }
    }
}

/// A peg, and the peg of the same sheet with which it moves, if any. Its keys stand in any order.
#[derive(Debug, Drop)]
pub struct Peg {
    pub parent: Option<u32>,
    pub keys: List<PegKey>,
}

impl Model for Peg {
    ghost use Rattle.xs_scene.specs.Records.{PegRecord};

    ghost Value = { PegRecord };

    ghost use Rattle.xs_scene.specs.InRange.{PegInRange};

    ghost view = { λ p. record { parent = p.parent; keys = p.keys } };

    ghost invariant = { λ p. PegInRange (record { parent = p.parent; keys = p.keys }) };
}

impl Peg {
    ghost use Rattle.std.specs.Prelude.{◌↔◌, IsTrue, IfSome};
    ghost use Rattle.std.specs.Option.{SomeIff};
    ghost use Rattle.xs_scene.specs.Ranges.{IsReference, HasNoLine};

    /// The peg with these fields; None exactly where the parent's number is out of its range.
    pub fn new(parent: Option<u32>, keys: List<PegKey>) -> Option<Peg>
        ensures { SomeIff result (IfSome parent IsReference) (record { parent = parent; keys = keys }) }
    {
        if is_reference_or_none(parent) {
            each_in_range(&keys);
            Some(Peg { parent, keys })
        } else {
            None
        }
    }

    #[tactic(auto, unfolding(crate::specs::Ranges::HasNoLine))]
    pub(crate) fn has_no_line(&self) -> bool
        ensures { IsTrue result ↔ HasNoLine self.now }
    {
        self.keys.items().iter().all(|key| !key.line)
    }
}
