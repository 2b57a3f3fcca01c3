ghost use Rattle.std.specs.Prelude.{◌≡◌, ◌≤◌, ◌↔◌, IsTrue};
ghost use Rattle.xs_outside.specs.Counts.{counted};
ghost use Rattle.xs_outside.specs.Calls.{IsFailing, passed};

use std::marker::Model;

/// Which calls of an object in memory fail, how many calls there were and how many faults. Both
/// counts stand still at 2^64 - 1.
#[derive(Debug, Drop)]
pub(crate) struct Calls {
    fails: Vec<u64>,
    made: u64,
    faults: u64,
}

impl Model for Calls {
    ghost use Rattle.xs_outside.specs.Calls.{CallsRecord};

    ghost Value = { CallsRecord };

    ghost view = { λ c. record { fails = c.fails.items; made = c.made; faults = c.faults } };
}

impl Calls {
    /// No call yet; those with these numbers, from 1, will fail.
    pub(crate) fn new(fails: Vec<u64>) -> Calls
        ensures { result ≡ record { fails = fails.items; made = 0; faults = 0 } }
    {
        Calls {
            fails,
            made: 0,
            faults: 0,
        }
    }

    /// Counts the next call, and answers whether it is one of those that fail.
    pub(crate) fn begin(&mut self) -> bool
        ensures fails { IsTrue result ↔ IsFailing self.old }
        ensures made { self.new ≡ passed self.old }
    {
        self.made = self.made.saturating_add(1);
        self.fails.contains(&self.made)
    }

    /// Counts a fault.
    pub(crate) fn fault(&mut self)
        ensures faults { self.new ≡ record self.old { faults = counted self.old.faults } }
        ensures later { self.old.faults ≤ self.new.faults }
    {
        self.faults = self.faults.saturating_add(1);
    }
}
