ghost use Rattle.std.specs.Prelude.{ℕ, Bool, List, Option};
ghost use Rattle.std.specs.Borrow.{ftrue};
ghost use Rattle.xs_plan.specs.Record.{PlanRecord};
ghost use Rattle.xs_core.specs.Views.{Signed, Meeting};

use std::marker::Model;

/// What one seat knows of the cache, and what it is at. Aliases, reads and seats are numbered from 0. No value of it is
/// made.
pub struct View {
    /// The plan of the cache.
    pub ghost plan: { PlanRecord },
    /// The seat is not joined.
    pub ghost live: { Bool },
    /// The seat's number, 0 for the chief.
    pub ghost number: { ℕ },
    /// The chief's: the number of the next seat that it splits off.
    pub ghost next: { ℕ },
    /// The chief's: the numbers of the seats that are split off and not joined.
    pub ghost apart: { List ℕ },
    /// The chief's: how many seats it has joined.
    pub ghost joined: { ℕ },
    /// The aliases that it won, made and lost, and the reads that it served.
    pub ghost won: { List Signed },
    pub ghost made: { List Signed },
    pub ghost lost: { List Signed },
    pub ghost served: { List Signed },
    /// The aliases that it knows to be ready.
    pub ghost known: { List ℕ },
    /// What its steps have met.
    pub ghost met: { List Meeting },
    /// The alias whose slot it has out to put a tile there.
    pub ghost filling: { Option ℕ },
    /// The read that it has in turn.
    pub ghost turn: { Option ℕ },
    /// The alias whose tile is leaving by it.
    pub ghost leaving: { Option ℕ },
}

impl Model for View {
    ghost also_owns = { λ _. ftrue };
}
