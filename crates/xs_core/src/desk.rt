ghost use Rattle.std.specs.Prelude.{◌≡◌, ◌<◌, length};
ghost use Rattle.xs_plan.specs.Record.{PlanRecord};
ghost use Rattle.xs_core.specs.Views.{DeskView, HasClaimed, MayRead, DeskOk};
ghost use Rattle.xs_core.specs.Calls.{HoldsTile, ClaimTells, LookTells, FinishTells, AbandonTells, ReadTells, RetireTells};

use crate::answer::{Claim, Look, Reading};
use xs_base::Memory;
use xs_pixel::Film;
use xs_raster::TileRef;

/// One seat at the cache of a plan. Its tiles hold the values of aliases under the pictures of its film. No call
/// changes its plan, and none waits for another seat. Aliases and reads are numbered from 0.
pub trait Desk<K: Film> {
    ghost plan: { Self → PlanRecord };

    /// What the seat knows.
    ghost view: { Self → DeskView };

    /// Takes an alias upon itself where it is idle; else tells how it was found.
    fn claim(&mut self, k: u32) -> Claim
        requires { k < length (plan self.old).entries }
        ensures plan { plan self.new ≡ plan self.old }
        ensures told { ClaimTells (view self.old) k result (view self.new) };

    /// How an alias is found.
    fn look(&mut self, k: u32) -> Look
        requires { k < length (plan self.old).entries }
        ensures plan { plan self.new ≡ plan self.old }
        ensures told { LookTells (view self.old) k result (view self.new) };

    /// Puts the tile of an alias that it has claimed.
    fn finish(&mut self, k: u32, t: TileRef)
        requires there { k < length (plan self.old).entries }
        requires claimed { HasClaimed (view self.old) k }
        requires value { HoldsTile K.pictures (plan self.old) k t }
        ensures plan { plan self.new ≡ plan self.old }
        ensures told { FinishTells (view self.old) k (view self.new) };

    /// Gives up an alias that it has claimed.
    fn abandon(&mut self, k: u32)
        requires there { k < length (plan self.old).entries }
        requires claimed { HasClaimed (view self.old) k }
        ensures plan { plan self.new ≡ plan self.old }
        ensures told { AbandonTells (view self.old) k (view self.new) };

    /// The tile of a read's source. After every answer others may take it.
    fn read(&mut self, e: u32) -> Result<Reading, Memory>
        requires { MayRead (plan self.old) (view self.old) e }
        ensures plan { plan self.new ≡ plan self.old }
        ensures told { ReadTells K.pictures (plan self.old) (view self.old) e result (view self.new) };

    /// Serves a read, and answers how many reads of its source are open after it. At 0 the tile is let go.
    fn retire(&mut self, e: u32) -> u32
        requires { MayRead (plan self.old) (view self.old) e }
        ensures plan { plan self.new ≡ plan self.old }
        ensures told { RetireTells (plan self.old) (view self.old) e result (view self.new) };

    /// What every seat keeps.
    ghost sound: { (d : Self) → DeskOk (plan d) (view d) };
}
