//! The calls of a chief that reads what the rows of a plan show.

ghost use Rattle.std.specs.Prelude.{◌≡◌, ◌<◌, ◌+◌, ℕ, true, OnOk, length};
ghost use Rattle.xs_plan.specs.Reads.{reads_in};
ghost use Rattle.xs_plan.specs.declared.job.Reader.TheVariants.{Root};
ghost use Rattle.xs_core.specs.Views.{DeskOk, MayRead};
ghost use Rattle.xs_core.specs.Calls.{Stays};
ghost use Rattle.xs_word_tests.specs.Hands.{IsFree, RootsAreOpen, IsSeat};

use crate::seat::{look_over, looks};
use xs_base::Memory;
use xs_core::laws::seats_may_go_on;
use xs_core::{Desk, Look, Reading, edge_of};
use xs_pixel::Film;
use xs_plan::{Plan, Reader};
use xs_raster::TileRef;

/// Tells that a chief that has nothing in hand served no read of a row's tile.
pub fn tells_open_roots<K: Film, D: Desk<K>>(desk: &D)
    requires { IsFree (D.view desk.now) }
    ensures { RootsAreOpen (D.plan desk.now) 0 (D.view desk.now) }
{
    look_over(desk);
}

/// Whether a reader is the tile of a row.
fn is_root(reader: Reader) -> bool
    ensures { result ≡ true → (row : ℕ) × (tile : ℕ) × (reader ≡ Root row tile) }
{
    match reader {
        Reader::Port { .. } => false,
        Reader::Root { .. } => true,
    }
}

/// Whether the chief may read for a row: the read is a row's, and its source is ready.
fn may_show<K: Film, D: Desk<K>>(desk: &mut D, p: &Plan, e: u32) -> bool
    requires plan { D.plan desk.old ≡ p.now }
    requires there { e < reads_in p.now }
    requires chief { (D.view desk.old).number ≡ 0 }
    requires open { RootsAreOpen p.now e (D.view desk.old) }
    ensures plan { D.plan desk.new ≡ p.now }
    ensures stays { Stays (D.view desk.old) (D.view desk.new) }
    ensures may { result ≡ true → MayRead p.now (D.view desk.new) e }
{
    let edge = edge_of(p, e);
    let own = is_root(edge.reader);
    let found = looks(desk, p, edge.source);
    match found {
        Look::Ready => own,
        Look::Idle | Look::Busy | Look::Lost => false,
    }
}

/// Reads and serves a read of a row's tile: the tile, and how many reads of its source are open then. None where the
/// read is no row's, its source is not ready, or another seat had the tile.
pub fn show<K: Film, D: Desk<K>>(
    desk: &mut D,
    p: &Plan,
    e: u32,
) -> Result<Option<(TileRef, u32)>, Memory>
    requires plan { D.plan desk.old ≡ p.now }
    requires there { e < reads_in p.now }
    requires chief { (D.view desk.old).number ≡ 0 }
    requires open { RootsAreOpen p.now e (D.view desk.old) }
    ensures plan { D.plan desk.new ≡ p.now }
    ensures seat { IsSeat (D.view desk.old) (D.view desk.new) }
    ensures open { OnOk result (RootsAreOpen p.now (e + 1) (D.view desk.new)) }
{
    if !may_show(desk, p, e) {
        return Ok(None);
    }
    seats_may_go_on();
    match desk.read(e) {
        Ok(Reading::Got(tile)) => {
            let left = desk.retire(e);
            Ok(Some((tile, left)))
        }
        Ok(Reading::Turn) => Ok(None),
        Err(error) => Err(error),
    }
}
