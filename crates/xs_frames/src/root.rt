//! The reads of a row's tiles.

ghost use Rattle.std.specs.Prelude.{◌≡◌, ◌<◌, true, length, IfOk};
ghost use Rattle.xs_plan.specs.declared.job.Reader.TheVariants.{Root};
ghost use Rattle.xs_plan.specs.Record.{root_at, rows_in};
ghost use Rattle.xs_plan.specs.Reads.{reads_in, root_read_of};
ghost use Rattle.xs_core.specs.States.{source_at, reader_at};
ghost use Rattle.xs_core.specs.Views.{MayRead};
ghost use Rattle.xs_core.specs.Calls.{HoldsTile, Stays};

use xs_base::Memory;
use xs_core::{Desk, Reading};
use xs_pixel::Film;
use xs_plan::Plan;
use xs_plan::laws::reads_have_their_sources;
use xs_raster::TileRef;

/// The number of the read of a row's tile.
pub(crate) fn root_read(p: &Plan, row: u32, tile: u32) -> u32
    requires row { row < rows_in p.now }
    requires tile { tile < length p.now.tiles }
    ensures value { result ≡ root_read_of p.now row tile }
    ensures within { result < reads_in p.now }
    ensures source { source_at p.now result ≡ root_at p.now row tile }
    ensures reader { reader_at p.now result ≡ Root row tile }
{
    p.aliases();
    reads_have_their_sources();
    p.root_read(row, tile)
}

/// The tile of a read, for a seat that is alone.
pub(crate) fn tile_of<K: Film, D: Desk<K>>(desk: &mut D, e: u32) -> Result<TileRef, Memory>
    requires alone { (D.view desk.old).solo ≡ true }
    requires may { MayRead (D.plan desk.old) (D.view desk.old) e }
    ensures plan { D.plan desk.new ≡ D.plan desk.old }
    ensures stays { Stays (D.view desk.old) (D.view desk.new) }
    ensures tile { IfOk result (HoldsTile K.pictures (D.plan desk.old) (source_at (D.plan desk.old) e)) }
{
    match desk.read(e) {
        Ok(reading) => match reading {
            Reading::Got(tile) => Ok(tile),
            Reading::Turn => unreachable!(),
        },
        Err(Memory) => Err(Memory),
    }
}
