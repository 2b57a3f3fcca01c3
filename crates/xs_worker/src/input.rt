ghost use Rattle.std.specs.Prelude.{◌≡◌, ◌<◌, ℕ, Option, Some, None, [], length, slice_get, option_map};
ghost use Rattle.xs_plan.specs.Record.{entry_at};
ghost use Rattle.xs_plan.specs.Reads.{port_read_of};
ghost use Rattle.xs_core.specs.Views.{MayRead};
ghost use Rattle.xs_core.specs.States.{source_at};
ghost use Rattle.xs_worker.specs.Reading.{TellsReads};
ghost use Rattle.xs_worker.specs.Steps.{InputTells};

use crate::step::Input;
use xs_base::Memory;
use xs_core::{Desk, Reading, edge_of};
use xs_pixel::Film;
use xs_plan::Plan;
use xs_raster::{Tile, TileRef};

/// The tile that an alias reads at a port, if it has the port.
pub(crate) fn input_at<K: Film, D: Desk<K>>(p: &Plan, desk: &mut D, k: u32, port: u32) -> Input
    requires plan { D.plan desk.old ≡ p.now }
    requires tells { TellsReads p.now }
    requires there { k < length p.now.entries }
    requires may { (e : ℕ) → port_read_of p.now k port ≡ Some e → MayRead p.now (D.view desk.old) e }
    ensures plan { D.plan desk.new ≡ p.now }
    ensures told { InputTells K.pictures p.now k port (D.view desk.old) result (D.view desk.new) }
{
    match p.port_read(k, port) {
        Some(e) => read_of(p, desk, k, port, e),
        None => Input::There(None),
    }
}

/// The tile that a read of an alias at a port reads.
fn read_of<K: Film, D: Desk<K>>(p: &Plan, desk: &mut D, k: u32, port: u32, e: u32) -> Input
    requires plan { D.plan desk.old ≡ p.now }
    requires tells { TellsReads p.now }
    requires there { k < length p.now.entries }
    requires read { port_read_of p.now k port ≡ Some e }
    requires may { MayRead p.now (D.view desk.old) e }
    ensures plan { D.plan desk.new ≡ p.now }
    ensures told { InputTells K.pictures p.now k port (D.view desk.old) result (D.view desk.new) }
{
    match desk.read(e) {
        Ok(reading) => match reading {
            Reading::Got(tile) => Input::There(Some(tile)),
            Reading::Turn => Input::Turn(edge_of(p, e).source),
        },
        Err(Memory) => Input::Short,
    }
}

/// The tile of an owner, if there is one.
pub(crate) fn tile_of(owner: &Option<TileRef>) -> Option<&Tile>
    ensures { option_map (λ t. t.now) result ≡ owner.now }
{
    match owner {
        Some(owner) => Some(owner.tile()),
        None => None,
    }
}
