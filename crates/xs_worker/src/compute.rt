ghost use Rattle.std.specs.Prelude.{◌≡◌, ◌<◌, ℕ, Some, length};
ghost use Rattle.xs_plan.specs.Record.{entry_at};
ghost use Rattle.xs_plan.specs.Reads.{port_read_of};
ghost use Rattle.xs_core.specs.Views.{MayRead};
ghost use Rattle.xs_bench.specs.Inputs.{HasDrawing};
ghost use Rattle.xs_worker.specs.Reading.{TellsReads};
ghost use Rattle.xs_worker.specs.Steps.{ComputedTells};

use crate::input::{input_at, tile_of};
use crate::step::{Computed, Input};
use std::alloc::Global;
use xs_base::Memory;
use xs_bench::Bench;
use xs_core::Desk;
use xs_pixel::Film;
use xs_plan::Plan;
use xs_raster::TileRef;
use xs_rawfile::Drawings;

/// The tile of an alias, computed from those that it reads.
pub(crate) fn compute<K: Film, D: Desk<K>, B: Bench>(
    alloc: Global,
    p: &Plan,
    desk: &mut D,
    bench: &mut B,
    d: &Drawings<K>,
    k: u32,
) -> Computed
    requires plan { D.plan desk.old ≡ p.now }
    requires tells { TellsReads p.now }
    requires there { k < length p.now.entries }
    requires may { (port e : ℕ) → port_read_of p.now k port ≡ Some e → MayRead p.now (D.view desk.old) e }
    requires drawing { HasDrawing d.now (entry_at p.now.entries k).job }
    ensures plan { D.plan desk.new ≡ p.now }
    ensures told { ComputedTells K.pictures p.now k (D.view desk.old) (B.made bench.old)
        result (D.view desk.new) (B.made bench.new) }
{
    let first = match input_at(p, desk, k, 0) {
        Input::There(tile) => tile,
        Input::Turn(i) => return Computed::Turn(i),
        Input::Short => return Computed::Short,
    };
    let second = match input_at(p, desk, k, 1) {
        Input::There(tile) => tile,
        Input::Turn(i) => return Computed::Turn(i),
        Input::Short => return Computed::Short,
    };
    match bench.compute(alloc, p, k, tile_of(&first), tile_of(&second), d) {
        Ok(tile) => match TileRef::new(alloc, tile) {
            Ok(owner) => Computed::Done(owner),
            Err(Memory) => Computed::Short,
        },
        Err(Memory) => Computed::Short,
    }
}
