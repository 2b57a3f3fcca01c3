ghost use Rattle.std.specs.Prelude.{◌≡◌, ◌<◌, ℕ, Option, Some, None, [], length, slice_get};
ghost use Rattle.xs_plan.specs.Record.{entry_at};
ghost use Rattle.xs_plan.specs.Reads.{port_read_of};
ghost use Rattle.xs_core.specs.Views.{MayRead};
ghost use Rattle.xs_core.specs.States.{source_at};
ghost use Rattle.xs_core.specs.Calls.{Adds};
ghost use Rattle.xs_worker.specs.Reading.{TellsReads, listed};
ghost use Rattle.xs_worker.specs.Claims.{tagged};

use xs_core::Desk;
use xs_pixel::Film;
use xs_plan::Plan;
use xs_plan::laws::reads_have_their_sources;

/// The reads of a plan at ports are those of its aliases.
pub(crate) fn tell_reads(p: &Plan)
    ensures { TellsReads p.now }
{
    p.aliases();
    reads_have_their_sources();
}

/// Serves the read of an alias at a port, if it has the port.
pub(crate) fn retire_port<K: Film, D: Desk<K>>(p: &Plan, desk: &mut D, k: u32, port: u32)
    requires plan { D.plan desk.old ≡ p.now }
    requires there { k < length p.now.entries }
    requires may { (e : ℕ) → port_read_of p.now k port ≡ Some e → MayRead p.now (D.view desk.old) e }
    ensures plan { D.plan desk.new ≡ p.now }
    ensures told { Adds (D.view desk.old) (D.view desk.new) [] [] []
        (tagged (D.view desk.old).number (listed (port_read_of p.now k port))) }
{
    match p.port_read(k, port) {
        Some(e) => {
            desk.retire(e);
        }
        None => {}
    }
}
