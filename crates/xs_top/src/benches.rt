//! The benches of a run.

ghost use Rattle.std.specs.Prelude.{◌≡◌, [], All, IfOk, length};
ghost use Rattle.xs_base.specs.declared.limits.TheConstants.{MOST_WORKERS};

use std::alloc::Global;
use xs_base::Memory;
use xs_base::limits::MOST_WORKERS;
use xs_bench::{Bench, LaneBench};

/// As many benches of lanes as there may be workers, 64, which have computed nothing yet.
pub fn lane_benches(alloc: Global) -> Result<Vec<LaneBench>, Memory>
    ensures count { IfOk result (λ benches. length benches.items ≡ MOST_WORKERS) }
    ensures unused { IfOk result (λ benches. All (λ bench. ⟦<LaneBench as Bench>⟧.made bench ≡ []) benches.items) }
{
    let mut benches = Vec::with_capacity(alloc, MOST_WORKERS as usize)?;
    for i in 0..MOST_WORKERS {
        benches.push_reserved(LaneBench::new(alloc));
    }
    Ok(benches)
}
