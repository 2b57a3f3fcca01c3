ghost use Rattle.std.specs.Prelude.{◌≡◌, ◌≤◌, IfOk, string_bytes};
ghost use Rattle.xs_base.specs.declared.limits.TheConstants.{LAST_ROW};
ghost use Rattle.xs_frames.specs.Names.{frame_name_of};

use std::alloc::Global;
use xs_base::Memory;

/// The name of the frame of a row: the base, a dot, the row in four digits and `.xfr`.
#[tactic(auto, unfolding(crate::specs::Names::frame_name_of))]
pub fn frame_name(alloc: Global, base: &str, row: u32) -> Result<String, Memory>
    requires { row ≤ LAST_ROW }
    ensures { IfOk result (λ name. string_bytes name ≡ frame_name_of base.now row) }
{
    let thousands = row / 1000;
    let hundreds = row / 100 % 10;
    let tens = row / 10 % 10;
    let ones = row % 10;
    Ok(format!(in alloc; "{base}.{thousands}{hundreds}{tens}{ones}.xfr")?)
}
