//! The sections of a plan by a stock.

ghost use Rattle.std.specs.Prelude.{◌≡◌, ◌<◌, ◌≤◌, ◌+◌, None, OnOk, length};
ghost use Rattle.xs_plan.specs.Sections.{sections_in};
ghost use Rattle.xs_levels.specs.Stocked.{IsStock};

use std::alloc::Global;
use xs_base::Memory;
use xs_levels::{FileTable, Loaded, Stock};
use xs_outside::Library;
use xs_pixel::Film;
use xs_plan::Plan;

/// How many bytes may be held.
const LIMIT: u64 = 0x1_0000_0000;

/// Why not all drawings of a plan were read.
#[derive(Clone, Copy, Debug, PartialEq, Eq)]
pub enum Stop {
    /// Memory was wanted and there was none.
    Memory,
    /// A drawing was refused, or the library had a fault.
    Refused,
}

impl From<Memory> for Stop {
    fn from(_error: Memory) -> Self {
        Stop::Memory
    }
}

/// Loads the drawings of a section, and lets those go that no later one needs.
fn load<K: Film, L: Library, F: FileTable>(
    alloc: Global,
    stock: &mut Stock<K>,
    lib: &mut L,
    table: &F,
    p: &Plan,
    s: u32,
) -> Result<(), Stop>
    requires section { s < sections_in p.now }
    requires drawings { p.now.drawings ≤ length (F.told table.now).files }
    requires files { L.files lib.old ≡ None }
    requires pictures { K.pictures ≡ None }
    requires stock { IsStock p.now (F.told table.now) stock.old }
    requires sections { (stock.old.loaded ≡ s) × (stock.old.ended ≡ s) }
    ensures files { L.files lib.new ≡ None }
    ensures stock { OnOk result (IsStock p.now (F.told table.now) stock.new) }
    ensures sections { OnOk result ((stock.new.loaded ≡ s + 1) × (stock.new.ended ≡ s + 1)) }
{
    match stock.load(alloc, lib, table, p, s) {
        Loaded::Done => {
            stock.end(s);
            Ok(())
        }
        Loaded::Memory { .. } => Err(Stop::Memory),
        Loaded::Level { .. } | Loaded::Limit { .. } | Loaded::ReadFault { .. } => {
            Err(Stop::Refused)
        }
    }
}

/// Loads the drawings of all sections of a plan, one section after another, and lets each go after the last section that
/// needs it.
pub fn load_all<K: Film, L: Library, F: FileTable>(
    alloc: Global,
    lib: &mut L,
    table: &F,
    p: &Plan,
) -> Result<(), Stop>
    requires drawings { p.now.drawings ≤ length (F.told table.now).files }
    requires files { L.files lib.old ≡ None }
    requires pictures { K.pictures ≡ None }
    ensures files { L.files lib.new ≡ None }
{
    let mut stock = Stock::<K>::new(alloc, table, p, LIMIT)?;
    for s in 0..p.sections() {
        load(alloc, &mut stock, lib, table, p, s)?;
    }
    Ok(())
}
