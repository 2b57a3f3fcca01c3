//! The files of a plan's drawings, read and no more.

ghost use Rattle.std.specs.Prelude.{◌<◌, length};
ghost use Rattle.xs_plan.specs.Sections.{sections_in};

use crate::stocked::Stop;
use std::alloc::Global;
use xs_base::Memory;
use xs_base::limits::DRAWING_LIMIT;
use xs_levels::FileTable;
use xs_outside::{Fetched, Library};
use xs_plan::Plan;

/// The bytes of the file of a drawing, in a list of their own.
fn read_file<L: Library, F: FileTable>(
    alloc: Global,
    lib: &mut L,
    table: &F,
    drawing: u32,
) -> Result<Vec<u8>, Stop> {
    if table.drawings() <= drawing {
        return Err(Stop::Refused);
    }
    match lib.get(alloc, table.file(drawing), DRAWING_LIMIT) {
        Fetched::Bytes(bytes) => Ok(bytes),
        Fetched::Memory => Err(Stop::Memory),
        Fetched::Absent | Fetched::TooLong | Fetched::Failed => Err(Stop::Refused),
    }
}

/// Puts a file last among those that are held.
fn hold(held: &mut Vec<Vec<u8>>, bytes: Vec<u8>) -> Result<(), Memory> {
    held.push(bytes)?;
    Ok(())
}

/// Reads the files of the drawings that a section is the first to need, holds them until all are read, and lets them go.
fn read_section<L: Library, F: FileTable>(
    alloc: Global,
    lib: &mut L,
    table: &F,
    p: &Plan,
    s: u32,
) -> Result<(), Stop>
    requires { s < sections_in p.now }
{
    let mut held = Vec::new(alloc);
    for drawing in p.new_drawings(s) {
        let bytes = read_file(alloc, lib, table, *drawing)?;
        hold(&mut held, bytes)?;
    }
    Ok(())
}

/// Reads the files of all drawings of a plan, each in the first section that needs it.
pub fn read_all<L: Library, F: FileTable>(
    alloc: Global,
    lib: &mut L,
    table: &F,
    p: &Plan,
) -> Result<(), Stop> {
    for s in 0..p.sections() {
        read_section(alloc, lib, table, p, s)?;
    }
    Ok(())
}
