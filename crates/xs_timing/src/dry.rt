//! The plan of a scene, and the lines of its demand.

ghost use Rattle.std.specs.Prelude.{◌≤◌, ◌+◌, ◌-◌};
ghost use Rattle.xs_base.specs.declared.limits.TheConstants.{LAST_ROW};
ghost use Rattle.xs_plan.specs.declared.limits.TheConstants.{MOST_ROWS};

use crate::plans::{print_peak, time_build};
use crate::sharing::good_scene;
use std::alloc::{AllocError, Global};
use std::rt::{Clock, Files};
use std::time::Instant;
use std::{fs, io};
use xs_base::limits::LAST_ROW;
use xs_check::GoodScene;
use xs_dryrun::plan;
use xs_host::{FolderLibrary, OutNotes};
use xs_outside::MemNotes;
use xs_plan::Plan;
use xs_plan::limits::MOST_ROWS;
use xs_scene::Name;
use xs_top::{Status, dry};

/// How often a plan is made; the least time is told.
const TIMES: u32 = 5;

/// A scene at the limits: a drawing on a peg that moves by a pixel in each row.
const MOVING: &str =
    r#"{"format":2,"camera":{"w":4096,"h":4096},"palettes":[],"levels":[{"kind":"colour","drawings":["d.xrl"]}],"sheets":[{"pegs":[{"keys":[{"row":1,"x":0,"y":0,"line":true},{"row":1024,"x":1023,"y":0}]}],"columns":[{"peg":0,"cells":[{"from":1,"to":1024,"level":0,"drawing":0}]}]}]}"#;

/// The rows of that scene.
const MOVING_ROWS: u32 = 1024;

/// Rows of a range.
#[derive(Clone, Copy)]
pub struct Rows {
    pub from: u32,
    pub to: u32,
    ghost range: { (1 ≤ from) × (from ≤ to) × (to ≤ LAST_ROW) × (to + 1 - from ≤ MOST_ROWS) },
}

/// The rows that two words name.
pub fn rows_of(from: &str, to: &str) -> Option<Rows> {
    let (Ok(from), Ok(to)) = (from.parse::<u32>(), to.parse::<u32>()) else {
        return None;
    };
    if from < 1 || to < from || to > LAST_ROW || to + 1 - from > MOST_ROWS {
        return None;
    }
    Some(Rows { from, to })
}

/// The plan of the rows of a scene.
pub fn plan_rows(alloc: Global, good: &GoodScene, rows: Rows) -> io::Result<Plan> {
    match plan(alloc, good, rows.from, rows.to) {
        Ok(plan) => Ok(plan),
        Err(_) => Err(io::Error::from(io::ErrorKind::OutOfMemory)),
    }
}

/// How many microseconds it takes to plan the rows of a scene.
fn measure_plan(
    rt: &impl Clock,
    alloc: Global,
    good: &GoodScene,
    rows: Rows,
) -> io::Result<(u128, Plan)> {
    let start = Instant::now(rt)?;
    let plan = plan_rows(alloc, good, rows)?;
    Ok((start.elapsed(rt)?.as_micros(), plan))
}

/// Prints how long it takes at best to plan the rows of a scene.
fn time_plan(
    rt: &(impl Print + Clock),
    alloc: Global,
    good: &GoodScene,
    rows: Rows,
) -> io::Result<()> {
    let (mut least, plan) = measure_plan(rt, alloc, good, rows)?;
    for _time in 1..TIMES {
        let (micros, _plan) = measure_plan(rt, alloc, good, rows)?;
        if micros < least {
            least = micros;
        }
    }
    println!(rt;
        "dry: {} aliases and {} reads in {least} microseconds",
        plan.aliases(),
        plan.reads()
    )
}

/// Prints how long it takes at best to plan the rows of a scene that a file says, and the most memory.
pub fn time_file<R: Print + Clock + Files + AllocGlobal>(
    rt: &R,
    alloc: Global,
    name: &str,
    rows: Rows,
) -> io::Result<()> {
    let text = fs::read_to_string(rt, name)?;
    let good = good_scene(alloc, text.as_str())?;
    time_plan(rt, alloc, &good, rows)?;
    print_peak(rt)
}

/// Prints how long it takes to plan at the limits, and to build a plan with as many aliases by the builder alone; and the
/// most memory after the first and after both.
pub fn time_most<R: Print + Clock + Files + AllocGlobal>(rt: &R, alloc: Global) -> io::Result<()> {
    let good = good_scene(alloc, MOVING)?;
    let rows = Rows {
        from: 1,
        to: MOVING_ROWS,
    };
    let (micros, plan) = measure_plan(rt, alloc, &good, rows)?;
    println!(rt;
        "dry: {} aliases and {} reads in {micros} microseconds",
        plan.aliases(),
        plan.reads()
    )?;
    print_peak(rt)?;
    drop(plan);
    time_build(rt, alloc)?;
    print_peak(rt)
}

/// An error where a call did not come through.
pub fn told(status: Status) -> io::Result<()> {
    match status {
        Status::Ok => Ok(()),
        _ => Err(io::Error::from(io::ErrorKind::InvalidInput)),
    }
}

/// The scene in the working folder with this name.
pub fn scene_name(alloc: Global, name: &str) -> io::Result<Name> {
    match Name::new(String::from_str(alloc, name)?) {
        Some(name) => Ok(name),
        None => Err(io::Error::from(io::ErrorKind::InvalidInput)),
    }
}

/// The lines of a demand, in memory.
fn lines_of<R: Files + AllocGlobal>(rt: &R, name: &Name, rows: Rows) -> io::Result<MemNotes> {
    let mut library = FolderLibrary::new(rt);
    let mut notes = MemNotes::new(rt.alloc(), Vec::new(rt.alloc()));
    told(dry(
        rt.alloc(),
        name,
        rows.from,
        rows.to,
        &mut library,
        &mut notes,
    ))?;
    Ok(notes)
}

/// Lists the demand of rows on standard output.
fn list_rows<R: Print + Files + AllocGlobal>(rt: &R, name: &Name, rows: Rows) -> io::Result<()> {
    let mut library = FolderLibrary::new(rt);
    let mut notes = OutNotes::new(rt);
    told(dry(
        rt.alloc(),
        name,
        rows.from,
        rows.to,
        &mut library,
        &mut notes,
    ))
}

/// Lists the demand of rows on standard output, and then writes the same bytes there from memory. How long each takes
/// is told on standard error.
pub fn time_lines<R: Print + Eprint + Clock + Files + AllocGlobal>(
    rt: &R,
    name: &str,
    rows: Rows,
) -> io::Result<()> {
    let name = scene_name(rt.alloc(), name)?;
    let start = Instant::now(rt)?;
    list_rows(rt, &name, rows)?;
    let listed = start.elapsed(rt)?.as_micros();
    let notes = lines_of(rt, &name, rows)?;
    let start = Instant::now(rt)?;
    rt.write_all(notes.bytes())?;
    let written = start.elapsed(rt)?.as_micros();
    let bytes = notes.bytes().len();
    let line = format!(in rt.alloc();
        "dry: {bytes} bytes listed in {listed} microseconds, written in {written}"
    )?;
    rt.eprintln(line.as_str())
}
