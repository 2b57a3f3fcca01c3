//! The drawings of a scene, section by section.

ghost use Rattle.std.specs.Prelude.{◌≡◌, ◌≤◌, IfOk, length};
ghost use Rattle.xs_check.specs.Good.{files_of};
ghost use Rattle.xs_plan.specs.declared.limits.TheConstants.{MOST_ROWS};

use std::alloc::Global;
use std::marker::Brand;
use std::rt::{Clock, Files};
use std::time::Instant;
use std::{fs, io};
use xs_check::{GoodScene, check};
use xs_dryrun::plan;
use xs_host::FolderLibrary;
use xs_levels::a_scene_tells_its_drawings;
use xs_plan::Plan;
use xs_plan::limits::MOST_ROWS;
use xs_scene_json::decode;
use xs_stock_timing::{load_all, read_all};

/// How often all drawings are read; the least time counts.
const ROUNDS: u32 = 5;

fn failed() -> io::Error {
    io::Error::from(io::ErrorKind::InvalidData)
}

/// The checked scene of a file.
fn scene<R: Files + AllocGlobal>(rt: &R, name: &str) -> io::Result<GoodScene> {
    let text = fs::read_to_string(rt, name)?;
    let Ok(scene) = decode(rt.alloc(), text.as_str().as_bytes()) else {
        return Err(failed());
    };
    check(rt.alloc(), scene).map_err(|_fault| failed())
}

/// The plan of so many rows of a scene.
fn plan_rows(alloc: Global, scene: &GoodScene, rows: u32) -> io::Result<Plan>
    ensures { IfOk result (λ p. p.drawings ≡ length (files_of scene.now.levels)) }
{
    if rows < 1 || MOST_ROWS < rows {
        return Err(failed());
    }
    match plan(alloc, scene, 1, rows) {
        Ok(plan) => Ok(plan),
        Err(_) => Err(failed()),
    }
}

/// How many microseconds a stock takes to load all drawings of a plan and to let them go.
fn load_once<R: Clock + Files + AllocGlobal>(
    rt: &R,
    scene: &GoodScene,
    plan: &Plan,
) -> io::Result<u128>
    requires { plan.now.drawings ≡ length (files_of scene.now.levels) }
{
    a_scene_tells_its_drawings();
    let mut library = FolderLibrary::new(rt);
    let start = Instant::now(rt)?;
    load_all::<Brand, FolderLibrary<R>, GoodScene>(rt.alloc(), &mut library, scene, plan).map_err(
        |_stop| failed(),
    )?;
    Ok(start.elapsed(rt)?.as_micros())
}

/// How many microseconds it takes to read the same files and to let them go.
fn read_once<R: Clock + Files + AllocGlobal>(
    rt: &R,
    scene: &GoodScene,
    plan: &Plan,
) -> io::Result<u128> {
    let mut library = FolderLibrary::new(rt);
    let start = Instant::now(rt)?;
    read_all(rt.alloc(), &mut library, scene, plan).map_err(|_stop| failed())?;
    Ok(start.elapsed(rt)?.as_micros())
}

/// The least time of several rounds by a stock.
fn least_loaded<R: Clock + Files + AllocGlobal>(
    rt: &R,
    scene: &GoodScene,
    plan: &Plan,
) -> io::Result<u128>
    requires { plan.now.drawings ≡ length (files_of scene.now.levels) }
{
    let mut least = u128::MAX;
    for _round in 0..ROUNDS {
        least = least.min(load_once(rt, scene, plan)?);
    }
    Ok(least)
}

/// The least time of several rounds of bare reads.
fn least_read<R: Clock + Files + AllocGlobal>(
    rt: &R,
    scene: &GoodScene,
    plan: &Plan,
) -> io::Result<u128> {
    let mut least = u128::MAX;
    for _round in 0..ROUNDS {
        least = least.min(read_once(rt, scene, plan)?);
    }
    Ok(least)
}

/// Prints the most memory that the process has had.
fn print_peak<R: Files + Print + AllocGlobal>(rt: &R) -> io::Result<()> {
    let status = fs::read_to_string(rt, "/proc/self/status")?;
    for line in status.lines() {
        if line.starts_with("VmHWM") {
            println!(rt; "{line}")?;
        }
    }
    Ok(())
}

/// Prints how long a stock takes for the drawings of so many rows of a scene, the most memory then, and how long bare
/// reads of the same files take.
pub fn time<R: Print + Clock + Files + AllocGlobal>(
    rt: &R,
    name: &str,
    rows: u32,
) -> io::Result<()> {
    let scene = scene(rt, name)?;
    let plan = plan_rows(rt.alloc(), &scene, rows)?;
    let loaded = least_loaded(rt, &scene, &plan)?;
    println!(rt;
        "stock: {} drawings in {loaded} microseconds",
        plan.drawings()
    )?;
    print_peak(rt)?;
    let read = least_read(rt, &scene, &plan)?;
    println!(rt;
        "files: {} drawings in {read} microseconds",
        plan.drawings()
    )
}
