//! Where the time of a render by one worker goes.

use crate::dry::{Rows, plan_rows, scene_name, told};
use crate::kernel_calls::{self, Kernels};
use crate::sharing::good_scene;
use crate::timed_bench::TimedBench;
use crate::timed_library::TimedLibrary;
use crate::timed_shelf::TimedShelf;
use crate::watch::{Thousandths, Watch, milliseconds};
use std::alloc::Global;
use std::rt::{Clock, Files};
use std::{fs, io};
use xs_bench::LaneBench;
use xs_check::GoodScene;
use xs_host::{FolderLibrary, FolderShelf};
use xs_outside::MemNotes;
use xs_plan::Plan;
use xs_scene::Name;
use xs_top::render_alone;

/// The times of a render, in nanoseconds.
#[derive(Clone, Copy, Debug)]
struct Times {
    /// Of the whole render.
    total: u64,
    /// In the library.
    files: u64,
    /// At the bench, for what reads no alias.
    leaves: u64,
    /// At the bench, for operations on two aliases.
    pairs: u64,
    /// At the bench, for blurs.
    blurs: u64,
    /// At the shelf.
    write: u64,
}

impl Times {
    /// The time at the bench.
    fn compute(&self) -> u64 {
        self.leaves
            .saturating_add(self.pairs)
            .saturating_add(self.blurs)
    }

    /// The time at the bench for operations of a kind.
    fn of(&self, kernels: Kernels) -> u64 {
        match kernels {
            Kernels::Pairs => self.pairs,
            Kernels::Blurs => self.blurs,
        }
    }
}

/// Raises the bounds of the C library's `malloc` as the program does, by a block that is never touched.
fn raise_bounds(alloc: Global) {
    let block: Result<Vec<u8>, _> = Vec::with_capacity(alloc, 33_550_000);
    drop(block);
}

/// Renders the rows of a scene to frames in the working folder, named by `out`.
fn render<R: Clock + Files + AllocGlobal>(rt: &R, scene: &Name, rows: Rows) -> io::Result<Times> {
    let base = scene_name(rt.alloc(), "out")?;
    let mut library = TimedLibrary::new(FolderLibrary::new(rt), rt);
    let mut shelf = TimedShelf::new(FolderShelf::new(rt), rt);
    let mut notes = MemNotes::new(rt.alloc(), Vec::new(rt.alloc()));
    let mut bench = TimedBench::new(LaneBench::new(rt.alloc()), rt);
    let mut end = None;
    let mut whole = Watch::new(rt);
    let start = whole.start();
    let status = render_alone(
        rt.alloc(),
        scene,
        rows.from,
        rows.to,
        &base,
        &mut library,
        &mut shelf,
        &mut notes,
        &mut bench,
        &mut end,
    );
    whole.stop(start);
    told(status)?;
    Ok(Times {
        total: whole.nanoseconds(),
        files: library.nanoseconds(),
        leaves: bench.leaves(),
        pairs: bench.pairs(),
        blurs: bench.blurs(),
        write: shelf.nanoseconds(),
    })
}

/// A scene that is read and checked, and for how many nanoseconds. Its file is read before.
fn read_scene<R: Clock + Files + AllocGlobal>(rt: &R, name: &str) -> io::Result<(GoodScene, u64)> {
    let text = fs::read_to_string(rt, name)?;
    let mut watch = Watch::new(rt);
    let start = watch.start();
    let good = good_scene(rt.alloc(), text.as_str())?;
    watch.stop(start);
    Ok((good, watch.nanoseconds()))
}

/// The plan of rows, and how many nanoseconds it takes.
fn plan_scene<R: Clock>(
    rt: &R,
    alloc: Global,
    good: &GoodScene,
    rows: Rows,
) -> io::Result<(Plan, u64)> {
    let mut watch = Watch::new(rt);
    let start = watch.start();
    let plan = plan_rows(alloc, good, rows)?;
    watch.stop(start);
    Ok((plan, watch.nanoseconds()))
}

/// Prints the times of a render whose scene and plan took so many nanoseconds.
fn print_times<R: Print>(rt: &R, times: &Times, scene: u64, plan: u64) -> io::Result<()> {
    let told = scene
        .saturating_add(plan)
        .saturating_add(times.files)
        .saturating_add(times.compute())
        .saturating_add(times.write);
    println!(rt;
        "render: total {} scene {} plan {} files {} compute {} write {} rest {} milliseconds",
        milliseconds(times.total),
        milliseconds(scene),
        milliseconds(plan),
        milliseconds(times.files),
        milliseconds(times.compute()),
        milliseconds(times.write),
        milliseconds(times.total.saturating_sub(told))
    )
}

/// Prints the time of the operations of a kind beside that of their kernel calls alone.
fn print_kernels<R: Print>(rt: &R, kernels: Kernels, computed: u64, alone: u64) -> io::Result<()> {
    let times = Thousandths(computed.saturating_mul(1000) / alone.max(1));
    let name = kernels.name();
    println!(rt;
        "{name}: computed {} kernels {} milliseconds, {times} times",
        milliseconds(computed),
        milliseconds(alone)
    )
}

/// Renders rows of a scene in the working folder and prints where the time went; and beside the time of its operations of
/// a kind that of their kernel calls alone.
pub fn time<R: Print + Clock + Files + AllocGlobal>(
    rt: &R,
    scene: &str,
    rows: Rows,
    kernels: Option<Kernels>,
) -> io::Result<()> {
    raise_bounds(rt.alloc());
    let times = render(rt, &scene_name(rt.alloc(), scene)?, rows)?;
    let (good, read) = read_scene(rt, scene)?;
    let (plan, planned) = plan_scene(rt, rt.alloc(), &good, rows)?;
    print_times(rt, &times, read, planned)?;
    let Some(kernels) = kernels else {
        return Ok(());
    };
    let alone = kernel_calls::time(rt, rt.alloc(), &plan, kernels)?;
    print_kernels(rt, kernels, times.of(kernels), alone)
}
