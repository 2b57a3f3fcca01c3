//! Checking scenes: at the limits, with cells in no order, and with what is found only at their end.

use std::alloc::Global;
use std::io;
use std::rt::Clock;
use std::time::{Duration, Instant};
use xs_base::List;
use xs_check::check;
use xs_pixel::Op;
use xs_scene::{Camera, Column, Exposure, Kind, Level, Name, Node, Peg, Ref, Scene, Sheet, Shown};

/// The cells of a column of the large sheet.
const CELLS: u32 = 2000;

fn made<T>(thing: Option<T>) -> io::Result<T> {
    match thing {
        Some(thing) => Ok(thing),
        None => Err(io::Error::from(io::ErrorKind::InvalidInput)),
    }
}

/// A column of cells of one row each. The next cell skips so many rows.
fn column_of_drawings(alloc: Global, cells: u32, skipped: u16) -> io::Result<Column> {
    let mut list = Vec::new(alloc);
    let mut row = 1u32;
    for index in 0..cells {
        let shown = Shown::Drawing {
            level: 0,
            index: index % 65536,
        };
        list.push(made(Exposure::new(row, row, shown))?)?;
        row = (row % CELLS + u32::from(skipped)) % CELLS + 1;
    }
    made(Column::new(None, false, List::of(list)))
}

/// A column of so many cells that show a sheet.
fn column_of_sheet(alloc: Global, cells: u16, sheet: u32) -> io::Result<Column> {
    let mut list = Vec::new(alloc);
    for index in 0..cells {
        let row = u32::from(index) + 1;
        let shown = Shown::Sheet { sheet, start: 1 };
        list.push(made(Exposure::new(row, row, shown))?)?;
    }
    made(Column::new(None, false, List::of(list)))
}

fn sheet_of(alloc: Global, columns: Vec<Column>) -> io::Result<Sheet> {
    let pegs = List::of(Vec::new(alloc));
    let nodes = List::of(Vec::new(alloc));
    made(Sheet::new(pegs, List::of(columns), nodes, None))
}

/// A sheet of one column, of so many cells that show a sheet.
fn sheet_showing(alloc: Global, cells: u16, sheet: u32) -> io::Result<Sheet> {
    let mut columns = Vec::new(alloc);
    columns.push(column_of_sheet(alloc, cells, sheet)?)?;
    sheet_of(alloc, columns)
}

/// A chain of 64 pegs.
fn pegs(alloc: Global) -> io::Result<List<Peg>> {
    let mut pegs = Vec::new(alloc);
    for number in 0..64u32 {
        let keys = List::of(Vec::new(alloc));
        pegs.push(made(Peg::new(number.checked_sub(1), keys))?)?;
    }
    Ok(List::of(pegs))
}

/// A chain of 256 nodes.
fn nodes(alloc: Global) -> io::Result<List<Node>> {
    let mut nodes = Vec::new(alloc);
    for number in 0..256u32 {
        nodes.push(Node::Pair {
            op: Op::Over,
            first: Ref::Column(number),
            second: match number.checked_sub(1) {
                Some(earlier) => Ref::Node(earlier),
                None => Ref::Column(0),
            },
        })?;
    }
    Ok(List::of(nodes))
}

/// A sheet of 1024 columns.
fn large_sheet(alloc: Global, skipped: u16) -> io::Result<Sheet> {
    let mut columns = Vec::new(alloc);
    for _ in 0..1024 {
        columns.push(column_of_drawings(alloc, CELLS, skipped)?)?;
    }
    made(Sheet::new(pegs(alloc)?, List::of(columns), nodes(alloc)?, None))
}

/// A level of 65,536 drawings.
fn level(alloc: Global) -> io::Result<Level> {
    let mut drawings = Vec::new(alloc);
    for number in 0..65536u32 {
        let name = format!(in alloc; "drawing{number}")?;
        drawings.push(made(Name::new(name))?)?;
    }
    made(Level::new(Kind::Colour, List::of(drawings)))
}

/// The one level.
fn levels(alloc: Global) -> io::Result<List<Level>> {
    let mut levels = Vec::new(alloc);
    levels.push(level(alloc)?)?;
    Ok(List::of(levels))
}

fn scene_of(alloc: Global, sheets: Vec<Sheet>) -> io::Result<Scene> {
    let levels = levels(alloc)?;
    let camera = made(Camera::new(1920, 1080, None))?;
    let palettes = List::of(Vec::new(alloc));
    made(Scene::new(2, camera, palettes, levels, List::of(sheets)))
}

/// The large sheet, and a chain of 16 nested sheets of 1024 cells each.
fn scene_at_limits(alloc: Global, skipped: u16) -> io::Result<Scene> {
    let mut sheets = Vec::new(alloc);
    sheets.push(large_sheet(alloc, skipped)?)?;
    for number in 1..16u32 {
        sheets.push(sheet_showing(alloc, 1024, number + 1)?)?;
    }
    sheets.push(sheet_of(alloc, Vec::new(alloc))?)?;
    scene_of(alloc, sheets)
}

/// A sheet of one column of so many cells that its rows come again.
fn sheet_with_overlaps(alloc: Global, cells: u32) -> io::Result<Sheet> {
    let mut columns = Vec::new(alloc);
    columns.push(column_of_drawings(alloc, cells, 776)?)?;
    sheet_of(alloc, columns)
}

/// A scene of such a sheet.
fn scene_with_overlaps(alloc: Global, cells: u32) -> io::Result<Scene> {
    let mut sheets = Vec::new(alloc);
    sheets.push(sheet_with_overlaps(alloc, cells)?)?;
    scene_of(alloc, sheets)
}

/// A sheet of two columns, of one cell each, that show two sheets.
fn sheet_showing_two(alloc: Global, first: u32, second: u32) -> io::Result<Sheet> {
    let mut columns = Vec::new(alloc);
    columns.push(column_of_sheet(alloc, 1, first)?)?;
    columns.push(column_of_sheet(alloc, 1, second)?)?;
    sheet_of(alloc, columns)
}

/// So many sheets in a chain, and one that the last of them shows.
fn chain_of_sheets(alloc: Global, chain: u32) -> io::Result<Vec<Sheet>> {
    let mut sheets = Vec::new(alloc);
    for shown in 1..=chain.saturating_add(1) {
        sheets.push(sheet_showing(alloc, 1, shown)?)?;
    }
    Ok(sheets)
}

/// So many sheets in a chain from a sheet on a cycle, the last in the list, to two that show one another.
fn scene_with_cycles(alloc: Global, chain: u32) -> io::Result<Scene> {
    let mut sheets = chain_of_sheets(alloc, chain)?;
    sheets.push(sheet_showing(alloc, 1, chain)?)?;
    sheets.push(sheet_showing_two(alloc, chain.saturating_add(2), 0)?)?;
    scene_of(alloc, sheets)
}

/// Prints how long a check took, and what it answered.
fn tell_time<R: Print>(rt: &R, part: &str, time: Duration, answer: &str) -> io::Result<()> {
    let micros = time.as_micros();
    println!(rt; "check {part} {micros} microseconds {answer}")
}

/// Prints how long `check` takes on a scene, and what it answers.
fn time_check<R: Print + Clock>(rt: &R, alloc: Global, part: &str, scene: Scene) -> io::Result<()> {
    let start = Instant::now(rt)?;
    match check(alloc, scene) {
        Ok(good) => {
            let time = start.elapsed(rt);
            drop(good);
            tell_time(rt, part, time?, "good")
        }
        Err(_fault) => tell_time(rt, part, start.elapsed(rt)?, "refused"),
    }
}

/// Prints how long `check` takes on each of some scenes.
pub fn time<R: Print + Clock>(rt: &R, alloc: Global) -> io::Result<()> {
    time_check(rt, alloc, "limits", scene_at_limits(alloc, 0)?)?;
    time_check(rt, alloc, "disorder", scene_at_limits(alloc, 776)?)?;
    time_check(rt, alloc, "overlap", scene_with_overlaps(alloc, 2001)?)?;
    time_check(
        rt,
        alloc,
        "overlaps",
        scene_with_overlaps(alloc, 2_000_000)?,
    )?;
    time_check(rt, alloc, "cycles-20000", scene_with_cycles(alloc, 20_000)?)?;
    time_check(
        rt,
        alloc,
        "cycles-200000",
        scene_with_cycles(alloc, 200_000)?,
    )
}
