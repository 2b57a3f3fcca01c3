//! What a stock answers and holds, section by section.

ghost use Rattle.std.specs.Prelude.{◌≡◌, ◌<◌, ◌≤◌, ◌+◌, None, IfOk};
ghost use Rattle.xs_plan.specs.Sections.{sections_in};
ghost use Rattle.xs_levels.specs.Stocked.{IsStock};
ghost use Rattle.xs_levels_tests.specs.Three.{three};

use crate::plans::{Cell, Letter, plan_of};
use crate::three::Three;
use std::alloc::{AllocError, Global};
use std::marker::Brand;
use std::process::Abort;
use std::test::Fail;
use xs_base::Memory;
use xs_levels::{Loaded, Stock};
use xs_outside::{MemLibrary, Object, QuietLibrary};
use xs_pixel::Film;
use xs_plan::Plan;
use xs_rawfile::LevelCode;
use xs_rect::Rect;

/// The file of a drawing of one pixel.
const PIXEL: &[u8] = b"XRL1\0\0\0\0\0\0\0\0\0\x01\0\0\0\x01\0\0\0\x0a\x14\x1e\xff";

/// The same with another kind.
const OTHER: &[u8] = b"XRL1\x01\0\0\0\0\0\0\0\0\x01\0\0\0\x01\0\0\0\x0a\x14\x1e\xff";

/// The same without its last byte.
const SHORT: &[u8] = b"XRL1\0\0\0\0\0\0\0\0\0\x01\0\0\0\x01\0\0\0\x0a\x14\x1e";

/// A library of these files, of which the calls with these numbers fail.
fn library(
    alloc: Global,
    files: &[(&str, &[u8])],
    fails: &[u64],
) -> Result<QuietLibrary<MemLibrary>, Memory> {
    let mut objects = Vec::new(alloc);
    for (name, bytes) in files {
        let object = Object::new(alloc, name, bytes)?;
        objects.push(object).map_err(AllocError::from)?;
    }
    let fails = Vec::from_slice(alloc, fails)?;
    Ok(QuietLibrary::new(MemLibrary::new(alloc, objects, fails)))
}

/// Which of the three drawings are held: 1 is added for the first, 2 for the second and 4 for the third.
fn held<K: Film>(stock: &Stock<K>) -> u32 {
    let drawings = stock.drawings();
    let mut sum = 0;
    if drawings.get(0).is_some() {
        sum |= 1;
    }
    if drawings.get(1).is_some() {
        sum |= 2;
    }
    if drawings.get(2).is_some() {
        sum |= 4;
    }
    sum
}

/// Loads a section and ends it; asserts which drawings are held in it, and which after it.
fn goes_through<K: Film>(
    rt: &impl Abort,
    alloc: Global,
    stock: &mut Stock<K>,
    lib: &mut QuietLibrary<MemLibrary>,
    table: &Three,
    p: &Plan,
    s: u32,
    wanted: (u32, u32),
)
    requires untold { K.pictures ≡ None }
    requires drawings { p.now.drawings ≡ 3 }
    requires section { s < sections_in p.now }
    requires stock { IsStock p.now three stock.old }
    requires loaded { stock.old.loaded ≡ s }
    requires ended { stock.old.ended ≡ s }
    ensures stock { IsStock p.now three stock.new }
    ensures loaded { stock.new.loaded ≡ s + 1 }
    ensures ended { stock.new.ended ≡ s + 1 }
{
    match stock.load(alloc, lib, table, p, s) {
        Loaded::Done => {}
        _ => panic!(rt; "section {s} is not loaded"),
    }
    assert_eq!(rt; held(stock), wanted.0, "in section {s}");
    stock.end(s);
    assert_eq!(rt; held(stock), wanted.1, "after section {s}");
}

/// Goes through three sections with room for two drawings of one pixel.
fn goes_through_three<K: Film>(
    rt: &impl Abort,
    alloc: Global,
    p: &Plan,
    files: &[(&str, &[u8])],
    wanted: [(u32, u32); 3],
) -> Result<(), Fail>
    requires untold { K.pictures ≡ None }
    requires drawings { p.now.drawings ≡ 3 }
{
    let mut lib = library(alloc, files, &[])?;
    let table = Three::new(alloc)?;
    let mut stock = Stock::<K>::new(alloc, &table, p, 8)?;
    let many = p.sections() == 3;
    assert!(rt; many, "three sections");
    goes_through(rt, alloc, &mut stock, &mut lib, &table, p, 0, wanted[0]);
    goes_through(rt, alloc, &mut stock, &mut lib, &table, p, 1, wanted[1]);
    goes_through(rt, alloc, &mut stock, &mut lib, &table, p, 2, wanted[2]);
    Ok(())
}

/// Asserts what loading the first section answers, where so many bytes may be held.
fn answers<K: Film>(
    rt: &impl Abort,
    alloc: Global,
    p: &Plan,
    files: &[(&str, &[u8])],
    fails: &[u64],
    limit: u64,
    wanted: Loaded,
) -> Result<(), Fail>
    requires untold { K.pictures ≡ None }
    requires drawings { p.now.drawings ≡ 3 }
{
    let mut lib = library(alloc, files, fails)?;
    let table = Three::new(alloc)?;
    let mut stock = Stock::<K>::new(alloc, &table, p, limit)?;
    let some = p.sections() > 0;
    assert!(rt; some, "a section");
    let answer = stock.load(alloc, &mut lib, &table, p, 0);
    assert_eq!(rt; answer, wanted);
    Ok(())
}

/// A plan of so many rows with these cells, before a camera of one pixel.
fn plan(alloc: Global, rows: u32, cells: &[Cell]) -> Result<Plan, Fail>
    requires some { 1 ≤ rows }
    requires few { rows ≤ 4096 }
    ensures { IfOk result (λ p. p.drawings ≡ 3) }
{
    let tile = Rect::new(0, 0, 1, 1).ok_or("a tile")?;
    Ok(plan_of(alloc, tile, rows, cells)?)
}

/// A cell.
fn cell(row: u32, letter: Letter, dx: i8) -> Cell {
    Cell { row, letter, dx }
}

#[test]
fn a_drawing_is_held_until_the_last_section_that_needs_it(rt: HostRuntime) -> Result<(), Fail> {
    let alloc = rt.alloc();
    let cells = [
        cell(0, Letter::D, 0),
        cell(1, Letter::E, 0),
        cell(16, Letter::D, 1),
    ];
    let p = plan(alloc, 24, &cells)?;
    let files = [("d.xrl", PIXEL), ("e.xrl", PIXEL)];
    goes_through_three::<Brand>(&rt, alloc, &p, &files, [(3, 1), (1, 1), (1, 0)])
}

#[test]
fn the_room_of_a_drawing_that_was_let_go_is_free_again(rt: HostRuntime) -> Result<(), Fail> {
    let alloc = rt.alloc();
    let cells = [
        cell(0, Letter::D, 0),
        cell(7, Letter::E, 0),
        cell(8, Letter::F, 0),
        cell(16, Letter::D, 1),
    ];
    let p = plan(alloc, 17, &cells)?;
    let all = [("d.xrl", PIXEL), ("e.xrl", PIXEL), ("f.xrl", PIXEL)];
    goes_through_three::<Brand>(&rt, alloc, &p, &all, [(3, 1), (5, 1), (1, 0)])
}

/// The third drawing, then the first, then the second.
fn third_first(alloc: Global) -> Result<Plan, Fail>
    ensures { IfOk result (λ p. p.drawings ≡ 3) }
{
    let cells = [
        cell(0, Letter::F, 0),
        cell(1, Letter::D, 0),
        cell(2, Letter::E, 0),
    ];
    plan(alloc, 3, &cells)
}

/// The answer that a file is refused.
fn level(at: u32, drawing: u32, code: LevelCode) -> Loaded {
    Loaded::Level { at, drawing, code }
}

#[test]
fn a_refused_file_is_told_at_its_first_place(rt: HostRuntime) -> Result<(), Fail> {
    let alloc = rt.alloc();
    let p = third_first(alloc)?;
    let one = [("f.xrl", PIXEL)];
    answers::<Brand>(
        &rt,
        alloc,
        &p,
        &one,
        &[],
        12,
        level(1, 0, LevelCode::Absent),
    )?;
    let other = [("d.xrl", OTHER), ("f.xrl", PIXEL)];
    answers::<Brand>(
        &rt,
        alloc,
        &p,
        &other,
        &[],
        12,
        level(1, 0, LevelCode::KindDiffers),
    )?;
    let short = [("d.xrl", PIXEL), ("e.xrl", SHORT), ("f.xrl", PIXEL)];
    answers::<Brand>(
        &rt,
        alloc,
        &p,
        &short,
        &[],
        12,
        level(2, 1, LevelCode::Length),
    )?;
    Ok(())
}

#[test]
fn the_drawing_that_passes_the_limit_is_told(rt: HostRuntime) -> Result<(), Fail> {
    let alloc = rt.alloc();
    let p = third_first(alloc)?;
    let all = [("d.xrl", PIXEL), ("e.xrl", PIXEL), ("f.xrl", PIXEL)];
    answers::<Brand>(&rt, alloc, &p, &all, &[], 12, Loaded::Done)?;
    answers::<Brand>(
        &rt,
        alloc,
        &p,
        &all,
        &[],
        8,
        Loaded::Limit { at: 2, drawing: 1 },
    )?;
    answers::<Brand>(
        &rt,
        alloc,
        &p,
        &all,
        &[],
        7,
        Loaded::Limit { at: 1, drawing: 0 },
    )?;
    Ok(())
}

#[test]
fn a_fault_of_the_library_is_told_where_it_came(rt: HostRuntime) -> Result<(), Fail> {
    let alloc = rt.alloc();
    let p = third_first(alloc)?;
    let all = [("d.xrl", PIXEL), ("e.xrl", PIXEL), ("f.xrl", PIXEL)];
    answers::<Brand>(&rt, alloc, &p, &all, &[3], 12, Loaded::ReadFault { at: 2 })?;
    answers::<Brand>(
        &rt,
        alloc,
        &p,
        &all,
        &[2, 3],
        4,
        Loaded::ReadFault { at: 1 },
    )?;
    Ok(())
}
