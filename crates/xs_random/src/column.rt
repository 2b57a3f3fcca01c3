use crate::failure::Failure;
use crate::made::made;
use crate::peg::peg_of;
use crate::random::Random;
use std::alloc::Global;
use xs_base::List;
use xs_scene::{Column, Exposure, Level, Peg, Shown};

/// What the columns of a sheet may show: the drawings of these levels, and the sheets behind it.
#[derive(Clone, Copy)]
pub struct Choice<'a> {
    /// The levels of the scene.
    pub levels: &'a [Level],
    /// The number of the next sheet.
    pub next: u32,
    /// How many sheets there are.
    pub sheets: u32,
}

/// A drawing of a level.
fn drawing(random: &mut Random, levels: &[Level]) -> Result<Shown, Failure> {
    let level = random.one_of(levels);
    let drawings = &made(levels.get(level as usize))?.drawings;
    Ok(Shown::Drawing {
        level,
        index: random.one_of(drawings.items()),
    })
}

/// A drawing, or rows of a later sheet where there is one.
fn shown(random: &mut Random, choice: Choice) -> Result<Shown, Failure> {
    let later = choice.sheets.saturating_sub(choice.next);
    if later == 0 || random.one_in(2) {
        return drawing(random, choice.levels);
    }
    Ok(Shown::Sheet {
        sheet: choice.next.saturating_add(random.below(later)),
        start: random.from_to(1, 6),
    })
}

/// Three to five exposures, some with a gap before them.
fn cells(alloc: Global, random: &mut Random, choice: Choice) -> Result<List<Exposure>, Failure> {
    let mut cells = Vec::new(alloc);
    let mut row = random.below(3);
    for _ in 0..random.from_to(3, 5) {
        let from = row.saturating_add(1);
        let to = random.row_behind(row);
        let shown = shown(random, choice)?;
        cells.push(made(Exposure::new(from, to, shown))?)?;
        row = to.saturating_add(u32::from(random.one_in(3)));
    }
    if random.one_in(2) {
        cells.reverse();
    }
    Ok(List::of(cells))
}

/// One to four columns, of which some are off.
pub fn columns(
    alloc: Global,
    random: &mut Random,
    pegs: &List<Peg>,
    choice: Choice,
) -> Result<List<Column>, Failure> {
    let mut columns = Vec::new(alloc);
    for _ in 0..random.from_to(1, 4) {
        let peg = peg_of(random, pegs.items());
        let off = random.one_in(6);
        let cells = cells(alloc, random, choice)?;
        columns.push(made(Column::new(peg, off, cells))?)?;
    }
    Ok(List::of(columns))
}
