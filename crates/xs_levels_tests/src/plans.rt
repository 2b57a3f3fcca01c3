//! Plans of three drawings before a camera of one pixel.

ghost use Rattle.std.specs.Prelude.{◌≡◌, ◌<◌, ◌≤◌, ◌+◌, [], ◌∷◌, IfOk, OnOk, pos};
ghost use Rattle.xs_rect.specs.Area.{area};
ghost use Rattle.xs_levels_tests.specs.Rows.{HasRows, IsShown};

use std::alloc::Global;
use xs_base::Memory;
use xs_plan::laws::aliases_reach_what_their_inputs_reach;
use xs_plan::{Builder, Job, Plan};
use xs_rect::{Rect, tiles};

/// One of the three drawings, by the letter of its file.
#[derive(Clone, Copy, Debug)]
pub(crate) enum Letter {
    D,
    E,
    F,
}

impl Letter {
    /// The number of the drawing.
    fn number(self) -> u32
        ensures { result < 3 }
    {
        match self {
            Letter::D => 0,
            Letter::E => 1,
            Letter::F => 2,
        }
    }
}

/// A drawing on a row, from 0, and how many pixels it is moved to the right there.
#[derive(Clone, Copy, Debug)]
pub(crate) struct Cell {
    pub(crate) row: u32,
    pub(crate) letter: Letter,
    pub(crate) dx: i8,
}

/// What a row shows: the drawing of its first cell, or nothing.
fn shown(cells: &[Cell], row: u32) -> Job
    ensures { IsShown result }
{
    for cell in cells {
        if cell.row == row {
            return leaf(cell.letter, cell.dx);
        }
    }
    Job::Clear
}

/// Shows a drawing, so many pixels to the right.
fn leaf(letter: Letter, dx: i8) -> Job
    ensures { IsShown result }
{
    Job::Leaf {
        drawing: letter.number(),
        dx: i32::from(dx),
        dy: 0,
    }
}

/// The tile of a frame of one pixel.
#[tactic(auto, unfolding(xs_rect::specs::Tiles::tile_area))]
fn one_tile(alloc: Global, tile: Rect) -> Result<Vec<Rect>, Memory>
    requires { tile ≡ area (pos 0) (pos 0) 1 1 }
    ensures { IfOk result (λ v. v.items ≡ tile ∷ []) }
{
    Ok(tiles(alloc, 1, 1)?)
}

/// Gives the next row an alias of its own.
#[tactic(auto, using(crate::proofs::RowLemmas::rows_more, crate::proofs::RowLemmas::lacks))]
fn show(b: &mut Builder, tile: Rect, rows: u32, row: u32, job: Job) -> Result<(), Memory>
    requires tile { tile ≡ area (pos 0) (pos 0) 1 1 }
    requires has { HasRows tile rows row b.old }
    requires row { row < rows }
    requires few { rows ≤ 4096 }
    requires job { IsShown job }
    ensures { OnOk result (HasRows tile rows (row + 1) b.new) }
{
    aliases_reach_what_their_inputs_reach();
    let k = b.add(job, tile, None, None)?;
    b.root(k)?;
    Ok(())
}

/// A plan of so many rows with these cells.
#[tactic(auto, using(crate::proofs::RowLemmas::has_all))]
pub(crate) fn plan_of(alloc: Global, tile: Rect, rows: u32, cells: &[Cell]) -> Result<Plan, Memory>
    requires tile { tile ≡ area (pos 0) (pos 0) 1 1 }
    requires some { 1 ≤ rows }
    requires few { rows ≤ 4096 }
    ensures { IfOk result (λ p. p.drawings ≡ 3) }
{
    let mut b = Builder::new(alloc, one_tile(alloc, tile)?, rows)?;
    for row in 0..rows {
        show(&mut b, tile, rows, row, shown(cells, row))?;
    }
    b.finish(3)
}
