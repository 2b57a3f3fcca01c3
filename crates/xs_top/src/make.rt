//! The rows of a generated scene.

ghost use Rattle.std.specs.Prelude.{◌≡◌, ◌≤◌, ◌∷◌, [], IfOk, Some, None, Option, List, ℕ, string_bytes, false};
ghost use Rattle.xs_base.specs.declared.limits.TheConstants.{MOST_GENERATED_ROWS};
ghost use Rattle.xs_levels.specs.Films.{Files};
ghost use Rattle.xs_make.specs.Scenes.{scene_from};
ghost use Rattle.xs_top.specs.Causes.{answer_of, is_of_words, Fails};
ghost use Rattle.xs_top.specs.Generated.{made_base, made_files, made_line};
ghost use Rattle.xs_top.specs.Leaves.{Leaves, Quiet};
ghost use Rattle.xs_top.specs.Once.{ComputedRows, NoneTwice};
ghost use Rattle.xs_top.specs.Outcome.{making_rows};
ghost use Rattle.xs_top.specs.Ran.{RanMaking};
ghost use Rattle.xs_top.specs.Rendered.{RendersWhole};
ghost use Rattle.xs_top.specs.Runs.{Ends};
ghost use Rattle.xs_top.specs.Seen.{seen_of};
ghost use Rattle.xs_top.specs.Writes.{Writes};

use crate::demand::totals_line;
use crate::outside::{Borrows, Outside};
use crate::render::render_rows;
use crate::status::Status;
use crate::sums::PixelSum;
use std::alloc::Global;
use std::marker::Brand;
use xs_base::Memory;
use xs_base::laws::each_number_is_taken_once;
use xs_bench::Bench;
use xs_check::GoodScene;
use xs_check::laws::{drawings_of_rows_are_there, scenes_without_a_fault_are_good};
use xs_demand::shown::a_shown_plan_is_the_plan;
use xs_dryrun::plan;
use xs_levels::laws::pictures_of_files_are_coloured_as_written;
use xs_make::laws::{
    generated_files_are_accepted, generated_rows_pass_no_limit, generated_rows_show_few_drawings,
    generated_scenes_are_in_range, generated_scenes_have_no_fault,
};
use xs_make::{MadeLibrary, made};
use xs_meaning::expressions::frames_hold_pixels;
use xs_outside::{Notes, Shelf};
use xs_plan::Plan;
use xs_render::sections_of_a_plan_are_those_of_its_rows;
use xs_scene::Name;
use xs_word_desk::Closed;

/// The rows of a generated scene are rendered whole: its outcome ends well, with exactly its frames and one line, and the
/// sum of their pixels is a number of 64 bits.
pub fn generated_scenes_are_rendered_whole()
    ensures { (seed rows : ℕ) → 1 ≤ rows → rows ≤ MOST_GENERATED_ROWS → RendersWhole seed rows }
{
    each_number_is_taken_once();
    frames_hold_pixels();
    scenes_without_a_fault_are_good();
    drawings_of_rows_are_there();
    generated_scenes_are_in_range();
    generated_scenes_have_no_fault();
    generated_files_are_accepted();
    generated_rows_show_few_drawings();
    generated_rows_pass_no_limit();
    pictures_of_files_are_coloured_as_written();
}

/// With what the names of the frames begin.
fn made_base(alloc: Global) -> Result<Name, Memory>
    ensures { IfOk result (λ name. name ≡ made_base) }
{
    match Name::new(String::from_str(alloc, "make")?) {
        Some(name) => Ok(name),
        None => unreachable!(),
    }
}

/// The line at the end of the rows of a generated scene.
#[tactic(auto, unfolding(crate::specs::Generated::made_line))]
fn made_line(alloc: Global, seed: u32, p: &Plan, total: u64) -> Result<String, Memory>
    ensures { IfOk result (λ line. string_bytes line ≡ made_line seed p.now total) }
{
    let totals = totals_line(alloc, p)?;
    Ok(format!(in alloc; "made seed {seed}, {totals}, sum {total}")?)
}

/// Writes the line at the end of the rows of a generated scene.
fn note_made<O: Outside>(
    alloc: Global,
    seed: u32,
    p: &Plan,
    total: u64,
    outside: &mut O,
) -> Result<(), Status>
    ensures wrote { Writes (made_line seed p.now total ∷ []) (O.view outside.old).seen (O.view outside.new).seen result }
    ensures leaves { Leaves (O.view outside.old).seen (O.view outside.new).seen (answer_of result) }
    ensures same { (O.view outside.new).names ≡ (O.view outside.old).names }
    ensures fails { Fails result }
{
    let line = made_line(alloc, seed, p, total)?;
    outside.note(alloc, line.as_bytes())
}

/// Renders the rows of a generated scene over an outside whose library has its files, and which sums the pixels of the
/// frames.
fn make_rows<O: Outside, B: Bench>(
    alloc: Global,
    seed: u32,
    rows: u32,
    good: &GoodScene,
    outside: &mut O,
    bench: &mut B,
) -> Result<Closed, Status>
    requires least { 1 ≤ rows }
    requires most { rows ≤ MOST_GENERATED_ROWS }
    requires scene { good.now ≡ scene_from seed rows }
    requires files { (O.view outside.old).seen.files ≡ Some (made_files seed) }
    requires sum { (O.view outside.old).seen.told.sum ≡ Some 0 }
    requires unused { B.made bench.old ≡ [] }
    ensures did { Ends (λ _. making_rows seed rows) (O.view outside.old) (O.view outside.new) result }
    ensures leaves { Leaves (O.view outside.old).seen (O.view outside.new).seen (answer_of result) }
    ensures quiet { Quiet (O.view outside.old).seen (O.view outside.new).seen (answer_of result) }
    ensures words { is_of_words (answer_of result) ≡ false }
    ensures same { (O.view outside.new).names ≡ (O.view outside.old).names }
    ensures fails { Fails result }
    ensures once { IfOk result (λ closed. ComputedRows (scene_from seed rows) 1 rows (B.made bench.new) closed) }
    ensures twice { NoneTwice (B.made bench.new) }
{
    generated_scenes_are_rendered_whole();
    a_shown_plan_is_the_plan();
    sections_of_a_plan_are_those_of_its_rows();
    let p = plan(alloc, good, 1, rows)?;
    let base = made_base(alloc)?;
    let closed = render_rows::<Brand, O, B>(alloc, good, &p, 1, &base, outside, bench)?;
    let total = outside.sum().unwrap_or(0);
    note_made(alloc, seed, &p, total, outside)?;
    Ok(closed)
}

/// Renders rows 1 to `rows` of the scene that a seed gives, over its own files. Where it comes through, the closing record
/// of the cache is answered.
pub(crate) fn make<S: Shelf, T: Notes, B: Bench>(
    alloc: Global,
    seed: u32,
    rows: u32,
    shelf: &mut S,
    notes: &mut T,
    bench: &mut B,
) -> Result<Closed, Status>
    requires least { 1 ≤ rows }
    requires most { rows ≤ MOST_GENERATED_ROWS }
    requires unused { B.made bench.old ≡ [] }
    ensures ran { (files : Option Files) (asked : Option (List (List ℕ))) (faults : ℕ) → RanMaking seed rows
        (seen_of files asked faults (S.objects shelf.old) (S.faults shelf.old) (T.written notes.old) (T.faults notes.old))
        (seen_of files asked faults (S.objects shelf.new) (S.faults shelf.new) (T.written notes.new) (T.faults notes.new))
        (answer_of result) }
    ensures fails { Fails result }
    ensures once { IfOk result (λ closed. ComputedRows (scene_from seed rows) 1 rows (B.made bench.new) closed) }
    ensures twice { NoneTwice (B.made bench.new) }
{
    generated_scenes_are_rendered_whole();
    let generated = made(alloc, seed, rows)?;
    let mut library = MadeLibrary::new(alloc, generated.files);
    let mut outside = Borrows {
        library: &mut library,
        shelf,
        notes,
        sum: PixelSum { total: 0 },
    };
    let done = make_rows(alloc, seed, rows, &generated.scene, &mut outside, bench);
    let Borrows {
        library: _,
        shelf,
        notes,
        sum: _,
    } = outside;
    // The borrows end here.
    let _shelf = shelf;
    let _notes = notes;
    done
}
