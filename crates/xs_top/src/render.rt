//! The rows of a scene, rendered by demand: section by section the drawings that it is the first to need are loaded,
//! all that comes first in it is made, each alias once, and its frames are put on the shelf.

ghost use Rattle.std.specs.Prelude.{◌≡◌, ◌≤◌, ◌<◌, ◌+◌, ◌∷◌, ℕ, List, [], length, Some, IfOk, OnOk, string_bytes, false};
ghost use Rattle.xs_base.specs.declared.limits.TheConstants.{LAST_ROW, LONGEST_SPAN};
ghost use Rattle.xs_base.specs.Sections.{section_rows, sections_of, rows_before};
ghost use Rattle.xs_check.specs.Good.{files_of};
ghost use Rattle.xs_core.specs.Views.{DeskOk, IsFresh};
ghost use Rattle.xs_rect.specs.Tiles.{tile_areas};
ghost use Rattle.xs_levels.specs.Films.{Files, film_of};
ghost use Rattle.xs_levels.specs.Stocked.{IsStock};
ghost use Rattle.xs_levels.specs.Table.{table_of};
ghost use Rattle.xs_plan.specs.Record.{rows_in};
ghost use Rattle.xs_plan.specs.Sections.{sections_in};
ghost use Rattle.xs_render.specs.Computed.{IsRecorded, HasEachOnce};
ghost use Rattle.xs_render.specs.Progress.{IsReady, IsOver};
ghost use Rattle.xs_render.specs.Scenes.{ShowsScene, area_of};
ghost use Rattle.xs_words.specs.Commands.{IsRange};
ghost use Rattle.xs_top.specs.declared.limits.TheConstants.{MOST_SECTION_BYTES};
ghost use Rattle.xs_top.specs.Causes.{answer_of, is_of_words, Fails};
ghost use Rattle.xs_top.specs.Drawings.{pictures_of, bytes_held_over};
ghost use Rattle.xs_top.specs.Leaves.{Keeps, Leaves, Quiet};
ghost use Rattle.xs_top.specs.Once.{ComputedOnce, IsClosedOf, NoneTwice};
ghost use Rattle.xs_top.specs.Outcome.{rendered_line, rendering, rendering_section, rendering_sections};
ghost use Rattle.xs_top.specs.Runs.{Does, Ends};
ghost use Rattle.xs_top.specs.Writes.{Writes};

use crate::demand::totals_line;
use crate::frames::place_rows;
use crate::limits::MOST_SECTION_BYTES;
use crate::loading::load_section;
use crate::outside::Outside;
use crate::scene::load_scene;
use crate::status::Status;
use std::alloc::Global;
use std::marker::Brand;
use xs_base::Memory;
use xs_bench::Bench;
use xs_check::GoodScene;
use xs_core::Desk;
use xs_demand::needed::needed_drawings_are_those_of_the_rows;
use xs_demand::shown::a_shown_plan_is_the_plan;
use xs_dryrun::plan;
use xs_frames::Frame;
use xs_levels::{Stock, a_scene_tells_its_drawings};
use xs_pixel::Film;
use xs_plan::Plan;
use xs_render::{
    a_section_has_its_drawings, all_is_rendered, make_section, new_frame, nothing_is_rendered_yet,
    sections_of_a_plan_are_those_of_its_rows,
};
use xs_scene::Name;
use xs_word_desk::{Cache, Closed};

/// Tells what a seat keeps.
fn look_over<K: Film, D: Desk<K>>(desk: &D)
    ensures { DeskOk (D.plan desk.now) (D.view desk.now) }
{
    let _ = desk;
}

/// Tells how many bytes a stock holds before a section: those of the drawings that are held over into it.
fn tells_what_is_held_over<K: Film>(good: &GoodScene, p: &Plan, s: u32, stock: &Stock<K>)
    requires stock { IsStock p.now (table_of good.now) stock.now }
    requires loaded { stock.now.loaded ≡ s }
    requires ended { stock.now.ended ≡ s }
    ensures { (files : Files) → K.pictures ≡ Some (pictures_of files good.now)
        → stock.now.bytes ≡ bytes_held_over files good.now p.now s }
{
    a_scene_tells_its_drawings();
    let _drawings = stock.drawings();
    let _ = good;
    let _ = p;
    let _ = s;
}

/// Renders a section of a scene's plan, which begins with row `from` of the scene.
fn render_section<K: Film, D: Desk<K>, O: Outside, B: Bench>(
    alloc: Global,
    good: &GoodScene,
    p: &Plan,
    s: u32,
    from: u32,
    base: &Name,
    stock: &mut Stock<K>,
    frame: &mut Frame<K>,
    desk: &mut D,
    bench: &mut B,
    outside: &mut O,
) -> Result<(), Status>
    requires film { K.pictures ≡ film_of (O.view outside.old).seen.files (table_of good.now) }
    requires scene { ShowsScene good.now from (rows_in p.now) p.now }
    requires drawings { p.now.drawings ≡ length (files_of good.now.levels) }
    requires range { from + rows_in p.now ≤ LAST_ROW + 1 }
    requires there { s < sections_in p.now }
    requires stock { IsStock p.now (table_of good.now) stock.old }
    requires loaded { stock.old.loaded ≡ s }
    requires ended { stock.old.ended ≡ s }
    requires limit { stock.old.limit ≡ MOST_SECTION_BYTES }
    requires frame { p.now ≡ frame.old.plan }
    requires area { frame.old.image.area ≡ area_of good.now }
    requires plan { D.plan desk.old ≡ p.now }
    requires ready { IsReady p.now s (D.view desk.old) }
    requires recorded { IsRecorded (D.view desk.old) (B.made bench.old) }
    ensures did { (to : ℕ) → from + rows_in p.now ≡ to + 1
        → Does (λ files. rendering_section files good.now base.now p.now s (rows_before from to s) (section_rows from to s))
        (O.view outside.old) (O.view outside.new) result }
    ensures keeps { Keeps (O.view outside.old) (O.view outside.new) (answer_of result) }
    ensures fails { Fails result }
    ensures stock { OnOk result (IsStock p.now (table_of good.now) stock.new) }
    ensures loaded { OnOk result ((stock.new.loaded ≡ s + 1) × (stock.new.ended ≡ s + 1)) }
    ensures limit { OnOk result (stock.new.limit ≡ MOST_SECTION_BYTES) }
    ensures frame { OnOk result (frame.new.plan ≡ frame.old.plan) }
    ensures area { OnOk result (frame.new.image.area ≡ frame.old.image.area) }
    ensures plan { OnOk result (D.plan desk.new ≡ p.now) }
    ensures home { OnOk result ((D.view desk.new).home ≡ (D.view desk.old).home) }
    ensures ready { OnOk result (IsReady p.now (s + 1) (D.view desk.new)) }
    ensures recorded { OnOk result (IsRecorded (D.view desk.new) (B.made bench.new)) }
    ensures twice { NoneTwice (B.made bench.new) }
{
    // what may be relied on in a plan
    p.aliases();
    needed_drawings_are_those_of_the_rows();
    a_section_has_its_drawings();
    tells_what_is_held_over(good, p, s, stock);
    load_section(alloc, good, p, s, stock, outside)?;
    make_section(alloc, p, s, stock.drawings(), desk, bench)?;
    place_rows(alloc, good, p, s, from, base, desk, frame, outside)?;
    stock.end(s);
    Ok(())
}

/// A clear frame for the rows of a scene's plan.
fn scene_frame<K: Film>(alloc: Global, good: &GoodScene, p: &Plan) -> Result<Frame<K>, Memory>
    requires tiles { p.now.tiles ≡ tile_areas good.now.camera.w good.now.camera.h }
    ensures plan { IfOk result (λ frame. frame.plan ≡ p.now) }
    ensures area { IfOk result (λ frame. frame.image.area ≡ area_of good.now) }
{
    let camera = &good.scene().camera;
    new_frame(alloc, p, camera.w, camera.h)
}

/// Renders the sections of a scene's plan in order at a fresh seat and bench.
fn render_sections<K: Film, D: Desk<K>, O: Outside, B: Bench>(
    alloc: Global,
    good: &GoodScene,
    p: &Plan,
    from: u32,
    base: &Name,
    desk: &mut D,
    bench: &mut B,
    outside: &mut O,
) -> Result<(), Status>
    requires film { K.pictures ≡ film_of (O.view outside.old).seen.files (table_of good.now) }
    requires scene { ShowsScene good.now from (rows_in p.now) p.now }
    requires drawings { p.now.drawings ≡ length (files_of good.now.levels) }
    requires range { from + rows_in p.now ≤ LAST_ROW + 1 }
    requires plan { D.plan desk.old ≡ p.now }
    requires fresh { IsFresh (D.view desk.old) }
    requires unused { B.made bench.old ≡ [] }
    ensures did { (to : ℕ) → from + rows_in p.now ≡ to + 1 → from ≤ to
        → Does (λ files. rendering_sections files good.now base.now p.now 0 [] (sections_of from to))
        (O.view outside.old) (O.view outside.new) result }
    ensures keeps { Keeps (O.view outside.old) (O.view outside.new) (answer_of result) }
    ensures fails { Fails result }
    ensures over { OnOk result (IsOver p.now (D.view desk.new)) }
    ensures plan { OnOk result (D.plan desk.new ≡ p.now) }
    ensures home { OnOk result ((D.view desk.new).home ≡ (D.view desk.old).home) }
    ensures each { OnOk result (HasEachOnce p.now (B.made bench.new)) }
    ensures twice { NoneTwice (B.made bench.new) }
{
    a_scene_tells_its_drawings();
    sections_of_a_plan_are_those_of_its_rows();
    // what may be relied on in a plan
    p.aliases();
    let mut stock: Stock<K> = Stock::new(alloc, good, p, MOST_SECTION_BYTES)?;
    let mut frame: Frame<K> = scene_frame(alloc, good, p)?;
    nothing_is_rendered_yet(p, desk);
    for s in 0..p.sections() {
        render_section(
            alloc, good, p, s, from, base, &mut stock, &mut frame, desk, bench, outside,
        )?;
    }
    all_is_rendered(p, desk);
    Ok(())
}

/// Renders the rows of a scene's plan in a cache of it, under a film of the scene's pictures.
pub(crate) fn render_rows<K: Film, O: Outside, B: Bench>(
    alloc: Global,
    good: &GoodScene,
    p: &Plan,
    from: u32,
    base: &Name,
    outside: &mut O,
    bench: &mut B,
) -> Result<Closed, Status>
    requires film { K.pictures ≡ film_of (O.view outside.old).seen.files (table_of good.now) }
    requires scene { ShowsScene good.now from (rows_in p.now) p.now }
    requires drawings { p.now.drawings ≡ length (files_of good.now.levels) }
    requires range { from + rows_in p.now ≤ LAST_ROW + 1 }
    requires unused { B.made bench.old ≡ [] }
    ensures did { (to : ℕ) → from + rows_in p.now ≡ to + 1 → from ≤ to
        → Does (λ files. rendering_sections files good.now base.now p.now 0 [] (sections_of from to))
        (O.view outside.old) (O.view outside.new) result }
    ensures keeps { Keeps (O.view outside.old) (O.view outside.new) (answer_of result) }
    ensures fails { Fails result }
    ensures closed { IfOk result (λ closed. IsClosedOf p.now closed) }
    ensures each { OnOk result (HasEachOnce p.now (B.made bench.new)) }
    ensures twice { NoneTwice (B.made bench.new) }
{
    // what may be relied on in a plan
    p.aliases();
    let (cache, pass) = Cache::<K>::new(alloc, p)?;
    let mut desk = cache.desk(pass);
    render_sections(alloc, good, p, from, base, &mut desk, bench, outside)?;
    look_over(&desk);
    let pass = desk.leave();
    Ok(cache.close(pass))
}

/// The line at the end of the rows of a plan.
fn rendered_line(alloc: Global, p: &Plan) -> Result<String, Memory>
    ensures { IfOk result (λ line. string_bytes line ≡ rendered_line p.now) }
{
    let totals = totals_line(alloc, p)?;
    Ok(format!(in alloc; "rendered {totals}")?)
}

/// Writes the line at the end of the rows of a plan.
fn note_rows<O: Outside>(alloc: Global, p: &Plan, outside: &mut O) -> Result<(), Status>
    ensures wrote { Writes (rendered_line p.now ∷ []) (O.view outside.old).seen (O.view outside.new).seen result }
    ensures leaves { Leaves (O.view outside.old).seen (O.view outside.new).seen (answer_of result) }
    ensures same { (O.view outside.new).names ≡ (O.view outside.old).names }
    ensures fails { Fails result }
{
    let line = rendered_line(alloc, p)?;
    outside.note(alloc, line.as_bytes())
}

/// Renders rows `from` to `to` of a scene.
pub(crate) fn render<O: Outside, B: Bench>(
    alloc: Global,
    scene: &Name,
    from: u32,
    to: u32,
    base: &Name,
    outside: &mut O,
    bench: &mut B,
) -> Result<Closed, Status>
    requires range { IsRange from LONGEST_SPAN to }
    requires unused { B.made bench.old ≡ [] }
    ensures did { Ends (λ files. rendering files scene.now from to base.now) (O.view outside.old) (O.view outside.new) result }
    ensures leaves { Leaves (O.view outside.old).seen (O.view outside.new).seen (answer_of result) }
    ensures quiet { Quiet (O.view outside.old).seen (O.view outside.new).seen (answer_of result) }
    ensures words { is_of_words (answer_of result) ≡ false }
    ensures same { (O.view outside.new).names ≡ (O.view outside.old).names }
    ensures fails { Fails result }
    ensures once { IfOk result (λ closed.
        ComputedOnce (O.view outside.old).seen.files scene.now from to (B.made bench.new) closed) }
    ensures twice { NoneTwice (B.made bench.new) }
{
    a_shown_plan_is_the_plan();
    sections_of_a_plan_are_those_of_its_rows();
    let good = load_scene(alloc, scene, outside)?;
    let p = plan(alloc, &good, from, to)?;
    let closed = render_rows::<Brand, O, B>(alloc, &good, &p, from, base, outside, bench)?;
    note_rows(alloc, &p, outside)?;
    Ok(closed)
}
