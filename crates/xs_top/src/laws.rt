//! Laws of the outcome, in the words of its subject.
ghost use Rattle.std.specs.Prelude.{◌≡◌, ◌≤◌, ◌+◌, ◌*◌, ◌++◌, ◌∷◌, [], ℕ, List, None, Some, map};
ghost use Rattle.xs_base.specs.Once.{each_once};
ghost use Rattle.xs_check.specs.Passes.{first_fault};
ghost use Rattle.xs_rawfile.specs.Held.{picture_of};
ghost use Rattle.xs_rawfile.specs.Raw.{Raw};
ghost use Rattle.xs_scene.specs.Records.{SceneRecord};
ghost use Rattle.xs_base.specs.declared.limits.TheConstants.{SCENE_LIMIT, DRAWING_LIMIT};
ghost use Rattle.xs_top.specs.declared.status.Status.TheVariants as answers;
ghost use Rattle.xs_top.specs.Trace.{asks, puts, lines, Contents};
ghost use Rattle.xs_levels.specs.Films.{Files};
ghost use Rattle.xs_levels.specs.Films.{palettes_of, IsFileOf};
ghost use Rattle.xs_levels.specs.Table.{table_of, palette_number};
ghost use Rattle.xs_top.specs.Demand.{plan_in};
ghost use Rattle.xs_top.specs.Drawings.{file_of, kind_of, pictures_of};
ghost use Rattle.xs_meaning.specs.Expressions.{needed};
ghost use Rattle.xs_base.specs.Sections.{rows_of};
ghost use Rattle.xs_top.specs.Finished.{Says, AreAccepted, frames_of};
ghost use Rattle.xs_top.specs.Rendered.{AreWithin, IsRendered, ShowsTheRules};
ghost use Rattle.xs_top.specs.Outcome.{rendered_line, rendering};

use xs_base::laws::each_number_is_taken_once;
use xs_check::laws::scenes_without_a_fault_are_good;
use xs_levels::laws::pictures_of_files_are_coloured_as_written;
use xs_meaning::rules::{frames_go_row_by_row, values_follow_the_tables};
use xs_scene_json::texts_say_scenes_in_range;

/// A scene file may have 16 MiB, and the file of a drawing what the largest drawing has.
pub fn files_have_their_limits()
    ensures scene { SCENE_LIMIT ≡ 16 * (1024 * 1024) }
    ensures drawing { DRAWING_LIMIT ≡ 21 + 4 * (4096 * 4096) }
{}

/// A render of a scene without a fault, whose rows keep the limits and need only drawings that are there without a
/// fault, ends well. It has asked for the scene and then for each drawing that its rows need, once; the shelf has
/// gained exactly the frames of its rows, in order; and one line tells how many rows, aliases and reads they are.
pub fn a_good_scene_is_rendered()
    ensures ends { (files : Files) (name base : List ℕ) (s : SceneRecord) (from to : ℕ) → from ≤ to
        → Says files name s → first_fault s ≡ None → AreWithin files s from to → AreAccepted files s (rows_of from to)
        → (rendering files name from to base).status ≡ answers.Ok }
    ensures asked { (files : Files) (name base : List ℕ) (s : SceneRecord) (from to : ℕ) → from ≤ to
        → Says files name s → first_fault s ≡ None → AreWithin files s from to → AreAccepted files s (rows_of from to)
        → asks (rendering files name from to base).work
        ≡ name ∷ map (file_of s) (each_once (needed s (rows_of from to))) }
    ensures frames { (files : Files) (name base : List ℕ) (s : SceneRecord) (from to : ℕ) → from ≤ to
        → Says files name s → first_fault s ≡ None → AreWithin files s from to → AreAccepted files s (rows_of from to)
        → puts (rendering files name from to base).work ≡ frames_of files s base (rows_of from to) }
    ensures noted { (files : Files) (name base : List ℕ) (s : SceneRecord) (from to : ℕ) → from ≤ to
        → Says files name s → first_fault s ≡ None → AreWithin files s from to → AreAccepted files s (rows_of from to)
        → lines (rendering files name from to base).work ≡ rendered_line (plan_in s from to) ++ 10 ∷ [] }
{
    each_number_is_taken_once();
}

/// No other render ends well: a file says a scene without a fault, its rows keep the limits, and each drawing that
/// they need is there without a fault.
pub fn only_a_good_scene_is_rendered()
    ensures said { (files : Files) (name base : List ℕ) (from to : ℕ) → from ≤ to
        → (rendering files name from to base).status ≡ answers.Ok
        → (s : SceneRecord) × Says files name s × (first_fault s ≡ None) }
    ensures within { (files : Files) (name base : List ℕ) (s : SceneRecord) (from to : ℕ) → from ≤ to
        → Says files name s → (rendering files name from to base).status ≡ answers.Ok
        → AreWithin files s from to }
    ensures accepted { (files : Files) (name base : List ℕ) (s : SceneRecord) (from to : ℕ) → from ≤ to
        → Says files name s → (rendering files name from to base).status ≡ answers.Ok
        → AreAccepted files s (rows_of from to) }
{
    each_number_is_taken_once();
}

/// The frames of a render that ended well show what the rules give at each of their points. The picture of a
/// drawing whose file is there without a fault is what the file holds, under the palettes of the scene.
pub fn renders_show_the_rules()
    ensures rules { (files : Files) (name base : List ℕ) (from to : ℕ) (before now : Contents)
        → (rendered : IsRendered files name base from to before now)
        → ShowsTheRules rendered.scene (pictures_of files rendered.scene) }
    ensures drawn { (files : Files) (s : SceneRecord) (d : ℕ) (g : Raw) → IsFileOf files (table_of s) d g
        → pictures_of files s d ≡ Some (picture_of (palettes_of (table_of s)) g (palette_number (kind_of s d))) }
{
    texts_say_scenes_in_range();
    scenes_without_a_fault_are_good();
    values_follow_the_tables();
    frames_go_row_by_row();
    pictures_of_files_are_coloured_as_written();
}
