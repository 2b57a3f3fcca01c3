//! Laws of what is generated, each on a function that does nothing: its contract is the law.

ghost use Rattle.std.specs.Prelude.{◌≡◌, ◌≤◌, ◌<◌, ℕ, List, None, Some, length, map};
ghost use Rattle.xs_base.specs.Sections.{rows_of};
ghost use Rattle.xs_base.specs.declared.limits.TheConstants.{DRAWING_LIMIT, MOST_GENERATED_ROWS};
ghost use Rattle.xs_check.specs.Good.{files_of};
ghost use Rattle.xs_check.specs.Passes.{first_fault};
ghost use Rattle.xs_demand.specs.Limits.{first_limit};
ghost use Rattle.xs_levels.specs.Films.{fault_of, pictures_of};
ghost use Rattle.xs_levels.specs.Table.{file_of, kind_of, raw_kind_of, table_of};
ghost use Rattle.xs_make.specs.Files.{files_from};
ghost use Rattle.xs_make.specs.Scenes.{scene_from};
ghost use Rattle.xs_meaning.specs.Expressions.{drawings_of, root_of};
ghost use Rattle.xs_outside.specs.Files.{file_in};
ghost use Rattle.xs_rawfile.specs.Level.{first_fault as first_file_fault};
ghost use Rattle.xs_plan.specs.Needed.{picture_bytes};
ghost use Rattle.xs_scene.specs.InRange.{IsInRange};
ghost use Rattle.xs_rect.specs.Tiles.{tile_areas};

use xs_demand::aliases::rows_add_few;
use xs_demand::limits::no_limit_is_passed_where_all_fits;
use xs_rawfile::level_format;

/// Checking finds no fault in a generated scene, whatever its seed and however many rows it has.
pub fn generated_scenes_have_no_fault()
    ensures { (seed rows : ℕ) → first_fault (scene_from seed rows) ≡ None }
{}

/// The numbers of a generated scene are in their ranges.
pub fn generated_scenes_are_in_range()
    ensures { (seed rows : ℕ) → 1 ≤ rows → rows ≤ MOST_GENERATED_ROWS → IsInRange (scene_from seed rows) }
{}

/// The file of each drawing of a generated scene is among those that are generated with it. It is no longer than such a
/// file may be, its text has no fault, and so a library of these files has none at the drawing. Its picture has at most the
/// bytes of 192 by 128 pixels.
pub fn generated_files_are_accepted()
    ensures accepted { (seed rows d : ℕ) → d < length (files_of (scene_from seed rows).levels)
        → (bytes : List ℕ)
        × (file_in (files_from seed) (file_of (table_of (scene_from seed rows)) d) ≡ Some bytes)
        × (length bytes ≤ DRAWING_LIMIT)
        × (first_file_fault (raw_kind_of (kind_of (table_of (scene_from seed rows)) d)) bytes ≡ None) }
    ensures small { (seed rows d : ℕ)
        → picture_bytes (pictures_of (file_in (files_from seed)) (table_of (scene_from seed rows)) d) ≤ 98304 }
    ensures faultless { (seed rows d : ℕ) → d < length (files_of (scene_from seed rows).levels)
        → fault_of (file_in (files_from seed)) (table_of (scene_from seed rows)) d ≡ None }
{
    level_format();
}

/// A row of a generated scene shows at most nine drawings, each counted as often as it is shown.
pub fn generated_rows_show_few_drawings()
    ensures { (seed rows row : ℕ) → length (drawings_of (root_of (scene_from seed rows) row)) ≤ 9 }
{}

/// The rows of a generated scene together pass no limit of what rows may demand.
pub fn generated_rows_pass_no_limit()
    ensures { (seed rows : ℕ) → rows ≤ MOST_GENERATED_ROWS
        → first_limit (tile_areas 192 128) (map (root_of (scene_from seed rows)) (rows_of 1 rows)) ≡ None }
{
    rows_add_few();
    no_limit_is_passed_where_all_fits();
}
