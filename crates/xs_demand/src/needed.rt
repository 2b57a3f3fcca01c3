//! Laws of the drawings that a section needs.

ghost use Rattle.std.specs.Prelude.{◌≡◌, ◌<◌, ◌*◌, ℕ, List, length, map, take, drop};
ghost use Rattle.xs_base.specs.declared.limits.TheConstants.{SECTION_ROWS};
ghost use Rattle.xs_base.specs.Once.{fresh};
ghost use Rattle.xs_base.specs.Sections.{rows_of, rows_before, section_rows};
ghost use Rattle.xs_rect.specs.Area.{Area};
ghost use Rattle.xs_scene.specs.Records.{SceneRecord};
ghost use Rattle.xs_meaning.specs.Expressions.{Expr, needed, root_of};
ghost use Rattle.xs_plan.specs.Record.{PlanRecord};
ghost use Rattle.xs_plan.specs.Needed.{new_drawings};
ghost use Rattle.xs_demand.specs.Images.{drawings_in};
ghost use Rattle.xs_demand.specs.Shown.{ShowsRoots};

use xs_base::laws::each_number_is_taken_once;

/// The drawings that a section of a plan is the first to need are those of its rows that no earlier row has,
/// each once, in the order in which a walk over the rows' roots meets them; for the rows of a range of a scene,
/// those that its rows need and no row of an earlier section needs.
pub fn needed_drawings_are_those_of_the_rows()
    ensures roots { (tiles : List Area) (roots : List Expr) (p : PlanRecord) → ShowsRoots tiles roots p
        → 0 < length tiles
        → (s : ℕ) → new_drawings p s
        ≡ fresh (drawings_in (take (SECTION_ROWS * s) roots))
        (drawings_in (take SECTION_ROWS (drop (SECTION_ROWS * s) roots))) }
    ensures scenes { (s : SceneRecord) (from to : ℕ) (tiles : List Area) (p : PlanRecord)
        → ShowsRoots tiles (map (root_of s) (rows_of from to)) p → 0 < length tiles
        → (n : ℕ) → new_drawings p n ≡ fresh (needed s (rows_before from to n)) (needed s (section_rows from to n)) }
{
    each_number_is_taken_once();
}
