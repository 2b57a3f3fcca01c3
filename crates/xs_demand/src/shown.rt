//! Laws of the plans that show the roots of rows.

ghost use Rattle.std.specs.Prelude.{◌≡◌, ◌<◌, ◌+◌, ◌*◌, ℕ, Some, List, [], All, length, take, slice_get};
ghost use Rattle.xs_rect.specs.Area.{Area};
ghost use Rattle.xs_pixel.specs.Channels.{Channels};
ghost use Rattle.xs_meaning.specs.Expressions.{Expr, is_clear};
ghost use Rattle.xs_tint.specs.Tints.{tint_of};
ghost use Rattle.xs_plan.specs.declared.job.Job.{Job};
ghost use Rattle.xs_plan.specs.Record.{Entry, PlanRecord, rows_in, ports_of, input_rect, is_clear_job, drawing_of};
ghost use Rattle.xs_plan.specs.Reads.{readers_of, reads_in};
ghost use Rattle.xs_demand.specs.Aliases.{Alias, inputs_of, inputs_in, visit_rows, aliases_of};
ghost use Rattle.xs_demand.specs.Shown.{StandsAt, ShowsJob, ShowsAlias, ShowsRoots, drawing_in, plan_of, tints_of, tints_shown, uses_of};

/// A plan that shows the roots of rows is the plan of these roots, with its tints in their one canonical
/// form: so there is no other.
pub fn a_shown_plan_is_the_plan()
    ensures { (tiles : List Area) (roots : List Expr) (p : PlanRecord) → ShowsRoots tiles roots p
        → record p { tints = tints_shown p } ≡ plan_of tiles roots p.drawings }
{}

/// The plan of the roots of rows shows them, where the tints of the roots have their canonical form.
pub fn the_plan_shows_its_roots()
    ensures { (tiles : List Area) (roots : List Expr) (drawings : ℕ)
        → All (λ t. tint_of t ≡ t) (tints_of (aliases_of tiles roots))
        → ShowsRoots tiles roots (plan_of tiles roots drawings) }
{}

/// The readers of an alias are its uses: as inputs, and by rows and tiles.
pub fn readers_are_uses()
    ensures { (tiles : List Area) (roots : List Expr) (p : PlanRecord) → ShowsRoots tiles roots p
        → (x : Alias) (k : ℕ) → StandsAt (aliases_of tiles roots) x k
        → readers_of p k ≡ uses_of tiles roots x }
{}

/// A plan that shows the roots of rows has as many aliases as they demand, in all and after each row; a root
/// for each row and tile; and a read for each input of an alias and for each row and tile.
pub fn a_shown_plan_has_what_is_counted()
    ensures aliases { (tiles : List Area) (roots : List Expr) (p : PlanRecord) → ShowsRoots tiles roots p
        → length p.entries ≡ length (aliases_of tiles roots) }
    ensures ends { (tiles : List Area) (roots : List Expr) (p : PlanRecord) → ShowsRoots tiles roots p
        → (row : ℕ) → row < length roots
        → slice_get p.ends row ≡ Some (length (visit_rows tiles (take (row + 1) roots) [])) }
    ensures rows { (tiles : List Area) (roots : List Expr) (p : PlanRecord) → ShowsRoots tiles roots p
        → rows_in p ≡ length roots }
    ensures roots { (tiles : List Area) (roots : List Expr) (p : PlanRecord) → ShowsRoots tiles roots p
        → length p.roots ≡ length roots * length tiles }
    ensures reads { (tiles : List Area) (roots : List Expr) (p : PlanRecord) → ShowsRoots tiles roots p
        → reads_in p ≡ inputs_in (aliases_of tiles roots) + length roots * length tiles }
{}

/// An entry that shows an alias asks for what its expression has: as many inputs, each on its rectangle; the one
/// drawing of a leaf; and its job is that of nothing exactly where the expression is clear.
pub fn shown_jobs_ask_for_their_inputs()
    ensures ports { (l : List Alias) (tints : List (List Channels)) (x : Alias) (e : Entry)
        → ShowsAlias l tints x e → length e.inputs ≡ ports_of e.job }
    ensures rects { (l : List Alias) (tints : List (List Channels)) (x : Alias) (e : Entry)
        → ShowsAlias l tints x e → All (λ input. input.rect ≡ input_rect e.job e.rect) (inputs_of x) }
    ensures clear { (tints : List (List Channels)) (expr : Expr) (job : Job) → ShowsJob tints expr job
        → is_clear_job job ≡ is_clear expr }
    ensures drawing { (tints : List (List Channels)) (expr : Expr) (job : Job) → ShowsJob tints expr job
        → drawing_of job ≡ drawing_in expr }
{}
