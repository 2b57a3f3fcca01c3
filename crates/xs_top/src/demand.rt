//! The demand of a range of rows, line by line.

ghost use Rattle.std.specs.Prelude.{◌≡◌, ◌<◌, ◌≤◌, ◌-◌, [], ◌∷◌, IfOk, MatchResult, length, string_bytes, true, false};
ghost use Rattle.xs_base.specs.declared.limits.TheConstants.{LONGEST_SPAN};
ghost use Rattle.xs_lines.specs.Lines.{alias_lines, with_ends};
ghost use Rattle.xs_words.specs.Commands.{IsRange};
ghost use Rattle.xs_top.specs.Causes.{answer_of, is_of_words};
ghost use Rattle.xs_top.specs.Demand.{totals_line, demand_lines};
ghost use Rattle.xs_top.specs.Leaves.{Leaves, QuietUnless};
ghost use Rattle.xs_top.specs.Outcome.{demanding};
ghost use Rattle.xs_top.specs.Runs.{Ends, Undone};
ghost use Rattle.xs_top.specs.Writes.{with_bytes, StopsWriting, Writes};

use crate::outside::Outside;
use crate::scene::load_scene;
use crate::status::Status;
use std::alloc::Global;
use xs_base::Memory;
use xs_demand::shown::a_shown_plan_is_the_plan;
use xs_dryrun::plan;
use xs_lines::fill_lines;
use xs_lines::laws::a_front_part_of_lines_ends_in_one_of_them;
use xs_plan::Plan;
use xs_scene::Name;

/// Writes the demand of rows `from` to `to` of a scene: a line for each alias, and one for all.
pub(crate) fn demand<O: Outside>(
    alloc: Global,
    scene: &Name,
    from: u32,
    to: u32,
    outside: &mut O,
) -> Result<(), Status>
    requires { IsRange from LONGEST_SPAN to }
    ensures did { Ends (λ files. demanding files scene.now from to) (O.view outside.old) (O.view outside.new) result }
    ensures leaves { Leaves (O.view outside.old).seen (O.view outside.new).seen (answer_of result) }
    ensures quiet { QuietUnless true (O.view outside.old).seen (O.view outside.new).seen (answer_of result) }
    ensures undone { Undone (λ files. demanding files scene.now from to) (O.view outside.old).seen (O.view outside.new).seen (answer_of result) }
    ensures words { is_of_words (answer_of result) ≡ false }
    ensures same { (O.view outside.new).names ≡ (O.view outside.old).names }
{
    a_shown_plan_is_the_plan();
    let good = load_scene(alloc, scene, outside)?;
    let plan = plan(alloc, &good, from, to)?;
    note_plan(alloc, &plan, outside)
}

/// How many rows, aliases and reads there are.
pub(crate) fn totals_line(alloc: Global, plan: &Plan) -> Result<String, Memory>
    ensures { IfOk result (λ line. string_bytes line ≡ totals_line plan.now) }
{
    let (rows, aliases, reads) = (plan.rows(), plan.aliases(), plan.reads());
    Ok(format!(in alloc; "{rows} rows, {aliases} aliases, {reads} reads")?)
}

/// Writes the lines of a plan: one for each alias, and one for all.
fn note_plan<O: Outside>(alloc: Global, plan: &Plan, outside: &mut O) -> Result<(), Status>
    ensures wrote { Writes (demand_lines plan.now) (O.view outside.old).seen (O.view outside.new).seen result }
    ensures leaves { Leaves (O.view outside.old).seen (O.view outside.new).seen (answer_of result) }
    ensures same { (O.view outside.new).names ≡ (O.view outside.old).names }
{
    let totals = totals_line(alloc, plan)?;
    note_aliases(alloc, plan, outside)?;
    outside.note(alloc, totals.as_bytes())
}

/// Writes the lines of a plan's aliases, many at a time.
fn note_aliases<O: Outside>(alloc: Global, plan: &Plan, outside: &mut O) -> Result<(), Status>
    ensures wrote { Writes (alias_lines plan.now 0 (length plan.now.entries))
        (O.view outside.old).seen (O.view outside.new).seen result }
    ensures leaves { Leaves (O.view outside.old).seen (O.view outside.new).seen (answer_of result) }
    ensures same { (O.view outside.new).names ≡ (O.view outside.old).names }
{
    let aliases = plan.aliases();
    let mut text = Vec::new(alloc);
    let mut next = 0;
    while next < aliases {
        next = note_piece(alloc, plan, next, &mut text, outside)?;
    }
    Ok(())
}

/// Writes the lines of as many aliases from `from` on as make a piece, and answers the number of the alias behind them.
/// The text is where they are made.
fn note_piece<O: Outside>(
    alloc: Global,
    plan: &Plan,
    from: u32,
    text: &mut Vec<u8>,
    outside: &mut O,
) -> Result<u32, Status>
    requires { from < length plan.now.entries }
    ensures next { IfOk result (λ next. (from < next) × (next ≤ length plan.now.entries)) }
    ensures wrote { MatchResult result
        (λ next. (O.view outside.new).seen.told
        ≡ with_bytes (O.view outside.old).seen.told (with_ends (alias_lines plan.now from (next - from))))
        (StopsWriting (alias_lines plan.now from (length plan.now.entries - from))
        (O.view outside.old).seen (O.view outside.new).seen) }
    ensures leaves { Leaves (O.view outside.old).seen (O.view outside.new).seen (answer_of result) }
    ensures same { (O.view outside.new).names ≡ (O.view outside.old).names }
{
    a_front_part_of_lines_ends_in_one_of_them();
    let next = fill_lines(text, plan, from)?;
    outside.note(alloc, text.as_slice())?;
    Ok(next)
}
