ghost use Rattle.std.specs.Prelude.{◌≡◌, ◌<◌, None, All, IfOk, IfSome, length, replicate};
ghost use Rattle.xs_plan.specs.Record.{PlanRecord, drawing_of};
ghost use Rattle.xs_plan.specs.Draft.{AreLast};
ghost use Rattle.xs_plan.specs.Kept.{TellFirsts, with_section};

use crate::aliases::Aliases;
use crate::news::needed_drawing;
use std::alloc::Global;
use xs_base::Memory;

/// The last section that needs each of so many drawings, in one pass over the aliases: their first sections, which
/// a list has, never fall.
pub(crate) fn last_sections(
    alloc: Global,
    aliases: &Aliases,
    firsts: &Vec<u32>,
    drawings: u32,
) -> Result<Vec<Option<u32>>, Memory>
    requires firsts { length firsts.now.items ≡ length aliases.now.entries }
    requires drawings { All (λ e. IfSome (drawing_of e.job) (λ d. d < drawings)) aliases.now.entries }
    ensures many { IfOk result (λ last. length last.items ≡ drawings) }
    ensures last { IfOk result (λ last. (p : PlanRecord) → TellFirsts p aliases.now.entries firsts.now.items
        → AreLast p last.items) }
{
    let mut last = no_sections(alloc, drawings)?;
    for k in 0..aliases.len() {
        tell_section(
            &mut last,
            needed_drawing(aliases.job(k)),
            firsts[k as usize],
        );
    }
    Ok(last)
}

/// No section for each of so many drawings.
fn no_sections(alloc: Global, drawings: u32) -> Result<Vec<Option<u32>>, Memory>
    ensures { IfOk result (λ v. v.items ≡ replicate drawings None) }
{
    let mut sections = Vec::new(alloc);
    for _drawing in 0..drawings {
        sections.push(None)?;
    }
    Ok(sections)
}

/// Tells a section of a drawing, if there is one, in place of an earlier one.
fn tell_section(last: &mut Vec<Option<u32>>, drawing: Option<u32>, section: u32)
    requires { IfSome drawing (λ d. d < length last.old.items) }
    ensures { last.new.items ≡ with_section last.old.items drawing section }
{
    if let Some(d) = drawing {
        last[d as usize] = Some(section);
    }
}
