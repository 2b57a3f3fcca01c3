ghost use Rattle.std.specs.Prelude.{◌≡◌, ◌<◌, ◌≤◌, ◌+◌, ◌-◌, ◌^◌, ◌++◌, false, All, IfOk, IfSome, OnOk, length, replicate, vec_len};
ghost use Rattle.xs_base.specs.Once.{each_once};
ghost use Rattle.xs_plan.specs.Record.{drawing_of};
ghost use Rattle.xs_plan.specs.Kept.{AreFirsts, AreFlags, AreStarts, drawings_in, with_drawing};

use crate::aliases::Aliases;
use crate::job::Job;
use std::alloc::Global;
use xs_base::Memory;

/// The drawings that aliases need, each once in the order in which sections need them, and how many of these
/// there are before each section and at the end.
#[derive(Debug, Drop)]
pub(crate) struct News {
    pub(crate) drawings: Vec<u32>,
    pub(crate) starts: Vec<u32>,
}

impl News {
    /// Those of aliases of which each has its first section in a list. There are so many sections and so many
    /// drawings.
    pub(crate) fn of(
        alloc: Global,
        aliases: &Aliases,
        firsts: &Vec<u32>,
        sections: u32,
        drawings: u32,
    ) -> Result<News, Memory>
        requires firsts { AreFirsts aliases.now.entries firsts.now.items sections }
        requires drawings { All (λ e. IfSome (drawing_of e.job) (λ d. d < drawings)) aliases.now.entries }
        requires room { sections + 1 < 2 ^ 32 }
        ensures drawings { IfOk result (λ n. n.drawings.items ≡ each_once (drawings_in aliases.now.entries)) }
        ensures starts { IfOk result (λ n. AreStarts aliases.now.entries firsts.now.items n.starts.items) }
        ensures many { IfOk result (λ n. length n.starts.items ≡ sections + 1) }
    {
        let mut known = no_flags(alloc, drawings)?;
        let mut news = Vec::new(alloc);
        let mut starts = Vec::new(alloc);
        for k in 0..aliases.len() {
            start_sections(&mut starts, firsts[k as usize] + 1, news.len() as u32)?;
            take_drawing(&mut known, &mut news, needed_drawing(aliases.job(k)))?;
        }
        start_sections(&mut starts, sections + 1, news.len() as u32)?;
        Ok(News {
            drawings: news,
            starts,
        })
    }
}

/// So many flags, none of them set.
fn no_flags(alloc: Global, count: u32) -> Result<Vec<bool>, Memory>
    ensures { IfOk result (λ v. v.items ≡ replicate count false) }
{
    let mut flags = Vec::new(alloc);
    for _flag in 0..count {
        flags.push(false)?;
    }
    Ok(flags)
}

/// Says that the sections below a number that have no start yet start after so many drawings.
fn start_sections(starts: &mut Vec<u32>, below: u32, drawings: u32) -> Result<(), Memory>
    ensures { OnOk result (starts.new.items ≡ starts.old.items ++ replicate (below - length starts.old.items) drawings) }
{
    for _section in starts.len()..below as usize {
        starts.push(drawings)?;
    }
    Ok(())
}

/// Puts a drawing last, unless there is none or it is known.
fn take_drawing(
    known: &mut Vec<bool>,
    drawings: &mut Vec<u32>,
    drawing: Option<u32>,
) -> Result<(), Memory>
    requires there { IfSome drawing (λ d. d < length known.old.items) }
    requires flags { AreFlags known.old.items drawings.old.items }
    ensures taken { OnOk result (drawings.new.items ≡ with_drawing drawings.old.items drawing) }
    ensures flags { OnOk result (AreFlags known.new.items drawings.new.items) }
    ensures many { OnOk result (length known.new.items ≡ length known.old.items) }
{
    let Some(d) = drawing else {
        return Ok(());
    };
    if !known[d as usize] {
        drawings.push(d)?;
        known[d as usize] = true;
    }
    Ok(())
}

/// The drawing that a job needs.
pub(crate) fn needed_drawing(job: Job) -> Option<u32>
    ensures { result ≡ drawing_of job }
{
    match job {
        Job::Leaf { drawing, .. } | Job::Tinted { drawing, .. } => Some(drawing),
        Job::Clear | Job::Card(_) | Job::Pair(_) | Job::Blur(_) => None,
    }
}
