ghost use Rattle.std.specs.Prelude.{IsTrue};
ghost use Rattle.xs_bench.specs.Inputs.{HasDrawing};
ghost use Rattle.xs_sections.specs.Drawn.{AreAllDrawn};

use xs_pixel::Film;
use xs_plan::{Job, Plan};
use xs_rawfile::Drawings;

/// Whether the drawing of each alias is held.
pub fn all_drawn<K: Film>(p: &Plan, d: &Drawings<K>) -> bool
    ensures { IsTrue result → AreAllDrawn p.now d.now }
{
    for k in 0..p.aliases() {
        if !is_drawn(p.job(k), d) {
            return false;
        }
    }
    true
}

/// Whether the drawing of a job, if it has one, is held.
fn is_drawn<K: Film>(job: Job, d: &Drawings<K>) -> bool
    ensures { IsTrue result → HasDrawing d.now job }
{
    match job {
        Job::Leaf { drawing, .. } | Job::Tinted { drawing, .. } => d.get(drawing).is_some(),
        Job::Clear | Job::Card(_) | Job::Pair(_) | Job::Blur(_) => true,
    }
}
