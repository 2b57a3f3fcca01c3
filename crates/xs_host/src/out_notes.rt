ghost use Rattle.std.specs.Prelude.{◌≡◌, ◌≤◌, [], ◌∷◌, ◌++◌, None, IfOk};
ghost use Rattle.xs_outside.specs.Told.{Rose};
ghost use Rattle.xs_outside.specs.Answers.{IsNoted, KeepsLine};
ghost use Rattle.xs_outside.specs.Counts.{CountsLine};

use std::alloc::{AllocError, Global};
use std::marker::Model;
use xs_outside::{Noted, Notes};

/// Standard output. It tells nothing. Contracts see it as its count of faults, which starts at 0,
/// rises at Failed, and stands still at 2^64 - 1.
#[derive(Drop)]
pub struct OutNotes<'a, R: Print> {
    rt: &'a R,
    faults: u64,
}

impl<'a, R: Print> Model for OutNotes<'a, R> {
    ghost use Rattle.std.specs.Prelude.{ℕ};

    ghost Value = { ℕ };

    ghost view = { λ n. n.faults };
}

impl<'a, R: Print> OutNotes<'a, R> {
    /// The standard output of the process that `rt` stands for.
    pub fn new(rt: &'a R) -> OutNotes<'a, R>
        ensures { result ≡ 0 }
    {
        OutNotes { rt, faults: 0 }
    }
}

/// These bytes and the end of the line.
fn ended_line(alloc: Global, bytes: &[u8]) -> Result<Vec<u8>, AllocError>
    ensures { IfOk result (λ line. line.items ≡ bytes.now ++ 10 ∷ []) }
{
    let mut line = Vec::new(alloc);
    line.extend_from_slice(bytes)?;
    line.push(b'\n')?;
    Ok(line)
}

#[tactic(auto, unfolding(xs_outside::specs::Told::more))]
impl<R: Print> Notes for OutNotes<'_, R> {
    ghost written = { λ _. None };

    ghost faults = { λ n. n };

    fn line(&mut self, alloc: Global, bytes: &[u8]) -> Noted
        ensures answer { IsNoted None None bytes.now (Rose self.old self.new) result }
        ensures later { self.old ≤ self.new }
        ensures keeps { KeepsLine self.old self.new result }
        ensures counts { CountsLine self.old self.new result }
    {
        let Ok(line) = ended_line(alloc, bytes) else {
            return Noted::Memory;
        };
        if self.rt.write_all(line.as_slice()).is_err() {
            self.faults = self.faults.saturating_add(1);
            return Noted::Failed;
        }
        Noted::Done
    }
}
