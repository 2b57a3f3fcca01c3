ghost use Rattle.std.specs.Prelude.{◌≡◌, ◌≤◌, None};
ghost use Rattle.xs_outside.specs.Told.{Rose};
ghost use Rattle.xs_outside.specs.Answers.{IsFetched, IsAsked, KeepsFetch};
ghost use Rattle.xs_outside.specs.Counts.{CountsFetch};
ghost use Rattle.xs_outside.specs.Quiet.{inner_of, faults_of};

use crate::library::{Fetched, Library};
use std::alloc::Global;

/// A library that answers what the library inside it answers, and tells neither files nor names. Its
/// own count of faults rises at Failed, Absent and TooLong, and stands still at 2^64 - 1.
#[derive(Debug, Drop)]
pub struct QuietLibrary<L> {
    inner: L,
    faults: u64,
}

impl<L: Library> QuietLibrary<L> {
    /// This library, kept quiet, with no fault yet.
    pub fn new(inner: L) -> QuietLibrary<L>
        ensures inner { inner_of result ≡ inner }
        ensures faults { faults_of result ≡ 0 }
    {
        QuietLibrary { inner, faults: 0 }
    }

    /// How many faults there were.
    pub fn faults(&self) -> u64
        ensures { result ≡ faults_of self.now }
    {
        self.faults
    }
}

#[tactic(auto, unfolding(crate::specs::Told::more))]
impl<L: Library> Library for QuietLibrary<L> {
    ghost files = { λ _. None };

    ghost asked = { λ _. None };

    ghost faults = { λ q. faults_of q };

    ghost get_gives = { λ q name limit answer later. L.get_gives (inner_of q) name limit answer (inner_of later) };

    fn get(&mut self, alloc: Global, name: &str, limit: u64) -> Fetched
        ensures answer { IsFetched None name.now limit (Rose (faults_of self.old) (faults_of self.new)) result }
        ensures asked { IsAsked None None name.now result }
        ensures later { faults_of self.old ≤ faults_of self.new }
        ensures keeps { KeepsFetch (faults_of self.old) (faults_of self.new) result }

        // The answer is that of the library inside.
        ensures gives { L.get_gives (inner_of self.old) name.now limit result (inner_of self.new) }
        ensures inner { IsFetched (L.files (inner_of self.old)) name.now limit
            (Rose (L.faults (inner_of self.old)) (L.faults (inner_of self.new))) result }
        ensures inner_asked { IsAsked (L.asked (inner_of self.old)) (L.asked (inner_of self.new)) name.now result }
        ensures inner_same { L.files (inner_of self.new) ≡ L.files (inner_of self.old) }
        ensures counts { CountsFetch (faults_of self.old) (faults_of self.new) result }
    {
        let answer = self.inner.get(alloc, name, limit);
        match &answer {
            Fetched::Bytes(_) | Fetched::Memory => {}
            Fetched::Absent | Fetched::TooLong | Fetched::Failed => {
                self.faults = self.faults.saturating_add(1);
            }
        }
        answer
    }
}
