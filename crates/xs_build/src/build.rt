ghost use Rattle.std.specs.Prelude.{◌≡◌, ◌<◌, ◌^◌, ◌&&◌, ℕ, List, [], ◌∷◌, All, IfOk, IfSome, OnOk, length};
ghost use Rattle.xs_scene.specs.Records.{SceneRecord};
ghost use Rattle.xs_scene.specs.Ranges.{IsFiltered};
ghost use Rattle.xs_meaning.specs.Palettes.{none_dropped};
ghost use Rattle.xs_tint.specs.Filters.{filtering};
ghost use Rattle.xs_stays.specs.Found.{styles_of, KeepsSets};
ghost use Rattle.xs_stays.specs.Sets.{styles_in};
ghost use Rattle.xs_build.specs.States.{dropped_in, StandsFor, IsSound};

use crate::state::State;
use indexmap::{IndexMap, IndexSet};
use std::alloc::Global;
use xs_base::Memory;
use xs_entered::Entered;
use xs_extent::Extents;
use xs_stays::{Remembered, StyleSet};

/// The expressions that rows enter, and what is remembered of the row that is entered now.
#[derive(Drop)]
pub struct Build {
    pub(crate) entered: Entered,
    // the number of each state that was entered
    pub(crate) states: IndexMap<State, u32>,
    // the sets of dropped styles, by which states tell theirs
    pub(crate) sets: IndexSet<StyleSet>,
    // how far spots look
    pub(crate) extents: Extents,
    // what stays of spots
    pub(crate) stays: Remembered,
}

impl Build {
    /// Nothing was entered.
    pub fn new(alloc: Global) -> Result<Build, Memory>
        ensures { IfOk result (λ b. b.entered ≡ []) }
    {
        Ok(Build {
            entered: Entered::new(alloc)?,
            states: IndexMap::new(alloc),
            sets: IndexSet::new(alloc),
            extents: Extents::new(alloc),
            stays: Remembered::new(alloc),
        })
    }

    /// What was entered.
    pub fn entered(&self) -> &Entered
        ensures { result.now ≡ self.now.entered }
    {
        &self.entered
    }

    /// Forgets the row before, and knows one set of dropped styles: with number 0 none is dropped.
    pub(crate) fn begin(&mut self, alloc: Global) -> Result<(), Memory>
        ensures entered { self.new.entered ≡ self.old.entered }
        ensures sound { OnOk result ((s : SceneRecord) (names : List ℕ) → IsSound s names self.new) }
        ensures some { OnOk result (0 < length self.new.sets.keys) }
        ensures none { OnOk result (dropped_in self.new.sets.keys 0 ≡ none_dropped) }
    {
        self.states = IndexMap::new(alloc);
        self.extents = Extents::new(alloc);
        self.stays = Remembered::new(alloc);
        let sets = one_set(alloc, StyleSet::empty(alloc))?;
        self.sets = sets;
        Ok(())
    }

    /// The number of a state, if it was entered.
    pub(crate) fn recall(&self, state: State) -> Option<u32>
        ensures { (s : SceneRecord) (names : List ℕ) → IsSound s names self.now
            → IfSome result (StandsFor s names self.now.sets.keys self.now.entered state) }
    {
        self.states.get(&state).copied()
    }

    /// Remembers the number of a state.
    pub(crate) fn remember(&mut self, state: State, n: u32) -> Result<(), Memory>
        ensures entered { self.new.entered ≡ self.old.entered }
        ensures sets { self.new.sets ≡ self.old.sets }
        ensures sound { OnOk result ((s : SceneRecord) (names : List ℕ) → IsSound s names self.old
            → StandsFor s names self.old.sets.keys self.old.entered state n → IsSound s names self.new) }
    {
        match self.states.insert(state, n) {
            Ok(_) => Ok(()),
            Err(_) => Err(Memory),
        }
    }

    /// The number of those of the dropped styles with a number that count, where what counts has a number among
    /// what stays.
    pub(crate) fn counting(
        &mut self,
        alloc: Global,
        dropped: u32,
        counts: u32,
    ) -> Result<u32, Memory>
        requires dropped { dropped < length self.old.sets.keys }
        requires counts { counts < length self.old.stays.sets.keys }
        ensures entered { self.new.entered ≡ self.old.entered }
        ensures stays { self.new.stays ≡ self.old.stays }
        ensures set { IfOk result (λ k. k < length self.new.sets.keys) }
        ensures both { IfOk result (λ k. dropped_in self.new.sets.keys k
            ≡ (λ style. styles_of self.old.stays.sets.keys counts style
            && dropped_in self.old.sets.keys dropped style)) }
        ensures kept { OnOk result (KeepsSets self.old.sets.keys self.new.sets.keys) }
        ensures sound { OnOk result ((s : SceneRecord) (names : List ℕ)
            → IsSound s names self.old → IsSound s names self.new) }
    {
        let was = &self.sets.as_slice()[dropped as usize];
        let set = self.stays.styles(counts).within(alloc, was)?;
        let k = self.number_set(set)?;
        Ok(k)
    }

    /// The same below a filter of these styles, where the styles with a number were dropped above it.
    pub(crate) fn counting_filtered(
        &mut self,
        alloc: Global,
        dropped: u32,
        keep: bool,
        styles: &[u32],
        counts: u32,
    ) -> Result<u32, Memory>
        requires dropped { dropped < length self.old.sets.keys }
        requires styles { All IsFiltered styles.now }
        requires counts { counts < length self.old.stays.sets.keys }
        ensures entered { self.new.entered ≡ self.old.entered }
        ensures stays { self.new.stays ≡ self.old.stays }
        ensures set { IfOk result (λ k. k < length self.new.sets.keys) }
        ensures both { IfOk result (λ k. dropped_in self.new.sets.keys k
            ≡ (λ style. styles_of self.old.stays.sets.keys counts style
            && filtering keep styles.now (dropped_in self.old.sets.keys dropped) style)) }
        ensures kept { OnOk result (KeepsSets self.old.sets.keys self.new.sets.keys) }
        ensures sound { OnOk result ((s : SceneRecord) (names : List ℕ)
            → IsSound s names self.old → IsSound s names self.new) }
    {
        let was = self.sets.as_slice()[dropped as usize].as_dropped(alloc)?;
        let all = was.with(alloc, keep, styles)?;
        let set = self.stays.styles(counts).dropped(alloc, &all)?;
        let k = self.number_set(set)?;
        Ok(k)
    }

    /// The number of a set of dropped styles: an old one, or the next.
    fn number_set(&mut self, set: StyleSet) -> Result<u32, Memory>
        ensures entered { self.new.entered ≡ self.old.entered }
        ensures stays { self.new.stays ≡ self.old.stays }
        ensures within { IfOk result (λ k. k < length self.new.sets.keys) }
        ensures styles { IfOk result (λ k. dropped_in self.new.sets.keys k ≡ styles_in set) }
        ensures kept { OnOk result (KeepsSets self.old.sets.keys self.new.sets.keys) }
        ensures sound { OnOk result ((s : SceneRecord) (names : List ℕ)
            → IsSound s names self.old → IsSound s names self.new) }
    {
        if self.sets.len() >= u32::MAX as usize {
            return Err(Memory);
        }
        let Ok((k, _)) = self.sets.insert_full(set) else {
            return Err(Memory);
        };
        Ok(k as u32)
    }
}

/// One set of styles, which has number 0.
fn one_set(alloc: Global, set: StyleSet) -> Result<IndexSet<StyleSet>, Memory>
    ensures { IfOk result (λ sets. sets.keys ≡ set ∷ []) }
{
    let mut sets = IndexSet::new(alloc);
    match sets.insert(set) {
        Ok(_) => Ok(sets),
        Err(_) => Err(Memory),
    }
}
