ghost use Rattle.std.specs.Prelude.{◌≡◌, ◌<◌, ◌||◌, All, IfOk, OnOk, is_none, length};
ghost use Rattle.indexmap.specs.IndexMap.{insert_entry};
ghost use Rattle.xs_meaning.specs.Expressions.{staying};
ghost use Rattle.xs_meaning.specs.Palettes.{none_dropped};
ghost use Rattle.xs_scene.specs.Ranges.{IsFiltered};
ghost use Rattle.xs_scene.specs.Records.{SceneRecord};
ghost use Rattle.xs_step.specs.Spots.{same_spot};
ghost use Rattle.xs_tint.specs.Filters.{filtering};
ghost use Rattle.xs_stays.specs.Found.{found_at, stay_of, styles_of, AreRight, HasSet, IsFound, KeepsSets, Numbers};
ghost use Rattle.xs_stays.specs.Sets.{styles_in};
ghost use Rattle.xs_stays.specs.Stays.{less, stay_staying};

use crate::set::StyleSet;
use indexmap::{IndexMap, IndexSet};
use std::alloc::Global;
use xs_base::Memory;
use xs_meaning::pairs::{first_stays_alone, second_stays_alone};
use xs_pixel::Op;
use xs_step::Spot;
use xs_tint::Dropped;

/// What stays of a spot: whether a drawing does, and the number of the set of styles that count.
#[derive(Clone, Copy, Debug, PartialEq, Eq)]
pub struct Found {
    /// Whether a drawing stays.
    pub drawing: bool,
    /// The number of the styles that count.
    pub styles: u32,
}

/// What stays of spots, of those that were asked, and None where they are clear.
#[derive(Drop)]
pub struct Remembered {
    pub(crate) known: IndexMap<Spot, Option<Found>>,
    // the sets of styles by their numbers
    pub(crate) sets: IndexSet<StyleSet>,
}

impl Remembered {
    /// Nothing was asked yet.
    pub fn new(alloc: Global) -> Remembered
        ensures { (s : SceneRecord) → AreRight s result }
    {
        Remembered {
            known: IndexMap::new(alloc),
            sets: IndexSet::new(alloc),
        }
    }

    /// The set of styles with a number.
    pub fn styles(&self, k: u32) -> &StyleSet
        requires { k < length self.now.sets.keys }
        ensures { styles_in result.now ≡ styles_of self.now.sets.keys k }
    {
        &self.sets.as_slice()[k as usize]
    }

    /// What stays of a spot, if it was asked.
    pub(crate) fn find(&self, spot: Spot) -> Option<Option<Found>>
        ensures { result ≡ found_at spot self.now.known.entries }
    {
        self.known.get(&spot).copied()
    }

    /// Remembers what stays of a spot.
    pub(crate) fn note(&mut self, spot: Spot, found: Option<Found>) -> Result<(), Memory>
        ensures known { OnOk result (self.new.known.entries
            ≡ insert_entry same_spot self.old.known.entries spot found) }
        ensures sets { OnOk result (self.new.sets ≡ self.old.sets) }
    {
        match self.known.insert(spot, found) {
            Ok(_) => Ok(()),
            Err(_) => Err(Memory),
        }
    }

    /// The number of a set of styles: an old one, or the next.
    pub(crate) fn number(&mut self, set: StyleSet) -> Result<u32, Memory>
        ensures within { IfOk result (λ k. k < length self.new.sets.keys) }
        ensures styles { IfOk result (λ k. styles_of self.new.sets.keys k ≡ styles_in set) }
        ensures numbers { OnOk result (Numbers self.old self.new) }
    {
        if self.sets.len() >= u32::MAX as usize {
            return Err(Memory);
        }
        let Ok((k, _)) = self.sets.insert_full(set) else {
            return Err(Memory);
        };
        Ok(k as u32)
    }

    /// What stays of two together.
    fn joined(&mut self, alloc: Global, first: Found, second: Found) -> Result<Found, Memory>
        requires first { first.styles < length self.old.sets.keys }
        requires second { second.styles < length self.old.sets.keys }
        ensures within { IfOk result (λ found. found.styles < length self.new.sets.keys) }
        ensures drawing { IfOk result (λ found. found.drawing ≡ (first.drawing || second.drawing)) }
        ensures styles { IfOk result (λ found. styles_of self.new.sets.keys found.styles
            ≡ (λ style. styles_of self.old.sets.keys first.styles style
            || styles_of self.old.sets.keys second.styles style)) }
        ensures numbers { OnOk result (Numbers self.old self.new) }
    {
        let drawing = first.drawing || second.drawing;
        if first.styles == second.styles {
            return Ok(Found { drawing, ..first });
        }
        let both = self
            .styles(first.styles)
            .with(alloc, self.styles(second.styles))?;
        let styles = self.number(both)?;
        Ok(Found { drawing, styles })
    }

    /// What stays of a pair.
    pub(crate) fn pair(
        &mut self,
        alloc: Global,
        op: Op,
        first: Option<Found>,
        second: Option<Found>,
    ) -> Result<Option<Found>, Memory>
        requires first { HasSet self.old.sets.keys first }
        requires second { HasSet self.old.sets.keys second }
        ensures found { IfOk result (λ found. IsFound self.new.sets.keys found
            (stay_staying (staying op (is_none first) (is_none second))
            (stay_of self.old.sets.keys first) (stay_of self.old.sets.keys second))) }
        ensures numbers { OnOk result (Numbers self.old self.new) }
    {
        match (first, second) {
            (Some(first), Some(second)) => Ok(Some(self.joined(alloc, first, second)?)),
            (None, _) => Ok(if second_stays_alone(op) { second } else { None }),
            (Some(_), None) => Ok(if first_stays_alone(op) { first } else { None }),
        }
    }

    /// What stays below a filter of these styles.
    pub(crate) fn filtered(
        &mut self,
        alloc: Global,
        keep: bool,
        styles: &[u32],
        found: Option<Found>,
    ) -> Result<Option<Found>, Memory>
        requires styles { All IsFiltered styles.now }
        requires found { HasSet self.old.sets.keys found }
        ensures found { IfOk result (λ r. IsFound self.new.sets.keys r
            (less (filtering keep styles.now none_dropped) (stay_of self.old.sets.keys found))) }
        ensures numbers { OnOk result (Numbers self.old self.new) }
    {
        let Some(found) = found else {
            return Ok(None);
        };
        let filter = Dropped::none(alloc).with(alloc, keep, styles)?;
        let left = self.styles(found.styles).less(alloc, &filter)?;
        let styles = self.number(left)?;
        Ok(Some(Found { styles, ..found }))
    }
}
