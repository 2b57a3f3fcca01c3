//! What is remembered while the drawings of a row are gathered.

ghost use Rattle.std.specs.Prelude.{◌≡◌, [], IfOk, OnOk};
ghost use Rattle.indexmap.specs.IndexMap.{get, insert_entry};
ghost use Rattle.indexmap.specs.IndexSet.{contains, insert_key};
ghost use Rattle.xs_base.specs.Once.{with_one};
ghost use Rattle.xs_step.specs.Spots.{same_spot};

use indexmap::{IndexMap, IndexSet};
use std::alloc::Global;
use xs_base::Memory;
use xs_step::Spot;

/// Which spots are clear, of those that were asked.
#[derive(Drop)]
pub struct Known {
    pub(crate) flags: IndexMap<Spot, bool>,
}

impl Known {
    /// Nothing was asked yet.
    pub fn new(alloc: Global) -> Known
        ensures { result.flags.entries ≡ [] }
    {
        Known {
            flags: IndexMap::new(alloc),
        }
    }

    /// Whether a spot is clear, if it was asked.
    pub fn find(&self, spot: Spot) -> Option<bool>
        ensures { result ≡ get same_spot self.now.flags spot }
    {
        self.flags.get(&spot).copied()
    }

    /// Remembers whether a spot is clear.
    pub fn note(&mut self, spot: Spot, clear: bool) -> Result<(), Memory>
        ensures { OnOk result (self.new.flags.entries ≡ insert_entry same_spot self.old.flags.entries spot clear) }
    {
        match self.flags.insert(spot, clear) {
            Ok(_) => Ok(()),
            Err(_) => Err(Memory),
        }
    }
}

/// The drawings so far, and the spots whose drawings are all among them.
#[derive(Drop)]
pub struct Gathered {
    pub(crate) drawings: IndexSet<u32>,
    pub(crate) whole: IndexSet<Spot>,
}

impl Gathered {
    /// Nothing was gathered yet.
    pub fn new(alloc: Global) -> Gathered
        ensures drawings { result.drawings.keys ≡ [] }
        ensures whole { result.whole.keys ≡ [] }
    {
        Gathered {
            drawings: IndexSet::new(alloc),
            whole: IndexSet::new(alloc),
        }
    }

    /// Whether all drawings of a spot are known to be gathered.
    pub fn has_all_of(&self, spot: Spot) -> bool
        ensures { result ≡ contains same_spot self.now.whole spot }
    {
        self.whole.contains(&spot)
    }

    /// Puts a drawing last, unless it is there.
    pub fn add(&mut self, drawing: u32) -> Result<(), Memory>
        ensures drawings { OnOk result (self.new.drawings.keys ≡ with_one self.old.drawings.keys drawing) }
        ensures whole { OnOk result (self.new.whole.keys ≡ self.old.whole.keys) }
    {
        match self.drawings.insert(drawing) {
            Ok(_) => Ok(()),
            Err(_) => Err(Memory),
        }
    }

    /// Remembers that all drawings of a spot are gathered.
    pub fn note(&mut self, spot: Spot) -> Result<(), Memory>
        ensures drawings { OnOk result (self.new.drawings.keys ≡ self.old.drawings.keys) }
        ensures whole { OnOk result (self.new.whole.keys ≡ insert_key same_spot self.old.whole.keys spot) }
    {
        match self.whole.insert(spot) {
            Ok(_) => Ok(()),
            Err(_) => Err(Memory),
        }
    }

    /// The drawings.
    pub fn into_drawings(self, alloc: Global) -> Result<Vec<u32>, Memory>
        ensures { IfOk result (λ v. v.items ≡ self.drawings.keys) }
    {
        Ok(Vec::from_slice(alloc, self.drawings.as_slice())?)
    }
}

/// All that is remembered.
#[derive(Drop)]
pub struct Found {
    /// The spots that are clear or not.
    pub known: Known,
    /// The drawings so far.
    pub gathered: Gathered,
}
