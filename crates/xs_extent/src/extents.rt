ghost use Rattle.std.specs.Prelude.{◌≡◌, [], OnOk};
ghost use Rattle.indexmap.specs.IndexMap.{insert_entry};
ghost use Rattle.xs_step.specs.Spots.{same_spot};
ghost use Rattle.xs_extent.specs.Extent.{found};

use indexmap::IndexMap;
use std::alloc::Global;
use std::marker::Model;
use xs_base::Memory;
use xs_step::Spot;

/// What is known of spots: how far each looks, in pixels, and None where it is clear.
#[derive(Drop)]
pub struct Extents {
    known: IndexMap<Spot, Option<u32>>,
}

impl Model for Extents {
    ghost use Rattle.std.specs.Prelude.{ℕ, List, Option};
    ghost use Rattle.xs_step.specs.declared.spot.Spot.{Spot};

    ghost Value = { List (Spot × Option ℕ) };

    ghost view = { λ e. e.known.entries };
}

impl Extents {
    /// Nothing was asked yet.
    pub fn new(alloc: Global) -> Extents
        ensures { result ≡ [] }
    {
        Extents {
            known: IndexMap::new(alloc),
        }
    }

    /// What is known of a spot, if it was asked.
    pub(crate) fn find(&self, spot: Spot) -> Option<Option<u32>>
        ensures { result ≡ found spot self.now }
    {
        self.known.get(&spot).copied()
    }

    /// Remembers how far a spot looks.
    pub(crate) fn note(&mut self, spot: Spot, extent: Option<u32>) -> Result<(), Memory>
        ensures { OnOk result (self.new ≡ insert_entry same_spot self.old spot extent) }
    {
        match self.known.insert(spot, extent) {
            Ok(_) => Ok(()),
            Err(_) => Err(Memory),
        }
    }
}
