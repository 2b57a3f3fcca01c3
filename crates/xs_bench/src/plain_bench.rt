ghost use Rattle.std.specs.Prelude.{◌≡◌, []};

use crate::bench::Bench;
use crate::plain;
use std::alloc::Global;
use xs_base::Memory;
use xs_pixel::Film;
use xs_plan::Plan;
use xs_raster::Tile;
use xs_rawfile::Drawings;

/// Computes tiles pixel by pixel.
#[derive(Debug, Drop)]
pub struct PlainBench {
    computed: Vec<u32>,
}

impl PlainBench {
    /// A bench that has computed nothing yet.
    pub fn new(alloc: Global) -> PlainBench
        ensures { ⟦<PlainBench as Bench>⟧.made result ≡ [] }
    {
        PlainBench {
            computed: Vec::new(alloc),
        }
    }
}

impl Bench for PlainBench {
    ghost made = { λ bench. bench.computed.items };

    fn computed(&self) -> &[u32] {
        self.computed.as_slice()
    }

    fn compute<K: Film>(
        &mut self,
        alloc: Global,
        p: &Plan,
        k: u32,
        a: Option<&Tile>,
        b: Option<&Tile>,
        d: &Drawings<K>,
    ) -> Result<Tile, Memory> {
        // what may be relied on in the plan and in the drawings
        p.aliases();
        d.hold_their_pictures();
        self.computed.reserve(1)?;
        let raster = plain::raster(alloc, p, k, a, b, d)?;
        self.computed.push_reserved(k);
        Ok(Tile::new(k, raster))
    }
}
