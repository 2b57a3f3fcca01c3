ghost use Rattle.std.specs.Prelude.{◌≡◌, []};

use crate::bench::Bench;
use crate::lanes;
use std::alloc::Global;
use xs_base::Memory;
use xs_pixel::Film;
use xs_plan::Plan;
use xs_raster::Tile;
use xs_rawfile::Drawings;

/// Computes tiles many pixels at a time. Once it has room for the list of its aliases and for the words of a
/// tile, it takes no memory but that of a tile's pixels, and of the sums of a blur.
#[derive(Debug, Drop)]
pub struct LaneBench {
    computed: Vec<u32>,
    /// The words of a drawing, row by row, before they are coloured.
    scratch: Vec<u8>,
}

impl LaneBench {
    /// A bench that has computed nothing yet.
    pub fn new(alloc: Global) -> LaneBench
        ensures { ⟦<LaneBench as Bench>⟧.made result ≡ [] }
    {
        LaneBench {
            computed: Vec::new(alloc),
            scratch: Vec::new(alloc),
        }
    }
}

impl Bench for LaneBench {
    ghost made = { λ bench. bench.computed.items };

    fn computed(&self) -> &[u32] {
        self.computed.as_slice()
    }

    fn compute<K: Film>(
        &mut self,
        alloc: Global,
        p: &Plan,
        k: u32,
        a: Option<&Tile>,
        b: Option<&Tile>,
        d: &Drawings<K>,
    ) -> Result<Tile, Memory> {
        // what may be relied on in the plan and in the drawings
        p.aliases();
        d.hold_their_pictures();
        self.computed.reserve(1)?;
        let raster = lanes::raster(&mut self.scratch, alloc, p, k, a, b, d)?;
        self.computed.push_reserved(k);
        Ok(Tile::new(k, raster))
    }
}
