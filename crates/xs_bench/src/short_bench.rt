ghost use Rattle.std.specs.Prelude.{◌≡◌, ◌<◌, ◌+◌, ◌-◌, ◌^◌, min, [], ◌∷◌, ◌++◌, length, option_map, IfOk, OnOk, OnErr, IsErr};
ghost use Rattle.xs_raster.specs.Bitmap.{pixel_of};
ghost use Rattle.xs_plan.specs.Record.{entry_at};
ghost use Rattle.xs_plan.specs.Values.{HoldsValue};
ghost use Rattle.xs_bench.specs.Inputs.{HoldInputs, HasDrawing};

use crate::bench::Bench;
use std::alloc::Global;
use xs_base::Memory;
use xs_pixel::Film;
use xs_plan::Plan;
use xs_raster::Tile;
use xs_rawfile::Drawings;

/// A bench that is short of memory at one of its calls, and else does what another one does. It is for tests of
/// what is done after want of memory.
#[derive(Drop)]
pub struct ShortBench<B: Bench> {
    inner: B,
    at: u64,
    /// How many calls there were, or the greatest number.
    calls: u64,
}

impl<B: Bench> ShortBench<B> {
    /// The bench whose call with this number answers Memory; calls count from 1.
    pub fn new(inner: B, at: u64) -> ShortBench<B>
        ensures inner { result.inner ≡ inner }
        ensures at { result.at ≡ at }
        ensures calls { result.calls ≡ 0 }
    {
        ShortBench {
            inner,
            at,
            calls: 0,
        }
    }
}

impl<B: Bench> Bench for ShortBench<B> {
    ghost made = { λ bench. B.made bench.inner };

    fn computed(&self) -> &[u32] {
        self.inner.computed()
    }

    fn compute<K: Film>(
        &mut self,
        alloc: Global,
        p: &Plan,
        k: u32,
        a: Option<&Tile>,
        b: Option<&Tile>,
        d: &Drawings<K>,
    ) -> Result<Tile, Memory>
        requires there { k < length p.now.entries }
        requires inputs { HoldInputs K.pictures p.now k (option_map (λ t. t.now) a) (option_map (λ t. t.now) b) }
        requires drawing { HasDrawing d.now (entry_at p.now.entries k).job }
        ensures value { IfOk result (λ t. HoldsValue K.pictures p.now k t.alias t.raster.area
            (λ q. pixel_of t.raster q.x q.y)) }
        ensures gained { OnOk result (B.made self.new.inner ≡ B.made self.old.inner ++ k ∷ []) }
        ensures left { OnErr result (B.made self.new.inner ≡ B.made self.old.inner) }
        ensures at { self.new.at ≡ self.old.at }
        ensures calls { self.new.calls ≡ min (self.old.calls + 1) (2 ^ 64 - 1) }
        ensures short { self.old.calls + 1 ≡ self.old.at → IsErr result }
        ensures uncalled { self.old.calls + 1 ≡ self.old.at → self.new.inner ≡ self.old.inner }
    {
        self.calls = self.calls.saturating_add(1);
        if self.calls == self.at {
            return Err(Memory);
        }
        self.inner.compute(alloc, p, k, a, b, d)
    }
}
