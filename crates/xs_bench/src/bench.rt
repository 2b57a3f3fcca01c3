ghost use Rattle.std.specs.Prelude.{◌≡◌, ◌<◌, ℕ, List, [], ◌∷◌, ◌++◌, length, option_map, IfOk, OnOk, OnErr};
ghost use Rattle.xs_raster.specs.Bitmap.{pixel_of};
ghost use Rattle.xs_plan.specs.Record.{entry_at};
ghost use Rattle.xs_plan.specs.Values.{HoldsValue};
ghost use Rattle.xs_bench.specs.Inputs.{HoldInputs, HasDrawing};

use std::alloc::Global;
use xs_base::Memory;
use xs_pixel::Film;
use xs_plan::Plan;
use xs_raster::Tile;
use xs_rawfile::Drawings;

/// What computes the tiles of aliases.
pub trait Bench {
    /// The aliases that it has computed, in this order.
    ghost made: { Self → List ℕ };

    /// The aliases that it has computed, in this order.
    fn computed(&self) -> &[u32]
        ensures { result.now ≡ made self.now };

    /// Computes the tile of the alias `k` of a plan. The tiles of its inputs are given, `a` for port 0 and `b`
    /// for port 1, and none for a port that it has not; the drawing that it needs is held. After an error the
    /// aliases that were computed are the same as before.
    fn compute<K: Film>(
        &mut self,
        alloc: Global,
        p: &Plan,
        k: u32,
        a: Option<&Tile>,
        b: Option<&Tile>,
        d: &Drawings<K>,
    ) -> Result<Tile, Memory>
        requires there { k < length p.now.entries }
        requires inputs { HoldInputs K.pictures p.now k (option_map (λ t. t.now) a) (option_map (λ t. t.now) b) }
        requires drawing { HasDrawing d.now (entry_at p.now.entries k).job }
        ensures value { IfOk result (λ t. HoldsValue K.pictures p.now k t.alias t.raster.area
            (λ q. pixel_of t.raster q.x q.y)) }
        ensures gained { OnOk result (made self.new ≡ made self.old ++ k ∷ []) }
        ensures left { OnErr result (made self.new ≡ made self.old) };
}
