ghost use Rattle.std.specs.Prelude.{◌≡◌, IsSome, IfSome};

use xs_raster::{Raster, Tile};

/// The pixels of a tile that is there.
pub(crate) fn pixels_of(tile: Option<&Tile>) -> &Raster
    requires { IsSome tile }
    ensures { IfSome tile.entry (λ t. result.now ≡ t.now.raster) }
{
    match tile {
        Some(tile) => tile.raster(),
        None => unreachable!(),
    }
}
