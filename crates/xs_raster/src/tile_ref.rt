ghost use Rattle.std.specs.Prelude.{◌≡◌, IfOk};

use crate::tile::Tile;
use std::alloc::Global;
use std::marker::Model;
use std::sync::Arc;
use xs_base::Memory;

/// One of several owners of a tile, which nobody changes any more. Contracts see it as the tile.
#[derive(Drop)]
pub struct TileRef {
    tile: Arc<Tile>,
}

impl Model for TileRef {
    ghost use Rattle.xs_raster.specs.declared.tile.Tile.{Tile};

    ghost Value = { Tile };

    ghost view = { λ t. t.tile.value };
}

impl TileRef {
    /// The first owner of a tile.
    pub fn new(alloc: Global, t: Tile) -> Result<TileRef, Memory>
        ensures { IfOk result (λ r. r ≡ t) }
    {
        match Arc::new(alloc, t) {
            Ok(tile) => Ok(TileRef { tile }),
            Err(_) => Err(Memory),
        }
    }

    /// One more owner of the same tile.
    pub fn share(&self) -> Result<TileRef, Memory>
        ensures { IfOk result (λ r. r ≡ self.now) }
    {
        let tile = self.tile.clone()?;
        Ok(TileRef { tile })
    }

    /// The tile.
    pub fn tile(&self) -> &Tile
        ensures { result.now ≡ self.now }
    {
        &self.tile
    }
}
