ghost use Rattle.std.specs.Prelude.{◌≡◌};

use crate::raster::Raster;

/// A raster with the number of the alias whose pixels it holds.
#[derive(Debug, Drop)]
pub struct Tile {
    /// The number of the alias.
    pub alias: u32,
    /// The pixels.
    pub raster: Raster,
}

impl Tile {
    /// The tile of this alias with these pixels. Takes no memory.
    pub fn new(alias: u32, r: Raster) -> Tile
        ensures alias { result.alias ≡ alias }
        ensures raster { result.raster ≡ r }
    {
        Tile { alias, raster: r }
    }

    /// The number of the alias.
    pub fn alias(&self) -> u32
        ensures { result ≡ self.now.alias }
    {
        self.alias
    }

    /// The pixels.
    pub fn raster(&self) -> &Raster
        ensures { result.now ≡ self.now.raster }
    {
        &self.raster
    }
}
