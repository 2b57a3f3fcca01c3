//! The limits of a plan.

/// The most aliases that a range of rows may demand.
pub const MOST_ALIASES: u32 = 4_194_304;

/// The most reads that a range of rows may demand: one for each input of an alias, and one for each row and
/// tile.
pub const MOST_READS: u32 = 8_388_608;

/// The farthest that a row may look beyond a tile through its blurs, in pixels.
pub const FARTHEST_REACH: u32 = 64;

/// The longest side of an alias's rectangle, in pixels: a tile of 64 with the farthest reach on both sides.
pub const LONGEST_ALIAS_SIDE: u32 = 192;

/// The most rows of a plan.
pub const MOST_ROWS: u32 = 4096;

/// The most tiles of a frame.
pub const MOST_TILES: u32 = 4096;

/// A builder takes at most so many aliases, far more than a plan may have.
pub const MOST_BUILT: u32 = 1_073_741_824;
