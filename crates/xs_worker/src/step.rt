use xs_raster::TileRef;

/// What a step of a worker came to.
#[derive(Clone, Copy, Debug, PartialEq, Eq)]
pub(crate) enum Step {
    /// An alias was claimed or made.
    Moved,
    /// What was wanted is known to be ready.
    Ready,
    /// Another seat has this alias claimed, or was taking its tile just then.
    Blocked(u32),
    /// This alias was given up.
    Lost(u32),
    /// Memory was wanting.
    Short,
}

/// What came of computing a tile.
#[derive(Drop)]
pub(crate) enum Computed {
    /// The tile.
    Done(TileRef),
    /// Another seat was taking the tile of this input just then.
    Turn(u32),
    /// Memory was wanting.
    Short,
}

/// What an alias reads at a port.
#[derive(Drop)]
pub(crate) enum Input {
    /// The tile, or none where it has no such port.
    There(Option<TileRef>),
    /// Another seat was taking the tile of this input just then.
    Turn(u32),
    /// Memory was wanting.
    Short,
}
