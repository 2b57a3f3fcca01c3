use xs_raster::TileRef;

/// What a seat is answered that claims an alias.
#[derive(Clone, Copy, Debug, PartialEq, Eq)]
pub enum Claim {
    /// Nobody had claimed it, and this seat has it now.
    Won,
    /// A seat has claimed it and is at it.
    Busy,
    /// Its tile was computed.
    Ready,
    /// A seat claimed it and gave it up.
    Lost,
}

/// What a seat is answered that looks at an alias.
#[derive(Clone, Copy, Debug, PartialEq, Eq)]
pub enum Look {
    /// Nobody has claimed it.
    Idle,
    /// A seat has claimed it and is at it.
    Busy,
    /// Its tile was computed.
    Ready,
    /// A seat claimed it and gave it up.
    Lost,
}

/// What a seat is answered that wants the tile of a read.
#[derive(Drop)]
pub enum Reading {
    /// The tile of the read's source.
    Got(TileRef),
    /// Another seat was taking the tile just then.
    Turn,
}
