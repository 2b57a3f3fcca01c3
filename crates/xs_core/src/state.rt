/// How far an alias is. Seats are numbered from 0.
#[derive(Clone, Copy, Debug, PartialEq, Eq)]
pub enum Phase {
    /// No seat has claimed it.
    Idle,
    /// This seat has claimed it, and nobody else will.
    Claimed(u32),
    /// This seat has finished it: its tile was computed.
    Ready(u32),
    /// The seat that claimed it has given it up.
    Lost,
}

/// How far a read is.
#[derive(Clone, Copy, Debug, PartialEq, Eq)]
pub enum ReadState {
    /// It is still to come.
    Waiting,
    /// This seat takes the tile for it just now.
    InTurn(u32),
    /// It is done and will not come again.
    Served,
}

/// Where the tile of an alias is.
#[derive(Clone, Copy, Debug, PartialEq, Eq)]
pub enum TileState {
    /// There is none.
    Absent,
    /// The cache holds it.
    Held,
    /// This seat served the last read and is about to let it go.
    Leaving(u32),
}
