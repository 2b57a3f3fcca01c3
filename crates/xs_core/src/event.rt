/// What a seat does, in one step. Seats, aliases and reads are numbered from 0.
#[derive(Clone, Copy, Debug, PartialEq, Eq)]
pub enum Event {
    /// The seat takes an idle alias upon itself.
    Claim { seat: u32, alias: u32 },
    /// The seat puts the tile of an alias that it has claimed.
    Finish { seat: u32, alias: u32 },
    /// The seat gives up an alias that it has claimed.
    Abandon { seat: u32, alias: u32 },
    /// The seat begins to take the tile for a read of its own.
    Turn { seat: u32, read: u32 },
    /// The seat has taken it, and lets others have the tile.
    Give { seat: u32, read: u32 },
    /// The seat serves a read of its own.
    Retire { seat: u32, read: u32 },
    /// The seat lets the tile go whose last read it served.
    Clear { seat: u32, alias: u32 },
}

/// What became of an event.
#[derive(Clone, Copy, Debug, PartialEq, Eq)]
pub enum Stepped {
    /// It happened.
    Done,
    /// It was not allowed, and nothing changed.
    NotAllowed,
}
