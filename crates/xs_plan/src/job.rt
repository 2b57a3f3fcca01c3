use xs_pixel::{Op, Pixel};

/// What an alias is made of, without the aliases that it reads.
#[derive(Clone, Copy, Debug, PartialEq, Eq)]
pub enum Job {
    /// Nothing; it reads no alias.
    Clear,
    /// A drawing moved right by `dx` and up by `dy`, as its palette is written; it reads no alias.
    Leaf {
        drawing: u32,
        dx: i32,
        dy: i32,
    },
    /// The same under the tint with a number; it reads no alias.
    Tinted {
        drawing: u32,
        dx: i32,
        dy: i32,
        tint: u32,
    },
    /// One pixel everywhere; it reads no alias.
    Card(Pixel),
    /// An operation on two aliases on the same rectangle, port 0 the first and port 1 the second.
    Pair(Op),
    /// A blur of this radius, in pixels, of an alias on the rectangle grown by the radius, at port 0.
    Blur(u32),
}

/// Who reads an alias.
#[derive(Clone, Copy, Debug, PartialEq, Eq)]
pub enum Reader {
    /// An alias at one of its ports, 0 or 1.
    Port { alias: u32, port: u32 },
    /// A tile of a row; rows and tiles count from 0.
    Root { row: u32, tile: u32 },
}

/// A read: the alias that is read, and who reads it.
#[derive(Clone, Copy, Debug, PartialEq, Eq)]
pub struct Edge {
    pub source: u32,
    pub reader: Reader,
}
