//! Numbers that look random.

ghost use Rattle.std.specs.Prelude.{◌<◌};

/// Numbers that look random, and are the same in each run.
#[derive(Drop)]
pub(crate) struct Random {
    state: u32,
}

impl Random {
    /// The numbers of a seed; an even seed is taken for the next odd one.
    pub(crate) fn new(seed: u32) -> Random {
        Random { state: seed | 1 }
    }

    /// The next number, by three shifts.
    fn next(&mut self) -> u32 {
        self.state ^= self.state << 13;
        self.state ^= self.state >> 17;
        self.state ^= self.state << 5;
        self.state
    }

    /// A number below this one.
    pub(crate) fn below(&mut self, count: u32) -> u32
        requires { 0 < count }
        ensures { result < count }
    {
        self.next() % count
    }

    /// A byte, of which every fourth is 0 and every fourth 255.
    pub(crate) fn byte(&mut self) -> u8 {
        match self.below(4) {
            0 => 0,
            1 => 255,
            _ => self.below(256) as u8,
        }
    }

    /// A place within 110 pixels of the origin along an axis.
    pub(crate) fn place(&mut self) -> i32 {
        self.below(221) as i32 - 110
    }
}
