ghost use Rattle.std.specs.Prelude.{◌<◌, ◌≤◌, ◌^◌};

/// Numbers that look random, and are the same in each run.
#[derive(Drop)]
pub struct Random {
    state: u64,
}

impl Random {
    /// The numbers of a seed.
    pub fn new(seed: u32) -> Random {
        let mut random = Random {
            state: u64::from(seed),
        };
        // the first number of neighbouring seeds looks alike
        random.next();
        random
    }

    /// The next number: the high half of the state, which a linear congruence moves on.
    fn next(&mut self) -> u32 {
        self.state = self
            .state
            .wrapping_mul(6_364_136_223_846_793_005)
            .wrapping_add(1_442_695_040_888_963_407);
        (self.state >> 32) as u32
    }

    /// A number below this one.
    pub fn below(&mut self, count: u32) -> u32
        requires { 0 < count }
        ensures { result < count }
    {
        self.next() % count
    }

    /// A number from the least to the most, both included.
    pub fn from_to(&mut self, least: u32, most: u32) -> u32
        requires order { least ≤ most }
        requires small { most < 2 ^ 16 }
        ensures least { least ≤ result }
        ensures most { result ≤ most }
    {
        least + self.below(most - least + 1)
    }

    /// Whether one of so many cases is met.
    pub fn one_in(&mut self, cases: u32) -> bool
        requires { 0 < cases }
    {
        self.below(cases) == 0
    }

    /// The number of one of some things; 0 where there are none.
    pub fn one_of<T>(&mut self, things: &[T]) -> u32 {
        self.below(things.len().clamp(1, 99) as u32)
    }

    /// A byte, of which every fourth is 0 and every fourth 255.
    pub fn byte(&mut self) -> u8 {
        match self.below(4) {
            0 => 0,
            1 => 255,
            _ => self.below(256) as u8,
        }
    }

    /// A place along an axis within 50 pixels of the origin, and in five of six cases within 15.
    pub fn place(&mut self) -> i32 {
        if self.one_in(6) {
            self.below(101) as i32 - 50
        } else {
            self.below(31) as i32 - 15
        }
    }

    /// The next row behind this one, at which something may stand.
    pub fn row_behind(&mut self, row: u32) -> u32 {
        row.saturating_add(self.from_to(1, 4))
    }
}
