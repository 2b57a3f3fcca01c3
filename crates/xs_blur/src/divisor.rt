ghost use Rattle.std.specs.Prelude.{◌≡◌, ◌+◌, ◌*◌, ◌/◌, ◌<◌, ◌≤◌};

/// A number of pixels by which sums of channels are divided. A division goes by a multiplication, which is
/// exact for sums of so many bytes.
#[derive(Clone, Copy)]
pub(crate) struct Divisor {
    pub(crate) count: u32,
    factor: u64,
    ghost some: { 0 < count },
    ghost few: { count ≤ 1089 },
    ghost exact: { factor ≡ 4294967296 / count + 1 },
}

impl Divisor {
    /// The divisor of this number.
    pub(crate) fn new(count: u32) -> Divisor
        requires some { 0 < count }
        requires few { count ≤ 1089 }
        ensures { result.count ≡ count }
    {
        Divisor {
            count,
            factor: 4_294_967_296 / count as u64 + 1,
        }
    }

    /// The quotient of a sum of so many bytes, rounded down.
    pub(crate) fn quotient(self, sum: u32) -> u8
        requires { sum ≤ 255 * self.count }
        ensures { result ≡ sum / self.count }
    {
        ((sum as u64 * self.factor) >> 32) as u8
    }
}
