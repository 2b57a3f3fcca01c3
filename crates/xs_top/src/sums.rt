//! Sums of the pixels of the frames that are put on a shelf.

ghost use Rattle.std.specs.Prelude.{◌≡◌, ℕ, Option, Some, None};
ghost use Rattle.std.specs.Option.{option_map};
ghost use Rattle.xs_top.specs.Trace.{added, pixel_sum};

use xs_rawfile::FRAME_HEADER;

/// A sum of the bytes of pixels, where one is wanted.
pub(crate) trait Sum {
    /// The sum so far, where it is told.
    ghost told: { Self → Option ℕ };

    /// Adds the pixels of a frame file.
    fn add(&mut self, frame: &[u8])
        ensures { told self.new ≡ option_map (λ total. added total (pixel_sum frame.now)) (told self.old) };

    /// The sum so far, where it is told.
    fn total(&self) -> Option<u64>
        ensures { result ≡ told self.now };
}

/// No sum.
#[derive(Drop)]
pub(crate) struct NoSum;

impl Sum for NoSum {
    ghost told = { λ _. None };

    fn add(&mut self, _frame: &[u8]) {}

    fn total(&self) -> Option<u64> {
        None
    }
}

/// The sum of all bytes of pixels, which stands still at the greatest number of 64 bits.
#[derive(Drop)]
pub(crate) struct PixelSum {
    pub(crate) total: u64,
}

impl Sum for PixelSum {
    ghost told = { λ sum. Some sum.total };

    fn add(&mut self, frame: &[u8]) {
        self.total = with_pixels(self.total, frame);
    }

    fn total(&self) -> Option<u64> {
        Some(self.total)
    }
}

/// A sum, once the pixels of a frame file came to it.
fn with_pixels(total: u64, frame: &[u8]) -> u64
    ensures { result ≡ added total (pixel_sum frame.now) }
{
    let mut sum = total;
    for i in FRAME_HEADER..frame.len() {
        sum = sum.saturating_add(u64::from(frame[i]));
    }
    sum
}
