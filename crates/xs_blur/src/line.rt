//! A line of the result from the sums of columns.

ghost use Rattle.std.specs.Prelude.{◌≡◌, ℕ, ◌+◌, ◌*◌, ◌/◌, ◌%◌, ◌<◌, ◌≤◌, length, slice_index};
ghost use Rattle.xs_blur.specs.Totals.{AreMeans, AreSums};

use crate::divisor::Divisor;
use crate::sums::ChannelSums;

/// Puts the means of `side` columns from each pixel of the line on; `count` is the square of `side`.
pub(crate) fn put_line(columns: &[u16], side: u32, count: Divisor, line: &mut [u8])
    requires side { (1 ≤ side) × (side ≤ 33) }
    requires count { count.count ≡ side * side }
    requires pixels { length line.old % 4 ≡ 0 }
    requires wide { length columns.now + 4 ≡ length line.old + 4 * side }
    requires sums { (c : ℕ) → slice_index columns.now c ≤ 255 * side }
    ensures { AreMeans columns.now side line.new (length line.old / 4) }
{
    let others = side as usize - 1;
    let mut sums = first_sums(columns, side - 1);
    for x in 0..line.len() / 4 {
        let all = sums.with(columns, x + others);
        all.put_means(count, line, x);
        sums = all.without(columns, x);
    }
}

/// The sums of the first `k` columns.
fn first_sums(columns: &[u16], k: u32) -> ChannelSums
    requires few { k ≤ 32 }
    requires there { 4 * k ≤ length columns.now }
    requires sums { (c : ℕ) → slice_index columns.now c ≤ 8415 }
    ensures { AreSums columns.now 0 k result }
{
    let mut sums = ChannelSums::NONE;
    for at in 0..k {
        sums = sums.with(columns, at as usize);
    }
    sums
}
