//! Rows that are copied from one list of bytes into another.

ghost use Rattle.std.specs.Prelude.{◌≡◌, ◌+◌, ◌*◌, ◌<◌, ◌≤◌, length};
ghost use Rattle.std.specs.Simd.Lanes.{chunk, put_chunk};
ghost use Rattle.xs_bench.specs.Cells.{Copied};

use crate::shared::Shared;

/// Copies the parts that rows of `from_w` bytes share with rows of `to_w` bytes into these.
pub(crate) fn copy_rows(
    to: &mut [u8],
    to_w: usize,
    from: &[u8],
    from_w: usize,
    across: Shared,
    up: Shared,
)
    requires some { 0 < across.len }
    requires across { across.at + across.len ≤ to_w }
    requires across_from { across.from + across.len ≤ from_w }
    requires up { (up.at + up.len) * to_w ≤ length to.old }
    requires up_from { (up.from + up.len) * from_w ≤ length from.now }
    ensures { Copied from.now from_w to_w across up up.len to.old to.new }
{
    for row in 0..up.len {
        let at = (up.at + row) * to_w + across.at;
        let start = (up.from + row) * from_w + across.from;
        copy_part(to, at, from, start, across.len);
    }
}

/// Copies so many bytes from the one with number `start` on to those from number `at` on.
fn copy_part(to: &mut [u8], at: usize, from: &[u8], start: usize, len: usize)
    requires room { at + len ≤ length to.old }
    requires there { start + len ≤ length from.now }
    ensures { to.new ≡ put_chunk at to.old (chunk start len from.now) }
{
    to[at..at + len].copy_from_slice(&from[start..start + len]);
}
