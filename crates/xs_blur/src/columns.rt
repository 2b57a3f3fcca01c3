//! The sums of the bytes of some rows, place by place.

ghost use Rattle.std.specs.Prelude.{◌≡◌, ℕ, ◌+◌, ◌*◌, ◌<◌, ◌≤◌, length, slice_index};
ghost use Rattle.xs_blur.specs.Totals.{AreColumns};

/// Adds a row to the sums.
fn add_row(sums: &mut [u16], row: &[u8])
    requires long { length sums.old ≡ length row.now }
    requires room { (c : ℕ) → c < length row.now → slice_index sums.old c ≤ 65280 }
    ensures { (c : ℕ) → c < length row.now → slice_index sums.new c ≡ slice_index sums.old c + slice_index row.now c }
{
    for c in 0..row.len() {
        sums[c] += row[c] as u16;
    }
}

/// Takes a row away from the sums.
fn take_row(sums: &mut [u16], row: &[u8])
    requires long { length sums.old ≡ length row.now }
    requires had { (c : ℕ) → c < length row.now → slice_index row.now c ≤ slice_index sums.old c }
    ensures { (c : ℕ) → c < length row.now → slice_index sums.new c + slice_index row.now c ≡ slice_index sums.old c }
{
    for c in 0..row.len() {
        sums[c] -= row[c] as u16;
    }
}

/// One row more: the one above the `k` rows from row `y` on.
pub(crate) fn with_row(sums: &mut [u16], bytes: &[u8], y: u32, k: u32)
    requires columns { AreColumns sums.old bytes.now (length sums.old) y k }
    requires there { length sums.old * (y + k + 1) ≤ length bytes.now }
    requires few { k ≤ 32 }
    ensures { AreColumns sums.new bytes.now (length sums.old) y (k + 1) }
{
    let long = sums.len();
    let start = long * (y as usize + k as usize);
    let row = &bytes[start..start + long];
    add_row(sums, row);
}

/// One row less: the lowest of the `k + 1` rows from row `y` on.
pub(crate) fn without_row(sums: &mut [u16], bytes: &[u8], y: u32, k: u32)
    requires columns { AreColumns sums.old bytes.now (length sums.old) y (k + 1) }
    requires there { length sums.old * (y + 1) ≤ length bytes.now }
    ensures { AreColumns sums.new bytes.now (length sums.old) (y + 1) k }
{
    let long = sums.len();
    let start = long * y as usize;
    let row = &bytes[start..start + long];
    take_row(sums, row);
}
