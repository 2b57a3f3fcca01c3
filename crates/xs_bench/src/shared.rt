ghost use Rattle.std.specs.Prelude.{◌≡◌, ◌+◌, ◌*◌, ◌≤◌, ◌^◌, ℤ, pos, neg_ℤ, ◌-ℤ◌, ◌≤ℤ◌};
ghost use Rattle.xs_rect.specs.Area.{IsNear, IsSide};
ghost use Rattle.xs_bench.specs.Cells.{AreShared};

/// Places that two rows of places have in common.
#[derive(Clone, Copy)]
pub(crate) struct Shared {
    /// The number of the first of them in the one row.
    pub(crate) at: usize,
    /// Its number in the other row.
    pub(crate) from: usize,
    /// How many they are.
    pub(crate) len: usize,
}

/// The places that so many places from `outer` on share with so many from `inner` on.
pub(crate) fn shared_by(outer: i32, outer_len: u32, inner: i32, inner_len: u32) -> Shared
    requires outer { IsNear outer × IsSide outer_len }
    requires inner { (neg_ℤ (pos (2 ^ 28)) ≤ℤ inner) × (inner ≤ℤ pos (2 ^ 28)) }
    requires long { IsSide inner_len }
    ensures { AreShared outer outer_len inner inner_len result }
{
    let at = gap(outer, inner);
    let from = gap(inner, outer);
    let len = outer_len
        .saturating_sub(at)
        .min(inner_len.saturating_sub(from));
    Shared {
        at: at as usize,
        from: from as usize,
        len: len as usize,
    }
}

/// How far a place lies behind another one; 0 where it lies before it.
fn gap(from: i32, to: i32) -> u32
    ensures behind { from ≤ℤ to → pos result ≡ to -ℤ from }
    ensures before { to ≤ℤ from → result ≡ 0 }
{
    if from < to { to.abs_diff(from) } else { 0 }
}
