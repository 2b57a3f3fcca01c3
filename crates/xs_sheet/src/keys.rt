ghost use Rattle.std.specs.Prelude.{◌≡◌, ◌≤◌, ◌<◌, IfSome};
ghost use Rattle.xs_base.specs.declared.limits.TheConstants.{LAST_ROW};
ghost use Rattle.xs_scene.specs.Ranges.{IsOffset, IsPegKey};
ghost use Rattle.xs_meaning.specs.Keys.{newest, nearest};
ghost use Rattle.xs_meaning.specs.Places.{key_in_force, key_after, offset_from, on_line};
ghost use Rattle.xs_meaning.specs.Places.{own_offset as offset_at};
ghost use Rattle.xs_pixel.specs.Points.{point};

use xs_meaning::rules::lines_stay_between_their_keys;
use xs_scene::{Peg, PegKey};

/// A peg's own offset at a row: that of its key with the greatest row at or before it, on the straight
/// line to the next key if that is a line key, and (0, 0) before the first key.
pub fn own_offset(peg: &Peg, row: u32) -> (i32, i32)
    ensures value { point result.0 result.1 ≡ offset_at peg.now.keys row }
    ensures across { IsOffset result.0 }
    ensures up { IsOffset result.1 }
{
    let keys = peg.keys.items();
    match find_key(keys, row) {
        None => (0, 0),
        Some(key) => offset_between(&key, find_next(keys, row), row),
    }
}

/// The key in force at a row.
fn find_key(keys: &[PegKey], row: u32) -> Option<PegKey>
    ensures value { result ≡ key_in_force keys.now row }
    ensures before { IfSome result (λ k. IsPegKey k × (k.row ≤ row)) }
{
    let mut best = None;
    for key in keys {
        if key.row <= row {
            best = Some(later(best, *key));
        }
    }
    best
}

/// The first key after a row.
fn find_next(keys: &[PegKey], row: u32) -> Option<PegKey>
    ensures value { result ≡ key_after keys.now row }
    ensures after { IfSome result (λ k. IsPegKey k × (row < k.row)) }
{
    let mut best = None;
    for key in keys {
        if row < key.row {
            best = Some(earlier(best, *key));
        }
    }
    best
}

/// The one with the greater row of a key and the best of those before it.
fn later(best: Option<PegKey>, key: PegKey) -> PegKey
    ensures { result ≡ newest (λ k. k.row) best key }
{
    match best {
        Some(best) if key.row <= best.row => best,
        _ => key,
    }
}

/// The one with the lesser row of a key and the best of those before it.
fn earlier(best: Option<PegKey>, key: PegKey) -> PegKey
    ensures { result ≡ nearest (λ k. k.row) best key }
{
    match best {
        Some(best) if best.row <= key.row => best,
        _ => key,
    }
}

/// The offset that the key in force gives at a row, with the next key.
pub fn offset_between(key: &PegKey, next: Option<PegKey>, row: u32) -> (i32, i32)
    requires before { key.now.row ≤ row }
    requires after { IfSome next (λ k. row < k.row) }
    ensures value { point result.0 result.1 ≡ offset_from key.now next row }
    ensures across { IsOffset result.0 }
    ensures up { IsOffset result.1 }
{
    match next {
        Some(next) if key.line => {
            let done = row - key.row;
            let whole = next.row - key.row;
            (
                coordinate(key.x, next.x, done, whole),
                coordinate(key.y, next.y, done, whole),
            )
        }
        _ => (key.x, key.y),
    }
}

/// A coordinate on the straight line from one key to the next, rounded down, where `done` of `whole` rows
/// have gone by.
fn coordinate(from: i32, to: i32, done: u32, whole: u32) -> i32
    requires start { IsOffset from }
    requires end { IsOffset to }
    requires rows { done < whole }
    requires few { whole ≤ LAST_ROW }
    ensures value { result ≡ on_line from to done whole }
    ensures within { IsOffset result }
{
    lines_stay_between_their_keys();
    let by = (to - from) * done as i32;
    from + by.div_euclid(whole as i32)
}
