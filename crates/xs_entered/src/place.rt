ghost use Rattle.std.specs.Prelude.{◌≡◌, ◌<◌, ◌≤◌, ◌+◌, ◌*◌, ◌^◌, IfOk, IsOk, OnErr, length, slice_get};
ghost use Rattle.indexmap.specs.IndexSet.{spare};
ghost use Rattle.xs_entered.specs.Places.{IsPut, inputs_by, inputs_held, job_by};

use indexmap::IndexSet;
use xs_alias::Key;
use xs_base::Memory;
use xs_plan::Job;

/// How an entered expression is held: a key whose inputs are numbers of what was entered before, and by how
/// much its tiles are grown.
#[derive(Clone, Copy, Debug, PartialEq, Eq, Hash)]
pub(crate) struct Place {
    pub(crate) key: Key,
    pub(crate) growth: u32,
}

/// The number of a place: that of the equal one, or else the next one. `inputs` counts the inputs of all.
pub(crate) fn put_place(
    places: &mut IndexSet<Place>,
    inputs: &mut u32,
    place: Place,
) -> Result<u32, Memory>
    requires room { length places.old.keys + 1 < 2 ^ 31 }
    requires few { inputs.old ≤ 2 * length places.old.keys }
    requires counted { inputs.old ≡ inputs_held places.old.keys }
    ensures put { IfOk result (λ n. IsPut places.old.keys places.new.keys place n) }
    ensures within { IfOk result (λ n. n < length places.new.keys) }
    ensures counted { inputs.new ≡ inputs_held places.new.keys }
    ensures err { OnErr result (places.new.keys ≡ places.old.keys) }
    ensures succeeds { 0 < spare places.old → IsOk result }
{
    let more = ports(&place.key);
    let Ok((n, added)) = places.insert_full(place) else {
        return Err(Memory);
    };
    if added {
        *inputs += more;
    }
    Ok(n as u32)
}

/// How many inputs a key has.
fn ports(key: &Key) -> u32
    ensures count { result ≡ length (inputs_by key.now) }
    ensures few { result ≤ 2 }
{
    match *key {
        Key::Clear | Key::Leaf { .. } | Key::Tinted { .. } | Key::Card(_) => 0,
        Key::Blur { .. } => 1,
        Key::Pair { .. } => 2,
    }
}

/// The number of an input of a key, if it has this input.
pub(crate) fn input_of(key: &Key, port: u32) -> Option<u32>
    ensures { result ≡ slice_get (inputs_by key.now) port }
{
    match (*key, port) {
        (Key::Pair { a, .. } | Key::Blur { a, .. }, 0) => Some(a),
        (Key::Pair { b, .. }, 1) => Some(b),
        _ => None,
    }
}

/// A key without its inputs.
pub(crate) fn job_of(key: &Key) -> Job
    ensures { result ≡ job_by key.now }
{
    match *key {
        Key::Clear => Job::Clear,
        Key::Leaf { drawing, dx, dy } => Job::Leaf { drawing, dx, dy },
        Key::Tinted {
            drawing,
            dx,
            dy,
            tint,
        } => Job::Tinted {
            drawing,
            dx,
            dy,
            tint,
        },
        Key::Card(pixel) => Job::Card(pixel),
        Key::Pair { op, .. } => Job::Pair(op),
        Key::Blur { radius, .. } => Job::Blur(radius),
    }
}
