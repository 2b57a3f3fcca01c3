ghost use Rattle.std.specs.Prelude.{◌≡◌, option_map};
ghost use Rattle.serde_json.specs.View.{view, members_view};
ghost use Rattle.xs_json.specs.Parsing.{Gives};
ghost use Rattle.xs_json.specs.Objects.{value_of, has_only, has_any, first_missing, none_missing, is_key, object_at, required_at};

use serde_json::{Map, Value};
use std::alloc::Global;
use xs_fault::{Field, FieldFault, Path, Place, SceneCode, fault_at};

/// The value of a field, if it is there.
pub fn optional(map: &Map<String, Value>, k: Field) -> Option<&Value>
    ensures { option_map (λ v. view v.now) result ≡ value_of k (members_view map.now.entries) }
{
    map.get(k.text())
}

/// Whether a name is the key of one of the fields.
fn is_one_of(keys: &[Field], name: &str) -> bool
    ensures { result ≡ is_key keys.now name.now }
{
    for k in keys {
        if k.text() == name {
            return true;
        }
    }
    false
}

/// Whether each member is one of the fields.
fn knows_each(map: &Map<String, Value>, keys: &[Field]) -> bool
    ensures { result ≡ has_only keys.now (members_view map.now.entries) }
{
    for (name, _) in map.iter() {
        if !is_one_of(keys, name.as_str()) {
            return false;
        }
    }
    true
}

/// Whether one of the fields is there.
pub fn has_any(map: &Map<String, Value>, keys: &[Field]) -> bool
    ensures { result ≡ has_any keys.now (members_view map.now.entries) }
{
    for k in keys {
        if optional(map, *k).is_some() {
            return true;
        }
    }
    false
}

/// The first of the fields that is not there.
fn missing(map: &Map<String, Value>, needed: &[Field]) -> Option<Field>
    ensures { result ≡ first_missing needed.now (members_view map.now.entries) }
{
    for k in needed {
        if optional(map, *k).is_none() {
            return Some(*k);
        }
    }
    None
}

/// Looks for each of the fields of the object at `at`: MissingKey, at the path of the first that is not
/// there.
pub fn all_there(
    alloc: Global,
    map: &Map<String, Value>,
    at: &Path,
    needed: &[Field],
) -> Result<(), FieldFault>
    ensures { let members = members_view map.now.entries in
        Gives (λ _. members) result (none_missing needed.now at.now members) }
{
    match missing(map, needed) {
        Some(k) => Err(Place::key(at, k).fault(alloc, SceneCode::MissingKey)),
        None => Ok(()),
    }
}

/// The members of an object: WrongKind where the value is none, UnknownKey where it has a key that is
/// not in `keys`, MissingKey, at the path of the first that it lacks, where one of `needed` is not there.
pub fn object<'v>(
    alloc: Global,
    v: &'v Value,
    at: &Path,
    keys: &[Field],
    needed: &[Field],
) -> Result<&'v Map<String, Value>, FieldFault>
    ensures { Gives (λ m. members_view m.now.entries) result
        (object_at keys.now needed.now at.now (view v.now)) }
{
    let Some(map) = v.as_object() else {
        return Err(fault_at(alloc, SceneCode::WrongKind, at));
    };
    if !knows_each(map, keys) {
        return Err(fault_at(alloc, SceneCode::UnknownKey, at));
    }
    all_there(alloc, map, at, needed)?;
    Ok(map)
}

/// The value of a field of the object at `at`: MissingKey, at the field's path, where it is not there.
pub fn required<'v>(
    alloc: Global,
    map: &'v Map<String, Value>,
    at: &Path,
    k: Field,
) -> Result<&'v Value, FieldFault>
    ensures { Gives (λ v. view v.now) result (required_at k at.now (members_view map.now.entries)) }
{
    match optional(map, k) {
        Some(v) => Ok(v),
        None => Err(Place::key(at, k).fault(alloc, SceneCode::MissingKey)),
    }
}
