ghost use Rattle.std.specs.Prelude.{◌≡◌, ◌≤◌, [], false, IfOk, IfSome, All};
ghost use Rattle.serde_json.specs.View.{members_view};
ghost use Rattle.xs_json.specs.Parsing.{Gives};
ghost use Rattle.xs_json.specs.Objects.{flag_at};
ghost use Rattle.xs_scene.specs.Ranges.{IsReference};
ghost use Rattle.xs_scene_text.specs.Fields.{field, optional_field, field_or, list_of, number_at, reference_at, none_of, form_at};

use crate::element::{Element, number, numbers};
use serde_json::{Map, Value};
use std::alloc::Global;
use xs_base::List;
use xs_base::limits::GREATEST_REFERENCE;
use xs_fault::{Field, FieldFault, Path, Place, SceneCode, fault_at};
use xs_json::{all_there, flag, has_any, optional, required};

/// A field that is needed.
pub fn needed<E: Element>(
    alloc: Global,
    format: u32,
    map: &Map<String, Value>,
    at: &Path,
    k: Field,
) -> Result<E, FieldFault>
    ensures exact { Gives (λ x. x) result
        (field k (E.reading format) at.now (members_view map.now.entries)) }
    ensures range { IfOk result E.fits }
    ensures known { IfOk result (λ x. format ≡ 1 → E.plain x) }
{
    let v = required(alloc, map, at, k)?;
    E::read(alloc, format, v, &Place::key(at, k))
}

/// A field that may be absent.
pub fn if_there<E: Element>(
    alloc: Global,
    format: u32,
    map: &Map<String, Value>,
    at: &Path,
    k: Field,
) -> Result<Option<E>, FieldFault>
    ensures exact { Gives (λ x. x) result
        (optional_field k (E.reading format) at.now (members_view map.now.entries)) }
    ensures range { IfOk result (λ o. IfSome o E.fits) }
{
    match optional(map, k) {
        Some(v) => Ok(Some(E::read(alloc, format, v, &Place::key(at, k))?)),
        None => Ok(None),
    }
}

/// A list that is empty where it is absent.
pub fn list_or_empty<E: Element>(
    alloc: Global,
    format: u32,
    map: &Map<String, Value>,
    at: &Path,
    k: Field,
) -> Result<List<E>, FieldFault>
    ensures exact { Gives (λ x. x) result
        (field_or [] k (list_of (E.reading format)) at.now (members_view map.now.entries)) }
    ensures range { IfOk result (All E.fits) }
    ensures known { IfOk result (λ xs. format ≡ 1 → All E.plain xs) }
{
    match optional(map, k) {
        Some(v) => <List<E>>::read(alloc, format, v, &Place::key(at, k)),
        None => Ok(List::of(Vec::new(alloc))),
    }
}

/// A number from `least` to `most` that is needed.
pub fn number_needed(
    alloc: Global,
    map: &Map<String, Value>,
    at: &Path,
    k: Field,
    least: u32,
    most: u32,
) -> Result<u32, FieldFault>
    ensures exact { Gives (λ n. n) result
        (field k (number_at least most) at.now (members_view map.now.entries)) }
    ensures range { IfOk result (λ n. (least ≤ n) × (n ≤ most)) }
{
    let v = required(alloc, map, at, k)?;
    number(alloc, v, &Place::key(at, k), least, most)
}

/// A list of numbers from `least` to `most` that is needed.
pub fn numbers_needed(
    alloc: Global,
    map: &Map<String, Value>,
    at: &Path,
    k: Field,
    least: u32,
    most: u32,
) -> Result<List<u32>, FieldFault>
    ensures exact { Gives (λ x. x) result
        (field k (list_of (number_at least most)) at.now (members_view map.now.entries)) }
    ensures range { IfOk result (All (λ n. (least ≤ n) × (n ≤ most))) }
{
    let v = required(alloc, map, at, k)?;
    numbers(alloc, v, &Place::key(at, k), least, most)
}

/// The number of a peg, a palette, a level, a drawing, a sheet, a column or a node, that is needed.
pub fn reference_needed(
    alloc: Global,
    map: &Map<String, Value>,
    at: &Path,
    k: Field,
) -> Result<u32, FieldFault>
    ensures exact { Gives (λ n. n) result
        (field k reference_at at.now (members_view map.now.entries)) }
    ensures range { IfOk result IsReference }
{
    number_needed(alloc, map, at, k, 0, GREATEST_REFERENCE)
}

/// The number of a peg, if it is there.
pub fn reference_if_there(
    alloc: Global,
    map: &Map<String, Value>,
    at: &Path,
    k: Field,
) -> Result<Option<u32>, FieldFault>
    ensures exact { Gives (λ o. o) result
        (optional_field k reference_at at.now (members_view map.now.entries)) }
    ensures range { IfOk result (λ o. IfSome o IsReference) }
{
    match optional(map, k) {
        Some(v) => Ok(Some(number(alloc, v, &Place::key(at, k), 0, GREATEST_REFERENCE)?)),
        None => Ok(None),
    }
}

/// A flag that is false where it is absent.
pub fn flag_or_false(
    alloc: Global,
    map: &Map<String, Value>,
    at: &Path,
    k: Field,
) -> Result<bool, FieldFault>
    ensures { Gives (λ b. b) result (field_or false k flag_at at.now (members_view map.now.entries)) }
{
    match optional(map, k) {
        Some(v) => flag(alloc, v, &Place::key(at, k)),
        None => Ok(false),
    }
}

/// Looks for fields that the object at `at` must not have: the fault `code` there, where it has one.
pub fn none_of(
    alloc: Global,
    map: &Map<String, Value>,
    at: &Path,
    code: SceneCode,
    barred: &[Field],
) -> Result<(), FieldFault>
    ensures { let members = members_view map.now.entries in
        Gives (λ _. members) result (none_of code barred.now at.now members) }
{
    if has_any(map, barred) {
        Err(fault_at(alloc, code, at))
    } else {
        Ok(())
    }
}

/// The form of an object that has two: UnknownKey where it has one of `barred`, and then MissingKey where
/// it lacks one of `needed`.
pub fn form(
    alloc: Global,
    map: &Map<String, Value>,
    at: &Path,
    barred: &[Field],
    needed: &[Field],
) -> Result<(), FieldFault>
    ensures { let members = members_view map.now.entries in
        Gives (λ _. members) result (form_at barred.now needed.now at.now members) }
{
    none_of(alloc, map, at, SceneCode::UnknownKey, barred)?;
    all_there(alloc, map, at, needed)
}
