ghost use Rattle.std.specs.Prelude.{◌≤ℤ◌, IfOk};
ghost use Rattle.serde_json.specs.View.{view, items_view};
ghost use Rattle.xs_json.specs.Parsing.{Gives};
ghost use Rattle.xs_json.specs.Objects.{whole_at, text_at, list_at, flag_at};

use serde_json::Value;
use std::alloc::Global;
use xs_fault::{FieldFault, Place, SceneCode};

/// The value at a place as a whole number: WrongKind where it is none that an `i64` holds, OutOfRange
/// where it is below `least` or above `most`.
pub fn whole(
    alloc: Global,
    v: &Value,
    at: &Place<'_>,
    least: i64,
    most: i64,
) -> Result<i64, FieldFault>
    ensures exact { Gives (λ z. z) result (whole_at least most at.now (view v.now)) }
    ensures range { IfOk result (λ z. (least ≤ℤ z) × (z ≤ℤ most)) }
{
    let Some(z) = v.as_i64() else {
        return Err(at.fault(alloc, SceneCode::WrongKind));
    };
    if z < least || most < z {
        return Err(at.fault(alloc, SceneCode::OutOfRange));
    }
    Ok(z)
}

/// The value at a place as a text: WrongKind where it is none.
pub fn text<'v>(alloc: Global, v: &'v Value, at: &Place<'_>) -> Result<&'v str, FieldFault>
    ensures { Gives (λ s. s.now) result (text_at at.now (view v.now)) }
{
    match v.as_str() {
        Some(text) => Ok(text),
        None => Err(at.fault(alloc, SceneCode::WrongKind)),
    }
}

/// The value at a place as a list: WrongKind where it is none.
pub fn list<'v>(alloc: Global, v: &'v Value, at: &Place<'_>) -> Result<&'v Vec<Value>, FieldFault>
    ensures { Gives (λ l. items_view l.now.items) result (list_at at.now (view v.now)) }
{
    match v.as_array() {
        Some(list) => Ok(list),
        None => Err(at.fault(alloc, SceneCode::WrongKind)),
    }
}

/// The value at a place as true or false: WrongKind where it is neither.
pub fn flag(alloc: Global, v: &Value, at: &Place<'_>) -> Result<bool, FieldFault>
    ensures { Gives (λ b. b) result (flag_at at.now (view v.now)) }
{
    match v.as_bool() {
        Some(flag) => Ok(flag),
        None => Err(at.fault(alloc, SceneCode::WrongKind)),
    }
}
