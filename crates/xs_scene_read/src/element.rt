ghost use Rattle.std.specs.Prelude.{◌≡◌, ◌≤◌, ℕ, IfOk, All};
ghost use Rattle.std.specs.Prelude.{List as Items};
ghost use Rattle.serde_json.specs.Data.{Data};
ghost use Rattle.serde_json.specs.View.{view, items_view};
ghost use Rattle.xs_json.specs.Parsing.{Parsed, Gives};
ghost use Rattle.xs_scene_text.specs.Fields.{each_at, list_of, number_at};

use serde_json::Value;
use std::alloc::Global;
use xs_base::List;
use xs_fault::{FieldFault, Path, Place};
use xs_json::{list, whole};

/// What is read from a value of a scene text.
pub trait Element: Sized + Drop {
    /// What a value says, by the format of the text and the path where it stands.
    ghost reading: { ℕ → Items ℕ → Data → Parsed Self };

    /// Its numbers are in range, where the type does not keep that itself.
    ghost fits: { Self → Type 0 } = { λ _. Unit {0} };

    /// Format 1 knows all that it has.
    ghost plain: { Self → Type 0 } = { λ _. Unit {0} };

    /// The value at a place in a text of this format.
    fn read(alloc: Global, format: u32, v: &Value, place: &Place) -> Result<Self, FieldFault>
        ensures exact { Gives (λ x. x) result (Self.reading format place.now (view v.now)) }
        ensures range { IfOk result Self.fits }
        ensures known { IfOk result (λ x. format ≡ 1 → Self.plain x) };
}

/// A way to read each value of a list.
trait Reader<T: Drop> {
    /// What a value says, by the path where it stands.
    ghost says: { Self → Items ℕ → Data → Parsed T };

    /// What holds of each item that is read.
    ghost keeps: { Self → T → Type 0 };

    /// The value at a place.
    fn item(&self, alloc: Global, v: &Value, place: &Place) -> Result<T, FieldFault>
        ensures exact { Gives (λ x. x) result (says self.now place.now (view v.now)) }
        ensures kept { IfOk result (keeps self.now) };
}

/// Reads elements as a text of this format has them.
#[derive(Clone, Copy)]
struct InFormat {
    format: u32,
}

impl<E: Element> Reader<E> for InFormat {
    ghost says = { λ r. E.reading r.format };

    ghost keeps = { λ r x. E.fits x × (r.format ≡ 1 → E.plain x) };

    fn item(&self, alloc: Global, v: &Value, place: &Place) -> Result<E, FieldFault> {
        E::read(alloc, self.format, v, place)
    }
}

/// Reads numbers from `least` to `most`.
#[derive(Clone, Copy)]
struct Between {
    least: u32,
    most: u32,
}

impl Reader<u32> for Between {
    ghost says = { λ r. number_at r.least r.most };

    ghost keeps = { λ r n. (r.least ≤ n) × (n ≤ r.most) };

    fn item(&self, alloc: Global, v: &Value, place: &Place) -> Result<u32, FieldFault> {
        number(alloc, v, place, self.least, self.most)
    }
}

/// The items of the list at `at`.
fn each<T: Drop, R: Reader<T>>(
    alloc: Global,
    reader: &R,
    values: &Vec<Value>,
    at: &Path,
) -> Result<List<T>, FieldFault>
    ensures exact { Gives (λ xs. xs) result
        (each_at (R.says reader.now) at.now 0 (items_view values.now.items)) }
    ensures kept { IfOk result (All (R.keeps reader.now)) }
{
    let mut found = Vec::with_capacity(alloc, values.len())?;
    for value in values {
        let Ok(i) = u32::try_from(found.len()) else {
            return Err(FieldFault::Memory);
        };
        found.push(reader.item(alloc, value, &Place::item(at, i))?)?;
    }
    Ok(List::of(found))
}

impl<E: Element> Element for List<E> {
    ghost reading = { λ format. list_of (E.reading format) };

    ghost fits = { All E.fits };

    ghost plain = { All E.plain };

    fn read(alloc: Global, format: u32, v: &Value, place: &Place) -> Result<Self, FieldFault> {
        let values = list(alloc, v, place)?;
        let at = place.path(alloc)?;
        each(alloc, &InFormat { format }, values, &at)
    }
}

/// The value at a place as a number from `least` to `most`.
pub fn number(
    alloc: Global,
    v: &Value,
    place: &Place,
    least: u32,
    most: u32,
) -> Result<u32, FieldFault>
    ensures exact { Gives (λ n. n) result (number_at least most place.now (view v.now)) }
    ensures range { IfOk result (λ n. (least ≤ n) × (n ≤ most)) }
{
    let z = whole(alloc, v, place, i64::from(least), i64::from(most))?;
    Ok(z.unsigned_abs() as u32)
}

/// The value at a place as a list of numbers from `least` to `most`.
pub fn numbers(
    alloc: Global,
    v: &Value,
    place: &Place,
    least: u32,
    most: u32,
) -> Result<List<u32>, FieldFault>
    ensures exact { Gives (λ xs. xs) result (list_of (number_at least most) place.now (view v.now)) }
    ensures range { IfOk result (All (λ n. (least ≤ n) × (n ≤ most))) }
{
    let values = list(alloc, v, place)?;
    let at = place.path(alloc)?;
    each(alloc, &Between { least, most }, values, &at)
}
