ghost use Rattle.std.specs.Prelude.{◌≡◌, map, IfOk, OnOk};
ghost use Rattle.serde_json.specs.Data.{Data, string};
ghost use Rattle.serde_json.specs.View.{view, members_view};
ghost use Rattle.xs_scene_text.specs.SceneData.{number_data, list_data, with_field, with_some, with_list, with_true};

use serde_json::{Map, Value};
use std::alloc::{AllocError, Global};
use xs_base::{List, Memory};
use xs_fault::Field;

/// What is written into a scene text.
pub trait Written: Sized + Drop {
    /// The value that is written for it.
    ghost writing: { Self → Data };

    /// This value.
    fn write(&self, alloc: Global) -> Result<Value, Memory>
        ensures { IfOk result (λ v. view v ≡ Self.writing self.now) };
}

/// The elements of a list, each written.
pub fn write_list<E: Written>(alloc: Global, elements: &List<E>) -> Result<Value, Memory>
    ensures { IfOk result (λ v. view v ≡ list_data E.writing elements.now) }
{
    let values = write_each(alloc, elements.items())?;
    Ok(Value::from(values))
}

fn write_each<E: Written>(alloc: Global, elements: &[E]) -> Result<Vec<Value>, Memory>
    ensures { IfOk result (λ values. map view values.items ≡ map E.writing elements.now) }
{
    let mut values = Vec::with_capacity(alloc, elements.len())?;
    for element in elements {
        let value = element.write(alloc)?;
        values.push(value).map_err(AllocError::from)?;
    }
    Ok(values)
}

/// Numbers as a list.
pub fn write_numbers(alloc: Global, numbers: &List<u32>) -> Result<Value, Memory>
    ensures { IfOk result (λ v. view v ≡ list_data number_data numbers.now) }
{
    let mut values = Vec::with_capacity(alloc, numbers.items().len())?;
    for number in numbers.items() {
        values.push(Value::from(*number)).map_err(AllocError::from)?;
    }
    Ok(Value::from(values))
}

/// Puts a field.
pub fn put(
    map: &mut Map<String, Value>,
    alloc: Global,
    k: Field,
    value: Value,
) -> Result<(), Memory>
    ensures { OnOk result (members_view map.new.entries
        ≡ with_field k (view value) (members_view map.old.entries)) }
{
    serde_json::put(map, alloc, k.text(), value)?;
    Ok(())
}

/// Puts a number.
pub fn put_number(
    map: &mut Map<String, Value>,
    alloc: Global,
    k: Field,
    number: u32,
) -> Result<(), Memory>
    ensures { OnOk result (members_view map.new.entries
        ≡ with_field k (number_data number) (members_view map.old.entries)) }
{
    put(map, alloc, k, Value::from(number))
}

/// Puts a text.
pub fn put_text(
    map: &mut Map<String, Value>,
    alloc: Global,
    k: Field,
    text: &str,
) -> Result<(), Memory>
    ensures { OnOk result (members_view map.new.entries
        ≡ with_field k (string text.now) (members_view map.old.entries)) }
{
    put(map, alloc, k, Value::try_from_str(alloc, text)?)
}

/// Puts a number, if there is one.
pub fn put_number_if_some(
    map: &mut Map<String, Value>,
    alloc: Global,
    k: Field,
    number: Option<u32>,
) -> Result<(), Memory>
    ensures { OnOk result (members_view map.new.entries
        ≡ with_some k number_data number (members_view map.old.entries)) }
{
    match number {
        Some(number) => put_number(map, alloc, k, number),
        None => Ok(()),
    }
}

/// Puts a flag, if it is true.
pub fn put_if_true(
    map: &mut Map<String, Value>,
    alloc: Global,
    k: Field,
    flag: bool,
) -> Result<(), Memory>
    ensures { OnOk result (members_view map.new.entries
        ≡ with_true k flag (members_view map.old.entries)) }
{
    if flag {
        put(map, alloc, k, Value::from(true))
    } else {
        Ok(())
    }
}

/// Puts a list, if it is not empty.
pub fn put_list_if_any<E: Written>(
    map: &mut Map<String, Value>,
    alloc: Global,
    k: Field,
    elements: &List<E>,
) -> Result<(), Memory>
    ensures { OnOk result (members_view map.new.entries
        ≡ with_list k E.writing elements.now (members_view map.old.entries)) }
{
    if elements.items().is_empty() {
        return Ok(());
    }
    let value = write_list(alloc, elements)?;
    put(map, alloc, k, value)
}
