//! What checking finds: the first fault, in the order of the elements of lists.
ghost use Rattle.std.specs.Prelude.{ℕ};
ghost use Rattle.std.specs.Prelude.{List as Items};
ghost use Rattle.xs_check.specs.Finding.{Finding, Finds, in_list, IsFaultAtFirst};
ghost use Rattle.xs_fault.specs.Paths.{path_of};
ghost use Rattle.xs_fault.specs.Paths.{index_at};
ghost use Rattle.xs_fault.specs.Faults.{IsFaultAt};

use std::alloc::Global;
use xs_fault::{Field, FieldFault, Path, Place, SceneCode};

/// What is required of each element of a list, and told by its first fault.
pub trait Requirement<T> {
    /// What is found in an element at a path.
    ghost finds: { Self → Items ℕ → T → Finding };

    /// The first fault of an element at a place.
    fn look(&self, alloc: Global, item: &T, at: &Place) -> Result<(), FieldFault>
        ensures { Finds result (finds self.now at.now item.now) };
}

/// The first fault of the elements of the list at `at`, in their order.
#[tactic(auto, unfolding(crate::specs::Finding::in_list))]
fn each_at<T, R: Requirement<T>>(
    alloc: Global,
    required: &R,
    items: &[T],
    at: &Path,
) -> Result<(), FieldFault>
    ensures { Finds result (in_list at.now (R.finds required.now) items.now) }
{
    for (i, item) in items.iter().enumerate() {
        let Ok(i) = u32::try_from(i) else {
            return Err(FieldFault::Memory);
        };
        let looked = required.look(alloc, item, &Place::item(at, i));
        if looked.is_err() {
            return looked;
        }
    }
    Ok(())
}

/// The first fault of the elements of the list under a field of the object at `at`, in their order.
pub fn each<T, R: Requirement<T>>(
    alloc: Global,
    required: &R,
    items: &[T],
    at: &Path,
    field: Field,
) -> Result<(), FieldFault>
    ensures { Finds result (in_list (path_of field at.now) (R.finds required.now) items.now) }
{
    let list = Place::key(at, field).path(alloc)?;
    each_at(alloc, required, items, &list)
}

/// The fault at an element of the list under a field of the object at `at`.
fn fault_of(alloc: Global, code: SceneCode, at: &Path, field: Field, i: usize) -> FieldFault
    ensures { IsFaultAt code (index_at (path_of field at.now) i) result }
{
    let (Ok(list), Ok(i)) = (Place::key(at, field).path(alloc), u32::try_from(i)) else {
        return FieldFault::Memory;
    };
    Place::item(&list, i).fault(alloc, code)
}

/// The fault at the first of some elements of the list under a field of the object at `at`, if there is one.
pub fn tell_first(
    alloc: Global,
    first: Option<usize>,
    code: SceneCode,
    at: &Path,
    field: Field,
) -> Result<(), FieldFault>
    ensures { IsFaultAtFirst code (path_of field at.now) first result }
{
    match first {
        Some(i) => Err(fault_of(alloc, code, at, field, i)),
        None => Ok(()),
    }
}
