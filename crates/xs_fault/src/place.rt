ghost use Rattle.std.specs.Prelude.{◌≡◌, IfOk};
ghost use Rattle.xs_fault.specs.Paths.{key_at, index_at};
ghost use Rattle.xs_fault.specs.Fields.{field_text};
ghost use Rattle.xs_fault.specs.Faults.{IsFaultAt};

use crate::code::SceneCode;
use crate::fault::{FieldFault, SceneFault};
use crate::field::Field;
use crate::path::Path;
use std::alloc::Global;
use std::marker::Model;
use xs_base::Memory;

/// A step down from a path.
#[derive(Clone, Copy, Debug)]
pub enum Step {
    /// None: the path itself.
    Here,
    /// To a member of the object there.
    Key(Field),
    /// To an element of the list there, counted from 0.
    Item(u32),
}

/// A path and a step from it: where a value stands. The path of the place is made only for a fault,
/// or on the way into an object or a list, so that reading a field takes no memory.
#[derive(Drop)]
pub struct Place<'p> {
    above: &'p Path,
    step: Step,
}

impl<'p> Model for Place<'p> {
    ghost use Rattle.std.specs.Prelude.{List, ℕ};
    ghost use Rattle.xs_fault.specs.Paths.{step_from};

    ghost Value = { List ℕ };

    ghost view = { λ p. step_from p.above.now p.step };
}

impl<'p> Place<'p> {
    /// The place of the path itself.
    pub fn here(at: &'p Path) -> Place<'p>
        ensures { result ≡ at.now }
    {
        Place {
            above: at,
            step: Step::Here,
        }
    }

    /// The place of a member of the object at `at`.
    pub fn key(at: &'p Path, k: Field) -> Place<'p>
        ensures { result ≡ key_at at.now (field_text k) }
    {
        Place {
            above: at,
            step: Step::Key(k),
        }
    }

    /// The place of an element, counted from 0, of the list at `at`.
    pub fn item(at: &'p Path, i: u32) -> Place<'p>
        ensures { result ≡ index_at at.now i }
    {
        Place {
            above: at,
            step: Step::Item(i),
        }
    }

    /// The path of this place.
    pub fn path(&self, alloc: Global) -> Result<Path, Memory>
        ensures { IfOk result (λ p. p ≡ self.now) }
    {
        match self.step {
            Step::Here => self.above.copy(alloc),
            Step::Key(k) => self.above.key(alloc, k.text()),
            Step::Item(i) => self.above.index(alloc, i),
        }
    }

    /// The fault `code` here; want of memory for its path takes its place.
    pub fn fault(&self, alloc: Global, code: SceneCode) -> FieldFault
        ensures { IsFaultAt code self.now result }
    {
        match self.path(alloc) {
            Ok(path) => FieldFault::Fault(SceneFault { code, path }),
            Err(_) => FieldFault::Memory,
        }
    }
}

/// The fault `code` at a path; want of memory for its copy takes its place.
pub fn fault_at(alloc: Global, code: SceneCode, at: &Path) -> FieldFault
    ensures { IsFaultAt code at.now result }
{
    Place::here(at).fault(alloc, code)
}
