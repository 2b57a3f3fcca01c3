ghost use Rattle.std.specs.Prelude.{◌≡◌, IfOk};

use std::alloc::Global;
use xs_base::{List, Memory};

/// One named file: its name and its bytes.
#[derive(Debug, Drop)]
pub struct Object {
    /// The bytes of its name.
    pub name: List<u8>,
    /// What it holds.
    pub bytes: List<u8>,
}

impl Object {
    /// The file with this name and these bytes, copied.
    pub fn new(alloc: Global, name: &str, bytes: &[u8]) -> Result<Object, Memory>
        ensures { IfOk result (λ object. object ≡ record { name = name.now; bytes = bytes.now }) }
    {
        Ok(Object {
            name: List::of(Vec::from_slice(alloc, name.as_bytes())?),
            bytes: List::of(Vec::from_slice(alloc, bytes)?),
        })
    }
}
