//! What can be wrong with a scene, and where: the codes, the keys of scene texts, paths in them, and faults.
#![tactic(auto)]

mod code;
mod fault;
mod field;
mod path;
mod place;

pub use code::SceneCode;
pub use fault::{FieldFault, SceneFault};
pub use field::Field;
pub use path::Path;
pub use place::{Place, fault_at};
