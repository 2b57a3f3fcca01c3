//! The fields of a scene text, read by their kind: each reader gives the field, or exactly its first
//! fault with the path of the place where it is.
#![tactic(auto)]

mod objects;
mod values;

pub use objects::{all_there, has_any, object, optional, required};
pub use values::{flag, list, text, whole};
