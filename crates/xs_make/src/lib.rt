//! A scene and its level files that are generated from a number, for measuring and for trying the renderer out.
#![tactic(auto)]

mod draws;
mod files;
mod generated;
pub mod laws;
mod made_library;
mod scene;

pub use generated::{Generated, made};
pub use made_library::MadeLibrary;
