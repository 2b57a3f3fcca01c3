//! Reads the value of a scene text: the scene that it says, or its first fault.
#![tactic(auto)]

mod column;
mod element;
mod fields;
mod level;
mod node;
mod palette;
mod peg;
mod scene;
mod sheet;

pub use scene::read_scene;
