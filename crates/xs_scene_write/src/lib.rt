//! Makes the value of a scene text: the one value that is written for a scene.
#![tactic(auto)]

mod column;
mod level;
mod node;
mod palette;
mod peg;
mod scene;
mod sheet;
mod written;

pub use scene::write_scene;
