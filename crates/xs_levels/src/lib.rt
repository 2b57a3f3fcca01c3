//! The drawings that sections need: each is loaded by the first section that needs it, and let go after
//! the last one.
#![tactic(auto)]

pub mod laws;
mod loaded;
mod scene;
mod stock;
mod table;

pub use loaded::Loaded;
pub use scene::a_scene_tells_its_drawings;
pub use stock::Stock;
pub use table::FileTable;
