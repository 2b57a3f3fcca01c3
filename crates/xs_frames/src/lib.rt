//! Frames: the tiles of a row's aliases, taken from the cache of a plan and put side by side.
#![tactic(auto)]

mod canvas;
mod frame;
mod gather;
pub mod laws;
mod name;
mod root;

pub use frame::Frame;
pub use gather::Gather;
pub use name::frame_name;
