//! The scene text both ways: the scene that a JSON text says, or its first fault, and the one text that
//! is written for a scene.
#![tactic(auto)]

mod scene;

pub use scene::{decode, encode, text_faults, texts_say_scenes_in_range};
