//! Palettes: the pixel of a style, by its number.
#![tactic(auto)]

mod fault;
mod palette;

pub use fault::PaletteFault;
pub use palette::{Palette, palette_crosses_threads};
