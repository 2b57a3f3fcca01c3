//! Raw level files, raw frames, and the drawings of a render that are held in memory.
#![tactic(auto)]

mod drawing;
mod drawings;
mod fault;
mod frame;
pub mod laws;
mod level;
mod premultiplied;
mod shown;

pub use drawing::{Drawing, RawKind};
pub use drawings::{Drawings, drawings_cross_threads};
pub use fault::{LevelCode, LevelFault};
pub use frame::{FRAME_HEADER, frame_bytes, push_frame_header};
pub use level::{level_format, read_level, read_level_owned, write_level};
