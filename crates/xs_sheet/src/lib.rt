//! What an exposure sheet says of one row: what a column shows, and where a peg is. Both go through
//! their lists from the start, and take no memory. The searches of xs_index are compared with them, and
//! read one exposure, or the two keys round a row, by the same functions.
#![tactic(auto)]

pub mod cells;
pub mod keys;
mod pegs;

pub use cells::cell;
pub use keys::own_offset;
pub use pegs::{Pegs, place, place_among};
pub use xs_scene::Seen;
