//! The cells, keys and palette keys of a scene once more, in the order of their rows, and look-ups in
//! them that cost a logarithm.
#![tactic(auto)]

mod has_row;
mod index;
mod order;
mod search;

pub use has_row::HasRow;
pub use index::{Index, SheetIndex};
pub use order::in_order;
pub use search::{key_in, offset_in, seen_in};
