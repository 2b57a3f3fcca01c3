//! The colours of CM32 drawings away from their written palette: the styles that filters drop, the
//! palette that shows at a row, and the tints of a render, each with one number.
#![tactic(auto)]

mod dropped;
mod shown;
mod tints;

pub use dropped::Dropped;
pub use shown::palette_at;
pub use tints::Tints;
