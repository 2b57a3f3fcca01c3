//! How far the spots of a scene look beyond a point through their blurs, and which of them are clear, whatever
//! their offsets and filters. Each spot is gone through once.
#![tactic(auto)]

mod extents;
pub mod laws;
mod walk;

pub use extents::Extents;
pub use walk::extent;
