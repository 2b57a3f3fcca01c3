//! The states of a cache of tiles: what is known of each alias of a plan, of each read and of each tile, and the
//! events by which seats change them.
#![tactic(auto)]

mod answer;
mod core_state;
mod desk;
mod event;
pub mod laws;
mod state;

pub use answer::{Claim, Look, Reading};
pub use core_state::{Core, edge_of};
pub use desk::Desk;
pub use event::{Event, Stepped};
pub use state::{Phase, ReadState, TileState};
