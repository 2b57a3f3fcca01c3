//! Times the calls of seats at the cache of words. A seat claims, finishes, reads and retires a block of the aliases of a
//! plan, and notes how long each took.
#![tactic(auto)]

mod alone;
mod block;
mod chain;
mod laws;
mod seat;
mod times;

pub use alone::least_by_one;
pub use block::{Block, block_of};
pub use chain::{ALIASES, chain_plan};
pub use laws::seats_begin_with_nothing;
pub use seat::{Stop, live};
pub use times::Times;
