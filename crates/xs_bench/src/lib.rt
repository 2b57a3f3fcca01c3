//! The tile of an alias, computed from the tiles of its inputs and the drawings that are held.
#![tactic(auto)]

mod bench;
mod card;
mod copying;
mod fresh;
mod input;
mod lane_bench;
mod lanes;
mod leaf;
mod offset;
mod overlap;
mod pair;
mod plain;
mod plain_bench;
mod shared;
mod short_bench;

pub use bench::Bench;
pub use lane_bench::LaneBench;
pub use plain_bench::PlainBench;
pub use short_bench::ShortBench;
