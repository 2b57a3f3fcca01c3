//! What rows demand: the aliases of a list of root expressions on the tiles of a frame, in the order of their
//! first visit, and the plan that shows them. All of it is definitions and laws; nothing here runs.
#![tactic(auto)]

pub mod aliases;
pub mod blocks;
pub mod examples;
pub mod fit;
pub mod images;
pub mod limits;
pub mod needed;
pub mod renamed;
pub mod shown;
