//! The drawings that the picture of a row needs: each once, in the order in which they are met. Nodes and
//! sheets that are shared are gone through once.
#![tactic(auto)]

mod clear;
mod found;
mod gather;
pub mod laws;
mod needs;
mod pairs;

pub use needs::row_drawings;
