//! The tests of the libraries that stand on checked scenes, up to the whole run, and of plans and their lines. They
//! stand apart from those of the libraries below, so that these need not wait for the longest chain of crates. Without
//! its tests this crate is empty.
#![tactic(auto)]

#[cfg(test)]
mod cut_out;
#[cfg(test)]
mod demand;
#[cfg(test)]
mod direct;
#[cfg(test)]
mod index;
#[cfg(test)]
mod made_frames;
#[cfg(test)]
mod making;
#[cfg(test)]
mod needs;
#[cfg(test)]
mod plan;
#[cfg(test)]
mod rendering;
#[cfg(test)]
mod scenes;
#[cfg(test)]
mod schematic;
#[cfg(test)]
mod top;
