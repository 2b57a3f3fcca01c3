//! The tests of the libraries below checked scenes: values from outside which their clauses have to mean, what no
//! clause says, and that each call succeeds where there is memory. Those of the libraries above, and of plans, stand
//! in `xs_tests_top`: tests stand apart from the libraries, since a crate with tests is proved twice, and in two crates,
//! since those of the lower libraries need not wait for the upper ones. Without its tests this crate is empty.
#![tactic(auto)]

#[cfg(test)]
mod alias;
#[cfg(test)]
mod blur;
#[cfg(test)]
mod chain;
#[cfg(test)]
mod cm32;
#[cfg(test)]
mod graph;
#[cfg(test)]
mod host;
#[cfg(test)]
mod json;
#[cfg(test)]
mod lanes;
#[cfg(test)]
mod outside;
#[cfg(test)]
mod palette;
#[cfg(test)]
mod pixel;
#[cfg(test)]
mod raster;
#[cfg(test)]
mod rawfile;
#[cfg(test)]
mod rect;
#[cfg(test)]
mod scene_json;
#[cfg(test)]
mod sheet;
#[cfg(test)]
mod tint;
#[cfg(test)]
mod words;
