//! Tests of workers, frames and sections, and of seats that hold the tiles of a bench. They stand apart from the library
//! that they test, so that it is proved once.
#![tactic(auto)]

#[cfg(test)]
mod alone;
#[cfg(test)]
mod plans;
#[cfg(test)]
mod short;
#[cfg(test)]
mod told;
