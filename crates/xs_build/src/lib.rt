//! The roots of rows, entered step by step: each spot of a scene is gone through once for each offset and
//! each set of dropped styles under which it stands, as far as these change what it shows.
#![tactic(auto)]

mod build;
mod drawing;
pub mod laws;
mod normal;
mod number;
mod pairs;
mod palette;
mod put;
mod root;
mod scope;
mod state;
mod stop;

pub use build::Build;
pub use root::reach;
pub use stop::Stop;
