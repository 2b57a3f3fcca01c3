//! The plan of a render: what a range of rows demands, by numbers alone. An alias is a job on a rectangle; a
//! plan tells what each reads, who reads it, in which section of rows it comes first, and which drawings a
//! section needs. It knows no scene and no expression.
#![tactic(auto)]

mod alias;
mod aliases;
mod builder;
pub mod examples;
mod job;
mod last;
pub mod laws;
pub mod limits;
mod news;
mod plan;

pub use builder::Builder;
pub use job::{Edge, Job, Reader};
pub use plan::{Plan, plan_crosses_threads};
