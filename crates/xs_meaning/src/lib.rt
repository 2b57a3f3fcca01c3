//! What a scene shows: the pixel of each point of each row, and the expression that a row is rendered
//! from. All of it is definitions, in `specs/`, over the records of the scene; the functions here do
//! nothing, and the contract of each is a law of the definitions. `docs/MEANING.md` tells the rules in
//! plain words.
#![tactic(auto)]

pub mod examples;
pub mod expressions;
pub mod filters;
pub mod pairs;
pub mod rules;
