//! Draws scenes at random, renders rows of each by the top call over files in memory, and compares every frame byte
//! for byte with the plain evaluator's. Prints a line for each kind of scene: how many scenes were drawn, how many
//! frames compared, how many of these are clear everywhere, and how many scenes checking refused. A scene whose
//! frames differ, or whose render doesn't end well, is told by its seed in a line before.
#![tactic(auto)]

mod colours;
mod column;
mod compare;
mod drawing;
mod failure;
mod files;
mod kind;
mod level;
mod made;
mod node;
mod peg;
mod random;
mod render;
mod rows;
mod scene;
mod sheet;
mod tally;

use failure::Failure;
use kind::{KINDS, Kind};
use random::Random;
use tally::Tally;

/// How many scenes of each kind are drawn.
const SCENES: u32 = 50;

/// Draws the scenes of a kind, and prints those whose frames differ.
fn compare_kind<R: Print + AllocGlobal>(rt: &R, kind: &Kind) -> Result<Tally, Failure> {
    let mut tally = Tally::new();
    for number in 0..SCENES {
        let seed = kind.first_seed.saturating_add(number);
        let mut random = Random::new(seed);
        let found = compare::compare(rt.alloc(), &mut random, kind)?;
        if !tally.count(found) {
            println!(rt; "seed {seed}: {found}")?;
        }
    }
    Ok(tally)
}

fn main(rt: HostRuntime) -> Result<(), Failure> {
    for kind in &KINDS {
        let tally = compare_kind(&rt, kind)?;
        let name = kind.name;
        println!(rt; "{name}: {tally}")?;
    }
    Ok(())
}
