use crate::failure::Failure;
use crate::made::made;
use crate::random::Random;
use std::alloc::Global;
use xs_base::List;
use xs_scene::{Peg, PegKey};

/// Up to three keys, each at a row of its own; without lines in format 1.
fn keys(alloc: Global, random: &mut Random, format: u32) -> Result<List<PegKey>, Failure> {
    let mut keys = Vec::new(alloc);
    let mut row = 0u32;
    for _ in 0..random.below(4) {
        row = random.row_behind(row);
        let (x, y) = (random.place(), random.place());
        let line = format == 2 && random.one_in(2);
        keys.push(made(PegKey::new(row, x, y, line))?)?;
    }
    if random.one_in(2) {
        keys.reverse();
    }
    Ok(List::of(keys))
}

/// One of these pegs, or in one of three cases none.
pub fn peg_of(random: &mut Random, pegs: &[Peg]) -> Option<u32> {
    if pegs.is_empty() || random.one_in(3) {
        None
    } else {
        Some(random.one_of(pegs))
    }
}

/// Up to three pegs, of which each may move with an earlier one.
pub fn pegs(alloc: Global, random: &mut Random, format: u32) -> Result<List<Peg>, Failure> {
    let mut pegs = Vec::new(alloc);
    for _ in 0..random.below(4) {
        let parent = peg_of(random, pegs.as_slice());
        let keys = keys(alloc, random, format)?;
        pegs.push(made(Peg::new(parent, keys))?)?;
    }
    Ok(List::of(pegs))
}
