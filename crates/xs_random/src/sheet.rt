use crate::column::{Choice, columns};
use crate::failure::Failure;
use crate::kind::Kind;
use crate::made::made;
use crate::node::{nodes, reference};
use crate::peg::pegs;
use crate::random::Random;
use std::alloc::Global;
use xs_base::List;
use xs_scene::{Column, Level, Node, Ref, Sheet};

/// Of how many points the pixel of a frame may be the mean, through all blurs of a scene.
const POINTS: u32 = 100;

/// What is rendered of a sheet, up to four of its columns and nodes; None for all columns that are not off.
fn out(
    alloc: Global,
    random: &mut Random,
    columns: &List<Column>,
    nodes: &List<Node>,
) -> Result<Option<List<Ref>>, Failure> {
    if random.one_in(4) {
        return Ok(None);
    }
    let mut list = Vec::new(alloc);
    let most = if random.one_in(9) { 0 } else { 4 };
    for _ in 0..random.from_to(most.min(1), most) {
        list.push(reference(random, columns.items(), nodes.items()))?;
    }
    Ok(Some(List::of(list)))
}

/// A sheet whose columns show what may be chosen.
fn sheet(
    alloc: Global,
    random: &mut Random,
    kind: &Kind,
    choice: Choice,
    room: &mut u32,
) -> Result<Sheet, Failure> {
    let pegs = pegs(alloc, random, kind.format)?;
    let columns = columns(alloc, random, &pegs, choice)?;
    let nodes = nodes(alloc, random, kind, &columns, room)?;
    let out = out(alloc, random, &columns, &nodes)?;
    made(Sheet::new(pegs, columns, nodes, out))
}

/// The sheets of a scene, of which each shows only later ones.
pub fn sheets(
    alloc: Global,
    random: &mut Random,
    kind: &Kind,
    levels: &List<Level>,
) -> Result<List<Sheet>, Failure> {
    let mut sheets = Vec::new(alloc);
    let mut room = POINTS;
    let count = random.below(kind.sheets.max(1)).saturating_add(1);
    for number in 0..count {
        let choice = Choice {
            levels: levels.items(),
            next: number.saturating_add(1),
            sheets: count,
        };
        sheets.push(sheet(alloc, random, kind, choice, &mut room)?)?;
    }
    Ok(List::of(sheets))
}
