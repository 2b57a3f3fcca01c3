use crate::colours::style;
use crate::failure::Failure;
use crate::kind::Kind;
use crate::random::Random;
use std::alloc::Global;
use xs_base::List;
use xs_pixel::Op;
use xs_scene::{Column, Node, Ref};

/// An operation.
fn operation(random: &mut Random) -> Op {
    match random.below(8) {
        0 => Op::Over,
        1 => Op::Add,
        2 => Op::Sub,
        3 => Op::Mult,
        4 => Op::Min,
        5 => Op::Max,
        6 => Op::MatteIn,
        _ => Op::MatteOut,
    }
}

/// A column, or one of these nodes.
pub fn reference(random: &mut Random, columns: &[Column], nodes: &[Node]) -> Ref {
    if nodes.is_empty() || random.one_in(2) {
        Ref::Column(random.one_of(columns))
    } else {
        Ref::Node(random.one_of(nodes))
    }
}

/// So many numbers from 1 to this one.
fn numbers(alloc: Global, random: &mut Random, count: u32, most: u8) -> Result<List<u32>, Failure> {
    let mut numbers = Vec::new(alloc);
    for _ in 0..count {
        numbers.push(random.below(u32::from(most).max(1)) + 1)?;
    }
    Ok(List::of(numbers))
}

/// The radius of a blur, where a pixel may still be the mean of so many points, of which fewer are left then; None
/// where there are too few.
fn radius(random: &mut Random, room: &mut u32) -> Option<u32> {
    let radius = random.from_to(1, 3);
    let side = 2 * radius + 1;
    if *room < side * side {
        return None;
    }
    *room /= side * side;
    Some(radius)
}

/// A blur of an input, or its palette filter where there is no room for a blur.
fn blur(alloc: Global, random: &mut Random, input: Ref, room: &mut u32) -> Result<Node, Failure> {
    match radius(random, room) {
        Some(radius) => Ok(Node::Blur { input, radius }),
        None => delete(alloc, random, input),
    }
}

fn shuffle(alloc: Global, random: &mut Random, input: Ref) -> Result<Node, Failure> {
    let count = random.from_to(1, 12);
    let list = numbers(alloc, random, count, 10)?;
    Ok(Node::Shuffle { input, list })
}

fn keep(alloc: Global, random: &mut Random, input: Ref) -> Result<Node, Failure> {
    let count = random.below(4);
    let styles = numbers(alloc, random, count, 6)?;
    Ok(Node::Keep { input, styles })
}

fn delete(alloc: Global, random: &mut Random, input: Ref) -> Result<Node, Failure> {
    let count = random.below(4);
    let styles = numbers(alloc, random, count, 6)?;
    Ok(Node::Delete { input, styles })
}

/// A node of the kind with this place: five times a pair, then a card, a shuffle, the two filters and a blur.
fn node(
    alloc: Global,
    random: &mut Random,
    place: u32,
    (first, second): (Ref, Ref),
    room: &mut u32,
) -> Result<Node, Failure> {
    match place {
        5 => Ok(Node::Card(style(random))),
        6 => shuffle(alloc, random, first),
        7 => keep(alloc, random, first),
        8 => delete(alloc, random, first),
        9 => blur(alloc, random, first, room),
        _ => Ok(Node::Pair {
            op: operation(random),
            first,
            second,
        }),
    }
}

/// Nodes of a sheet with these columns, each made from columns and earlier nodes. A pixel may still be the mean of so
/// many points.
pub fn nodes(
    alloc: Global,
    random: &mut Random,
    kind: &Kind,
    columns: &List<Column>,
    room: &mut u32,
) -> Result<List<Node>, Failure> {
    let mut nodes = Vec::new(alloc);
    let kinds = kind.last_node.saturating_sub(kind.first_node);
    for _ in 0..random.below(kind.nodes.saturating_add(1)) {
        let first = reference(random, columns.items(), nodes.as_slice());
        let second = reference(random, columns.items(), nodes.as_slice());
        let place = kind
            .first_node
            .saturating_add(random.below(kinds.saturating_add(1)));
        nodes.push(node(alloc, random, place, (first, second), room)?)?;
    }
    Ok(List::of(nodes))
}
