ghost use Rattle.std.specs.Prelude.{◌≡◌, ◌++◌, IfOk, OnOk};
ghost use Rattle.std.specs.Option.{option_to_list};
ghost use Rattle.xs_meaning.specs.Inputs.{nodes_of};
ghost use Rattle.xs_schematic.specs.Visits.{visit_node, visit_all, inputs_in};
ghost use Rattle.xs_base.specs.Once.{each_once, with_one};
ghost use Rattle.xs_schematic.specs.Order.{IsOrderable, IsOrder, all_made_from};

use std::alloc::{AllocError, Global};
use xs_base::Memory;
use xs_scene::{Inputs, Node, Ref, Sheet};

/// The nodes of a sheet in an order in which they can be made: every node once, each after its inputs.
/// They are visited by rising number, and what a node is made from before it, the first input before the
/// second; each stands where it is first come to.
pub fn order(alloc: Global, s: &Sheet) -> Result<Vec<u32>, Memory>
    requires { IsOrderable s.now }
    ensures order { IfOk result (λ v. IsOrder s.now v.items) }
    ensures visits { IfOk result (λ v. v.items ≡ each_once (all_made_from s.now.nodes)) }
{
    let nodes = s.nodes.items();
    let count = nodes.len() as u32;
    let mut order = Vec::with_capacity(alloc, nodes.len())?;
    for number in 0..count {
        visit(nodes, count, number, &mut order)?;
    }
    Ok(order)
}

/// Visits a node, through at most so many nodes: visits its inputs and then puts it last in the order. A
/// node that stands there is left as it is.
#[cycle(visits)]
fn visit(nodes: &[Node], most: u32, number: u32, order: &mut Vec<u32>) -> Result<(), Memory>
    ensures { OnOk result (order.new.items ≡ visit_node nodes.now most number order.old.items) }
{
    if most == 0 {
        return Ok(());
    }
    if order.contains(&number) {
        return Ok(());
    }
    let (first, second) = inputs_at(nodes, number);
    visit_input(nodes, most - 1, first, order)?;
    visit_input(nodes, most - 1, second, order)?;
    put(order, number)
}

/// Visits an input, if it is a node.
#[cycle(visits)]
fn visit_input(
    nodes: &[Node],
    most: u32,
    input: Option<u32>,
    order: &mut Vec<u32>,
) -> Result<(), Memory>
    ensures { OnOk result (order.new.items ≡ visit_all (visit_node nodes.now most) (option_to_list input) order.old.items) }
{
    match input {
        Some(number) => visit(nodes, most, number, order),
        None => Ok(()),
    }
}

/// Puts a node last in an order, unless it stands there. A node that was just visited is new, since none
/// leads back to itself; the look spares every visit that condition.
fn put(order: &mut Vec<u32>, number: u32) -> Result<(), Memory>
    ensures { OnOk result (order.new.items ≡ with_one order.old.items number) }
{
    if !order.contains(&number) {
        order.push(number).map_err(AllocError::from)?;
    }
    Ok(())
}

/// The inputs of a node that are nodes, the first before the second.
fn inputs_at(nodes: &[Node], number: u32) -> (Option<u32>, Option<u32>)
    ensures { option_to_list result.0 ++ option_to_list result.1 ≡ inputs_in nodes.now number }
{
    let Some(node) = nodes.get(number as usize) else {
        return (None, None);
    };
    match node.inputs() {
        Inputs::Zero => (None, None),
        Inputs::One(input) => (node_in(input), None),
        Inputs::Two { first, second } => (node_in(first), node_in(second)),
    }
}

/// The number of a node, and none for a column.
fn node_in(input: Ref) -> Option<u32>
    ensures { option_to_list result ≡ nodes_of input }
{
    match input {
        Ref::Column(_) => None,
        Ref::Node(number) => Some(number),
    }
}
