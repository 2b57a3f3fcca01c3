//! The labels and the plain search over every graph on three nodes.

use std::alloc::{AllocError, Global};
use std::test::Fail;
use xs_base::List;
use xs_graph::{ByLabels, first_by_labels, first_by_search, first_long, first_on_cycle, labels_of};

/// The nodes among the first three that the last three bits of a number tell.
fn targets(alloc: Global, bits: u32) -> Result<List<u32>, AllocError> {
    let mut targets = Vec::new(alloc);
    for node in 0..3_u32 {
        if bits >> node & 1 == 1 {
            targets.push(node)?;
        }
    }
    Ok(List::of(targets))
}

/// The graph on three nodes in which a bit of a number tells each of the nine links.
fn graph(alloc: Global, bits: u32) -> Result<List<List<u32>>, AllocError> {
    let mut links = Vec::new(alloc);
    for node in 0..3_u32 {
        links.push(targets(alloc, bits >> (3 * node))?)?;
    }
    Ok(List::of(links))
}

#[test]
fn labels_tell_the_first_node_on_a_cycle(rt: HostRuntime) -> Result<(), Fail> {
    let alloc = rt.alloc();
    for bits in 0..512_u32 {
        let links = graph(alloc, bits)?;
        let first = first_by_search(alloc, &links)?;
        assert_eq!(rt; first_on_cycle(alloc, &links)?, first, "graph {bits}");
        let labels = labels_of(alloc, &links)?;
        let told = first_by_labels(alloc, &links, &labels)?;
        assert_eq!(rt; told, ByLabels::First(first), "graph {bits}");
    }
    Ok(())
}

#[test]
fn the_first_long_chain_is_told(rt: HostRuntime) -> Result<(), Fail> {
    let alloc = rt.alloc();
    let second_to_third = graph(alloc, 1 << 5)?;
    let third_to_itself = graph(alloc, 1 << 8)?;
    assert_eq!(rt; first_long(alloc, &second_to_third, 1)?, Some(1));
    assert_eq!(rt; first_long(alloc, &second_to_third, 2)?, None);
    assert_eq!(rt; first_long(alloc, &third_to_itself, 64)?, Some(2));
    Ok(())
}
