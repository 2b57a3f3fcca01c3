//! The plain search for a path that leads from a node back to itself: it notes the nodes that the node links to,
//! then those that each node met links to, until it has looked at each node met.
ghost use Rattle.std.specs.Prelude.{◌≡◌, ◌<◌, ◌↔◌, IfOk, OnOk, IsTrue, length};
ghost use Rattle.xs_graph.specs.Search.{met_after, seen_after, Grows};
ghost use Rattle.xs_base.specs.First.{IsFirstWithout};
ghost use Rattle.xs_graph.specs.Paths.{successors, LiesOnCycle};

use crate::chains::marks_of;
use std::alloc::{AllocError, Global};
use xs_base::List;

/// The nodes that a node links to; none where there is no such node.
fn successors_of(links: &List<List<u32>>, number: u32) -> &[u32]
    ensures { result.now ≡ successors links.now number }
{
    match links.items().get(number as usize) {
        Some(targets) => targets.items(),
        None => &[],
    }
}

/// Notes a number that is neither noted nor past the marks.
fn note(seen: &mut Vec<bool>, met: &mut Vec<u32>, number: u32) -> Result<(), AllocError>
    ensures met { OnOk result (met.new.items ≡ met_after seen.old.items met.old.items number) }
    ensures seen { OnOk result (seen.new.items ≡ seen_after seen.old.items number) }
{
    let i = number as usize;
    if i < seen.len() && !seen[i] {
        met.push(number)?;
        seen[i] = true;
    }
    Ok(())
}

/// Notes some numbers.
fn note_all(seen: &mut Vec<bool>, met: &mut Vec<u32>, targets: &[u32]) -> Result<(), AllocError>
    ensures { OnOk result (Grows seen.old.items met.old.items targets.now seen.new.items met.new.items) }
{
    for number in targets {
        note(seen, met, *number)?;
    }
    Ok(())
}

/// Whether a path leads from a node back to itself.
pub(crate) fn leads_back(
    alloc: Global,
    links: &List<List<u32>>,
    from: u32,
) -> Result<bool, AllocError>
    requires { from < length links.now }
    ensures { IfOk result (λ b. IsTrue b ↔ LiesOnCycle links.now from) }
{
    let mut seen = marks_of(alloc, links, false)?;
    let mut met = Vec::new(alloc);
    note_all(&mut seen, &mut met, successors_of(links, from))?;
    for i in 0..usize::MAX {
        if i >= met.len() {
            return Ok(seen[from as usize]);
        }
        let number = met[i];
        note_all(&mut seen, &mut met, successors_of(links, number))?;
    }
    Ok(seen[from as usize])
}

/// The first node from which a path leads back to it, if there is one: the plain body with which
/// `first_on_cycle` is compared.
pub fn first_by_search(alloc: Global, links: &List<List<u32>>) -> Result<Option<usize>, AllocError>
    ensures { IfOk result (IsFirstWithout (λ a. LiesOnCycle links.now a → ⊥) (length links.now)) }
{
    for i in 0..links.items().len() {
        let Ok(number) = u32::try_from(i) else {
            return Err(AllocError);
        };
        if leads_back(alloc, links, number)? {
            return Ok(Some(i));
        }
    }
    Ok(None)
}
