//! Chains of nodes, each of which links to the next. How long chains are is told by as many rounds over all
//! nodes: after each, a mark says whether a chain of one step more begins there. The rounds end early where no
//! chain is left.
ghost use Rattle.std.specs.Prelude.{◌≡◌, ◌<◌, ◌↔◌, IfOk, IsTrue, All, ℕ, false, length, map, slice_index_or};
ghost use Rattle.std.specs.List.{list_any};
ghost use Rattle.xs_base.specs.First.{IsFirstWithout};
ghost use Rattle.xs_graph.specs.Paths.{TellChains, HasChain};

use std::alloc::{AllocError, Global};
use xs_base::List;

/// The mark of a number, or the given one past the marks.
fn mark_of(marks: &[bool], number: u32, outside: bool) -> bool
    ensures { result ≡ slice_index_or marks.now number outside }
{
    match marks.get(number as usize) {
        Some(mark) => *mark,
        None => outside,
    }
}

/// Whether one of the numbers is marked.
fn links_to_marked(targets: &[u32], marks: &[bool], outside: bool) -> bool
    ensures { result ≡ list_any (λ c. slice_index_or marks.now c outside) targets.now }
{
    targets
        .iter()
        .any(|&number| mark_of(marks, number, outside))
}

/// Marks the nodes that link to a marked one.
fn longer(
    alloc: Global,
    links: &List<List<u32>>,
    marks: &[bool],
    outside: bool,
) -> Result<Vec<bool>, AllocError>
    ensures { IfOk result (λ v. v.items ≡ map (λ targets. list_any (λ c. slice_index_or marks.now c outside) targets) links.now) }
{
    let longer: Vec<bool> = links
        .items()
        .iter()
        .map(|targets| links_to_marked(targets.items(), marks, outside))
        .collect(alloc)?;
    Ok(longer)
}

/// The same mark for each node.
pub(crate) fn marks_of(
    alloc: Global,
    links: &List<List<u32>>,
    mark: bool,
) -> Result<Vec<bool>, AllocError>
    ensures { IfOk result (λ v. v.items ≡ map (λ targets. mark) links.now) }
{
    let marks: Vec<bool> = links.items().iter().map(|_| mark).collect(alloc)?;
    Ok(marks)
}

/// Whether nothing is marked.
fn are_unmarked(marks: &[bool]) -> bool
    ensures { IsTrue result ↔ All (λ mark. mark ≡ false) marks.now }
{
    marks.iter().all(|mark| !*mark)
}

/// Marks the nodes at which a chain begins that has `steps` more after it.
fn chain_marks(alloc: Global, links: &List<List<u32>>, steps: u32) -> Result<Vec<bool>, AllocError>
    ensures { IfOk result (λ v. TellChains links.now steps v.items) }
{
    let mut marks = marks_of(alloc, links, true)?;
    for step in 0..steps {
        marks = longer(alloc, links, &marks, step == 0)?;
        if are_unmarked(&marks) {
            return Ok(marks);
        }
    }
    Ok(marks)
}

/// The first marked number.
fn first_marked(marks: &[bool]) -> Option<usize>
    ensures { IsFirstWithout (λ i. slice_index_or marks.now i false ≡ false) (length marks.now) result }
{
    for (i, mark) in marks.iter().enumerate() {
        if *mark {
            return Some(i);
        }
    }
    None
}

/// The first node at which a chain begins that has `steps` more after it, if there is one.
pub fn first_long(
    alloc: Global,
    links: &List<List<u32>>,
    steps: u32,
) -> Result<Option<usize>, AllocError>
    requires { 0 < steps }
    ensures { IfOk result (IsFirstWithout (λ a. HasChain links.now steps a → ⊥) (length links.now)) }
{
    let marks = chain_marks(alloc, links, steps)?;
    Ok(first_marked(&marks))
}
