//! The first node on a cycle, by labels of the nodes: no node is on one before the first that links to a node
//! with its own label. That no label rises along a link and that this node is on a cycle is tested; where it is
//! not so, each node is asked whether a path leads back to it.
ghost use Rattle.std.specs.Prelude.{◌≡◌, ◌<◌, ◌≤◌, ◌↔◌, IfOk, IfSome, IsTrue, All, length, slice_index};
ghost use Rattle.xs_graph.specs.Labels.{NeverRise, Falls, IsToldBy};
ghost use Rattle.xs_base.specs.First.{IsFirstWithout};
ghost use Rattle.xs_graph.specs.Paths.{LiesOnCycle};

use crate::search::{first_by_search, leads_back};
use crate::walk::labels_of;
use std::alloc::{AllocError, Global};
use xs_base::List;

/// The label of a node; 0 past the labels.
fn label_of(labels: &[u32], node: usize) -> u32
    ensures { result ≡ slice_index labels.now node }
{
    match labels.get(node) {
        Some(label) => *label,
        None => 0,
    }
}

/// Whether no number has a label greater than `most`.
fn are_within(targets: &[u32], labels: &[u32], most: u32) -> bool
    ensures { IsTrue result ↔ All (λ c. slice_index labels.now c ≤ most) targets.now }
{
    targets
        .iter()
        .all(|&number| label_of(labels, number as usize) <= most)
}

/// Whether each number has a label smaller than `end`.
fn are_below(targets: &[u32], labels: &[u32], end: u32) -> bool
    ensures { IsTrue result ↔ All (λ c. slice_index labels.now c < end) targets.now }
{
    targets
        .iter()
        .all(|&number| label_of(labels, number as usize) < end)
}

/// Whether no node links to one with a greater label.
fn never_rise(links: &[List<u32>], labels: &[u32]) -> bool
    ensures { IsTrue result ↔ NeverRise links.now labels.now }
{
    for (i, targets) in links.iter().enumerate() {
        if !are_within(targets.items(), labels, label_of(labels, i)) {
            return false;
        }
    }
    true
}

/// The first node that links to one whose label is not smaller than its own.
fn first_level(links: &[List<u32>], labels: &[u32]) -> Option<usize>
    ensures { IsFirstWithout (Falls links.now labels.now) (length links.now) result }
{
    for (i, targets) in links.iter().enumerate() {
        if !are_below(targets.items(), labels, label_of(labels, i)) {
            return Some(i);
        }
    }
    None
}

/// Whether a path leads from a node back to itself, if there is one.
fn is_on_cycle(
    alloc: Global,
    links: &List<List<u32>>,
    node: Option<usize>,
) -> Result<bool, AllocError>
    requires { IfSome node (λ i. i < length links.now) }
    ensures { IfOk result (λ b. IsTrue b ↔ IfSome node (LiesOnCycle links.now)) }
{
    let Some(node) = node else {
        return Ok(true);
    };
    match u32::try_from(node) {
        Ok(number) => leads_back(alloc, links, number),
        Err(_) => Err(AllocError),
    }
}

/// What labels tell of the first node on a cycle.
#[derive(Clone, Copy, Debug, PartialEq, Eq)]
pub enum ByLabels {
    /// The first node on a cycle, or that there is none.
    First(Option<usize>),
    /// These labels do not show which node is the first on a cycle: one rises along a link, or the first node that
    /// links to one with a label that is not smaller lies on no cycle.
    Nothing,
}

/// The quick way: what these labels of the nodes tell of the first node on a cycle. Where they tell something, it is
/// what `first_on_cycle` answers; they tell nothing only where they do not show it. A node past the labels has 0.
pub fn first_by_labels(
    alloc: Global,
    links: &List<List<u32>>,
    labels: &[u32],
) -> Result<ByLabels, AllocError>
    ensures { IfOk result (IsToldBy links.now labels.now) }
{
    let nodes = links.items();
    if !never_rise(nodes, labels) {
        return Ok(ByLabels::Nothing);
    }
    let first = first_level(nodes, labels);
    if is_on_cycle(alloc, links, first)? {
        Ok(ByLabels::First(first))
    } else {
        Ok(ByLabels::Nothing)
    }
}

/// The first node from which a path leads back to it, if there is one.
pub fn first_on_cycle(alloc: Global, links: &List<List<u32>>) -> Result<Option<usize>, AllocError>
    ensures { IfOk result (IsFirstWithout (λ a. LiesOnCycle links.now a → ⊥) (length links.now)) }
{
    let labels = labels_of(alloc, links)?;
    match first_by_labels(alloc, links, &labels)? {
        ByLabels::First(first) => Ok(first),
        ByLabels::Nothing => first_by_search(alloc, links),
    }
}
