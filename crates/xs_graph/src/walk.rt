//! A walk over the nodes of a graph, which numbers its strongly connected components by the path-based algorithm:
//! no node links to one with a greater label, and two have the same label where paths lead from each to the other.
//! Of the labels no more is proved than that each node has one: what is told by them is tested first.
ghost use Rattle.std.specs.Prelude.{◌≡◌, IfOk, length};

use std::alloc::{AllocError, Global};
use xs_base::List;

/// The number at a place; 0 past the end.
fn read(numbers: &[u32], place: u32) -> u32 {
    match numbers.get(place as usize) {
        Some(number) => *number,
        None => 0,
    }
}

fn write(numbers: &mut [u32], place: u32, number: u32) {
    let place = place as usize;
    if place < numbers.len() {
        numbers[place] = number;
    }
}

/// A node on the path, and how many of its links were looked at.
#[derive(Clone, Copy)]
struct Stop {
    node: u32,
    looked: usize,
}

/// The state of the walk.
#[derive(Drop)]
struct Walk<'s> {
    links: &'s List<List<u32>>,
    /// The path to where the walk is.
    path: Vec<Stop>,
    /// When each node was met, from 1 on; 0 before.
    met: Vec<u32>,
    count: u32,
    /// The label of each node, from 1 on; 0 while it has none.
    labels: Vec<u32>,
    given: u32,
    /// The nodes met that have no label yet, in their order.
    open: Vec<u32>,
    /// Of the open nodes the first of each run whose nodes lead to one another.
    heads: Vec<u32>,
    ghost labelled: { length labels.items ≡ length links.now },
}

impl<'s> Walk<'s> {
    fn new(alloc: Global, links: &'s List<List<u32>>) -> Result<Walk<'s>, AllocError>
        ensures { IfOk result (λ walk. walk.links.now ≡ links.now) }
    {
        let nodes = links.items().len();
        Ok(Walk {
            links,
            path: Vec::new(alloc),
            met: vec![in alloc; 0; nodes]?,
            count: 0,
            labels: vec![in alloc; 0; nodes]?,
            given: 0,
            open: Vec::new(alloc),
            heads: Vec::new(alloc),
        })
    }

    /// The node to which the next link of a node on the path leads.
    fn next_at(&self, stop: Stop) -> Option<u32> {
        let targets = self.links.items().get(stop.node as usize)?;
        targets.items().get(stop.looked).copied()
    }

    fn meet(&mut self, node: u32) -> Result<(), AllocError>
        ensures { self.new.links.now ≡ self.old.links.now }
    {
        self.count = self.count.saturating_add(1);
        write(&mut self.met, node, self.count);
        self.open.push(node)?;
        self.heads.push(node)?;
        self.path.push(Stop { node, looked: 0 })?;
        Ok(())
    }

    /// Joins the runs from an open node on, to which the walk has come back.
    fn join(&mut self, node: u32)
        ensures { self.new.links.now ≡ self.old.links.now }
    {
        let since = read(&self.met, node);
        for _ in 0..self.heads.len() {
            match self.heads.last() {
                Some(head) if read(&self.met, *head) > since => self.heads.pop(),
                _ => return,
            };
        }
    }

    /// Gives the open nodes from a head on the next label.
    fn label(&mut self, head: u32)
        ensures { self.new.links.now ≡ self.old.links.now }
    {
        self.given = self.given.saturating_add(1);
        for _ in 0..self.open.len() {
            let Some(node) = self.open.pop() else {
                return;
            };
            write(&mut self.labels, node, self.given);
            if node == head {
                return;
            }
        }
    }

    /// Follows a link of a node on the path.
    fn look(&mut self, number: u32) -> Result<(), AllocError>
        ensures { self.new.links.now ≡ self.old.links.now }
    {
        if number as usize >= self.met.len() {
            return Ok(());
        }
        if read(&self.met, number) == 0 {
            return self.meet(number);
        }
        if read(&self.labels, number) == 0 {
            self.join(number);
        }
        Ok(())
    }

    /// Leaves a node whose links were all looked at.
    fn leave(&mut self, node: u32)
        ensures { self.new.links.now ≡ self.old.links.now }
    {
        if self.heads.last() == Some(&node) {
            let _ = self.heads.pop();
            self.label(node);
        }
    }

    /// Follows the next link of a node on the path, or leaves it.
    fn step(&mut self, stop: Stop) -> Result<(), AllocError>
        ensures { self.new.links.now ≡ self.old.links.now }
    {
        match self.next_at(stop) {
            Some(number) => {
                let looked = stop.looked.saturating_add(1);
                self.path.push(Stop { looked, ..stop })?;
                self.look(number)
            }
            None => {
                self.leave(stop.node);
                Ok(())
            }
        }
    }

    /// Walks wherever paths lead from a node.
    fn walk_from(&mut self, node: u32) -> Result<(), AllocError>
        ensures { self.new.links.now ≡ self.old.links.now }
    {
        if read(&self.met, node) > 0 {
            return Ok(());
        }
        self.meet(node)?;
        for _ in 0..usize::MAX {
            match self.path.pop() {
                Some(stop) => self.step(stop)?,
                None => return Ok(()),
            }
        }
        Ok(())
    }
}

/// A label for each node, by a walk over all of them, by which `first_by_labels` is meant to tell the first node on
/// a cycle.
pub fn labels_of(alloc: Global, links: &List<List<u32>>) -> Result<Vec<u32>, AllocError>
    ensures { IfOk result (λ labels. length labels.items ≡ length links.now) }
{
    let mut walk = Walk::new(alloc, links)?;
    for i in 0..links.items().len() {
        let Ok(node) = u32::try_from(i) else {
            return Err(AllocError);
        };
        walk.walk_from(node)?;
    }
    let Walk { labels, .. } = walk;
    Ok(labels)
}
