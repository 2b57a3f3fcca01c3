ghost use Rattle.std.specs.Prelude.{◌≡◌, ◌<◌, ◌≢◌, length, IfOk, replicate};
ghost use Rattle.xs_chain.specs.Row.{all_empty, with_last, without, list_with, list_at, head, next_of, IsRow};
ghost use Rattle.xs_chain.specs.Ring.{member_of, IsEachAlone};

use std::alloc::Global;
use std::marker::Model;
use xs_base::Memory;

/// A row of lists without a common member. Members and lists are numbered from 0 on. Each list is a ring: of its
/// members in their order, and of a node of its own after the last and before the first. The nodes of the lists
/// come after the members.
#[derive(Debug, Drop)]
pub struct Chains {
    members: u32,
    nexts: Vec<usize>,
    befores: Vec<usize>,
    /// The list that each member is in.
    owners: Vec<Option<u32>>,
}

impl Model for Chains {
    ghost use Rattle.xs_chain.specs.Row.{Row};
    ghost use Rattle.xs_chain.specs.Ring.{shown, IsRing};

    ghost Value = { Row };

    ghost view = { λ c. record { members = c.members; lists = shown c.members c.nexts.items } };

    ghost invariant = { λ c. IsRing c.members c.nexts.items c.befores.items c.owners.items };
}

impl Chains {
    /// So many members, and so many lists, each empty. No other call takes memory.
    pub fn new(alloc: Global, members: u32, lists: u32) -> Result<Chains, Memory>
        ensures { IfOk result (λ c. c ≡ all_empty members lists) }
    {
        let nodes = members as usize + lists as usize;
        let nexts = each_alone(alloc, nodes)?;
        let befores = each_alone(alloc, nodes)?;
        let owners = none_owned(alloc, members)?;
        Ok(Chains {
            members,
            nexts,
            befores,
            owners,
        })
    }

    /// Puts a member that is in no list at the end of this one.
    pub fn push_back(&mut self, list: u32, m: u32)
        requires list_exists { list < length self.old.lists }
        requires member_exists { m < self.old.members }
        requires in_no_list { list_with self.old m ≡ None }
        ensures { self.new ≡ with_last self.old list m }
    {
        let end = self.members as usize + list as usize;
        let node = m as usize;
        let last = self.befores[end];
        self.nexts[last] = node;
        self.nexts[node] = end;
        self.befores[node] = last;
        self.befores[end] = node;
        self.owners[node] = Some(list);
    }

    /// Takes a member out of its list.
    pub fn unlink(&mut self, m: u32)
        requires member_exists { m < self.old.members }
        requires in_a_list { list_with self.old m ≢ None }
        ensures { self.new ≡ without self.old m }
    {
        let node = m as usize;
        let before = self.befores[node];
        let next = self.nexts[node];
        self.nexts[before] = next;
        self.befores[next] = before;
        self.owners[node] = None;
    }

    /// Takes a member out of its list, if it is in one, and puts it at the end of this one.
    pub fn move_to(&mut self, list: u32, m: u32)
        requires list_exists { list < length self.old.lists }
        requires member_exists { m < self.old.members }
        ensures { self.new ≡ with_last (without self.old m) list m }
    {
        self.leave(m);
        self.push_back(list, m);
    }

    /// Takes a member out of its list, if it is in one.
    fn leave(&mut self, m: u32)
        requires { m < self.old.members }
        ensures row { self.new ≡ without self.old m }
        ensures in_no_list { list_with self.new m ≡ None }
    {
        if self.list_of(m).is_some() {
            self.unlink(m);
        }
    }

    /// The first member of a list; None where it is empty.
    pub fn first(&self, list: u32) -> Option<u32>
        requires { list < length self.now.lists }
        ensures member { result ≡ head (list_at self.now list) }
        ensures valid { IsRow self.now }
    {
        self.member(self.nexts[self.members as usize + list as usize])
    }

    /// The member after this one in its list; None where it is the last.
    pub fn next(&self, m: u32) -> Option<u32>
        requires member_exists { m < self.now.members }
        requires in_a_list { list_with self.now m ≢ None }
        ensures member { result ≡ next_of self.now m }
        ensures valid { IsRow self.now }
    {
        self.member(self.nexts[m as usize])
    }

    /// The list that a member is in; None where it is in none.
    pub fn list_of(&self, m: u32) -> Option<u32>
        requires { m < self.now.members }
        ensures list { result ≡ list_with self.now m }
        ensures valid { IsRow self.now }
    {
        self.owners[m as usize]
    }

    /// The member that this node is; a list's own node is none.
    fn member(&self, node: usize) -> Option<u32>
        ensures { result ≡ member_of self.now.members node }
    {
        if node < self.members as usize {
            Some(node as u32)
        } else {
            None
        }
    }
}

/// So many nodes, each linked to itself.
fn each_alone(alloc: Global, nodes: usize) -> Result<Vec<usize>, Memory>
    ensures { IfOk result (λ v. IsEachAlone nodes v.items) }
{
    let mut links = Vec::new(alloc);
    for node in 0..nodes {
        links.push(node)?;
    }
    Ok(links)
}

/// The owners of so many members, each in no list.
fn none_owned(alloc: Global, members: u32) -> Result<Vec<Option<u32>>, Memory>
    ensures { IfOk result (λ v. v.items ≡ replicate members None) }
{
    let mut owners = Vec::new(alloc);
    for _member in 0..members {
        owners.push(None)?;
    }
    Ok(owners)
}
