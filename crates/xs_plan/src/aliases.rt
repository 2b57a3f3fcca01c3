ghost use Rattle.std.specs.Prelude.{◌≡◌, ◌<◌, ◌≤◌, ◌+◌, ◌*◌, ◌/◌, ◌%◌, ◌^◌, ◌==◌, [], ◌∷◌, ◌++◌, Option, Some, None, IfOk, OnOk, OnErr, IfSome, length, nat_lt, replicate, slice_get, slice_index, count_by, vec_len, vec_capacity, if◌then◌else◌};
ghost use Rattle.xs_plan.specs.Record.{Entry, entry_at, inputs_from};
ghost use Rattle.xs_plan.specs.Reads.{port_sources, edge, port_edges, root_edges};
ghost use Rattle.xs_plan.specs.Kept.{reads_before, counted};

use crate::alias::Alias;
use crate::job::{Edge, Job, Reader};
use crate::limits::{MOST_BUILT, MOST_ROWS, MOST_TILES};
use std::alloc::Global;
use std::marker::Model;
use xs_base::Memory;
use xs_rect::Rect;

/// Aliases by their numbers, the aliases that the rows' tiles read, and what tells of each read.
#[derive(Debug, Drop)]
pub(crate) struct Aliases {
    list: Vec<Alias>,
    /// The number of each alias's read at port 0.
    starts: Vec<u32>,
    /// The alias that makes each read at a port.
    owners: Vec<u32>,
    roots: Vec<u32>,
    /// How often each alias is read.
    readers: Vec<u32>,
}

impl Model for Aliases {
    ghost use Rattle.xs_plan.specs.Kept.{Rooted, AreReads};

    ghost Value = { Rooted };

    ghost view = { λ a. record { entries = a.list.items; roots = a.roots.items } };

    ghost invariant = { λ a. AreReads a.list.items a.roots.items a.starts.items a.owners.items a.readers.items };
}

impl Aliases {
    /// No alias is there.
    pub(crate) fn new(alloc: Global) -> Aliases
        ensures { result ≡ record { entries = []; roots = [] } }
    {
        Aliases {
            list: Vec::new(alloc),
            starts: Vec::new(alloc),
            owners: Vec::new(alloc),
            roots: Vec::new(alloc),
            readers: Vec::new(alloc),
        }
    }

    /// How many aliases there are.
    pub(crate) fn len(&self) -> u32
        ensures count { result ≡ length self.now.entries }
        ensures few { result ≤ MOST_BUILT }
    {
        self.list.len() as u32
    }

    /// How many rows' tiles have their alias.
    pub(crate) fn roots(&self) -> u32
        ensures { result ≡ length self.now.roots }
    {
        self.roots.len() as u32
    }

    /// How many reads there are at ports.
    pub(crate) fn port_reads(&self) -> u32
        ensures count { result ≡ length (port_sources self.now.entries) }
        ensures few { result ≤ 2 * MOST_BUILT }
    {
        self.owners.len() as u32
    }

    /// How many reads there are, at ports and by rows' tiles.
    pub(crate) fn reads(&self) -> u32
        ensures { result ≡ length (port_sources self.now.entries ++ self.now.roots) }
    {
        self.owners.len() as u32 + self.roots.len() as u32
    }

    /// The job of an alias.
    pub(crate) fn job(&self, k: u32) -> Job
        requires { k < length self.now.entries }
        ensures { result ≡ (entry_at self.now.entries k).job }
    {
        self.list[k as usize].job()
    }

    /// The rectangle of an alias.
    pub(crate) fn rect(&self, k: u32) -> Rect
        requires { k < length self.now.entries }
        ensures { result ≡ (entry_at self.now.entries k).rect }
    {
        self.list[k as usize].rect()
    }

    /// The alias that an alias reads at a port.
    pub(crate) fn input(&self, k: u32, port: u32) -> Option<u32>
        requires { k < length self.now.entries }
        ensures { result ≡ slice_get (entry_at self.now.entries k).inputs port }
    {
        self.list[k as usize].input(port)
    }

    /// The number of an alias's read at a port.
    pub(crate) fn port_read(&self, k: u32, port: u32) -> Option<u32>
        requires { k < length self.now.entries }
        ensures { result ≡ (if nat_lt port (length (entry_at self.now.entries k).inputs)
            then Some (reads_before self.now.entries k + port) else None) }
    {
        if port < self.list[k as usize].ports() {
            Some(self.starts[k as usize] + port)
        } else {
            None
        }
    }

    /// How often an alias is read.
    pub(crate) fn readers(&self, k: u32) -> u32
        requires { k < length self.now.entries }
        ensures { result ≡ count_by (λ source. source == k) (port_sources self.now.entries ++ self.now.roots) }
    {
        self.readers[k as usize]
    }

    /// The alias of a row and tile, by its place among the roots.
    pub(crate) fn root(&self, place: u32) -> u32
        requires { place < length self.now.roots }
        ensures { result ≡ slice_index self.now.roots place }
    {
        self.roots[place as usize]
    }

    /// The read at a port with a number.
    fn port_edge(&self, e: u32) -> Edge
        requires { e < length (port_sources self.now.entries) }
        ensures { slice_get (port_edges 0 self.now.entries) e ≡ Some result }
    {
        let alias = self.owners[e as usize];
        let port = e - self.starts[alias as usize];
        let source = match self.list[alias as usize].input(port) {
            Some(source) => source,
            None => unreachable!(),
        };
        Edge {
            source,
            reader: Reader::Port { alias, port },
        }
    }

    /// The read of a row's tile, by its place among the roots, where each row has so many tiles.
    fn root_edge(&self, tiles: u32, place: u32) -> Edge
        requires there { place < length self.now.roots }
        requires some { 0 < tiles }
        ensures { slice_get (root_edges tiles 0 self.now.roots) place ≡ Some result }
    {
        Edge {
            source: self.roots[place as usize],
            reader: Reader::Root {
                row: place / tiles,
                tile: place % tiles,
            },
        }
    }

    /// The read with a number, where each row has so many tiles.
    pub(crate) fn read(&self, tiles: u32, e: u32) -> Edge
        requires there { e < length (port_sources self.now.entries ++ self.now.roots) }
        requires some { 0 < tiles }
        ensures { slice_get (port_edges 0 self.now.entries ++ root_edges tiles 0 self.now.roots) e ≡ Some result }
    {
        let ports = self.owners.len() as u32;
        if e < ports {
            self.port_edge(e)
        } else {
            self.root_edge(tiles, e - ports)
        }
    }

    /// Adds an alias, and answers its number.
    pub(crate) fn add(
        &mut self,
        job: Job,
        rect: Rect,
        a: Option<u32>,
        b: Option<u32>,
    ) -> Result<u32, Memory>
        requires inputs { a ≡ None → b ≡ None }
        requires first { IfSome a (λ k. k < length self.old.entries) }
        requires second { IfSome b (λ k. k < length self.old.entries) }
        requires room { length self.old.entries < MOST_BUILT }
        ensures number { IfOk result (λ k. k ≡ length self.old.entries) }
        ensures added { OnOk result (self.new
            ≡ record self.old { entries = self.old.entries ++ record { job = job; rect = rect; inputs = inputs_from a b } ∷ [] }) }
        ensures err { OnErr result (self.new ≡ self.old) }
    {
        self.list.reserve(1)?;
        self.starts.reserve(1)?;
        self.owners.reserve(2)?;
        self.readers.reserve(1)?;
        let k = self.list.len() as u32;
        let alias = Alias::new(job, rect, a, b);
        self.starts.push_reserved(self.owners.len() as u32);
        note_owner(&mut self.owners, k, alias.ports());
        self.list.push_reserved(alias);
        self.readers.push_reserved(0);
        count_read(&mut self.readers, a);
        count_read(&mut self.readers, b);
        Ok(k)
    }

    /// Adds the alias of the next row and tile.
    pub(crate) fn add_root(&mut self, k: u32) -> Result<(), Memory>
        requires there { k < length self.old.entries }
        requires room { length self.old.roots < MOST_ROWS * MOST_TILES }
        ensures added { OnOk result (self.new ≡ record self.old { roots = self.old.roots ++ k ∷ [] }) }
        ensures err { OnErr result (self.new ≡ self.old) }
    {
        self.roots.push(k)?;
        count_read(&mut self.readers, Some(k));
        Ok(())
    }
}

/// Says of each of an alias's reads at ports that it makes it.
fn note_owner(owners: &mut Vec<u32>, k: u32, ports: u32)
    requires { vec_len owners.old + ports ≤ vec_capacity owners.old }
    ensures { owners.new.items ≡ owners.old.items ++ replicate ports k }
{
    for _port in 0..ports {
        owners.push_reserved(k);
    }
}

/// Counts a read of an alias, if there is one.
fn count_read(readers: &mut Vec<u32>, source: Option<u32>)
    requires there { IfSome source (λ k. k < length readers.old.items) }
    requires room { IfSome source (λ k. slice_index readers.old.items k + 1 < 2 ^ 32) }
    ensures { readers.new.items ≡ counted readers.old.items source }
{
    if let Some(k) = source {
        readers[k as usize] += 1;
    }
}
