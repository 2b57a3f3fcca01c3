ghost use Rattle.std.specs.Prelude.{◌≡◌, ◌<◌, ◌≤◌, ◌+◌, Some, length, slice_get, slice_range};
ghost use Rattle.xs_plan.specs.Record.{PlanRecord, entry_at, root_at, rows_in};
ghost use Rattle.xs_plan.specs.Reads.{reads_in, readers_of, port_read_of, root_read_of, edges};
ghost use Rattle.xs_plan.specs.Sections.{sections_in, first_section};
ghost use Rattle.xs_plan.specs.Needed.{new_drawings, last_section_of};
ghost use Rattle.xs_plan.specs.Valid.{IsPlan};

use crate::aliases::Aliases;
use crate::job::{Edge, Job};
use crate::news::News;
use std::marker::Model;
use xs_base::crosses_threads;
use xs_base::limits::SECTION_ROWS;
use xs_palette::Palette;
use xs_rect::Rect;

/// What a range of rows demands. Aliases, rows, tiles, sections, tints, drawings and reads are numbered from
/// 0. Contracts see it as the record of its parts. Each answer is one look at what is kept, whatever the size.
#[derive(Debug, Drop)]
pub struct Plan {
    pub(crate) tiles: Vec<Rect>,
    pub(crate) aliases: Aliases,
    /// How many aliases there are after each row.
    pub(crate) ends: Vec<u32>,
    pub(crate) tints: Vec<Palette>,
    /// The section in which each alias comes first.
    pub(crate) firsts: Vec<u32>,
    pub(crate) news: News,
    /// The last section that needs each drawing.
    pub(crate) last: Vec<Option<u32>>,
}

impl Model for Plan {
    ghost use Rattle.std.specs.Prelude.{length};
    ghost use Rattle.xs_plan.specs.Record.{PlanRecord};
    ghost use Rattle.xs_plan.specs.Kept.{plan_of, IsKept};

    ghost Value = { PlanRecord };

    ghost view = { λ p. plan_of p.tiles.items p.aliases p.ends.items p.tints.items (length p.last.items) };

    ghost invariant = { λ p. IsKept (plan_of p.tiles.items p.aliases p.ends.items p.tints.items (length p.last.items))
        p.firsts.items p.news.drawings.items p.news.starts.items p.last.items };
}

impl Plan {
    /// How many aliases there are. What may be relied on in a plan is told here.
    pub fn aliases(&self) -> u32
        ensures count { result ≡ length self.now.entries }
        ensures valid { IsPlan self.now }
    {
        let _ends = &self.ends;
        self.aliases.len()
    }

    /// How many reads there are, at ports and by rows' tiles.
    pub fn reads(&self) -> u32
        ensures { result ≡ reads_in self.now }
    {
        self.aliases.reads()
    }

    /// What an alias is made of.
    pub fn job(&self, k: u32) -> Job
        requires { k < length self.now.entries }
        ensures { result ≡ (entry_at self.now.entries k).job }
    {
        self.aliases.job(k)
    }

    /// The rectangle of an alias.
    pub fn rect(&self, k: u32) -> Rect
        requires { k < length self.now.entries }
        ensures { result ≡ (entry_at self.now.entries k).rect }
    {
        self.aliases.rect(k)
    }

    /// The alias that an alias reads at a port; None exactly where it has no such port. Ports are 0 and 1.
    pub fn input(&self, k: u32, port: u32) -> Option<u32>
        requires { k < length self.now.entries }
        ensures { result ≡ slice_get (entry_at self.now.entries k).inputs port }
    {
        self.aliases.input(k, port)
    }

    /// The number of an alias's read at a port; None exactly where it has no such port.
    pub fn port_read(&self, k: u32, port: u32) -> Option<u32>
        requires { k < length self.now.entries }
        ensures { result ≡ port_read_of self.now k port }
    {
        self.aliases.port_read(k, port)
    }

    /// How often an alias is read. An input that is used at both ports counts twice.
    pub fn readers(&self, k: u32) -> u32
        requires { k < length self.now.entries }
        ensures { result ≡ readers_of self.now k }
    {
        self.aliases.readers(k)
    }

    /// The read with a number: those at ports come first, by alias and then port, and then those of the
    /// rows' tiles, by row and then tile.
    #[tactic(auto, unfolding(crate::specs::Reads::edges))]
    pub fn read(&self, e: u32) -> Edge
        requires { e < reads_in self.now }
        ensures { slice_get (edges self.now) e ≡ Some result }
    {
        self.aliases.read(self.tiles.len() as u32, e)
    }

    /// The alias of a row and tile.
    pub fn root(&self, row: u32, tile: u32) -> u32
        requires row { row < rows_in self.now }
        requires tile { tile < length self.now.tiles }
        ensures { result ≡ root_at self.now row tile }
    {
        self.aliases.root(row * self.tiles.len() as u32 + tile)
    }

    /// The number of the read of a row and tile.
    pub fn root_read(&self, row: u32, tile: u32) -> u32
        requires row { row < rows_in self.now }
        requires tile { tile < length self.now.tiles }
        ensures { result ≡ root_read_of self.now row tile }
    {
        self.aliases.port_reads() + (row * self.tiles.len() as u32 + tile)
    }

    /// How many rows there are.
    pub fn rows(&self) -> u32
        ensures { result ≡ rows_in self.now }
    {
        self.ends.len() as u32
    }

    /// How many tiles each row has.
    pub fn tiles(&self) -> u32
        ensures { result ≡ length self.now.tiles }
    {
        self.tiles.len() as u32
    }

    /// A tile of each row.
    pub fn tile(&self, t: u32) -> Rect
        requires { t < length self.now.tiles }
        ensures { slice_get self.now.tiles t ≡ Some result }
    {
        self.tiles[t as usize]
    }

    /// How many sections the rows are cut into.
    pub fn sections(&self) -> u32
        ensures { result ≡ sections_in self.now }
    {
        (self.ends.len() as u32).div_ceil(SECTION_ROWS)
    }

    /// The section in which an alias comes first.
    pub fn first_section(&self, k: u32) -> u32
        requires { k < length self.now.entries }
        ensures { result ≡ first_section self.now k }
    {
        self.firsts[k as usize]
    }

    /// The drawings that a section is the first to need, each once, by the least aliases that need them.
    pub fn new_drawings(&self, s: u32) -> &[u32]
        requires { s < sections_in self.now }
        ensures { result.now ≡ new_drawings self.now s }
    {
        let from = self.news.starts[s as usize];
        let to = self.news.starts[s as usize + 1];
        part(self.news.drawings.as_slice(), from, to)
    }

    /// The last section that needs a drawing; None exactly where none does, as for a number that no drawing
    /// has.
    pub fn last_section(&self, drawing: u32) -> Option<u32>
        ensures { result ≡ last_section_of self.now drawing }
    {
        match self.last.get(drawing as usize) {
            Some(last) => *last,
            None => None,
        }
    }

    /// The tint with a number.
    pub fn tint(&self, t: u32) -> &Palette
        requires { t < length self.now.tints }
        ensures { slice_get self.now.tints t ≡ Some result.now }
    {
        &self.tints[t as usize]
    }

    /// How many tints there are.
    pub fn tints(&self) -> u32
        ensures { result ≡ length self.now.tints }
    {
        self.tints.len() as u32
    }

    /// How many drawings there are; those that aliases need are numbered below it.
    pub fn drawings(&self) -> u32
        ensures { result ≡ self.now.drawings }
    {
        self.last.len() as u32
    }
}

/// Some of the items of a list.
fn part(items: &[u32], from: u32, to: u32) -> &[u32]
    requires order { from ≤ to }
    requires within { to ≤ length items.now }
    ensures { result.now ≡ slice_range items.now from to }
{
    &items[from as usize..to as usize]
}

/// A plan may be sent to another thread, and shared with it.
pub fn plan_crosses_threads() {
    crosses_threads::<Plan>();
}
