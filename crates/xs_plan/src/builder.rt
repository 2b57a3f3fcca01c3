ghost use Rattle.std.specs.Prelude.{◌≡◌, ◌<◌, ◌≤◌, ◌+◌, ◌*◌, ◌/◌, ◌%◌, ◌^◌, ◌==◌, [], ◌∷◌, ◌++◌, Option, Some, None, All, IfOk, IfSome, OnOk, length, slice_get, vec_len, vec_capacity, if◌then◌else◌};
ghost use Rattle.xs_plan.specs.Record.{drawing_of, entry_at, inputs_from};
ghost use Rattle.xs_plan.specs.Reads.{reads_in};
ghost use Rattle.xs_plan.specs.Valid.{IsEntry};
ghost use Rattle.xs_plan.specs.Draft.{Draft, empty_draft, with_entry, with_tint, with_root, next_tile, finished, LacksRoots, HasRoots, ReachesNew};

use crate::aliases::Aliases;
use crate::job::Job;
use crate::last::last_sections;
use crate::limits::{MOST_BUILT, MOST_ROWS, MOST_TILES};
use crate::news::News;
use crate::plan::Plan;
use std::alloc::Global;
use std::marker::Model;
use xs_base::Memory;
use xs_base::limits::SECTION_ROWS;
use xs_palette::Palette;
use xs_rect::Rect;

/// A plan that is being built, alias by alias in the order of their numbers, and root by root in the order
/// of rows and of the tiles of each. After Memory a builder is only dropped: nothing is said of what it holds.
#[derive(Debug, Drop)]
pub struct Builder {
    alloc: Global,
    tiles: Vec<Rect>,
    rows: u32,
    /// How many aliases there were when the last root was given.
    rooted: u32,
    aliases: Aliases,
    ends: Vec<u32>,
    tints: Vec<Palette>,
    /// The section in which each alias comes first.
    firsts: Vec<u32>,
}

impl Model for Builder {
    ghost use Rattle.xs_plan.specs.Draft.{Draft};
    ghost use Rattle.xs_plan.specs.Kept.{draft_of, IsDraft};

    ghost Value = { Draft };

    ghost view = { λ b. draft_of b.tiles.items b.aliases b.ends.items b.tints.items b.rows b.rooted };

    ghost invariant = { λ b. IsDraft (draft_of b.tiles.items b.aliases b.ends.items b.tints.items b.rows b.rooted) b.firsts.items };
}

impl Builder {
    /// A plan of so many rows, each cut into these tiles; no alias is added yet.
    pub fn new(alloc: Global, tiles: Vec<Rect>, rows: u32) -> Result<Builder, Memory>
        requires some_tiles { 1 ≤ length tiles.items }
        requires few_tiles { length tiles.items ≤ MOST_TILES }
        requires some_rows { 1 ≤ rows }
        requires few_rows { rows ≤ MOST_ROWS }
        ensures { IfOk result (λ b. b ≡ empty_draft tiles.items rows) }
    {
        Ok(Builder {
            alloc,
            tiles,
            rows,
            rooted: 0,
            aliases: Aliases::new(alloc),
            ends: Vec::with_capacity(alloc, rows as usize)?,
            tints: Vec::new(alloc),
            firsts: Vec::new(alloc),
        })
    }

    /// How many aliases were added.
    pub fn aliases(&self) -> u32
        ensures { result ≡ length self.now.plan.entries }
    {
        self.aliases.len()
    }

    /// How many reads there are so far, at ports and by rows' tiles.
    pub fn reads(&self) -> u32
        ensures { result ≡ reads_in self.now.plan }
    {
        self.aliases.reads()
    }

    /// How many rows have an alias for each tile.
    pub fn rows(&self) -> u32
        ensures count { result ≡ length self.now.plan.ends }
        ensures whole { result ≡ length self.now.plan.roots / length self.now.plan.tiles }
    {
        self.ends.len() as u32
    }

    /// Adds an alias that reads these aliases, `a` at port 0 and `b` at port 1, and answers its number. The
    /// section in which it comes first is that of the next root.
    pub fn add(
        &mut self,
        job: Job,
        rect: Rect,
        a: Option<u32>,
        b: Option<u32>,
    ) -> Result<u32, Memory>
        requires lacks_roots { LacksRoots self.old }
        requires inputs { a ≡ None → b ≡ None }
        requires valid { IsEntry (length self.old.plan.tints) self.old.plan.entries
            (record { job = job; rect = rect; inputs = inputs_from a b }) }
        requires room { length self.old.plan.entries < MOST_BUILT }
        ensures number { IfOk result (λ k. k ≡ length self.old.plan.entries) }
        ensures added { OnOk result (self.new
            ≡ with_entry self.old (record { job = job; rect = rect; inputs = inputs_from a b })) }
    {
        self.firsts.reserve(1)?;
        let section = self.ends.len() as u32 / SECTION_ROWS;
        let k = self.aliases.add(job, rect, a, b)?;
        self.firsts.push_reserved(section);
        Ok(k)
    }

    /// Adds a tint, and answers its number.
    pub fn tint(&mut self, p: Palette) -> Result<u32, Memory>
        requires { length self.old.plan.tints + 1 < 2 ^ 32 }
        ensures number { IfOk result (λ t. t ≡ length self.old.plan.tints) }
        ensures added { OnOk result (self.new ≡ with_tint self.old p) }
    {
        let t = self.tints.len() as u32;
        self.tints.push(p)?;
        Ok(t)
    }

    /// Gives the next row and tile its alias.
    pub fn root(&mut self, k: u32) -> Result<(), Memory>
        requires lacks_roots { LacksRoots self.old }
        requires there { k < length self.old.plan.entries }
        requires on_its_tile { slice_get self.old.plan.tiles (next_tile self.old) ≡ Some (entry_at self.old.plan.entries k).rect }
        requires reaches { ReachesNew self.old k }
        ensures { OnOk result (self.new ≡ with_root self.old k) }
    {
        self.ends.reserve(1)?;
        self.aliases.add_root(k)?;
        self.rooted = self.aliases.len();
        end_row(
            &mut self.ends,
            self.aliases.roots(),
            self.tiles.len() as u32,
            self.rooted,
        );
        Ok(())
    }

    /// The plan of what was added, where there are so many drawings.
    pub fn finish(self, drawings: u32) -> Result<Plan, Memory>
        requires has_roots { HasRoots self }
        requires drawings { All (λ e. IfSome (drawing_of e.job) (λ d. d < drawings)) self.plan.entries }
        ensures { IfOk result (λ p. p ≡ finished self drawings) }
    {
        let Builder {
            alloc,
            tiles,
            rows: _,
            rooted: _,
            aliases,
            ends,
            tints,
            firsts,
        } = self;
        let sections = (ends.len() as u32).div_ceil(SECTION_ROWS);
        let news = News::of(alloc, &aliases, &firsts, sections, drawings)?;
        let last = last_sections(alloc, &aliases, &firsts, drawings)?;
        Ok(Plan {
            tiles,
            aliases,
            ends,
            tints,
            firsts,
            news,
            last,
        })
    }
}

/// Ends a row where its last tile has its alias.
fn end_row(ends: &mut Vec<u32>, roots: u32, tiles: u32, aliases: u32)
    requires some { 1 ≤ tiles }
    requires room { vec_len ends.old < vec_capacity ends.old }
    ensures { ends.new.items ≡ (if roots % tiles == 0 then ends.old.items ++ aliases ∷ [] else ends.old.items) }
{
    if roots % tiles == 0 {
        ends.push_reserved(aliases);
    }
}
