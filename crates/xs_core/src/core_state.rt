ghost use Rattle.std.specs.Prelude.{◌≡◌, ◌<◌, ◌↔◌, ℕ, Some, IfOk, IsTrue, length, slice_index};
ghost use Rattle.xs_plan.specs.Reads.{reads_in, readers_of};
ghost use Rattle.xs_core.specs.declared.event.Event.TheVariants.{Claim, Finish, Abandon, Turn, Give, Retire, Clear};
ghost use Rattle.xs_core.specs.declared.state.Phase.TheVariants.{Claimed};
ghost use Rattle.xs_core.specs.declared.state.ReadState.TheVariants.{InTurn};
ghost use Rattle.xs_core.specs.States.{phase_of, read_of, tile_of, source_at, reader_at, seat_of_reader, is_ready, seat_in, left};
ghost use Rattle.xs_core.specs.Events.{start, IsOf, MayServe};
ghost use Rattle.xs_core.specs.Kept.{Kept, core_in, Tells, IsCounted};

use crate::event::{Event, Stepped};
use crate::state::{Phase, ReadState, TileState};
use std::alloc::Global;
use std::marker::Model;
use std::snapshot::Snapshot;
use xs_base::Memory;
use xs_plan::laws::reads_have_their_sources;
use xs_plan::{Edge, Plan, Reader};

/// The state of a cache of a plan, and the events that change it. Contracts see it as the plan and the state.
/// Aliases, reads and seats are numbered from 0. Each call but `start` is a few looks, whatever the size.
#[derive(Drop)]
pub struct Core {
    plan: Snapshot<Plan>,
    phases: Vec<Phase>,
    reads: Vec<ReadState>,
    tiles: Vec<TileState>,
    /// How many reads of each alias are not served.
    open_reads: Vec<u32>,
    /// Whether a read of each alias is in turn.
    turning: Vec<bool>,
}

impl Model for Core {
    ghost use Rattle.xs_core.specs.Kept.{CoreRecord, IsKept, core_in, world};

    ghost Value = { CoreRecord };

    ghost view = { λ c. core_in c.plan.value (world c.phases.items c.reads.items c.tiles.items) };

    ghost invariant = { λ c. IsKept c.plan.value
        (world c.phases.items c.reads.items c.tiles.items) c.open_reads.items c.turning.items };
}

impl Core {
    /// The state in which nothing has happened.
    pub fn start(alloc: Global, p: &Plan) -> Result<Core, Memory>
        ensures { IfOk result (λ c. c ≡ core_in p.now (start p.now)) }
    {
        let aliases = p.aliases() as usize;
        let phases = vec![in alloc; Phase::Idle; aliases]?;
        let reads = vec![in alloc; ReadState::Waiting; p.reads() as usize]?;
        let tiles = vec![in alloc; TileState::Absent; aliases]?;
        let open_reads = readers(alloc, p)?;
        let turning = vec![in alloc; false; aliases]?;
        Ok(Core {
            plan: Snapshot::of(p),
            phases,
            reads,
            tiles,
            open_reads,
            turning,
        })
    }

    /// Makes an event happen where it is allowed; else nothing changes.
    pub fn step(&mut self, p: &Plan, event: Event) -> Stepped
        requires plan { p.now ≡ self.old.plan }
        requires there { IsOf p.now event }
        ensures { Tells self.old event result self.new }
    {
        match event {
            Event::Claim { seat, alias } => self.claim(seat, alias),
            Event::Finish { seat, alias } => self.finish(seat, alias),
            Event::Abandon { seat, alias } => self.abandon(seat, alias),
            Event::Turn { seat, read } => self.turn(p, seat, read),
            Event::Give { seat, read } => self.give(p, seat, read),
            Event::Retire { seat, read } => self.retire(p, seat, read),
            Event::Clear { seat, alias } => self.clear(seat, alias),
        }
    }

    /// Tells what every state keeps.
    pub fn look_over(&self)
        ensures { Kept self.now.plan self.now.world }
    {
        let _ = &self.phases;
    }

    /// How far an alias is.
    pub fn phase(&self, k: u32) -> Phase
        requires { k < length self.now.plan.entries }
        ensures { result ≡ phase_of self.now.world k }
    {
        self.phases[k as usize]
    }

    /// How far a read is.
    pub fn read_state(&self, e: u32) -> ReadState
        requires { e < reads_in self.now.plan }
        ensures { result ≡ read_of self.now.world e }
    {
        self.reads[e as usize]
    }

    /// Where the tile of an alias is.
    pub fn tile(&self, k: u32) -> TileState
        requires { k < length self.now.plan.entries }
        ensures { result ≡ tile_of self.now.world k }
    {
        self.tiles[k as usize]
    }

    /// How many reads of an alias are not served.
    pub fn left(&self, p: &Plan, k: u32) -> u32
        requires plan { p.now ≡ self.now.plan }
        requires there { k < length p.now.entries }
        ensures { result ≡ left p.now self.now.world k }
    {
        let _ = p;
        self.open_reads[k as usize]
    }

    fn claim(&mut self, seat: u32, alias: u32) -> Stepped
        requires { alias < length self.old.plan.entries }
        ensures { Tells self.old (Claim seat alias) result self.new }
    {
        if self.phases[alias as usize] != Phase::Idle {
            return Stepped::NotAllowed;
        }
        self.phases[alias as usize] = Phase::Claimed(seat);
        Stepped::Done
    }

    fn finish(&mut self, seat: u32, alias: u32) -> Stepped
        requires { alias < length self.old.plan.entries }
        ensures { Tells self.old (Finish seat alias) result self.new }
    {
        if !is_claimed(self.phases[alias as usize], seat) {
            return Stepped::NotAllowed;
        }
        self.phases[alias as usize] = Phase::Ready(seat);
        self.tiles[alias as usize] = TileState::Held;
        Stepped::Done
    }

    fn abandon(&mut self, seat: u32, alias: u32) -> Stepped
        requires { alias < length self.old.plan.entries }
        ensures { Tells self.old (Abandon seat alias) result self.new }
    {
        if !is_claimed(self.phases[alias as usize], seat) {
            return Stepped::NotAllowed;
        }
        self.phases[alias as usize] = Phase::Lost;
        Stepped::Done
    }

    fn turn(&mut self, p: &Plan, seat: u32, read: u32) -> Stepped
        requires plan { p.now ≡ self.old.plan }
        requires there { read < reads_in p.now }
        ensures { Tells self.old (Turn seat read) result self.new }
    {
        let edge = edge_of(p, read);
        let source = edge.source as usize;
        if self.turning[source] || !self.may_serve(p, seat, read, edge) {
            return Stepped::NotAllowed;
        }
        self.reads[read as usize] = ReadState::InTurn(seat);
        self.turning[source] = true;
        Stepped::Done
    }

    fn give(&mut self, p: &Plan, seat: u32, read: u32) -> Stepped
        requires plan { p.now ≡ self.old.plan }
        requires there { read < reads_in p.now }
        ensures { Tells self.old (Give seat read) result self.new }
    {
        if !is_in_turn(self.reads[read as usize], seat) {
            return Stepped::NotAllowed;
        }
        let source = edge_of(p, read).source as usize;
        self.reads[read as usize] = ReadState::Waiting;
        self.turning[source] = false;
        Stepped::Done
    }

    fn retire(&mut self, p: &Plan, seat: u32, read: u32) -> Stepped
        requires plan { p.now ≡ self.old.plan }
        requires there { read < reads_in p.now }
        ensures { Tells self.old (Retire seat read) result self.new }
    {
        let edge = edge_of(p, read);
        let source = edge.source as usize;
        if !self.may_serve(p, seat, read, edge) {
            return Stepped::NotAllowed;
        }
        self.reads[read as usize] = ReadState::Served;
        self.open_reads[source] -= 1;
        if self.open_reads[source] == 0 {
            self.tiles[source] = TileState::Leaving(seat);
        }
        Stepped::Done
    }

    fn clear(&mut self, seat: u32, alias: u32) -> Stepped
        requires { alias < length self.old.plan.entries }
        ensures { Tells self.old (Clear seat alias) result self.new }
    {
        if self.tiles[alias as usize] != TileState::Leaving(seat) {
            return Stepped::NotAllowed;
        }
        self.tiles[alias as usize] = TileState::Absent;
        Stepped::Done
    }

    /// Whether a seat may serve a read.
    fn may_serve(&self, p: &Plan, seat: u32, e: u32, edge: Edge) -> bool
        requires plan { p.now ≡ self.now.plan }
        requires there { e < reads_in p.now }
        requires source { edge.source ≡ source_at p.now e }
        requires source_there { edge.source < length p.now.entries }
        requires reader { edge.reader ≡ reader_at p.now e }
        ensures { IsTrue result ↔ MayServe p.now self.now.world seat e }
    {
        let _ = p;
        self.seat_of(edge.reader) == Some(seat)
            && self.reads[e as usize] == ReadState::Waiting
            && is_ready(self.phases[edge.source as usize])
    }

    /// The seat to which the reads of a reader belong.
    fn seat_of(&self, reader: Reader) -> Option<u32>
        ensures { result ≡ seat_of_reader self.now.world reader }
    {
        match reader {
            Reader::Port { alias, .. } => match self.phases.get(alias as usize) {
                Some(phase) => seat_in(*phase),
                None => None,
            },
            Reader::Root { .. } => Some(0),
        }
    }
}

/// The read with a number: what it reads, and who makes it.
pub fn edge_of(p: &Plan, e: u32) -> Edge
    requires { e < reads_in p.now }
    ensures source { result.source ≡ source_at p.now e }
    ensures source_there { result.source < length p.now.entries }
    ensures reader { result.reader ≡ reader_at p.now e }
{
    let _aliases = p.aliases();
    reads_have_their_sources();
    p.read(e)
}

/// The seat that has claimed an alias and not given it up.
fn seat_in(phase: Phase) -> Option<u32>
    ensures { result ≡ seat_in phase }
{
    match phase {
        Phase::Claimed(seat) | Phase::Ready(seat) => Some(seat),
        Phase::Idle | Phase::Lost => None,
    }
}

/// Whether this seat has an alias claimed.
fn is_claimed(phase: Phase, seat: u32) -> bool
    ensures { IsTrue result ↔ (phase ≡ Claimed seat) }
{
    phase == Phase::Claimed(seat)
}

/// Whether this seat has a read in turn.
fn is_in_turn(read: ReadState, seat: u32) -> bool
    ensures { IsTrue result ↔ (read ≡ InTurn seat) }
{
    read == ReadState::InTurn(seat)
}

/// Whether an alias is ready.
fn is_ready(phase: Phase) -> bool
    ensures { result ≡ is_ready phase }
{
    matches!(phase, Phase::Ready(_))
}

/// How often each alias of a plan is read.
fn readers(alloc: Global, p: &Plan) -> Result<Vec<u32>, Memory>
    ensures { IfOk result (λ v. IsCounted p.now v.items) }
{
    let mut readers = Vec::with_capacity(alloc, p.aliases() as usize)?;
    for k in 0..p.aliases() {
        readers.push_reserved(p.readers(k));
    }
    Ok(readers)
}
