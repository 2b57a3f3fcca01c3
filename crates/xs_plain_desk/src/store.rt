ghost use Rattle.std.specs.Prelude.{◌≡◌, ◌<◌, ◌^◌, ℕ, None, IfOk, is_some, length, replicate, slice_set};
ghost use Rattle.xs_plan.specs.Reads.{reads_in};
ghost use Rattle.xs_core.specs.declared.event.Event.TheVariants.{Claim, Finish, Abandon};
ghost use Rattle.xs_core.specs.declared.state.Phase.TheVariants.{Idle, Claimed};
ghost use Rattle.xs_core.specs.declared.state.TileState.TheVariants.{Held};
ghost use Rattle.xs_core.specs.Counts.{how_many};
ghost use Rattle.xs_core.specs.States.{phase_of, tile_of, source_at, left};
ghost use Rattle.xs_core.specs.Events.{start, happens, MayServe};
ghost use Rattle.xs_core.specs.Kept.{Kept, core_in};
ghost use Rattle.xs_core.specs.Calls.{HoldsTile};
ghost use Rattle.xs_plain_desk.specs.Stored.{is_held, retired, tile_at};

use std::alloc::Global;
use std::marker::{Model, PhantomData};
use xs_base::Memory;
use xs_core::{Core, Event, Phase, edge_of};
use xs_pixel::Film;
use xs_plan::Plan;
use xs_raster::TileRef;

/// A cache with the chief alone at it: its state, and the tiles that are held. Contracts see it as the state.
#[derive(Drop)]
pub(crate) struct Store<K: Film> {
    core: Core,
    /// The tile of each alias, if it is held.
    tiles: Vec<Option<TileRef>>,
    film: PhantomData<K>,
}

impl<K: Film> Model for Store<K> {
    ghost use Rattle.xs_core.specs.Kept.{CoreRecord};
    ghost use Rattle.xs_plain_desk.specs.Stored.{IsStored};

    ghost Value = { CoreRecord };

    ghost view = { λ s. s.core };

    ghost invariant = { λ s. IsStored K.pictures s.core.plan s.core.world s.tiles.items };
}

impl<K: Film> Store<K> {
    /// A cache at which nothing has happened.
    pub(crate) fn new(alloc: Global, p: &Plan) -> Result<Store<K>, Memory>
        ensures { IfOk result (λ s. s ≡ core_in p.now (start p.now)) }
    {
        let core = Core::start(alloc, p)?;
        let tiles = no_tiles(alloc, p.aliases())?;
        Ok(Store {
            core,
            tiles,
            film: PhantomData,
        })
    }

    /// Tells what the cache keeps.
    pub(crate) fn look_over(&self)
        ensures { Kept self.now.plan self.now.world }
    {
        self.core.look_over();
    }

    /// How far an alias is.
    pub(crate) fn phase(&self, k: u32) -> Phase
        requires { k < length self.now.plan.entries }
        ensures { result ≡ phase_of self.now.world k }
    {
        self.core.phase(k)
    }

    /// Claims an idle alias.
    pub(crate) fn claim(&mut self, p: &Plan, k: u32)
        requires plan { p.now ≡ self.old.plan }
        requires there { k < length p.now.entries }
        requires idle { phase_of self.old.world k ≡ Idle }
        ensures { self.new ≡ core_in p.now (happens p.now self.old.world (Claim 0 k)) }
    {
        self.core.step(p, Event::Claim { seat: 0, alias: k });
    }

    /// Puts the tile of a claimed alias.
    pub(crate) fn finish(&mut self, p: &Plan, k: u32, t: TileRef)
        requires plan { p.now ≡ self.old.plan }
        requires there { k < length p.now.entries }
        requires claimed { phase_of self.old.world k ≡ Claimed 0 }
        requires value { HoldsTile K.pictures p.now k t }
        ensures { self.new ≡ core_in p.now (happens p.now self.old.world (Finish 0 k)) }
    {
        self.core.step(p, Event::Finish { seat: 0, alias: k });
        put(&mut self.tiles, k, Some(t));
    }

    /// Gives up a claimed alias.
    pub(crate) fn abandon(&mut self, p: &Plan, k: u32)
        requires plan { p.now ≡ self.old.plan }
        requires there { k < length p.now.entries }
        requires claimed { phase_of self.old.world k ≡ Claimed 0 }
        ensures { self.new ≡ core_in p.now (happens p.now self.old.world (Abandon 0 k)) }
    {
        self.core.step(p, Event::Abandon { seat: 0, alias: k });
    }

    /// One more owner of a tile that is held. A seat that is alone needs no turn for it.
    pub(crate) fn share(&self, k: u32) -> Result<TileRef, Memory>
        requires { tile_of self.now.world k ≡ Held }
        ensures { IfOk result (λ t. HoldsTile K.pictures self.now.plan k t) }
    {
        match self.tiles.get(k as usize) {
            Some(Some(tile)) => tile.share(),
            _ => unreachable!(),
        }
    }

    /// Serves a read, and answers how many reads of its source are open after it. At 0 the tile is let go.
    pub(crate) fn retire(&mut self, p: &Plan, e: u32) -> u32
        requires plan { p.now ≡ self.old.plan }
        requires there { e < reads_in p.now }
        requires may { MayServe p.now self.old.world 0 e }
        ensures state { self.new ≡ core_in p.now (retired p.now self.old.world e) }
        ensures left { result ≡ left p.now self.new.world (source_at p.now e) }
    {
        self.core.step(p, Event::Retire { seat: 0, read: e });
        let source = edge_of(p, e).source;
        let left = self.core.left(p, source);
        if left == 0 {
            self.core.step(
                p,
                Event::Clear {
                    seat: 0,
                    alias: source,
                },
            );
            put(&mut self.tiles, source, None);
        }
        left
    }

    /// How many tiles are held.
    pub(crate) fn held(&self) -> u32
        ensures { result ≡ how_many (length self.now.plan.entries) (λ k. is_held (tile_of self.now.world k)) }
    {
        how_many_there(self.tiles.as_slice())
    }
}

/// How many tiles there are.
fn how_many_there(tiles: &[Option<TileRef>]) -> u32
    requires { length tiles.now < 2 ^ 32 }
    ensures { result ≡ how_many (length tiles.now) (λ k. is_some (tile_at tiles.now k)) }
{
    let mut held = 0;
    for tile in tiles {
        if tile.is_some() {
            held += 1;
        }
    }
    held
}

/// Puts the tile of an alias, or none; what was there is let go.
fn put(tiles: &mut Vec<Option<TileRef>>, k: u32, tile: Option<TileRef>)
    requires { k < length tiles.old.items }
    ensures { tiles.new.items ≡ slice_set tiles.old.items k tile }
{
    tiles[k as usize] = tile;
}

/// No tile of so many aliases.
fn no_tiles(alloc: Global, aliases: u32) -> Result<Vec<Option<TileRef>>, Memory>
    ensures { IfOk result (λ v. v.items ≡ replicate aliases None) }
{
    let mut tiles = Vec::with_capacity(alloc, aliases as usize)?;
    for _alias in 0..aliases {
        tiles.push_reserved(None);
    }
    Ok(tiles)
}
