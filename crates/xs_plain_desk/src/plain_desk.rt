ghost use Rattle.std.specs.Prelude.{◌≡◌, vec_capacity};
ghost use Rattle.xs_plain_desk.specs.Lists.{IsListed, HasRoom};

use crate::store::Store;
use std::alloc::Global;
use xs_base::Memory;
use xs_core::{Claim, Desk, Look, Phase, Reading, edge_of};
use xs_pixel::Film;
use xs_plan::Plan;
use xs_raster::TileRef;

/// The chief, alone at the cache of a plan. What it won, made, lost and served it keeps in lists that have room from
/// the start, so that only sharing a tile takes memory.
#[derive(Drop)]
pub struct PlainDesk<'a, K: Film> {
    plan: &'a Plan,
    store: Store<K>,
    won: Vec<u32>,
    made: Vec<u32>,
    lost: Vec<u32>,
    served: Vec<u32>,
    ghost same: { plan.now ≡ store.plan },
    ghost listed: { IsListed plan.now store.world won.items made.items lost.items served.items },
    ghost room: { HasRoom plan.now (vec_capacity won) (vec_capacity made) (vec_capacity lost) (vec_capacity served) },
}

impl<'a, K: Film> PlainDesk<'a, K> {
    ghost use Rattle.std.specs.Prelude.{IfOk};
    ghost use Rattle.xs_core.specs.Views.{IsFresh, held_count};

    /// The chief at a cache of a plan at which nothing has happened.
    pub fn new(alloc: Global, p: &'a Plan) -> Result<PlainDesk<'a, K>, Memory>
        ensures plan { IfOk result (λ d. ⟦<PlainDesk<'a, K> as Desk<K>>⟧.plan d ≡ p.now) }
        ensures fresh { IfOk result (λ d. IsFresh (⟦<PlainDesk<'a, K> as Desk<K>>⟧.view d)) }
    {
        let aliases = p.aliases() as usize;
        let store = Store::new(alloc, p)?;
        let won = Vec::with_capacity(alloc, aliases)?;
        let made = Vec::with_capacity(alloc, aliases)?;
        let lost = Vec::with_capacity(alloc, aliases)?;
        let served = Vec::with_capacity(alloc, p.reads() as usize)?;
        Ok(PlainDesk {
            plan: p,
            store,
            won,
            made,
            lost,
            served,
        })
    }

    /// How many tiles are held.
    pub fn held(&self) -> u32
        ensures { result ≡ held_count (⟦<PlainDesk<'a, K> as Desk<K>>⟧.plan self.now)
            (⟦<PlainDesk<'a, K> as Desk<K>>⟧.view self.now) }
    {
        self.store.look_over();
        self.store.held()
    }
}

impl<'a, K: Film> Desk<K> for PlainDesk<'a, K> {
    ghost use Rattle.xs_plain_desk.specs.Lists.{chief};
    ghost use Rattle.xs_plain_desk.specs.ChiefLaw.{chief_ok};

    ghost plan = { λ d. d.plan.now };

    ghost view = { λ d. chief d.won.items d.made.items d.lost.items d.served.items };

    fn claim(&mut self, k: u32) -> Claim {
        match self.store.phase(k) {
            Phase::Idle => {
                self.store.claim(self.plan, k);
                self.won.push_reserved(k);
                Claim::Won
            }
            Phase::Claimed(_) => Claim::Busy,
            Phase::Ready(_) => Claim::Ready,
            Phase::Lost => Claim::Lost,
        }
    }

    fn look(&mut self, k: u32) -> Look {
        match self.store.phase(k) {
            Phase::Idle => Look::Idle,
            Phase::Claimed(_) => Look::Busy,
            Phase::Ready(_) => Look::Ready,
            Phase::Lost => Look::Lost,
        }
    }

    fn finish(&mut self, k: u32, t: TileRef) {
        self.store.finish(self.plan, k, t);
        self.made.push_reserved(k);
    }

    fn abandon(&mut self, k: u32) {
        self.store.abandon(self.plan, k);
        self.lost.push_reserved(k);
    }

    fn read(&mut self, e: u32) -> Result<Reading, Memory> {
        let source = edge_of(self.plan, e).source;
        self.store.look_over();
        match self.store.share(source) {
            Ok(tile) => Ok(Reading::Got(tile)),
            Err(Memory) => Err(Memory),
        }
    }

    fn retire(&mut self, e: u32) -> u32 {
        let left = self.store.retire(self.plan, e);
        self.served.push_reserved(e);
        left
    }

    ghost sound = { λ d. chief_ok d.plan.now d.store.world d.won.items d.made.items d.lost.items d.served.items
        d.listed };
}
