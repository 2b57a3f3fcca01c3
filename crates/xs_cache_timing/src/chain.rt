//! A plan in which each alias but the first is a pair of the one before with itself.

ghost use Rattle.std.specs.Prelude.{◌≡◌, ◌<◌, ◌+◌, [], ◌∷◌, pos, IfOk, OnOk, length};
ghost use Rattle.xs_rect.specs.Area.{area};
ghost use Rattle.xs_plan.specs.Draft.{empty_draft};
ghost use Rattle.xs_cache_timing.specs.Chains.{IsChain};

use std::alloc::Global;
use xs_base::Memory;
use xs_pixel::Op;
use xs_plan::laws::aliases_reach_what_their_inputs_reach;
use xs_plan::limits::MOST_BUILT;
use xs_plan::{Builder, Job, Plan};
use xs_rect::Rect;

/// How many aliases it has.
pub const ALIASES: u32 = 524_288;

/// Adds the first alias, a drawing.
fn add_leaf(b: &mut Builder, tile: Rect) -> Result<u32, Memory>
    requires new { b.old ≡ empty_draft (tile ∷ []) 1 }
    requires tile { tile ≡ area (pos 0) (pos 0) 64 64 }
    ensures chain { IfOk result (λ k. IsChain b.new k tile) }
    ensures first { IfOk result (λ k. k ≡ 0) }
{
    aliases_reach_what_their_inputs_reach();
    let leaf = Job::Leaf {
        drawing: 0,
        dx: 0,
        dy: 0,
    };
    let k = b.add(leaf, tile, None, None)?;
    Ok(k)
}

/// Adds a pair of the last alias with itself.
fn add_pair(b: &mut Builder, tile: Rect, last: u32) -> Result<u32, Memory>
    requires chain { IsChain b.old last tile }
    requires room { length b.old.plan.entries < MOST_BUILT }
    requires tile { tile ≡ area (pos 0) (pos 0) 64 64 }
    ensures chain { IfOk result (λ k. IsChain b.new k tile) }
    ensures next { IfOk result (λ k. k ≡ last + 1) }
{
    aliases_reach_what_their_inputs_reach();
    let k = b.add(Job::Pair(Op::Over), tile, Some(last), Some(last))?;
    Ok(k)
}

/// Adds all aliases, and answers the number of the last one.
fn add_all(b: &mut Builder, tile: Rect) -> Result<u32, Memory>
    requires new { b.old ≡ empty_draft (tile ∷ []) 1 }
    requires tile { tile ≡ area (pos 0) (pos 0) 64 64 }
    ensures chain { IfOk result (λ k. IsChain b.new k tile) }
    ensures last { IfOk result (λ k. k + 1 ≡ ALIASES) }
{
    let mut last = add_leaf(b, tile)?;
    for _pair in 1..ALIASES {
        last = add_pair(b, tile, last)?;
    }
    Ok(last)
}

/// The plan: a row of one tile, which shows the last alias.
pub fn chain_plan(alloc: Global, tile: Rect) -> Result<Plan, Memory>
    requires { tile ≡ area (pos 0) (pos 0) 64 64 }
    ensures { IfOk result (λ p. length p.entries ≡ ALIASES) }
{
    let tiles = vec![in alloc; tile]?;
    let mut b = Builder::new(alloc, tiles, 1)?;
    let last = add_all(&mut b, tile)?;
    b.root(last)?;
    b.finish(1)
}
