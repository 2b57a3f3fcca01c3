//! A law of seats, on a function that does nothing: its contract is the law.

ghost use Rattle.std.specs.Prelude.{◌≡◌};
ghost use Rattle.xs_plan.specs.Record.{PlanRecord};
ghost use Rattle.xs_core.specs.Views.{DeskView, IsFresh};
ghost use Rattle.xs_word_desk.specs.Desks.{SplitTells};
ghost use Rattle.xs_cache_timing.specs.declared.block.Block.{Block};
ghost use Rattle.xs_cache_timing.specs.Blocks.{IsBlock, MayLive};

/// A seat at the cache of a plan that is fresh, or was just split off, may live a block of the plan.
pub fn seats_begin_with_nothing()
    ensures fresh { (p : PlanRecord) (b : Block) (here : PlanRecord) (v : DeskView)
        → here ≡ p → IsBlock p b → IsFresh v → MayLive p b here v }
    ensures split { (p : PlanRecord) (b : Block) (here : PlanRecord) (v u w : DeskView)
        → here ≡ p → IsBlock p b → SplitTells v u w → MayLive p b here u }
{}
