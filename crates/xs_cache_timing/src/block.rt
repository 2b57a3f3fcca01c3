ghost use Rattle.std.specs.Prelude.{◌≡◌, ◌<◌, ◌≤◌, ◌↔◌, true, IfSome, length};
ghost use Rattle.xs_plan.specs.Reads.{reads_in};
ghost use Rattle.xs_cache_timing.specs.Blocks.{IsInside, AreInside, IsBlock};

use xs_core::edge_of;
use xs_plan::{Plan, Reader};

/// Neighbouring aliases of a plan, and neighbouring reads of which source and reader are among them. Aliases and reads
/// are numbered from 0; what begins with `past` is one more than the last.
#[derive(Clone, Copy, Debug)]
pub struct Block {
    pub first: u32,
    pub past: u32,
    pub first_read: u32,
    pub past_read: u32,
}

/// Whether the source and the reader of a read are aliases of a block.
fn is_inside(p: &Plan, block: Block, e: u32) -> bool
    requires { e < reads_in p.now }
    ensures { result ≡ true → IsInside p.now block e }
{
    let edge = edge_of(p, e);
    if edge.source < block.first || block.past <= edge.source {
        return false;
    }
    match edge.reader {
        Reader::Port { alias, .. } => block.first <= alias && alias < block.past,
        Reader::Root { .. } => false,
    }
}

/// Whether that holds for each read of the block.
fn are_inside(p: &Plan, block: Block) -> bool
    requires { block.past_read ≤ reads_in p.now }
    ensures { result ≡ true → AreInside p.now block block.past_read }
{
    for e in block.first_read..block.past_read {
        if !is_inside(p, block, e) {
            return false;
        }
    }
    true
}

/// The block of the aliases from one number up to another, of a plan in which each alias but the first reads the one
/// before twice. None where there are no such aliases, or the plan is another.
pub fn block_of(p: &Plan, first: u32, past: u32) -> Option<Block>
    ensures block { IfSome result (λ b. IsBlock p.now b) }
    ensures aliases { IfSome result (λ b. (b.first ≡ first) × (b.past ≡ past)) }
{
    if past <= first || p.aliases() < past {
        return None;
    }
    let block = Block {
        first,
        past,
        first_read: 2 * first,
        past_read: 2 * (past - 1),
    };
    if p.reads() < block.past_read || !are_inside(p, block) {
        return None;
    }
    Some(block)
}
