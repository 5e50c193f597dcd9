//! What a pulling agent asks: blocks of the cache that no open subscription needs are dropped.
ghost use Rattle.std.specs.Prelude.{◌≡◌, ◌+◌, ◌*◌, ◌≤◌, max};
ghost use Rattle.stream_ident.specs.declared.limits.TheConstants.{BLOCK_EVENTS};
ghost use Rattle.stream_model.specs.Pulling.{purge, purges};

use crate::positions::token_at;
use crate::pulling::{free_blocks, is_stale};
use stream_ident::BLOCK_EVENTS;
use stream_model::{PlainPartition, Reply};

/// The agent drops blocks of the cache that no open subscription needs, all but so many to keep. It takes
/// no memory.
pub fn purge(p: &mut PlainPartition, generation: u64, keep: u32) -> Reply
    ensures { (p.new, result) ≡ purge p.old generation keep }
{
    if is_stale(p, generation) {
        return Reply::StaleAgent { now: p.generation };
    }
    let low = p.low + BLOCK_EVENTS * purges(p, keep as usize);
    let token = token_at(p, low);
    p.low = low;
    Reply::Purged { low: token }
}

/// The free blocks beyond those to keep. A part of a block counts as one.
fn purges(p: &PlainPartition, keep: usize) -> usize
    ensures purges { result ≡ purges p.now keep }
    ensures fits { p.now.low + BLOCK_EVENTS * result ≤ max p.now.low p.now.high }
{
    let blocks = p.high.saturating_sub(p.low).div_ceil(BLOCK_EVENTS);
    blocks.saturating_sub(keep).min(free_blocks(p))
}
