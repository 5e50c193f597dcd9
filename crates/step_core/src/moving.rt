//! The cache drops blocks, and the queue goes to another agent.
ghost use Rattle.std.specs.Prelude.{◌≡◌};
ghost use Rattle.stream_model.specs.Pulling.{move, purge};
ghost use Rattle.stream_model.specs.Replies.{IsNoTurn};
ghost use Rattle.step_core.specs.Assembly.{Agrees, IsAssembled};
ghost use Rattle.step_core.specs.PlainOf.{plain_of};
ghost use Rattle.step_core.specs.Replied.{reply_of};

use crate::outcome::Outcome;
use crate::parts::Parts;
use crate::reading::{is_spent, least_resume};
use pulling_agent::StaleAgent;
use stream_model::Reply;

/// The agent drops the blocks of its cache that no open subscription needs, beyond those that it keeps. It
/// takes no memory.
#[inline(never)]
pub(crate) fn purge(parts: &mut Parts, generation: u64, keep: u32) -> Outcome
    requires { Agrees parts.old }
    ensures assembled { IsAssembled parts.new }
    ensures performs { (plain_of parts.new, reply_of result) ≡ purge (plain_of parts.old) generation keep }
    ensures told { IsNoTurn result }
{
    let least = least_resume(parts);
    match parts.agent.purge(generation, keep as usize, least) {
        Ok(low) => Reply::Purged {
            low: parts.queue.token_at(low),
        },
        Err(StaleAgent { now }) => Reply::StaleAgent { now },
    }
}

/// The queue goes to an agent on another silo, under a new generation. Its cache is empty and begins at
/// the slowest resume, and the cursor of each open subscription goes back to its resume. It takes no
/// memory.
#[inline(never)]
pub(crate) fn move_queue(parts: &mut Parts, silo: u8) -> Outcome
    requires { Agrees parts.old }
    ensures assembled { IsAssembled parts.new }
    ensures performs { (plain_of parts.new, reply_of result) ≡ move (plain_of parts.old) silo }
    ensures told { IsNoTurn result }
{
    if is_spent(parts) {
        return Reply::Spent;
    }
    let position = parts.agent.cache().high().min(least_resume(parts));
    let low = parts.queue.token_at(position);
    let generation = parts.agent.take_over(silo, position);
    parts.subs.rewind_all();
    parts.rises += 1;
    Reply::Moved { generation, low }
}
