//! What the agent takes from the queue.
ghost use Rattle.std.specs.Prelude.{◌≡◌, ◌+◌, ◌*◌, ◌<◌, ◌≤◌, OnErr, length, true, unwrap_or, IfOk};
ghost use Rattle.stream_ident.specs.declared.limits.TheConstants.{BLOCK_EVENTS};
ghost use Rattle.stream_model.specs.Positions.{slowest, slowest_name, token_at};
ghost use Rattle.stream_model.specs.Pulling.{pull};
ghost use Rattle.stream_model.specs.Step.{takes_memory};
ghost use Rattle.stream_ident.specs.Words.{Performs};
ghost use Rattle.pulling_agent.specs.Agent.{IsTakeable};
ghost use Rattle.queue_cache.specs.Cache.{high, room};
ghost use Rattle.stream_model.specs.Replies.{IsNoTurn};
ghost use Rattle.step_core.specs.Assembly.{Agrees, IsAssembled};
ghost use Rattle.step_core.specs.PlainOf.{plain_of};
ghost use Rattle.step_core.specs.Taking.{filled, taken};
ghost use Rattle.step_core.specs.Replied.{replied, reply_of};
ghost use Rattle.stream_model.specs.declared.reply.Reply.TheVariants.{Pulled};

use crate::outcome::Outcome;
use crate::parts::Parts;
use crate::reading::least_resume;
use pubsub_registry::Implied;
use pulling_agent::{Plan, StaleAgent};
use std::alloc::{AllocError, Global};
use stream_ident::SubName;
use stream_model::Reply;

/// The agent takes events from the queue into its cache, and the rules make subscriptions of them.
///
/// # Errors
/// The call failed to allocate, and nothing has changed. That can happen only where the events would be taken
/// and the rules would make a subscription.
#[inline(never)]
pub(crate) fn pull(
    parts: &mut Parts,
    alloc: Global,
    generation: u64,
    max: u32,
) -> Result<Outcome, AllocError>
    requires { Agrees parts.old }
    ensures assembled { IsAssembled parts.new }
    ensures performs { Performs (plain_of parts.old) (plain_of parts.new) (replied result) (pull (plain_of parts.old) generation max) }
    ensures told { IfOk result IsNoTurn }
    ensures memory { OnErr result (takes_memory (pull (plain_of parts.old) generation max).1 ≡ true) }
    ensures makes { OnErr result (length (plain_of parts.old).subs < length (pull (plain_of parts.old) generation max).0.subs) }
{
    let least = least_resume(parts);
    let len = parts.queue.len();
    match parts.agent.plan_pull(generation, max as usize, len, least) {
        Ok(Plan::Dry) => Ok(Reply::Dry),
        Ok(Plan::Held) => Ok(Reply::Pressed { by: slowest(parts) }),
        Ok(Plan::Take { drops, count }) => take(parts, alloc, generation, drops, count),
        Err(StaleAgent { now }) => Ok(Reply::StaleAgent { now }),
    }
}

/// The open subscription with the least resume, which the cache waits for.
#[inline(never)]
pub(crate) fn slowest(parts: &Parts) -> SubName
    ensures { result ≡ unwrap_or (slowest_name (plain_of parts.now)) (SubName.Explicit 0) }
{
    parts.subs.slowest().unwrap_or(SubName::Explicit(0))
}

/// Takes events as planned for the current agent, and makes the subscriptions that the rules make of them.
///
/// # Errors
/// The call failed to allocate, and nothing has changed. That can happen only where the events would be
/// taken and the rules would make a subscription.
#[inline(never)]
fn take(
    parts: &mut Parts,
    alloc: Global,
    generation: u64,
    drops: usize,
    count: usize,
) -> Result<Outcome, AllocError>
    requires agrees { Agrees parts.old }
    requires current { generation ≡ parts.old.agent.generation }
    requires takeable { IsTakeable parts.old.agent (length parts.old.queue.events) (slowest (plain_of parts.old)) drops count }
    ensures assembled { IsAssembled parts.new }
    ensures performs { Performs (plain_of parts.old) (plain_of parts.new) (replied result) (taken (plain_of parts.old) drops count) }
    ensures told { IfOk result IsNoTurn }
    ensures memory { OnErr result (takes_memory (taken (plain_of parts.old) drops count).1 ≡ true) }
    ensures makes { OnErr result (length (plain_of parts.old).subs < length (taken (plain_of parts.old) drops count).0.subs) }
{
    let high = parts.agent.cache().high();
    // The rules come first: they may find too many subscriptions, or no memory.
    let implied = parts
        .subs
        .imply(alloc, &parts.queue.between(high, high + count), high)?;
    match implied {
        Implied::TooMany => Ok(Reply::TooMany),
        Implied::Implied => Ok(fill(parts, generation, drops, count)),
    }
}

/// Drops blocks of the cache, and takes so many events into it, which are the next of the queue.
fn fill(parts: &mut Parts, generation: u64, drops: usize, count: usize) -> Outcome
    requires current { generation ≡ parts.old.agent.generation }
    requires blocks { BLOCK_EVENTS * drops ≤ length parts.old.agent.cache.events }
    requires room { count ≤ room parts.old.agent.cache + BLOCK_EVENTS * drops }
    requires there { high parts.old.agent.cache + count ≤ length parts.old.queue.events }
    ensures parts { parts.new ≡ filled parts.old drops count }
    ensures reply { reply_of result ≡ Pulled count (token_at (plain_of parts.new) parts.new.agent.cache.low) (token_at (plain_of parts.new) (high parts.new.agent.cache)) }
    ensures told { IsNoTurn result }
{
    match parts.agent.pull(generation, drops, &parts.queue, count) {
        Ok(count) => {
            let cache = parts.agent.cache();
            Reply::Pulled {
                count,
                low: parts.queue.token_at(cache.low()),
                high: parts.queue.token_at(cache.high()),
            }
        }
        Err(StaleAgent { now }) => Reply::StaleAgent { now },
    }
}
