//! What the agent hands to a subscription.
ghost use Rattle.std.specs.Prelude.{◌≡◌, ◌+◌, ◌^◌, ◌<◌, ◌≤◌, None, OnErr, Some, length, not, true, IfOk};
ghost use Rattle.stream_model.specs.Memory.{is_untouched};
ghost use Rattle.stream_model.specs.Positions.{is_outstanding, sub_at, token_at};
ghost use Rattle.stream_model.specs.Pulling.{deliver};
ghost use Rattle.stream_model.specs.Step.{takes_memory};
ghost use Rattle.stream_ident.specs.Words.{Performs};
ghost use Rattle.grain_table.specs.Changes.{activation_at};
ghost use Rattle.grain_table.specs.Grains.{number_of};
ghost use Rattle.subscription_table.specs.Table.{name_at};
ghost use Rattle.stream_model.specs.Replies.{IsNoTurn};
ghost use Rattle.step_core.specs.Assembly.{Agrees, IsAssembled};
ghost use Rattle.step_core.specs.Handing.{sent, IsNext};
ghost use Rattle.step_core.specs.PlainOf.{plain_of};
ghost use Rattle.step_core.specs.Records.{record_of};
ghost use Rattle.step_core.specs.Replied.{replied, reply_of};
ghost use Rattle.stream_model.specs.declared.reply.Reply.TheVariants.{Delivered};

use crate::acknowledging::unknown;
use crate::outcome::Outcome;
use crate::parts::Parts;
use crate::reading::is_spent;
use consumer_grain::{Delivery, Offered};
use pulling_agent::{Sought, StaleAgent};
use std::alloc::{AllocError, Global};
use stream_ident::SubName;
use stream_model::Reply;

/// The agent hands a subscription its next event.
///
/// # Errors
/// The call failed to allocate, and nothing has changed. That can happen only where the event would be handed
/// over, and only where the subscription has handled nothing, nothing of it is on its way, and its cursor
/// stands at its resume.
#[inline(never)]
pub(crate) fn deliver(
    parts: &mut Parts,
    alloc: Global,
    generation: u64,
    sub: &SubName,
) -> Result<Outcome, AllocError>
    requires { Agrees parts.old }
    ensures assembled { IsAssembled parts.new }
    ensures performs { Performs (plain_of parts.old) (plain_of parts.new) (replied result) (deliver (plain_of parts.old) generation sub.now) }
    ensures told { IfOk result IsNoTurn }
    ensures memory { OnErr result (takes_memory (deliver (plain_of parts.old) generation sub.now).1 ≡ true) }
    ensures first { OnErr result (is_untouched (plain_of parts.old) sub.now (sub_at (plain_of parts.old) sub.now) ≡ true) }
{
    let Some(number) = parts.subs.find(sub) else {
        return Ok(unknown(parts, generation));
    };
    let grain = parts.grains.find(parts.subs.grain(number));
    let outstanding = is_outstanding(parts, number, grain);
    match parts
        .subs
        .deliver(number, &parts.agent, generation, outstanding)
    {
        Ok(Sought::Next { position }) => {
            let delivery = Delivery {
                sub: number,
                position,
            };
            hand_over(parts, alloc, delivery, grain)
        }
        Ok(Sought::Nothing) => Ok(Reply::Nothing),
        Ok(Sought::Closed) => Ok(Reply::Closed),
        Err(StaleAgent { now }) => Ok(Reply::StaleAgent { now }),
    }
}

/// Whether a delivery of a subscription waits or runs, or it has handled an event at or past its resume. Its
/// grain has the number `grain`, where it was active before.
fn is_outstanding(parts: &Parts, number: usize, grain: Option<usize>) -> bool
    requires agrees { Agrees parts.now }
    requires number { number < length parts.now.subs.registry.names }
    requires grain { number_of parts.now.grains (record_of parts.now number).grain ≡ grain }
    ensures { result ≡ is_outstanding (plain_of parts.now) (name_at parts.now.subs number) (record_of parts.now number) }
{
    if parts.subs.state(number).is_unacknowledged() {
        return true;
    }
    match grain {
        Some(grain) => parts.grains.at(grain).holds(number),
        None => false,
    }
}

/// Hands the next event of a subscription to its grain, which has the number `grain` where it was active
/// before.
///
/// # Errors
/// The call failed to allocate, and nothing has changed. That can happen only where the event would be handed
/// over, and only where the subscription has handled nothing, nothing of it is on its way, and its cursor
/// stands at its resume.
fn hand_over(
    parts: &mut Parts,
    alloc: Global,
    delivery: Delivery,
    grain: Option<usize>,
) -> Result<Outcome, AllocError>
    requires agrees { Agrees parts.old }
    requires next { IsNext parts.old delivery }
    requires grain { number_of parts.old.grains (record_of parts.old delivery.sub).grain ≡ grain }
    ensures assembled { IsAssembled parts.new }
    ensures performs { Performs (plain_of parts.old) (plain_of parts.new) (replied result) (deliver (plain_of parts.old) parts.old.agent.generation (name_at parts.old.subs delivery.sub)) }
    ensures told { IfOk result IsNoTurn }
    ensures memory { OnErr result (takes_memory (deliver (plain_of parts.old) parts.old.agent.generation (name_at parts.old.subs delivery.sub)).1 ≡ true) }
    ensures first { OnErr result (is_untouched (plain_of parts.old) (name_at parts.old.subs delivery.sub) (Some (record_of parts.old delivery.sub)) ≡ true) }
{
    match grain {
        Some(grain) => hand_to(parts, alloc, grain, delivery),
        None => hand_first(parts, alloc, delivery),
    }
}

/// Hands the next event of a subscription to its grain, which was active before and has this number.
///
/// # Errors
/// The call failed to allocate, and nothing has changed. That can happen only where the event would be handed
/// over, and only where the subscription has handled nothing, nothing of it is on its way, and its cursor
/// stands at its resume.
#[inline(never)]
fn hand_to(
    parts: &mut Parts,
    alloc: Global,
    grain: usize,
    delivery: Delivery,
) -> Result<Outcome, AllocError>
    requires agrees { Agrees parts.old }
    requires next { IsNext parts.old delivery }
    requires grain { number_of parts.old.grains (record_of parts.old delivery.sub).grain ≡ Some grain }
    ensures assembled { IsAssembled parts.new }
    ensures performs { Performs (plain_of parts.old) (plain_of parts.new) (replied result) (deliver (plain_of parts.old) parts.old.agent.generation (name_at parts.old.subs delivery.sub)) }
    ensures told { IfOk result IsNoTurn }
    ensures memory { OnErr result (takes_memory (deliver (plain_of parts.old) parts.old.agent.generation (name_at parts.old.subs delivery.sub)).1 ≡ true) }
    ensures first { OnErr result (is_untouched (plain_of parts.old) (name_at parts.old.subs delivery.sub) (Some (record_of parts.old delivery.sub)) ≡ true) }
{
    let wakes = !parts.grains.at(grain).is_active();
    // Nothing waits for a grain that isn't active, so that its mailbox isn't full.
    if wakes && is_spent(parts) {
        return Ok(Reply::Spent);
    }
    match parts.grains.offer(alloc, grain, delivery)? {
        Offered::MailboxFull => Ok(Reply::MailboxFull),
        Offered::Delivered => Ok(sent(parts, delivery, wakes)),
    }
}

/// Hands the next event of a subscription to its grain, which was never active.
///
/// # Errors
/// The call failed to allocate, and nothing has changed. That can happen only where the event would be handed
/// over, and only where the subscription has handled nothing, nothing of it is on its way, and its cursor
/// stands at its resume.
#[inline(never)]
fn hand_first(parts: &mut Parts, alloc: Global, delivery: Delivery) -> Result<Outcome, AllocError>
    requires agrees { Agrees parts.old }
    requires next { IsNext parts.old delivery }
    requires first { number_of parts.old.grains (record_of parts.old delivery.sub).grain ≡ None }
    ensures assembled { IsAssembled parts.new }
    ensures performs { Performs (plain_of parts.old) (plain_of parts.new) (replied result) (deliver (plain_of parts.old) parts.old.agent.generation (name_at parts.old.subs delivery.sub)) }
    ensures told { IfOk result IsNoTurn }
    ensures memory { OnErr result (takes_memory (deliver (plain_of parts.old) parts.old.agent.generation (name_at parts.old.subs delivery.sub)).1 ≡ true) }
    ensures first { OnErr result (is_untouched (plain_of parts.old) (name_at parts.old.subs delivery.sub) (Some (record_of parts.old delivery.sub)) ≡ true) }
{
    if is_spent(parts) {
        return Ok(Reply::Spent);
    }
    let grain = *parts.subs.grain(delivery.sub);
    parts.grains.add(alloc, grain, delivery)?;
    Ok(sent(parts, delivery, true))
}

/// The subscription of an event that waits for its grain now goes on past it. Where the grain wakes, that
/// is a rise.
fn sent(parts: &mut Parts, delivery: Delivery, wakes: bool) -> Outcome
    requires number { delivery.sub < length parts.old.subs.registry.names }
    requires position { delivery.position < length parts.old.queue.events }
    requires room { delivery.position + 3 < 2 ^ 64 }
    requires rises { parts.old.rises + 1 < 2 ^ 64 }
    ensures parts { parts.new ≡ sent parts.old delivery wakes }
    ensures reply { reply_of result ≡ Delivered (token_at (plain_of parts.old) delivery.position) }
    ensures told { IsNoTurn result }
{
    parts.rises += u64::from(wakes);
    parts.subs.advance(delivery.sub, delivery.position);
    Reply::Delivered {
        token: parts.queue.token_at(delivery.position),
    }
}
