//! The turns of a grain, which workers ask for, and its end.
ghost use Rattle.std.specs.Prelude.{◌≡◌, ◌+◌, ◌^◌, ◌<◌, ◌&&◌, OnErr, length, pred, true, IfOk};
ghost use Rattle.std.specs.List.{AllByRecursion};
ghost use Rattle.stream_ident.specs.Words.{past, Performs};
ghost use Rattle.stream_model.specs.Step.{takes_memory};
ghost use Rattle.stream_model.specs.Turns.{begin, commit, deactivate};
ghost use Rattle.consumer_grain.specs.Activations.{can_begin};
ghost use Rattle.consumer_grain.specs.Handled.{rises_from};
ghost use Rattle.partition_queue.specs.Queue.{token_at};
ghost use Rattle.subscription_table.specs.Table.{name_at, state_at};
ghost use Rattle.stream_model.specs.Replies.{IsNoTurn};
ghost use Rattle.stream_model.specs.declared.reply.Reply.TheVariants.{Dropped};
ghost use Rattle.step_core.specs.Assembly.{Agrees, IsAssembled};
ghost use Rattle.step_core.specs.PlainOf.{plain_of};
ghost use Rattle.step_core.specs.TurnReplies.{after_begun, handle, of_begun, IsOfParts};
ghost use Rattle.step_core.specs.Replied.{replied, reply_of, reply_with, IsOfLog};

use crate::outcome::Outcome;
use crate::parts::Parts;
use crate::reading::is_spent;
use consumer_grain::{Activation, Begun, Delivery, RunningTurn, SubState};
use partition_queue::PartitionQueue;
use std::alloc::{AllocError, Global};
use stream_ident::{GrainId, Row};
use stream_model::Reply;
use subscription_table::SubscriptionTable;

/// A worker begins a turn of a grain. It takes no memory.
#[inline(never)]
pub(crate) fn begin(parts: &mut Parts, grain: &GrainId, max: u32) -> Outcome
    requires { Agrees parts.old }
    ensures assembled { IsAssembled parts.new }
    ensures performs { (plain_of parts.new, reply_with parts.new.queue.events result) ≡ begin (plain_of parts.old) grain.now max }
    ensures of_log { IsOfLog parts.new.queue.events result }
{
    let Some(number) = parts.grains.find(grain) else {
        return Reply::Empty;
    };
    let is_spent = is_spent(parts);
    let activation = parts.grains.at(number);
    let own = activation.number();
    let Some(front) = activation.front() else {
        if activation.running().is_some() {
            return Reply::Busy;
        }
        return Reply::Empty;
    };
    let state = parts.subs.state(front.sub);
    if wants_rise(activation, state, is_spent) {
        return Reply::Spent;
    }
    let begun = parts
        .grains
        .begin(number, state, parts.turns + 1, max as usize);
    outcome_of_begun(parts, own, begun)
}

/// The outcome where a grain has begun, whose activation has this number: a turn gets the next number.
#[inline(never)]
fn outcome_of_begun(parts: &mut Parts, activation: u64, begun: Begun) -> Outcome
    requires begun { IsOfParts parts.old begun }
    requires rises { parts.old.rises + 1 < 2 ^ 64 }
    requires turns { parts.old.turns + 1 < 2 ^ 64 }
    ensures parts { parts.new ≡ after_begun parts.old begun }
    ensures reply { reply_with parts.new.queue.events result ≡ of_begun parts.old activation begun }
    ensures of_log { IsOfLog parts.new.queue.events result }
{
    match begun {
        Begun::Busy => Reply::Busy,
        Begun::Empty => Reply::Empty,
        Begun::Dropped(delivery) => dropped(parts, &delivery),
        Begun::Turn { sub, positions } => {
            parts.rises += 1;
            parts.turns += 1;
            Reply::Turn {
                sub: parts.subs.name(sub),
                activation,
                turn: parts.turns,
                events: positions,
                note: parts.subs.state(sub).note,
            }
        }
    }
}

/// The outcome where a delivery was dropped.
#[inline(never)]
fn dropped(parts: &Parts, delivery: &Delivery) -> Outcome
    requires sub { delivery.now.sub < length parts.now.subs.registry.names }
    requires position { delivery.now.position < length parts.now.queue.events }
    ensures { result ≡ Dropped (name_at parts.now.subs delivery.now.sub) (token_at parts.now.queue delivery.now.position) }
{
    Reply::Dropped {
        sub: parts.subs.name(delivery.sub),
        token: parts.queue.token_at(delivery.position),
    }
}

/// Whether a grain would begin a turn, by the state of its front delivery's subscription, where no rise is left for it.
fn wants_rise(activation: &Activation, state: &SubState, is_spent: bool) -> bool
    ensures { result ≡ (can_begin activation.now (past state.now.handled) && is_spent) }
{
    activation.can_begin(state) && is_spent
}

/// A worker ends the turn that runs for a grain: its events are handled, unless its subscription is closed.
///
/// # Errors
/// The call failed to allocate, and nothing has changed. That can happen only where the events would be
/// handled.
#[inline(never)]
pub(crate) fn commit(
    parts: &mut Parts,
    alloc: Global,
    grain: &GrainId,
    activation: u64,
    turn: u64,
    note: u64,
) -> Result<Outcome, AllocError>
    requires { Agrees parts.old }
    ensures assembled { IsAssembled parts.new }
    ensures performs { Performs (plain_of parts.old) (plain_of parts.new) (replied result) (commit (plain_of parts.old) grain.now activation turn note) }
    ensures told { IfOk result IsNoTurn }
    ensures memory { OnErr result (takes_memory (commit (plain_of parts.old) grain.now activation turn note).1 ≡ true) }
{
    let Some(number) = parts.grains.find(grain) else {
        return Ok(Reply::Stale);
    };
    let Some(run) = parts.grains.at(number).current_turn(activation, turn) else {
        return Ok(Reply::Stale);
    };
    // What may fail comes before the turn ends.
    let told = handle(&mut parts.subs, alloc, &parts.queue, run, note)?;
    let _ended = parts.grains.commit(number, activation, turn);
    Ok(told)
}

/// The events of a turn are handled, unless its subscription is closed.
///
/// # Errors
/// The call failed to allocate, and nothing has changed. That can happen only where the subscription is open.
fn handle(
    subs: &mut SubscriptionTable,
    alloc: Global,
    queue: &PartitionQueue,
    run: &RunningTurn,
    note: u64,
) -> Result<Outcome, AllocError>
    requires within { run.now.sub < length subs.old.registry.names }
    requires positions { AllByRecursion (λ position. position < length queue.now.events) run.now.positions }
    requires rising { rises_from (past (state_at subs.old run.now.sub).handled) run.now.positions ≡ true }
    requires room { past run.now.positions < 2 ^ 64 }
    ensures performs { Performs subs.old subs.new (replied result) (handle subs.old queue.now run.now note) }
    ensures told { IfOk result IsNoTurn }
    ensures memory { OnErr result ((state_at subs.old run.now.sub).live ≡ true) }
{
    if !subs.state(run.sub).live {
        return Ok(Reply::Closed);
    }
    subs.commit(alloc, run.sub, &run.positions, note)?;
    Ok(Reply::Committed {
        sub: subs.name(run.sub),
        token: queue.token_at(last_position(&run.positions)),
    })
}

/// The last position of a turn.
fn last_position(positions: &Row<usize>) -> usize
    ensures { result ≡ pred (past positions.now) }
{
    let positions = positions.as_slice();
    positions[positions.len() - 1]
}

/// A grain leaves memory: what waits and what runs is lost, and the cursors of its open subscriptions go
/// back to their resumes. It takes no memory, and looks only at the subscriptions that something was offered
/// for: the cursors of the others are at their resumes.
#[inline(never)]
pub(crate) fn deactivate(parts: &mut Parts, grain: &GrainId) -> Outcome
    requires { Agrees parts.old }
    ensures assembled { IsAssembled parts.new }
    ensures performs { (plain_of parts.new, reply_of result) ≡ deactivate (plain_of parts.old) grain.now }
    ensures told { IsNoTurn result }
{
    let Some(number) = parts.grains.find(grain) else {
        return Reply::NotActive;
    };
    if !parts.grains.at(number).is_active() {
        return Reply::NotActive;
    }
    parts.subs.rewind(parts.grains.at(number).subs());
    let lost = parts.grains.deactivate(number);
    Reply::Deactivated { lost }
}
