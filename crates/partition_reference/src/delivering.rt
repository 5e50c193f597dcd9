//! What a pulling agent asks: the next event of a subscription for its grain.
ghost use Rattle.std.specs.Prelude.{◌≡◌, ◌<◌, ◌||◌, ◌&&◌, IfSome, None, OnErr, Some, false, length, nat_le, nat_lt, not, suc, true, if◌then◌else◌};
ghost use Rattle.stream_ident.specs.Name.{same_grain, same_stream};
ghost use Rattle.stream_ident.specs.SubName.{same_sub};
ghost use Rattle.stream_ident.specs.Token.{token_lt};
ghost use Rattle.stream_model.specs.declared.plain.Subscription.{Subscription};
ghost use Rattle.stream_model.specs.Bounds.{IsWithinLimits};
ghost use Rattle.stream_ident.specs.Event.{is_owed};
ghost use Rattle.stream_model.specs.Places.{place_of};
ghost use Rattle.stream_model.specs.Positions.{between, grain_at, is_outstanding, is_spent, is_unacknowledged, new_grain, running_in, sub_at, waiting_in, with_sub};
ghost use Rattle.stream_model.specs.Pulling.{caught_up, deliver, deliver_position};
ghost use Rattle.stream_model.specs.Step.{takes_memory};
ghost use Rattle.stream_ident.specs.Words.{Performs, first_at};

use crate::positions::{is_same_sub, is_spent, is_token_before, token_at};
use crate::records::{
    add_grain, grain_in, is_handled, place_of_grain, place_of_sub, set_cursor, set_marks, sub_in,
    wake,
};
use std::alloc::{AllocError, Global};
use stream_ident::{Event, GrainId, MAILBOX_PLACES, SubName, Token};
use stream_model::{Delivery, Grain, PlainPartition, Reply, RunningTurn, Sequence, Subscription};

/// The agent hands the next event of a subscription to its grain's mailbox. Where it fails to allocate,
/// nothing has changed.
pub fn deliver(
    p: &mut PlainPartition,
    alloc: Global,
    generation: u64,
    sub: SubName,
) -> Result<Reply, AllocError>
    requires { IsWithinLimits p.old }
    ensures performs { Performs p.old p.new result (deliver p.old generation sub) }
    ensures memory { OnErr result (takes_memory (deliver p.old generation sub).1 ≡ true) }
{
    if generation != p.generation {
        return Ok(Reply::StaleAgent { now: p.generation });
    }
    let Some(place) = place_of_sub(&p.subs, &sub) else {
        return Ok(Reply::NoSuch);
    };
    let found = sub_in(&p.subs, &sub, place);
    if !found.is_open {
        return Ok(Reply::Closed);
    }
    let Some(position) = next_position(&p.log, found, p.high) else {
        catch_up(p, &sub, place);
        return Ok(Reply::Nothing);
    };
    deliver_position(p, alloc, &sub, place, position)
}

/// The cursor of a subscription goes to the cache's end, and with nothing outstanding so does the resume.
fn catch_up(p: &mut PlainPartition, sub: &SubName, place: usize)
    requires { place_of same_sub sub.now p.old.subs ≡ Some place }
    ensures { (r : Subscription) → sub_at p.old sub.now ≡ Some r → p.new ≡ with_sub p.old sub.now (caught_up p.old sub.now r) }
{
    let found = sub_in(&p.subs, sub, place);
    let cursor = found.cursor.max(p.high);
    let resume = resume_after(p, sub, found, cursor);
    set_marks(&mut p.subs, place, cursor, resume);
}

/// The resume of a subscription whose cursor goes here.
fn resume_after(p: &PlainPartition, sub: &SubName, found: &Subscription, cursor: usize) -> usize
    ensures { result ≡ (if is_outstanding p.now sub.now found.now then found.now.resume else cursor) }
{
    if is_outstanding(p, sub, found) {
        found.resume
    } else {
        cursor
    }
}

/// Whether a delivery of the subscription waits or runs, or it has a handled position at or past its resume.
fn is_outstanding(p: &PlainPartition, sub: &SubName, found: &Subscription) -> bool
    ensures { result ≡ is_outstanding p.now sub.now found.now }
{
    let Some(at) = place_of_grain(&p.grains, &found.grain) else {
        return is_unacknowledged(found);
    };
    let grain = grain_in(&p.grains, &found.grain, at);
    waits_in(sub, &grain.mailbox) || runs_in(sub, &grain.running) || is_unacknowledged(found)
}

/// Hands the event at a position to the grain of a subscription.
fn deliver_position(
    p: &mut PlainPartition,
    alloc: Global,
    sub: &SubName,
    place: usize,
    position: usize,
) -> Result<Reply, AllocError>
    requires within { IsWithinLimits p.old }
    requires place { place_of same_sub sub.now p.old.subs ≡ Some place }
    requires position { position < length p.old.log }
    ensures performs { (r : Subscription) → sub_at p.old sub.now ≡ Some r
        → Performs p.old p.new result (deliver_position p.old sub.now r (grain_at p.old r.grain) (Some position)) }
    ensures memory { (r : Subscription) → sub_at p.old sub.now ≡ Some r
        → OnErr result (takes_memory (deliver_position p.old sub.now r (grain_at p.old r.grain) (Some position)).1 ≡ true) }
{
    let id = sub_in(&p.subs, sub, place).grain;
    let Some(at) = place_of_grain(&p.grains, &id) else {
        return deliver_first(p, alloc, sub, place, id, position);
    };
    let grain = grain_in(&p.grains, &id, at);
    if grain.mailbox.as_slice().len() >= MAILBOX_PLACES {
        return Ok(Reply::MailboxFull);
    }
    if lacks_rise(p, grain) {
        return Ok(Reply::Spent);
    }
    let rises = u64::from(!grain.active);
    let token = token_at(p, position);
    wake(&mut p.grains, at, *sub, position)?;
    p.rises += rises;
    set_cursor(&mut p.subs, place, position + 1);
    Ok(Reply::Delivered { token })
}

/// Hands the event at a position to a grain that was never active.
fn deliver_first(
    p: &mut PlainPartition,
    alloc: Global,
    sub: &SubName,
    place: usize,
    id: GrainId,
    position: usize,
) -> Result<Reply, AllocError>
    requires within { IsWithinLimits p.old }
    requires place { place_of same_sub sub.now p.old.subs ≡ Some place }
    requires first { place_of same_grain id p.old.grains ≡ None }
    requires position { position < length p.old.log }
    ensures performs { (r : Subscription) → sub_at p.old sub.now ≡ Some r → r.grain ≡ id
        → Performs p.old p.new result (deliver_position p.old sub.now r new_grain (Some position)) }
    ensures memory { (r : Subscription) → sub_at p.old sub.now ≡ Some r → r.grain ≡ id
        → OnErr result (takes_memory (deliver_position p.old sub.now r new_grain (Some position)).1 ≡ true) }
{
    if is_spent(p) {
        return Ok(Reply::Spent);
    }
    let token = token_at(p, position);
    add_grain(&mut p.grains, alloc, id, *sub, position)?;
    p.rises += 1;
    set_cursor(&mut p.subs, place, position + 1);
    Ok(Reply::Delivered { token })
}

/// Whether a grain isn't active and there is no rise left to activate it.
fn lacks_rise(p: &PlainPartition, grain: &Grain) -> bool
    ensures { result ≡ (not grain.now.active && is_spent p.now) }
{
    !grain.active && is_spent(p)
}

/// Whether a subscription is owed an event.
fn is_owed(sub: &Subscription, event: &Event) -> bool
    ensures { result ≡ is_owed sub.now.stream sub.now.start event.now }
{
    sub.stream == event.stream && !is_token_before(&event.token, &sub.start)
}

/// The least position at or past the cursor that the cache has and the subscription is owed.
pub fn next_position(log: &Sequence<Event>, sub: &Subscription, high: usize) -> Option<usize>
    ensures exact { result
        ≡ first_at (λ event. is_owed sub.now.stream sub.now.start event) sub.now.cursor (between log.now sub.now.cursor high) }
    ensures within { IfSome result (λ position. position < length log.now) }
{
    let events = log.as_slice();
    for position in sub.cursor..high.min(events.len()) {
        if is_owed(sub, &events[position]) {
            return Some(position);
        }
    }
    None
}

/// Whether a delivery of the subscription waits in a mailbox.
fn waits_in(sub: &SubName, mailbox: &Sequence<Delivery>) -> bool
    ensures { result ≡ nat_lt 0 (length (waiting_in sub.now mailbox.now)) }
{
    for delivery in mailbox.as_slice() {
        if is_same_sub(sub, &delivery.sub) {
            return true;
        }
    }
    false
}

/// Whether a delivery of the subscription runs.
fn runs_in(sub: &SubName, running: &Option<RunningTurn>) -> bool
    ensures { result ≡ nat_lt 0 (length (running_in sub.now running.now)) }
{
    match running {
        Some(run) => is_same_sub(sub, &run.sub) && !run.positions.as_slice().is_empty(),
        None => false,
    }
}

/// Whether a handled position is at or past the resume.
pub fn is_unacknowledged(sub: &Subscription) -> bool
    ensures { result ≡ is_unacknowledged sub.now }
{
    is_handled(&sub.handled, sub.resume)
}
