//! What producers and subscribers ask.
ghost use Rattle.std.specs.Prelude.{◌≡◌, ◌≤◌, ◌==◌, nat_lt, ◌||◌, ◌++◌, true, length, take, is_ok, OnErr, OnOk, if◌then◌else◌};
ghost use Rattle.stream_ident.specs.declared.limits.TheConstants.{BATCH_EVENTS};
ghost use Rattle.stream_model.specs.Bounds.{IsWithinLimits};
ghost use Rattle.stream_ident.specs.Event.{events_of};
ghost use Rattle.stream_model.specs.Positions.{new_subscription};
ghost use Rattle.stream_model.specs.Publishing.{publish, subscribe, subscribe_at};
ghost use Rattle.stream_model.specs.Step.{takes_memory};
ghost use Rattle.stream_ident.specs.Words.{Performs};

use crate::positions::{first_token, high_token, is_token_before, low_token, lower_bound};
use std::alloc::{AllocError, Global};
use stream_ident::{BATCH_EVENTS, Batch, Event, GrainId, Payload, StreamId, SubName, Token};
use stream_model::{PlainPartition, Reply, Sequence, Start, Subscription};

/// A batch is published: its events go to the end of the log.
pub fn publish(
    p: &mut PlainPartition,
    stream: StreamId,
    payloads: &Batch,
) -> Result<Reply, AllocError>
    requires { IsWithinLimits p.old }
    ensures performs { Performs p.old p.new result (publish p.old stream payloads.now) }
    ensures memory { OnErr result (takes_memory (publish p.old stream payloads.now).1 ≡ true) }
{
    let payloads = payloads.as_slice();
    if is_bad_batch(payloads) {
        return Ok(Reply::BadBatch);
    }
    if p.log.as_slice().len() + payloads.len() > p.limits.events {
        return Ok(Reply::QueueFull);
    }
    let seq = p.batches;
    append_events(&mut p.log, &stream, seq, payloads)?;
    p.batches += 1;
    Ok(Reply::Published { seq })
}

/// A grain subscribes to a stream: its subscription goes to the end of the list.
pub fn subscribe(
    p: &mut PlainPartition,
    alloc: Global,
    stream: StreamId,
    grain: GrainId,
    start: Start,
) -> Result<Reply, AllocError>
    requires { IsWithinLimits p.old }
    ensures performs { Performs p.old p.new result (subscribe p.old stream grain start) }
    ensures memory { OnErr result (takes_memory (subscribe p.old stream grain start).1 ≡ true) }
{
    match start {
        Start::Latest => {
            let token = first_token(p.batches);
            let position = p.high;
            subscribe_at(p, alloc, stream, grain, token, position)
        }
        Start::At(token) => {
            let low = low_token(p);
            if is_token_before(&token, &low) {
                let high = high_token(p);
                return Ok(Reply::Miss {
                    requested: token,
                    low,
                    high,
                });
            }
            let position = lower_bound(p, &token);
            subscribe_at(p, alloc, stream, grain, token, position)
        }
    }
}

/// A grain subscribes to a stream from this token on, which stands at this position.
fn subscribe_at(
    p: &mut PlainPartition,
    alloc: Global,
    stream: StreamId,
    grain: GrainId,
    start: Token,
    position: usize,
) -> Result<Reply, AllocError>
    requires { IsWithinLimits p.old }
    ensures performs { Performs p.old p.new result (subscribe_at p.old stream grain start position) }
    ensures memory { OnErr result (takes_memory (subscribe_at p.old stream grain start position).1 ≡ true) }
{
    if p.subs.as_slice().len() >= p.limits.subs {
        return Ok(Reply::TooMany);
    }
    let number = p.explicit + 1;
    let sub = new_subscription(alloc, stream, grain, start, position);
    p.subs.push((SubName::Explicit(number), sub))?;
    p.explicit = number;
    Ok(Reply::Subscribed { number })
}

/// A subscription that has handled nothing. It takes no memory.
pub fn new_subscription(
    alloc: Global,
    stream: StreamId,
    grain: GrainId,
    start: Token,
    position: usize,
) -> Subscription
    ensures { result ≡ new_subscription stream grain start position }
{
    Subscription {
        stream,
        grain,
        start,
        handled: Sequence::new(alloc),
        note: 0,
        resume: position,
        cursor: position,
        is_open: true,
    }
}

/// Whether a batch has no payload, or too many.
fn is_bad_batch(payloads: &[Payload]) -> bool
    ensures { result ≡ ((length payloads.now == 0) || nat_lt BATCH_EVENTS (length payloads.now)) }
{
    payloads.is_empty() || payloads.len() > BATCH_EVENTS
}

/// Adds the events of a batch at the end. Where it fails to allocate, the log stays as it was.
fn append_events(
    log: &mut Sequence<Event>,
    stream: &StreamId,
    seq: u64,
    payloads: &[Payload],
) -> Result<(), AllocError>
    requires { length payloads.now ≤ BATCH_EVENTS }
    ensures { log.new ≡ (if is_ok result then log.old ++ events_of stream.now seq 0 payloads.now else log.old) }
{
    let len = log.items.len();
    let pushed = push_events(&mut log.items, stream, seq, payloads);
    if pushed.is_err() {
        log.items.truncate(len);
    }
    pushed
}

/// Adds the events of a batch at the end, as far as there is memory.
fn push_events(
    log: &mut Vec<Event>,
    stream: &StreamId,
    seq: u64,
    payloads: &[Payload],
) -> Result<(), AllocError>
    requires { length payloads.now ≤ BATCH_EVENTS }
    ensures all { OnOk result (log.new.items ≡ log.old.items ++ events_of stream.now seq 0 payloads.now) }
    ensures front { take (length log.old.items) log.new.items ≡ log.old.items }
{
    for (idx, payload) in payloads.iter().enumerate() {
        log.push(Event {
            stream: *stream,
            token: Token {
                seq,
                idx: idx as u32,
            },
            payload: *payload,
        })?;
    }
    Ok(())
}
