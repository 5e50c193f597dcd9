//! What producers and subscribers ask.
ghost use Rattle.std.specs.Prelude.{◌≡◌, ◌≤◌, true, map, OnErr, IfOk};
ghost use Rattle.std.specs.List.{AllByRecursion};
ghost use Rattle.stream_ident.specs.Alphabet.{IsPayload};
ghost use Rattle.stream_ident.specs.Words.{Performs, changed_value};
ghost use Rattle.stream_ident.specs.Name.{same_grain};
ghost use Rattle.stream_model.specs.Publishing.{add_rule, publish, subscribe, subscribe_at, unsubscribe};
ghost use Rattle.stream_model.specs.Step.{takes_memory};
ghost use Rattle.queue_cache.specs.Cache.{high};
ghost use Rattle.consumer_grain.specs.Activations.{forgotten};
ghost use Rattle.stream_model.specs.Replies.{IsNoTurn};
ghost use Rattle.step_core.specs.Assembly.{Agrees, IsAssembled};
ghost use Rattle.step_core.specs.PlainOf.{plain_of};
ghost use Rattle.step_core.specs.Replies.{appended_reply, of_append, of_rule};
ghost use Rattle.step_core.specs.Replied.{replied, reply_of};
ghost use Rattle.step_core.specs.SubscriberReplies.{of_added};

use crate::outcome::Outcome;
use crate::parts::Parts;
use crate::reading::{high_token, low_token};
use cache_cursor::lower;
use grain_table::GrainTable;
use partition_queue::Appended;
use pubsub_registry::{Added, Closing, RuleAdded};
use std::alloc::{AllocError, Global};
use stream_ident::{Batch, GrainId, Name, StreamId, SubName, Token};
use stream_model::{Reply, Start};

/// A producer publishes a batch: its events go to the end of the log.
///
/// # Errors
/// The call failed to allocate, and nothing has changed. That can happen only at a batch that would be
/// accepted.
#[inline(never)]
pub(crate) fn publish(
    parts: &mut Parts,
    alloc: Global,
    stream: &StreamId,
    payloads: &Batch,
) -> Result<Outcome, AllocError>
    requires { Agrees parts.old }
    ensures assembled { IsAssembled parts.new }
    ensures performs { Performs (plain_of parts.old) (plain_of parts.new) (replied result) (publish (plain_of parts.old) stream.now payloads.now) }
    ensures told { IfOk result IsNoTurn }
    ensures memory { OnErr result (takes_memory (publish (plain_of parts.old) stream.now payloads.now).1 ≡ true) }
{
    let appended = parts.queue.append(alloc, stream, payloads)?;
    Ok(told_of_batch(appended))
}

/// A producer publishes a batch, as `publish` does it, where each payload is lent as its bytes.
///
/// # Errors
/// They are those of `publish`.
#[inline(never)]
pub(crate) fn publish_slices(
    parts: &mut Parts,
    alloc: Global,
    stream: &StreamId,
    payloads: &[&[u8]],
) -> Result<Appended, AllocError>
    requires agrees { Agrees parts.old }
    requires payloads { AllByRecursion IsPayload (map (λ payload. payload.now) payloads.now) }
    ensures assembled { IsAssembled parts.new }
    ensures performs { Performs (plain_of parts.old) (plain_of parts.new) (appended_reply result) (publish (plain_of parts.old) stream.now (map (λ payload. payload.now) payloads.now)) }
    ensures memory { OnErr result (takes_memory (publish (plain_of parts.old) stream.now (map (λ payload. payload.now) payloads.now)).1 ≡ true) }
{
    parts.queue.append_slices(alloc, stream, payloads)
}

/// The reply to the producer of a batch.
fn told_of_batch(appended: Appended) -> Outcome
    ensures reply { reply_of result ≡ of_append appended }
    ensures told { IsNoTurn result }
{
    match appended {
        Appended::Accepted { seq } => Reply::Published { seq },
        Appended::BadBatch => Reply::BadBatch,
        Appended::QueueFull => Reply::QueueFull,
    }
}

/// Grains of a kind shall consume the streams of a namespace, from the next batch on.
///
/// # Errors
/// The call failed to allocate, and nothing has changed. That can happen only where the rule would be added.
#[inline(never)]
pub(crate) fn add_rule(
    parts: &mut Parts,
    alloc: Global,
    kind: Name,
    namespace: Name,
) -> Result<Outcome, AllocError>
    requires { Agrees parts.old }
    ensures assembled { IsAssembled parts.new }
    ensures performs { Performs (plain_of parts.old) (plain_of parts.new) (replied result) (add_rule (plain_of parts.old) kind namespace) }
    ensures told { IfOk result IsNoTurn }
    ensures memory { OnErr result (takes_memory (add_rule (plain_of parts.old) kind namespace).1 ≡ true) }
{
    let from = parts.queue.batches();
    let added = parts.subs.add_rule(alloc, kind, namespace, from)?;
    Ok(told_of_rule(from, added))
}

/// The reply to a rule that is to hold from a batch on.
fn told_of_rule(from: u64, added: RuleAdded) -> Outcome
    ensures reply { reply_of result ≡ of_rule from added }
    ensures told { IsNoTurn result }
{
    match added {
        RuleAdded::Added => Reply::RuleAdded { from },
        RuleAdded::RuleThere => Reply::RuleThere,
        RuleAdded::TooMany => Reply::TooMany,
    }
}

/// A grain subscribes to a stream.
///
/// # Errors
/// The call failed to allocate, and nothing has changed. That can happen only where the subscription would be
/// added.
#[inline(never)]
pub(crate) fn subscribe(
    parts: &mut Parts,
    alloc: Global,
    stream: &StreamId,
    grain: &GrainId,
    start: Start,
) -> Result<Outcome, AllocError>
    requires { Agrees parts.old }
    ensures assembled { IsAssembled parts.new }
    ensures performs { Performs (plain_of parts.old) (plain_of parts.new) (replied result) (subscribe (plain_of parts.old) stream.now grain.now start) }
    ensures told { IfOk result IsNoTurn }
    ensures memory { OnErr result (takes_memory (subscribe (plain_of parts.old) stream.now grain.now start).1 ≡ true) }
{
    match start {
        Start::Latest => {
            let token = Token {
                seq: parts.queue.batches(),
                idx: 0,
            };
            let position = parts.agent.cache().high();
            subscribe_at(parts, alloc, stream, grain, token, position)
        }
        Start::At(token) => {
            let low = low_token(parts);
            if token.is_before(&low) {
                let high = high_token(parts);
                return Ok(Reply::Miss {
                    requested: token,
                    low,
                    high,
                });
            }
            let position = lower(parts.agent.cache(), &token);
            subscribe_at(parts, alloc, stream, grain, token, position)
        }
    }
}

/// The grain of an explicit subscription unsubscribes. It takes no memory.
#[inline(never)]
pub(crate) fn unsubscribe(parts: &mut Parts, sub: &SubName) -> Outcome
    requires { Agrees parts.old }
    ensures assembled { IsAssembled parts.new }
    ensures performs { (plain_of parts.new, reply_of result) ≡ unsubscribe (plain_of parts.old) sub.now }
    ensures told { IsNoTurn result }
{
    let Some(number) = parts.subs.find(sub) else {
        return Reply::NoSuch;
    };
    let grain = *parts.subs.grain(number);
    let handled = parts.subs.state(number).handled.as_slice().len();
    match parts.subs.close(number) {
        Closing::Done => {
            forget(&mut parts.grains, &grain, number);
            Reply::Unsubscribed { handled }
        }
        Closing::NoSuch => Reply::NoSuch,
        Closing::Implicit => Reply::Implicit,
        Closing::Closed => Reply::Closed,
    }
}

/// The deliveries of a subscription leave the mailbox of its grain.
fn forget(grains: &mut GrainTable, grain: &GrainId, number: usize)
    ensures { grains.new ≡ changed_value same_grain grain.now (forgotten number) grains.old }
{
    if let Some(at) = grains.find(grain) {
        grains.forget(at, number);
    }
}

/// A grain subscribes to a stream from a token on, whose first event is sought from a position on.
///
/// # Errors
/// The call failed to allocate, and nothing has changed. That can happen only where the subscription would be
/// added.
fn subscribe_at(
    parts: &mut Parts,
    alloc: Global,
    stream: &StreamId,
    grain: &GrainId,
    start: Token,
    position: usize,
) -> Result<Outcome, AllocError>
    requires agrees { Agrees parts.old }
    requires position { position ≤ high parts.old.agent.cache }
    ensures assembled { IsAssembled parts.new }
    ensures performs { Performs (plain_of parts.old) (plain_of parts.new) (replied result) (subscribe_at (plain_of parts.old) stream.now grain.now start position) }
    ensures told { IfOk result IsNoTurn }
    ensures memory { OnErr result (takes_memory (subscribe_at (plain_of parts.old) stream.now grain.now start position).1 ≡ true) }
{
    let added = parts
        .subs
        .subscribe(alloc, *stream, *grain, start, position)?;
    Ok(told_of_sub(added))
}

/// The reply to a grain that subscribes.
fn told_of_sub(added: Added) -> Outcome
    ensures reply { reply_of result ≡ of_added added }
    ensures told { IsNoTurn result }
{
    match added {
        Added::Added { number } => Reply::Subscribed { number },
        Added::TooMany => Reply::TooMany,
    }
}
