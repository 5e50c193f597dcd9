//! What can be read of a partition.
ghost use Rattle.std.specs.Prelude.{◌≡◌, ◌<◌, Some, length, slice_get, All, IfOk};
ghost use Rattle.std.specs.List.{AllByRecursion};
ghost use Rattle.stream_model.specs.Draining.{last_handled};
ghost use Rattle.stream_model.specs.Positions.{events_at, high_token, is_spent, low_token, slowest, sub_at};
ghost use Rattle.step_core.specs.Assembly.{Agrees};
ghost use Rattle.step_core.specs.PlainOf.{plain_of};
ghost use Rattle.step_core.specs.Reads.{handled_of, handled_positions, summaries_in_order, summary_of};
ghost use Rattle.step_core.specs.Records.{record_of};
ghost use Rattle.step_core.specs.Serving.{is_settled_in, is_settled_state};

use crate::parts::Parts;
use consumer_grain::SubState;
use partition_queue::PartitionQueue;
use std::alloc::{AllocError, Global};
use stream_ident::{Event, GrainId, StreamId, SubName, Token};

/// A subscription that has a record.
///
/// Summaries are ordered by name first, and no two of a partition share a name.
#[derive(Clone, Copy, Debug, PartialEq, Eq, PartialOrd, Ord)]
pub struct SubSummary {
    /// Its name.
    pub name: SubName,
    /// The stream.
    pub stream: StreamId,
    /// The grain that consumes it.
    pub grain: GrainId,
    /// It is owed the events of its stream from this token on.
    pub start: Token,
    /// Whether it hasn't been unsubscribed.
    pub is_open: bool,
}

/// The token of the first event that the cache keeps, or would keep next.
pub(crate) fn low_token(parts: &Parts) -> Token
    requires { Agrees parts.now }
    ensures { result ≡ low_token (plain_of parts.now) }
{
    parts.queue.token_at(parts.agent.cache().low())
}

/// The token after the last event that the cache has.
pub(crate) fn high_token(parts: &Parts) -> Token
    requires { Agrees parts.now }
    ensures { result ≡ high_token (plain_of parts.now) }
{
    parts.queue.token_at(parts.agent.cache().high())
}

/// The least resume of an open subscription, or the end of the cache where none is open.
pub(crate) fn least_resume(parts: &Parts) -> usize
    ensures { result ≡ slowest (plain_of parts.now) }
{
    let high = parts.agent.cache().high();
    parts.subs.least_resume().unwrap_or(high)
}

/// Whether no rise is left.
pub(crate) fn is_spent(parts: &Parts) -> bool
    ensures { result ≡ is_spent (plain_of parts.now) }
{
    parts.rises >= parts.limits.rises
}

/// The summary of the subscription with a number, under a name.
fn summary_of(parts: &Parts, number: usize, name: SubName) -> SubSummary
    requires agrees { Agrees parts.now }
    requires within { number < length parts.now.subs.registry.names }
    ensures { result ≡ summary_of (name, record_of parts.now number) }
{
    let state = parts.subs.state(number);
    SubSummary {
        name,
        stream: *parts.subs.stream(number),
        grain: *parts.subs.grain(number),
        start: state.start,
        is_open: state.live,
    }
}

/// The summary of the subscription with a rank, its place in the order of the names.
pub(crate) fn summary_at(parts: &Parts, rank: usize) -> SubSummary
    requires agrees { Agrees parts.now }
    requires within { rank < length (summaries_in_order (plain_of parts.now)) }
    ensures { slice_get (summaries_in_order (plain_of parts.now)) rank ≡ Some result }
{
    let order = parts.subs.by_name();
    let number = order[rank];
    summary_of(parts, number, parts.subs.name(number))
}

/// The summaries in the order of the names.
pub(crate) fn summaries(parts: &Parts, alloc: Global) -> Result<Vec<SubSummary>, AllocError>
    requires agrees { Agrees parts.now }
    ensures { IfOk result (λ summaries. summaries.items ≡ summaries_in_order (plain_of parts.now)) }
{
    let order = parts.subs.by_name();
    let mut summaries = Vec::with_capacity(alloc, order.len())?;
    for number in order {
        let name = parts.subs.name(*number);
        summaries.push(summary_of(parts, *number, name))?;
    }
    Ok(summaries)
}

/// Whether a drain that serves a subscription changes nothing.
pub(crate) fn is_settled(parts: &Parts, sub: &SubName) -> bool
    requires { Agrees parts.now }
    ensures { result ≡ is_settled_in (plain_of parts.now).high (sub_at (plain_of parts.now) sub.now) }
{
    match parts.subs.find(sub) {
        Some(number) => is_settled_state(parts.subs.state(number), parts.agent.cache().high()),
        None => false,
    }
}

/// Whether a subscription is open, with all that it has handled acknowledged, and goes on from its resume, at or past
/// the end of the cache.
fn is_settled_state(state: &SubState, high: usize) -> bool
    ensures { result ≡ is_settled_state high state.now }
{
    state.live && high <= state.cursor && state.resume == state.cursor && !state.is_unacknowledged()
}

/// The token of the last event that a subscription has handled.
pub(crate) fn last_handled(parts: &Parts, sub: &SubName) -> Option<Token>
    requires { Agrees parts.now }
    ensures { result ≡ last_handled (plain_of parts.now) (sub_at (plain_of parts.now) sub.now) }
{
    let last = handled_positions(parts, sub).last()?;
    Some(parts.queue.token_at(*last))
}

/// The positions of the events that a subscription has handled, none where it has no record.
pub(crate) fn handled_positions<'a>(parts: &'a Parts, sub: &SubName) -> &'a [usize]
    requires { Agrees parts.now }
    ensures positions { result.now ≡ handled_positions (plain_of parts.now) sub.now }
    ensures within { AllByRecursion (λ position. position < length parts.now.queue.events) result.now }
{
    match parts.subs.find(sub) {
        Some(number) => parts.subs.state(number).handled.as_slice(),
        None => &[],
    }
}

/// The events that a subscription has handled, none where it has no record.
pub(crate) fn handled(parts: &Parts, alloc: Global, sub: &SubName) -> Result<Vec<Event>, AllocError>
    requires { Agrees parts.now }
    ensures { IfOk result (λ events. events.items ≡ handled_of (plain_of parts.now) sub.now) }
{
    events_at(&parts.queue, alloc, handled_positions(parts, sub))
}

/// The events at these positions of the log.
fn events_at(
    queue: &PartitionQueue,
    alloc: Global,
    positions: &[usize],
) -> Result<Vec<Event>, AllocError>
    requires { All (λ position. position < length queue.now.events) positions.now }
    ensures { IfOk result (λ events. events.items ≡ events_at queue.now.events positions.now) }
{
    let mut events = Vec::with_capacity(alloc, positions.len())?;
    for position in positions {
        events.push(queue.event_at(*position))?;
    }
    Ok(events)
}
