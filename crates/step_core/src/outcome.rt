//! What an operation comes to.
ghost use Rattle.std.specs.Prelude.{◌≡◌, ◌<◌, ◌≤◌, length, vec_capacity};
ghost use Rattle.std.specs.List.{AllByRecursion};
ghost use Rattle.stream_ident.specs.Event.{events_at};
ghost use Rattle.step_core.specs.Replied.{reply_with, IsOfLog, Shows};

use partition_queue::PartitionQueue;
use stream_ident::{Event, Row, TURN_EVENTS};
use stream_model::{Events, Reply};

/// What an operation comes to: a reply whose turn has the positions of its events in the log, 1 to 16. With the
/// events themselves it would take some twenty times as much, which each function that passed it on would copy.
pub type Outcome = Reply<Row<usize>>;

/// The reply, with the events of a turn, which this log has.
pub(crate) fn reply_of(outcome: &Outcome, queue: &PartitionQueue) -> Reply
    requires { IsOfLog queue.now.events outcome.now }
    ensures { result ≡ reply_with queue.now.events outcome.now }
{
    match *outcome {
        Reply::Turn {
            sub,
            activation,
            turn,
            ref events,
            note,
        } => Reply::Turn {
            sub,
            activation,
            turn,
            events: events_of(queue, events),
            note,
        },
        _ => outcome.no_turn(),
    }
}

/// Puts the events of a turn, which this log has, in the place of those before. It does nothing where there is
/// no room for sixteen.
#[inline(never)]
pub(crate) fn show(outcome: &Outcome, queue: &PartitionQueue, shown: &mut Vec<Event>)
    requires { IsOfLog queue.now.events outcome.now }
    ensures { Shows shown.old shown.new (reply_with queue.now.events outcome.now) }
{
    if let Reply::Turn { events, .. } = outcome
        && shown.capacity() >= TURN_EVENTS
    {
        put_events(queue, events, shown);
    }
}

/// The events at the positions of a turn.
fn events_of(queue: &PartitionQueue, positions: &Row<usize>) -> Events
    requires { AllByRecursion (λ position. position < length queue.now.events) positions.now }
    ensures { result ≡ events_at queue.now.events positions.now }
{
    let positions = positions.as_slice();
    let mut events = Row::of(queue.event_at(positions[0]));
    for position in &positions[1..] {
        events.push(queue.event_at(*position));
    }
    events
}

/// Puts the events at the positions of a turn in the place of those before.
fn put_events(queue: &PartitionQueue, positions: &Row<usize>, into: &mut Vec<Event>)
    requires of_log { AllByRecursion (λ position. position < length queue.now.events) positions.now }
    requires room { TURN_EVENTS ≤ vec_capacity into.old }
    ensures events { into.new.items ≡ events_at queue.now.events positions.now }
    ensures room { vec_capacity into.new ≡ vec_capacity into.old }
{
    into.clear();
    for position in positions.as_slice() {
        into.push_reserved(queue.event_at(*position));
    }
}
