//! An answer that stands for a reply.
ghost use Rattle.std.specs.Prelude.{◌≡◌, ◌<◌, ◌≤◌, length};
ghost use Rattle.stream_ident.specs.declared.limits.TheConstants.{TURN_EVENTS};
ghost use Rattle.step_core.specs.Replied.{reply_with, HasEvents, Says};

use crate::outcome::Outcome;
use partition_queue::PartitionQueue;
use std::marker::Model;
use std::snapshot::Snapshot;
use stream_ident::{Event, Row};
use stream_model::{Events, Reply};

/// What an operation came to, and, for proofs alone, the log that has the events of its turn.
///
/// A contract sees it as the reply.
#[derive(Drop)]
pub struct Answer {
    outcome: Outcome,
    queue: Snapshot<PartitionQueue>,
}

impl Model for Answer {
    ghost use Rattle.stream_model.specs.Replies.{Reply};
    ghost use Rattle.step_core.specs.Replied.{reply_with};

    ghost Value = { Reply };

    ghost view = { λ a. reply_with a.queue.value.events a.outcome };
}

impl Answer {
    // The outcome, with the log that it came to.
    pub(crate) fn new(outcome: Outcome, queue: &PartitionQueue) -> Answer
        ensures { result ≡ reply_with queue.now.events outcome }
    {
        Answer {
            outcome,
            queue: Snapshot::of(queue),
        }
    }

    /// What it says: all but the events of a turn.
    pub fn outcome(&self) -> &Outcome
        ensures { Says result.now self.now }
    {
        &self.outcome
    }

    /// The reply. The events of a turn are those that the call has put into the room that was lent to it.
    pub fn reply(&self, events: &[Event]) -> Reply
        requires { HasEvents self.now events.now }
        ensures { result ≡ self.now }
    {
        match self.outcome {
            Reply::Turn {
                sub,
                activation,
                turn,
                events: ref positions,
                note,
            } => Reply::Turn {
                sub,
                activation,
                turn,
                events: row_of(events, positions.len()),
                note,
            },
            _ => self.outcome.no_turn(),
        }
    }
}

// So many events in a row.
fn row_of(events: &[Event], count: usize) -> Events
    requires count { count ≡ length events.now }
    requires some { 0 < count }
    requires most { count ≤ TURN_EVENTS }
    ensures { result ≡ events.now }
{
    let mut row = Row::of(events[0]);
    for event in &events[1..count] {
        row.push(*event);
    }
    row
}
