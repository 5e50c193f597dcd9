//! What a loop takes from an answer at a queue.
ghost use Rattle.std.specs.Prelude.{◌≡◌};
ghost use Rattle.step_core.specs.Replied.{Says};
ghost use Rattle.stream_model.specs.Replies as replies;
ghost use Rattle.silo_loops.specs.Answers.{heard_of, end_in};

use crate::advance::end_by;
use doorbells::Over;
use step_core::{Answer, Outcome, Reply};
use stream_ident::{GrainId, SubName, Token};
use turnstile::Refusal;

/// An answer at a queue as far as loops go by it, without the events of a turn.
#[derive(Clone, Copy)]
pub(crate) enum Heard {
    /// The loop ends.
    Ended(Over),
    /// A ready grain.
    Next(GrainId),
    /// A turn runs.
    Turn {
        sub: SubName,
        activation: u64,
        turn: u64,
        note: u64,
    },
    /// The turn is committed.
    Committed(SubName, Token),
    /// A subscription is due, with what it has still to acknowledge.
    Due(SubName, Option<Token>),
    /// Another agent is the current one.
    StaleAgent,
    /// Something was pulled, delivered, acknowledged or dropped.
    Changed,
    /// Nothing that a loop goes by.
    Other,
}

impl Heard {
    /// How the answer ends a loop, where it does.
    pub(crate) fn end(&self) -> Option<Over>
        ensures { result ≡ end_in self.now }
    {
        match *self {
            Heard::Ended(end) => Some(end),
            _ => None,
        }
    }

    /// Whether a turn began, or something was pulled, delivered, acknowledged or dropped.
    pub(crate) fn is_change(&self) -> bool {
        matches!(*self, Heard::Turn { .. } | Heard::Changed)
    }
}

/// What an answer says, without the events of a turn.
pub(crate) fn heard_of(answer: &Result<Answer, Refusal>) -> Heard
    ensures { result ≡ heard_of answer.now }
{
    match answer {
        Ok(answer) => heard_in(answer.outcome()),
        Err(refusal) => Heard::Ended(end_by(*refusal)),
    }
}

// What an outcome says.
fn heard_in(outcome: &Outcome) -> Heard
    ensures { (r : replies.Reply) → Says outcome.now r → result ≡ heard_of (Ok r) }
{
    match *outcome {
        Reply::Turn {
            sub,
            activation,
            turn,
            note,
            ..
        } => Heard::Turn {
            sub,
            activation,
            turn,
            note,
        },
        Reply::TooMany | Reply::Spent => Heard::Ended(Over::Limit),
        Reply::Next(grain) => Heard::Next(grain),
        Reply::Committed { sub, token } => Heard::Committed(sub, token),
        Reply::DueSub { sub, ack } => Heard::Due(sub, ack),
        Reply::StaleAgent { .. } => Heard::StaleAgent,
        Reply::Pulled { .. } | Reply::Delivered { .. } | Reply::Acked | Reply::Dropped { .. } => {
            Heard::Changed
        }
        _ => Heard::Other,
    }
}
