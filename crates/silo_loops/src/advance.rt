//! What a step of a loop answers.
ghost use Rattle.std.specs.Prelude.{◌≡◌};
ghost use Rattle.silo_loops.specs.Answers.{advance_of, end_by, over_of};

use doorbells::{Doorbell, LoopEnd, Over};
use std::sync::Wait;
use turnstile::Refusal;

/// The most steps of a visit.
pub(crate) const MOST_STEPS: u32 = 64;

/// What a step of a loop did.
#[derive(Clone, Copy, Debug, PartialEq, Eq)]
pub enum Advance {
    /// One call, or one piece of work that was in hand.
    Did,
    /// Nothing: the round found nothing to do. The next step begins another.
    Idle,
    /// Nothing more: the loop has ended, and answers so from then on.
    Over(Over),
}

impl Advance {
    // Why the loop has ended, where it has.
    pub(crate) fn over(self) -> Option<Over>
        ensures { result ≡ over_of self }
    {
        match self {
            Advance::Over(end) => Some(end),
            _ => None,
        }
    }
}

// How a refusal ends a loop.
pub(crate) fn end_by(refusal: Refusal) -> Over
    ensures { result ≡ end_by refusal }
{
    match refusal {
        Refusal::HistoryFull => Over::Limit,
        Refusal::Memory => Over::Memory,
    }
}

// What a step answers that ended the loop or didn't. Where a loop ends, the doorbell tells.
pub(crate) fn told<R: Wait>(
    rt: &R,
    doorbell: &Doorbell,
    queue: Option<usize>,
    over: Option<Over>,
) -> Advance
    ensures { result ≡ advance_of over }
{
    match over {
        None => Advance::Did,
        Some(end) => {
            doorbell.end_by(rt, LoopEnd { over: end, queue });
            Advance::Over(end)
        }
    }
}
