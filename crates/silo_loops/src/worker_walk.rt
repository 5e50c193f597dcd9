//! Where a worker is, and what it does next.
ghost use Rattle.std.specs.Prelude.{◌≡◌, ◌<◌, ◌⊎◌, true, false, None, IfSome};
ghost use Rattle.silo_loops.specs.Answers.{end_of_asking};
ghost use Rattle.silo_loops.specs.declared.worker_walk.Step.TheVariants as step;
ghost use Rattle.silo_loops.specs.Walks.{IsFree, step_after_begin, step_after_commit, step_after_enter};

use crate::advance::end_by;
use crate::heard::Heard;
use activation_directory::DirectoryReply;
use doorbells::{Over, QueueSet, is_among};
use stream_ident::{GrainId, SubName, Token};
use turnstile::Refusal;

// How many turns of one grain a worker adds to the first one, before it goes on.
const MOST_AGAIN: u8 = 15;

/// A turn that runs: which it is, the note that the last event left, and the place of the next event.
#[derive(Clone, Copy)]
pub(crate) struct Turn {
    pub(crate) sub: SubName,
    pub(crate) activation: u64,
    pub(crate) number: u64,
    pub(crate) note: u64,
    pub(crate) next: usize,
}

/// What a worker does next.
#[derive(Clone, Copy)]
pub(crate) enum Step {
    /// Between two rounds.
    Rest,
    /// Asks for a ready grain.
    Look,
    /// Asks for the permit of a grain.
    Enter(GrainId),
    /// Begins a turn of it, with its permit.
    Begin(GrainId, u64),
    /// Handles the next event of the turn, or commits it where none is left.
    Handle(GrainId, u64, Turn),
    /// Tells of the commit.
    Tell(GrainId, u64, SubName, Token),
    /// Asks which grain is ready next, with the permit of this one.
    Again(GrainId, u64),
    /// Gives the permit back.
    Leave(GrainId, u64),
}

/// The queue at which a worker is, the ready grain that it found there last, whether the round changed
/// anything, and what it does next; how many more turns of that grain it may add, the ready grain that it found while it
/// had the permit of that, and the commit of which the gate is still to be told, where no turn is kept, by its turn's
/// subscription and its last event's token; whether it goes by hints, which queues the round is for where it isn't for
/// all, and the count of its desk before the round.
#[derive(Drop)]
pub(crate) struct Walk {
    pub(crate) at: usize,
    pub(crate) last: Option<GrainId>,
    pub(crate) changed: bool,
    pub(crate) step: Step,
    pub(crate) again: u8,
    pub(crate) found: Option<GrainId>,
    pub(crate) untold: Option<(SubName, Token)>,
    pub(crate) by_hints: bool,
    pub(crate) hinted: Option<QueueSet>,
    pub(crate) seen: u64,
}

impl Walk {
    // Before the first round.
    pub(crate) fn new() -> Walk
        ensures at { result.at ≡ 0 }
        ensures step { result.step ≡ step.Rest }
    {
        Walk {
            at: 0,
            last: None,
            changed: true,
            step: Step::Rest,
            again: 0,
            found: None,
            untold: None,
            by_hints: false,
            hinted: None,
            seen: 0,
        }
    }

    // Whether the next step is one of this queue.
    pub(crate) fn stays(&self, at: usize) -> bool {
        self.at == at && !matches!(self.step, Step::Rest)
    }

    // Whether the next step is the handler's, where the turn has so many events.
    pub(crate) fn handles(&self, events: usize) -> bool {
        match self.step {
            Step::Handle(_, _, ref turn) => turn.next < events,
            _ => false,
        }
    }

    // Whether the next step gives a permit back and the one behind it asks for another.
    pub(crate) fn hands_on(&self) -> bool {
        matches!(self.step, Step::Leave(_, _)) && self.found.is_some()
    }

    // On to the next queue that the round is for, or where there is none, the end of the round.
    fn go_on(&mut self, queues: usize)
        requires { self.old.at < queues }
        ensures at { self.new.at < queues }
        ensures free { IsFree self.new.step }
    {
        self.last = None;
        match self.next(self.at + 1, queues) {
            Some(next) => {
                self.at = next;
                self.step = Step::Look;
            }
            None => {
                self.at = 0;
                self.step = Step::Rest;
            }
        }
    }

    // The first queue from this one on that the round is for.
    fn next(&self, from: usize, queues: usize) -> Option<usize>
        ensures { IfSome result (λ next. next < queues) }
    {
        for queue in from..queues {
            if is_among(&self.hinted, queue) {
                return Some(queue);
            }
        }
        None
    }

    /// At the first queue of a round at these queues, or at all.
    pub(crate) fn begin(&mut self, queues: usize, hinted: Option<QueueSet>)
        requires { 0 < queues }
        ensures at { self.new.at < queues }
        ensures step { self.new.step ≡ self.old.step }
    {
        self.changed = false;
        self.hinted = hinted;
        match self.next(0, queues) {
            Some(first) => self.at = first,
            None => self.at = 0,
        }
    }

    // After the answer to Ready. Grains are named in their order, so one that isn't past the last was named
    // before.
    pub(crate) fn after_look(&mut self, queues: usize, answer: &Heard)
        requires { self.old.at < queues }
        ensures at { self.new.at < queues }
        ensures free { IsFree self.new.step }
    {
        match *answer {
            Heard::Next(ref grain) if self.is_new(grain) => self.enter(grain),
            _ => self.go_on(queues),
        }
    }

    /// The queue that its next step calls, where it calls one.
    pub(crate) fn queue(&self) -> Option<usize> {
        match self.step {
            Step::Enter(_) | Step::Leave(_, _) => None,
            _ => Some(self.at),
        }
    }

    /// Whether a ready grain was found, for which it is to ask for the permit.
    pub(crate) fn has_found(&self) -> bool {
        matches!(self.step, Step::Enter(_))
    }

    // On to a ready grain.
    fn enter(&mut self, grain: &GrainId)
        ensures { self.new ≡ record self.old { last = Some grain.now; step = step.Enter grain.now; again = self.new.again } }
    {
        self.last = Some(*grain);
        self.again = MOST_AGAIN;
        self.step = Step::Enter(*grain);
    }

    // Whether the grain is past the last one.
    fn is_new(&self, grain: &GrainId) -> bool {
        match self.last {
            None => true,
            Some(ref last) => last.is_before(grain),
        }
    }

    // After the answer to Enter. A grain that another has is passed over.
    pub(crate) fn after_enter(&mut self, grain: &GrainId, answer: &Result<DirectoryReply, Refusal>)
        ensures at { self.new.at ≡ self.old.at }
        ensures step { self.new.step ≡ step_after_enter grain.now answer.now }
    {
        self.step = match *answer {
            Ok(DirectoryReply::Entered { permit }) => Step::Begin(*grain, permit),
            _ => Step::Look,
        };
    }

    // After the answer to Begin.
    pub(crate) fn after_begin(&mut self, grain: &GrainId, permit: u64, answer: &Heard)
        ensures at { self.new.at ≡ self.old.at }
        ensures step { self.new.step ≡ step_after_begin grain.now permit answer.now }
    {
        if answer.is_change() {
            self.changed = true;
        }
        self.step = match *answer {
            Heard::Turn {
                sub,
                activation,
                turn,
                note,
            } => Step::Handle(
                *grain,
                permit,
                Turn {
                    sub,
                    activation,
                    number: turn,
                    note,
                    next: 0,
                },
            ),
            _ => Step::Leave(*grain, permit),
        };
    }

    // After the answer to Commit.
    pub(crate) fn after_commit(&mut self, grain: &GrainId, permit: u64, answer: &Heard)
        ensures at { self.new.at ≡ self.old.at }
        ensures step { self.new.step ≡ step_after_commit grain.now permit answer.now }
    {
        self.step = match *answer {
            Heard::Committed(sub, token) => Step::Tell(*grain, permit, sub, token),
            _ => Step::Leave(*grain, permit),
        };
    }

    // After the answer to Ready that was asked with the permit of a grain. Another turn of it is begun where it is the
    // next one, and else its permit is given back. A grain past it comes then.
    pub(crate) fn after_again(&mut self, grain: &GrainId, permit: u64, answer: &Heard)
        ensures at { self.new.at ≡ self.old.at }
        ensures step { (self.new.step ≡ step.Begin grain.now permit) ⊎ (self.new.step ≡ step.Leave grain.now permit) }
    {
        self.step = match *answer {
            Heard::Next(ref next) if next == grain && self.again > 0 => {
                Step::Begin(*grain, permit)
            }
            _ => Step::Leave(*grain, permit),
        };
        self.again = self.again.saturating_sub(1);
        self.found = match *answer {
            Heard::Next(ref next) if self.is_new(next) => Some(*next),
            _ => None,
        };
    }

    // After the permit was given back: on to the grain that was found, or to look for one.
    pub(crate) fn after_leave(&mut self)
        ensures at { self.new.at ≡ self.old.at }
        ensures free { IsFree self.new.step }
    {
        match self.found.take() {
            Some(grain) => self.enter(&grain),
            None => self.step = Step::Look,
        }
    }
}

/// How an answer of the directory ends a loop, where it does.
pub(crate) fn end_of_asking(answer: &Result<DirectoryReply, Refusal>) -> Option<Over>
    ensures { result ≡ end_of_asking answer.now }
{
    match *answer {
        Ok(DirectoryReply::Spent) => Some(Over::Limit),
        Ok(_) => None,
        Err(refusal) => Some(end_by(refusal)),
    }
}
