//! Where an agent is, and what it does next.
ghost use Rattle.std.specs.Prelude.{◌≡◌, ◌≤◌, false, true, None};
ghost use Rattle.silo_loops.specs.Answers.{end_in};
ghost use Rattle.silo_loops.specs.Visiting.{GoesOnTo, op_of};
ghost use Rattle.silo_loops.specs.declared.agent_walk.AgentStep.TheVariants as step;
ghost use Rattle.silo_loops.specs.declared.heard.Heard.TheVariants as heard;
ghost use Rattle.stream_model.specs.Producers.{is_producer};

use crate::heard::Heard;
use doorbells::{Over, QueueSet};
use stream_ident::{SubName, Token};
use stream_model::Op;

// The most events of a pull.
const MOST_PULLED: u32 = 32;

// How often an agent pulls again at once, as long as there was something to pull. Each pull makes every subscription due
// that has caught up, so a few pulls at a time spare looks at those which none of the events concerns.
const MOST_AGAIN: u8 = 31;

// How often each due subscription is named before an agent goes on.
const LAPS: u8 = 2;

/// What an agent does next at its queue.
#[derive(Clone, Copy)]
pub(crate) enum AgentStep {
    /// Takes events into the cache.
    Pull,
    /// Asks for a due subscription.
    Due,
    /// Acknowledges what a subscription has handled.
    Acknowledge { sub: SubName, token: Token },
    /// Delivers the next event of a subscription.
    Deliver { sub: SubName },
}

/// The queue at which an agent is, the due subscription that was named there last, how many more laps over the
/// due ones it makes, how often it may pull again there, whether the round changed anything, and what it does next;
/// whether it keeps its turn between calls, and at which queue it may have one; whether it goes by hints, which queues
/// the round is for where it isn't for all, and the count of its desk before the round.
#[derive(Drop)]
pub(crate) struct Visit {
    pub(crate) at: usize,
    pub(crate) last: Option<SubName>,
    pub(crate) laps: u8,
    pub(crate) pulls: u8,
    pub(crate) changed: bool,
    pub(crate) step: AgentStep,
    pub(crate) keeps: bool,
    pub(crate) kept: Option<usize>,
    pub(crate) by_hints: bool,
    pub(crate) hinted: Option<QueueSet>,
    pub(crate) seen: u64,
}

impl Visit {
    /// Before the first round over so many queues.
    pub(crate) fn new(queues: usize) -> Visit
        ensures { result ≡ record { at = queues; last = None; laps = result.laps; pulls = result.pulls; changed = true; step = step.Pull; keeps = false; kept = None; by_hints = false; hinted = None; seen = 0 } }
    {
        Visit {
            at: queues,
            last: None,
            laps: LAPS,
            pulls: MOST_AGAIN,
            changed: true,
            step: AgentStep::Pull,
            keeps: false,
            kept: None,
            by_hints: false,
            hinted: None,
            seen: 0,
        }
    }

    /// At this queue, before anything is done there.
    pub(crate) fn arrive(&mut self, at: usize)
        ensures { self.new ≡ record self.old { at = at; last = None; laps = self.new.laps; pulls = self.new.pulls; step = step.Pull } }
    {
        self.at = at;
        self.last = None;
        self.laps = self.most_laps();
        self.pulls = MOST_AGAIN;
        self.step = AgentStep::Pull;
    }

    /// Begins another round.
    pub(crate) fn begin(&mut self)
        ensures { self.new ≡ record self.old { at = 0; last = None; laps = self.new.laps; pulls = self.new.pulls; changed = self.new.changed; step = step.Pull } }
    {
        self.arrive(0);
        self.changed = false;
    }

    /// What it asks next, under this generation.
    pub(crate) fn op(&self, generation: u64) -> Op
        ensures op { result ≡ op_of generation self.now.step self.now.last }
        ensures producer { is_producer result ≡ false }
    {
        match self.step {
            AgentStep::Pull => Op::Pull {
                generation,
                max: MOST_PULLED,
            },
            AgentStep::Due => Op::Due { after: self.last },
            AgentStep::Acknowledge { sub, token } => Op::Ack {
                generation,
                sub,
                token,
            },
            AgentStep::Deliver { sub } => Op::Deliver { generation, sub },
        }
    }

    /// What it does after this answer. It goes on with the next queue where another agent is the current one,
    /// where each due subscription was named twice since something last changed here, and where it ends.
    pub(crate) fn after(&mut self, answer: &Heard) -> Option<Over>
        ensures over { result ≡ end_in answer.now }
        ensures goes { GoesOnTo self.new.step self.old answer.now self.new }
    {
        if answer.is_change() {
            self.changed = true;
        }
        let over = answer.end();
        if over.is_some() || matches!(*answer, Heard::StaleAgent) {
            self.leave();
        } else {
            self.go_on(answer);
        }
        over
    }

    // What it does after any other answer.
    fn go_on(&mut self, answer: &Heard)
        requires { end_in answer.now ≡ None }
        ensures { GoesOnTo self.new.step self.old answer.now self.new }
    {
        let step = self.step;
        match step {
            AgentStep::Pull => self.after_pull(answer),
            AgentStep::Due => self.after_due(answer),
            AgentStep::Acknowledge { ref sub, .. } => {
                self.note_change(answer);
                self.step = AgentStep::Deliver { sub: *sub };
            }
            AgentStep::Deliver { .. } => {
                self.note_change(answer);
                // Where an event was delivered, the subscription may be owed another.
                if !answer.is_change() {
                    self.step = AgentStep::Due;
                }
            }
        }
    }

    // Where there was something to pull there may be more.
    fn after_pull(&mut self, answer: &Heard)
        requires step { self.old.step ≡ step.Pull }
        requires goes_on { end_in answer.now ≡ None }
        ensures { GoesOnTo self.new.step self.old answer.now self.new }
    {
        if answer.is_change() && self.pulls > 0 {
            self.pulls -= 1;
            self.last = None;
        } else {
            self.step = AgentStep::Due;
        }
    }

    // How often each due subscription is named with nothing changed: once where the round isn't for all queues, since the
    // agent isn't idle then, whatever it finds.
    fn most_laps(&self) -> u8
        ensures { result ≤ 2 }
    {
        if self.hinted.is_some() { 1 } else { LAPS }
    }

    // What is left of a lap in which something changed doesn't count.
    fn note_change(&mut self, answer: &Heard)
        ensures { self.new ≡ record self.old { laps = self.new.laps } }
    {
        if answer.is_change() {
            self.laps = self.most_laps() + 1;
        }
    }

    // Subscriptions are named in their order, so one that isn't past the last begins another lap.
    fn after_due(&mut self, answer: &Heard)
        requires step { self.old.step ≡ step.Due }
        requires goes_on { end_in answer.now ≡ None }
        ensures { GoesOnTo self.new.step self.old answer.now self.new }
    {
        match *answer {
            Heard::Due(ref sub, ack) => self.serve(sub, ack),
            _ => self.leave(),
        }
    }

    // What it does for a due subscription.
    fn serve(&mut self, sub: &SubName, ack: Option<Token>)
        requires { self.old.step ≡ step.Due }
        ensures { GoesOnTo self.new.step self.old (heard.Due sub.now ack) self.new }
    {
        if !self.is_new(sub) {
            self.laps = self.laps.saturating_sub(1);
        }
        if self.laps == 0 {
            self.leave();
            return;
        }
        self.last = Some(*sub);
        self.step = match ack {
            Some(token) => AgentStep::Acknowledge { sub: *sub, token },
            None => AgentStep::Deliver { sub: *sub },
        };
    }

    // Whether the subscription is past the last one.
    fn is_new(&self, sub: &SubName) -> bool {
        match self.last {
            None => true,
            Some(ref last) => last.is_before(sub),
        }
    }

    // On to the next queue.
    fn leave(&mut self)
        ensures { self.new ≡ record self.old { at = self.new.at; last = None; laps = self.new.laps; pulls = self.new.pulls; step = step.Pull } }
    {
        let next = self.at.saturating_add(1);
        self.arrive(next);
    }
}
