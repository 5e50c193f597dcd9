//! The loop of a pulling agent.
ghost use Rattle.std.specs.Prelude.{◌≡◌, length, replicate, None, IfErr, IfOk};
ghost use Rattle.silo_loops.specs.Agents.{AgentAdvances, AgentHasCause, AgentRuns, HasSamePlaces};
ghost use Rattle.silo_loops.specs.Chains.{Visits};

use crate::advance::{Advance, MOST_STEPS};
use crate::agent_steps::Agent;
use crate::line::Line;
use doorbells::{Assigned, Doorbell, Over};
use shared_partition::{Gate, QueueHistory};
use std::alloc::Global;
use std::marker::Model;
use std::sync::atomic::{AtomicBool, Ordering};
use std::sync::{Arc, Wait};

/// The loop of a pulling agent, with its passes. A round is for each queue that is assigned to it, or for those of
/// them with a hint: Pull, up to 32 times while there is something to pull, then for each due subscription Ack, where
/// there is something to acknowledge, and Deliver, as long as an event is delivered, until each was named twice with
/// nothing changed, or once in a round by hints. It names the generation that it was told; where that is stale, it goes
/// on with the next queue.
///
/// A contract sees its lines, the generation under which it holds each queue, as it last looked, how many more
/// rounds it may begin, and why it has ended.
pub struct AgentLoop<G: Gate, H: QueueHistory> {
    agent: Agent<G, H>,
    rounds: u64,
    over: Option<Over>,
}

impl<G: Gate + Drop, H: QueueHistory + Drop> Drop for AgentLoop<G, H> {
    fn drop(self) {
        let Self {
            agent: _,
            rounds: _,
            over: _,
        } = self;
    }
}

impl<G: Gate, H: QueueHistory> Model for AgentLoop<G, H> {
    ghost use Rattle.silo_loops.specs.Agents.{AgentHasCause, AgentView, agent_of};

    ghost Value = { AgentView };

    ghost view = { λ l. agent_of l.agent l.rounds l.over };

    ghost invariant = { λ l. AgentHasCause (agent_of l.agent l.rounds l.over) };
}

impl<G: Gate, H: QueueHistory> AgentLoop<G, H> {
    /// An agent of this silo that has done nothing yet, with a line for each queue, in their order, and so many rounds that it may
    /// begin. What is assigned to it others may change at any time.
    ///
    /// # Errors
    /// The call failed to allocate. The lines are handed back.
    pub fn new(
        alloc: Global,
        silo: u8,
        doorbell: Arc<Doorbell, Global>,
        assigned: Arc<Assigned, Global>,
        lines: Vec<Line<G, H>>,
        rounds: u64,
    ) -> Result<AgentLoop<G, H>, Vec<Line<G, H>>>
        ensures made { IfOk result (λ agent. agent ≡ record { lines = lines.items; held = replicate (length lines.items) None; rounds = rounds; over = None }) }
        ensures back { IfErr result (λ back. back ≡ lines) }
    {
        let agent = Agent::new(alloc, silo, doorbell, assigned, lines)?;
        Ok(AgentLoop {
            agent,
            rounds,
            over: None,
        })
    }

    /// Makes the next single call of the round; or answers that the round found nothing to do, or why the loop
    /// has ended.
    ///
    /// It makes an agent's operations alone, under the generation that it was told. It asks for the due subscription
    /// behind the one that was named last. It is idle only where it has pulled each queue that it then holds since it
    /// was made or last idle.
    pub fn advance<R: Wait>(&mut self, rt: &R, alloc: Global) -> Advance
        ensures advances { AgentAdvances result self.old self.new }
        ensures beside { HasSamePlaces self.old self.new }
    {
        match self.over {
            Some(end) => Advance::Over(end),
            None => {
                let did = self.agent.go_on(rt, alloc, &mut self.rounds);
                self.over = did.over();
                did
            }
        }
    }

    /// Makes steps of the round, each as [`advance`](AgentLoop::advance) makes it, as long as they are calls at one
    /// queue, and at most 64. It keeps its turn there meanwhile, and rings once for all of them. Where the queue is taken
    /// from it before the last of them, it gives the turn up before it calls another.
    pub fn visit<R: Wait>(&mut self, rt: &R, alloc: Global) -> Advance
        ensures steps { Visits AgentAdvances result self.old self.new }
        ensures beside { HasSamePlaces self.old self.new }
    {
        self.agent.keep();
        let mut did = self.advance(rt, alloc);
        for _ in 1..MOST_STEPS {
            let Advance::Did = did else {
                break;
            };
            if !self.agent.stays() {
                break;
            }
            did = self.advance(rt, alloc);
        }
        self.agent.leave(rt);
        did
    }

    /// How many more rounds it may begin.
    pub fn rounds(&self) -> u64
        ensures { result ≡ self.now.rounds }
    {
        self.rounds
    }

    /// Why it has ended, where it has.
    pub fn over(&self) -> Option<Over>
        ensures over { result ≡ self.now.over }
        ensures cause { AgentHasCause self.now }
    {
        self.over
    }

    // One visit, unless it is told to stop, and a wait where it is idle. Whether it goes on.
    fn go<R: Wait>(&mut self, rt: &R, alloc: Global, stop: &AtomicBool) -> bool
        ensures { AgentRuns self.old self.new }
    {
        if stop.load(Ordering::SeqCst) {
            return false;
        }
        match self.visit(rt, alloc) {
            Advance::Did => true,
            Advance::Idle => {
                self.agent.wait(rt, stop);
                true
            }
            Advance::Over(_) => false,
        }
    }

    /// Makes visits until `stop` is set or the loop has ended, and waits at the doorbell where a round over all queues
    /// found nothing to do. Before such a round it goes to the queues that have a hint for it, as long as there are some.
    /// It comes back with its passes.
    pub fn run<R: Wait>(self, rt: &R, alloc: Global, stop: &AtomicBool) -> AgentLoop<G, H>
        ensures { AgentRuns self result }
    {
        let mut this = self;
        this.agent.go_by_hints();
        for _ in rt.forever() {
            if !this.go(rt, alloc, stop) {
                break;
            }
        }
        this
    }

    /// Its lines.
    pub fn into_lines(self) -> Vec<Line<G, H>>
        ensures { result.items ≡ self.lines }
    {
        let AgentLoop {
            agent,
            rounds: _,
            over: _,
        } = self;
        agent.into_lines()
    }
}
