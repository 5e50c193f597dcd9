//! A pulling agent, each of whose steps is one call.
ghost use Rattle.std.specs.Prelude.{◌≡◌, ℕ, ◌<◌, ◌≤◌, ◌+◌, ◌⊎◌, length, map, replicate, true, List, Option, None, Some, IfErr, IfNone, IfOk, IfSome, slice_get};
ghost use Rattle.silo_loops.specs.Agents.{AgentAdvancesFrom, AgentCalls, OnesPulled, agent_of};
ghost use Rattle.silo_loops.specs.Answers.{over_of};
ghost use Rattle.silo_loops.specs.Lines.{HasPulled, LineView, rested};
ghost use Rattle.silo_loops.specs.Visiting.{IsVisiting};

use crate::advance::{Advance, told};
use crate::agent_walk::Visit;
use crate::line::{Line, hear_at, keep_at, leave_at, rest_all};
use doorbells::{Assigned, Doorbell, Over, count_at, is_among, wait_at};
use shared_partition::{Gate, QueueHistory};
use std::alloc::Global;
use std::marker::Model;
use std::sync::atomic::AtomicBool;
use std::sync::{Arc, Wait};

/// An agent of a silo: its passes, the generation under which it holds each queue, as it last looked, and where it is and
/// what it does next.
pub(crate) struct Agent<G: Gate, H: QueueHistory> {
    silo: u8,
    doorbell: Arc<Doorbell, Global>,
    assigned: Arc<Assigned, Global>,
    lines: Vec<Line<G, H>>,
    held: Vec<Option<u64>>,
    visit: Visit,
}

impl<G: Gate + Drop, H: QueueHistory + Drop> Drop for Agent<G, H> {
    fn drop(self) {
        let Self {
            silo: _,
            doorbell: _,
            assigned: _,
            lines: _,
            held: _,
            visit: _,
        } = self;
    }
}

impl<G: Gate, H: QueueHistory> Model for Agent<G, H> {
    ghost use Rattle.std.specs.Prelude.{◌≡◌, length};
    ghost use Rattle.silo_loops.specs.Agents.{AgentState};
    ghost use Rattle.silo_loops.specs.Visiting.{IsVisiting};

    ghost Value = { AgentState };

    ghost view = { λ a. record { lines = a.lines.items; held = a.held.items; at = a.visit.at } };

    ghost invariant = { λ a. (length a.held.items ≡ length a.lines.items) × IsVisiting a.visit a.lines.items };
}

// The generation under which the agent holds the queue at which it is, or else the next queue that it holds.
// None where it holds none of the round's other queues.
fn next_held(assigned: &Assigned, held: &mut Vec<Option<u64>>, visit: &mut Visit) -> Option<u64>
    ensures same { length held.new.items ≡ length held.old.items }
    ensures held { IfSome result (λ generation. slice_get held.new.items visit.new.at ≡ Some (Some generation)) }
    ensures visiting { (lines : List LineView) → IsVisiting visit.old lines → IsVisiting visit.new lines }
    ensures none { IfNone result ((at : ℕ) → at < length held.new.items → visit.old.at ≤ at → slice_get held.new.items at ≡ Some None) }
{
    for at in visit.at..held.len() {
        let generation = assigned.generation(at);
        held[at] = generation;
        if generation.is_some() {
            if at != visit.at {
                visit.arrive(at);
            }
            return generation;
        }
    }
    None
}

// The same among the queues that the round is for.
fn next_hinted(assigned: &Assigned, held: &mut Vec<Option<u64>>, visit: &mut Visit) -> Option<u64>
    ensures same { length held.new.items ≡ length held.old.items }
    ensures held { IfSome result (λ generation. slice_get held.new.items visit.new.at ≡ Some (Some generation)) }
    ensures visiting { (lines : List LineView) → IsVisiting visit.old lines → IsVisiting visit.new lines }
{
    for at in visit.at..held.len() {
        if !is_among(&visit.hinted, at) {
            continue;
        }
        let generation = assigned.generation(at);
        held[at] = generation;
        if generation.is_some() {
            if at != visit.at {
                visit.arrive(at);
            }
            return generation;
        }
    }
    None
}

// Whether each queue that it holds was pulled since its mark.
fn all_pulled<G: Gate, H: QueueHistory>(lines: &Vec<Line<G, H>>, held: &Vec<Option<u64>>) -> bool
    requires { length held.now.items ≡ length lines.now.items }
    ensures { result ≡ true → OnesPulled lines.now.items held.now.items }
{
    for at in 0..lines.len() {
        if !is_pulled(&lines[at], held[at]) {
            return false;
        }
    }
    true
}

// Whether a queue was pulled since its mark, where it is held.
fn is_pulled<G: Gate, H: QueueHistory>(line: &Line<G, H>, held: Option<u64>) -> bool
    ensures { result ≡ true → (generation : ℕ) → held ≡ Some generation → HasPulled line.now }
{
    match held {
        None => true,
        Some(_) => line.has_pulled(),
    }
}

impl<G: Gate, H: QueueHistory> Agent<G, H> {
    /// An agent that has done nothing yet, with a line for each queue.
    ///
    /// # Errors
    /// The call failed to allocate. The lines are handed back.
    pub(crate) fn new(
        alloc: Global,
        silo: u8,
        doorbell: Arc<Doorbell, Global>,
        assigned: Arc<Assigned, Global>,
        lines: Vec<Line<G, H>>,
    ) -> Result<Agent<G, H>, Vec<Line<G, H>>>
        ensures made { IfOk result (λ agent. agent ≡ record { lines = lines.items; held = replicate (length lines.items) None; at = agent.at }) }
        ensures back { IfErr result (λ back. back ≡ lines) }
    {
        let queues = lines.len();
        let Ok(held) = vec![in alloc; None; queues] else {
            return Err(lines);
        };
        Ok(Agent {
            silo,
            doorbell,
            assigned,
            lines,
            held,
            visit: Visit::new(queues),
        })
    }

    /// Its lines.
    pub(crate) fn into_lines(self) -> Vec<Line<G, H>>
        ensures { result.items ≡ self.lines }
    {
        let Agent {
            silo: _,
            doorbell: _,
            assigned: _,
            lines,
            held: _,
            visit: _,
        } = self;
        lines
    }

    /// The next step, where the loop may begin so many more rounds.
    pub(crate) fn go_on<R: Wait>(&mut self, rt: &R, alloc: Global, rounds: &mut u64) -> Advance
        ensures { AgentAdvancesFrom None result (agent_of self.old rounds.old None) (agent_of self.new rounds.new (over_of result)) }
    {
        match next_hinted(&self.assigned, &mut self.held, &mut self.visit) {
            Some(generation) => self.take_step(rt, alloc, generation),
            None => self.end_round(rt, alloc, rounds),
        }
    }

    // The step after the last call of a round.
    fn end_round<R: Wait>(&mut self, rt: &R, alloc: Global, rounds: &mut u64) -> Advance
        ensures { (was : List (Option ℕ)) → AgentAdvancesFrom None result (agent_of (record self.old { held = was }) rounds.old None) (agent_of self.new rounds.new (over_of result)) }
    {
        if self.is_done() {
            self.rest();
            return Advance::Idle;
        }
        self.begin_round(rt, alloc, rounds)
    }

    // The first step of another round, where one may be made. Where the agent holds no queue it is idle, and no round
    // counts.
    fn begin_round<R: Wait>(&mut self, rt: &R, alloc: Global, rounds: &mut u64) -> Advance
        ensures { (was : List (Option ℕ)) → AgentAdvancesFrom None result (agent_of (record self.old { held = was }) rounds.old None) (agent_of self.new rounds.new (over_of result)) }
    {
        let first = self.begin_at(rt);
        let Some(generation) = first else {
            self.rest();
            return Advance::Idle;
        };
        if *rounds == 0 {
            return told(rt, &self.doorbell, None, Some(Over::Rounds));
        }
        *rounds -= 1;
        self.take_step(rt, alloc, generation)
    }

    // The first queue of a round: of those with a hint, where it goes by hints and holds one of them, or else of all.
    fn begin_at<R: Wait>(&mut self, rt: &R) -> Option<u64>
        ensures lines { self.new.lines ≡ self.old.lines }
        ensures held { IfSome result (λ generation. slice_get self.new.held self.new.at ≡ Some (Some generation)) }
        ensures none { IfNone result (OnesPulled self.new.lines self.new.held) }
    {
        match self.begin_hinted() {
            Some(generation) => Some(generation),
            None => self.begin_all(rt),
        }
    }

    // The first queue of a round at those with a hint, where it goes by hints and holds one of them.
    fn begin_hinted(&mut self) -> Option<u64>
        ensures lines { self.new.lines ≡ self.old.lines }
        ensures held { IfSome result (λ generation. slice_get self.new.held self.new.at ≡ Some (Some generation)) }
    {
        self.visit.begin();
        if !self.visit.by_hints {
            return None;
        }
        let hinted = self.doorbell.watch_for_agent(self.silo)?;
        self.visit.hinted = Some(hinted);
        next_hinted(&self.assigned, &mut self.held, &mut self.visit)
    }

    // The first queue of a round over all queues.
    fn begin_all<R: Wait>(&mut self, rt: &R) -> Option<u64>
        ensures lines { self.new.lines ≡ self.old.lines }
        ensures held { IfSome result (λ generation. slice_get self.new.held self.new.at ≡ Some (Some generation)) }
        ensures none { IfNone result (OnesPulled self.new.lines self.new.held) }
    {
        self.visit.begin();
        self.visit.hinted = None;
        self.visit.seen = count_at(rt, self.doorbell.agent(self.silo));
        next_held(&self.assigned, &mut self.held, &mut self.visit)
    }

    // Whether the round was over all queues and changed nothing.
    fn is_done(&self) -> bool
        ensures { result ≡ true → OnesPulled self.now.lines self.now.held }
    {
        if self.visit.changed || self.visit.hinted.is_some() {
            return false;
        }
        all_pulled(&self.lines, &self.held)
    }

    // Each line begins anew, and the next step begins a round.
    fn rest(&mut self)
        ensures { self.new ≡ record self.old { lines = map rested self.old.lines } }
    {
        rest_all(&mut self.lines);
        self.visit.changed = true;
    }

    // The next call at the queue at which the agent is, which may have begun a round.
    fn take_step<R: Wait>(&mut self, rt: &R, alloc: Global, generation: u64) -> Advance
        requires { slice_get self.old.held self.old.at ≡ Some (Some generation) }
        ensures { (was : List (Option ℕ)) (rounds counted : ℕ) → (counted ≡ rounds) ⊎ (counted + 1 ≡ rounds) → AgentAdvancesFrom None result (agent_of (record self.old { held = was }) rounds None) (agent_of self.new counted (over_of result)) }
    {
        self.keep_here(rt);
        let at = self.visit.at;
        let over = self.ask(rt, alloc, generation);
        told(rt, &self.doorbell, Some(at), over)
    }

    // The next call, at the queue at which it is.
    fn ask<R: Wait>(&mut self, rt: &R, alloc: Global, generation: u64) -> Option<Over>
        requires { slice_get self.old.held self.old.at ≡ Some (Some generation) }
        ensures { (was : List (Option ℕ)) (rounds counted : ℕ) → AgentCalls (agent_of (record self.old { held = was }) rounds None) (agent_of self.new counted result) }
    {
        let at = self.visit.at;
        let mut nil = Vec::new(alloc);
        let op = self.visit.op(generation);
        let answer = hear_at(rt, alloc, &self.doorbell, &mut self.lines, at, op, &mut nil);
        self.visit.after(&answer)
    }

    // Keeps its turn at the queue at which it is, where it is to keep one. A turn at another queue is given up before, so
    // that it waits for no turn with another one in hand.
    fn keep_here<R: Wait>(&mut self, rt: &R)
        ensures { self.new ≡ self.old }
    {
        if self.visit.keeps && self.visit.kept != Some(self.visit.at) {
            self.leave_kept(rt);
            self.keep_turn();
        }
    }

    // Keeps its turn at the queue at which it is.
    fn keep_turn(&mut self)
        ensures { self.new ≡ self.old }
    {
        let at = self.visit.at;
        keep_at(&mut self.lines, at);
        self.visit.kept = Some(at);
    }

    // Gives up the turn that it may have.
    fn leave_kept<R: Wait>(&mut self, rt: &R)
        ensures { self.new ≡ self.old }
    {
        if let Some(at) = self.visit.kept.take() {
            leave_at(rt, &self.doorbell, &mut self.lines, at);
        }
    }

    /// Keeps its turn from the next call on.
    pub(crate) fn keep(&mut self)
        ensures { self.new ≡ self.old }
    {
        self.visit.keeps = true;
    }

    /// Whether the next call is one at the queue whose turn it keeps.
    pub(crate) fn stays(&self) -> bool {
        self.visit.kept == Some(self.visit.at)
    }

    /// Gives up the turn that it may have, and keeps none from now on.
    pub(crate) fn leave<R: Wait>(&mut self, rt: &R)
        ensures { self.new ≡ self.old }
    {
        self.leave_kept(rt);
        self.visit.keeps = false;
    }

    /// Goes by hints from now on.
    pub(crate) fn go_by_hints(&mut self)
        ensures { self.new ≡ self.old }
    {
        self.visit.by_hints = true;
    }

    /// Waits at the doorbell until there may be more, or `stop` is set.
    pub(crate) fn wait<R: Wait>(&self, rt: &R, stop: &AtomicBool) {
        wait_at(rt, self.doorbell.agent(self.silo), self.visit.seen, stop);
    }
}
