//! A worker, each of whose steps is one call or one piece of work.
ghost use Rattle.std.specs.Prelude.{◌≡◌, ℕ, ◌<◌, ◌≤◌, true, length, map, All, None};
ghost use Rattle.silo_loops.specs.Answers.{advance_of, over_of};
ghost use Rattle.silo_loops.specs.Lines.{HasLooked, rested};
ghost use Rattle.silo_loops.specs.Walks.{IsFree};
ghost use Rattle.silo_loops.specs.Workers.{WorkerAdvancesFrom, WorkerAsks, WorkerCalls, WorkerGoesOn, WorkerLooks, WorkerWorks, worker_of};
ghost use Rattle.silo_loops.specs.declared.worker_walk.Step.TheVariants as step;

use crate::advance::{Advance, told};
use crate::directory_line::DirectoryLine;
use crate::heard::Heard;
use crate::line::{Line, hear_at, keep_at, leave_at, rest_all};
use crate::worker::TurnRoom;
use crate::worker_walk::{Step, Turn, Walk, end_of_asking};
use activation_directory::DirectoryOp;
use doorbells::{Doorbell, Over, count_at, wait_at};
use shared_partition::{DirectoryHistory, Gate, QueueHistory};
use std::alloc::Global;
use std::marker::Model;
use std::sync::atomic::AtomicBool;
use std::sync::{Arc, Wait};
use stream_ident::{Event, GrainId, SubName, TURN_EVENTS, Token};
use stream_model::Op;

/// A worker of a silo: its passes, where it is and what it does next, and the events of the turn in hand.
pub(crate) struct Worker<G: Gate, H: QueueHistory, D: DirectoryHistory> {
    silo: u8,
    gate: Arc<G, Global>,
    doorbell: Arc<Doorbell, Global>,
    lines: Vec<Line<G, H>>,
    directory: DirectoryLine<D>,
    walk: Walk,
    events: Vec<Event>,
}

impl<G: Gate + Drop, H: QueueHistory + Drop, D: DirectoryHistory + Drop> Drop for Worker<G, H, D> {
    fn drop(self) {
        let Self {
            silo: _,
            gate: _,
            doorbell: _,
            lines: _,
            directory: _,
            walk: _,
            events: _,
        } = self;
    }
}

impl<G: Gate, H: QueueHistory, D: DirectoryHistory> Model for Worker<G, H, D> {
    ghost use Rattle.stream_ident.specs.declared.limits.TheConstants.{TURN_EVENTS};
    ghost use Rattle.std.specs.Prelude.{◌≤◌, vec_capacity};
    ghost use Rattle.silo_loops.specs.Walks.{IsAt, WorkerState};

    ghost Value = { WorkerState };

    ghost view = { λ w. record { silo = w.silo; lines = w.lines.items; directory = w.directory; at = w.walk.at; step = w.walk.step; events = w.events.items } };

    ghost invariant = { λ w. IsAt w.walk.at w.walk.step w.lines.items w.directory × (TURN_EVENTS ≤ vec_capacity w.events) };
}

// Whether each line has asked for a ready grain past its mark.
fn all_looked<G: Gate, H: QueueHistory>(lines: &Vec<Line<G, H>>) -> bool
    ensures { result ≡ true → All HasLooked lines.now.items }
{
    for line in lines {
        if !line.has_looked() {
            return false;
        }
    }
    true
}

impl<G: Gate, H: QueueHistory, D: DirectoryHistory> Worker<G, H, D> {
    /// A worker that has done nothing yet, with a line for each queue.
    pub(crate) fn new(
        silo: u8,
        gate: Arc<G, Global>,
        doorbell: Arc<Doorbell, Global>,
        lines: Vec<Line<G, H>>,
        directory: DirectoryLine<D>,
        room: TurnRoom,
    ) -> Worker<G, H, D>
        requires { 0 < length lines.items }
        ensures { result ≡ record { silo = silo; lines = lines.items; directory = directory; at = 0; step = step.Rest; events = result.events } }
    {
        Worker {
            silo,
            gate,
            doorbell,
            lines,
            directory,
            walk: Walk::new(),
            events: room.into_events(),
        }
    }

    /// Its lines, and its pass at the directory.
    pub(crate) fn into_parts(self) -> (Vec<Line<G, H>>, DirectoryLine<D>)
        ensures lines { result.0.items ≡ self.lines }
        ensures directory { result.1 ≡ self.directory }
    {
        let Worker {
            silo: _,
            gate: _,
            doorbell: _,
            lines,
            directory,
            walk: _,
            events: _,
        } = self;
        (lines, directory)
    }

    /// The next step, where the loop may begin so many more rounds.
    pub(crate) fn go_on<R: Wait>(&mut self, rt: &R, alloc: Global, rounds: &mut u64) -> Advance
        ensures { WorkerAdvancesFrom G.follows None result (worker_of self.old rounds.old None) (worker_of self.new rounds.new (over_of result)) }
    {
        match self.walk.step {
            Step::Rest => self.begin_round(rt, alloc, rounds),
            _ => {
                let queue = self.walk.queue();
                let over = self.step(rt, alloc);
                told(rt, &self.doorbell, queue, over)
            }
        }
    }

    // The first step after a round: it begins another, where the last one found something to do or wasn't for all
    // queues, or where there is a hint. Else it answers that the round found nothing to do, and each line begins anew.
    fn begin_round<R: Wait>(&mut self, rt: &R, alloc: Global, rounds: &mut u64) -> Advance
        requires { self.old.step ≡ step.Rest }
        ensures { WorkerAdvancesFrom G.follows None result (worker_of self.old rounds.old None) (worker_of self.new rounds.new (over_of result)) }
    {
        if self.is_done() {
            self.rest();
            return Advance::Idle;
        }
        if *rounds == 0 {
            return told(rt, &self.doorbell, None, Some(Over::Rounds));
        }
        *rounds -= 1;
        self.begin_at(rt);
        let queue = self.walk.queue();
        let over = self.look(rt, alloc);
        told(rt, &self.doorbell, queue, over)
    }

    // Whether a round over all queues found nothing to do, and there is no hint.
    fn is_done(&self) -> bool
        ensures { result ≡ true → All HasLooked self.now.lines }
    {
        let is_told = self.walk.by_hints && self.doorbell.has_work(self.silo);
        !self.walk.changed && !is_told && self.walk.hinted.is_none() && all_looked(&self.lines)
    }

    // Each line begins anew, and the next step begins a round.
    fn rest(&mut self)
        ensures { self.new ≡ record self.old { lines = map rested self.old.lines } }
    {
        rest_all(&mut self.lines);
        self.walk.changed = true;
    }

    // At the first queue of a round: of those with a hint, where it goes by hints and there are some, or else of all.
    fn begin_at<R: Wait>(&mut self, rt: &R)
        requires { IsFree self.old.step }
        ensures { self.new ≡ record self.old { at = self.new.at } }
    {
        let queues = self.lines.len();
        if self.walk.by_hints
            && let Some(hinted) = self.doorbell.watch_for_workers(self.silo)
        {
            self.walk.begin(queues, Some(hinted));
        } else {
            self.walk.seen = count_at(rt, self.doorbell.workers(self.silo));
            self.walk.begin(queues, None);
        }
    }

    // The next call of the round, or the next piece of work in hand.
    fn step<R: Wait>(&mut self, rt: &R, alloc: Global) -> Option<Over>
        ensures { (rounds counted : ℕ) → WorkerGoesOn G.follows (advance_of result) (worker_of self.old rounds None) (worker_of self.new counted result) }
    {
        let step = self.walk.step;
        match &step {
            Step::Rest | Step::Look => self.look(rt, alloc),
            Step::Enter(grain) => self.enter(rt, alloc, grain),
            Step::Begin(grain, permit) => self.begin(rt, alloc, grain, *permit),
            Step::Handle(grain, permit, turn) => {
                if turn.next < self.events.len() {
                    self.handle(grain, *permit, turn);
                    return None;
                }
                self.commit(rt, alloc, grain, *permit, turn)
            }
            Step::Tell(grain, permit, sub, token) => {
                self.tell(grain, *permit, sub, *token);
                None
            }
            Step::Again(grain, permit) => self.again(rt, alloc, grain, *permit),
            Step::Leave(grain, permit) => self.leave(rt, alloc, grain, *permit),
        }
    }

    // Asks the queue for a ready grain.
    fn look<R: Wait>(&mut self, rt: &R, alloc: Global) -> Option<Over>
        requires { IsFree self.old.step }
        ensures { (rounds counted : ℕ) → WorkerLooks (worker_of self.old rounds None) (worker_of self.new counted result) }
    {
        let at = self.walk.at;
        let op = Op::Ready {
            after: self.walk.last,
        };
        self.doorbell.hint_workers(self.silo, at, false);
        let answer = hear_at(
            rt,
            alloc,
            &self.doorbell,
            &mut self.lines,
            at,
            op,
            &mut self.events,
        );
        self.walk.after_look(self.lines.len(), &answer);
        self.doorbell.looked(self.silo, at, self.walk.has_found());
        answer.end()
    }

    // Asks the directory for the permit of a grain.
    fn enter<R: Wait>(&mut self, rt: &R, alloc: Global, grain: &GrainId) -> Option<Over>
        requires { self.old.step ≡ step.Enter grain.now }
        ensures { (rounds counted : ℕ) → WorkerAsks (worker_of self.old rounds None) (worker_of self.new counted result) }
    {
        let op = DirectoryOp::Enter {
            grain: *grain,
            silo: self.silo,
        };
        let answer = self.directory.call(rt, alloc, &self.doorbell, op);
        self.doorbell
            .hear_entering(rt, self.silo, self.walk.at, &answer);
        self.walk.after_enter(grain, &answer);
        end_of_asking(&answer)
    }

    // Begins a turn of the grain whose permit the worker has.
    fn begin<R: Wait>(
        &mut self,
        rt: &R,
        alloc: Global,
        grain: &GrainId,
        permit: u64,
    ) -> Option<Over>
        requires { self.old.step ≡ step.Begin grain.now permit }
        ensures { (rounds counted : ℕ) → WorkerCalls (worker_of self.old rounds None) (worker_of self.new counted result) }
    {
        let op = Op::Begin {
            grain: *grain,
            max: TURN_EVENTS as u32,
        };
        let answer = hear_at(
            rt,
            alloc,
            &self.doorbell,
            &mut self.lines,
            self.walk.at,
            op,
            &mut self.events,
        );
        if let Heard::Turn { .. } = answer {
            self.doorbell.begin_handling(self.silo);
        }
        self.walk.after_begin(grain, permit, &answer);
        answer.end()
    }

    // Commits the turn, all of whose events were handled.
    fn commit<R: Wait>(
        &mut self,
        rt: &R,
        alloc: Global,
        grain: &GrainId,
        permit: u64,
        turn: &Turn,
    ) -> Option<Over>
        requires step { self.old.step ≡ step.Handle grain.now permit turn.now }
        requires handled { length self.old.events ≤ turn.now.next }
        ensures { (rounds counted : ℕ) → WorkerCalls (worker_of self.old rounds None) (worker_of self.new counted result) }
    {
        self.doorbell.end_handling(self.silo);
        let op = Op::Commit {
            grain: *grain,
            activation: turn.activation,
            turn: turn.number,
            note: turn.note,
        };
        let answer = hear_at(
            rt,
            alloc,
            &self.doorbell,
            &mut self.lines,
            self.walk.at,
            op,
            &mut self.events,
        );
        self.walk.after_commit(grain, permit, &answer);
        answer.end()
    }

    // Gives the permit back.
    fn leave<R: Wait>(
        &mut self,
        rt: &R,
        alloc: Global,
        grain: &GrainId,
        permit: u64,
    ) -> Option<Over>
        requires { self.old.step ≡ step.Leave grain.now permit }
        ensures { (rounds counted : ℕ) → WorkerAsks (worker_of self.old rounds None) (worker_of self.new counted result) }
    {
        let op = DirectoryOp::Leave {
            grain: *grain,
            permit,
        };
        let answer = self.directory.call(rt, alloc, &self.doorbell, op);
        self.doorbell.left(rt, self.silo);
        self.walk.after_leave();
        end_of_asking(&answer)
    }

    // Has the gate handle the next event of the grain's turn, with the note that the one before left.
    fn handle(&mut self, grain: &GrainId, permit: u64, turn: &Turn)
        requires next { turn.now.next < length self.old.events }
        requires step { self.old.step ≡ step.Handle grain.now permit turn.now }
        ensures { (rounds counted : ℕ) → WorkerWorks G.follows (worker_of self.old rounds None) (worker_of self.new counted None) }
    {
        let note = self
            .gate
            .handle_for(grain, &turn.sub, &self.events[turn.next], turn.note);
        let after = Turn {
            note,
            next: turn.next + 1,
            ..*turn
        };
        self.walk.step = Step::Handle(*grain, permit, after);
    }

    // Asks which grain is ready next, with the permit of one in hand.
    fn again<R: Wait>(
        &mut self,
        rt: &R,
        alloc: Global,
        grain: &GrainId,
        permit: u64,
    ) -> Option<Over>
        requires { self.old.step ≡ step.Again grain.now permit }
        ensures { (rounds counted : ℕ) → WorkerCalls (worker_of self.old rounds None) (worker_of self.new counted result) }
    {
        let op = Op::Ready {
            after: self.walk.last,
        };
        let at = self.walk.at;
        let answer = hear_at(
            rt,
            alloc,
            &self.doorbell,
            &mut self.lines,
            at,
            op,
            &mut self.events,
        );
        self.doorbell
            .looked(self.silo, at, matches!(answer, Heard::Next(_)));
        self.walk.after_again(grain, permit, &answer);
        answer.end()
    }

    // Has the gate be told of a commit, as soon as no turn is kept.
    fn tell(&mut self, grain: &GrainId, permit: u64, sub: &SubName, token: Token)
        requires { self.old.step ≡ step.Tell grain.now permit sub.now token }
        ensures { (rounds counted : ℕ) → WorkerWorks G.follows (worker_of self.old rounds None) (worker_of self.new counted None) }
    {
        self.walk.untold = Some((*sub, token));
        self.walk.step = Step::Again(*grain, permit);
    }

    /// Whether the next step isn't the handler's.
    pub(crate) fn calls(&self) -> bool {
        !self.walk.handles(self.events.len())
    }

    /// Whether the next step is one of this queue, or the handler's where no call was made before it.
    pub(crate) fn stays(&self, at: usize, called: bool) -> bool {
        if self.walk.handles(self.events.len()) {
            !called
        } else {
            self.walk.stays(at)
        }
    }

    /// Whether the next step gives a permit back and the one behind it asks for another.
    pub(crate) fn hands_on(&self) -> bool {
        self.walk.hands_on()
    }

    /// Goes by hints from now on.
    pub(crate) fn go_by_hints(&mut self)
        ensures { self.new ≡ self.old }
    {
        self.walk.by_hints = true;
    }

    /// Waits at the doorbell until there may be more, or `stop` is set.
    pub(crate) fn wait<R: Wait>(&self, rt: &R, stop: &AtomicBool) {
        wait_at(rt, self.doorbell.workers(self.silo), self.walk.seen, stop);
    }

    /// Keeps its turn at the queue at which it is from the next call there on, and answers which that is.
    pub(crate) fn keep(&mut self) -> usize
        ensures { self.new ≡ self.old }
    {
        let at = self.walk.at;
        keep_at(&mut self.lines, at);
        at
    }

    /// Keeps its turn at the directory from the next call there on.
    pub(crate) fn keep_directory(&mut self)
        ensures { self.new ≡ self.old }
    {
        self.directory.keep();
    }

    /// Gives up the turn that it may have at the directory.
    pub(crate) fn leave_directory<R: Wait>(&mut self, rt: &R)
        ensures { self.new ≡ self.old }
    {
        self.directory.leave(rt, &self.doorbell);
    }

    /// Tells the gate of the commit of which it is still to be told.
    pub(crate) fn tell_done(&mut self)
        ensures { self.new ≡ self.old }
    {
        if let Some((sub, token)) = self.walk.untold.take() {
            self.gate.done(&sub, token);
        }
    }

    /// Gives up the turns that it may have at this queue and at the directory, and tells the gate of the commit of which
    /// it is still to be told.
    pub(crate) fn end_visit<R: Wait>(&mut self, rt: &R, at: usize)
        ensures { self.new ≡ self.old }
    {
        leave_at(rt, &self.doorbell, &mut self.lines, at);
        self.directory.leave(rt, &self.doorbell);
        self.tell_done();
    }
}
