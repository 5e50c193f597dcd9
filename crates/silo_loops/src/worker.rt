//! The loop of a turn worker.
ghost use Rattle.std.specs.Prelude.{◌≡◌, ◌<◌, ◌≤◌, length, None, vec_capacity};
ghost use Rattle.stream_ident.specs.declared.limits.TheConstants.{TURN_EVENTS};
ghost use Rattle.silo_loops.specs.Chains.{Visits};
ghost use Rattle.silo_loops.specs.Walks.{Nothing};
ghost use Rattle.silo_loops.specs.Workers.{IsBeside, WorkerAdvances, WorkerHasCause, WorkerRuns};

use crate::advance::{Advance, MOST_STEPS};
use crate::directory_line::DirectoryLine;
use crate::line::Line;
use crate::worker_steps::Worker;
use doorbells::{Doorbell, Over};
use shared_partition::{DirectoryHistory, Gate, QueueHistory};
use std::alloc::{AllocError, Global};
use std::marker::Model;
use std::sync::atomic::{AtomicBool, Ordering};
use std::sync::{Arc, Wait};
use stream_ident::{Event, TURN_EVENTS};

/// Room for the events of one turn, which a worker takes with it.
#[derive(Drop)]
pub struct TurnRoom {
    events: Vec<Event>,
    ghost room: { TURN_EVENTS ≤ vec_capacity events },
}

impl TurnRoom {
    /// Room for the sixteen events that a turn may have.
    ///
    /// # Errors
    /// The call failed to allocate.
    pub fn new(alloc: Global) -> Result<TurnRoom, AllocError> {
        let events = Vec::with_capacity(alloc, TURN_EVENTS)?;
        Ok(TurnRoom { events })
    }

    /// The room, without events.
    pub fn into_events(self) -> Vec<Event>
        ensures { TURN_EVENTS ≤ vec_capacity result }
    {
        self.events
    }
}

/// The loop of a turn worker, with its passes. A round is for each queue, or for those with a hint, and there for
/// each ready grain: Ready, Enter, Begin, the gate's handler for each event, Commit, the gate's `done`, and Ready again
/// with the permit in hand. Where that names the same grain, another turn of it follows, up to 15 times; else Leave. A
/// grain whose permit another has, or that is placed on another silo, is passed over.
///
/// A contract sees its silo, its lines, its pass at the directory, what it has in hand, how many more rounds it may
/// begin, and why it has ended.
pub struct WorkerLoop<G: Gate, H: QueueHistory, D: DirectoryHistory> {
    worker: Worker<G, H, D>,
    rounds: u64,
    over: Option<Over>,
}

impl<G: Gate + Drop, H: QueueHistory + Drop, D: DirectoryHistory + Drop> Drop
    for WorkerLoop<G, H, D> {
    fn drop(self) {
        let Self {
            worker: _,
            rounds: _,
            over: _,
        } = self;
    }
}

impl<G: Gate, H: QueueHistory, D: DirectoryHistory> Model for WorkerLoop<G, H, D> {
    ghost use Rattle.silo_loops.specs.Workers.{WorkerHasCause, WorkerView, worker_of};

    ghost Value = { WorkerView };

    ghost view = { λ l. worker_of l.worker l.rounds l.over };

    ghost invariant = { λ l. WorkerHasCause (worker_of l.worker l.rounds l.over) };
}

impl<G: Gate, H: QueueHistory, D: DirectoryHistory> WorkerLoop<G, H, D> {
    /// A worker of this silo that has done nothing yet, with a line for each queue, in their order, and so many rounds
    /// that it may begin.
    pub fn new(
        silo: u8,
        gate: Arc<G, Global>,
        doorbell: Arc<Doorbell, Global>,
        lines: Vec<Line<G, H>>,
        directory: DirectoryLine<D>,
        room: TurnRoom,
        rounds: u64,
    ) -> WorkerLoop<G, H, D>
        requires { 0 < length lines.items }
        ensures { result ≡ record { silo = silo; lines = lines.items; directory = directory; work = Nothing; rounds = rounds; over = None } }
    {
        WorkerLoop {
            worker: Worker::new(silo, gate, doorbell, lines, directory, room),
            rounds,
            over: None,
        }
    }

    /// Makes the next single call of the round, or has the gate handle one event of the turn in hand, or tells
    /// it of the commit in hand; or answers that the round found nothing to do, or why the loop has ended.
    ///
    /// It begins a turn only of a grain whose permit it keeps. It commits only the turn that it began, once each event
    /// of it was handled, with the note that the handler gave last. The handler is given the grain and the subscription
    /// of that turn, its next event, and the note in hand. It makes no other call while a turn is in hand. It is idle
    /// only where it has asked each queue for a ready grain since it was made or last idle.
    pub fn advance<R: Wait>(&mut self, rt: &R, alloc: Global) -> Advance
        ensures advances { WorkerAdvances G.follows result self.old self.new }
        ensures beside { IsBeside self.old self.new }
    {
        let did = self.take_step(rt, alloc);
        self.worker.tell_done();
        did
    }

    /// Makes at most 64 steps of the round, each as [`advance`](WorkerLoop::advance) makes it: the gate handles the events
    /// of the turn in hand, and then come calls, as long as they are at the queue at which it is. It keeps its turn there
    /// from the first call on, and rings once for all of them. So it commits a turn and begins the grain's next one in one
    /// turn of its own. The gate handles events, and is told of a commit, while none is kept.
    pub fn visit<R: Wait>(&mut self, rt: &R, alloc: Global) -> Advance
        ensures steps { Visits (WorkerAdvances G.follows) result self.old self.new }
        ensures beside { IsBeside self.old self.new }
    {
        let at = self.worker.keep();
        let mut called = self.worker.calls();
        let mut did = self.take_held_step(rt, alloc);
        for _ in 1..MOST_STEPS {
            let Advance::Did = did else {
                break;
            };
            if !self.worker.stays(at, called) {
                break;
            }
            called |= self.worker.calls();
            did = self.take_held_step(rt, alloc);
        }
        self.worker.end_visit(rt, at);
        did
    }

    // The next step. It keeps its turn at the directory from a permit that it gives back to the next one. No queue is
    // called meanwhile, so whoever has the directory's turn waits for no other.
    fn take_held_step<R: Wait>(&mut self, rt: &R, alloc: Global) -> Advance
        ensures { WorkerAdvances G.follows result self.old self.new }
    {
        let hands_on = self.worker.hands_on();
        if hands_on {
            self.worker.keep_directory();
        }
        let did = self.take_step(rt, alloc);
        if !hands_on {
            self.worker.leave_directory(rt);
        }
        did
    }

    // The next step. The gate isn't told of a commit yet.
    fn take_step<R: Wait>(&mut self, rt: &R, alloc: Global) -> Advance
        ensures { WorkerAdvances G.follows result self.old self.new }
    {
        match self.over {
            Some(end) => Advance::Over(end),
            None => {
                let did = self.worker.go_on(rt, alloc, &mut self.rounds);
                self.over = did.over();
                did
            }
        }
    }

    /// How many more rounds it may begin.
    pub fn rounds(&self) -> u64
        ensures { result ≡ self.now.rounds }
    {
        self.rounds
    }

    /// Why it has ended, where it has.
    pub fn over(&self) -> Option<Over>
        ensures over { result ≡ self.now.over }
        ensures cause { WorkerHasCause self.now }
    {
        self.over
    }

    // One visit, unless it is told to stop, and a wait where it is idle. Whether it goes on.
    fn go<R: Wait>(&mut self, rt: &R, alloc: Global, stop: &AtomicBool) -> bool
        ensures { WorkerRuns G.follows self.old self.new }
    {
        if stop.load(Ordering::SeqCst) {
            return false;
        }
        match self.visit(rt, alloc) {
            Advance::Did => true,
            Advance::Idle => {
                self.worker.wait(rt, stop);
                true
            }
            Advance::Over(_) => false,
        }
    }

    /// Makes visits until `stop` is set or the loop has ended, and waits at the doorbell where a round over all queues
    /// found nothing to do. Before such a round it goes to the queues that have a hint for its silo's workers, as long as
    /// there are some. It comes back with its passes.
    pub fn run<R: Wait>(self, rt: &R, alloc: Global, stop: &AtomicBool) -> WorkerLoop<G, H, D>
        ensures { WorkerRuns G.follows self result }
    {
        let mut this = self;
        this.worker.go_by_hints();
        for _ in rt.forever() {
            if !this.go(rt, alloc, stop) {
                break;
            }
        }
        this
    }

    /// Its lines, and its pass at the directory.
    pub fn into_parts(self) -> (Vec<Line<G, H>>, DirectoryLine<D>)
        ensures lines { result.0.items ≡ self.lines }
        ensures directory { result.1 ≡ self.directory }
    {
        let WorkerLoop {
            worker,
            rounds: _,
            over: _,
        } = self;
        worker.into_parts()
    }
}
