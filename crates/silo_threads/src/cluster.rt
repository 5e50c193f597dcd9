//! A cluster whose silos are threads, or parked.
ghost use Rattle.std.specs.Prelude.{◌≡◌, ◌<◌, length, true, false, Contains, IfOk};
ghost use Rattle.stream_ident.specs.declared.limits.TheConstants.{MOST_SILOS};
ghost use Rattle.std.specs.List.{AllByRecursion};
ghost use Rattle.turnstile.specs.Recorded.{recorded};
ghost use Rattle.silo_loops.specs.Silos.{IsSiloAt};
ghost use Rattle.silo_loops.specs.Lines.{places};
ghost use Rattle.queue_callers.specs.Calls.{CallerCalls, CallerSplits};
ghost use Rattle.queue_callers.specs.Gathering.{AreAt};
ghost use Rattle.silo_threads.specs.Clusters.{AnswersDown, AnswersRetire, AnswersUp, HasFinished, HasFinishedParked, IsConfig, IsHaltedWith, IsNew, IsNewParked, RunsOn, is_fixed};

use crate::changes::{bring_up, leave, make_all, note_ends, start_all, stop_all, take_all_back};
use crate::config::Config;
use crate::opening::open;
use queue_callers::{Caller, Finished, LoopEnds, finish};
use shared_partition::{DirectoryHistory, Gate, QueueHistory};
use silo_loops::{RunningSilo, SiloLoops};
use silo_operators::{Halt, Operator};
use std::alloc::{AllocError, Global};
use std::marker::Model;
use std::sync::{Arc, Wait};
use std::thread::Threads;
use stream_model::{Op, Reply};
use turnstile::{Recorded, Refusal};

/// What became of a silo that was to come.
#[derive(Clone, Copy, Debug, PartialEq, Eq)]
pub enum SiloUp {
    /// It lives, its loops run, and the queues are spread over all silos that live.
    Up,
    /// It lived already. Nothing was done.
    Already,
    /// A Move was answered `Spent`, or a history is full. What was answered by then stands, and the cluster's silos
    /// don't change any more.
    Limit,
    /// The cluster's silos don't change any more. Nothing was done.
    Halted,
}

/// What became of a silo that was to go.
#[derive(Clone, Copy, Debug, PartialEq, Eq)]
pub enum SiloDown {
    /// It lives no more: its loops came back, its grains are deactivated, and the queues are spread over the silos
    /// that live.
    Down,
    /// It didn't live. Nothing was done.
    NotLive,
    /// No other silo lives. Nothing was done.
    LastSilo,
    /// A Move was answered `Spent`, or a history is full. The loops of the silo came back, what was answered by then
    /// stands, and the cluster's silos don't change any more.
    Limit,
    /// The cluster's silos don't change any more. Nothing was done.
    Halted,
}

/// What became of a silo whose loops were given back to a parked cluster.
#[derive(Drop)]
pub enum Retired<G: Gate, H: QueueHistory, D: DirectoryHistory> {
    /// It lives no more: its grains are deactivated, and the queues are spread over the silos that live.
    Down,
    /// No other silo lives. Nothing was done.
    LastSilo {
        /// The loops as they were given.
        loops: SiloLoops<G, H, D>,
    },
    /// A Move was answered `Spent`, or a history is full. What was answered by then stands, the loops came back, and
    /// the cluster's silos don't change any more.
    Limit,
    /// The cluster's silos don't change any more. Nothing was done.
    Halted {
        /// The loops as they were given.
        loops: SiloLoops<G, H, D>,
    },
}

/// How a cluster has ended, and the loops of its silos as they came back. These are for proofs alone, which learn by
/// them what each loop has done and why it has ended; they take one byte.
#[derive(Drop)]
pub struct Ended<G: Gate, H: QueueHistory, D: DirectoryHistory> {
    /// How the cluster has ended.
    pub finished: Finished<H>,
    /// The loops of the silos that lived, in the order of the silos.
    pub loops: Recorded<SiloLoops<G, H, D>>,
}

// How a change of silos that was broken off is answered, by what is answered where a limit was met.
fn halted_with<T: Drop>(halt: Halt, limit: T) -> Result<T, AllocError>
    ensures { IsHaltedWith halt limit result }
{
    match halt {
        Halt::Limit => Ok(limit),
        Halt::Memory => Err(AllocError),
    }
}

/// A cluster whose silos are threads, or a parked one.
///
/// A parked cluster starts no thread. Whoever made it has the loops of its silos, advances them by hand in any order,
/// and gives them back: those of one silo to [`retire`](Cluster::retire), and all that are left to
/// [`finish_parked`](Cluster::finish_parked). So a silo can be stopped between any two of its steps. No silo comes to
/// a parked cluster or goes from it otherwise: [`silo_up`](Cluster::silo_up) and [`silo_down`](Cluster::silo_down)
/// answer `Halted`.
///
/// A contract sees what its operator holds, the loops of its silos as they were started, how those have ended that
/// came back, whether the loops were given to whoever made it, whether a change of silos was broken off, how many
/// rounds each loop may begin, and how often a drain looks at the queues.
pub struct Cluster<G: Gate, H: QueueHistory, D: DirectoryHistory> {
    operator: Operator<G, H, D>,
    silos: Vec<RunningSilo<G, H, D>>,
    // how the loops of silos that went have ended
    ends: LoopEnds,
    // whether whoever made the cluster has the loops of its silos
    parked: bool,
    // whether a change of silos was broken off
    halted: bool,
    // how many rounds each loop may begin
    rounds: u64,
    // how often a drain looks at the queues before it gives up
    looks: u32,
}

impl<G: Gate + Drop, H: QueueHistory + Drop, D: DirectoryHistory + Drop> Drop for Cluster<G, H, D> {
    fn drop(self) {
        let Self {
            operator: _,
            silos: _,
            ends: _,
            parked: _,
            halted: _,
            rounds: _,
            looks: _,
        } = self;
    }
}

impl<G: Gate, H: QueueHistory, D: DirectoryHistory> Model for Cluster<G, H, D> {
    ghost use Rattle.silo_threads.specs.Clusters.{ClusterView, IsCluster};

    ghost Value = { ClusterView };

    ghost view = { λ c. record { operator = c.operator; silos = c.silos.items; ends = c.ends; is_parked = c.parked; is_halted = c.halted; rounds = c.rounds; looks = c.looks } };

    ghost invariant = { λ c. IsCluster (record { operator = c.operator; silos = c.silos.items; ends = c.ends; is_parked = c.parked; is_halted = c.halted; rounds = c.rounds; looks = c.looks }) };
}

impl<
    G: Gate + 'static,
    H: QueueHistory + Send + 'static,
    D: DirectoryHistory + Send + 'static,
> Cluster<G, H, D> {
    /// A cluster and its first caller. The silos are numbered from 0 on, and their loops run; the queues are spread
    /// over them, from silo 0 on which all are at first. Those that stay there are moved nowhere.
    ///
    /// # Errors
    /// The call failed to allocate, or a thread can't be made. Loops that ran by then were stopped.
    pub fn new<R: Threads + Wait + Copy + Send + 'static>(
        rt: &R,
        alloc: Global,
        config: &Config,
        gate: Arc<G, Global>,
    ) -> Result<(Cluster<G, H, D>, Caller<G, H>), AllocError>
        requires { IsConfig config.now }
        ensures { IfOk result (λ made. IsNew config.now made.0 made.1) }
    {
        let (mut operator, caller) = open(rt, alloc, config, gate)?;
        let silos = start_all(rt, alloc, &mut operator, config.silos, config.rounds)?;
        let cluster = Cluster {
            operator,
            silos,
            ends: LoopEnds::default(),
            parked: false,
            halted: false,
            rounds: config.rounds,
            looks: config.looks,
        };
        Ok((cluster, caller))
    }

    /// Starts the loops of a silo, with passes that are split off from the cluster's own, and spreads the queues over
    /// all silos that live. Each queue that has another silo then was moved there last, and no other was moved. No pass
    /// was joined to the cluster's own.
    ///
    /// # Errors
    /// The call failed to allocate, or a thread can't be made. What was answered by then stands, and the
    /// cluster's silos don't change any more.
    ///
    /// Where not all of the silo's threads could be made, one of them may have stopped with a turn in hand, and a drain
    /// of its queue gives up.
    pub fn silo_up<R: Threads + Wait + Copy + Send + 'static>(
        &mut self,
        rt: &R,
        alloc: Global,
        silo: u8,
    ) -> Result<SiloUp, AllocError>
        requires { silo < MOST_SILOS }
        ensures { AnswersUp self.old silo result self.new }
    {
        if self.parked || self.halted {
            return Ok(SiloUp::Halted);
        }
        match self.operator.place_of(silo) {
            Some(_) => return Ok(SiloUp::Already),
            None => {}
        }
        match bring_up(
            rt,
            alloc,
            &mut self.operator,
            &mut self.silos,
            silo,
            self.rounds,
        ) {
            Ok(()) => Ok(SiloUp::Up),
            Err(halt) => {
                self.halted = true;
                halted_with(halt, SiloUp::Limit)
            }
        }
    }
}

impl<G: Gate, H: QueueHistory, D: DirectoryHistory> Cluster<G, H, D> {
    /// One call of a caller of this cluster at a queue. It is [`Caller::call`], which a thread that has the caller and not
    /// the cluster uses.
    ///
    /// # Errors
    /// They are those of [`Caller::call`].
    pub fn call<R: Wait>(
        &self,
        rt: &R,
        alloc: Global,
        caller: &mut Caller<G, H>,
        queue: usize,
        op: Op,
    ) -> Result<Reply, Refusal>
        requires at { AreAt (places self.now.operator.lines) caller.old }
        requires queue { queue < length caller.old }
        ensures calls { CallerCalls caller.old queue op result caller.new }
        ensures at { AreAt (places self.now.operator.lines) caller.new }
    {
        caller.call(rt, alloc, queue, op)
    }

    /// Another caller of this cluster, split off one that there is. It is [`Caller::split`], which a thread that has the
    /// caller and not the cluster uses.
    ///
    /// # Errors
    /// They are those of [`Caller::split`].
    pub fn split(
        &self,
        alloc: Global,
        caller: &mut Caller<G, H>,
    ) -> Result<Caller<G, H>, AllocError>
        requires { AreAt (places self.now.operator.lines) caller.old }
        ensures splits { CallerSplits caller.old result caller.new }
        ensures at { AreAt (places self.now.operator.lines) caller.new }
        ensures new { IfOk result (AreAt (places self.now.operator.lines)) }
    {
        caller.split(alloc)
    }

    /// How often a drain looks at the queues before it gives up.
    pub fn looks(&self) -> u32
        ensures { result ≡ self.now.looks }
    {
        self.looks
    }

    /// Whether its silos don't change any more by [`silo_up`](Cluster::silo_up) and
    /// [`silo_down`](Cluster::silo_down): it is parked, or a change of silos was broken off.
    pub fn is_fixed(&self) -> bool
        ensures { result ≡ is_fixed self.now }
    {
        self.parked || self.halted
    }

    /// Stops the loops of a silo and waits until they came back, deactivates the grains that the directory has on
    /// it, and spreads the queues over the silos that live. Each queue that has another silo then was moved there last.
    ///
    /// # Errors
    /// The call failed to allocate. The loops of the silo came back, what was answered by then stands, no pass is
    /// lost, and the cluster's silos don't change any more.
    ///
    /// After this and after `Limit` a queue of the silo may have no agent, and a drain of it gives up.
    pub fn silo_down<R: Threads + Wait>(
        &mut self,
        rt: &R,
        alloc: Global,
        silo: u8,
    ) -> Result<SiloDown, AllocError>
        requires { silo < MOST_SILOS }
        ensures { AnswersDown self.old silo result self.new }
    {
        if self.parked || self.halted {
            return Ok(SiloDown::Halted);
        }
        let Some(place) = self.operator.place_of(silo) else {
            return Ok(SiloDown::NotLive);
        };
        if self.operator.live_count() == 1 {
            return Ok(SiloDown::LastSilo);
        }
        let running = self.silos.remove(place);
        let loops = running.stop(rt, self.operator.doorbell());
        self.ends = note_ends(self.ends, &loops);
        match leave(rt, alloc, &mut self.operator, place, loops) {
            Ok(()) => Ok(SiloDown::Down),
            Err(halt) => {
                self.halted = true;
                // A queue of the silo may have no agent now: whoever waits until all is quiet is told.
                self.operator.doorbell().end(rt);
                halted_with(halt, SiloDown::Limit)
            }
        }
    }

    /// Stops the loops of all silos and waits until they came back, takes in the callers' passes, asks each queue
    /// whether it is quiet, closes the turnstiles, and writes the report.
    ///
    /// Where several answers could be given, it is `InUse`, else `NotAll`, `Limit`, `RoundLimit`, `NotQuiet`, and
    /// `Report` where none of these could be.
    ///
    /// # Errors
    /// The call failed to allocate, or a loop failed to before. All loops have come back then, and nothing is handed
    /// back.
    pub fn finish<R: Threads + Wait>(
        self,
        rt: &R,
        alloc: Global,
        callers: Vec<Caller<G, H>>,
    ) -> Result<Ended<G, H, D>, AllocError>
        requires { AllByRecursion (AreAt (places self.operator.lines)) callers.items }
        ensures { IfOk result (λ ended. HasFinished H.entries self callers.items (recorded ended.loops) ended.finished) }
    {
        let Cluster {
            mut operator,
            silos,
            ends,
            parked: _,
            halted: _,
            rounds: _,
            looks: _,
        } = self;
        let (ends, loops) = stop_all(rt, &mut operator, silos, ends);
        let (doorbell, lines) = operator.into_lines();
        let finished = finish(rt, alloc, doorbell, lines, callers, ends)?;
        Ok(Ended { finished, loops })
    }

    /// A parked cluster, its first caller, and the loops of its silos, which have done nothing yet. The silos are
    /// numbered from 0 on, and the loops are in their order; the queues are spread over the silos, from silo 0 on which
    /// all are at first. Those that stay there are moved nowhere.
    ///
    /// # Errors
    /// The call failed to allocate.
    pub fn parked<R: Wait>(
        rt: &R,
        alloc: Global,
        config: &Config,
        gate: Arc<G, Global>,
    ) -> Result<(Cluster<G, H, D>, Caller<G, H>, Vec<SiloLoops<G, H, D>>), AllocError>
        requires { IsConfig config.now }
        ensures { IfOk result (λ made. IsNewParked config.now made.0 made.1 made.2.items) }
    {
        let (mut operator, caller) = open(rt, alloc, config, gate)?;
        let loops = make_all(alloc, &mut operator, config.silos, config.rounds)?;
        let cluster = Cluster {
            operator,
            silos: Vec::new(alloc),
            ends: LoopEnds::default(),
            parked: true,
            halted: false,
            rounds: config.rounds,
            looks: config.looks,
        };
        Ok((cluster, caller, loops))
    }

    /// Takes back the loops of a silo of a parked cluster, deactivates the grains that the directory has on it, and
    /// spreads the queues over the silos that are left. Each queue that has another silo then was moved there last.
    ///
    /// Where the cluster's silos don't change any more, or no other silo lives, the loops are handed out again.
    ///
    /// # Errors
    /// The call failed to allocate. What was answered by then stands, the loops came back, and the cluster's silos
    /// don't change any more.
    pub fn retire<R: Wait>(
        &mut self,
        rt: &R,
        alloc: Global,
        loops: SiloLoops<G, H, D>,
    ) -> Result<Retired<G, H, D>, AllocError>
        requires parked { self.old.is_parked ≡ true }
        requires at { IsSiloAt self.old.operator.lines self.old.operator.directory loops }
        requires live { self.old.is_halted ≡ false → Contains self.old.operator.live loops.silo }
        ensures { AnswersRetire self.old loops result self.new }
    {
        if self.halted {
            return Ok(Retired::Halted { loops });
        }
        if self.operator.live_count() == 1 {
            return Ok(Retired::LastSilo { loops });
        }
        let Some(place) = self.operator.place_of(loops.silo) else {
            unreachable!()
        };
        self.ends = note_ends(self.ends, &loops);
        match leave(rt, alloc, &mut self.operator, place, loops) {
            Ok(()) => Ok(Retired::Down),
            Err(halt) => {
                self.halted = true;
                halted_with(halt, Retired::Limit)
            }
        }
    }

    /// Takes back the loops of a parked cluster, and ends it as [`finish`](Cluster::finish) does. Where loops of its
    /// silos are neither given here nor were given before, their passes are missing.
    ///
    /// # Errors
    /// The call failed to allocate, or a loop failed to before. Nothing is handed back.
    pub fn finish_parked<R: Wait>(
        self,
        rt: &R,
        alloc: Global,
        callers: Vec<Caller<G, H>>,
        loops: Vec<SiloLoops<G, H, D>>,
    ) -> Result<Finished<H>, AllocError>
        requires parked { self.is_parked ≡ true }
        requires callers { AllByRecursion (AreAt (places self.operator.lines)) callers.items }
        requires loops { RunsOn self.operator loops.items }
        ensures { IfOk result (HasFinishedParked H.entries self loops.items callers.items) }
    {
        let Cluster {
            mut operator,
            silos: _silos,
            ends,
            parked: _,
            halted: _,
            rounds: _,
            looks: _,
        } = self;
        let ends = take_all_back(&mut operator, loops, ends);
        let (doorbell, lines) = operator.into_lines();
        finish(rt, alloc, doorbell, lines, callers, ends)
    }
}
