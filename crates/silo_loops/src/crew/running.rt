//! The loops of a silo in threads.
ghost use Rattle.std.specs.Prelude.{◌≡◌, MatchResult};
ghost use Rattle.silo_loops.specs.Agents.{AgentRuns};
ghost use Rattle.silo_loops.specs.Workers.{WorkerRuns};
ghost use Rattle.silo_loops.specs.Silos.{HasRun};

use crate::crew::loops::SiloLoops;
use crate::{AgentLoop, Doorbell, WorkerLoop};
use shared_partition::{DirectoryHistory, Gate, QueueHistory};
use std::alloc::Global;
use std::marker::Model;
use std::snapshot::Snapshot;
use std::sync::atomic::{AtomicBool, Ordering};
use std::sync::{Arc, Wait};
use std::thread;
use std::thread::{Promise, PromisedHandle, Threads};

/// The agent that comes back is the one that was started, after some steps or none.
#[derive(Drop)]
pub struct AgentPromise<G: Gate, H: QueueHistory>(Snapshot<AgentLoop<G, H>>);

impl<G: Gate, H: QueueHistory> Promise<AgentLoop<G, H>> for AgentPromise<G, H> {
    ghost kept_by = { λ p a. AgentRuns p.0.value a };
}

/// The worker that comes back is the one that was started, after some steps or none.
#[derive(Drop)]
pub struct WorkerPromise<G: Gate, H: QueueHistory, D: DirectoryHistory>(
    Snapshot<WorkerLoop<G, H, D>>,
);

impl<G: Gate, H: QueueHistory, D: DirectoryHistory> Promise<WorkerLoop<G, H, D>>
    for WorkerPromise<G, H, D> {
    ghost kept_by = { λ p w. WorkerRuns G.follows p.0.value w };
}

type AgentThread<G, H> = PromisedHandle<AgentLoop<G, H>, AgentPromise<G, H>>;

type WorkerThread<G, H, D> = PromisedHandle<WorkerLoop<G, H, D>, WorkerPromise<G, H, D>>;

// Starts an agent in a thread. Where no thread can be made, all loops that share the flag are told to stop, and the
// agent comes back.
fn start_agent<
    G: Gate + 'static,
    H: QueueHistory + Send + 'static,
    R: Threads + Wait + Copy + Send + 'static,
>(
    rt: &R,
    alloc: Global,
    agent: AgentLoop<G, H>,
    stop: &Arc<AtomicBool, Global>,
) -> Result<AgentThread<G, H>, AgentLoop<G, H>>
    ensures { MatchResult result (λ thread. thread.promise.0.value ≡ agent) (λ back. AgentRuns agent back) }
{
    let Ok(flag) = Arc::try_clone(stop) else {
        return Err(agent);
    };
    let own = *rt;
    let promise = AgentPromise(Snapshot::of(&agent));
    match thread::spawn_with(rt, promise, move || agent.run(&own, alloc, &flag)) {
        Ok(thread) => Ok(thread),
        Err(refused) => {
            stop.store(true, Ordering::SeqCst);
            Err((refused.value)())
        }
    }
}

// Starts a worker in a thread. Where no thread can be made, all loops that share the flag are told to stop, and the
// worker comes back.
fn start_worker<
    G: Gate + 'static,
    H: QueueHistory + Send + 'static,
    D: DirectoryHistory + Send + 'static,
    R: Threads + Wait + Copy + Send + 'static,
>(
    rt: &R,
    alloc: Global,
    worker: WorkerLoop<G, H, D>,
    stop: &Arc<AtomicBool, Global>,
) -> Result<WorkerThread<G, H, D>, WorkerLoop<G, H, D>>
    ensures { MatchResult result (λ thread. thread.promise.0.value ≡ worker) (λ back. WorkerRuns G.follows worker back) }
{
    let Ok(flag) = Arc::try_clone(stop) else {
        return Err(worker);
    };
    let own = *rt;
    let promise = WorkerPromise(Snapshot::of(&worker));
    match thread::spawn_with(rt, promise, move || worker.run(&own, alloc, &flag)) {
        Ok(thread) => Ok(thread),
        Err(refused) => {
            stop.store(true, Ordering::SeqCst);
            Err((refused.value)())
        }
    }
}

/// The three loops of a silo, each in a thread of its own.
///
/// A contract sees the loops as they were started.
#[derive(Drop)]
pub struct RunningSilo<G: Gate, H: QueueHistory, D: DirectoryHistory> {
    silo: u8,
    stop: Arc<AtomicBool, Global>,
    agent: AgentThread<G, H>,
    first: WorkerThread<G, H, D>,
    second: WorkerThread<G, H, D>,
}

impl<G: Gate, H: QueueHistory, D: DirectoryHistory> Model for RunningSilo<G, H, D> {
    ghost use Rattle.silo_loops.specs.Silos.{SiloView};

    ghost Value = { SiloView };

    ghost view = { λ s. record { silo = s.silo; agent = s.agent.promise.0.value; first = s.first.promise.0.value; second = s.second.promise.0.value } };
}

// Tells loops to stop.
fn tell_to_stop<R: Wait>(rt: &R, doorbell: &Doorbell, stop: &AtomicBool) {
    stop.store(true, Ordering::SeqCst);
    doorbell.ring(rt);
}

// Starts two workers. Where one can't be started, both come back.
fn start_workers<
    G: Gate + 'static,
    H: QueueHistory + Send + 'static,
    D: DirectoryHistory + Send + 'static,
    R: Threads + Wait + Copy + Send + 'static,
>(
    rt: &R,
    alloc: Global,
    doorbell: &Doorbell,
    first: WorkerLoop<G, H, D>,
    second: WorkerLoop<G, H, D>,
    stop: &Arc<AtomicBool, Global>,
) -> Result<
    (WorkerThread<G, H, D>, WorkerThread<G, H, D>),
    (WorkerLoop<G, H, D>, WorkerLoop<G, H, D>),
>
    ensures first { MatchResult result (λ threads. threads.0.promise.0.value ≡ first) (λ back. WorkerRuns G.follows first back.0) }
    ensures second { MatchResult result (λ threads. threads.1.promise.0.value ≡ second) (λ back. WorkerRuns G.follows second back.1) }
{
    let first = match start_worker(rt, alloc, first, stop) {
        Ok(thread) => thread,
        Err(back) => return Err((back, second)),
    };
    match start_worker(rt, alloc, second, stop) {
        Ok(second) => Ok((first, second)),
        Err(back) => {
            tell_to_stop(rt, doorbell, stop);
            Err((first.join(rt), back))
        }
    }
}

impl<
    G: Gate + 'static,
    H: QueueHistory + Send + 'static,
    D: DirectoryHistory + Send + 'static,
> RunningSilo<G, H, D> {
    /// Starts the loops of a silo, each in a thread of its own. The doorbell is the one at which they wait.
    ///
    /// # Errors
    /// The call failed to allocate, or a thread can't be made. The loops come back, after some steps or none.
    pub fn start<R: Threads + Wait + Copy + Send + 'static>(
        rt: &R,
        alloc: Global,
        doorbell: &Doorbell,
        loops: SiloLoops<G, H, D>,
    ) -> Result<RunningSilo<G, H, D>, SiloLoops<G, H, D>>
        ensures { MatchResult result (λ running. running ≡ loops) (λ back. HasRun loops back) }
    {
        let Ok(stop) = Arc::new(alloc, AtomicBool::new(false)) else {
            return Err(loops);
        };
        let SiloLoops {
            silo,
            agent,
            first,
            second,
        } = loops;
        doorbell.opens(silo);
        let (first, second) = match start_workers(rt, alloc, doorbell, first, second, &stop) {
            Ok(threads) => threads,
            Err((first, second)) => {
                doorbell.closes(silo);
                return Err(SiloLoops {
                    silo,
                    agent,
                    first,
                    second,
                });
            }
        };
        match start_agent(rt, alloc, agent, &stop) {
            Ok(agent) => Ok(RunningSilo {
                silo,
                stop,
                agent,
                first,
                second,
            }),
            Err(agent) => {
                doorbell.closes(silo);
                tell_to_stop(rt, doorbell, &stop);
                Err(SiloLoops {
                    silo,
                    agent,
                    first: first.join(rt),
                    second: second.join(rt),
                })
            }
        }
    }
}

impl<G: Gate, H: QueueHistory, D: DirectoryHistory> RunningSilo<G, H, D> {
    /// The silo, a number.
    pub fn silo(&self) -> u8
        ensures { result ≡ self.now.silo }
    {
        self.silo
    }

    /// Tells the loops to stop, and waits until each came back, after some steps or none.
    pub fn stop<R: Threads + Wait>(self, rt: &R, doorbell: &Doorbell) -> SiloLoops<G, H, D>
        ensures { HasRun self result }
    {
        let RunningSilo {
            silo,
            stop,
            agent,
            first,
            second,
        } = self;
        doorbell.closes(silo);
        tell_to_stop(rt, doorbell, &stop);
        let loops = SiloLoops {
            silo,
            agent: agent.join(rt),
            first: first.join(rt),
            second: second.join(rt),
        };
        // What was left to the silo's workers meanwhile is for those of others.
        doorbell.ring(rt);
        loops
    }
}
