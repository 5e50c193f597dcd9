//! The loops of a silo in threads, with nothing to do.
use crate::fresh::{Asked, History};
use crate::meetings::LOOKS;
use crate::silo::Silo;
use crate::tally::Tally;
use crossbeam_utils::Backoff;
use shared_partition::{DirectoryHistory, QueueHistory};
use silo_loops::{AgentLoop, Doorbell, WorkerLoop};
use std::alloc::Global;
use std::process::Abort;
use std::sync::Wait;
use std::sync::atomic::{AtomicBool, Ordering};
use std::thread;
use std::thread::{Threads, join};

// How many rounds each loop may begin. A loop that doesn't wait has begun them soon.
const ROUNDS: u64 = 10_000;

/// A loop of a silo.
pub trait Runs: Send + Drop {
    /// Visits until it is told to stop.
    fn go<R: Wait>(self, rt: &R, alloc: Global, stop: &AtomicBool) -> Self;

    /// How many more rounds it may begin.
    fn left(&self) -> u64;
}

impl<H: QueueHistory + Send> Runs for AgentLoop<Tally, H> {
    fn go<R: Wait>(self, rt: &R, alloc: Global, stop: &AtomicBool) -> AgentLoop<Tally, H> {
        self.run(rt, alloc, stop)
    }

    fn left(&self) -> u64 {
        self.rounds()
    }
}

impl<H: QueueHistory + Send, D: DirectoryHistory + Send> Runs for WorkerLoop<Tally, H, D> {
    fn go<R: Wait>(self, rt: &R, alloc: Global, stop: &AtomicBool) -> WorkerLoop<Tally, H, D> {
        self.run(rt, alloc, stop)
    }

    fn left(&self) -> u64 {
        self.rounds()
    }
}

// Waits until there were so many calls, or the loop has ended, and looks away for a while. No further call was made.
fn watch<R: Abort>(rt: &R, gate: &Tally, doorbell: &Doorbell, calls: u64) {
    let backoff = Backoff::new();
    for _ in 0..LOOKS {
        if gate.calls().0 >= calls || doorbell.has_ended() {
            break;
        }
        backoff.snooze();
    }
    for _ in 0..10_000 {
        thread::yield_now();
    }
    assert!(rt; gate.calls().0 == calls);
}

// Sees a round of so many calls, rings, and sees another round. Then it tells the loop to stop.
fn attend<R: Wait + Abort>(
    rt: &R,
    gate: &Tally,
    doorbell: &Doorbell,
    stop: &AtomicBool,
    before: u64,
    calls: u64,
) {
    let once = before.wrapping_add(calls);
    watch(rt, gate, doorbell, once);
    doorbell.ring(rt);
    watch(rt, gate, doorbell, once.wrapping_add(calls));
    stop.store(true, Ordering::SeqCst);
    doorbell.ring(rt);
}

// A loop in a thread that finds nothing to do begins one round, of so many calls, and waits. It begins one more when the
// doorbell is rung, and waits again.
fn waits<L: Runs, R: Threads + Wait + Abort + Sync>(
    rt: &R,
    alloc: Global,
    it: L,
    gate: &Tally,
    doorbell: &Doorbell,
    calls: u64,
) {
    let (before, _) = gate.calls();
    let stop = AtomicBool::new(false);
    let (it, ()) = join(
        rt,
        || it.go(rt, alloc, &stop),
        || attend(rt, gate, doorbell, &stop, before, calls),
    );
    assert!(rt; it.left() == ROUNDS - 2);
}

// The agent pulls and asks for a due subscription, and the worker asks for a ready grain.
fn both_wait<H: QueueHistory + Send, D: DirectoryHistory + Send, R: Threads + Wait + Abort + Sync>(
    rt: &R,
    alloc: Global,
) {
    let Silo {
        gate,
        doorbell,
        assigned: _,
        producer: _,
        agent,
        worker,
    } = Silo::<Tally, H, D>::new(rt, alloc, Tally::new(false), 1, 1_000_000, ROUNDS);
    waits(rt, alloc, agent, &gate, &doorbell, 2);
    waits(rt, alloc, worker, &gate, &doorbell, 1);
}

#[test]
fn idle_loops_wait(rt: HostRuntime) {
    both_wait::<History, Asked, HostRuntime>(&rt, rt.alloc());
}
