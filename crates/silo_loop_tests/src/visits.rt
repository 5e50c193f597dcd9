//! Visits of loops, by hand.
use crate::fresh::{Asked, History};
use crate::meetings::LOOKS;
use crate::operations::Call;
use crate::seven::{QUEUES, begun};
use crate::silo::{Loop, Silo, ask};
use crate::tally::Tally;
use crossbeam_utils::Backoff;
use shared_partition::{DirectoryHistory, QueueHistory};
use silo_loops::{Advance, AgentLoop, WorkerLoop};
use silo_threads::Caller;
use std::alloc::Global;
use std::process::Abort;
use std::sync::Wait;
use std::sync::atomic::{AtomicBool, Ordering};
use std::thread::{Threads, join};

// More visits than a loop makes until it is idle.
const VISITS: usize = 10_000;

// One visit of an agent, and how many calls it has made. All of them are at one queue.
fn agent_visit<H: QueueHistory, R: Wait + Abort>(
    rt: &R,
    alloc: Global,
    gate: &Tally,
    agent: &mut AgentLoop<Tally, H>,
) -> (Advance, u64) {
    let (first, second) = gate.calls();
    let did = agent.visit(rt, alloc);
    let (first_then, second_then) = gate.calls();
    assert!(rt; first_then == first || second_then == second);
    let made = first_then.wrapping_sub(first);
    (did, made.wrapping_add(second_then.wrapping_sub(second)))
}

// The most calls of a visit of an agent that goes on until it is idle.
fn most_calls<H: QueueHistory, R: Wait + Abort>(
    rt: &R,
    alloc: Global,
    gate: &Tally,
    agent: &mut AgentLoop<Tally, H>,
) -> u64 {
    let mut most = 0;
    for _ in 0..VISITS {
        let (did, made) = agent_visit(rt, alloc, gate, agent);
        if made > most {
            most = made;
        }
        if did == Advance::Idle {
            return most;
        }
    }
    panic!(rt; "an agent is idle at some time");
}

// The four streams of the first queue have more events than the agent delivers in one visit.
fn visit_as_agent<H: QueueHistory, D: DirectoryHistory, R: Wait + Abort>(rt: &R, alloc: Global) {
    let mut silo = begun::<H, D, R>(rt, alloc, Tally::new(false), 16);
    assert!(rt; most_calls(rt, alloc, &silo.gate, &mut silo.agent) == 64);
}

/// A loop of a silo.
pub trait Visits: Send + Drop {
    /// Whether a visit does something.
    fn does<R: Wait>(&mut self, rt: &R, alloc: Global) -> bool;
}

impl<H: QueueHistory + Send, D: DirectoryHistory + Send> Visits for WorkerLoop<Tally, H, D> {
    fn does<R: Wait>(&mut self, rt: &R, alloc: Global) -> bool {
        self.visit(rt, alloc) == Advance::Did
    }
}

/// A caller of queues.
pub trait Asks: Send + Drop {
    /// Makes a call at a queue.
    fn ask_at<R: Wait + Abort>(&mut self, rt: &R, alloc: Global, queue: usize);
}

impl<H: QueueHistory + Send> Asks for Caller<Tally, H> {
    fn ask_at<R: Wait + Abort>(&mut self, rt: &R, alloc: Global, queue: usize) {
        let _reply = ask(rt, alloc, self, queue, Call::Quiet);
    }
}

// Visits until nothing is found to do.
fn visit_all<V: Visits, R: Wait>(rt: &R, alloc: Global, mut visits: V, over: &AtomicBool) {
    for _ in 0..VISITS {
        if !visits.does(rt, alloc) {
            break;
        }
    }
    over.store(true, Ordering::SeqCst);
}

// Makes a call at each queue as often as the gate waits for it, until it is over.
fn call_beside<A: Asks, R: Wait + Abort>(
    rt: &R,
    alloc: Global,
    gate: &Tally,
    mut asks: A,
    over: &AtomicBool,
) {
    let backoff = Backoff::new();
    for _ in 0..LOOKS {
        if gate.meetings.is_asking() {
            for queue in 0..QUEUES {
                asks.ask_at(rt, alloc, queue);
            }
            gate.meetings.answer();
        } else if over.load(Ordering::SeqCst) {
            break;
        }
        backoff.snooze();
    }
}

fn visit_beside<V: Visits, A: Asks, R: Threads + Wait + Abort + Sync>(
    rt: &R,
    alloc: Global,
    gate: &Tally,
    visits: V,
    asks: A,
) {
    let over = AtomicBool::new(false);
    join(
        rt,
        || visit_all(rt, alloc, visits, &over),
        || call_beside(rt, alloc, gate, asks, &over),
    );
}

// No turn is kept while a worker handles an event or tells of a commit: another thread calls each queue then. Each grain
// handles its events in one turn.
fn visit_as_worker<
    H: QueueHistory + Send,
    D: DirectoryHistory + Send,
    R: Threads + Wait + Abort + Sync,
>(rt: &R, alloc: Global) {
    let mut silo = begun::<H, D, R>(rt, alloc, Tally::new(true), 3);
    silo.rest(rt, alloc, Loop::Agent);
    let Silo {
        gate,
        doorbell: _,
        assigned: _,
        producer,
        agent: _,
        worker,
    } = silo;
    visit_beside(rt, alloc, &gate, worker, producer);
    assert!(rt; !gate.meetings.has_missed());
    assert!(rt; gate.work() == (21, 7, 0));
}

#[test]
fn visits_by_hand(rt: HostRuntime) {
    visit_as_agent::<History, Asked, HostRuntime>(&rt, rt.alloc());
    visit_as_worker::<History, Asked, HostRuntime>(&rt, rt.alloc());
}
