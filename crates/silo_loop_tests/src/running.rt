//! The loops of a silo in threads, with events to handle.
use crate::fresh::{Asked, History};
use crate::in_threads::Runs;
use crate::meetings::LOOKS;
use crate::seven::{are_quiet, begun, publish_each};
use crate::silo::{Silo, two_workers};
use crate::tally::Tally;
use crossbeam_utils::Backoff;
use shared_partition::{DirectoryHistory, QueueHistory};
use silo_loops::Doorbell;
use silo_threads::Caller;
use std::alloc::Global;
use std::process::Abort;
use std::sync::Wait;
use std::sync::atomic::{AtomicBool, Ordering};
use std::thread::{Threads, join};

// How many events of each stream are there before the loops run, and how many come beside them.
const BEFORE: u64 = 40;

const BESIDE: u64 = 300;

// How many there are in all.
const EVENTS: u64 = 7 * (BEFORE + BESIDE);

// A producer beside the loops.
trait Produces: Send + Drop {
    // Publishes to each stream.
    fn publish<R: Wait + Abort>(&mut self, rt: &R, alloc: Global);

    // Whether each queue is quiet.
    fn is_quiet<R: Wait + Abort>(&mut self, rt: &R, alloc: Global) -> bool;
}

impl<H: QueueHistory + Send> Produces for Caller<Tally, H> {
    fn publish<R: Wait + Abort>(&mut self, rt: &R, alloc: Global) {
        publish_each(rt, alloc, self, BESIDE);
    }

    fn is_quiet<R: Wait + Abort>(&mut self, rt: &R, alloc: Global) -> bool {
        are_quiet(rt, alloc, self)
    }
}

// Leaves notes of two queues, or takes them away, as the bits of a number say.
fn muddle(doorbell: &Doorbell, drawn: u32) {
    let (agent, worker) = ((drawn >> 8) % 7, (drawn >> 16) % 7);
    doorbell.hint_agent(0, agent as usize, drawn & 1 == 1);
    doorbell.hint_workers(0, worker as usize, drawn & 2 == 2);
}

// Waits until all is handled and each queue is quiet, or a loop has ended. Meanwhile it muddles the notes, where it is to.
fn wait<P: Produces, R: Wait + Abort>(
    rt: &R,
    alloc: Global,
    gate: &Tally,
    doorbell: &Doorbell,
    producer: &mut P,
    muddles: bool,
) {
    let backoff = Backoff::new();
    let mut drawn: u32 = 7;
    for _ in 0..LOOKS {
        if muddles {
            drawn = drawn.wrapping_mul(1_664_525).wrapping_add(1_013_904_223);
            muddle(doorbell, drawn);
        }
        let (handled, _, _) = gate.work();
        if doorbell.has_ended() || (handled >= EVENTS && producer.is_quiet(rt, alloc)) {
            return;
        }
        backoff.snooze();
    }
}

// Publishes, and tells the loops to stop once all is handled.
fn produce<P: Produces, R: Wait + Abort>(
    rt: &R,
    alloc: Global,
    gate: &Tally,
    doorbell: &Doorbell,
    mut producer: P,
    stop: &AtomicBool,
    muddles: bool,
) -> bool {
    producer.publish(rt, alloc);
    wait(rt, alloc, gate, doorbell, &mut producer, muddles);
    stop.store(true, Ordering::SeqCst);
    doorbell.ring(rt);
    producer.is_quiet(rt, alloc)
}

// Two loops, each in a thread.
fn go_both<A: Runs, B: Runs, R: Threads + Wait + Sync>(
    rt: &R,
    alloc: Global,
    one: A,
    other: B,
    stop: &AtomicBool,
) {
    join(rt, || one.go(rt, alloc, stop), || other.go(rt, alloc, stop));
}

// Three loops and a producer, each in a thread. Whether each queue is quiet in the end.
fn go_all<A: Runs, B: Runs, P: Produces, R: Threads + Wait + Abort + Sync>(
    rt: &R,
    alloc: Global,
    gate: &Tally,
    doorbell: &Doorbell,
    agent: A,
    workers: (B, B),
    producer: P,
    muddles: bool,
) -> bool {
    let stop = AtomicBool::new(false);
    let (first, second) = workers;
    let (((), _agent), quiet) = join(
        rt,
        || {
            join(
                rt,
                || go_both(rt, alloc, first, second, &stop),
                || agent.go(rt, alloc, &stop),
            )
        },
        || produce(rt, alloc, gate, doorbell, producer, &stop, muddles),
    );
    quiet
}

// Each event is handled once and in order. The agent has delivered several events to each grain of a queue before its
// turn there ended, so there are turns of several events.
fn all_run<H: QueueHistory + Send, D: DirectoryHistory + Send, R: Threads + Wait + Abort + Sync>(
    rt: &R,
    alloc: Global,
    muddles: bool,
) {
    let Silo {
        gate,
        doorbell,
        assigned: _,
        producer,
        agent,
        worker,
    } = begun::<H, D, R>(rt, alloc, Tally::new(false), BEFORE);
    let workers = two_workers(rt, alloc, &gate, &doorbell, worker);
    assert!(rt;
        go_all(
            rt, alloc, &gate, &doorbell, agent, workers, producer, muddles
        )
    );
    let (handled, done, astray) = gate.work();
    assert!(rt; handled == EVENTS && astray == 0);
    assert!(rt; done < EVENTS);
}

#[test]
fn loops_run_in_threads(rt: HostRuntime) {
    all_run::<History, Asked, HostRuntime>(&rt, rt.alloc(), false);
}

// Notes say where to look first, and nothing else: whatever stands there, each event is handled once and in order.
#[test]
fn loops_run_whatever_is_hinted(rt: HostRuntime) {
    all_run::<History, Asked, HostRuntime>(&rt, rt.alloc(), true);
}
