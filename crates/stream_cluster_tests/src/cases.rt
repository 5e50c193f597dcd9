//! Clusters in threads: what is done to each, and how it ends.
ghost use Rattle.std.specs.Prelude.{◌≡◌};

use crate::asking::holds;
use crate::producer::Producer;
use crate::running::{Calls, End, Places, Running, Size, is_so, start};
use shared_partition::{Counting, DirectoryHistory, Gate, QueueHistory};
use silo_threads::QueueCaller;
use std::alloc::Global;
use std::process::Abort;
use std::sync::{Arc, Wait};
use std::thread::Threads;

/// What is done to a cluster.
#[derive(Clone, Copy)]
pub enum Step {
    /// A grain subscribes at a queue.
    Subscribe(usize, usize),
    /// An event is published to each queue.
    Publish,
    /// A silo comes or goes.
    Change(u8, bool),
    /// All is handled.
    Settle,
}

/// What becomes of a second caller.
#[derive(Clone, Copy)]
pub enum Second {
    /// There is none.
    None,
    /// It is lost.
    IsLost,
    /// It stays away from the end.
    Stays,
    /// Its pass at the first queue is lost, and those at the others stay away from the end.
    IsHalfLost,
}

/// A cluster, what is done to it, and how it ends.
#[derive(Clone, Copy)]
pub struct Case {
    pub size: Size,
    pub steps: &'static [Step],
    pub second: Second,
    pub end: End,
}

// Whether a step is done.
fn is_met<
    G: Gate + 'static,
    H: QueueHistory + Send + 'static,
    D: DirectoryHistory + Send + 'static,
    R: Threads + Wait + Abort + Copy + Send + 'static,
>(
    rt: &R,
    alloc: Global,
    running: &mut Running<G, H, D>,
    producer: &mut Producer<G, H>,
    step: &Step,
) -> bool
    ensures running { running.new ≡ running.old }
    ensures producer { producer.new ≡ producer.old }
{
    match *step {
        Step::Subscribe(queue, to) => producer.subscribe(rt, alloc, queue, to).is_ok(),
        Step::Publish => !producer.publish_all(rt, alloc, 7),
        Step::Change(silo, comes) => running.change(rt, alloc, silo, comes).expect(rt, "memory"),
        Step::Settle => producer.is_quiet(rt, alloc),
    }
}

/// A cluster of a case, to which its steps are done, and a producer of it.
pub fn prepare<
    G: Gate + 'static,
    H: QueueHistory + Send + 'static,
    D: DirectoryHistory + Send + 'static,
    R: Threads + Wait + Abort + Copy + Send + 'static,
>(
    rt: &R,
    alloc: Global,
    gate: Arc<G, Global>,
    table: usize,
    case: &Case,
) -> (Running<G, H, D>, Producer<G, H>)
    ensures { result.1 ≡ result.0 }
{
    let started = start::<G, H, D, R>(rt, alloc, &case.size, gate);
    let (mut running, mut producer) = started.expect(rt, "memory");
    for (row, step) in case.steps.iter().enumerate() {
        let is_met = is_met(rt, alloc, &mut running, &mut producer, step);
        holds(rt, is_met, table, row);
    }
    (running, producer)
}

/// Whether a cluster ends as its case says.
pub fn ends<
    G: Gate + 'static,
    H: QueueHistory + Send + 'static,
    D: DirectoryHistory + Send + 'static,
    R: Threads + Wait + Abort,
>(rt: &R, alloc: Global, running: Running<G, H, D>, producer: Producer<G, H>, case: &Case) -> bool
    requires { producer ≡ running }
{
    let mut producer = producer;
    match case.second {
        Second::None => is_so(&running.finish(rt, alloc, producer).0, case.end),
        Second::IsLost => {
            drop(producer.split(alloc, 0).expect(rt, "memory"));
            is_so(&running.finish(rt, alloc, producer).0, case.end)
        }
        Second::Stays => {
            let other = producer.split(alloc, 0).expect(rt, "memory");
            let ended = running.finish(rt, alloc, producer).0;
            drop(other);
            is_so(&ended, case.end)
        }
        Second::IsHalfLost => {
            let other = producer.split(alloc, 0).expect(rt, "memory");
            let kept = but_first(other);
            let ended = running.finish(rt, alloc, producer).0;
            drop(kept);
            is_so(&ended, case.end)
        }
    }
}

// The passes of a producer, but that of its first queue, which is lost.
fn but_first<G: Gate, H: QueueHistory>(producer: Producer<G, H>) -> Vec<QueueCaller<G, H>> {
    let (caller, _told) = producer.into_parts();
    let mut queues = caller.into_queues();
    queues.reverse();
    drop(queues.pop());
    queues
}

/// A cluster of one queue and one silo.
pub const ONE: Size = Size {
    queues: 1,
    silos: 1,
    history: 1_000_000,
    room: 0,
};

const TWO: Size = Size { queues: 2, ..ONE };

const PUBLISHED: [Step; 2] = [Step::Subscribe(0, 5), Step::Publish];

static CASES: [Case; 4] = [
    // Another caller still has the turnstiles.
    Case {
        size: ONE,
        steps: &[],
        second: Second::Stays,
        end: End::InUse,
    },
    // Another caller was lost, and its passes are missing.
    Case {
        size: ONE,
        steps: &[],
        second: Second::IsLost,
        end: End::Missing(1),
    },
    // A pass is missing at the first queue, and somebody still has the turnstile of the second.
    Case {
        size: TWO,
        steps: &[],
        second: Second::IsHalfLost,
        end: End::InUse,
    },
    // A cluster that ends at once after a publish has handled the event or not, and says so.
    Case {
        size: ONE,
        steps: &PUBLISHED,
        second: Second::None,
        end: End::LeftOr(b"report\n0:1 o/0 g/5 0.0 1\n  0.0 \"7\"\n"),
    },
];

// Does what each case says, and sees how it ends.
fn check<
    H: QueueHistory + Send + 'static,
    D: DirectoryHistory + Send + 'static,
    R: Threads + Wait + Abort + Copy + Send + 'static,
>(rt: &R, alloc: Global) {
    for (table, case) in CASES.iter().enumerate() {
        let gate = Arc::new(alloc, Counting).expect(rt, "memory");
        let (running, producer) = prepare::<Counting, H, D, R>(rt, alloc, gate, table, case);
        let ends = ends(rt, alloc, running, producer, case);
        holds(rt, ends, table, case.steps.len());
    }
}

#[test]
fn clusters_end(rt: HostRuntime) {
    check::<Calls, Places, HostRuntime>(&rt, rt.alloc());
}
