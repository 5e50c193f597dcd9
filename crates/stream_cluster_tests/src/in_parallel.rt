//! Two grains, and two queues, at once.
ghost use Rattle.std.specs.Prelude.{◌≡◌};

use crate::cases::{Case, ONE, Second, Step, ends, prepare};
use crate::gates::{Meeting, wait_for};
use crate::producer::Producer;
use crate::running::{Calls, End, Places, Size};
use shared_partition::{DirectoryHistory, QueueHistory};
use std::alloc::Global;
use std::process::Abort;
use std::sync::atomic::Ordering;
use std::sync::{Arc, Wait};
use std::thread::{Threads, join};

const STEPS: [Step; 4] = [
    Step::Subscribe(0, 5),
    Step::Subscribe(0, 6),
    Step::Publish,
    Step::Settle,
];

static CROSSED: Case = Case {
    size: Size { silos: 2, ..ONE },
    steps: &STEPS,
    second: Second::None,
    end: End::Report(b"report\n0:1 o/0 g/5 0.0 1\n  0.0 \"7\"\n0:2 o/0 g/6 0.0 1\n  0.0 \"7\"\n"),
};

// Two grains handle an event each. The one that comes first waits until the other has committed.
fn cross<
    H: QueueHistory + Send + 'static,
    D: DirectoryHistory + Send + 'static,
    R: Threads + Wait + Abort + Copy + Send + 'static,
>(rt: &R, alloc: Global) {
    let gate = Arc::new(alloc, Meeting::new(true)).expect(rt, "memory");
    let shared = Arc::try_clone(&gate).expect(rt, "it is shared a few times");
    let (running, producer) = prepare::<Meeting, H, D, R>(rt, alloc, shared, 0, &CROSSED);
    assert!(rt; ends(rt, alloc, running, producer, &CROSSED));
    assert!(rt; gate.saw.load(Ordering::SeqCst));
}

const SUBSCRIBED: [Step; 2] = [Step::Subscribe(0, 5), Step::Subscribe(1, 6)];

static BESIDE: Case = Case {
    size: Size { queues: 2, ..ONE },
    steps: &SUBSCRIBED,
    second: Second::None,
    end: End::Report(b"report\n0:1 o/0 g/5 0.0 1\n  0.0 \"7\"\n1:1 o/1 g/6 0.0 1\n  0.0 \"8\"\n"),
};

// Publishes to a queue: to the second one while a call of the first one waits.
fn publish<H: QueueHistory, R: Wait + Abort>(
    rt: &R,
    alloc: Global,
    gate: &Meeting,
    producer: Producer<Meeting, H>,
    queue: usize,
) -> Producer<Meeting, H>
    ensures { result ≡ producer }
{
    let mut producer = producer;
    assert!(rt; queue == 0 || wait_for(&gate.came));
    let payload = (queue as u64).wrapping_add(7);
    producer
        .publish(rt, alloc, queue, payload)
        .expect(rt, "room");
    if queue != 0 {
        gate.answered.store(true, Ordering::SeqCst);
    }
    producer
}

// Publishes to the first queue, whose next call waits until a call of the second queue was answered.
fn publish_beside<H: QueueHistory + Send + 'static, R: Threads + Wait + Abort + Sync>(
    rt: &R,
    alloc: Global,
    gate: &Meeting,
    first: Producer<Meeting, H>,
    second: Producer<Meeting, H>,
) -> (Producer<Meeting, H>, Producer<Meeting, H>)
    ensures first { result.0 ≡ first }
    ensures second { result.1 ≡ second }
{
    gate.call_waits.store(true, Ordering::SeqCst);
    join(
        rt,
        || publish(rt, alloc, gate, first, 0),
        || publish(rt, alloc, gate, second, 1),
    )
}

// A call of the second queue is answered while one of the first holds its turn.
fn call_beside<
    H: QueueHistory + Send + 'static,
    D: DirectoryHistory + Send + 'static,
    R: Threads + Wait + Abort + Copy + Send + Sync + 'static,
>(rt: &R, alloc: Global) {
    let gate = Arc::new(alloc, Meeting::new(false)).expect(rt, "memory");
    let shared = Arc::try_clone(&gate).expect(rt, "it is shared a few times");
    let (running, mut first) = prepare::<Meeting, H, D, R>(rt, alloc, shared, 1, &BESIDE);
    let second = first.split(alloc, 0).expect(rt, "memory");
    let (mut first, second) = publish_beside(rt, alloc, &gate, first, second);
    first.join(rt, second);
    assert!(rt; first.is_quiet(rt, alloc));
    assert!(rt; ends(rt, alloc, running, first, &BESIDE));
    assert!(rt; gate.saw.load(Ordering::SeqCst));
}

#[test]
fn at_once(rt: HostRuntime) {
    cross::<Calls, Places, HostRuntime>(&rt, rt.alloc());
    call_beside::<Calls, Places, HostRuntime>(&rt, rt.alloc());
}
