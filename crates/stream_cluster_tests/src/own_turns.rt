//! A turn that a caller begins and ends itself.
ghost use Rattle.std.specs.Prelude.{◌≡◌};

use crate::cases::{Case, ONE, Second, Step, ends, prepare};
use crate::gates::wait_for;
use crate::idle::Watch;
use crate::producer::Producer;
use crate::running::{Calls, End, Places};
use shared_partition::{DirectoryHistory, Gate, QueueHistory};
use std::alloc::Global;
use std::process::Abort;
use std::rt::Clock;
use std::sync::atomic::{AtomicBool, AtomicU64, Ordering};
use std::sync::{Arc, Wait};
use std::thread::Threads;
use step_core::{Op, Reply};
use stream_ident::{Event, GrainId, SubName, Token};

// A gate whose handlers wait until they are let go.
#[derive(Drop)]
struct Held {
    watch: Watch,
    held: AtomicU64,
    // whether both workers are in handlers
    are_both: AtomicBool,
    are_free: AtomicBool,
}

impl Gate for Held {
    fn inside(&self, queue: usize) {
        self.watch.inside(queue);
    }

    fn handle(&self, _sub: &SubName, _event: &Event, note: u64) -> u64 {
        if self.held.fetch_add(1, Ordering::SeqCst) == 1 {
            self.are_both.store(true, Ordering::SeqCst);
        }
        let _is_free = wait_for(&self.are_free);
        note.saturating_add(1)
    }

    fn done(&self, _sub: &SubName, _token: Token) {}
}

// Three grains get two events each.
const STEPS: [Step; 5] = [
    Step::Subscribe(0, 5),
    Step::Subscribe(0, 6),
    Step::Subscribe(0, 7),
    Step::Publish,
    Step::Publish,
];

static THREE: Case = Case {
    size: ONE,
    steps: &STEPS,
    second: Second::None,
    end: End::Report(
        b"report\n0:1 o/0 g/5 0.0 2\n  0.0 \"7\"\n  1.0 \"7\"\n0:2 o/0 g/6 0.0 2\n  0.0 \"7\"\n  1.0 \"7\"\n0:3 o/0 g/7 0.0 2\n  0.0 \"7\"\n  1.0 \"7\"\n",
    ),
};

// The next event of a subscription is delivered, where the agent hasn't done that.
fn deliver<G: Gate, H: QueueHistory, R: Wait + Abort>(
    rt: &R,
    alloc: Global,
    producer: &mut Producer<G, H>,
    number: u32,
)
    ensures { producer.new ≡ producer.old }
{
    let deliver = Op::Deliver {
        generation: 0,
        sub: SubName::Explicit(number),
    };
    let _delivered = producer.ask(rt, alloc, 0, deliver);
}

// Both events of a subscription are delivered.
fn deliver_both<G: Gate, H: QueueHistory, R: Wait + Abort>(
    rt: &R,
    alloc: Global,
    producer: &mut Producer<G, H>,
    number: u32,
)
    ensures { producer.new ≡ producer.old }
{
    deliver(rt, alloc, producer, number);
    deliver(rt, alloc, producer, number);
}

// All that is published is pulled and delivered.
fn deliver_all<G: Gate, H: QueueHistory, R: Wait + Abort>(
    rt: &R,
    alloc: Global,
    producer: &mut Producer<G, H>,
)
    ensures { producer.new ≡ producer.old }
{
    let pull = Op::Pull {
        generation: 0,
        max: 32,
    };
    let _pulled = producer.ask(rt, alloc, 0, pull);
    deliver_both(rt, alloc, producer, 1);
    deliver_both(rt, alloc, producer, 2);
    deliver_both(rt, alloc, producer, 3);
}

fn grain<R: Abort>(rt: &R, key: &[u8]) -> GrainId {
    GrainId::new(b"g", key).expect(rt, "a grain")
}

// Begins a turn with one event, where no worker runs the grain, and gives the operation that ends it.
fn begin<G: Gate, H: QueueHistory, R: Wait + Abort>(
    rt: &R,
    alloc: Global,
    producer: &mut Producer<G, H>,
    key: &[u8],
) -> Option<Op>
    ensures { producer.new ≡ producer.old }
{
    let begin = Op::Begin {
        grain: grain(rt, key),
        max: 1,
    };
    match producer.ask(rt, alloc, 0, begin) {
        Reply::Turn {
            activation,
            turn,
            ..
        } => Some(Op::Commit {
            grain: grain(rt, key),
            activation,
            turn,
            note: 1,
        }),
        _ => None,
    }
}

// The same for the grain that no worker runs.
fn begin_one<G: Gate, H: QueueHistory, R: Wait + Abort>(
    rt: &R,
    alloc: Global,
    producer: &mut Producer<G, H>,
) -> Op
    ensures { producer.new ≡ producer.old }
{
    if let Some(commit) = begin(rt, alloc, producer, b"5") {
        return commit;
    }
    if let Some(commit) = begin(rt, alloc, producer, b"6") {
        return commit;
    }
    begin(rt, alloc, producer, b"7").expect(rt, "a grain is left that no worker runs")
}

// Both workers are in handlers, while a caller begins a turn of a third grain, which has one event more. The caller ends it
// when nobody looks any more: the workers are woken, and handle what is left.
fn end_own<
    H: QueueHistory + Send + 'static,
    D: DirectoryHistory + Send + 'static,
    R: Threads + Wait + Abort + Clock + Copy + Send + 'static,
>(rt: &R, alloc: Global) {
    let held = Held {
        watch: Watch::new(),
        held: AtomicU64::new(0),
        are_both: AtomicBool::new(false),
        are_free: AtomicBool::new(false),
    };
    let gate = Arc::new(alloc, held).expect(rt, "memory");
    let shared = Arc::try_clone(&gate).expect(rt, "it is shared a few times");
    let (running, mut producer) = prepare::<Held, H, D, R>(rt, alloc, shared, 0, &THREE);
    assert!(rt; wait_for(&gate.are_both));
    deliver_all(rt, alloc, &mut producer);
    let commit = begin_one(rt, alloc, &mut producer);
    gate.are_free.store(true, Ordering::SeqCst);
    assert!(rt; gate.watch.comes_to_rest(rt));
    let ended = producer.ask(rt, alloc, 0, commit);
    assert!(rt; matches!(ended, Reply::Committed { .. }));
    assert!(rt; gate.watch.comes_to_rest(rt));
    assert!(rt; ends(rt, alloc, running, producer, &THREE));
}

#[test]
fn a_caller_ends_its_own_turn(rt: HostRuntime) {
    end_own::<Calls, Places, HostRuntime>(&rt, rt.alloc());
}
