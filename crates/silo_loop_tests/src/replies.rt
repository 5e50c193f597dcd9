//! What a partition that is shared by a turnstile replies, call by call.
ghost use Rattle.turnstile.specs.Calls.{IsOf};
ghost use Rattle.shared_partition.specs.Partitions.{BeganEmpty};

use crate::fresh::{History, partition};
use crate::operations::{Call, Told, operation, reply};
use crate::rows::assert_at;
use shared_partition::{Counting, QueueHistory, SharedPartition};
use std::alloc::Global;
use std::process::Abort;
use std::sync::{Arc, Wait};
use step_core::Reply;
use turnstile::{PassOf, Turnstile};

const STREAM: u8 = b'k';

const GRAIN: u8 = b'x';

// An event on its way from a producer to the grain that has handled it, and what each call on this way is told.
static CALLS: [(Call, Told); 6] = [
    (Call::Subscribe(STREAM, GRAIN), Told::Subscribed(1)),
    (Call::Publish(STREAM), Told::Published(0)),
    (Call::Pull, Told::PulledFirst),
    (Call::Deliver, Told::DeliveredFirst),
    (Call::Begin(GRAIN, 1), Told::TurnOfFirst(STREAM)),
    (Call::Commit(GRAIN, 1, 1, 1), Told::CommittedFirst),
];

// What a call is told.
fn replied<H: QueueHistory, R: Wait + Abort>(
    rt: &R,
    alloc: Global,
    turnstile: &Turnstile<SharedPartition<Counting, H>>,
    pass: &mut PassOf<SharedPartition<Counting, H>>,
    call: Call,
) -> Reply
    requires pass { IsOf turnstile.now pass.old }
    requires empty { BeganEmpty turnstile.now.start }
    ensures { IsOf turnstile.now pass.new }
{
    let op = operation(rt, alloc, call).expect(rt, "memory");
    let mut events = Vec::with_capacity(alloc, 16).expect(rt, "memory");
    let answer = SharedPartition::call(turnstile, rt, alloc, pass, op, &mut events);
    answer.expect(rt, "an answer").reply(&events)
}

// Each call is told what its row says.
fn call_all<H: QueueHistory, R: Wait + Abort>(
    rt: &R,
    alloc: Global,
    turnstile: &Turnstile<SharedPartition<Counting, H>>,
    pass: PassOf<SharedPartition<Counting, H>>,
)
    requires pass { IsOf turnstile.now pass }
    requires empty { BeganEmpty turnstile.now.start }
{
    let mut pass = pass;
    for (at, (call, told)) in CALLS.iter().enumerate() {
        let reply = reply(rt, *told);
        assert_at(
            rt,
            at,
            replied(rt, alloc, turnstile, &mut pass, *call) == reply,
        );
    }
    assert!(rt; pass.len() == CALLS.len() as u64);
}

fn open_and_call<H: QueueHistory, R: Wait + Abort>(rt: &R, alloc: Global) {
    let gate = Arc::new(alloc, Counting).expect(rt, "memory");
    let opened = partition::<Counting, H>(alloc, gate, 0, 4, 100);
    let (turnstile, pass) = opened.expect(rt, "memory");
    call_all(rt, alloc, &turnstile, pass);
}

#[test]
fn an_event_is_handled_call_by_call(rt: HostRuntime) {
    open_and_call::<History, HostRuntime>(&rt, rt.alloc());
}
