//! Calls of a shared partition of which one allocation is refused, at a history that takes memory.
use crate::fresh::{History, caller_of, line};
use crate::operations::{Call, FIRST, operation};
use shared_partition::{Counting, QueueHistory};
use silo_loops::Doorbell;
use silo_threads::QueueCaller;
use std::alloc::{AllocError, Global};
use std::process::Abort;
use std::sync::{Arc, Wait};
use turnstile::Refusal;

const STREAM: u8 = b'k';

const GRAIN: u8 = b'x';

// Four events, of which the subscription handles three before it ends. So little is asked that each table has its first
// growth in these calls: that of the history, of the log, of the rows of subscriptions, of what is handled, of mailboxes
// and of grains.
static CALLS: [Call; 20] = [
    Call::Rule,
    Call::Subscribe(STREAM, GRAIN),
    Call::Publish(STREAM),
    Call::Pull,
    Call::Deliver,
    Call::Begin(GRAIN, 16),
    Call::Commit(GRAIN, 1, 1, 1),
    Call::Acknowledge(FIRST),
    Call::Publish(STREAM),
    Call::Publish(STREAM),
    Call::Publish(STREAM),
    Call::Pull,
    Call::Deliver,
    Call::Deliver,
    Call::Begin(GRAIN, 16),
    Call::Commit(GRAIN, 1, 2, 3),
    Call::Deliver,
    Call::Unsubscribe(1),
    Call::Deliver,
    Call::Begin(GRAIN, 16),
];

// A caller of an empty queue.
fn opened<H: QueueHistory>(alloc: Global) -> Result<QueueCaller<Counting, H>, AllocError> {
    let gate = Arc::new(alloc, Counting)?;
    Ok(caller_of(line(alloc, gate, 0, 100)?))
}

// Makes a call. Whether it is answered, and not refused memory.
fn is_answered<H: QueueHistory, R: Wait + Abort>(
    rt: &R,
    alloc: Global,
    caller: &mut QueueCaller<Counting, H>,
    doorbell: &Doorbell,
    call: Call,
) -> bool {
    let Ok(op) = operation(rt, alloc, call) else {
        return false;
    };
    match caller.ask(rt, alloc, doorbell, 0, op, &mut Vec::new(alloc)) {
        Ok(_answer) => true,
        Err(refusal) => {
            assert!(rt; refusal == Refusal::Memory);
            false
        }
    }
}

// Makes all calls, each of them once more where memory was refused. Each has one entry then.
fn insist<H: QueueHistory, R: Wait + Abort>(rt: &R, alloc: Global) {
    let mut caller = match opened::<H>(alloc) {
        Ok(caller) => caller,
        Err(AllocError) => opened::<H>(alloc).expect(rt, "memory"),
    };
    let doorbell = match Doorbell::new(alloc, 1, 0) {
        Ok(doorbell) => doorbell,
        Err(AllocError) => Doorbell::new(alloc, 1, 0).expect(rt, "memory"),
    };
    for call in &CALLS {
        if !is_answered(rt, alloc, &mut caller, &doorbell, *call) {
            assert!(rt; is_answered(rt, alloc, &mut caller, &doorbell, *call));
        }
    }
    let (_turnstile, pass) = caller.into_parts();
    assert!(rt; pass.len() == CALLS.len() as u64);
}

// Run it with each allocation failing in turn.
#[test]
fn one_allocation_refused(rt: HostRuntime) {
    insist::<History, HostRuntime>(&rt, rt.alloc());
}
