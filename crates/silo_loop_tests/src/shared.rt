//! Two threads that call one queue.
use crate::fresh::{History, caller_of, line};
use crate::operations::{Call, operation};
use shared_partition::{Gate, QueueHistory};
use silo_loops::Doorbell;
use silo_threads::QueueCaller;
use std::alloc::Global;
use std::process::Abort;
use std::sync::atomic::{AtomicU64, Ordering};
use std::sync::{Arc, Wait};
use std::thread;
use std::thread::{Threads, join};
use stream_ident::{Event, SubName};

const QUEUE: usize = 5;

// Counts the calls of its queue, and would lose some if two were inside at once.
#[derive(Drop)]
struct Entered {
    calls: AtomicU64,
}

impl Gate for Entered {
    fn inside(&self, queue: usize) {
        let calls = self.calls.load(Ordering::SeqCst);
        thread::yield_now();
        if queue == QUEUE {
            self.calls.store(calls.wrapping_add(1), Ordering::SeqCst);
        }
    }

    fn handle(&self, _sub: &SubName, _event: &Event, note: u64) -> u64 {
        note
    }
}

// What each thread asks, over and over: calls that change the partition, and some that it refuses.
static CALLS: [Call; 5] = [
    Call::Publish(b'k'),
    Call::Pull,
    Call::Deliver,
    Call::Begin(b'k', 16),
    Call::Quiet,
];

// A caller of the queue.
trait Asks: Send + Drop {
    // Makes a call, which isn't refused.
    fn ask<R: Wait + Abort>(&mut self, rt: &R, alloc: Global, doorbell: &Doorbell, call: Call);
}

impl<H: QueueHistory + Send> Asks for QueueCaller<Entered, H> {
    fn ask<R: Wait + Abort>(&mut self, rt: &R, alloc: Global, doorbell: &Doorbell, call: Call) {
        let op = operation(rt, alloc, call).expect(rt, "memory");
        let answer = self.ask(rt, alloc, doorbell, QUEUE, op, &mut Vec::new(alloc));
        let _answer = answer.expect(rt, "an answer");
    }
}

// Makes all calls a hundred times.
fn call_all<C: Asks, R: Wait + Abort>(
    rt: &R,
    alloc: Global,
    doorbell: &Doorbell,
    mut caller: C,
) -> C {
    for _ in 0..100 {
        for call in &CALLS {
            caller.ask(rt, alloc, doorbell, *call);
        }
    }
    caller
}

// The first caller, after two threads have made all calls, and one more of its own.
fn in_two_threads<C: Asks, R: Threads + Wait + Abort + Sync>(
    rt: &R,
    alloc: Global,
    doorbell: &Doorbell,
    first: C,
    second: C,
) -> C {
    let (mut first, _second) = join(
        rt,
        || call_all(rt, alloc, doorbell, first),
        || call_all(rt, alloc, doorbell, second),
    );
    first.ask(rt, alloc, doorbell, Call::Quiet);
    first
}

// Two threads call a queue at once. Each call has entered the gate once, and no two were inside at once.
fn check<H: QueueHistory + Send, R: Threads + Wait + Abort + Sync>(rt: &R, alloc: Global) {
    let calls = AtomicU64::new(0);
    let gate = Arc::new(alloc, Entered { calls }).expect(rt, "memory");
    let shared = Arc::try_clone(&gate).expect(rt, "memory");
    let line = line::<Entered, H>(alloc, shared, QUEUE, 10_000).expect(rt, "memory");
    let mut first = caller_of(line);
    let second = first.split().expect(rt, "a pass");
    let doorbell = Doorbell::new(alloc, 1, 0).expect(rt, "memory");
    let first = in_two_threads(rt, alloc, &doorbell, first, second);
    let (_turnstile, pass) = first.into_parts();
    assert!(rt; pass.len() == 1_001 && gate.calls.load(Ordering::SeqCst) == 1_001);
}

#[test]
fn two_threads_of_callers(rt: HostRuntime) {
    check::<History, HostRuntime>(&rt, rt.alloc());
}
