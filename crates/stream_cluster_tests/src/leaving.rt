//! Sixteen silos that go one after another, up to the last.
ghost use Rattle.std.specs.Prelude.{◌≡◌};

use crate::producer::Producer;
use crate::running::{Calls, Places, Running, Size, is_reported, start};
use crate::told::{report_of, subscribe_all};
use shared_partition::{Counting, DirectoryHistory, QueueHistory};
use silo_threads::SiloDown;
use std::alloc::Global;
use std::process::Abort;
use std::sync::{Arc, Wait};
use std::thread::Threads;

const SILOS: u8 = 16;

const QUEUES: usize = 16;

// How many events are published: one to each queue before each silo is to go.
const ROOM: usize = 16 * QUEUES;

static SIZE: Size = Size {
    queues: QUEUES,
    silos: SILOS,
    history: 1_000_000_000,
    room: ROOM,
};

// Each silo is to go, and the last one stays.
fn leave<
    H: QueueHistory + Send + 'static,
    D: DirectoryHistory + Send + 'static,
    R: Threads + Wait + Abort + Copy + Send + 'static,
>(
    rt: &R,
    alloc: Global,
    running: &mut Running<Counting, H, D>,
    producer: &mut Producer<Counting, H>,
)
    ensures running { running.new ≡ running.old }
    ensures producer { producer.new ≡ producer.old }
{
    for silo in 0..SILOS {
        assert!(rt; !producer.publish_all(rt, alloc, u64::from(silo)));
        let wanted = if silo == SILOS - 1 {
            SiloDown::LastSilo
        } else {
            SiloDown::Down
        };
        let answer = running.down(rt, alloc, silo);
        assert!(rt;
            matches!(answer, Ok(answer) if answer == wanted),
            "silo {silo}"
        );
    }
    assert!(rt; matches!(running.down(rt, alloc, 0), Ok(SiloDown::NotLive)));
}

// All events are handled once by each of the two grains that have subscribed at a queue.
fn run<
    H: QueueHistory + Send + 'static,
    D: DirectoryHistory + Send + 'static,
    R: Threads + Wait + Abort + Copy + Send + 'static,
>(rt: &R, alloc: Global) {
    let gate = Arc::new(alloc, Counting).expect(rt, "memory");
    let started = start::<Counting, H, D, R>(rt, alloc, &SIZE, gate);
    let (mut running, mut producer) = started.expect(rt, "memory");
    assert!(rt; !subscribe_all(rt, alloc, &mut producer, QUEUES));
    leave(rt, alloc, &mut running, &mut producer);
    assert!(rt; producer.is_quiet(rt, alloc));
    let (ended, told) = running.finish(rt, alloc, producer);
    let wanted = report_of(alloc, &told, QUEUES).expect(rt, "memory");
    assert!(rt; told.len() == ROOM);
    assert!(rt; is_reported(&ended, wanted.expect(rt, "numbers").as_bytes()));
}

#[test]
fn silos_leave_one_by_one(rt: HostRuntime) {
    run::<Calls, Places, HostRuntime>(&rt, rt.alloc());
}
