//! Parked clusters whose loops take steps in an order that is drawn, and go by hints that are drawn too.
use crate::parked::{LOOPS, Parked};
use crate::running::{Calls, Ended, Places, is_reported};
use crate::story::{QUEUES, REPORT, begin, go_on};
use shared_partition::{DirectoryHistory, QueueHistory};
use silo_loops::Doorbell;
use std::alloc::Global;
use std::process::Abort;
use std::sync::Wait;

// How many clusters there are, one after another.
const CLUSTERS: u32 = 10;

const SILOS: usize = 2;

// How many steps the loops make before more is published, and at a time behind that, and how many times at most.
const STEPS: usize = 50;

const MOST_TIMES: usize = 1_000;

// A number from which others are drawn.
#[derive(Drop)]
struct Draw(u32);

impl Draw {
    fn next(&mut self) -> usize {
        self.0 = self.0.wrapping_mul(1_664_525).wrapping_add(1_013_904_223);
        (self.0 >> 8) as usize
    }
}

// All hints of a silo. Each is left with a chance of so many in four, and else taken away.
fn draw_hints(doorbell: &Doorbell, draw: &mut Draw, silo: u8, left: usize) {
    for queue in 0..QUEUES {
        doorbell.hint_agent(silo, queue, draw.next() % 4 < left);
        doorbell.hint_workers(silo, queue, draw.next() % 4 < left);
    }
}

// Steps, each of a loop that is drawn, by hints that are drawn before it.
fn advance<H: QueueHistory, D: DirectoryHistory, R: Wait + Abort>(
    rt: &R,
    alloc: Global,
    parked: &mut Parked<H, D>,
    draw: &mut Draw,
    left: usize,
) {
    for _ in 0..STEPS {
        let at = draw.next() % SILOS;
        draw_hints(parked.caller.doorbell(), draw, at as u8, left);
        let _did = parked.advance(rt, alloc, at, LOOPS[draw.next() % 3]);
    }
}

// Steps until all queues are quiet.
fn settle<H: QueueHistory, D: DirectoryHistory, R: Wait + Abort>(
    rt: &R,
    alloc: Global,
    parked: &mut Parked<H, D>,
    draw: &mut Draw,
    left: usize,
) {
    for _ in 0..MOST_TIMES {
        if parked.is_quiet(rt, alloc) {
            return;
        }
        advance(rt, alloc, parked, draw, left);
    }
    panic!(rt; "all is quiet at some time");
}

// How a cluster ends whose hints are left with a chance of so many in four.
fn told<H: QueueHistory, D: DirectoryHistory, R: Wait + Abort>(
    rt: &R,
    alloc: Global,
    draw: &mut Draw,
    left: usize,
) -> Ended<H> {
    let made = Parked::<H, D>::new(rt, alloc, QUEUES, SILOS as u8, 1_000_000, 1_000);
    let mut parked = made.expect(rt, "memory");
    for at in 0..SILOS {
        parked.go_by_hints(rt, alloc, at);
    }
    begin(rt, alloc, &mut parked);
    advance(rt, alloc, &mut parked, draw, left);
    go_on(rt, alloc, &mut parked);
    settle(rt, alloc, &mut parked, draw, left);
    parked.finish(rt, alloc)
}

// Hints are never left, always, or now and then: the report is that of loops that go by none.
#[test]
fn hints_are_drawn(rt: HostRuntime) {
    for cluster in 0..CLUSTERS {
        let left = cluster as usize % 5;
        let ended = told::<Calls, Places, HostRuntime>(&rt, rt.alloc(), &mut Draw(cluster), left);
        assert!(rt; is_reported(&ended, REPORT), "cluster {cluster}");
    }
}
