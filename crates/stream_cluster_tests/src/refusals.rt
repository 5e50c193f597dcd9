//! Clusters in threads, to which memory or a thread is refused.
ghost use Rattle.std.specs.Prelude.{◌≡◌};

use crate::asking::holds;
use crate::producer::Producer;
use crate::running::{Ended, Running, Size, start};
use crate::scarce::Scarce;
use crate::told::{Told, report_of, subscribe_all};
use activation_directory::{DirectoryOp, DirectoryReply};
use shared_partition::{Counting, DirectoryHistory, QueueHistory};
use silo_threads::Finished;
use std::alloc::{AllocError, Global};
use std::process::Abort;
use std::sync::{Arc, Wait};
use std::thread::Threads;
use step_core::{Answer, Op};
use turnstile::ProofHistory;

const QUEUES: usize = 3;

// How many events the producers are told of at most.
const ROOM: usize = 3 * QUEUES;

static SIZE: Size = Size {
    queues: QUEUES,
    silos: 1,
    history: 1_000_000_000,
    room: ROOM,
};

type Calls = ProofHistory<Op, Answer>;

type Places = ProofHistory<DirectoryOp, DirectoryReply>;

type Silos<H, D> = Running<Counting, H, D>;

type Publisher<H> = Producer<Counting, H>;

// A gate that is asked for once more where memory was refused.
fn shared_gate<R: Abort>(rt: &R, alloc: Global) -> Arc<Counting, Global> {
    match Arc::new(alloc, Counting) {
        Ok(gate) => gate,
        Err(_) => Arc::new(alloc, Counting).expect(rt, "memory"),
    }
}

// A cluster of one silo, asked for once more where it was refused: nothing is left of the first one then. Whether it
// was refused.
fn opened<
    H: QueueHistory + Send + 'static,
    D: DirectoryHistory + Send + 'static,
    R: Threads + Wait + Abort + Copy + Send + 'static,
>(rt: &R, alloc: Global, gate: &Arc<Counting, Global>) -> (Silos<H, D>, Publisher<H>, bool)
    ensures { result.1 ≡ result.0 }
{
    let shared = Arc::try_clone(gate).expect(rt, "it is shared a few times");
    match start(rt, alloc, &SIZE, shared) {
        Ok((running, producer)) => (running, producer, false),
        Err(AllocError) => {
            assert!(rt; Arc::strong_count(gate) == 1);
            let shared = Arc::try_clone(gate).expect(rt, "it is shared a few times");
            let (running, producer) = start(rt, alloc, &SIZE, shared).expect(rt, "memory");
            (running, producer, true)
        }
    }
}

// Another producer, asked for once more where it was refused. Whether it was.
fn split<H: QueueHistory, R: Abort>(
    rt: &R,
    alloc: Global,
    producer: &mut Publisher<H>,
) -> (Publisher<H>, bool)
    ensures same { producer.new ≡ producer.old }
    ensures other { result.0 ≡ producer.old }
{
    match producer.split(alloc, ROOM) {
        Ok(other) => (other, false),
        Err(AllocError) => (producer.split(alloc, ROOM).expect(rt, "memory"), true),
    }
}

// A silo comes or goes, or where that is refused, none comes or goes any more. Whether it was refused.
fn is_kept<
    H: QueueHistory + Send + 'static,
    D: DirectoryHistory + Send + 'static,
    R: Threads + Wait + Abort + Copy + Send + 'static,
>(rt: &R, alloc: Global, running: &mut Silos<H, D>, silo: u8, comes: bool) -> bool
    ensures { running.new ≡ running.old }
{
    match running.change(rt, alloc, silo, comes) {
        Ok(changed) => {
            assert!(rt; changed);
            false
        }
        Err(AllocError) => {
            for silo in 0..4 {
                assert!(rt;
                    matches!(
                        running.change(rt, alloc, silo / 2, silo % 2 == 0),
                        Ok(false)
                    )
                );
            }
            true
        }
    }
}

// What was refused to those that change silos and publish.
#[derive(Clone, Copy)]
struct Course {
    refused: bool,
    // whether it was refused in the middle of a silo that goes
    half_gone: bool,
}

// Whether a cluster in which so much was refused has ended with a report.
//
// Where the end fails to allocate, or a loop had, nothing else was refused. Where a silo is gone by half, something may
// be left to do. All else is reported, and a pass is never missing.
fn is_reported<H, R: Abort>(
    rt: &R,
    alloc: Global,
    ended: &Ended<H>,
    told: &[Told],
    course: Course,
) -> bool {
    match ended {
        Ok(Finished::Report { text, .. }) => {
            assert!(rt; is_wanted(rt, alloc, told, text));
            true
        }
        Ok(Finished::NotQuiet { .. }) => {
            assert!(rt; course.half_gone);
            false
        }
        Err(AllocError) => {
            assert!(rt; !course.refused);
            false
        }
        Ok(_) => panic!(rt; "no pass is missing"),
    }
}

// Whether a text is what is reported of all that was told. That is asked for once more where memory was refused.
fn is_wanted<R: Abort>(rt: &R, alloc: Global, told: &[Told], text: &Vec<u8>) -> bool {
    let wanted = match report_of(alloc, told, QUEUES) {
        Ok(wanted) => wanted,
        Err(AllocError) => report_of(alloc, told, QUEUES).expect(rt, "memory"),
    };
    text.as_slice() == wanted.expect(rt, "numbers").as_bytes()
}

// A silo comes and the other one goes, and two producers publish before, between and after. The one that goes has all
// grains.
fn change<
    H: QueueHistory + Send + 'static,
    D: DirectoryHistory + Send + 'static,
    R: Threads + Wait + Abort + Copy + Send + 'static,
>(
    rt: &R,
    alloc: Global,
    running: &mut Silos<H, D>,
    first: &mut Publisher<H>,
    second: &mut Publisher<H>,
) -> Course
    ensures running { running.new ≡ running.old }
    ensures first { first.new ≡ first.old }
    ensures second { second.new ≡ second.old }
{
    let published = first.publish_all(rt, alloc, 1);
    let _ = first.is_quiet(rt, alloc);
    let kept_out = is_kept(rt, alloc, running, 1, true);
    let between = second.publish_all(rt, alloc, 2);
    let _ = second.is_quiet(rt, alloc);
    let half_gone = !kept_out && is_kept(rt, alloc, running, 0, false);
    let after = first.publish_all(rt, alloc, 3);
    // Where a silo is gone by half, nobody serves its queues, and whoever waits for them gives up.
    let is_quiet = first.is_quiet(rt, alloc);
    assert!(rt; !(half_gone && is_quiet));
    Course {
        refused: published || kept_out || between || half_gone || after,
        half_gone,
    }
}

// How a cluster lives and ends with something refused or nothing.
#[derive(Clone, Copy, PartialEq, Eq)]
enum Life {
    Undisturbed,
    // A silo is gone by half, and something is left to do.
    Half,
    Disturbed,
}

fn live<
    H: QueueHistory + Send + 'static,
    D: DirectoryHistory + Send + 'static,
    R: Threads + Wait + Abort + Copy + Send + 'static,
>(rt: &R, alloc: Global) -> Life {
    let gate = shared_gate(rt, alloc);
    let (mut running, mut first, anew) = opened::<H, D, R>(rt, alloc, &gate);
    let subscribed = subscribe_all(rt, alloc, &mut first, QUEUES);
    let (mut second, split) = split(rt, alloc, &mut first);
    let mut course = change(rt, alloc, &mut running, &mut first, &mut second);
    let (ended, told) = running.finish_both(rt, alloc, first, second);
    assert!(rt; Arc::strong_count(&gate) == 1);
    course.refused |= anew || subscribed || split;
    match is_reported(rt, alloc, &ended, &told, course) {
        true if !course.refused => Life::Undisturbed,
        false if course.half_gone => Life::Half,
        _ => Life::Disturbed,
    }
}

fn is_undisturbed_at_last<
    H: QueueHistory + Send + 'static,
    D: DirectoryHistory + Send + 'static,
    R: Threads + Wait + Abort + Copy + Send + 'static,
>(rt: &R, alloc: Global) -> bool {
    live::<H, D, R>(rt, alloc) == Life::Undisturbed
        || live::<H, D, R>(rt, alloc) == Life::Undisturbed
}

// With any one allocation refused, or any one thread, what was answered stands, no thread is left, and no pass is
// missing. Run it with each allocation failing in turn, and with each thread.
#[test]
fn one_refused(rt: HostRuntime) {
    assert!(rt; is_undisturbed_at_last::<Calls, Places, HostRuntime>(&rt, rt.alloc()));
}

// Four grains are on a silo that goes, and the directory refuses the call after each of them in turn. The silo's queues
// have no agent then, and what is published to them is left to do.
fn go_by_each_half<
    H: QueueHistory + Send + 'static,
    R: Threads + Wait + Abort + Copy + Send + 'static,
>(rt: &R, alloc: Global) {
    holds(rt, live::<H, Scarce<1>, R>(rt, alloc) == Life::Half, 0, 1);
    holds(rt, live::<H, Scarce<2>, R>(rt, alloc) == Life::Half, 0, 2);
    holds(rt, live::<H, Scarce<3>, R>(rt, alloc) == Life::Half, 0, 3);
    holds(rt, live::<H, Scarce<4>, R>(rt, alloc) == Life::Half, 0, 4);
}

#[test]
fn gone_by_half(rt: HostRuntime) {
    go_by_each_half::<Calls, HostRuntime>(&rt, rt.alloc());
}
