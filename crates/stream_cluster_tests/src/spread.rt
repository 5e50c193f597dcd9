//! Silos that come and go while events are published: where the queues are then.
use crate::asking::holds;
use crate::cases::{Case, ONE, Second, Step, prepare};
use crate::running::{Calls, End, Ended, Places, Size, is_so};
use shared_partition::{Counting, DirectoryHistory, QueueHistory};
use silo_threads::Finished;
use std::alloc::Global;
use std::process::Abort;
use std::sync::{Arc, Wait};
use std::thread::Threads;
use step_core::Op;
use turnstile::Asked;

// Silos come and go, and an event is published to each queue before the first of these changes and after each.
const CHANGES: [Step; 16] = [
    Step::Subscribe(0, 5),
    Step::Subscribe(3, 6),
    Step::Publish,
    Step::Change(1, true),
    Step::Publish,
    Step::Change(2, true),
    Step::Publish,
    Step::Change(0, false),
    Step::Publish,
    Step::Change(2, false),
    Step::Publish,
    Step::Change(0, true),
    Step::Publish,
    Step::Change(1, false),
    Step::Publish,
    Step::Settle,
];

static CHANGED: Case = Case {
    size: Size { queues: 4, ..ONE },
    steps: &CHANGES,
    second: Second::None,
    end: End::Report(REPORT),
};

// Each event is handled once.
const REPORT: &[u8] = b"report
0:1 o/0 g/5 0.0 7
  0.0 \"7\"
  1.0 \"7\"
  2.0 \"7\"
  3.0 \"7\"
  4.0 \"7\"
  5.0 \"7\"
  6.0 \"7\"
3:1 o/3 g/6 0.0 7
  0.0 \"7\"
  1.0 \"7\"
  2.0 \"7\"
  3.0 \"7\"
  4.0 \"7\"
  5.0 \"7\"
  6.0 \"7\"
";

// How many queues are on silos 0 to 2 when each event is published: the least and the most.
static LOADS: [[(usize, usize); 3]; 7] = [
    [(4, 4), (0, 0), (0, 0)],
    [(2, 2), (2, 2), (0, 0)],
    [(1, 2), (1, 2), (1, 2)],
    [(0, 0), (2, 2), (2, 2)],
    [(0, 0), (4, 4), (0, 0)],
    [(2, 2), (2, 2), (0, 0)],
    [(4, 4), (0, 0), (0, 0)],
];

// How a cluster ends in which that was done.
fn change<
    H: QueueHistory + Send + 'static,
    D: DirectoryHistory + Send + 'static,
    R: Threads + Wait + Abort + Copy + Send + 'static,
>(rt: &R, alloc: Global) -> Ended<H> {
    let gate = Arc::new(alloc, Counting).expect(rt, "memory");
    let (running, producer) = prepare::<Counting, H, D, R>(rt, alloc, gate, 0, &CHANGED);
    running.finish(rt, alloc, producer).0
}

// The silo of a queue when the event with this number is published there. It moves once at most from one event to the
// next.
fn silo_at<R: Abort>(rt: &R, history: &[Asked<Op>], number: usize) -> usize {
    let mut silo = 0;
    let mut published: usize = 0;
    let mut has_moved = false;
    for asked in history {
        match asked.op {
            Op::Move { silo: to } => {
                assert!(rt; !has_moved && usize::from(to) != silo);
                silo = usize::from(to);
                has_moved = true;
            }
            Op::Publish { .. } => {
                if published == number {
                    return silo;
                }
                published = published.wrapping_add(1);
                has_moved = false;
            }
            _ => {}
        }
    }
    panic!(rt; "there is such an event");
}

// How many queues are on a silo when the events with this number are published.
fn load<R: Abort>(rt: &R, histories: &Vec<Calls>, number: usize, silo: usize) -> usize {
    let mut load: usize = 0;
    for history in histories {
        if silo_at(rt, history.as_slice(), number) == silo {
            load = load.wrapping_add(1);
        }
    }
    load
}

// The loads are even.
fn are_even<R: Abort>(rt: &R, histories: &Vec<Calls>) {
    for (number, loads) in LOADS.iter().enumerate() {
        for (silo, (least, most)) in loads.iter().enumerate() {
            let load = load(rt, histories, number, silo);
            holds(rt, *least <= load && load <= *most, number, silo);
        }
    }
}

#[test]
fn silos_come_and_go(rt: HostRuntime) {
    let ended = change::<Calls, Places, HostRuntime>(&rt, rt.alloc());
    assert!(rt; is_so(&ended, CHANGED.end));
    if let Ok(Finished::Report { traces, .. }) = &ended {
        are_even(&rt, &traces.histories);
    }
}
