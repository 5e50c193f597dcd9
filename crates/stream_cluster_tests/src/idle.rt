//! A cluster that has nothing to do.
use crate::cases::{Case, ONE, Second, Step, ends, prepare};
use crate::running::{Calls, End, Places, Size};
use shared_partition::{DirectoryHistory, Gate, QueueHistory};
use std::alloc::Global;
use std::process::Abort;
use std::rt::Clock;
use std::sync::atomic::{AtomicU64, Ordering};
use std::sync::{Arc, Wait};
use std::thread;
use std::thread::Threads;
use std::time::Duration;
use stream_ident::{Event, SubName};

// How often it is looked whether calls are made, and for how many milliseconds each time.
const LOOKS: u64 = 20;

const MILLIS: u64 = 500;

/// A gate that counts the calls of all queues.
#[derive(Drop)]
pub struct Watch {
    calls: AtomicU64,
}

impl Gate for Watch {
    fn inside(&self, _queue: usize) {
        self.calls.fetch_add(1, Ordering::SeqCst);
    }

    fn handle(&self, _sub: &SubName, _event: &Event, note: u64) -> u64 {
        note.saturating_add(1)
    }
}

impl Watch {
    /// One that has seen no call.
    pub fn new() -> Watch {
        Watch {
            calls: AtomicU64::new(0),
        }
    }

    // Whether no call is made for a while.
    fn is_still<R: Clock>(&self, rt: &R) -> bool {
        let before = self.calls.load(Ordering::SeqCst);
        thread::sleep(rt, Duration::from_millis(MILLIS));
        self.calls.load(Ordering::SeqCst) == before
    }

    /// Whether calls are made no more, after a time.
    pub fn comes_to_rest<R: Clock>(&self, rt: &R) -> bool {
        for _ in 0..LOOKS {
            if self.is_still(rt) {
                return true;
            }
        }
        false
    }
}

const STEPS: [Step; 4] = [
    Step::Subscribe(0, 5),
    Step::Subscribe(3, 6),
    Step::Publish,
    Step::Settle,
];

static SETTLED: Case = Case {
    size: Size {
        queues: 4,
        silos: 2,
        ..ONE
    },
    steps: &STEPS,
    second: Second::None,
    end: End::Report(b"report\n0:1 o/0 g/5 0.0 1\n  0.0 \"7\"\n3:1 o/3 g/6 0.0 1\n  0.0 \"7\"\n"),
};

// Once all is handled, the loops end the round in which they are, and wait. A round makes a call at each queue, so
// where no call is made, none is begun.
fn wait_all<
    H: QueueHistory + Send + 'static,
    D: DirectoryHistory + Send + 'static,
    R: Threads + Wait + Abort + Clock + Copy + Send + 'static,
>(rt: &R, alloc: Global) {
    let watch = Arc::new(alloc, Watch::new()).expect(rt, "memory");
    let gate = Arc::try_clone(&watch).expect(rt, "it is shared a few times");
    let (running, producer) = prepare::<Watch, H, D, R>(rt, alloc, gate, 0, &SETTLED);
    assert!(rt; watch.comes_to_rest(rt));
    assert!(rt; ends(rt, alloc, running, producer, &SETTLED));
}

#[test]
fn an_idle_cluster_makes_no_round(rt: HostRuntime) {
    wait_all::<Calls, Places, HostRuntime>(&rt, rt.alloc());
}
