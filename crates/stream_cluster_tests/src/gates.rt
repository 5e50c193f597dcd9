//! A gate that waits for something that can happen only beside it.
use crossbeam_utils::Backoff;
use shared_partition::Gate;
use std::sync::atomic::{AtomicBool, Ordering};
use stream_ident::{Event, SubName, Token};

// Looks so often at most.
const LOOKS: u32 = 1_000_000;

/// Waits until the flag is set, and tells whether it was.
pub fn wait_for(flag: &AtomicBool) -> bool {
    let backoff = Backoff::new();
    for _ in 0..LOOKS {
        if flag.load(Ordering::SeqCst) {
            return true;
        }
        backoff.snooze();
    }
    false
}

/// A gate in which the next event, or the next call of the first queue, waits until something else was done: another
/// event was handled and committed, or a call of another queue was answered.
#[derive(Drop)]
pub struct Meeting {
    /// Whether the next event is to wait.
    pub event_waits: AtomicBool,
    /// Whether the next call of the first queue is to wait.
    pub call_waits: AtomicBool,
    /// Whether somebody waits.
    pub came: AtomicBool,
    /// Whether the gate was told of a commit.
    pub done: AtomicBool,
    /// Whether a call of another queue was answered.
    pub answered: AtomicBool,
    /// Whether the one that waited has seen that.
    pub saw: AtomicBool,
}

impl Meeting {
    /// One in which the first event waits, or nothing does yet.
    pub fn new(event_waits: bool) -> Meeting {
        Meeting {
            event_waits: AtomicBool::new(event_waits),
            call_waits: AtomicBool::new(false),
            came: AtomicBool::new(false),
            done: AtomicBool::new(false),
            answered: AtomicBool::new(false),
            saw: AtomicBool::new(false),
        }
    }

    fn meet(&self, other: &AtomicBool) {
        self.came.store(true, Ordering::SeqCst);
        if wait_for(other) {
            self.saw.store(true, Ordering::SeqCst);
        }
    }
}

impl Gate for Meeting {
    fn inside(&self, queue: usize) {
        if queue == 0 && self.call_waits.swap(false, Ordering::SeqCst) {
            self.meet(&self.answered);
        }
    }

    fn handle(&self, _sub: &SubName, _event: &Event, note: u64) -> u64 {
        if self.event_waits.swap(false, Ordering::SeqCst) {
            self.meet(&self.done);
        }
        note.saturating_add(1)
    }

    fn done(&self, _sub: &SubName, _token: Token) {
        self.done.store(true, Ordering::SeqCst);
    }
}
