//! The handler: an archive that is stopped, and monitors.
use std::rt::Clock;
use std::sync::atomic::{AtomicBool, Ordering};
use std::thread;
use std::time::Duration;
use streams::{Event, Gate, GrainId, SubName};

// How often the archive looks at most whether it may go on, once in a millisecond.
const MOST_LOOKS: u32 = 60_000;

/// What the archive and the monitors share. The workers of the silo call it from their threads.
#[derive(Drop)]
pub struct Archive<C> {
    clock: C,
    goes_on: AtomicBool,
}

impl<C: Clock + Copy> Archive<C> {
    /// An archive that is stopped.
    pub fn new(clock: C) -> Archive<C> {
        Archive {
            clock,
            goes_on: AtomicBool::new(false),
        }
    }

    /// The archive goes on.
    pub fn go_on(&self) {
        self.goes_on.store(true, Ordering::SeqCst);
    }

    // The archive waits for its disk.
    fn store(&self) {
        for _ in 0..MOST_LOOKS {
            if self.goes_on.load(Ordering::SeqCst) {
                break;
            }
            thread::sleep(&self.clock, Duration::from_millis(1));
        }
    }
}

impl<C: Clock + Copy + Send + Sync> Gate for Archive<C> {
    /// The note counts the readings of a subscription.
    fn handle(&self, _sub: &SubName, _event: &Event, note: u64) -> u64 {
        note.saturating_add(1)
    }

    /// An archive stores each reading first.
    fn handle_for(&self, grain: &GrainId, sub: &SubName, event: &Event, note: u64) -> u64 {
        if grain.kind.as_str() == "archive" {
            self.store();
        }
        self.handle(sub, event, note)
    }
}
