//! Where a test waits for another thread.
use crossbeam_utils::Backoff;
use std::sync::atomic::{AtomicU64, Ordering};

/// How often a test looks at most whether something has come.
pub const LOOKS: u32 = 1_000_000;

/// Counts how often one thread has waited for another, and how often it was answered.
#[derive(Drop)]
pub struct Meetings {
    asked: AtomicU64,
    answered: AtomicU64,
    missed: AtomicU64,
}

impl Meetings {
    pub fn new() -> Meetings {
        Meetings {
            asked: AtomicU64::new(0),
            answered: AtomicU64::new(0),
            missed: AtomicU64::new(0),
        }
    }

    /// Whether a thread waits.
    pub fn is_asking(&self) -> bool {
        self.asked.load(Ordering::SeqCst) > self.answered.load(Ordering::SeqCst)
    }

    /// What it waits for was done.
    pub fn answer(&self) {
        self.answered.fetch_add(1, Ordering::SeqCst);
    }

    /// Whether a thread has waited in vain.
    pub fn has_missed(&self) -> bool {
        self.missed.load(Ordering::SeqCst) > 0
    }

    /// How often a thread has waited.
    pub fn count(&self) -> u64 {
        self.asked.load(Ordering::SeqCst)
    }

    /// Waits until it is answered. Where it was in vain once, nobody waits any more.
    pub fn ask(&self) {
        if self.has_missed() {
            return;
        }
        self.asked.fetch_add(1, Ordering::SeqCst);
        if !self.comes_to(false) {
            self.missed.fetch_add(1, Ordering::SeqCst);
        }
    }

    /// Waits until a thread waits, or until none does, and tells whether that came.
    pub fn comes_to(&self, asking: bool) -> bool {
        let backoff = Backoff::new();
        for _ in 0..LOOKS {
            if self.is_asking() == asking {
                return true;
            }
            backoff.snooze();
        }
        false
    }
}
