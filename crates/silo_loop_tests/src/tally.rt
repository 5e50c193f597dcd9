//! A gate over two queues that counts.
use crate::meetings::Meetings;
use shared_partition::Gate;
use std::sync::atomic::{AtomicU64, Ordering};
use stream_ident::{Event, GrainId, SubName, Token};

/// Counts the calls of two queues, the events that were handled, the commits that it was told of, and the events that came
/// out of order or for another grain. Where it is made so, its handler and `done` each wait until another thread has
/// called both queues.
///
/// Each batch has to be one event, and the grain of each subscription the key of its stream: a note is the number of the
/// batch behind that of the last event.
#[derive(Drop)]
pub struct Tally {
    first: AtomicU64,
    second: AtomicU64,
    handled: AtomicU64,
    done: AtomicU64,
    astray: AtomicU64,
    waits: bool,
    pub meetings: Meetings,
}

impl Tally {
    /// One that waits for calls beside it, or doesn't.
    pub fn new(waits: bool) -> Tally {
        Tally {
            first: AtomicU64::new(0),
            second: AtomicU64::new(0),
            handled: AtomicU64::new(0),
            done: AtomicU64::new(0),
            astray: AtomicU64::new(0),
            waits,
            meetings: Meetings::new(),
        }
    }

    /// How many calls there were at each queue.
    pub fn calls(&self) -> (u64, u64) {
        (
            self.first.load(Ordering::SeqCst),
            self.second.load(Ordering::SeqCst),
        )
    }

    /// How many events were handled, how many commits were told of, and how many events were out of order.
    pub fn work(&self) -> (u64, u64, u64) {
        (
            self.handled.load(Ordering::SeqCst),
            self.done.load(Ordering::SeqCst),
            self.astray.load(Ordering::SeqCst),
        )
    }

    // Waits until another thread has called both queues.
    fn wait_for_calls(&self) {
        if self.waits {
            self.meetings.ask();
        }
    }
}

impl Gate for Tally {
    fn inside(&self, queue: usize) {
        let calls = if queue == 0 {
            &self.first
        } else {
            &self.second
        };
        calls.fetch_add(1, Ordering::SeqCst);
    }

    fn handle(&self, _sub: &SubName, event: &Event, note: u64) -> u64 {
        self.wait_for_calls();
        self.handled.fetch_add(1, Ordering::SeqCst);
        if event.token.seq < note {
            self.astray.fetch_add(1, Ordering::SeqCst);
        }
        event.token.seq.wrapping_add(1)
    }

    fn handle_for(&self, grain: &GrainId, sub: &SubName, event: &Event, note: u64) -> u64 {
        if grain.key != event.stream.key {
            self.astray.fetch_add(1, Ordering::SeqCst);
        }
        self.handle(sub, event, note)
    }

    fn done(&self, _sub: &SubName, _token: Token) {
        self.wait_for_calls();
        self.done.fetch_add(1, Ordering::SeqCst);
    }
}
