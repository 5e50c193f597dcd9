//! A gate that records what it is told.
use shared_partition::Gate;
use std::sync::atomic::{AtomicU64, Ordering};
use stream_ident::{Event, GrainId, SubName, Token};

/// What the gate was told of one subscription: the batch after that of the last event, the note that it gave
/// for it, and how many events it has handled since it was last told of a commit.
#[derive(Drop)]
struct Told {
    next: AtomicU64,
    note: AtomicU64,
    open: AtomicU64,
}

impl Told {
    fn new() -> Told {
        Told {
            next: AtomicU64::new(0),
            note: AtomicU64::new(0),
            open: AtomicU64::new(0),
        }
    }

    // Whether the event is the next one, and comes with the note that was given for the one before.
    fn handle(&self, token: Token, note: u64) -> bool {
        let next = self.next.swap(token.seq.wrapping_add(1), Ordering::SeqCst);
        let given = self.note.swap(note_after(token, note), Ordering::SeqCst);
        self.open.fetch_add(1, Ordering::SeqCst);
        given == note && (next == 0 || next == token.seq)
    }

    // Whether the event is the last one that was handled, and of a turn that it wasn't told of.
    fn done(&self, token: Token) -> bool {
        let next = self.next.load(Ordering::SeqCst);
        self.open.swap(0, Ordering::SeqCst) > 0 && next == token.seq.wrapping_add(1)
    }
}

// The note after an event: no two orders of events lead to the same one.
fn note_after(token: Token, note: u64) -> u64 {
    note.wrapping_mul(31)
        .wrapping_add(token.seq)
        .wrapping_add(1)
}

/// Counts the calls of partitions, the events that were handled and the commits that were told of, and how
/// often the handler was called out of order, with another note or for another grain, or `done` without a turn.
///
/// Each batch has to be one event, each stream to have a queue of its own, and the grain of each subscription the key of
/// its stream.
#[derive(Drop)]
pub struct Recorder {
    calls: AtomicU64,
    handled: AtomicU64,
    done: AtomicU64,
    astray: AtomicU64,
    told: [Told; 4],
}

impl Recorder {
    pub fn new() -> Recorder {
        Recorder {
            calls: AtomicU64::new(0),
            handled: AtomicU64::new(0),
            done: AtomicU64::new(0),
            astray: AtomicU64::new(0),
            told: [Told::new(), Told::new(), Told::new(), Told::new()],
        }
    }

    /// How many calls of partitions there were.
    pub fn calls(&self) -> u64 {
        self.calls.load(Ordering::SeqCst)
    }

    /// How many events were handled, how many commits were told of, and how much of that was out of order.
    pub fn work(&self) -> (u64, u64, u64) {
        (
            self.handled.load(Ordering::SeqCst),
            self.done.load(Ordering::SeqCst),
            self.astray.load(Ordering::SeqCst),
        )
    }

    // What it was told of a subscription: by its number, and at 0 of the implicit one.
    fn told(&self, sub: &SubName) -> Option<&Told> {
        match *sub {
            SubName::Explicit(number) => self.told.get(number as usize),
            SubName::Implicit { .. } => self.told.get(0),
        }
    }

    fn note(&self, in_order: bool) {
        if !in_order {
            self.astray.fetch_add(1, Ordering::SeqCst);
        }
    }
}

impl Gate for Recorder {
    fn inside(&self, _queue: usize) {
        self.calls.fetch_add(1, Ordering::SeqCst);
    }

    fn handle(&self, sub: &SubName, event: &Event, note: u64) -> u64 {
        self.handled.fetch_add(1, Ordering::SeqCst);
        let in_order = match self.told(sub) {
            Some(told) => told.handle(event.token, note),
            None => false,
        };
        self.note(in_order);
        note_after(event.token, note)
    }

    fn handle_for(&self, grain: &GrainId, sub: &SubName, event: &Event, note: u64) -> u64 {
        self.note(grain.key == event.stream.key);
        self.handle(sub, event, note)
    }

    fn done(&self, sub: &SubName, token: Token) {
        self.done.fetch_add(1, Ordering::SeqCst);
        let in_order = match self.told(sub) {
            Some(told) => told.done(token),
            None => false,
        };
        self.note(in_order);
    }
}
