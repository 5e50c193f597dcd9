//! Where the agent of a silo waits, or its workers, and the hints that are left for them.

use std::alloc::{AllocError, Global};
use std::sync::atomic::{AtomicBool, AtomicU64, Ordering};
use std::sync::{Condvar, Mutex, Wait};
use std::thread;

// How often a loop looks for a hint, and yields, before it looks at all its queues.
const MOST_GLANCES: u32 = 60;

/// Some of the queues, as bits. Of queues from 64 on it has each.
#[derive(Clone, Copy, Debug, PartialEq, Eq)]
pub struct QueueSet {
    bits: u64,
}

impl QueueSet {
    /// Whether it has the queue.
    pub fn has(&self, queue: usize) -> bool {
        match bit(queue) {
            Some(bit) => self.bits & bit != 0,
            None => true,
        }
    }

    /// Whether it has no queue below 64.
    pub fn is_empty(&self) -> bool {
        self.bits == 0
    }

    // The queue too.
    fn add(&mut self, queue: usize) {
        if let Some(bit) = bit(queue) {
            self.bits |= bit;
        }
    }
}

/// Whether the queue is one of these, where there are some, or else one of all.
pub fn is_among(queues: &Option<QueueSet>, queue: usize) -> bool {
    match *queues {
        Some(ref queues) => queues.has(queue),
        None => true,
    }
}

// The bit of a queue, where it has one.
fn bit(queue: usize) -> Option<u64> {
    if queue < 64 { Some(1 << queue) } else { None }
}

/// A count at which the loops of one kind at a silo wait, and hints of the queues at which they are to look first; or one
/// at which all wait, without queues.
#[derive(Drop)]
pub struct Desk {
    hints: Vec<AtomicBool>,
    // for each queue whether a ready grain was found there whose permit is out
    busy: Vec<AtomicBool>,
    count: Mutex<u64>,
    rung: Condvar,
    is_open: AtomicBool,
    waiting: AtomicU64,
    handling: AtomicU64,
    handled: AtomicU64,
}

/// So many flags that aren't set.
pub(crate) fn flags(alloc: Global, count: usize) -> Result<Vec<AtomicBool>, AllocError> {
    let mut flags = Vec::with_capacity(alloc, count)?;
    for _ in 0..count {
        flags.push(AtomicBool::new(false))?;
    }
    Ok(flags)
}

/// Sets the flag at this place, or not. It is written only where that changes it, so that threads that only read it
/// share it.
pub(crate) fn set(flags: &Vec<AtomicBool>, at: usize, is_set: bool) {
    if let Some(flag) = flags.get(at)
        && flag.load(Ordering::SeqCst) != is_set
    {
        flag.store(is_set, Ordering::SeqCst);
    }
}

impl Desk {
    /// A desk for so many queues, with no hint, whose count begins with this number.
    pub(crate) fn new(alloc: Global, queues: usize, count: u64) -> Result<Desk, AllocError> {
        Ok(Desk {
            hints: flags(alloc, queues)?,
            busy: flags(alloc, queues)?,
            count: Mutex::new(count),
            rung: Condvar::new(),
            is_open: AtomicBool::new(false),
            waiting: AtomicU64::new(0),
            handling: AtomicU64::new(0),
            handled: AtomicU64::new(0),
        })
    }

    /// Leaves a hint of a queue, or takes it away.
    pub(crate) fn hint(&self, queue: usize, is_hinted: bool) {
        set(&self.hints, queue, is_hinted);
    }

    /// The queues with a hint, which may be taken away.
    pub(crate) fn hinted(&self, takes: bool) -> QueueSet {
        let mut hinted = QueueSet { bits: 0 };
        for (queue, hint) in self.hints.iter().enumerate() {
            if hint.load(Ordering::SeqCst) && (!takes || hint.swap(false, Ordering::SeqCst)) {
                hinted.add(queue);
            }
        }
        hinted
    }

    /// The queues with a hint, where there are some. It looks for some time, since threads are woken slowly.
    pub(crate) fn watch(&self, takes: bool) -> Option<QueueSet> {
        for _ in 0..MOST_GLANCES {
            let hinted = self.hinted(takes);
            if !hinted.is_empty() {
                return Some(hinted);
            }
            thread::yield_now();
        }
        None
    }

    /// Counts one more, and wakes all that wait here.
    pub(crate) fn ring<R: Wait>(&self, rt: &R) {
        let mut count = self.count.lock(rt);
        *count = count.wrapping_add(1);
        drop(count);
        self.rung.notify_all();
    }

    /// Leaves a hint of a queue, and then counts one more and wakes all that wait here.
    pub(crate) fn tell<R: Wait>(&self, rt: &R, queue: usize) {
        self.hint(queue, true);
        self.ring(rt);
    }

    /// The count, to be remembered before a loop looks for something to do.
    pub(crate) fn now<R: Wait>(&self, rt: &R) -> u64 {
        *self.count.lock(rt)
    }

    /// Waits while the count is this one and `stop` isn't set. Whoever sets `stop` rings after it.
    pub(crate) fn wait_past<R: Wait>(&self, rt: &R, seen: u64, stop: &AtomicBool) {
        self.waiting.fetch_add(1, Ordering::SeqCst);
        let count = self.rung.wait_while(rt, self.count.lock(rt), |count| {
            *count == seen && !stop.load(Ordering::SeqCst)
        });
        drop(count);
        self.waiting.fetch_sub(1, Ordering::SeqCst);
    }

    /// Whether a loop waits here.
    pub(crate) fn is_waited_at(&self) -> bool {
        self.waiting.load(Ordering::SeqCst) > 0
    }

    /// The silo's loops run from now on, or are told to stop.
    pub(crate) fn open(&self, is_open: bool) {
        self.handling.store(0, Ordering::SeqCst);
        self.is_open.store(is_open, Ordering::SeqCst);
    }

    /// Whether the silo's loops run.
    pub(crate) fn is_open(&self) -> bool {
        self.is_open.load(Ordering::SeqCst)
    }

    /// A worker of the silo begins to handle the events of a turn.
    pub(crate) fn begin(&self) {
        self.handling.fetch_add(1, Ordering::SeqCst);
    }

    /// It has handled them.
    pub(crate) fn end(&self) {
        self.handling.fetch_sub(1, Ordering::SeqCst);
        self.handled.fetch_add(1, Ordering::SeqCst);
    }

    /// How many turns the silo's workers have handled, where both of them handle events now.
    pub(crate) fn all_handle(&self) -> Option<u64> {
        if self.handling.load(Ordering::SeqCst) < 2 {
            return None;
        }
        Some(self.handled.load(Ordering::SeqCst))
    }

    /// A ready grain was found at the queue whose permit is out. For the first one there is a hint once more, since the
    /// permit may have been given back meanwhile.
    pub(crate) fn busy(&self, queue: usize) {
        if let Some(busy) = self.busy.get(queue)
            && !busy.swap(true, Ordering::SeqCst)
        {
            self.hint(queue, true);
        }
    }

    /// A permit was given back: where a ready grain waited for one, that is told.
    pub(crate) fn left<R: Wait>(&self, rt: &R) {
        let mut is_told = false;
        for (queue, busy) in self.busy.iter().enumerate() {
            if busy.load(Ordering::SeqCst) && busy.swap(false, Ordering::SeqCst) {
                self.hint(queue, true);
                is_told = true;
            }
        }
        if is_told {
            self.ring(rt);
        }
    }
}

/// The count at a desk, where there is one.
pub fn count_at<R: Wait>(rt: &R, desk: Option<&Desk>) -> u64 {
    match desk {
        Some(desk) => desk.now(rt),
        None => 0,
    }
}

/// Waits at a desk, where there is one, while its count is this one and `stop` isn't set.
pub fn wait_at<R: Wait>(rt: &R, desk: Option<&Desk>, seen: u64, stop: &AtomicBool) {
    if let Some(desk) = desk {
        desk.wait_past(rt, seen, stop);
    }
}
