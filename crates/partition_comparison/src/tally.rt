//! How often each operation had each reply.
use crate::kinds::{ENDS, OPERATIONS, REPLIES, end_kind, operation_kind, reply_kind};
use std::alloc::{AllocError, Global};
use std::io;
use step_core::{DrainEnd, Op, Reply};

/// How often each operation had each reply, and each end of a drain came.
pub struct Tally {
    /// The counts of the first operation's replies, then those of the next.
    replies: Vec<u64>,
    ends: Vec<u64>,
}

impl Drop for Tally {
    fn drop(self) {
        let Self {
            replies: _,
            ends: _,
        } = self;
    }
}

impl Tally {
    /// Nothing is counted yet.
    ///
    /// # Errors
    /// The call failed to allocate.
    pub fn new(alloc: Global) -> Result<Tally, AllocError> {
        Ok(Tally {
            replies: vec![in alloc; 0; OPERATIONS.len() * REPLIES.len()]?,
            ends: vec![in alloc; 0; ENDS.len()]?,
        })
    }

    /// Counts a reply.
    pub fn count(&mut self, op: &Op, reply: &Reply) {
        let row = operation_kind(op) * REPLIES.len();
        count_at(&mut self.replies, row + reply_kind(reply));
    }

    /// Counts the end of a drain.
    pub fn count_end(&mut self, end: &DrainEnd) {
        count_at(&mut self.ends, end_kind(end));
    }

    /// How many operations were counted.
    pub fn total(&self) -> u64 {
        let mut total = 0u64;
        for count in &self.replies {
            total = total.saturating_add(*count);
        }
        total
    }

    /// How many kinds of reply came.
    pub fn kinds(&self) -> usize {
        let mut kinds = 0usize;
        for kind in 0..REPLIES.len() {
            if self.came(kind) {
                kinds = kinds.saturating_add(1);
            }
        }
        kinds
    }

    /// Whether a kind of reply came.
    fn came(&self, kind: usize) -> bool {
        for counts in self.replies.chunks_exact(REPLIES.len()) {
            if is_counted(counts, kind) {
                return true;
            }
        }
        false
    }

    /// Prints a line for each operation, with the replies that it had.
    ///
    /// # Errors
    /// The output couldn't be written.
    pub fn print(&self, rt: &impl Print) -> io::Result<()> {
        let rows = self.replies.chunks_exact(REPLIES.len());
        for (name, counts) in OPERATIONS.iter().zip(rows) {
            print_counts(rt, name, REPLIES.as_slice(), counts)?;
        }
        print_counts(rt, "drain", ENDS.as_slice(), self.ends.as_slice())
    }
}

/// Counts what has this place.
fn count_at(counts: &mut [u64], place: usize) {
    if let Some(count) = counts.get_mut(place) {
        *count = count.saturating_add(1);
    }
}

/// Whether what has this place was counted.
fn is_counted(counts: &[u64], place: usize) -> bool {
    match counts.get(place) {
        Some(count) => *count > 0,
        None => false,
    }
}

/// Prints a line: a name, and behind it what came, with the counts.
fn print_counts(rt: &impl Print, name: &str, replies: &[&str], counts: &[u64]) -> io::Result<()> {
    print!(rt; "{name:<12}")?;
    for (reply, count) in replies.iter().zip(counts.iter()) {
        print_count(rt, reply, *count)?;
    }
    println!(rt; "")
}

/// Prints what came, with its count, if it did.
fn print_count(rt: &impl Print, reply: &str, count: u64) -> io::Result<()> {
    if count == 0 {
        return Ok(());
    }
    print!(rt; " {reply} {count}")
}
