//! What no clause says: that a call succeeds, and what want of memory leaves.
use crate::log::Log;
use crate::names::{payload, stream};
use crate::rows::{Asked, Twin, ask_both};
use partition_queue::Appended;
use queue_mapper::{HeaderRef, tag};
use std::alloc::{AllocError, Global};
use std::process::Abort;
use std::test::Fail;
use stream_ident::{Event, Token};

/// What is asked of a log, and what it has to answer.
pub(crate) enum Call {
    /// A batch of so many events of the stream o/KEY, and what becomes of it.
    Append(u8, usize, Appended),
    /// How many events there are, and how many batches.
    Len(usize, u64),
    /// The token of a position.
    Token(usize, u64, u32),
    /// The event of a position: the key of its stream, its token, and its payload's byte.
    Event(usize, u8, u64, u32, u8),
    /// The headers of the events from a position on are read, so many, with their tags.
    Read(usize, usize),
}

/// Whether a position has an event.
fn is_at(log: &Log, position: usize, wanted: &Event) -> bool {
    position < log.queue.len() && log.queue.event_at(position) == *wanted
}

/// Whether a header is that of the event at a position, with the tag of its stream.
fn is_read(log: &Log, header: &HeaderRef, position: usize) -> bool {
    if position >= log.queue.len() {
        return false;
    }
    let event = log.queue.event_at(position);
    *header.stream() == event.stream
        && header.token() == event.token
        && header.tag() == tag(&event.stream)
}

/// Whether so many headers are read from a position on.
fn reads<R: Abort>(rt: &R, log: &Log, from: usize, count: usize) -> bool {
    let len = log.queue.len();
    assert!(rt; from <= len && count <= len - from);
    let span = log.queue.between(from, from + count);
    for place in 0..span.len() {
        if !is_read(log, &span.at(place), from.wrapping_add(place)) {
            return false;
        }
    }
    span.len() == count
}

impl Asked for Log {
    type Call = Call;

    fn is_so<R: Abort>(&mut self, rt: &R, alloc: Global, call: &Call) -> Result<bool, AllocError> {
        Ok(match *call {
            Call::Append(key, count, became) => self.append(rt, alloc, key, count)? == became,
            Call::Len(len, batches) => {
                self.queue.len() == len
                    && self.queue.batches() == batches
                    && self.queue.is_empty() == (len == 0)
            }
            Call::Token(position, seq, idx) => {
                position <= self.queue.len() && self.queue.token_at(position) == Token { seq, idx }
            }
            Call::Event(position, key, seq, idx, byte) => {
                let wanted = Event {
                    stream: stream(rt, b'o', key),
                    token: Token { seq, idx },
                    payload: payload(rt, byte),
                };
                is_at(self, position, &wanted)
            }
            Call::Read(from, count) => reads(rt, self, from, count),
        })
    }
}

impl Twin for Log {
    fn is_like<R: Abort>(&self, _rt: &R, twin: &Log) -> bool {
        for position in 0..self.queue.len() {
            if !is_at(twin, position, &self.queue.event_at(position)) {
                return false;
            }
        }
        self.queue.len() == twin.queue.len() && self.queue.batches() == twin.queue.batches()
    }
}

/// Batches are counted from 0.
const COUNTED: [Call; 12] = [
    Call::Len(0, 0),
    Call::Token(0, 0, 0),
    Call::Append(b'1', 0, Appended::BadBatch),
    Call::Append(b'1', 65, Appended::BadBatch),
    Call::Append(b'1', 64, Appended::Accepted { seq: 0 }),
    Call::Append(b'1', 3, Appended::QueueFull),
    Call::Append(b'1', 65, Appended::BadBatch),
    Call::Append(b'1', 2, Appended::Accepted { seq: 1 }),
    Call::Append(b'1', 1, Appended::QueueFull),
    Call::Append(b'1', 64, Appended::QueueFull),
    Call::Append(b'1', 0, Appended::BadBatch),
    Call::Len(66, 2),
];

/// Tokens are counted in a batch.
const TOKENS: [Call; 11] = [
    Call::Append(b'1', 1, Appended::Accepted { seq: 0 }),
    Call::Append(b'1', 3, Appended::Accepted { seq: 1 }),
    Call::Append(b'1', 2, Appended::Accepted { seq: 2 }),
    Call::Len(6, 3),
    Call::Token(0, 0, 0),
    Call::Token(1, 1, 0),
    Call::Token(2, 1, 1),
    Call::Token(3, 1, 2),
    Call::Token(4, 2, 0),
    Call::Token(5, 2, 1),
    Call::Token(6, 3, 0),
];

/// Events are read by position.
const EVENTS: [Call; 9] = [
    Call::Append(b'1', 2, Appended::Accepted { seq: 0 }),
    Call::Append(b'2', 3, Appended::Accepted { seq: 1 }),
    Call::Append(b'1', 1, Appended::Accepted { seq: 2 }),
    Call::Len(6, 3),
    Call::Event(0, b'1', 0, 0, b' '),
    Call::Event(1, b'1', 0, 1, b'!'),
    Call::Event(2, b'2', 1, 0, b' '),
    Call::Event(4, b'2', 1, 2, b'"'),
    Call::Event(5, b'1', 2, 0, b' '),
];

/// Events are read from one position to another.
const READ: [Call; 5] = [
    Call::Append(b'1', 4, Appended::Accepted { seq: 0 }),
    Call::Len(4, 1),
    Call::Read(0, 4),
    Call::Read(1, 2),
    Call::Read(2, 0),
];

/// How many events a log may have, and what is asked.
static CASES: [(usize, &[Call]); 4] = [(66, &COUNTED), (10, &TOKENS), (10, &EVENTS), (10, &READ)];

/// Logs answer as the cases say, and a log stays as its twin is, which is one call behind where memory is refused.
#[test]
fn logs_are_asked(rt: HostRuntime) -> Result<(), Fail> {
    for (case, (limit, calls)) in CASES.iter().enumerate() {
        let mut log = Log::new(&rt, rt.alloc(), *limit);
        let mut twin = Log::new(&rt, rt.alloc(), *limit);
        ask_both(&rt, rt.alloc(), &mut log, &mut twin, case, calls)?;
    }
    Ok(())
}
