//! The queue of a partition.
ghost use Rattle.std.specs.Prelude.{◌≡◌, ℕ, ◌+◌, ◌-◌, ◌*◌, ◌^◌, ◌<◌, ◌≤◌, ◌↔◌, ◌++◌, List, [], ◌∷◌, true, length, get_or, map, IfOk, IsTrue, MatchOption, OnErr, OnOk, vec_len, vec_capacity};
ghost use Rattle.stream_ident.specs.declared.limits.TheConstants.{MOST_EVENTS};
ghost use Rattle.std.specs.List.{AllByRecursion, concat};
ghost use Rattle.stream_ident.specs.declared.ident.StreamId.{StreamId};
ghost use Rattle.stream_ident.specs.Alphabet.{IsPayload};
ghost use Rattle.partition_queue.specs.Log.{entries_of, entry_of, event_of, no_stream, Grows, IsEntry};
ghost use Rattle.partition_queue.specs.Queue.{append, between, empty, event_at, takes_memory, token_at, Fits, TokensRise};
ghost use Rattle.queue_mapper.specs.Place.{bare};
ghost use Rattle.stream_ident.specs.Words.{Performs};

use crate::appended::Appended;
use crate::span::Span;
use crate::streams::Streams;
use queue_mapper::HeaderRef;
use std::alloc::{AllocError, Global};
use std::marker::Model;
use stream_ident::{BATCH_EVENTS, Batch, Event, PAYLOAD_BYTES, Payload, StreamId, Token};

/// What the log keeps of an event: the number of its stream, its token, and where its payload lies. It
/// takes 16 bytes.
#[derive(Clone, Copy, Debug)]
struct Entry {
    /// The number of the stream among those of the log.
    stream: u32,
    /// The number of the batch.
    seq: u32,
    /// Where the payload begins among the bytes of the log.
    start: u32,
    /// How many bytes the payload has.
    len: u16,
    /// The place in the batch.
    idx: u16,
}

impl Entry {
    ghost use Rattle.partition_queue.specs.Log.{token_of};

    /// The token of the event.
    fn token(&self) -> Token
        ensures { result ≡ token_of self.now }
    {
        Token {
            seq: self.seq as u64,
            idx: self.idx as u32,
        }
    }
}

/// The log of a partition: the events of the batches that it accepted, in order, at the positions 0, 1, 2
/// and so on.
///
/// A contract sees it as the events, the number of batches that it accepted, and how many events it may
/// have. Its room in memory is no part of it. An event stays at its position: none is ever changed or
/// taken out.
///
/// It keeps each stream once, with its tag, all payloads in one row of bytes, and 16 bytes more for each
/// event.
#[derive(Debug)]
pub struct PartitionQueue {
    streams: Streams,
    bytes: Vec<u8>,
    entries: Vec<Entry>,
    batches: u64,
    limit: usize,
}

impl Drop for PartitionQueue {
    fn drop(self) {
        let Self {
            streams: _,
            bytes: _,
            entries: _,
            batches: _,
            limit: _,
        } = self;
    }
}

impl Model for PartitionQueue {
    ghost use Rattle.partition_queue.specs.Log.{events_in, IsKept};
    ghost use Rattle.partition_queue.specs.Queue.{PlainQueue, IsLog};

    ghost Value = { PlainQueue };

    ghost view = { λ q. record { events = events_in q.streams q.bytes.items q.entries.items; batches = q.batches; limit = q.limit } };

    ghost invariant = { λ q. IsLog (record { events = events_in q.streams q.bytes.items q.entries.items; batches = q.batches; limit = q.limit }) × IsKept q.streams q.bytes.items q.entries.items };
}

impl PartitionQueue {
    /// A queue with no events, which takes at most `limit` events, at most 1,000,000. It takes no memory.
    pub fn new(alloc: Global, limit: usize) -> PartitionQueue
        requires { limit ≤ MOST_EVENTS }
        ensures { result ≡ empty limit }
    {
        PartitionQueue {
            streams: Streams::new(alloc),
            bytes: Vec::new(alloc),
            entries: Vec::new(alloc),
            batches: 0,
            limit,
        }
    }

    /// Puts the events of a batch at the end, all or none of them, and gives the number of the batch, or
    /// why it was refused. A batch has 1 to 64 payloads. A refusal changes nothing and takes no memory.
    ///
    /// The stream is looked up once, and each payload is written once, into its place. Where the room is used
    /// up the queue moves into a larger one, which copies all that it keeps.
    ///
    /// # Errors
    /// The call failed to allocate, and nothing has changed. That can happen only at a batch that would be
    /// accepted.
    pub fn append(
        &mut self,
        _alloc: Global,
        stream: &StreamId,
        payloads: &Batch,
    ) -> Result<Appended, AllocError>
        ensures performs { Performs self.old self.new result (append self.old stream.now payloads.now) }
        ensures memory { OnErr result (takes_memory (append self.old stream.now payloads.now).1 ≡ true) }
    {
        let payloads = payloads.as_slice();
        if let Some(refusal) = self.refusal(payloads.len()) {
            return Ok(refusal);
        }
        let stream = make_room(
            &mut self.streams,
            &mut self.entries,
            &mut self.bytes,
            stream,
            payloads.len(),
        )?;
        let seq = self.batches;
        push_events(
            &mut self.entries,
            &mut self.bytes,
            stream,
            seq as u32,
            payloads,
        );
        self.batches = seq + 1;
        Ok(Appended::Accepted { seq })
    }

    /// Puts the events of a batch at the end, as `append` does it, where each payload is lent as its bytes.
    ///
    /// # Errors
    /// They are those of `append`.
    pub fn append_slices(
        &mut self,
        _alloc: Global,
        stream: &StreamId,
        payloads: &[&[u8]],
    ) -> Result<Appended, AllocError>
        requires { AllByRecursion IsPayload (map (λ payload. payload.now) payloads.now) }
        ensures performs { Performs self.old self.new result (append self.old stream.now (map (λ payload. payload.now) payloads.now)) }
        ensures memory { OnErr result (takes_memory (append self.old stream.now (map (λ payload. payload.now) payloads.now)).1 ≡ true) }
    {
        if let Some(refusal) = self.refusal(payloads.len()) {
            return Ok(refusal);
        }
        let stream = make_room(
            &mut self.streams,
            &mut self.entries,
            &mut self.bytes,
            stream,
            payloads.len(),
        )?;
        let seq = self.batches;
        push_slices(
            &mut self.entries,
            &mut self.bytes,
            stream,
            seq as u32,
            payloads,
        );
        self.batches = seq + 1;
        Ok(Appended::Accepted { seq })
    }

    /// Why a batch of this many payloads is refused, or none where it is accepted.
    fn refusal(&self, count: usize) -> Option<Appended>
        ensures { MatchOption result (Fits self.now count) (λ refusal. (stream : StreamId) (payloads : List (List ℕ)) → length payloads ≡ count → append self.now stream payloads ≡ (self.now, refusal)) }
    {
        if count == 0 || count > BATCH_EVENTS {
            return Some(Appended::BadBatch);
        }
        if count > self.limit - self.len() {
            return Some(Appended::QueueFull);
        }
        None
    }

    /// How many events there are.
    pub fn len(&self) -> usize
        ensures count { result ≡ length self.now.events }
        ensures limit { result ≤ self.now.limit }
        ensures rising { TokensRise self.now }
    {
        self.entries.len()
    }

    /// Whether there are no events.
    pub fn is_empty(&self) -> bool
        ensures { IsTrue result ↔ (self.now.events ≡ []) }
    {
        self.entries.is_empty()
    }

    /// How many batches were accepted: the number of the next one.
    pub fn batches(&self) -> u64
        ensures count { result ≡ self.now.batches }
        ensures within { result ≤ length self.now.events }
    {
        self.batches
    }

    /// The event at a position. It is put together of what the log keeps of it.
    pub fn event_at(&self, position: usize) -> Event
        requires { position < length self.now.events }
        ensures { result ≡ event_at self.now position }
    {
        event_of(&self.streams, &self.bytes, &self.entries[position])
    }

    /// The token of the event at a position, and at the end the token that the next event gets.
    pub fn token_at(&self, position: usize) -> Token
        requires { position ≤ length self.now.events }
        ensures { result ≡ token_at self.now position }
    {
        match self.entries.get(position) {
            Some(entry) => entry.token(),
            None => Token {
                seq: self.batches,
                idx: 0,
            },
        }
    }

    /// The header of the event at a position, which is lent. No payload is read, no name copied, and no digest computed.
    pub fn header_at(&self, position: usize) -> HeaderRef<'_>
        requires { position < length self.now.events }
        ensures { result ≡ bare (event_at self.now position) }
    {
        header_of(&self.streams, &self.entries[position])
    }

    /// The events from one position up to another, that at `to` left out, to be read by their headers.
    pub fn between(&self, from: usize, to: usize) -> Span<'_>
        requires order { from ≤ to }
        requires end { to ≤ length self.now.events }
        ensures { result ≡ map bare (between self.now from to) }
    {
        Span::new(self, from, to)
    }
}

/// Makes room for the events of a batch, and gives the number of its stream.
///
/// # Errors
/// The call failed to allocate, and at most the room has changed.
fn make_room(
    streams: &mut Streams,
    entries: &mut Vec<Entry>,
    bytes: &mut Vec<u8>,
    stream: &StreamId,
    count: usize,
) -> Result<u32, AllocError>
    requires few { length streams.old < MOST_EVENTS }
    requires count { count ≤ BATCH_EVENTS }
    ensures entries { entries.new.items ≡ entries.old.items }
    ensures bytes { bytes.new.items ≡ bytes.old.items }
    ensures entries_room { OnOk result (vec_len entries.new + count ≤ vec_capacity entries.new) }
    ensures bytes_room { OnOk result (vec_len bytes.new + PAYLOAD_BYTES * count ≤ vec_capacity bytes.new) }
    ensures within { IfOk result (λ number. number < length streams.new) }
    ensures stored { IfOk result (λ number. get_or streams.new number no_stream ≡ stream.now) }
    ensures grows { OnOk result (Grows streams.old streams.new) }
    ensures err { OnErr result (streams.new ≡ streams.old) }
{
    entries.reserve(count)?;
    bytes.reserve(PAYLOAD_BYTES * count)?;
    // The stream comes last: what is reserved before it is no change.
    streams.number_of(stream)
}

/// Writes the events of a batch into room that is there.
fn push_events(
    entries: &mut Vec<Entry>,
    bytes: &mut Vec<u8>,
    stream: u32,
    seq: u32,
    payloads: &[Payload],
)
    requires few { length payloads.now ≤ BATCH_EVENTS }
    requires starts { length bytes.old.items ≤ PAYLOAD_BYTES * MOST_EVENTS }
    requires room { vec_len entries.old + length payloads.now ≤ vec_capacity entries.old }
    requires bytes { vec_len bytes.old + PAYLOAD_BYTES * length payloads.now ≤ vec_capacity bytes.old }
    ensures entries { entries.new.items ≡ entries.old.items ++ entries_of stream seq 0 (length bytes.old.items) payloads.now }
    ensures bytes { bytes.new.items ≡ bytes.old.items ++ concat payloads.now }
    ensures payloads { AllByRecursion IsPayload payloads.now }
{
    for (idx, payload) in payloads.iter().enumerate() {
        push_event(entries, bytes, stream, seq, idx, payload.as_bytes());
    }
}

/// Writes the events of a batch whose payloads are lent into room that is there.
fn push_slices(
    entries: &mut Vec<Entry>,
    bytes: &mut Vec<u8>,
    stream: u32,
    seq: u32,
    payloads: &[&[u8]],
)
    requires payloads { AllByRecursion IsPayload (map (λ payload. payload.now) payloads.now) }
    requires few { length payloads.now ≤ BATCH_EVENTS }
    requires starts { length bytes.old.items ≤ PAYLOAD_BYTES * MOST_EVENTS }
    requires room { vec_len entries.old + length payloads.now ≤ vec_capacity entries.old }
    requires bytes { vec_len bytes.old + PAYLOAD_BYTES * length payloads.now ≤ vec_capacity bytes.old }
    ensures entries { entries.new.items ≡ entries.old.items ++ entries_of stream seq 0 (length bytes.old.items) (map (λ payload. payload.now) payloads.now) }
    ensures bytes { bytes.new.items ≡ bytes.old.items ++ concat (map (λ payload. payload.now) payloads.now) }
{
    for (idx, payload) in payloads.iter().enumerate() {
        push_event(entries, bytes, stream, seq, idx, *payload);
    }
}

/// Writes one event of a batch into room that is there.
fn push_event(
    entries: &mut Vec<Entry>,
    bytes: &mut Vec<u8>,
    stream: u32,
    seq: u32,
    idx: usize,
    payload: &[u8],
)
    requires few { idx < BATCH_EVENTS }
    requires short { length payload.now ≤ PAYLOAD_BYTES }
    requires starts { length bytes.old.items < 2 ^ 32 }
    requires room { vec_len entries.old < vec_capacity entries.old }
    requires bytes { vec_len bytes.old + length payload.now ≤ vec_capacity bytes.old }
    ensures entries { entries.new.items ≡ entries.old.items ++ entry_of stream seq idx (length bytes.old.items) payload.now ∷ [] }
    ensures bytes { bytes.new.items ≡ bytes.old.items ++ payload.now }
    ensures room { vec_capacity entries.new ≡ vec_capacity entries.old }
    ensures bytes_room { vec_capacity bytes.old ≤ vec_capacity bytes.new }
{
    entries.push_reserved(Entry {
        stream,
        seq,
        start: bytes.len() as u32,
        len: payload.len() as u16,
        idx: idx as u16,
    });
    bytes.extend_from_slice(payload).unwrap();
}

/// The event of an entry, of these streams and bytes.
fn event_of(streams: &Streams, bytes: &[u8], entry: &Entry) -> Event
    requires { IsEntry streams.now bytes.now entry.now }
    ensures { result ≡ event_of streams.now bytes.now entry.now }
{
    let start = entry.start as usize;
    Event {
        stream: *streams.get(entry.stream),
        token: entry.token(),
        payload: payload_of(&bytes[start..start + entry.len as usize]),
    }
}

/// The header of the event of an entry, of these streams.
fn header_of<'a>(streams: &'a Streams, entry: &Entry) -> HeaderRef<'a>
    requires { entry.now.stream < length streams.now }
    ensures { (bytes : List ℕ) → result ≡ bare (event_of streams.now bytes entry.now) }
{
    HeaderRef::new(
        streams.get(entry.stream),
        entry.token(),
        streams.tag(entry.stream),
    )
}

/// The payload of bytes that are one.
fn payload_of(bytes: &[u8]) -> Payload
    requires { IsPayload bytes.now }
    ensures { result ≡ bytes.now }
{
    Payload::new(bytes).unwrap()
}
