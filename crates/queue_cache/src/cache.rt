//! Caches: rings of blocks, each with the headers of some events and beside them their tags.
ghost use Rattle.std.specs.Prelude.{◌≡◌, ◌+◌, ◌-◌, ◌*◌, ◌^◌, ◌<◌, ◌≤◌, [], ◌∷◌, ◌++◌, length, IfOk, drop, replicate, slice_set, slice_index_or, take};
ghost use Rattle.stream_ident.specs.declared.limits.TheConstants.{MOST_BLOCKS};
ghost use Rattle.circular_buffer.specs.Buffer.{buffer};
ghost use Rattle.queue_mapper.specs.Place.{tags_of};
ghost use Rattle.queue_cache.specs.Cache.{empty, high, room, event_at, with_events, without_front, block_count, block_events};

use circular_buffer::HeapCircularBuffer;
use partition_queue::Span;
use queue_mapper::{EventHeader, HeaderRef};
use std::alloc::{AllocError, Global};
use std::marker::Model;
use stream_ident::BLOCK_EVENTS;

/// The headers of at most 64 events, and the tags of their streams in a row of bytes that can be searched fast.
///
/// A contract sees it as the list of its events.
#[derive(Drop)]
pub struct Block {
    headers: Vec<EventHeader>,
    tags: [u8; BLOCK_EVENTS],
}

impl Model for Block {
    ghost use Rattle.std.specs.Prelude.{List};
    ghost use Rattle.std.specs.Vec.{vec_capacity};
    ghost use Rattle.stream_ident.specs.declared.event.Event.{Event};
    ghost use Rattle.queue_cache.specs.Block.{IsBlock};

    ghost Value = { List Event };

    ghost view = { λ b. b.headers.items };

    ghost invariant = { λ b. IsBlock b.headers.items b.headers.len (vec_capacity b.headers) b.tags };
}

impl Block {
    /// The headers of the events, in order.
    pub fn headers(&self) -> &[EventHeader]
        ensures events { result.now ≡ self.now }
        ensures bound { length self.now ≤ BLOCK_EVENTS }
    {
        self.headers.as_slice()
    }

    /// The tag of each event's stream, at the event's place. What stands past the last event means nothing.
    pub fn tags(&self) -> &[u8; BLOCK_EVENTS]
        ensures tags { take (length self.now) result.now ≡ tags_of self.now }
        ensures places { length result.now ≡ BLOCK_EVENTS }
    {
        &self.tags
    }

    /// An empty block, with room for its headers.
    fn new(alloc: Global) -> Result<Block, AllocError>
        ensures { IfOk result (λ block. block ≡ []) }
    {
        Ok(Block {
            headers: Vec::with_capacity(alloc, BLOCK_EVENTS)?,
            tags: [0; BLOCK_EVENTS],
        })
    }

    /// Takes one event in at the end. It takes no memory.
    fn push(&mut self, header: &HeaderRef)
        requires { length self.old < BLOCK_EVENTS }
        ensures { self.new ≡ self.old ++ header.now ∷ [] }
    {
        self.tags[self.headers.len()] = header.tag();
        self.headers.push_reserved(header.to_header());
    }

    /// Drops the events, and keeps their room.
    fn clear(&mut self)
        ensures { self.new ≡ [] }
    {
        self.headers.clear();
    }
}

/// A cache of events at positions that follow one another, in 1 to 64 blocks of 64.
///
/// It holds all its blocks from the start: those with events first, each full but the last, and then empty
/// ones. Only `new` takes memory. A contract sees the cache as its events, the position of the first of
/// them, and how many blocks it has.
pub struct QueueCache {
    ring: HeapCircularBuffer<Block>,
    low: usize,
    len: usize,
}

impl Drop for QueueCache {
    fn drop(self) {
        let Self {
            ring: _,
            low: _,
            len: _,
        } = self;
    }
}

impl Model for QueueCache {
    ghost use Rattle.queue_cache.specs.Cache.{PlainCache};
    ghost use Rattle.queue_cache.specs.Ring.{plain_of, IsRing};

    ghost Value = { PlainCache };

    ghost view = { λ c. plain_of c.ring.items c.low };

    ghost invariant = { λ c. IsRing c.ring.items c.ring.capacity c.low c.len };
}

impl QueueCache {
    /// An empty cache of 1 to 64 blocks, whose first event will be at this position.
    ///
    /// # Errors
    /// The call failed to allocate the blocks, which take some 10 KB each.
    pub fn new(alloc: Global, blocks: usize, at: usize) -> Result<QueueCache, AllocError>
        requires some { 1 ≤ blocks }
        requires few { blocks ≤ MOST_BLOCKS }
        ensures { IfOk result (λ cache. cache ≡ empty blocks at) }
    {
        Ok(QueueCache {
            ring: empty_ring(alloc, blocks)?,
            low: at,
            len: 0,
        })
    }

    /// How many more events the cache takes.
    pub fn room(&self) -> usize
        ensures { result ≡ room self.now }
    {
        BLOCK_EVENTS * self.ring.len() - self.len
    }

    /// The position of the first event, or of the next where there is none.
    pub fn low(&self) -> usize
        ensures { result ≡ self.now.low }
    {
        self.low
    }

    /// One past the position of the last event.
    pub fn high(&self) -> usize
        ensures { result ≡ high self.now }
    {
        self.low + self.len
    }

    /// How many blocks the cache has, with events or without.
    pub fn blocks(&self) -> usize
        ensures { result ≡ self.now.blocks }
    {
        self.ring.len()
    }

    /// How many blocks hold events.
    pub fn block_count(&self) -> usize
        ensures { result ≡ block_count self.now }
    {
        self.len.div_ceil(BLOCK_EVENTS)
    }

    /// Takes events of a log in at the end. Their names are copied into their blocks alone, and it takes no memory.
    pub fn take(&mut self, events: &Span)
        requires room { length events.now ≤ room self.old }
        requires positions { high self.old + length events.now < 2 ^ 64 }
        ensures { self.new ≡ with_events self.old events.now }
    {
        for place in 0..events.len() {
            self.push(&events.at(place));
        }
    }

    /// Takes one event in at the end.
    fn push(&mut self, header: &HeaderRef)
        requires room { 0 < room self.old }
        requires positions { high self.old + 1 < 2 ^ 64 }
        ensures { self.new ≡ with_events self.old (header.now ∷ []) }
    {
        push_to_block(&mut self.ring, self.len / BLOCK_EVENTS, header);
        self.len += 1;
    }

    /// Drops the 64 events of the first block. It takes no memory: the emptied block goes behind the others.
    pub fn drop_front(&mut self)
        requires { BLOCK_EVENTS ≤ length self.old.events }
        ensures { self.new ≡ without_front self.old }
    {
        rotate(&mut self.ring);
        self.low += BLOCK_EVENTS;
        self.len -= BLOCK_EVENTS;
    }

    /// The header of the event at a position. It costs the same wherever that is.
    pub fn get(&self, position: usize) -> &EventHeader
        requires low { self.now.low ≤ position }
        requires high { position < high self.now }
        ensures { result.now ≡ event_at self.now position }
    {
        let place = position - self.low;
        let headers = self.block(place / BLOCK_EVENTS).headers();
        &headers[place % BLOCK_EVENTS]
    }

    /// Drops all events, and goes on at another position. It takes no memory.
    pub fn reset(&mut self, at: usize)
        ensures { self.new ≡ empty self.old.blocks at }
    {
        clear_blocks(&mut self.ring);
        self.low = at;
        self.len = 0;
    }

    /// A block that holds events, counted from the first.
    pub fn block(&self, index: usize) -> &Block
        requires { index < block_count self.now }
        ensures { result.now ≡ block_events self.now index }
    {
        self.ring.get(index).unwrap()
    }
}

/// A ring of so many empty blocks, each with its room.
fn empty_ring(alloc: Global, blocks: usize) -> Result<HeapCircularBuffer<Block>, AllocError>
    ensures { IfOk result (λ ring. ring ≡ buffer (replicate blocks []) blocks) }
{
    let mut ring = HeapCircularBuffer::with_capacity(alloc, blocks)?;
    for _ in 0..blocks {
        ring.push_back(Block::new(alloc)?);
    }
    Ok(ring)
}

/// Takes one event in at the end of a block.
fn push_to_block(ring: &mut HeapCircularBuffer<Block>, index: usize, header: &HeaderRef)
    requires index { index < length ring.old.items }
    requires room { length (slice_index_or ring.old.items index []) < BLOCK_EVENTS }
    ensures { ring.new ≡ buffer (slice_set ring.old.items index (slice_index_or ring.old.items index [] ++ header.now ∷ [])) ring.old.capacity }
{
    let block = ring.get_mut(index).unwrap();
    block.push(header);
}

/// Empties a block.
fn clear_block(ring: &mut HeapCircularBuffer<Block>, index: usize)
    requires { index < length ring.old.items }
    ensures { ring.new ≡ buffer (slice_set ring.old.items index []) ring.old.capacity }
{
    let block = ring.get_mut(index).unwrap();
    block.clear();
}

/// Empties each block.
fn clear_blocks(ring: &mut HeapCircularBuffer<Block>)
    ensures { ring.new ≡ buffer (replicate (length ring.old.items) []) ring.old.capacity }
{
    for index in 0..ring.len() {
        clear_block(ring, index);
    }
}

/// Puts the front block, emptied, behind all others.
fn rotate(ring: &mut HeapCircularBuffer<Block>)
    requires some { 0 < length ring.old.items }
    requires room { length ring.old.items ≤ ring.old.capacity }
    ensures { ring.new ≡ buffer (drop 1 ring.old.items ++ [] ∷ []) ring.old.capacity }
{
    let mut front = ring.pop_front().unwrap();
    front.clear();
    ring.push_back(front);
}
