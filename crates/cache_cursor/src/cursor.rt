//! Cursors: the next event of a subscription in the cache of a queue, and where a token stands in it
//! (Orleans: *Streaming, implementation details*, queue cache cursor).
//!
//! A cursor is a position. It seeks by the tags of the events, many at once, and reads a header only where
//! the tag is its stream's. Nothing here takes memory.
ghost use Rattle.std.specs.Prelude.{◌≡◌, ◌+◌, ◌^◌, ◌<◌, ◌≤◌, not, length, IfSome, IfNone};
ghost use Rattle.stream_ident.specs.Event.{is_owed};
ghost use Rattle.stream_ident.specs.Token.{token_lt};
ghost use Rattle.queue_mapper.specs.Place.{tag_of};
ghost use Rattle.queue_cache.specs.Cache.{high};
ghost use Rattle.cache_cursor.specs.Cursor.{next_in, lower_in, AreMarked};
ghost use Rattle.cache_cursor.specs.Seek.{NoneBetween, IsFirst, NoneMarked, IsNextMark};

use queue_cache::{Block, QueueCache};
use queue_mapper::EventHeader;
use stream_ident::{BLOCK_EVENTS, StreamId, Token};
use tag_scan::{find_tag, mask};

/// How many tags there are.
pub const TAGS: usize = 256;

/// The least position at or past `from` whose event is of the stream, which has this tag, and not before
/// the start; None where the cache has no such event, as where `from` is at or past its end.
///
/// It costs a few steps for each block up to that event, and some for each event on the way whose tag is
/// the same.
pub fn next(
    cache: &QueueCache,
    from: usize,
    stream: &StreamId,
    tag: u8,
    start: &Token,
) -> Option<usize>
    requires low { cache.now.low ≤ from }
    requires tag { tag ≡ tag_of stream.now }
    ensures next { result ≡ next_in cache.now from stream.now start.now }
    ensures within { IfSome result (λ position. position < high cache.now) }
    ensures from { IfSome result (λ position. from ≤ position) }
{
    let high = cache.high();
    if high <= from {
        return None;
    }
    // In a walk over those that are due, mostly one event is left, of another stream.
    if high - from == 1 && cache.get(from).tag() != tag {
        return None;
    }
    next_cached(cache, from, stream, tag, start)
}

/// The same where the cache has an event at `from`. It is no part of `next`, so that the cases that end there save no
/// registers.
#[inline(never)]
fn next_cached(
    cache: &QueueCache,
    from: usize,
    stream: &StreamId,
    tag: u8,
    start: &Token,
) -> Option<usize>
    requires low { cache.now.low ≤ from }
    requires high { from < high cache.now }
    requires places { high cache.now < 2 ^ 64 }
    requires tag { tag ≡ tag_of stream.now }
    ensures next { result ≡ next_in cache.now from stream.now start.now }
    ensures within { IfSome result (λ position. position < high cache.now) }
    ensures from { IfSome result (λ position. from ≤ position) }
{
    let low = cache.low();
    let place = seek(cache, from - low, stream, tag, start)?;
    Some(low + place)
}

/// The least place in the cache, counted from its first event, at or past `from` whose event is owed.
fn seek(cache: &QueueCache, from: usize, stream: &StreamId, tag: u8, start: &Token) -> Option<usize>
    requires from { from < length cache.now.events }
    requires places { length cache.now.events < 2 ^ 64 }
    requires tag { tag ≡ tag_of stream.now }
    ensures found { IfSome result (IsFirst (λ event. is_owed stream.now start.now event) cache.now.events from) }
    ensures none { IfNone result (NoneBetween (λ event. is_owed stream.now start.now event) cache.now.events from (length cache.now.events)) }
{
    let first = from / BLOCK_EVENTS;
    if let Some(place) = next_from(cache.block(first), from % BLOCK_EVENTS, stream, tag, start) {
        return Some(BLOCK_EVENTS * first + place);
    }
    for index in first + 1..cache.block_count() {
        if let Some(place) = next_in_block(cache.block(index), stream, tag, start) {
            return Some(BLOCK_EVENTS * index + place);
        }
    }
    None
}

/// The least position whose token isn't less than this one, or one past the last position where each is.
///
/// It costs a step for each event up to that position: tokens need not rise.
pub fn lower(cache: &QueueCache, token: &Token) -> usize
    ensures lower { result ≡ lower_in cache.now token.now }
    ensures low { cache.now.low ≤ result }
    ensures high { result ≤ high cache.now }
{
    let high = cache.high();
    for index in 0..cache.block_count() {
        if let Some(place) = first_from_token(cache.block(index).headers(), token) {
            return cache.low() + (BLOCK_EVENTS * index + place);
        }
    }
    high
}

/// Marks the tags of the events from a position on, so that one look tells of a stream that none of them is its own.
/// It costs a few steps for each of them.
pub fn tags_from(cache: &QueueCache, from: usize) -> [bool; TAGS]
    requires { cache.now.low ≤ from }
    ensures { AreMarked cache.now from result }
{
    let mut marks = [false; TAGS];
    for position in from..cache.high() {
        marks[cache.get(position).tag() as usize] = true;
    }
    marks
}

/// The least place of a block whose event is owed.
fn next_in_block(block: &Block, stream: &StreamId, tag: u8, start: &Token) -> Option<usize>
    requires { tag ≡ tag_of stream.now }
    ensures found { IfSome result (IsFirst (λ event. is_owed stream.now start.now event) block.now 0) }
    ensures none { IfNone result (NoneBetween (λ event. is_owed stream.now start.now event) block.now 0 (length block.now)) }
{
    if block.headers().len() == BLOCK_EVENTS {
        next_in_full(block, stream, tag, start)
    } else {
        next_from(block, 0, stream, tag, start)
    }
}

/// The least place of a block, at or past `from`, whose event is owed.
fn next_from(block: &Block, from: usize, stream: &StreamId, tag: u8, start: &Token) -> Option<usize>
    requires { tag ≡ tag_of stream.now }
    ensures found { IfSome result (IsFirst (λ event. is_owed stream.now start.now event) block.now from) }
    ensures none { IfNone result (NoneBetween (λ event. is_owed stream.now start.now event) block.now from (length block.now)) }
{
    // A block has at most 64 events, and mostly none is of the stream, which one look at all its tags shows.
    let _few = block.headers().len();
    next_mark(mask(block.tags(), tag), from)?;
    find_from(block, from, stream, tag, start)
}

/// The same, one event of the tag after another.
fn find_from(block: &Block, from: usize, stream: &StreamId, tag: u8, start: &Token) -> Option<usize>
    requires { tag ≡ tag_of stream.now }
    ensures found { IfSome result (IsFirst (λ event. is_owed stream.now start.now event) block.now from) }
    ensures none { IfNone result (NoneBetween (λ event. is_owed stream.now start.now event) block.now from (length block.now)) }
{
    let headers = block.headers();
    let tags = block.tags().as_slice();
    let tags = &tags[..headers.len()];
    let mut at = from;
    while let Some(place) = find_tag(tags, at, tag) {
        if is_owed(&headers[place], stream, start) {
            return Some(place);
        }
        at = place + 1;
    }
    None
}

/// The least place of a full block whose event is owed.
fn next_in_full(block: &Block, stream: &StreamId, tag: u8, start: &Token) -> Option<usize>
    requires full { length block.now ≡ BLOCK_EVENTS }
    requires tag { tag ≡ tag_of stream.now }
    ensures found { IfSome result (IsFirst (λ event. is_owed stream.now start.now event) block.now 0) }
    ensures none { IfNone result (NoneBetween (λ event. is_owed stream.now start.now event) block.now 0 (length block.now)) }
{
    let headers = block.headers();
    let marks = mask(block.tags(), tag);
    let mut at = 0;
    while let Some(place) = next_mark(marks, at) {
        if is_owed(&headers[place], stream, start) {
            return Some(place);
        }
        at = place + 1;
    }
    None
}

/// The lowest bit that is set, at or past `from`.
fn next_mark(marks: u64, from: usize) -> Option<usize>
    ensures found { IfSome result (IsNextMark marks from) }
    ensures none { IfNone result (NoneMarked marks from 64) }
{
    if from >= BLOCK_EVENTS {
        return None;
    }
    let rest = marks >> from;
    if rest == 0 {
        return None;
    }
    Some(from + rest.trailing_zeros() as usize)
}

/// Whether an event is of the stream, and not before the start.
fn is_owed(header: &EventHeader, stream: &StreamId, start: &Token) -> bool
    ensures { result ≡ is_owed stream.now start.now header.now }
{
    // The streams of a queue mostly differ in their keys, and seldom in their namespaces.
    let own = header.stream();
    stream.key == own.key && stream.namespace == own.namespace && !header.token().is_before(start)
}

/// The least place whose token isn't less than this one.
fn first_from_token(headers: &[EventHeader], token: &Token) -> Option<usize>
    ensures found { IfSome result (IsFirst (λ event. not (token_lt event.token token.now)) headers.now 0) }
    ensures none { IfNone result (NoneBetween (λ event. not (token_lt event.token token.now)) headers.now 0 (length headers.now)) }
{
    for (place, header) in headers.iter().enumerate() {
        if !header.token().is_before(token) {
            return Some(place);
        }
    }
    None
}
