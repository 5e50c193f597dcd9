//! Streams whose tags are equal stay apart.
use crate::names::{grain, payload};
use queue_mapper::place;
use std::alloc::{AllocError, Global};
use std::process::Abort;
use std::test::Fail;
use step_core::{DrainEnd, Limits, Op, Partition, Reply, Start};
use stream_ident::{Batch, Event, StreamId, SubName, Token};

/// The stream o/`number`.
fn numbered(alloc: Global, number: u32) -> Result<StreamId, Fail> {
    let key = format!(in alloc; "{number}")?;
    Ok(StreamId::new(b"o", key.as_bytes())?)
}

/// The numbers of the first two streams whose tags are equal. Of 257 streams two are, since there are 256 tags.
fn pair<R: Abort>(rt: &R, alloc: Global) -> Result<(u32, u32), Fail> {
    let mut holders = [None; 256];
    for number in 0..257 {
        let tag = place(&numbered(alloc, number)?, 1).tag as usize;
        if let Some(holder) = holders[tag] {
            return Ok((holder, number));
        }
        holders[tag] = Some(number);
    }
    panic!(rt; "there are 256 tags")
}

/// A grain subscribes to a stream.
fn subscribe<R: Abort>(
    rt: &R,
    alloc: Global,
    partition: &mut Partition,
    stream: StreamId,
    key: u8,
) -> Result<Reply, AllocError> {
    let grain = grain(rt, b'g', key);
    let start = Start::Latest;
    partition.step(
        alloc,
        Op::Subscribe {
            stream,
            grain,
            start,
        },
    )
}

/// The number of a batch, and the byte of its one event.
type Published = (u64, u8);

/// What goes to the first stream and to the second one, in turn.
static FIRST: [Published; 3] = [(0, b'a'), (2, b'c'), (4, b'e')];

static SECOND: [Published; 3] = [(1, b'b'), (3, b'd'), (5, b'f')];

/// A batch of one event goes to a stream.
fn publish<R: Abort>(
    rt: &R,
    alloc: Global,
    partition: &mut Partition,
    stream: StreamId,
    published: Published,
) -> Result<(), AllocError> {
    let (seq, byte) = published;
    let mut payloads = Vec::new(alloc);
    payloads.push(payload(rt, byte))?;
    let payloads = Batch::of(payloads);
    let reply = partition.step(alloc, Op::Publish { stream, payloads })?;
    assert!(rt; reply == Reply::Published { seq });
    Ok(())
}

/// Each of two streams gets its events, in turn.
fn publish_in_turn<R: Abort>(
    rt: &R,
    alloc: Global,
    partition: &mut Partition,
    first: &StreamId,
    second: &StreamId,
) -> Result<(), AllocError> {
    for (one, other) in FIRST.iter().zip(&SECOND) {
        publish(rt, alloc, partition, *first, *one)?;
        publish(rt, alloc, partition, *second, *other)?;
    }
    Ok(())
}

/// Whether a subscription has handled these events of a stream, and no other.
fn has_handled<R: Abort>(
    rt: &R,
    alloc: Global,
    partition: &Partition,
    number: u32,
    stream: &StreamId,
    published: &[Published],
) -> Result<bool, AllocError> {
    let mut wanted = Vec::new(alloc);
    for (seq, byte) in published {
        wanted.push(Event {
            stream: *stream,
            token: Token { seq: *seq, idx: 0 },
            payload: payload(rt, *byte),
        })?;
    }
    let handled = partition.handled(alloc, &SubName::Explicit(number))?;
    Ok(handled.as_slice() == wanted.as_slice())
}

/// By `sha256sum` the first two such streams are o/1 and o/2.
#[test]
fn streams_of_one_tag_stay_apart(rt: HostRuntime) -> Result<(), Fail> {
    let alloc = rt.alloc();
    let (first, second) = pair(&rt, alloc)?;
    assert!(rt; (first, second) == (1, 2));
    let (first, second) = (numbered(alloc, first)?, numbered(alloc, second)?);
    let mut partition = Partition::new(alloc, 4, Limits::GREATEST)?;
    let subscribed = subscribe(&rt, alloc, &mut partition, first, b'x')?;
    assert!(rt; subscribed == Reply::Subscribed { number: 1 });
    let subscribed = subscribe(&rt, alloc, &mut partition, second, b'y')?;
    assert!(rt; subscribed == Reply::Subscribed { number: 2 });
    publish_in_turn(&rt, alloc, &mut partition, &first, &second)?;
    assert!(rt; partition.drain(alloc)? == DrainEnd::Drained { turns: 6 });
    assert!(rt; has_handled(&rt, alloc, &partition, 1, &first, &FIRST)?);
    assert!(rt; has_handled(&rt, alloc, &partition, 2, &second, &SECOND)?);
    Ok(())
}
