//! What a partition is asked before it is measured: subscriptions and events.
use crate::partition::asking::{ask, deliver};
use anyhow::Result;
use std::alloc::Global;
use step_core::Partition;
use stream_ident::{Batch, GrainId, Name, Payload, StreamId};
use stream_model::{Op, Start};

/// The payloads of a batch.
const BATCH: usize = 4;

/// So many grains subscribe, one after another, to so many streams in turn. The subscription of the first has the
/// number 1.
pub fn subscribe_all(
    partition: &mut Partition,
    alloc: Global,
    count: usize,
    streams: usize,
) -> Result<Vec<GrainId>> {
    let mut grains = Vec::new(alloc);
    for number in 0..count {
        let stream = stream(alloc, number % streams.max(1))?;
        let grain = GrainId {
            kind: stream.namespace,
            key: key(alloc, number)?,
        };
        let start = Start::Latest;
        let subscribe = Op::Subscribe {
            stream,
            grain,
            start,
        };
        ask(partition, alloc, &subscribe)?;
        grains.push(grain)?;
    }
    Ok(grains)
}

/// Publishes so many events, in batches of four, to so many streams in turn.
pub fn publish_all(
    partition: &mut Partition,
    alloc: Global,
    events: usize,
    streams: usize,
) -> Result<()> {
    let payload = Payload::new(b"one box")?;
    for batch in 0..events / BATCH {
        let stream = stream(alloc, batch % streams.max(1))?;
        let payloads = Batch::of(vec![in alloc; payload; BATCH]?);
        ask(partition, alloc, &Op::Publish { stream, payloads })?;
    }
    Ok(())
}

/// The agent pulls so many events, four at a time.
pub fn pull_all(partition: &mut Partition, alloc: Global, events: usize) -> Result<()> {
    let pull = Op::Pull {
        generation: 0,
        max: BATCH as u32,
    };
    for _ in 0..events / BATCH {
        ask(partition, alloc, &pull)?;
    }
    Ok(())
}

/// The agent delivers an event to each of so many subscriptions.
pub fn deliver_each(partition: &mut Partition, alloc: Global, subs: usize) -> Result<()> {
    for place in 0..subs {
        ask(partition, alloc, &deliver(place))?;
    }
    Ok(())
}

/// The stream with this number.
fn stream(alloc: Global, number: usize) -> Result<StreamId> {
    Ok(StreamId {
        namespace: Name::new(b"orders")?,
        key: key(alloc, number)?,
    })
}

/// The key with this number. Each has five digits, so that their order is that of the numbers.
fn key(alloc: Global, number: usize) -> Result<Name> {
    let digits = number.saturating_add(10_000);
    Ok(Name::new(format!(in alloc; "{digits}")?.as_bytes())?)
}
