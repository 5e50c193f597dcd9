//! A service with a consumer for each of its streams.
use crate::load::Load;
use crate::tally::Tally;
use anyhow::{Result, bail};
use std::alloc::Global;
use std::sync::Arc;
use streams::{Closed, Config, GrainId, Host, Partition, Payload, Service, StartFrom, StreamId};

/// A service, its streams, to each of which a grain of its own subscribes, and the handler of all.
#[derive(Drop)]
pub struct Consumers<R: Host> {
    service: Service<R, Tally<R>>,
    streams: Vec<StreamId>,
    pub tally: Arc<Tally<R>, Global>,
}

impl<R: Host> Consumers<R> {
    /// Opens a service for a load.
    pub fn open(rt: &R, alloc: Global, load: &Load, tally: Tally<R>) -> Result<Consumers<R>> {
        // A cache has as many blocks as it may.
        let config = Config {
            blocks: 64,
            ..Config::new(load.queues.clamp(1, 64), load.silos.clamp(1, 16))
        };
        let tally = Arc::new(alloc, tally)?;
        let mut service = Service::open(*rt, &config, Arc::try_clone(&tally)?)?;
        let streams = streams_of(alloc, load.consumers)?;
        subscribe_each(&mut service, &streams)?;
        Ok(Consumers {
            service,
            streams,
            tally,
        })
    }

    /// Publishes to the stream with this number.
    pub fn publish(&mut self, number: usize, payloads: &[Payload]) -> Result<()> {
        let Some(stream) = self.streams.get(number) else {
            bail!("there is no such stream");
        };
        self.service.publish(*stream, payloads)?;
        Ok(())
    }

    /// Waits until so many events are handled, and all queues are quiet.
    pub fn settle(&mut self, events: usize) -> Result<()> {
        self.tally.wait_until(events)?;
        self.service.settle()?;
        Ok(())
    }

    /// Closes the service.
    pub fn close(self, alloc: Global) -> Result<Handled> {
        let Consumers {
            service,
            streams: _,
            tally,
        } = self;
        let Closed { report, partitions } = service.close();
        let mut lines = 0usize;
        for byte in &report? {
            lines = lines.saturating_add(usize::from(*byte == b'\n'));
        }
        let mut most = 0;
        for partition in &partitions {
            most = most.max(most_handled(alloc, partition)?);
        }
        let calls = tally.handled();
        Ok(Handled { calls, lines, most })
    }
}

/// What a service has handled.
#[derive(Clone, Copy)]
pub struct Handled {
    /// How often the handler was called.
    pub calls: u64,
    /// How many lines the report has.
    pub lines: usize,
    /// How many events the consumer has handled that has handled the most.
    pub most: usize,
}

impl Handled {
    /// Whether the handler was called once for each event, the report has a line for itself, one for each consumer and
    /// one for each event, and no consumer has handled more than that of the first stream was to.
    pub fn agrees(&self, load: &Load) -> bool {
        let lines = load.events().saturating_add(load.consumers);
        self.calls == load.events() as u64
            && self.lines == lines.saturating_add(1)
            && self.most == load.most()
    }
}

/// So many streams.
fn streams_of(alloc: Global, count: usize) -> Result<Vec<StreamId>> {
    let mut streams = Vec::with_capacity(alloc, count)?;
    for number in 0..count {
        streams.push(stream(alloc, number)?)?;
    }
    Ok(streams)
}

/// The stream with this number.
fn stream(alloc: Global, number: usize) -> Result<StreamId> {
    let key = format!(in alloc; "{number}")?;
    Ok(StreamId::new(b"load", key.as_bytes())?)
}

/// A grain of its own subscribes to each stream.
fn subscribe_each<R: Host>(service: &mut Service<R, Tally<R>>, streams: &[StreamId]) -> Result<()> {
    for stream in streams {
        let grain = GrainId {
            kind: stream.namespace,
            key: stream.key,
        };
        service.subscribe(*stream, grain, StartFrom::Latest)?;
    }
    Ok(())
}

/// How many events the consumer of a partition has handled that has handled the most.
fn most_handled(alloc: Global, partition: &Partition) -> Result<usize> {
    let mut most = 0;
    for sub in &partition.subs(alloc)? {
        most = most.max(partition.handled_positions(&sub.name).len());
    }
    Ok(most)
}
