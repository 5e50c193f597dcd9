//! What can be looked at of a partition.
use std::alloc::{AllocError, Global};
use step_core::{Partition, Quiet, SubSummary};
use stream_ident::{Event, SubName, Token};
use stream_model::{PlainPartition, Subscription};

/// What can be looked at of a partition.
#[derive(Debug, PartialEq)]
pub struct Looks {
    /// The generation and the silo of the agent.
    pub agent: (u64, u8),
    /// The token of the first event that the cache keeps.
    pub low: Token,
    /// The token after the last event that the cache has.
    pub high: Token,
    /// Whether it is quiet, and why not.
    pub quiet: Quiet,
    /// The subscriptions, in the order of names.
    pub subs: Vec<SubSummary>,
    /// What each of them has handled.
    pub handled: Vec<Vec<Event>>,
}

impl Drop for Looks {
    fn drop(self) {
        let Self {
            agent: _,
            low: _,
            high: _,
            quiet: _,
            subs: _,
            handled: _,
        } = self;
    }
}

impl Looks {
    /// Looks at a partition.
    ///
    /// # Errors
    /// The call failed to allocate.
    pub fn of(alloc: Global, partition: &Partition) -> Result<Looks, AllocError> {
        let subs = partition.subs(alloc)?;
        let handled = handled(alloc, partition, subs.as_slice())?;
        Ok(Looks {
            agent: partition.agent(),
            low: partition.low_token(),
            high: partition.high_token(),
            quiet: partition.quiet(),
            subs,
            handled,
        })
    }

    /// Looks at the plain program, which keeps positions where a partition shows tokens and events.
    ///
    /// # Errors
    /// The call failed to allocate.
    pub fn of_reference(
        alloc: Global,
        reference: &partition_reference::Partition,
    ) -> Result<Looks, AllocError> {
        let plain = reference.plain();
        let subs = plain_subs(alloc, plain)?;
        let handled = plain_handled(alloc, plain, subs.as_slice(), false)?;
        Ok(Looks {
            agent: (plain.generation, plain.silo),
            low: plain_token(plain, plain.low),
            high: plain_token(plain, plain.high),
            quiet: match reference.quiet() {
                None => Quiet::Yes,
                Some(why) => Quiet::No(why),
            },
            subs,
            handled,
        })
    }
}

/// What each of these subscriptions has handled.
fn handled(
    alloc: Global,
    partition: &Partition,
    subs: &[SubSummary],
) -> Result<Vec<Vec<Event>>, AllocError> {
    let mut all = Vec::new(alloc);
    for sub in subs {
        all.push(partition.handled(alloc, &sub.name)?)?;
    }
    Ok(all)
}

/// The subscriptions of the plain program, in the order of names.
fn plain_subs(alloc: Global, plain: &PlainPartition) -> Result<Vec<SubSummary>, AllocError> {
    let mut subs = Vec::new(alloc);
    for (name, record) in plain.subs.as_slice() {
        subs.push(summary(name, record))?;
    }
    subs.sort()?;
    Ok(subs)
}

/// The summary of a record.
fn summary(name: &SubName, record: &Subscription) -> SubSummary {
    SubSummary {
        name: *name,
        stream: record.stream,
        grain: record.grain,
        start: record.start,
        is_open: record.is_open,
    }
}

/// What each of these subscriptions has handled in the plain program. Once nothing is left to do, an open one
/// has handled all that it is owed.
///
/// # Errors
/// The call failed to allocate.
pub fn plain_handled(
    alloc: Global,
    plain: &PlainPartition,
    subs: &[SubSummary],
    is_done: bool,
) -> Result<Vec<Vec<Event>>, AllocError> {
    let mut all = Vec::new(alloc);
    for sub in subs {
        let events = if is_done && sub.is_open {
            owed(alloc, plain, sub)?
        } else {
            plain_events(alloc, plain, &sub.name)?
        };
        all.push(events)?;
    }
    Ok(all)
}

/// The events that a subscription has handled in the plain program.
fn plain_events(
    alloc: Global,
    plain: &PlainPartition,
    name: &SubName,
) -> Result<Vec<Event>, AllocError> {
    let mut events = Vec::new(alloc);
    let Some(record) = record_of(plain, name) else {
        return Ok(events);
    };
    for position in record.handled.as_slice() {
        if let Some(event) = plain.log.as_slice().get(*position) {
            events.push(*event)?;
        }
    }
    Ok(events)
}

/// The record of a subscription.
fn record_of<'a>(plain: &'a PlainPartition, name: &SubName) -> Option<&'a Subscription> {
    for (other, record) in plain.subs.as_slice() {
        if other == name {
            return Some(record);
        }
    }
    None
}

/// The events of a subscription's stream from its start on.
fn owed(alloc: Global, plain: &PlainPartition, sub: &SubSummary) -> Result<Vec<Event>, AllocError> {
    let mut events = Vec::new(alloc);
    for event in plain.log.as_slice() {
        if event.stream == sub.stream && !event.token.is_before(&sub.start) {
            events.push(*event)?;
        }
    }
    Ok(events)
}

/// The token at a position, and at the log's end that of the next batch.
fn plain_token(plain: &PlainPartition, position: usize) -> Token {
    match plain.log.as_slice().get(position) {
        Some(event) => event.token,
        None => Token {
            seq: plain.batches,
            idx: 0,
        },
    }
}
