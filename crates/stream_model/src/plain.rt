//! A partition as plain data: one log, and positions in it.
use crate::limits::Limits;
use crate::sequence::Sequence;
use stream_ident::{Event, GrainId, Row, Rule, StreamId, SubName, Token};

/// A subscription. Positions are places in the log, counted from 0.
#[derive(Drop)]
pub struct Subscription {
    /// The stream.
    pub stream: StreamId,
    /// The grain that consumes it.
    pub grain: GrainId,
    /// It is owed the events of its stream from this token on.
    pub start: Token,
    /// The positions of the events that it has handled, in order.
    pub handled: Sequence<usize>,
    /// The note of its last commit, 0 at first.
    pub note: u64,
    /// What it is owed before this position is acknowledged.
    pub resume: usize,
    /// The next event to deliver is sought from this position on.
    pub cursor: usize,
    /// Whether it hasn't been unsubscribed.
    pub is_open: bool,
}

/// An event on its way to a grain.
#[derive(Clone, Copy, Debug, PartialEq, Eq)]
pub struct Delivery {
    /// The subscription that it is for.
    pub sub: SubName,
    /// The position of the event.
    pub position: usize,
}

/// A turn that runs.
#[derive(Drop)]
pub struct RunningTurn {
    /// The subscription whose events it has.
    pub sub: SubName,
    /// Its number.
    pub turn: u64,
    /// The positions of its events, rising.
    pub positions: Row<usize>,
}

/// A grain, as this partition knows it.
#[derive(Drop)]
pub struct Grain {
    /// How often it was activated.
    pub activation: u64,
    /// Whether it is in memory.
    pub active: bool,
    /// What waits for it, the oldest first.
    pub mailbox: Sequence<Delivery>,
    /// The turn that runs.
    pub running: Option<RunningTurn>,
}

/// The state of a partition. The cache has the positions from `low` up to `high`, in blocks of 64 that
/// begin at `low`.
#[derive(Drop)]
pub struct PlainPartition {
    /// The events that were published, in order.
    pub log: Sequence<Event>,
    /// How many batches were accepted.
    pub batches: u64,
    /// The first position that the cache keeps.
    pub low: usize,
    /// One past the last position that the cache has.
    pub high: usize,
    /// The generation of the current agent.
    pub generation: u64,
    /// The silo of the current agent.
    pub silo: u8,
    /// The subscriptions by name, in the order in which they were made.
    pub subs: Sequence<(SubName, Subscription)>,
    /// The number of the last explicit subscription, 0 before the first.
    pub explicit: u32,
    /// The rules, in the order in which they were added.
    pub rules: Sequence<Rule>,
    /// The grains that were ever active, in the order of their first activation.
    pub grains: Sequence<(GrainId, Grain)>,
    /// How many turns were handed out, activations and moves made.
    pub rises: u64,
    /// The number of the last turn, 0 before the first.
    pub turns: u64,
    /// The blocks of the cache.
    pub blocks: usize,
    /// How much there may be.
    pub limits: Limits,
}
