//! The operations of a partition.
ghost use Rattle.std.specs.Prelude.{◌≡◌, true, IfOk, OnErr};
ghost use Rattle.stream_model.specs.Step.{has_payloads};

use std::alloc::{AllocError, Global};
use stream_ident::{Batch, GrainId, Name, StreamId, SubName, Token};

/// Where a subscription starts.
#[derive(Clone, Copy, Debug, PartialEq, Eq)]
pub enum Start {
    /// With the first batch that is accepted after it.
    Latest,
    /// With the first event whose token isn't less than this one, which may lie in the past (Orleans:
    /// *Streaming, rewindable streams*).
    At(Token),
}

/// One operation on a partition. Its reply is a `Reply`, refusals included.
#[derive(Debug, Drop)]
pub enum Op {
    /// A producer publishes a batch of 1 to 64 payloads.
    Publish {
        /// The stream.
        stream: StreamId,
        /// The payloads of its events, in order.
        payloads: Batch,
    },
    /// A grain subscribes to a stream explicitly.
    Subscribe {
        /// The stream.
        stream: StreamId,
        /// The grain.
        grain: GrainId,
        /// Where the subscription starts.
        start: Start,
    },
    /// An explicit subscription ends.
    Unsubscribe {
        /// Its name.
        sub: SubName,
    },
    /// Grains of a kind shall consume the streams of a namespace, each the stream with its key.
    AddRule {
        /// The kind of the grains.
        kind: Name,
        /// The namespace of the streams.
        namespace: Name,
    },
    /// The pulling agent takes events from the queue into the cache.
    Pull {
        /// The agent's generation.
        generation: u64,
        /// The most events to take. 0 is read as 1, more than 256 as 256.
        max: u32,
    },
    /// The agent hands the next event of a subscription to its grain's mailbox.
    Deliver {
        /// The agent's generation.
        generation: u64,
        /// The subscription.
        sub: SubName,
    },
    /// The agent sets a subscription's cursor back to its resume.
    Retry {
        /// The agent's generation.
        generation: u64,
        /// The subscription.
        sub: SubName,
    },
    /// The agent learns that a subscription has handled an event and all before it.
    Ack {
        /// The agent's generation.
        generation: u64,
        /// The subscription.
        sub: SubName,
        /// The token of the event.
        token: Token,
    },
    /// The agent drops blocks of the cache that no open subscription needs.
    Purge {
        /// The agent's generation.
        generation: u64,
        /// How many blocks to keep.
        keep: u32,
    },
    /// A worker begins a turn of a grain.
    Begin {
        /// The grain.
        grain: GrainId,
        /// The most events of the turn. 0 is read as 1, more than 16 as 16.
        max: u32,
    },
    /// A worker ends the running turn of a grain: its events are handled.
    Commit {
        /// The grain.
        grain: GrainId,
        /// The activation that began the turn.
        activation: u64,
        /// The number of the turn.
        turn: u64,
        /// What the handler leaves for the subscription's next turn.
        note: u64,
    },
    /// A grain leaves memory. What waits and what runs is lost, and will be delivered again.
    Deactivate {
        /// The grain.
        grain: GrainId,
    },
    /// The queue goes to an agent on another silo, under a new generation.
    Move {
        /// The silo, 0 to 15.
        silo: u8,
    },
    /// A worker asks for a grain for which something waits and no turn runs.
    Ready {
        /// The grain that it looked at last.
        after: Option<GrainId>,
    },
    /// The agent asks for a subscription that has something to acknowledge or to look for.
    Due {
        /// The subscription that it looked at last.
        after: Option<SubName>,
    },
    /// Asks whether everything is pulled, delivered and handled.
    Quiet,
}

impl Op {
    /// An equal operation.
    ///
    /// # Errors
    /// The call failed to allocate, which only a `Publish` with payloads can do. This operation stays as it is.
    pub fn copy(&self, alloc: Global) -> Result<Op, AllocError>
        ensures same { IfOk result (λ copied. copied ≡ self.now) }
        ensures memory { OnErr result (has_payloads self.now ≡ true) }
    {
        Ok(match *self {
            Op::Publish {
                stream,
                ref payloads,
            } => Op::Publish {
                stream,
                payloads: payloads.copy(alloc)?,
            },
            Op::Subscribe {
                stream,
                grain,
                start,
            } => Op::Subscribe {
                stream,
                grain,
                start,
            },
            Op::Unsubscribe { sub } => Op::Unsubscribe { sub },
            Op::AddRule { kind, namespace } => Op::AddRule { kind, namespace },
            Op::Pull { generation, max } => Op::Pull { generation, max },
            Op::Deliver { generation, sub } => Op::Deliver { generation, sub },
            Op::Retry { generation, sub } => Op::Retry { generation, sub },
            Op::Ack {
                generation,
                sub,
                token,
            } => Op::Ack {
                generation,
                sub,
                token,
            },
            Op::Purge { generation, keep } => Op::Purge { generation, keep },
            Op::Begin { grain, max } => Op::Begin { grain, max },
            Op::Commit {
                grain,
                activation,
                turn,
                note,
            } => Op::Commit {
                grain,
                activation,
                turn,
                note,
            },
            Op::Deactivate { grain } => Op::Deactivate { grain },
            Op::Move { silo } => Op::Move { silo },
            Op::Ready { after } => Op::Ready { after },
            Op::Due { after } => Op::Due { after },
            Op::Quiet => Op::Quiet,
        })
    }
}
