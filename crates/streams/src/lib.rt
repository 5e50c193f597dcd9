//! Streams over silos in one process: all that a service needs, in one place.
//!
//! A [`Service`] has queues, and silos that are threads: it publishes to streams, subscribes grains, and is closed with
//! a report and what is left of each partition. A [`Gate`] has the handler, which is called for each event of a turn.
//! [`Service::queue`] and [`Service::subscription`] give figures for whoever operates it.
//!
//! A service is a [`Cluster`] with its first [`Caller`]. [`Service::producer`] gives a [`Producer`], which publishes
//! beside it, in any thread, and [`Service::take_back`] takes it in again.
//!
//! Whoever asks all the rest from several threads makes a cluster and its caller by
//! [`UntracedCluster::new`](Cluster::new): [`Caller::split`] gives a caller for another thread, which asks by
//! [`Caller::call`] at the queue that [`queue`]`(&stream, caller.queues())` gives, or by [`Caller::ask`], whose small
//! [`Answer`] stands for the [`Reply`]. [`Caller::join`] takes a caller in again, and [`Cluster::finish`] ends the
//! cluster with all callers that are left.
//!
//! A handler publishes by an [`Outbox`] that its gate holds: [`Service::publish_from`] publishes what it has put in, and
//! [`Service::settle_with`] waits until that is handled as well.
//!
//! [`Encode`] and [`Decode`] put values into payloads and read them again.
//!
//! What a call of a service promises is proved here: what it asks, at which queue, and how its answer is read from the
//! reply. What the others promise stands in the crate that each comes from, and is proved there.
#![tactic(auto)]

mod answers;
mod outbox;
mod producer;
mod service;
mod settling;
mod values;

pub use activation_directory::{DirectoryOp, DirectoryReply};
pub use answers::{
    CallError, CloseError, Closed, PublishError, SettleError, SiloError, StartFrom, StreamToken,
    SubscribeError, Subscription, UnsubscribeError,
};
pub use outbox::{Message, Outbox, OutboxFull, Unpublished};
pub use producer::{Producer, ProducerPromise};
pub use queue_mapper::queue;
pub use service::{Host, Service};
pub use shared_partition::{Counting, Gate};
pub use silo_loops::{Advance, AgentLoop, Doorbell, LoopEnd, Over, SiloLoops, WorkerLoop};
pub use silo_threads::{
    Caller, Cluster, Config, Drained, Finished, QueueCaller, Retired, SiloDown, SiloUp, Traces,
    drain,
};
pub use step_core::{Answer, Outcome, Partition, QueueFigures, SubSummary, SubscriptionFigures};
pub use stream_ident::{
    BadName, BadPayload, BadToken, Batch, Event, GrainId, Name, Payload, Row, StreamId, SubName,
    Token, WrongByte,
};
pub use stream_model::{DrainEnd, Events, Limits, Op, Pending, Reply, Start};
pub use turnstile::{Asked, AskedHistory, Entry, ProofHistory, Refusal, Replays, StoredHistory};
pub use values::{Decode, Encode, NoValue};

/// A cluster whose histories take no memory: only proofs see them. That is the one for a service that stays up; its
/// limits are those that [`Config::new`] names.
pub type UntracedCluster<G> = Cluster<
    G,
    ProofHistory<Op, Answer>,
    ProofHistory<DirectoryOp, DirectoryReply>,
>;

/// A cluster that keeps what it was asked: at its end [`Traces::histories`](Traces) has an [`AskedHistory`] for each
/// queue, whose `as_slice` gives the calls in order. Each call takes memory, so set `Config::history`, the most calls
/// of a queue, to 4,000,000 or fewer.
pub type TracedCluster<G> = Cluster<
    G,
    AskedHistory<Op, Answer>,
    ProofHistory<DirectoryOp, DirectoryReply>,
>;

/// A caller of an [`UntracedCluster`].
pub type UntracedCaller<G> = Caller<G, ProofHistory<Op, Answer>>;

/// A caller of a [`TracedCluster`].
pub type TracedCaller<G> = Caller<G, AskedHistory<Op, Answer>>;
