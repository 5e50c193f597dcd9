//! The parts of a partition.

use grain_table::GrainTable;
use partition_queue::PartitionQueue;
use pulling_agent::Agent;
use stream_model::Limits;
use subscription_table::SubscriptionTable;

/// What a partition is made of.
#[derive(Drop)]
pub(crate) struct Parts {
    /// The log.
    pub(crate) queue: PartitionQueue,
    /// The current pulling agent, with its cache.
    pub(crate) agent: Agent,
    /// The subscriptions and rules.
    pub(crate) subs: SubscriptionTable,
    /// The grains that were ever active.
    pub(crate) grains: GrainTable,
    /// How many turns were handed out, activations and moves made.
    pub(crate) rises: u64,
    /// The number of the last turn, 0 before the first.
    pub(crate) turns: u64,
    /// How much there may be.
    pub(crate) limits: Limits,
}
