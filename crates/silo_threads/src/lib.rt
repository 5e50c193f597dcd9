//! Silos as threads: a cluster whose silos come and go over the partitions of its queues.
//!
//! A [`Cluster`] holds the partition of each queue behind a turnstile of its own, a directory of grains, and the
//! loops of each live silo in threads. Producers call the partitions through a [`Caller`], from any thread. The
//! [`Operator`] spreads the queues over the silos that live, and takes the grains of a silo that goes. [`drain`] waits
//! until all queues are quiet, and [`finish`] ends a cluster with a report.
//!
//! A parked cluster starts no thread: whoever made it advances the loops by hand, so that a silo can be stopped
//! between any two of its steps.
//!
//! Not claimed: that a call's turn comes, any order between callers that never met, and that a drain ends.
#![tactic(auto)]

mod changes;
mod cluster;
mod config;
mod opening;

pub use cluster::{Cluster, Ended, Retired, SiloDown, SiloUp};
pub use config::Config;
pub use queue_callers::{
    Caller, Closing, Drained, Finished, LoopEnds, QueueCaller, Quiet, Traces, ask_quiet, close,
    drain, finish, gather,
};
pub use silo_operators::{Halt, Operator};
