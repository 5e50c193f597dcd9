//! The queue balancer: it gives each queue of a stream provider a silo that lives, so that the loads of
//! the silos differ by at most one (Orleans: *Streaming, implementation details*, queue balancer).
//!
//! A queue is named by its place in a list, and a silo by a number. It isn't claimed that as few queues
//! move as can be, nor how long a rebalancing takes: each queue is compared with each other one.
#![tactic(auto)]

mod assignment;
mod balancer;
mod places;

pub use assignment::{Assignment, RebalanceError};
pub use balancer::rebalance;
