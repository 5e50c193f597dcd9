//! The operator of a cluster: passes of its own at each queue and at the directory, the silos that live, and the silo
//! of each queue.
//!
//! An [`Operator`] makes the loops of a silo that comes, evicts the grains of one that goes, and spreads the queues
//! over the silos that live.
#![tactic(auto)]

mod halt;
mod leaving;
mod moving;
mod operator;

pub use halt::Halt;
pub use operator::Operator;
