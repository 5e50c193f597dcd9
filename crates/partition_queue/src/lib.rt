//! The log of a partition: the events that its batches brought, in order, each under its sequence token
//! (Orleans: *Streaming, implementation details*, queues).
//!
//! It is a value in the memory of one process. Nothing is claimed of what is lost when the process ends.
#![tactic(auto)]

mod appended;
mod queue;
mod span;
mod streams;

pub use appended::Appended;
pub use queue::PartitionQueue;
pub use span::Span;
