//! Callers of the queues of a cluster, and how a cluster ends with them.
//!
//! A [`Caller`] is what a producer outside the silos carries, to call the partitions from any thread. It has a pass at the
//! turnstile of each queue, and the doorbell of the cluster's loops. It is split for another thread, and joined again. What
//! is proved of one history holds of all that each of its passes has seen. [`drain`] waits until all queues are quiet.
//!
//! Once all loops have come back, the passes of the callers are taken in, each queue is asked whether it is quiet, the
//! turnstiles are closed, and the report is written: [`finish`] does all of it, and the functions before it one step each.
#![tactic(auto)]

mod asking;
mod caller;
mod closing;
mod draining;
mod ends;
mod finishing;
mod gathering;
mod queue_caller;

pub use asking::{Quiet, ask_quiet};
pub use caller::Caller;
pub use closing::{Closing, Traces, close};
pub use draining::{Drained, drain};
pub use ends::LoopEnds;
pub use finishing::{Finished, finish};
pub use gathering::gather;
pub use queue_caller::QueueCaller;
