//! What a partition of a streaming cluster is: its operations and replies, and the definitions that say
//! what each operation does and what a history of them means.
//!
//! The definitions stand in `specs/`, and everything above is measured by them. The crate `stream_laws`
//! says what follows from them, and `partition_reference` is a plain program that computes them.
#![tactic(auto)]

mod drain_end;
mod limits;
mod op;
mod plain;
mod reply;
mod sequence;

pub use drain_end::DrainEnd;
pub use limits::Limits;
pub use op::{Op, Start};
pub use plain::{Delivery, Grain, PlainPartition, RunningTurn, Subscription};
pub use reply::{Events, Pending, Reply};
pub use sequence::Sequence;
pub use stream_ident::{Row, Rule};
