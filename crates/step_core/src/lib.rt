//! One partition of a streaming cluster: its log, its cache, its subscriptions and its mailboxes, changed
//! one operation at a time (Orleans: *Streaming, implementation details*).
//!
//! What each operation does is the definition of the crate `stream_model`; here it is done, by parts that
//! are fast.
#![tactic(auto)]

mod acknowledging;
mod answer;
mod delivering;
mod draining;
mod figures;
mod looking;
mod moving;
mod outcome;
mod partition;
mod parts;
mod publishing;
mod pulling;
mod quiet;
mod reading;
mod serving;
mod stepping;
mod turns;

pub use answer::Answer;
pub use figures::{QueueFigures, SubscriptionFigures};
pub use outcome::Outcome;
pub use partition::Partition;
pub use partition_queue::Appended;
pub use quiet::Quiet;
pub use ranked_index::{Leaf, Resumes};
pub use reading::SubSummary;
pub use stream_laws as laws;
pub use stream_model::{DrainEnd, Events, Limits, Op, Pending, Reply, Start};
