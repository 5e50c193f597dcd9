//! The subscriptions of a partition by number: each with its name and registration, how far it is, and which
//! of them is the slowest or due (Orleans: *Streaming, implementation details*, subscriptions of a pulling
//! agent).
#![tactic(auto)]

mod table;

pub use table::SubscriptionTable;
