//! The pulling agent of a queue: it reads the queue's events into a cache, moves subscriptions over them, and
//! goes on where another agent of the queue stopped (Orleans: *Streaming, implementation details*, pulling
//! agents).
//!
//! An agent is a value in the memory of one process, and calls nobody by itself. Nothing is claimed of when
//! it is called. Only what makes an agent takes memory: events are then taken in and dropped without any.
#![tactic(auto)]

mod agent;
mod subscriptions;
mod told;

pub use agent::{Agent, Plan, StaleAgent};
pub use subscriptions::next_event;
pub use told::{Acked, Retried, Sought};
