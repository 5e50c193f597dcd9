//! The subscriptions and rules of one partition of a stream provider, as a pub-sub system keeps them
//! (Orleans: *Streaming, quickstart*, explicit and implicit subscriptions): each subscription under its
//! name, the names of a stream's subscriptions, and the rules on a stream's namespace, which make the
//! implicit subscriptions of the events that an agent pulls.
//!
//! It is a value in the memory of one process. Nothing is claimed of how fast a call is.
#![tactic(auto)]

mod implying;
mod indexed;
mod packed;
mod registration;
mod registry;
mod sub_names;
mod told;

pub use registration::Registration;
pub use registry::Registry;
pub use sub_names::SubNames;
pub use told::{Added, Closing, Implied, RuleAdded};
