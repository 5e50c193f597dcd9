//! What was done at a queue as a script, which a simulation does again on one thread.
//!
//! [`queue_trace`] writes the calls of a history, all or those that found something, each as the line that asks for it, and its reply in a comment behind it.
//! Simulated, the script gives just these replies at its queue. [`write_op`] writes the line of one operation.

mod fields;
pub mod laws;
mod trace;
mod write;

pub use trace::{Calls, queue_trace};
pub use write::write_op;
