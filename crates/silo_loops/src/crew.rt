//! The loops of a silo: made from passes that are split off, started in threads, stopped, and joined back.
//!
//! [`SiloLoops`] are a silo's agent and its two turn workers. Whatever fails, each pass that was split off is
//! joined back, so that none is missing at the end.
//!
//! Not claimed: that a thread gets on, and that a loop which is told to stop comes back.

mod lines;
mod loops;
mod running;

pub use lines::{join_lines, split_lines};
pub use loops::{SiloLoops, SiloTools};
pub use running::{AgentPromise, RunningSilo, WorkerPromise};
