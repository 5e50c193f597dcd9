//! A script on silos: its producer's calls, silos that come and go by it, and what is printed.
//!
//! [`run`] starts a cluster, does the lines of a script in order as its one producer, waits until all queues are quiet,
//! and ends the cluster. What is printed then is what the script says, whatever the silos do: the contract says so.
//! [`run_script`] does the lines alone, on a cluster that is there.
//!
//! Not claimed: that a run ends, and that it ends with a report.

mod line;
mod outcome;
mod running;
mod text;

pub use outcome::{Ran, RunEnd, Unfinished, run};
pub use running::{ScriptEnd, ScriptRun, run_script};
pub use text::run_text;
