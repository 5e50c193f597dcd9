//! Scripts on silos: a whole script is read, its lines are done by one producer on a cluster whose silos come and go by
//! it, and what it prints is what the script says.
//!
//! [`run`] does all of it. [`read_lines`] reads a script, [`ask`] and [`ask_each`] ask for what a line says, and
//! [`run_script`] does the lines on a cluster that is there. [`queue_trace`] writes the history of a queue as a script.
//!
//! Not claimed: that a run ends, and that it ends with a report.
#![tactic(auto)]

mod producer;
mod reader;
mod runs;
mod traces;

pub use producer::{Answer, ask, ask_each};
pub use reader::{
    Line, Script, ScriptLine, explicit_are_told, implicit_are_owed, implicit_subs_are_owed,
    misses_change_no_other, open_have_all, producers_tell, quiet_tells, quiet_tells_script,
    read_lines, replies_are_told, rules_are_told, scripts_grow,
};
pub use runs::{Ran, RunEnd, ScriptEnd, ScriptRun, Unfinished, run, run_script, run_text};
pub use traces::{Calls, laws, queue_trace, write_op};
