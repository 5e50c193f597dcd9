//! The lines of a script, and the command that each of them is, or its first fault.

mod agent_forms;
mod command;
mod fields;
pub mod laws;
mod limits;
mod lines;
mod parse;
mod publish;

pub use command::{Command, EachOp, Fault, FaultKind, Mode, Parsed};
pub use limits::MOST_SCRIPT_BYTES;
pub use lines::Lines;
pub(crate) use lines::is_special;
pub use parse::parse_line;
pub(crate) use parse::read_line;
pub use publish::{Publish, read_publish};
