//! Scripts of a streaming cluster: the command that each line is, the texts that are printed, and the simulator that
//! does a script from a reader to a writer on one thread.
#![tactic(auto)]

mod parser;
mod printer;
mod simulate;
mod source_sink;

pub use parser::{
    Command, EachOp, Fault, FaultKind, Lines, MOST_SCRIPT_BYTES, Mode, Parsed, Publish, laws,
    parse_line, read_publish,
};
pub use printer::{
    appended_line, drain_line, drain_text, outcome_line, parts, reply_text, report_text,
};
pub use simulate::{SimConfig, SimError, read_script, sim};
pub use source_sink::{Counted, Failed, Sink, Source};
