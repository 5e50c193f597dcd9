//! A checker of scripts: every line that the parser refuses, with the place and the word at which it does, and what
//! stands in a script without a fault.
#![tactic(auto)]

mod field;
mod finding;
pub mod laws;
mod line;
mod piece;
mod printable;
mod script;
mod summary;
mod verb;

pub use line::{Checked, LineFault, check_line};
pub use script::{Findings, check_script};
pub use summary::Summary;
pub use verb::Verb;
