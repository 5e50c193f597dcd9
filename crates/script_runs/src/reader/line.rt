//! A line of a script.
use stream_script::Command;

/// A command, and the number of its line.
#[derive(Debug, Drop)]
pub struct Line {
    /// The line, counted from 1.
    pub number: usize,
    /// What it says.
    pub command: Command,
}
