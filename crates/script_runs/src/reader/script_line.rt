//! What a run prints of the lines of its script.

/// A line that stands before the report.
#[derive(Clone, Copy, Debug, PartialEq, Eq)]
pub enum ScriptLine {
    /// A subscribe whose start token is refused.
    Miss {
        /// The number of its line.
        line: usize,
    },
    /// A command that is otherwise refused.
    Refused {
        /// The number of its line.
        line: usize,
    },
}
