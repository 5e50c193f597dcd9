//! Why a loop has ended.
use std::fmt;

/// Why a loop has ended.
#[derive(Clone, Copy, Debug, PartialEq, Eq)]
pub enum Over {
    /// It has made as many rounds as it may.
    Rounds,
    /// A call was answered `TooMany` or `Spent`, or a history is full.
    Limit,
    /// A call failed to allocate.
    Memory,
}

/// What has ended a loop, and at which queue, where it was at one: a loop also ends where it may begin no more rounds,
/// and by an answer of the directory.
#[derive(Clone, Copy, Debug, PartialEq, Eq)]
pub struct LoopEnd {
    /// Why.
    pub over: Over,
    /// The queue.
    pub queue: Option<usize>,
}

impl fmt::Display for LoopEnd {
    fn fmt<W: fmt::Write>(&self, f: &mut fmt::Formatter<W>) -> fmt::Result {
        match (self.over, self.queue) {
            (Over::Rounds, _) => write!(f, "a loop of a silo has made all its rounds"),
            (Over::Limit, Some(queue)) => write!(f, "a limit of queue {queue} has ended a loop"),
            (Over::Limit, None) => write!(f, "a limit of the directory has ended a loop"),
            (Over::Memory, _) => write!(f, "a loop of a silo had no memory"),
        }
    }
}
