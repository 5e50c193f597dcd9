//! What the mapper gives.

/// Where the events of a stream go.
#[derive(Clone, Copy, Debug, PartialEq, Eq)]
pub struct Place {
    /// The queue, counted from 0.
    pub queue: usize,
    /// A byte that most streams of a queue don't share.
    pub tag: u8,
}
