//! What became of a batch.

/// What became of a batch.
#[derive(Clone, Copy, Debug, PartialEq, Eq)]
pub enum Appended {
    /// Its events are at the end of the queue.
    Accepted {
        /// The number of the batch, counted from 0 over the batches that the queue accepted.
        seq: u64,
    },
    /// It has no payload, or more than 64. Nothing has changed.
    BadBatch,
    /// It has more payloads than the queue has room for. Nothing has changed.
    QueueFull,
}
