//! How a turnstile stores the calls of a partition, and those of a directory.

use activation_directory::{DirectoryOp, DirectoryReply};
use step_core::Answer;
use stream_model::Op;
use turnstile::StoredHistory;

/// A way to store the history of a queue's partition.
pub trait QueueHistory: StoredHistory<Op, Answer> {}

impl<H: StoredHistory<Op, Answer>> QueueHistory for H {}

/// A way to store the history of the directory.
pub trait DirectoryHistory: StoredHistory<DirectoryOp, DirectoryReply> {}

impl<H: StoredHistory<DirectoryOp, DirectoryReply>> DirectoryHistory for H {}
