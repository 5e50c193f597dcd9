//! A log whose events are read. Its streams are o/KEY, with a key of one byte.

use crate::names::{payload, stream};
use partition_queue::{Appended, PartitionQueue};
use std::alloc::{AllocError, Global};
use std::process::Abort;
use stream_ident::Batch;

/// The payloads of a batch.
static BYTES: [u8; 64] = *b" !\"#$%&'()*+,-./0123456789:;<=>?@ABCDEFGHIJKLMNOPQRSTUVWXYZ[\\]^_";

/// A batch of so many payloads of one byte each, of which no two of the first 64 are equal.
pub(crate) fn batch<R: Abort>(rt: &R, alloc: Global, count: usize) -> Result<Batch, AllocError> {
    let mut payloads = Vec::with_capacity(alloc, count)?;
    for number in 0..count {
        payloads.push(payload(rt, BYTES[number % 64]))?;
    }
    Ok(Batch::of(payloads))
}

/// A log.
pub(crate) struct Log {
    pub(crate) queue: PartitionQueue,
}

impl Drop for Log {
    fn drop(self) {
        let Self { queue: _ } = self;
    }
}

impl Log {
    /// An empty log of up to so many events.
    pub(crate) fn new<R: Abort>(rt: &R, alloc: Global, limit: usize) -> Log {
        assert!(rt; limit <= 2000);
        Log {
            queue: PartitionQueue::new(alloc, limit),
        }
    }

    /// Appends a batch of so many events to the stream with a key.
    pub(crate) fn append<R: Abort>(
        &mut self,
        rt: &R,
        alloc: Global,
        key: u8,
        count: usize,
    ) -> Result<Appended, AllocError> {
        let batch = batch(rt, alloc, count)?;
        self.queue.append(alloc, &stream(rt, b'o', key), &batch)
    }
}
