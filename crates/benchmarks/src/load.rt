//! What is published, and to how many consumers.
use anyhow::Result;
use std::alloc::Global;
use streams::Payload;

/// How many events a batch may have at most.
pub const BATCH: usize = 64;

/// What is published, and to how many consumers, on how many silos and queues.
#[derive(Clone, Copy)]
pub struct Load {
    pub silos: u8,
    pub queues: usize,
    /// The length of each payload, in bytes.
    pub bytes: usize,
    /// How many streams there are, each with a grain of its own that subscribes to it.
    pub consumers: usize,
    /// How many batches are published, to one stream after another.
    pub batches: usize,
    /// How many events a batch has.
    pub batch: usize,
    /// How many microseconds of processor time the handler takes for an event.
    pub handler: u64,
    /// Whether every other batch goes to the first stream, which so gets half of all events.
    pub skewed: bool,
}

impl Load {
    /// How many events are published.
    pub fn events(&self) -> usize {
        self.batches.saturating_mul(self.batch)
    }

    /// The stream to which a batch is published. A skewed load has two streams at least.
    pub fn stream_of(&self, batch: usize) -> usize {
        if !self.skewed {
            batch % self.consumers.max(1)
        } else if batch % 2 == 0 {
            0
        } else {
            1 + batch / 2 % self.consumers.saturating_sub(1).max(1)
        }
    }

    /// How many events the first stream gets, which has the most.
    pub fn most(&self) -> usize {
        let share = if self.skewed {
            2
        } else {
            self.consumers.max(1)
        };
        self.batches.div_ceil(share).saturating_mul(self.batch)
    }

    /// The payloads of a batch.
    pub fn payloads(&self, alloc: Global) -> Result<Vec<Payload>> {
        let bytes = vec![in alloc; b'e'; self.bytes]?;
        Ok(vec![in alloc; Payload::new(&bytes)?; self.batch]?)
    }
}
