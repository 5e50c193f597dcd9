//! The cache of a queue: the headers of events at positions that follow one another, in a ring of blocks of 64,
//! each with a row of tags that can be searched fast (Orleans: *Streaming, implementation details*, queue
//! cache).
//!
//! Only what makes a cache takes memory: events are then taken in, dropped and read without any.
#![tactic(auto)]

mod cache;

pub use cache::{Block, QueueCache};
