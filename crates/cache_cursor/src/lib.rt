//! Cursors into the cache of a queue: the next event of a stream, and where a token stands. Nothing here takes
//! memory.
#![tactic(auto)]

mod cursor;

pub use cursor::{TAGS, lower, next, tags_from};
