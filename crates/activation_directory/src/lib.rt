//! A directory of grains: the silo that a grain is placed on, and the permit to run it, of which one is
//! out at a time (Orleans: *Grain directory*, single activation).
//!
//! It is a value in the memory of one process. Nothing is claimed of silos that keep directories of their
//! own, of what is lost when the process ends, or of how fast an operation is.
#![tactic(auto)]

mod directory;
pub mod laws;
mod op;
mod place;
mod placed;
mod reply;

pub use directory::Directory;
pub use op::DirectoryOp;
pub use place::Place;
pub use reply::DirectoryReply;
