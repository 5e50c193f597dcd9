//! A partition and a directory that threads call through a turnstile.
//!
//! What is proved of one history, whoever makes it, holds of what each thread has seen: each call says so of
//! all that its pass has seen then. A turnstile over a [`SharedPartition`] is called by
//! [`SharedPartition::call`], and one over a [`SharedDirectory`] by [`SharedDirectory::call`].
//!
//! Not claimed: that a call's turn comes, and any order between passes that never met.
#![tactic(auto)]

mod directory;
mod gate;
mod history;
mod partition;

pub use directory::SharedDirectory;
pub use gate::{Counting, Gate};
pub use history::{DirectoryHistory, QueueHistory};
pub use partition::SharedPartition;
