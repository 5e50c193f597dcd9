//! A lock under which threads share an object, and which keeps one history of all calls.
//!
//! A [`Turnstile`] holds an object and the list of the calls that were made on it. A thread calls it
//! through a [`Pass`], which knows how much of the history it has seen. All that any pass has seen is a
//! beginning of one history, in which each call got the reply that the object gives there, and at the end
//! the object is what these calls make of it.
//!
//! Calls take turns. Who comes while another has a turn waits before it draws a ticket, so that the order in which
//! passes came isn't that of their turns. Not claimed: that a turn comes, that a thread which waits gets on, and any
//! order in time between passes that never met.
#![tactic(auto)]

mod asked;
mod closing;
mod handle;
mod history;
mod lock;
mod pass;
mod passes;
mod recorded;
mod replays;
mod rule;
mod turnstile;
mod view;

pub use asked::{Asked, AskedHistory};
pub use closing::{Closed, NotAll, Traced};
pub use handle::Handle;
pub use history::{Entry, PlainHistory, StoredHistory};
pub use pass::{Pass, PassOf};
pub use recorded::{ProofHistory, Recorded};
pub use replays::Replays;
pub use turnstile::{Refusal, Turn, Turnstile};
pub use view::{Claim, Held, Opening, Start, View};
