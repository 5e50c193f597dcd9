//! Where the loops of silos wait, and how they are told that there may be more to do.
//!
//! A [`Doorbell`] counts what happened: whoever found nothing to do waits there for more. It has a [`Desk`] for the agent of
//! each silo and one for its workers, with hints of the queues at which to look first. A [`Bell`] rings for the calls of one
//! line, and [`Assigned`] tells an agent which queues it has.
//!
//! Not claimed: that whoever waits is woken. No contract speaks of what is told.
#![tactic(auto)]

mod assigned;
mod desk;
mod doorbell;
mod loop_end;
mod ringing;

pub use assigned::Assigned;
pub use desk::{Desk, QueueSet, count_at, is_among, wait_at};
pub use doorbell::{Bell, Doorbell};
pub use loop_end::{LoopEnd, Over};
pub use ringing::{directory_rings, rings};
