//! The loops that a silo runs over the queues of a cluster, each single call of which is a public step.
//!
//! An [`AgentLoop`] pulls the queues that are assigned to it and delivers what is due. A [`WorkerLoop`] runs
//! turns of ready grains: it enters the grain at the directory, begins a turn, has the gate handle its events,
//! and commits it. Each has passes of its own, in [`Line`]s, and rests where a round found nothing to do. A
//! [`Doorbell`] tells that there may be more. A visit makes steps at one queue, one after another, and keeps the turn
//! of that queue meanwhile. Whoever keeps a queue's turn may wait for the directory's, and nobody the other way round.
//!
//! [`SiloLoops`] are the loops of one silo, and a [`RunningSilo`] has them in threads.
//!
//! Not claimed: that a loop gets on, and that a doorbell wakes who waits at it.
#![tactic(auto)]

mod advance;
mod agent;
mod agent_steps;
mod agent_walk;
mod crew;
mod directory_line;
mod heard;
mod line;
mod worker;
mod worker_steps;
mod worker_walk;

pub use advance::Advance;
pub use agent::AgentLoop;
pub use crew::{
    AgentPromise, RunningSilo, SiloLoops, SiloTools, WorkerPromise, join_lines, split_lines,
};
pub use directory_line::DirectoryLine;
pub use doorbells::{Assigned, Doorbell, LoopEnd, Over, directory_rings, rings};
pub use line::Line;
pub use worker::{TurnRoom, WorkerLoop};
