//! Tests of the layers that threads share, through their public calls: the turnstile, what is shared through it, the
//! directory of activations, the balancer of queues, and the loops of a silo.
#![tactic(auto)]

#[cfg(test)]
mod balancer;
#[cfg(test)]
mod by_hand;
#[cfg(test)]
mod directory;
#[cfg(test)]
mod fresh;
#[cfg(test)]
mod gate;
#[cfg(test)]
mod in_threads;
#[cfg(test)]
mod meetings;
#[cfg(test)]
mod operations;
#[cfg(test)]
mod passes;
#[cfg(test)]
mod refusals;
#[cfg(test)]
mod replies;
#[cfg(test)]
mod rows;
#[cfg(test)]
mod running;
#[cfg(test)]
mod seven;
#[cfg(test)]
mod shared;
#[cfg(test)]
mod silo;
#[cfg(test)]
mod taken;
#[cfg(test)]
mod tally;
#[cfg(test)]
mod total;
#[cfg(test)]
mod turns;
#[cfg(test)]
mod visits;
