//! Rebalancing: places are made for all queues, and given to them so that queues stay.
ghost use Rattle.std.specs.Prelude.{◌≡◌, ◌≢◌, ◌↔◌, ℕ, ◌<◌, length, slice_index, IfOk, MatchOption, [], Err};
ghost use Rattle.queue_balancer.specs.Balance.{HasNoDoubles, IsBalanced};
ghost use Rattle.queue_balancer.specs.Places.{KeepsOld};

use crate::assignment::{Assignment, RebalanceError};
use crate::places::places;
use std::alloc::Global;

/// The new silo of each queue, given the old silo of each and the silos that live.
///
/// The old silos may be gone. The live ones stand in any order, each once. With `floor` the number of queues
/// divided by that of live silos, rounded down:
///
/// - each queue gets a live silo;
/// - each live silo gets `floor` queues or one more;
/// - a queue moves only where its old silo isn't live or had more than `floor` queues;
/// - where the old silos meet the first two already, nothing moves.
///
/// # Errors
/// `NoSilo` where no silo lives, and only there; it takes no memory. `Memory` where the call failed to
/// allocate.
pub fn rebalance(alloc: Global, old: &[u8], live: &[u8]) -> Result<Assignment, RebalanceError>
    requires { HasNoDoubles live.now }
    ensures no_silo { (result ≡ Err RebalanceError.NoSilo) ↔ (live.now ≡ []) }
    ensures balanced { IfOk result (λ new. IsBalanced old.now live.now new) }
{
    if live.is_empty() {
        return Err(RebalanceError::NoSilo);
    }
    let mut places = places(alloc, old, live)?;
    keep(old, places.as_mut_slice());
    Ok(Assignment::of(places))
}

/// Exchanges places, so that a queue leaves its old silo only where all places there are taken by queues
/// that stay.
fn keep(old: &[u8], places: &mut [u8])
    requires { length places.old ≡ length old.now }
    ensures { KeepsOld old.now places.old places.new }
{
    for queue in 0..old.len() {
        if places[queue] != old[queue] {
            if let Some(other) = spare(old, places, old[queue]) {
                places.swap(queue, other);
            }
        }
    }
}

/// A queue that has a place on this silo and wasn't there before.
fn spare(old: &[u8], places: &[u8], silo: u8) -> Option<usize>
    requires { length places.now ≡ length old.now }
    ensures { MatchOption result
        ((queue : ℕ) → queue < length old.now → slice_index places.now queue ≡ silo → slice_index old.now queue ≡ silo)
        (λ queue. (queue < length old.now) × (slice_index places.now queue ≡ silo) × (slice_index old.now queue ≢ silo)) }
{
    for queue in 0..old.len() {
        if places[queue] == silo && old[queue] != silo {
            return Some(queue);
        }
    }
    None
}
