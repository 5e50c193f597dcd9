//! The places of the queues: a list with each live silo as often as it is to have queues.
ghost use Rattle.std.specs.Prelude.{◌≡◌, ◌<◌, ◌≤◌, length, IfOk};
ghost use Rattle.queue_balancer.specs.Balance.{count, HasNoDoubles};
ghost use Rattle.queue_balancer.specs.Places.{order_of, ArePlaces};

use std::alloc::{AllocError, Global};

/// How many of the queues this silo has.
pub fn load(queues: &[u8], silo: u8) -> usize
    ensures exact { result ≡ count silo queues.now }
    ensures bound { result ≤ length queues.now }
{
    queues.iter().filter(|other| **other == silo).count()
}

/// The live silos in their order, but first those with more queues than `least`.
fn order(alloc: Global, old: &[u8], live: &[u8], least: usize) -> Result<Vec<u8>, AllocError>
    ensures { IfOk result (λ order. order.items ≡ order_of least old.now live.now) }
{
    let mut order = Vec::with_capacity(alloc, live.len())?;
    for silo in live {
        if load(old, *silo) > least {
            order.push(*silo)?;
        }
    }
    for silo in live {
        if load(old, *silo) <= least {
            order.push(*silo)?;
        }
    }
    Ok(order)
}

/// As many places as there are queues. Each live silo has an equal number, and some have one more: first
/// of all those that had more before.
///
/// # Errors
/// The call failed to allocate.
pub fn places(alloc: Global, old: &[u8], live: &[u8]) -> Result<Vec<u8>, AllocError>
    requires some { 0 < length live.now }
    requires no_doubles { HasNoDoubles live.now }
    ensures { IfOk result (λ places. ArePlaces old.now live.now places.items) }
{
    let least = old.len() / live.len();
    let rest = old.len() % live.len();
    let order = order(alloc, old, live, least)?;
    let mut places = Vec::with_capacity(alloc, old.len())?;
    for _round in 0..least {
        places.extend_from_slice(live)?;
    }
    places.extend_from_slice(&order[..rest])?;
    Ok(places)
}
