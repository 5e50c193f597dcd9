//! Waiting until all queues are quiet.
ghost use Rattle.std.specs.Prelude.{◌≡◌};
ghost use Rattle.std.specs.List.{AllZip};
ghost use Rattle.queue_callers.specs.Calls.{turnstiles};
ghost use Rattle.queue_callers.specs.Draining.{EndsLooking, HasGoneOn, ProducesNone};

use crate::asking::{Quiet, ask_quiet};
use crate::caller::Caller;
use shared_partition::{Gate, QueueHistory};
use std::alloc::{AllocError, Global};
use std::sync::Wait;
use std::sync::atomic::AtomicBool;
use std::thread;
use turnstile::Refusal;

/// How often a drain yields before a look, at most.
const MOST_YIELDS: u32 = 5_000;

/// How a drain has ended.
#[derive(Clone, Copy, Debug, PartialEq, Eq)]
pub enum Drained {
    /// In one look at all queues each was quiet.
    Quiet,
    /// There were as many looks as there may be, and in each a queue wasn't quiet.
    NotQuiet,
    /// A queue wasn't quiet, and may never be: a loop has ended, a silo went and its queues weren't given to others, or
    /// not all loops of one that came could be started.
    Ended,
    /// The history of a queue is full.
    Limit,
}

/// Looks at the queues until all are quiet, at most `looks` times, and waits at the doorbell between two looks. It makes
/// no other call. The longer it lasts, the more it leaves the silos to do before it looks again, so that it doesn't give
/// up while they work off what was published.
///
/// # Errors
/// A call failed to allocate. Nothing was done but looks.
pub fn drain<G: Gate, H: QueueHistory, R: Wait>(
    rt: &R,
    alloc: Global,
    caller: &mut Caller<G, H>,
    looks: u32,
) -> Result<Drained, AllocError>
    ensures none { AllZip ProducesNone caller.old caller.new }
    ensures ends { EndsLooking looks caller.old result caller.new }
    ensures on { AllZip HasGoneOn caller.old caller.new }
    ensures turnstiles { turnstiles caller.new ≡ turnstiles caller.old }
{
    let never = AtomicBool::new(false);
    for look in 0..looks {
        rest(look);
        let rung = caller.doorbell().now(rt);
        match ask_quiet(rt, alloc, caller) {
            Ok(Quiet::All) => return Ok(Drained::Quiet),
            Ok(Quiet::NotQuiet { .. }) => {}
            Err(Refusal::HistoryFull) => return Ok(Drained::Limit),
            Err(Refusal::Memory) => return Err(AllocError),
        }
        if caller.doorbell().has_ended() {
            return Ok(Drained::Ended);
        }
        caller.doorbell().wait_past(rt, rung, &never);
    }
    Ok(Drained::NotQuiet)
}

/// Yields to other threads, once more before each look than before the one that came before it.
fn rest(look: u32) {
    for _ in 0..look.min(MOST_YIELDS) {
        thread::yield_now();
    }
}
