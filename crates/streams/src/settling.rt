//! Waiting until everything that was published is handled.
ghost use Rattle.std.specs.Prelude.{◌≡◌};
ghost use Rattle.queue_callers.specs.Calls.{turnstiles};
ghost use Rattle.streams.specs.Settling.{CountsAll, Settles};

use crate::UntracedCaller;
use crate::answers::{SettleError, settled};
use crate::service::Host;
use shared_partition::Gate;
use silo_threads::drain;

/// Waits until all queues are quiet in one look, and have accepted as many batches behind it as before it.
pub(crate) fn settle<R: Host, G: Gate>(
    rt: &R,
    caller: &mut UntracedCaller<G>,
    looks: u32,
) -> Result<(), SettleError>
    ensures settles { Settles looks looks caller.old result caller.new }
    ensures turnstiles { turnstiles caller.new ≡ turnstiles caller.old }
{
    for _round in 0..looks {
        let before = count_batches(rt, caller);
        settled(drain(rt, rt.alloc(), caller, looks))?;
        if count_batches(rt, caller) == before {
            return Ok(());
        }
    }
    Err(SettleError::NotQuiet)
}

/// How many batches all queues have accepted.
fn count_batches<R: Host, G: Gate>(rt: &R, caller: &mut UntracedCaller<G>) -> u128
    ensures counts { CountsAll caller.old result caller.new }
    ensures turnstiles { turnstiles caller.new ≡ turnstiles caller.old }
{
    let mut count = 0;
    for queue in 0..caller.queues() {
        count += caller.figures(rt, queue).batches as u128;
    }
    count
}
