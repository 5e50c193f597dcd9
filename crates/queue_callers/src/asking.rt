//! Whether each queue of a cluster is quiet.
ghost use Rattle.std.specs.Prelude.{◌≡◌};
ghost use Rattle.queue_callers.specs.Calls.{turnstiles};
ghost use Rattle.queue_callers.specs.Asking.{AsksQuiet, pending_of};

use crate::caller::Caller;
use shared_partition::{Gate, QueueHistory};
use std::alloc::Global;
use std::sync::Wait;
use step_core::{Answer, Reply};
use stream_model::{Op, Pending};
use turnstile::Refusal;

/// What the queues of a cluster answer.
#[derive(Clone, Copy, Debug, PartialEq, Eq)]
pub enum Quiet {
    /// In each queue everything is pulled, delivered and handled.
    All,
    /// In a queue something is left to do. Each queue before it is quiet, and those behind it weren't asked.
    NotQuiet {
        /// The queue.
        queue: usize,
        /// What is left to do there.
        why: Pending,
    },
}

/// Asks each queue whether it is quiet, one after another, up to the first that isn't.
///
/// # Errors
/// A queue refused the call, as [`Caller::call`] says. Each queue before it is quiet, and those behind it
/// weren't asked.
pub fn ask_quiet<G: Gate, H: QueueHistory, R: Wait>(
    rt: &R,
    alloc: Global,
    caller: &mut Caller<G, H>,
) -> Result<Quiet, Refusal>
    ensures asks { AsksQuiet caller.old result caller.new }
    ensures turnstiles { turnstiles caller.new ≡ turnstiles caller.old }
{
    for queue in 0..caller.queues() {
        let answer = caller.ask(rt, alloc, queue, Op::Quiet, &mut Vec::new(alloc))?;
        match pending_of(&answer) {
            Some(why) => return Ok(Quiet::NotQuiet { queue, why }),
            None => {}
        }
    }
    Ok(Quiet::All)
}

// What is left to do, where the answer says so.
fn pending_of(answer: &Answer) -> Option<Pending>
    ensures { result ≡ pending_of answer.now }
{
    match *answer.outcome() {
        Reply::NotQuiet(why) => Some(why),
        _ => None,
    }
}
