//! The end of the turnstiles of a cluster.
ghost use Rattle.std.specs.Prelude.{◌≡◌, [], ◌∷◌, ◌++◌, List, IfOk};
ghost use Rattle.silo_loops.specs.Lines.{QueuePass};
ghost use Rattle.queue_callers.specs.Closing.{AreTracesOf, IsClosing, IsEnd};

use crate::caller::Caller;
use crate::queue_caller::QueueCaller;
use shared_partition::{Gate, QueueHistory, SharedPartition};
use std::alloc::{AllocError, Global};
use std::sync::Arc;
use step_core::Partition;
use turnstile::{Closed, PassOf};

/// All that was done in a cluster: of each queue its history, and its partition at the end.
#[derive(Drop)]
pub struct Traces<H> {
    /// Every call that was made at each queue, in order.
    pub histories: Vec<H>,
    /// What the calls made of each partition.
    pub partitions: Vec<Partition>,
}

/// What [`close`] answers.
#[derive(Drop)]
pub enum Closing<H> {
    /// All passes came back, and this is what was done.
    Traced(Traces<H>),
    /// A pass of a queue has not come back. It is the first such queue.
    NotAll {
        /// The queue.
        queue: usize,
        /// How many of its passes have not come back.
        missing: u64,
    },
    /// Somebody else still has the turnstile of a queue, or a pass of it was made while it was closed.
    InUse,
}

// What is left of a queue.
#[derive(Drop)]
enum End<H> {
    Traced { history: H, partition: Partition },
    NotAll { missing: u64 },
    InUse,
}

/// Ends the turnstiles of all queues, and gives what was done there.
///
/// It answers `InUse` where that is so of any queue, and else `NotAll` where a pass is missing. All turnstiles that
/// can be closed are closed then too, and what they held is lost.
///
/// # Errors
/// The call failed to allocate. What the caller had is lost then.
pub fn close<G: Gate, H: QueueHistory>(
    alloc: Global,
    caller: Caller<G, H>,
) -> Result<Closing<H>, AllocError>
    ensures { IfOk result (IsClosing H.entries caller) }
{
    let mut closing = Closing::Traced(Traces {
        histories: Vec::new(alloc),
        partitions: Vec::new(alloc),
    });
    for queue in caller.into_queues() {
        closing = with_end(closing, close_queue(alloc, queue)?)?;
    }
    Ok(closing)
}

// The same with one more queue behind.
fn with_end<H: QueueHistory>(closing: Closing<H>, end: End<H>) -> Result<Closing<H>, AllocError>
    ensures { IfOk result (λ new. (passes : List QueuePass) (pass : QueuePass) → IsClosing H.entries passes closing → IsEnd H.entries pass end → IsClosing H.entries (passes ++ pass ∷ []) new) }
{
    match closing {
        Closing::InUse => Ok(Closing::InUse),
        Closing::NotAll { queue, missing } => match end {
            End::InUse => Ok(Closing::InUse),
            _ => Ok(Closing::NotAll { queue, missing }),
        },
        Closing::Traced(traces) => traces_with_end(traces, end),
    }
}

// The same where no pass was missing so far.
fn traces_with_end<H: QueueHistory>(
    mut traces: Traces<H>,
    end: End<H>,
) -> Result<Closing<H>, AllocError>
    ensures { IfOk result (λ new. (passes : List QueuePass) (pass : QueuePass) → AreTracesOf H.entries passes traces → IsEnd H.entries pass end → IsClosing H.entries (passes ++ pass ∷ []) new) }
{
    match end {
        End::InUse => Ok(Closing::InUse),
        End::NotAll { missing } => Ok(Closing::NotAll {
            queue: traces.histories.len(),
            missing,
        }),
        End::Traced { history, partition } => {
            traces.histories.push(history)?;
            traces.partitions.push(partition)?;
            Ok(Closing::Traced(traces))
        }
    }
}

// Ends the turnstile of one queue.
fn close_queue<G: Gate, H: QueueHistory>(
    alloc: Global,
    queue: QueueCaller<G, H>,
) -> Result<End<H>, AllocError>
    ensures { IfOk result (IsEnd H.entries queue) }
{
    let (shared, pass) = queue.into_parts();
    let passes = alone(alloc, pass)?;
    let Some(turnstile) = Arc::into_inner(shared) else {
        return Ok(End::InUse);
    };
    match turnstile.close(passes) {
        Closed::Traced(done) => Ok(End::Traced {
            history: done.history,
            partition: done.object.into_partition(),
        }),
        Closed::NotAll(back) => Ok(End::NotAll {
            missing: back.missing,
        }),
        Closed::InUse => Ok(End::InUse),
    }
}

// A vector of one pass.
fn alone<G: Gate, H: QueueHistory>(
    alloc: Global,
    pass: PassOf<SharedPartition<G, H>>,
) -> Result<Vec<PassOf<SharedPartition<G, H>>>, AllocError>
    ensures { IfOk result (λ passes. passes.items ≡ pass ∷ []) }
{
    let mut passes = Vec::with_capacity(alloc, 1)?;
    passes.push_reserved(pass);
    Ok(passes)
}
