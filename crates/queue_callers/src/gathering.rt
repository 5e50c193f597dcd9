//! The passes of a cluster, taken into one caller.
ghost use Rattle.std.specs.Prelude.{IfOk};
ghost use Rattle.std.specs.List.{AllByRecursion};
ghost use Rattle.silo_loops.specs.Lines.{places};
ghost use Rattle.queue_callers.specs.Gathering.{AreAt, Gathers, passes_of};

use crate::caller::Caller;
use shared_partition::{Gate, QueueHistory};
use silo_loops::{Doorbell, Line};
use std::alloc::{AllocError, Global};
use std::sync::Arc;

/// One caller with the passes of these lines, which has taken in those of the callers, one caller after
/// another.
///
/// # Errors
/// The call failed to allocate. What was given is lost then.
pub fn gather<G: Gate, H: QueueHistory>(
    alloc: Global,
    doorbell: Arc<Doorbell, Global>,
    lines: Vec<Line<G, H>>,
    callers: Vec<Caller<G, H>>,
) -> Result<Caller<G, H>, AllocError>
    requires { AllByRecursion (AreAt (places lines.items)) callers.items }
    ensures { IfOk result (Gathers (passes_of lines.items) callers.items) }
{
    let mut all = Caller::of_lines(alloc, doorbell, lines)?;
    for caller in callers {
        all.join(caller);
    }
    Ok(all)
}
