//! The whole end of a cluster.
ghost use Rattle.std.specs.Prelude.{◌≡◌, List, IfOk};
ghost use Rattle.std.specs.List.{AllByRecursion};
ghost use Rattle.stream_script.specs.Report.{report_of};
ghost use Rattle.silo_loops.specs.Lines.{QueuePass, places};
ghost use Rattle.queue_callers.specs.Closing.{AreTracesOf};
ghost use Rattle.queue_callers.specs.Finishing.{Answers, CallersAloneProduce, CameTo, HaveBegun, IsFinished, OnHistories};
ghost use Rattle.queue_callers.specs.Gathering.{AreAt, gathered, passes_of};

use crate::asking::{Quiet, ask_quiet};
use crate::caller::Caller;
use crate::closing::{Closing, Traces, close};
use crate::ends::LoopEnds;
use crate::gathering::gather;
use shared_partition::{Gate, QueueHistory};
use silo_loops::{Doorbell, Line};
use std::alloc::{AllocError, Global};
use std::sync::{Arc, Wait};
use step_core::Partition;
use stream_laws::quiet_is_done;
use stream_model::Pending;
use stream_script::report_text;
use turnstile::Refusal;

/// How a cluster has ended.
#[derive(Drop)]
pub enum Finished<H> {
    /// Each queue was quiet, and no loop had come to a limit.
    Report {
        /// The report of the partitions.
        text: Vec<u8>,
        /// What was done.
        traces: Traces<H>,
    },
    /// A queue wasn't quiet, the first that was asked and wasn't, and no loop had come to a limit.
    NotQuiet {
        /// The queue.
        queue: usize,
        /// What is left to do there.
        why: Pending,
        /// What was done.
        traces: Traces<H>,
    },
    /// A loop had made as many rounds as it may.
    RoundLimit {
        /// What was done.
        traces: Traces<H>,
    },
    /// A loop had come to another limit, or the history of a queue was full, so that it could not be asked.
    Limit {
        /// What was done.
        traces: Traces<H>,
    },
    /// A pass of a queue has not come back. It is the first such queue. What was given is lost.
    NotAll {
        /// The queue.
        queue: usize,
        /// How many of its passes have not come back.
        missing: u64,
    },
    /// Somebody else still has the turnstile of a queue, or a pass of it was made while it was closed. What was given is
    /// lost.
    InUse,
}

/// Ends a cluster whose loops have ended so, and have come back with these lines: takes in the callers' passes, asks
/// each queue whether it is quiet, closes the turnstiles, and writes the report.
///
/// Where several answers could be given, it is `InUse`, else `NotAll`, `Limit`, `RoundLimit`, `NotQuiet`, and
/// `Report` where none of these could be.
///
/// # Errors
/// The call failed to allocate, or a loop failed to before. What was given is lost then. It goes before all answers.
pub fn finish<G: Gate, H: QueueHistory, R: Wait>(
    rt: &R,
    alloc: Global,
    doorbell: Arc<Doorbell, Global>,
    lines: Vec<Line<G, H>>,
    callers: Vec<Caller<G, H>>,
    ends: LoopEnds,
) -> Result<Finished<H>, AllocError>
    requires { AllByRecursion (AreAt (places lines.items)) callers.items }
    ensures finished { IfOk result (IsFinished H.entries ends (gathered (passes_of lines.items) callers.items)) }

    // What each given pass has seen begins the history, and no caller has made a call past that.
    ensures begun { IfOk result (OnHistories H.entries (HaveBegun (passes_of lines.items) callers.items)) }
    ensures producers { IfOk result (OnHistories H.entries (CallersAloneProduce callers.items)) }
{
    if ends.memory {
        return Err(AllocError);
    }
    let mut caller = gather(alloc, doorbell, lines, callers)?;
    let asked = ask(rt, alloc, &mut caller)?;
    match close(alloc, caller)? {
        Closing::InUse => Ok(Finished::InUse),
        Closing::NotAll { queue, missing } => Ok(Finished::NotAll { queue, missing }),
        Closing::Traced(traces) => answer(alloc, ends, asked, traces),
    }
}

// What the queues answer, and none where a history is full.
fn ask<G: Gate, H: QueueHistory, R: Wait>(
    rt: &R,
    alloc: Global,
    caller: &mut Caller<G, H>,
) -> Result<Option<Quiet>, AllocError>
    ensures { IfOk result (λ asked. CameTo asked caller.old caller.new) }
{
    match ask_quiet(rt, alloc, caller) {
        Ok(quiet) => Ok(Some(quiet)),
        Err(Refusal::HistoryFull) => Ok(None),
        Err(Refusal::Memory) => Err(AllocError),
    }
}

// The answer where all passes came back; `asked` is none where a history was full.
fn answer<H: QueueHistory>(
    alloc: Global,
    ends: LoopEnds,
    asked: Option<Quiet>,
    traces: Traces<H>,
) -> Result<Finished<H>, AllocError>
    ensures { IfOk result (λ finished. (passes last : List QueuePass) → CameTo asked passes last → AreTracesOf H.entries last traces → Answers H.entries ends asked last finished) }
{
    quiet_is_done();
    match asked {
        None => Ok(Finished::Limit { traces }),
        Some(_) if ends.limit => Ok(Finished::Limit { traces }),
        Some(_) if ends.rounds => Ok(Finished::RoundLimit { traces }),
        Some(Quiet::NotQuiet { queue, why }) => Ok(Finished::NotQuiet { queue, why, traces }),
        Some(Quiet::All) => {
            let text = report(alloc, &traces.partitions)?;
            Ok(Finished::Report { text, traces })
        }
    }
}

// The report of the partitions.
fn report(alloc: Global, partitions: &[Partition]) -> Result<Vec<u8>, AllocError>
    ensures { IfOk result (λ text. text.items ≡ report_of partitions.now) }
{
    let mut text = Vec::new(alloc);
    report_text(alloc, partitions, &mut text)?;
    Ok(text)
}
