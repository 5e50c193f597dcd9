//! A run of a script, from the start of a cluster to its end.
ghost use Rattle.std.specs.Prelude.{◌≡◌, Some, IfOk};
ghost use Rattle.script_runs.specs.Scripts.{IsScript};
ghost use Rattle.silo_threads.specs.Clusters.{IsConfig};
ghost use Rattle.script_runs.specs.declared.runs.outcome.RunEnd.TheVariants as ends;
ghost use Rattle.script_runs.specs.Runs.{LeavesLegalTraces, RunsAndEnds, RunsScript, run_end, why_after};

use crate::reader::{Line, ScriptLine};
use crate::runs::running::{ScriptEnd, ScriptRun, run_script};
use shared_partition::{DirectoryHistory, Gate, QueueHistory};
use silo_threads::{Cluster, Config, Finished, Traces};
use std::alloc::{AllocError, Global};
use std::sync::{Arc, Wait};
use std::thread::Threads;

/// Why a run has no report. Where several are so, it is the first.
#[derive(Clone, Copy, Debug, PartialEq, Eq)]
pub enum Unfinished {
    /// A limit is reached, by a line or by a loop.
    Limit,
    /// A loop has made as many rounds as it may.
    RoundLimit,
    /// Not all queues got quiet.
    NotQuiet,
}

/// How a run has ended.
#[derive(Drop)]
pub enum RunEnd<H> {
    /// All lines are done, and all queues got quiet.
    Report {
        /// The report.
        text: Vec<u8>,
        /// What was done at the queues.
        traces: Traces<H>,
    },
    /// There is no report.
    Unfinished {
        /// Why there is none.
        why: Unfinished,
        /// What was done at the queues, where all passes came back.
        traces: Option<Traces<H>>,
    },
}

/// What came of a run.
pub struct Ran<H> {
    /// What the lines that are done print, in their order.
    pub printed: Vec<ScriptLine>,
    /// How it has ended.
    pub end: RunEnd<H>,
}

impl<H: Drop> Drop for Ran<H> {
    fn drop(self) {
        let Self { printed: _, end: _ } = self;
    }
}

/// Starts a cluster, does the lines of a script in order as its one producer, waits until all queues are quiet, and
/// ends the cluster. No thread is left then.
///
/// # Errors
/// A call failed to allocate, or a thread can't be made. No thread is left then either.
pub fn run<
    G: Gate + 'static,
    H: QueueHistory + Send + 'static,
    D: DirectoryHistory + Send + 'static,
    R: Threads + Wait + Copy + Send + 'static,
>(
    rt: &R,
    alloc: Global,
    config: &Config,
    gate: Arc<G, Global>,
    lines: Vec<Line>,
) -> Result<Ran<H>, AllocError>
    requires config { IsConfig config.now }
    requires script { IsScript config.now.queues lines.items }
    ensures script { IfOk result (RunsScript H.entries config.now lines.items) }
    ensures ends { IfOk result (RunsAndEnds H.entries config.now lines.items) }
    ensures legal { IfOk result (λ ran. LeavesLegalTraces H.entries config.now ran.end) }
{
    let mut callers = Vec::with_capacity(alloc, 1)?;
    let (mut cluster, mut caller) = Cluster::<G, H, D>::new(rt, alloc, config, gate)?;
    let script = run_script(rt, alloc, &mut cluster, &mut caller, lines);
    callers.push_reserved(caller);
    let ended = cluster.finish(rt, alloc, callers);
    Ok(conclude(script?, ended?.finished))
}

// What came of a run whose script and whose cluster have ended so.
fn conclude<H: Drop>(script: ScriptRun, finished: Finished<H>) -> Ran<H>
    ensures { result ≡ record { printed = script.printed; end = run_end finished script.end } }
{
    let ScriptRun { printed, end } = script;
    let end = match finished {
        Finished::Report { text, traces } => match end {
            ScriptEnd::Done => RunEnd::Report { text, traces },
            _ => without_report(end, Unfinished::NotQuiet, traces),
        },
        Finished::NotQuiet {
            queue: _,
            why: _,
            traces,
        } => without_report(end, Unfinished::NotQuiet, traces),
        Finished::RoundLimit { traces } => without_report(end, Unfinished::RoundLimit, traces),
        Finished::Limit { traces } => without_report(end, Unfinished::Limit, traces),
        Finished::NotAll { .. } | Finished::InUse => RunEnd::Unfinished {
            why: Unfinished::Limit,
            traces: None,
        },
    };
    Ran { printed, end }
}

// The end of a run without a report whose passes all came back, by how its script has ended.
fn without_report<H>(end: ScriptEnd, why: Unfinished, traces: Traces<H>) -> RunEnd<H>
    ensures { result ≡ ends.Unfinished (why_after end why) (Some traces) }
{
    let why = match (end, why) {
        (ScriptEnd::Limit | ScriptEnd::Halted, _) => Unfinished::Limit,
        (ScriptEnd::RoundLimit, Unfinished::NotQuiet) => Unfinished::RoundLimit,
        _ => why,
    };
    RunEnd::Unfinished {
        why,
        traces: Some(traces),
    }
}
