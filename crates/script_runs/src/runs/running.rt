//! A script on a cluster that is there.
ghost use Rattle.std.specs.Prelude.{◌≡◌, ◌++◌, ◌≤◌, [], false, length, IfErr, IfOk, OnErr, OnOk};
ghost use Rattle.std.specs.List.{AllZip};
ghost use Rattle.queue_callers.specs.Calls.{turnstiles};
ghost use Rattle.silo_operators.specs.Operators.{OperatorGoesOn};
ghost use Rattle.queue_callers.specs.Draining.{HasGoneOn};
ghost use Rattle.script_runs.specs.Telling.{printed_lines};
ghost use Rattle.script_runs.specs.Scripts.{IsScript};
ghost use Rattle.silo_threads.specs.Clusters.{is_fixed};
ghost use Rattle.script_runs.specs.Runs.{AnswersScript, EndsLines};

use crate::producer::Answer;
use crate::reader::{Line, ScriptLine};
use crate::runs::line::{Stop, do_line, wait_until_quiet};
use shared_partition::{DirectoryHistory, Gate, QueueHistory};
use silo_threads::{Caller, Cluster};
use std::alloc::{AllocError, Global};
use std::sync::Wait;
use std::thread::Threads;

/// How a script has ended.
#[derive(Clone, Copy, Debug, PartialEq, Eq)]
pub enum ScriptEnd {
    /// All lines are done, and then all queues got quiet.
    Done,
    /// A limit is reached, by a line or by a loop: of a partition's events, subscriptions, rules or rises, or of a
    /// history. The line that met it may be done in part.
    Limit,
    /// A loop has made as many rounds as it may, and not all queues were quiet.
    RoundLimit,
    /// The queues were looked at as often as they may be, and in each look not all were quiet.
    NotQuiet,
    /// The cluster's silos don't change any more, or it is parked. Nothing was done.
    Halted,
}

/// What came of a script.
#[derive(Debug, Drop)]
pub struct ScriptRun {
    /// What the lines that are done print, in their order.
    pub printed: Vec<ScriptLine>,
    /// How the script has ended.
    pub end: ScriptEnd,
}

/// Does the lines of a script in order, as a producer with this caller, and waits until all queues are quiet.
///
/// # Errors
/// A call or a loop failed to allocate, or a thread can't be made. The lines before were done.
pub fn run_script<
    G: Gate + 'static,
    H: QueueHistory + Send + 'static,
    D: DirectoryHistory + Send + 'static,
    R: Threads + Wait + Copy + Send + 'static,
>(
    rt: &R,
    alloc: Global,
    cluster: &mut Cluster<G, H, D>,
    caller: &mut Caller<G, H>,
    lines: Vec<Line>,
) -> Result<ScriptRun, AllocError>
    requires some { 1 ≤ length caller.old }
    requires script { IsScript (length caller.old) lines.items }
    ensures script { IfOk result (λ ran. AnswersScript lines.items cluster.old caller.old ran cluster.new caller.new) }
    ensures on { AllZip HasGoneOn caller.old caller.new }
    ensures turnstiles { turnstiles caller.new ≡ turnstiles caller.old }
    ensures cluster { OperatorGoesOn cluster.old.operator cluster.new.operator }
{
    let mut printed = Vec::new(alloc);
    if cluster.is_fixed() {
        return Ok(ScriptRun {
            printed,
            end: ScriptEnd::Halted,
        });
    }
    let end = match do_lines(rt, alloc, cluster, caller, lines, &mut printed) {
        Ok(()) => ScriptEnd::Done,
        Err(Stop::Limit) => ScriptEnd::Limit,
        Err(Stop::NotQuiet) => ScriptEnd::NotQuiet,
        Err(Stop::RoundLimit) => ScriptEnd::RoundLimit,
        Err(Stop::Memory) => return Err(AllocError),
    };
    Ok(ScriptRun { printed, end })
}

// Does the lines, and then waits until all queues are quiet.
fn do_lines<
    G: Gate + 'static,
    H: QueueHistory + Send + 'static,
    D: DirectoryHistory + Send + 'static,
    R: Threads + Wait + Copy + Send + 'static,
>(
    rt: &R,
    alloc: Global,
    cluster: &mut Cluster<G, H, D>,
    caller: &mut Caller<G, H>,
    lines: Vec<Line>,
    printed: &mut Vec<ScriptLine>,
) -> Result<(), Stop>
    requires some { 1 ≤ length caller.old }
    requires script { IsScript (length caller.old) lines.items }
    requires free { is_fixed cluster.old ≡ false }
    requires none { printed.old.items ≡ [] }
    ensures { EndsLines lines.items cluster.old caller.old result printed.new.items cluster.new caller.new }
{
    for line in lines {
        let Line { number, command } = line;
        let answer = do_line(rt, alloc, cluster, caller, command)?;
        note(printed, answer, number)?;
    }
    wait_until_quiet(rt, alloc, caller, cluster.looks())
}

// Adds what a line prints that was answered so.
fn note(printed: &mut Vec<ScriptLine>, answer: Answer, line: usize) -> Result<(), Stop>
    ensures noted { OnOk result (printed.new.items ≡ printed.old.items ++ printed_lines answer line) }
    ensures same { OnErr result (printed.new.items ≡ printed.old.items) }
    ensures memory { IfErr result (λ why. why ≡ Stop.Memory) }
{
    let line = match answer {
        Answer::Missed => ScriptLine::Miss { line },
        Answer::Refused => ScriptLine::Refused { line },
        Answer::Taken | Answer::Limit => return Ok(()),
    };
    match printed.push(line) {
        Ok(()) => Ok(()),
        Err(_) => Err(Stop::Memory),
    }
}
