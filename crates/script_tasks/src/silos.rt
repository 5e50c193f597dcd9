//! A script that is run on silos.
ghost use Rattle.std.specs.Prelude.{◌≡◌, ◌-◌, ◌^◌, ◌<◌, false, suc, IfOk, IfSome, if◌then◌else◌};
ghost use Rattle.turnstile.specs.Asked.{asked_entries};
ghost use Rattle.silo_threads.specs.Clusters.{IsConfig};
ghost use Rattle.script_runs.specs.Runs.{AreLegal, LeavesLegalTraces};
ghost use Rattle.script_tasks.specs.Printing.{IsLegalAt, PrintsRun, PrintsTrace, RunsSource, WritesText, WritesTraces, ended, is_unread, seen, text_left, traces_text};

use crate::fault::ProgramFault;
use crate::shown::Shown;
use crate::summary::{Detail, printed};
use activation_directory::{DirectoryOp, DirectoryReply};
use script_runs::{Ran, RunEnd, Script, queue_trace, read_lines, run, run_text};
use shared_partition::{Counting, Gate, QueueHistory};
use silo_threads::{Config, Traces};
use std::alloc::Global;
use std::io::Write;
use std::sync::{Arc, Wait};
use std::thread::Threads;
use step_core::{Answer, Partition};
use stream_model::Op;
use stream_script::{SimError, Source, read_script};
use turnstile::{AskedHistory, ProofHistory};

/// Runs a script on silos, and writes what the run prints, whole or without the lines of events. All of the script is read
/// before a thread is started, and no thread is left when the text is written.
///
/// # Errors
/// The first of these: a read failed, the script is too long, a line is faulty, the run failed to allocate, a write
/// failed, the run has no report.
pub fn run_on_silos<T: Threads + Wait + Copy + Send + 'static, R: Source, W: Write>(
    rt: &T,
    alloc: Global,
    config: &Config,
    detail: Detail,
    source: &mut R,
    sink: &mut W,
) -> Result<(), ProgramFault>
    requires config { IsConfig config.now }
    requires count { R.failures source.old < 2 ^ 64 - 1 }
    // What was written, where the source's bytes are known.
    ensures written { IfSome (R.remaining source.old) (λ input.
        PrintsRun config.now detail input (W.contents sink.old) (W.contents sink.new) result) }
    // A read fault comes only where the source counted a failed call.
    ensures counted { R.failures source.new ≡ (if is_unread result then suc (R.failures source.old) else R.failures source.old) }
{
    let gate = Arc::new(alloc, Counting)?;
    run_with_gate(rt, alloc, config, gate, detail, source, sink)
}

/// Runs a script as [`run_on_silos`] does, with a gate that handles the events.
pub(crate) fn run_with_gate<
    G: Gate + 'static,
    T: Threads + Wait + Copy + Send + 'static,
    R: Source,
    W: Write,
>(
    rt: &T,
    alloc: Global,
    config: &Config,
    gate: Arc<G, Global>,
    detail: Detail,
    source: &mut R,
    sink: &mut W,
) -> Result<(), ProgramFault>
    requires config { IsConfig config.now }
    requires count { R.failures source.old < 2 ^ 64 - 1 }
    ensures written { IfSome (R.remaining source.old) (λ input.
        PrintsRun config.now detail input (W.contents sink.old) (W.contents sink.new) result) }
    ensures counted { R.failures source.new ≡ (if is_unread result then suc (R.failures source.old) else R.failures source.old) }
{
    let ran = run_source::<G, ProofHistory<Op, Answer>, T, R>(rt, alloc, config, gate, source)?;
    let text = printed(alloc, detail, run_text(alloc, &ran)?)?;
    write_text(&text, sink)?;
    ended(&ran.end)
}

/// Runs a script on silos, and writes what was done at each queue that is shown as a script that can be simulated, queue by
/// queue. The rest is as for [`run_on_silos`]. A run without a report is written too, as far as it went.
///
/// # Errors
/// They are those of [`run_on_silos`].
pub fn trace_on_silos<T: Threads + Wait + Copy + Send + 'static, R: Source, W: Write>(
    rt: &T,
    alloc: Global,
    config: &Config,
    shown: Shown,
    source: &mut R,
    sink: &mut W,
) -> Result<(), ProgramFault>
    requires config { IsConfig config.now }
    requires count { R.failures source.old < 2 ^ 64 - 1 }
    // What was written, where the source's bytes are known.
    ensures written { IfSome (R.remaining source.old) (λ input.
        PrintsTrace config.now shown input (W.contents sink.old) (W.contents sink.new) result) }
    // A read fault comes only where the source counted a failed call.
    ensures counted { R.failures source.new ≡ (if is_unread result then suc (R.failures source.old) else R.failures source.old) }
{
    let gate = Arc::new(alloc, Counting)?;
    let ran = run_source::<Counting, AskedHistory<Op, Answer>, T, R>(
        rt, alloc, config, gate, source,
    )?;
    write_left(alloc, config, shown, &ran.end, sink)?;
    ended(&ran.end)
}

/// Reads a script and runs it on silos, with a gate that handles the events.
fn run_source<
    G: Gate + 'static,
    H: QueueHistory + Send + 'static,
    T: Threads + Wait + Copy + Send + 'static,
    R: Source,
>(
    rt: &T,
    alloc: Global,
    config: &Config,
    gate: Arc<G, Global>,
    source: &mut R,
) -> Result<Ran<H>, ProgramFault>
    requires config { IsConfig config.now }
    requires count { R.failures source.old < 2 ^ 64 - 1 }
    ensures source { IfSome (R.remaining source.old) (λ input. RunsSource H.entries config.now input result) }
    ensures legal { IfOk result (λ ran. LeavesLegalTraces H.entries config.now ran.end) }
    ensures counted { R.failures source.new ≡ (if is_unread result then suc (R.failures source.old) else R.failures source.old) }
{
    let script = read_script(alloc, source)?;
    let lines = match read_lines(alloc, &script, config.queues)? {
        Script::Lines(lines) => lines,
        Script::Fault(fault) => return Err(ProgramFault::Script(SimError::ScriptFault(fault))),
    };
    Ok(run::<G, H, ProofHistory<DirectoryOp, DirectoryReply>, T>(rt, alloc, config, gate, lines)?)
}

/// How the program ends behind a run.
fn ended<H>(end: &RunEnd<H>) -> Result<(), ProgramFault>
    ensures exact { result ≡ ended end.now }
    ensures read { is_unread result ≡ false }
{
    match end {
        RunEnd::Report { .. } => Ok(()),
        RunEnd::Unfinished { why, .. } => Err(ProgramFault::Unfinished(*why)),
    }
}

/// Writes the histories that a run has left, if all passes came back.
fn write_left<W: Write>(
    alloc: Global,
    config: &Config,
    shown: Shown,
    end: &RunEnd<AskedHistory<Op, Answer>>,
    sink: &mut W,
) -> Result<(), SimError>
    requires config { IsConfig config.now }
    requires legal { LeavesLegalTraces asked_entries config.now end.now }
    ensures { WritesTraces (W.contents sink.old) (W.contents sink.new) (text_left shown end.now) result }
{
    match end {
        RunEnd::Report { traces, .. }
        | RunEnd::Unfinished {
            traces: Some(traces),
            ..
        } => write_traces(alloc, config, shown, traces, sink),
        RunEnd::Unfinished { traces: None, .. } => Ok(()),
    }
}

/// Writes the histories of all queues that are shown, one behind another.
fn write_traces<W: Write>(
    alloc: Global,
    config: &Config,
    shown: Shown,
    traces: &Traces<AskedHistory<Op, Answer>>,
    sink: &mut W,
) -> Result<(), SimError>
    requires config { IsConfig config.now }
    requires legal { AreLegal asked_entries config.now traces.now }
    ensures { WritesTraces (W.contents sink.old) (W.contents sink.new) (traces_text shown traces.now) result }
{
    for queue in 0..traces.histories.len() {
        write_seen(alloc, config, shown, queue, &traces.histories[queue], sink)?;
    }
    Ok(())
}

/// Writes the history of a queue, where it is shown.
fn write_seen<W: Write>(
    alloc: Global,
    config: &Config,
    shown: Shown,
    queue: usize,
    history: &AskedHistory<Op, Answer>,
    sink: &mut W,
) -> Result<(), SimError>
    requires config { IsConfig config.now }
    requires legal { IsLegalAt config.now (asked_entries history.now) }
    ensures { WritesTraces (W.contents sink.old) (W.contents sink.new) (seen shown queue (asked_entries history.now)) result }
{
    if !shown.sees(queue) {
        return Ok(());
    }
    let mut partition = Partition::new(alloc, config.blocks, config.limits)?;
    let text = queue_trace(alloc, shown.calls, queue, &mut partition, history)?;
    write_text(&text, sink)?;
    Ok(())
}

/// Writes a text, and hands it on.
pub(crate) fn write_text<W: Write>(text: &[u8], sink: &mut W) -> Result<(), SimError>
    ensures { WritesText (W.contents sink.old) (W.contents sink.new) text.now result }
{
    if let Err(_) = sink.write_all(text) {
        return Err(SimError::WriteFault);
    }
    match sink.flush() {
        Ok(()) => Ok(()),
        Err(_) => Err(SimError::WriteFault),
    }
}
