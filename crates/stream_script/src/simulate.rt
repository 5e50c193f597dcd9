//! The simulator: a script done line by line, on one thread, with a partition for each queue.
//!
//! What has a partition, a command or an event as a value isn't inlined, so that its room is no part of the frames below
//! which lines are done.
ghost use Rattle.std.specs.Prelude.{◌≡◌, ◌+◌, ◌^◌, ◌<◌, ◌≤◌, ◌-◌, [], suc, length, map, vec_len, false, Ok, Err, IfOk, IfSome, OnOk, replicate, if◌then◌else◌};
ghost use Rattle.std.specs.Io.KnownBytes.{IsAtEnd, Keeps};
ghost use Rattle.std.specs.List.{AllByRecursion};
ghost use Rattle.stream_ident.specs.Alphabet.{IsPayload};
ghost use Rattle.stream_model.specs.Positions.{empty};
ghost use Rattle.stream_script.specs.Forms.{op_of};
ghost use Rattle.stream_script.specs.Simulation.{IsSimConfig, Simulates, SimulatesSome, RunsLines, Finishes, ReadsScript, ReadsSome, simulation, run_script, is_read_fault, is_write_fault, behind, step_on, drain_on, one_done, each_done, run_line, RunsLine};

use crate::parser::{
    Command, EachOp, Fault, FaultKind, Lines, Mode, Publish, read_line, read_publish,
};
use crate::printer::{appended_line, drain_line, outcome_line, report_text};
use crate::source_sink::{Failed, Sink, Source, write_all};
use std::alloc::{AllocError, Global};
use step_core::Partition;
use stream_model::{Limits, Op};
use thiserror::Error;

/// The most bytes of a script.
const MAX_LEN: usize = 4_194_304;

/// How many bytes are read at once.
const CHUNK_LEN: usize = 65_536;

/// What a simulation has.
#[derive(Clone, Copy, Debug, PartialEq, Eq)]
pub struct SimConfig {
    /// How many queues, 1 to 64. Each has a partition of its own.
    pub queues: usize,
    /// The blocks of each partition's cache, 1 to 64.
    pub blocks: usize,
    /// The limits of each partition.
    pub limits: Limits,
}

/// Why a simulation ended early.
#[derive(Clone, Copy, Debug, PartialEq, Eq, Error)]
pub enum SimError {
    /// A read failed. Nothing was written.
    #[error("read fault")]
    ReadFault,
    /// A write failed. A front of the text was written.
    #[error("write fault")]
    WriteFault,
    /// A line is faulty, and it is the first one. The text of the lines before it was written.
    #[error("{0}")]
    ScriptFault(Fault),
    /// Memory ran out. A front of the text was written.
    #[error("out of memory")]
    Memory,
}

impl From<AllocError> for SimError {
    ghost use Rattle.stream_script.specs.declared.simulate.SimError.TheVariants.{Memory};

    ghost from_gives = { λ _ e. e ≡ Memory };

    fn from(_error: AllocError) -> SimError {
        SimError::Memory
    }
}

/// Does a script line by line, each queue on a partition of its own, and writes the line of each reply
/// before it does the next line.
///
/// The script is read as a whole first, up to 4,194,304 bytes.
///
/// # Errors
/// The first of these: a read failed, the script is too long, a line is faulty, a write failed, or the call
/// failed to allocate.
pub fn sim<R: Source, W: Sink>(
    alloc: Global,
    config: SimConfig,
    source: &mut R,
    sink: &mut W,
) -> Result<(), SimError>
    requires config { IsSimConfig config }
    requires source_count { R.failures source.old < 2 ^ 64 - 1 }
    requires sink_count { W.failures sink.old < 2 ^ 64 - 1 }
    // What was written, where the source's bytes are known.
    ensures written { IfSome (R.remaining source.old) (λ input.
        Simulates (W.contents sink.old) (W.contents sink.new) (simulation config input) result) }
    // What was written is the simulation of some input, whatever is known of the source's bytes.
    ensures of_some_input { SimulatesSome (W.contents sink.old) (W.contents sink.new) config result }
    // After Ok all was read.
    ensures read { OnOk result (IsAtEnd (R.remaining source.new)) }
    // A read fault comes only where the source counted a failed call, and a write fault only where the sink did.
    ensures source_failures { R.failures source.new ≡ (if is_read_fault result then suc (R.failures source.old) else R.failures source.old) }
    ensures sink_failures { W.failures sink.new ≡ (if is_write_fault result then suc (W.failures sink.old) else W.failures sink.old) }
{
    match read_script(alloc, source) {
        Ok(script) => run_script(alloc, config, &script, sink),
        Err(SimError::ScriptFault(fault)) => finish(Some(fault), sink),
        Err(error) => Err(error),
    }
}

/// Reads a script to its end.
///
/// # Errors
/// A read failed (`ReadFault`), the script has more than 4,194,304 bytes (a `ScriptFault` at line 0), or the call
/// failed to allocate (`Memory`).
pub fn read_script<R: Source>(alloc: Global, source: &mut R) -> Result<Vec<u8>, SimError>
    requires { R.failures source.old < 2 ^ 64 - 1 }
    ensures script { ReadsScript (R.remaining source.old) (R.remaining source.new) result }
    ensures counted { R.failures source.new ≡ (if is_read_fault result then suc (R.failures source.old) else R.failures source.old) }
{
    let mut script = Vec::new(alloc);
    let mut buffer = zeros(alloc, CHUNK_LEN)?;
    while script.len() <= MAX_LEN {
        let room = CHUNK_LEN.min(MAX_LEN + 1 - script.len());
        if read_some(source, &mut buffer[..room], &mut script)? == 0 {
            return Ok(script);
        }
    }
    Err(SimError::ScriptFault(Fault {
        line: 0,
        kind: FaultKind::TooLong,
    }))
}

fn zeros(alloc: Global, len: usize) -> Result<Vec<u8>, AllocError>
    ensures { IfOk result (λ v. vec_len v ≡ len) }
{
    vec![in alloc; 0; len]
}

/// Reads some bytes of a script, and gives their number: 0 only at the end.
fn read_some<R: Source>(
    source: &mut R,
    buffer: &mut [u8],
    script: &mut Vec<u8>,
) -> Result<usize, SimError>
    requires some { 0 < length buffer.old }
    requires count { R.failures source.old < 2 ^ 64 - 1 }
    ensures read { ReadsSome (R.remaining source.old) (R.remaining source.new) script.old.items script.new.items (length buffer.new) result }
    ensures counted { R.failures source.new ≡ (if is_read_fault result then suc (R.failures source.old) else R.failures source.old) }
{
    match source.read(buffer) {
        Ok(count) => {
            script.extend_from_slice(&buffer[..count])?;
            Ok(count)
        }
        Err(Failed) => Err(SimError::ReadFault),
    }
}

/// Does a script that was read.
fn run_script<W: Sink>(
    alloc: Global,
    config: SimConfig,
    script: &[u8],
    sink: &mut W,
) -> Result<(), SimError>
    requires config { IsSimConfig config }
    requires short { length script.now ≤ 4194304 }
    requires count { W.failures sink.old < 2 ^ 64 - 1 }
    ensures written { Simulates (W.contents sink.old) (W.contents sink.new) (run_script config script.now) result }
    ensures read { is_read_fault result ≡ false }
    ensures counted { W.failures sink.new ≡ (if is_write_fault result then suc (W.failures sink.old) else W.failures sink.old) }
{
    let fault = run_lines(alloc, config, script, sink)?;
    finish(fault, sink)
}

/// Does the lines of a script up to its end or its first fault.
fn run_lines<W: Sink>(
    alloc: Global,
    config: SimConfig,
    script: &[u8],
    sink: &mut W,
) -> Result<Option<Fault>, SimError>
    requires config { IsSimConfig config }
    requires short { length script.now ≤ 4194304 }
    requires count { W.failures sink.old < 2 ^ 64 - 1 }
    ensures written { RunsLines (W.contents sink.old) (W.contents sink.new) (run_script config script.now) result }
    ensures counted { W.failures sink.new ≡ (if is_write_fault result then suc (W.failures sink.old) else W.failures sink.old) }
{
    let mut simulator = Simulator::new(alloc, config)?;
    let mut lines = Lines::of(script);
    let mut payloads = Vec::new(alloc);
    let mut text = Vec::new(alloc);
    let mut number = 1;
    while let Some(line) = lines.next_line() {
        if let Some(fault) = simulator.run_line(alloc, line, number, &mut payloads, &mut text)? {
            return Ok(Some(fault));
        }
        if let Err(Failed) = write_all(sink, &text) {
            return Err(SimError::WriteFault);
        }
        number += 1;
    }
    Ok(None)
}

/// Ends a simulation: all that was written is handed on.
fn finish<W: Sink>(fault: Option<Fault>, sink: &mut W) -> Result<(), SimError>
    requires { W.failures sink.old < 2 ^ 64 - 1 }
    ensures kept { Keeps (W.contents sink.old) (W.contents sink.new) }
    ensures outcome { Finishes fault result }
    ensures read { is_read_fault result ≡ false }
    ensures counted { W.failures sink.new ≡ (if is_write_fault result then suc (W.failures sink.old) else W.failures sink.old) }
{
    if let Err(Failed) = sink.flush() {
        return Err(SimError::WriteFault);
    }
    match fault {
        None => Ok(()),
        Some(fault) => Err(SimError::ScriptFault(fault)),
    }
}

/// A partition for each queue.
#[derive(Drop)]
struct Simulator {
    config: SimConfig,
    partitions: Vec<Partition>,
    ghost one_each: { vec_len partitions ≡ config.queues },
    ghost some: { 1 ≤ config.queues },
}

impl Simulator {
    /// New partitions.
    #[inline(never)]
    pub fn new(alloc: Global, config: SimConfig) -> Result<Simulator, AllocError>
        requires { IsSimConfig config }
        ensures config { IfOk result (λ s. s.config ≡ config) }
        ensures partitions { IfOk result (λ s. s.partitions.items ≡ replicate config.queues (empty config.blocks config.limits)) }
    {
        let mut partitions = Vec::new(alloc);
        for _ in 0..config.queues {
            partitions.push(Partition::new(alloc, config.blocks, config.limits)?)?;
        }
        Ok(Simulator { config, partitions })
    }

    /// Does a line and leaves its text, or gives its fault. The texts of a line that publishes go from the line to the
    /// log, through `payloads`, which keeps its room for the next line.
    pub fn run_line<'a>(
        &mut self,
        alloc: Global,
        line: &'a [u8],
        number: usize,
        payloads: &mut Vec<&'a [u8]>,
        text: &mut Vec<u8>,
    ) -> Result<Option<Fault>, AllocError>
        ensures config { self.new.config ≡ self.old.config }
        ensures ran { RunsLine (run_line self.old.config number self.old.partitions.items line.now)
            (self.new.partitions.items, text.new.items) result }
    {
        text.clear();
        match &read_publish(line, self.config.queues, payloads)? {
            Some(publish) => {
                self.publish(alloc, publish, payloads, text)?;
                Ok(None)
            }
            None => self.run_command(alloc, line, number, text),
        }
    }

    /// Does what a line is read as and leaves its text, or gives its fault.
    #[inline(never)]
    fn run_command(
        &mut self,
        alloc: Global,
        line: &[u8],
        number: usize,
        text: &mut Vec<u8>,
    ) -> Result<Option<Fault>, AllocError>
        requires { text.old.items ≡ [] }
        ensures config { self.new.config ≡ self.old.config }
        ensures ran { RunsLine (run_line self.old.config number self.old.partitions.items line.now)
            (self.new.partitions.items, text.new.items) result }
    {
        let mut command = Command::Drain;
        let queues = self.config.queues;
        match read_line(alloc, line, number, queues, Mode::Sim, &mut command)? {
            Ok(false) => Ok(None),
            Err(fault) => Ok(Some(fault)),
            Ok(true) => match &command {
                Command::Step { queue, op } => {
                    self.step(alloc, *queue, op, text)?;
                    Ok(None)
                }
                Command::Each(each) => {
                    self.step_each(alloc, each, text)?;
                    Ok(None)
                }
                Command::Drain => {
                    self.drain_each(alloc, text)?;
                    Ok(None)
                }
                Command::Report => {
                    report_text(alloc, &self.partitions, text)?;
                    Ok(None)
                }
                // In a script that is simulated these are faults.
                Command::Up { .. } | Command::Down { .. } => Ok(None),
            },
        }
    }

    /// Does an operation on each queue, in order, and leaves the lines of their replies.
    #[inline(never)]
    fn step_each(
        &mut self,
        alloc: Global,
        each: &EachOp,
        text: &mut Vec<u8>,
    ) -> Result<(), AllocError>
        requires { text.old.items ≡ [] }
        ensures config { self.new.config ≡ self.old.config }
        ensures text { OnOk result ((self.new.partitions.items, text.new.items) ≡ each_done (step_on (op_of each.now)) 0 self.old.partitions.items) }
    {
        for queue in 0..self.config.queues {
            self.step(alloc, queue, &each.op(), text)?;
        }
        Ok(())
    }

    /// Does an operation and appends the line of its reply.
    #[inline(never)]
    fn step(
        &mut self,
        alloc: Global,
        queue: usize,
        op: &Op,
        text: &mut Vec<u8>,
    ) -> Result<(), AllocError>
        requires { queue < self.old.config.queues }
        ensures config { self.new.config ≡ self.old.config }
        ensures text { OnOk result ((self.new.partitions.items, text.new.items) ≡
            behind text.old.items (one_done (step_on op.now) self.old.config queue self.old.partitions.items)) }
    {
        let partition = &mut self.partitions[queue];
        match partition.advance(alloc, op) {
            Ok(ref outcome) => outcome_line(queue, outcome, partition, text),
            Err(error) => Err(error),
        }
    }

    /// Publishes a batch and appends the line of its reply.
    fn publish(
        &mut self,
        alloc: Global,
        publish: &Publish,
        payloads: &[&[u8]],
        text: &mut Vec<u8>,
    ) -> Result<(), AllocError>
        requires queue { publish.now.queue < self.old.config.queues }
        requires payloads { AllByRecursion IsPayload (map (λ payload. payload.now) payloads.now) }
        ensures config { self.new.config ≡ self.old.config }
        ensures text { OnOk result ((self.new.partitions.items, text.new.items) ≡
            behind text.old.items (one_done (step_on (Op.Publish publish.now.stream (map (λ payload. payload.now) payloads.now)))
            self.old.config publish.now.queue self.old.partitions.items)) }
    {
        let partition = &mut self.partitions[publish.queue];
        let appended = partition.publish(alloc, &publish.stream, payloads)?;
        appended_line(publish.queue, &appended, text)
    }

    /// Drains each queue, in order, and leaves the lines of how that ended.
    #[inline(never)]
    fn drain_each(&mut self, alloc: Global, text: &mut Vec<u8>) -> Result<(), AllocError>
        requires { text.old.items ≡ [] }
        ensures config { self.new.config ≡ self.old.config }
        ensures text { OnOk result ((self.new.partitions.items, text.new.items) ≡ each_done drain_on 0 self.old.partitions.items) }
    {
        for queue in 0..self.config.queues {
            self.drain(alloc, queue, text)?;
        }
        Ok(())
    }

    /// Drains a queue and appends the line of how that ended.
    fn drain(&mut self, alloc: Global, queue: usize, text: &mut Vec<u8>) -> Result<(), AllocError>
        requires { queue < self.old.config.queues }
        ensures config { self.new.config ≡ self.old.config }
        ensures text { OnOk result ((self.new.partitions.items, text.new.items) ≡
            behind text.old.items (one_done drain_on self.old.config queue self.old.partitions.items)) }
    {
        let end = self.partitions[queue].drain(alloc)?;
        drain_line(queue, &end, text)
    }
}
