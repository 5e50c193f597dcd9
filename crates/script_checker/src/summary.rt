//! What stands in a script without a fault.
ghost use Rattle.std.specs.Prelude.{◌≡◌, ◌≤◌, ◌++◌, IfOk, OnErr, OnOk, Some, true};
ghost use Rattle.std.specs.String.{string_bytes};
ghost use Rattle.script_checker.specs.Summaries.{count_line, count_lines, count_of, empty, named, names_new, noted, own_queue, queue_in, stream_in, stream_line, stream_lines, stream_of_op, stream_of_sub, summary_text};

use crate::verb::{ALL, VERBS, Verb};
use indexmap::IndexMap;
use std::alloc::{AllocError, Global};
use std::marker::Model;
use stream_ident::{StreamId, SubName};
use stream_model::Op;
use stream_script::Command;

/// How many lines of each command a script has, and which queue each stream has that it names.
///
/// A contract sees it as the counts, in the order of the verbs' numbers, and the streams in the order in which they are
/// first named, each with its queue.
#[derive(Debug)]
pub struct Summary {
    queues: usize,
    counts: [u64; VERBS],
    streams: IndexMap<StreamId, usize>,
}

impl Drop for Summary {
    fn drop(self) {
        let Self {
            queues: _,
            counts: _,
            streams: _,
        } = self;
    }
}

impl Model for Summary {
    ghost use Rattle.std.specs.Prelude.{◌≤◌};
    ghost use Rattle.script_checker.specs.PlainSummary.{PlainSummary};

    ghost Value = { PlainSummary };

    ghost view = { λ s. record { queues = s.queues; counts = s.counts; streams = s.streams.entries } };

    ghost invariant = { λ s. 1 ≤ s.queues };
}

impl Summary {
    /// The summary of a script without a line, for this many queues. It takes no memory.
    pub fn new(alloc: Global, queues: usize) -> Summary
        requires { 1 ≤ queues }
        ensures { result ≡ empty queues }
    {
        Summary {
            queues,
            counts: [0; VERBS],
            streams: IndexMap::new(alloc),
        }
    }

    /// Adds a line. A count stops at 2^64 - 1.
    ///
    /// # Errors
    /// The call failed to allocate, and nothing has changed. That can happen only where the line names a stream that no
    /// line before it has named.
    pub fn note(&mut self, command: &Command) -> Result<(), AllocError>
        ensures ok { OnOk result (self.new ≡ noted self.old command.now) }
        ensures err { OnErr result (self.new ≡ self.old) }
        ensures memory { OnErr result (names_new self.old (stream_in command.now) ≡ true) }
    {
        if let Some(stream) = stream_in(command) {
            self.name(stream)?;
        }
        let number = Verb::of(command).number();
        self.counts[number] = self.counts[number].saturating_add(1);
        Ok(())
    }

    /// Adds a stream that a line names.
    fn name(&mut self, stream: StreamId) -> Result<(), AllocError>
        ensures ok { OnOk result (self.new ≡ named self.old (Some stream)) }
        ensures err { OnErr result (self.new ≡ self.old) }
        ensures memory { OnErr result (names_new self.old (Some stream) ≡ true) }
    {
        if self.streams.contains_key(&stream) {
            return Ok(());
        }
        let queue = own_queue(&stream, self.queues);
        self.streams.insert(stream, queue)?;
        Ok(())
    }

    /// How many lines have this verb.
    pub fn count(&self, verb: Verb) -> u64
        ensures { result ≡ count_of self.now verb }
    {
        self.counts[verb.number()]
    }

    /// The queue of a stream that a line names.
    pub fn queue_of(&self, stream: &StreamId) -> Option<usize>
        ensures { result ≡ queue_in self.now stream.now }
    {
        self.streams.get(stream).copied()
    }

    /// The text of the summary: for each verb that a line has a line `VERB COUNT`, in the order of `docs/SCRIPT.md`, and
    /// then for each stream that a line names a line `STREAM queue Q`, in the order in which they are first named.
    ///
    /// # Errors
    /// The call failed to allocate.
    pub fn text(&self, alloc: Global) -> Result<String, AllocError>
        ensures { IfOk result (λ text. string_bytes text ≡ summary_text self.now) }
    {
        let mut text = String::new(alloc);
        self.push_counts(&ALL, &mut text)?;
        push_streams(&self.streams, &mut text)?;
        Ok(text)
    }

    /// Appends the lines of verbs.
    fn push_counts(&self, verbs: &[Verb], text: &mut String) -> Result<(), AllocError>
        ensures { OnOk result (string_bytes text.new ≡ string_bytes text.old ++ count_lines self.now verbs.now) }
    {
        for verb in verbs {
            push_count(*verb, self.count(*verb), text)?;
        }
        Ok(())
    }
}

/// Appends the lines of streams.
fn push_streams(streams: &IndexMap<StreamId, usize>, text: &mut String) -> Result<(), AllocError>
    ensures { OnOk result (string_bytes text.new ≡ string_bytes text.old ++ stream_lines streams.now.entries) }
{
    for number in 0..streams.len() {
        let (stream, queue) = streams.get_index(number).unwrap();
        push_stream(stream, *queue, text)?;
    }
    Ok(())
}

/// Appends the line of a stream.
fn push_stream(stream: &StreamId, queue: usize, text: &mut String) -> Result<(), AllocError>
    ensures { OnOk result (string_bytes text.new ≡ string_bytes text.old ++ stream_line (stream.now, queue)) }
{
    write!(text, "{stream} queue {queue}\n")
}

/// The queue of a stream among this many.
#[tactic(auto, unfolding(crate::specs::Summaries::own_queue))]
fn own_queue(stream: &StreamId, queues: usize) -> usize
    requires { 1 ≤ queues }
    ensures { result ≡ own_queue stream.now queues }
{
    queue_mapper::queue(stream, queues)
}

/// Appends the line of a verb, where it is counted.
fn push_count(verb: Verb, count: u64, text: &mut String) -> Result<(), AllocError>
    ensures { OnOk result (string_bytes text.new ≡ string_bytes text.old ++ count_line verb count) }
{
    if count == 0 {
        return Ok(());
    }
    let word = verb.word();
    write!(text, "{word} {count}\n")
}

/// The stream that a command names: the one that is published or subscribed to, or the one of an implicit subscription.
fn stream_in(command: &Command) -> Option<StreamId>
    ensures { result ≡ stream_in command.now }
{
    match command {
        Command::Step { queue: _, op } => stream_of_op(op),
        _ => None,
    }
}

/// The stream that an operation names.
fn stream_of_op(op: &Op) -> Option<StreamId>
    ensures { result ≡ stream_of_op op.now }
{
    match op {
        Op::Publish { stream, .. } | Op::Subscribe { stream, .. } => Some(*stream),
        Op::Unsubscribe { sub }
        | Op::Deliver { sub, .. }
        | Op::Retry { sub, .. }
        | Op::Ack { sub, .. }
        | Op::Due { after: Some(sub) } => stream_of_sub(sub),
        _ => None,
    }
}

/// The stream of an implicit subscription.
fn stream_of_sub(sub: &SubName) -> Option<StreamId>
    ensures { result ≡ stream_of_sub sub.now }
{
    match sub {
        SubName::Explicit(_) => None,
        SubName::Implicit { kind: _, stream } => Some(*stream),
    }
}
