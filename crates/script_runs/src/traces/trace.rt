//! The text of a history.
ghost use Rattle.std.specs.Prelude.{◌≡◌, ◌++◌, List, IfOk, OnOk};
ghost use Rattle.stream_ident.specs.declared.event.Event.{Event};
ghost use Rattle.step_core.specs.Replied.{reply_with, IsOfLog};
ghost use Rattle.turnstile.specs.Asked.{asked_entries};
ghost use Rattle.turnstile.specs.History.{IsLegal};
ghost use Rattle.shared_partition.specs.Partitions.{after, replied};
ghost use Rattle.script_runs.specs.Traces.{call_text, found_nothing, heading, shown_text, shows, trace_text};

use crate::traces::write::write_op;
use itoa::Buffer;
use std::alloc::{AllocError, Global};
use step_core::{Answer, Outcome, Partition};
use stream_model::{Op, Reply};
use stream_script::outcome_line;
use turnstile::AskedHistory;

/// Which calls of a history its trace shows.
#[derive(Clone, Copy, Debug, PartialEq, Eq)]
pub enum Calls {
    /// All calls.
    All,
    /// All but those that found nothing: a pull that was answered `Dry`, and a look that was answered `NoneReady`,
    /// `NoneDue` or `NotQuiet`. These leave a partition as it is, so that the others, done alone, get the same replies.
    Busy,
}

impl Calls {
    /// Whether a call is shown that came to this.
    fn show(self, op: &Op, outcome: &Outcome) -> bool
        ensures { (log : List Event) → result ≡ shows self op.now (reply_with log outcome.now) }
    {
        match self {
            Calls::All => true,
            Calls::Busy => !found_nothing(op, outcome),
        }
    }
}

/// Whether a call looked for something to do, and there was nothing, or asked whether all was quiet, and it wasn't yet.
fn found_nothing(op: &Op, outcome: &Outcome) -> bool
    ensures { (log : List Event) → result ≡ found_nothing op.now (reply_with log outcome.now) }
{
    match op {
        Op::Pull { .. } => matches!(outcome, Reply::Dry),
        Op::Ready { .. } => matches!(outcome, Reply::NoneReady),
        Op::Due { .. } => matches!(outcome, Reply::NoneDue),
        Op::Quiet => matches!(outcome, Reply::NotQuiet(_)),
        _ => false,
    }
}

/// The history of a queue as a script: a comment that names the queue, and then for each call that is shown its line, and
/// the line of its reply in a comment. The replies are made anew, by the same calls to a partition that is as the queue's was in the
/// beginning; they are those that the callers were given.
///
/// The script is to be simulated alone, with as many queues as there are, since `rule` and `quiet` act on all queues of
/// a simulation.
///
/// # Errors
/// The call failed to allocate, and the partition has done a part of the calls.
pub fn queue_trace(
    alloc: Global,
    calls: Calls,
    queue: usize,
    partition: &mut Partition,
    history: &AskedHistory<Op, Answer>,
) -> Result<Vec<u8>, AllocError>
    requires { IsLegal replied after partition.old (asked_entries history.now) }
    ensures { IfOk result (λ text. text.items ≡ trace_text calls queue (asked_entries history.now)) }
{
    let mut text = Vec::new(alloc);
    push_heading(queue, &mut text)?;
    for asked in history.as_slice() {
        let outcome = partition.advance(alloc, &asked.op)?;
        push_shown(calls, queue, &asked.op, &outcome, partition, &mut text)?;
    }
    Ok(text)
}

// The comment that names the queue.
fn push_heading(queue: usize, text: &mut Vec<u8>) -> Result<(), AllocError>
    ensures { OnOk result (text.new.items ≡ text.old.items ++ heading queue) }
{
    text.extend_from_slice(b"# queue ")?;
    text.extend_from_slice(Buffer::new().format(queue as u64).as_bytes())?;
    text.push(b'\n')?;
    Ok(())
}

// The lines of a call, where it is shown.
fn push_shown(
    calls: Calls,
    queue: usize,
    op: &Op,
    outcome: &Outcome,
    partition: &Partition,
    text: &mut Vec<u8>,
) -> Result<(), AllocError>
    requires { IsOfLog partition.now.log outcome.now }
    ensures { OnOk result (text.new.items ≡ text.old.items ++ shown_text calls queue op.now (reply_with partition.now.log outcome.now)) }
{
    if calls.show(op, outcome) {
        push_call(queue, op, outcome, partition, text)
    } else {
        Ok(())
    }
}

// The line of a call, and its reply in a comment.
fn push_call(
    queue: usize,
    op: &Op,
    outcome: &Outcome,
    partition: &Partition,
    text: &mut Vec<u8>,
) -> Result<(), AllocError>
    requires { IsOfLog partition.now.log outcome.now }
    ensures { OnOk result (text.new.items ≡ text.old.items ++ call_text queue op.now (reply_with partition.now.log outcome.now)) }
{
    write_op(queue, op, text)?;
    text.extend_from_slice(b"\n# ")?;
    outcome_line(queue, outcome, partition, text)
}
