//! The report: what each subscription has handled.
ghost use Rattle.std.specs.Prelude.{◌≡◌, ◌<◌, ◌++◌, length, OnOk, OnErr};
ghost use Rattle.std.specs.List.{AllByRecursion, flat_map};
ghost use Rattle.stream_ident.specs.Event.{events_at};
ghost use Rattle.stream_script.specs.Report.{queue_report, report_of, summary_text, binding_text, open_text, closed_text, handled_line};
ghost use Rattle.stream_script.specs.Spelling.{sub_text};
ghost use Rattle.stream_script.specs.Writing.{Writes};

use crate::printer::parts::{
    push_count, push_grain, push_named, push_pair, push_placed, push_quoted, push_text,
};
use std::alloc::{AllocError, Global};
use step_core::{Partition, SubSummary};
use stream_ident::{Event, SubName};

/// Appends the report: the line `report`, and then for each queue in order and each of its subscriptions
/// that has a record, in the order of their names, its line and those of the events that it has handled.
///
/// # Errors
/// The call failed to allocate, and nothing of the text stays.
#[inline(never)]
pub fn report_text(
    _alloc: Global,
    partitions: &[Partition],
    text: &mut Vec<u8>,
) -> Result<(), AllocError>
    ensures ok { OnOk result (text.new.items ≡ text.old.items ++ report_of partitions.now) }
    ensures err { OnErr result (text.new.items ≡ text.old.items) }
{
    let start = text.len();
    let written = push_report(partitions, text);
    if written.is_err() {
        text.truncate(start);
    }
    written
}

/// Appends the report, or a front of it where memory runs out.
fn push_report(partitions: &[Partition], out: &mut Vec<u8>) -> Result<(), AllocError>
    ensures { Writes out.old.items out.new.items result (report_of partitions.now) }
{
    push_text(b"report\n", out)?;
    for queue in 0..partitions.len() {
        push_queue(queue, &partitions[queue], out)?;
    }
    Ok(())
}

/// Appends the lines of a queue.
fn push_queue(queue: usize, partition: &Partition, out: &mut Vec<u8>) -> Result<(), AllocError>
    ensures { Writes out.old.items out.new.items result (queue_report queue partition.now) }
{
    for place in 0..partition.sub_count() {
        push_sub(queue, partition, &partition.sub_at(place), out)?;
    }
    Ok(())
}

#[inline(never)]
fn push_sub(
    queue: usize,
    partition: &Partition,
    sub: &SubSummary,
    out: &mut Vec<u8>,
) -> Result<(), AllocError>
    ensures { Writes out.old.items out.new.items result (summary_text queue partition.now sub.now) }
{
    if !sub.is_open {
        return push_closed(queue, &sub.name, out);
    }
    let positions = partition.handled_positions(&sub.name);
    push_open(queue, sub, partition, positions, out)
}

/// Appends the line of a subscription that was unsubscribed.
fn push_closed(queue: usize, name: &SubName, out: &mut Vec<u8>) -> Result<(), AllocError>
    ensures { Writes out.old.items out.new.items result (closed_text queue name.now) }
{
    push_sub_name(queue, name, out)?;
    push_text(b" closed\n", out)
}

/// Appends the name of a subscription with its queue.
fn push_sub_name(queue: usize, name: &SubName, out: &mut Vec<u8>) -> Result<(), AllocError>
    ensures { Writes out.old.items out.new.items result (sub_text queue name.now) }
{
    push_count(b"", queue as u64, out)?;
    push_named(b":", name, out)
}

/// Appends the line of an open subscription, and what it has handled.
fn push_open(
    queue: usize,
    sub: &SubSummary,
    partition: &Partition,
    positions: &[usize],
    out: &mut Vec<u8>,
) -> Result<(), AllocError>
    requires { AllByRecursion (λ position. position < length partition.now.log) positions.now }
    ensures { Writes out.old.items out.new.items result (open_text queue sub.now (events_at partition.now.log positions.now)) }
{
    push_binding(queue, sub, out)?;
    push_count(b" ", positions.len() as u64, out)?;
    push_text(b"\n", out)?;
    push_handled_lines(positions, partition, out)
}

/// Appends a subscription, its stream, its grain and its start.
fn push_binding(queue: usize, sub: &SubSummary, out: &mut Vec<u8>) -> Result<(), AllocError>
    ensures { Writes out.old.items out.new.items result (binding_text queue sub.now) }
{
    push_sub_name(queue, &sub.name, out)?;
    push_pair(b" ", &sub.stream.namespace, &sub.stream.key, out)?;
    push_grain(b" ", &sub.grain, out)?;
    push_placed(b" ", sub.start, out)
}

/// Appends the lines of the events at these positions, of which one at a time is read from the log.
#[inline(never)]
fn push_handled_lines(
    positions: &[usize],
    partition: &Partition,
    out: &mut Vec<u8>,
) -> Result<(), AllocError>
    requires { AllByRecursion (λ position. position < length partition.now.log) positions.now }
    ensures { Writes out.old.items out.new.items result (flat_map handled_line (events_at partition.now.log positions.now)) }
{
    for position in positions {
        push_handled_line(&partition.event_at(*position), out)?;
    }
    Ok(())
}

/// Appends the line of an event that was handled.
fn push_handled_line(event: &Event, out: &mut Vec<u8>) -> Result<(), AllocError>
    ensures { Writes out.old.items out.new.items result (handled_line event.now) }
{
    push_placed(b"  ", event.token, out)?;
    push_quoted(&event.payload, out)?;
    out.extend_from_slice(b"\n")
}
