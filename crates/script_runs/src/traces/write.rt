//! The line of each operation.
ghost use Rattle.std.specs.Prelude.{◌∷◌, map, codes};
ghost use Rattle.std.specs.List.{flat_map};
ghost use Rattle.stream_script.specs.Pieces.{Word, Text};
ghost use Rattle.stream_script.specs.Spelling.{stream_text};
ghost use Rattle.stream_script.specs.Writing.{Writes};
ghost use Rattle.script_runs.specs.OpLine.{joined, op_line, text_behind};

use crate::traces::fields::{
    push_ack, push_begin, push_commit, push_count_sub, push_from, push_latest, push_names,
    push_queue_grain, push_stream, push_sub, push_three, push_two,
};
use std::alloc::AllocError;
use stream_ident::{Payload, StreamId};
use stream_model::{Op, Start};
use stream_script::parts::{push_count, push_quoted, push_text};

/// Appends the line of an operation on a queue, without a line feed.
///
/// The line has the operation's fields in the order of the grammar, with one space between each two. The lines of
/// a publish and of a subscribe don't name the queue, since their stream tells it. Nor do those of a rule and of
/// the question whether all is quiet, which a script does on each queue.
///
/// # Errors
/// The call failed to allocate, and a front of the line may stay.
#[tactic(auto, unfolding(crate::specs::OpLine::op_pieces))]
pub fn write_op(queue: usize, op: &Op, out: &mut Vec<u8>) -> Result<(), AllocError>
    ensures { Writes out.old.items out.new.items result (op_line queue op.now) }
{
    match op {
        Op::Publish { stream, payloads } => push_publish(stream, payloads.as_slice(), out),
        Op::Subscribe {
            stream,
            grain,
            start: Start::Latest,
        } => push_latest(b"sub ", stream, grain, out),
        Op::Subscribe {
            stream,
            grain,
            start: Start::At(token),
        } => push_from(b"sub ", stream, grain, *token, out),
        Op::Unsubscribe { sub } => push_sub(b"unsub ", queue, sub, out),
        Op::AddRule { kind, namespace } => push_names(b"rule ", kind, namespace, out),
        Op::Pull { generation, max } => {
            push_three(b"pull ", queue as u64, *generation, u64::from(*max), out)
        }
        Op::Deliver { generation, sub } => push_count_sub(
            b"deliver ",
            *generation,
            queue,
            sub,
            out,
        ),
        Op::Retry { generation, sub } => push_count_sub(b"retry ", *generation, queue, sub, out),
        Op::Ack {
            generation,
            sub,
            token,
        } => push_ack(b"ack ", *generation, queue, sub, *token, out),
        Op::Purge { generation, keep } => {
            push_three(b"purge ", queue as u64, *generation, u64::from(*keep), out)
        }
        Op::Begin { grain, max } => push_begin(b"begin ", queue, grain, u64::from(*max), out),
        Op::Commit {
            grain,
            activation,
            turn,
            note,
        } => push_commit(b"commit ", queue, grain, *activation, *turn, *note, out),
        Op::Deactivate { grain } => push_queue_grain(b"deactivate ", queue, grain, out),
        Op::Move { silo } => push_two(b"move ", queue as u64, u64::from(*silo), out),
        Op::Ready { after: None } => push_count(b"ready ", queue as u64, out),
        Op::Ready { after: Some(grain) } => push_queue_grain(b"ready ", queue, grain, out),
        Op::Due { after: None } => push_count(b"due ", queue as u64, out),
        Op::Due { after: Some(sub) } => push_count_sub(b"due ", queue as u64, queue, sub, out),
        Op::Quiet => push_text(b"quiet", out),
    }
}

/// Appends the line of a publish.
fn push_publish(
    stream: &StreamId,
    payloads: &[Payload],
    out: &mut Vec<u8>,
) -> Result<(), AllocError>
    ensures { Writes out.old.items out.new.items result
        (joined (Word (codes "pub") ∷ Word (stream_text stream.now) ∷ map Text payloads.now)) }
{
    push_stream(b"pub ", stream, out)?;
    push_texts(payloads, out)
}

/// Appends payloads in quotes, each behind a space.
fn push_texts(payloads: &[Payload], out: &mut Vec<u8>) -> Result<(), AllocError>
    ensures { Writes out.old.items out.new.items result (flat_map text_behind payloads.now) }
{
    for payload in payloads {
        push_quoted(payload, out)?;
    }
    Ok(())
}
