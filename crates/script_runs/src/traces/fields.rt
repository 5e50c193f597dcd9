//! Groups of fields that stand side by side in the lines of operations.
#![tactic(auto, using(std::proofs::Common::append_assoc))]

ghost use Rattle.std.specs.Prelude.{◌++◌, [], ◌∷◌, codes};
ghost use Rattle.std.specs.Fmt.{decimal};
ghost use Rattle.stream_ident.specs.Token.{token_text};
ghost use Rattle.stream_script.specs.Pieces.{Word};
ghost use Rattle.stream_script.specs.Spelling.{stream_text, grain_text, sub_text};
ghost use Rattle.stream_script.specs.Writing.{Writes};
ghost use Rattle.script_runs.specs.OpLine.{joined};

use std::alloc::AllocError;
use stream_ident::{GrainId, Name, StreamId, SubName, Token};
use stream_script::parts::{
    push_count, push_grain, push_name, push_named, push_pair, push_placed, push_text,
};

/// Appends a text, and behind it two numbers.
pub(crate) fn push_two(
    before: &[u8],
    first: u64,
    second: u64,
    out: &mut Vec<u8>,
) -> Result<(), AllocError>
    ensures { Writes out.old.items out.new.items result (before.now ++ joined (Word (decimal first) ∷ Word (decimal second) ∷ [])) }
{
    push_count(before, first, out)?;
    push_count(b" ", second, out)
}

/// Appends a text, and behind it three numbers.
pub(crate) fn push_three(
    before: &[u8],
    first: u64,
    second: u64,
    third: u64,
    out: &mut Vec<u8>,
) -> Result<(), AllocError>
    ensures { Writes out.old.items out.new.items result
        (before.now ++ joined (Word (decimal first) ∷ Word (decimal second) ∷ Word (decimal third) ∷ [])) }
{
    push_count(before, first, out)?;
    push_two(b" ", second, third, out)
}

/// Appends a text, and behind it two names.
pub(crate) fn push_names(
    before: &[u8],
    first: &Name,
    second: &Name,
    out: &mut Vec<u8>,
) -> Result<(), AllocError>
    ensures { Writes out.old.items out.new.items result (before.now ++ joined (Word first.now ∷ Word second.now ∷ [])) }
{
    push_name(before, first, out)?;
    push_name(b" ", second, out)
}

/// Appends a text, and behind it a subscription with its queue.
pub(crate) fn push_sub(
    before: &[u8],
    queue: usize,
    sub: &SubName,
    out: &mut Vec<u8>,
) -> Result<(), AllocError>
    ensures { Writes out.old.items out.new.items result (before.now ++ sub_text queue sub.now) }
{
    push_count(before, queue as u64, out)?;
    push_named(b":", sub, out)
}

/// Appends a text, and behind it a number and a subscription with its queue.
pub(crate) fn push_count_sub(
    before: &[u8],
    count: u64,
    queue: usize,
    sub: &SubName,
    out: &mut Vec<u8>,
) -> Result<(), AllocError>
    ensures { Writes out.old.items out.new.items result
        (before.now ++ joined (Word (decimal count) ∷ Word (sub_text queue sub.now) ∷ [])) }
{
    push_count(before, count, out)?;
    push_sub(b" ", queue, sub, out)
}

/// Appends a text, and behind it a generation, a subscription and the token of an event.
pub(crate) fn push_ack(
    before: &[u8],
    generation: u64,
    queue: usize,
    sub: &SubName,
    token: Token,
    out: &mut Vec<u8>,
) -> Result<(), AllocError>
    ensures { Writes out.old.items out.new.items result
        (before.now ++ joined (Word (decimal generation) ∷ Word (sub_text queue sub.now) ∷ Word (token_text token) ∷ [])) }
{
    push_count_sub(before, generation, queue, sub, out)?;
    push_placed(b" ", token, out)
}

/// Appends a text, and behind it a queue and a grain.
pub(crate) fn push_queue_grain(
    before: &[u8],
    queue: usize,
    grain: &GrainId,
    out: &mut Vec<u8>,
) -> Result<(), AllocError>
    ensures { Writes out.old.items out.new.items result
        (before.now ++ joined (Word (decimal queue) ∷ Word (grain_text grain.now) ∷ [])) }
{
    push_count(before, queue as u64, out)?;
    push_grain(b" ", grain, out)
}

/// Appends a text, and behind it a queue, a grain and the most events of a turn.
pub(crate) fn push_begin(
    before: &[u8],
    queue: usize,
    grain: &GrainId,
    max: u64,
    out: &mut Vec<u8>,
) -> Result<(), AllocError>
    ensures { Writes out.old.items out.new.items result
        (before.now ++ joined (Word (decimal queue) ∷ Word (grain_text grain.now) ∷ Word (decimal max) ∷ [])) }
{
    push_queue_grain(before, queue, grain, out)?;
    push_count(b" ", max, out)
}

/// Appends a text, and behind it a queue, a grain, an activation of it, a turn and a note.
pub(crate) fn push_commit(
    before: &[u8],
    queue: usize,
    grain: &GrainId,
    activation: u64,
    turn: u64,
    note: u64,
    out: &mut Vec<u8>,
) -> Result<(), AllocError>
    ensures { Writes out.old.items out.new.items result
        (before.now ++ joined (Word (decimal queue) ∷ Word (grain_text grain.now) ∷ Word (decimal activation) ∷ Word (decimal turn)
        ∷ Word (decimal note) ∷ [])) }
{
    push_queue_grain(before, queue, grain, out)?;
    push_three(b" ", activation, turn, note, out)
}

/// Appends a text, and behind it a stream.
pub(crate) fn push_stream(
    before: &[u8],
    stream: &StreamId,
    out: &mut Vec<u8>,
) -> Result<(), AllocError>
    ensures { Writes out.old.items out.new.items result (before.now ++ stream_text stream.now) }
{
    push_pair(before, &stream.namespace, &stream.key, out)
}

/// Appends a text, and behind it a stream and a grain.
fn push_binding(
    before: &[u8],
    stream: &StreamId,
    grain: &GrainId,
    out: &mut Vec<u8>,
) -> Result<(), AllocError>
    ensures { Writes out.old.items out.new.items result
        (before.now ++ joined (Word (stream_text stream.now) ∷ Word (grain_text grain.now) ∷ [])) }
{
    push_stream(before, stream, out)?;
    push_grain(b" ", grain, out)
}

/// Appends a text, and behind it a stream, a grain and the word of a start with what is published from then on.
pub(crate) fn push_latest(
    before: &[u8],
    stream: &StreamId,
    grain: &GrainId,
    out: &mut Vec<u8>,
) -> Result<(), AllocError>
    ensures { Writes out.old.items out.new.items result
        (before.now ++ joined (Word (stream_text stream.now) ∷ Word (grain_text grain.now) ∷ Word (codes "latest") ∷ [])) }
{
    push_binding(before, stream, grain, out)?;
    push_text(b" latest", out)
}

/// Appends a text, and behind it a stream, a grain and the token of a start.
pub(crate) fn push_from(
    before: &[u8],
    stream: &StreamId,
    grain: &GrainId,
    token: Token,
    out: &mut Vec<u8>,
) -> Result<(), AllocError>
    ensures { Writes out.old.items out.new.items result
        (before.now ++ joined (Word (stream_text stream.now) ∷ Word (grain_text grain.now) ∷ Word (codes "from") ∷ Word (token_text token) ∷ [])) }
{
    push_binding(before, stream, grain, out)?;
    push_placed(b" from ", token, out)
}
