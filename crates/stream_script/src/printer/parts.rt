//! What the texts of replies and of the report are made of: numbers, tokens, names and payloads.
ghost use Rattle.std.specs.Prelude.{◌++◌, ◌∷◌};
ghost use Rattle.std.specs.Fmt.{decimal};
ghost use Rattle.stream_ident.specs.Token.{token_text};
ghost use Rattle.stream_script.specs.Pieces.{Text, spelling, escaped};
ghost use Rattle.stream_script.specs.Spelling.{stream_text, grain_text, name_text};
ghost use Rattle.stream_script.specs.Writing.{Writes};

use crate::parser::is_special;
use itoa::Buffer;
use std::alloc::AllocError;
use stream_ident::{GrainId, Name, Payload, StreamId, SubName, Token};

/// Appends a text.
///
/// # Errors
/// The call failed to allocate, and a front of what it appends may stay.
pub fn push_text(text: &[u8], out: &mut Vec<u8>) -> Result<(), AllocError>
    ensures { Writes out.old.items out.new.items result text.now }
{
    out.extend_from_slice(text)
}

/// Appends a text, and behind it a number in decimal.
///
/// # Errors
/// The call failed to allocate, and a front of what it appends may stay.
pub fn push_count(before: &[u8], count: u64, out: &mut Vec<u8>) -> Result<(), AllocError>
    ensures { Writes out.old.items out.new.items result (before.now ++ decimal count) }
{
    push_text(before, out)?;
    let mut digits = Buffer::new();
    push_text(digits.format(count).as_bytes(), out)
}

/// Appends a text, and behind it a token.
///
/// # Errors
/// The call failed to allocate, and a front of what it appends may stay.
pub fn push_placed(before: &[u8], token: Token, out: &mut Vec<u8>) -> Result<(), AllocError>
    ensures { Writes out.old.items out.new.items result (before.now ++ token_text token) }
{
    push_count(before, token.seq, out)?;
    push_count(b".", u64::from(token.idx), out)
}

/// Appends a text, and behind it a name.
///
/// # Errors
/// The call failed to allocate, and a front of what it appends may stay.
pub fn push_name(before: &[u8], name: &Name, out: &mut Vec<u8>) -> Result<(), AllocError>
    ensures { Writes out.old.items out.new.items result (before.now ++ name.now) }
{
    push_text(before, out)?;
    push_text(name.as_bytes(), out)
}

/// Appends a text, and behind it two names joined by `/`.
///
/// # Errors
/// The call failed to allocate, and a front of what it appends may stay.
pub fn push_pair(
    before: &[u8],
    first: &Name,
    second: &Name,
    out: &mut Vec<u8>,
) -> Result<(), AllocError>
    ensures { Writes out.old.items out.new.items result (before.now ++ first.now ++ 47 ∷ second.now) }
{
    push_name(before, first, out)?;
    push_name(b"/", second, out)
}

/// Appends a text, and behind it a grain.
///
/// # Errors
/// The call failed to allocate, and a front of what it appends may stay.
pub fn push_grain(before: &[u8], grain: &GrainId, out: &mut Vec<u8>) -> Result<(), AllocError>
    ensures { Writes out.old.items out.new.items result (before.now ++ grain_text grain.now) }
{
    push_pair(before, &grain.kind, &grain.key, out)
}

/// Appends a text, and behind it the name of a subscription.
///
/// # Errors
/// The call failed to allocate, and a front of what it appends may stay.
pub fn push_named(before: &[u8], sub: &SubName, out: &mut Vec<u8>) -> Result<(), AllocError>
    ensures { Writes out.old.items out.new.items result (before.now ++ name_text sub.now) }
{
    match sub {
        SubName::Explicit(number) => push_count(before, u64::from(*number), out),
        SubName::Implicit { kind, stream } => push_implicit(before, kind, stream, out),
    }
}

/// Appends a text, and behind it the name of an implicit subscription.
fn push_implicit(
    before: &[u8],
    kind: &Name,
    stream: &StreamId,
    out: &mut Vec<u8>,
) -> Result<(), AllocError>
    ensures { Writes out.old.items out.new.items result (before.now ++ kind.now ++ 64 ∷ stream_text stream.now) }
{
    push_name(before, kind, out)?;
    push_pair(b"@", &stream.namespace, &stream.key, out)
}

/// Appends a payload as it stands in a line: in quotes, behind a space.
///
/// # Errors
/// The call failed to allocate, and a front of what it appends may stay.
pub fn push_quoted(payload: &Payload, out: &mut Vec<u8>) -> Result<(), AllocError>
    ensures { Writes out.old.items out.new.items result (32 ∷ spelling (Text payload.now)) }
{
    push_text(b" \"", out)?;
    push_escaped(payload.as_bytes(), out)?;
    push_text(b"\"", out)
}

/// Appends bytes, with a backslash in front of each quote and each backslash.
fn push_escaped(bytes: &[u8], out: &mut Vec<u8>) -> Result<(), AllocError>
    ensures { Writes out.old.items out.new.items result (escaped bytes.now) }
{
    let mut from = 0;
    for (at, byte) in bytes.iter().enumerate() {
        if is_special(*byte) {
            push_text(&bytes[from..at], out)?;
            push_text(b"\\", out)?;
            from = at;
        }
    }
    push_text(&bytes[from..], out)
}
