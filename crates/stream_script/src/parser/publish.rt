//! Lines that publish, read without a copy of their texts.
ghost use Rattle.std.specs.Prelude.{◌≡◌, ◌<◌, ◌≤◌, true, map, IfOk, IfSome, Some};
ghost use Rattle.std.specs.List.{AllByRecursion};
ghost use Rattle.stream_ident.specs.Alphabet.{IsPayload};
ghost use Rattle.stream_script.specs.Lexer.{cut, Between, CutsOne};
ghost use Rattle.stream_script.specs.Pieces.{Word, Text};
ghost use Rattle.stream_script.specs.Publishing.{with_pub, IsPublish};

use crate::parser::fields;
use crate::parser::lines::{plain_text_at, word_at};
use crate::parser::parse::are_printable;
use std::alloc::AllocError;
use stream_ident::{PAYLOAD_BYTES, StreamId};

/// What a line publishes to. Its texts are slices of the line.
#[derive(Clone, Copy, Debug)]
pub struct Publish {
    /// The queue of the stream, below the number of queues.
    pub queue: usize,
    /// The stream.
    pub stream: StreamId,
}

/// A line `pub STREAM TEXT ..` none of whose texts has an escape: where it publishes to, and its texts, which are put
/// in the place of those that `texts` had. It copies no text, and takes memory only where `texts` has no room.
///
/// It gives `None` for each other line, and for one with a fault, and leaves any texts then:
/// [`parse_line`](crate::parse_line) says what those are.
///
/// # Errors
/// The call failed to allocate room for the slices.
#[inline(never)]
pub fn read_publish<'a>(
    bytes: &'a [u8],
    queues: usize,
    texts: &mut Vec<&'a [u8]>,
) -> Result<Option<Publish>, AllocError>
    requires { 1 ≤ queues }
    // The line reads as the publish of these texts, in each kind of script.
    ensures exact { IfOk result (λ found. IfSome found (λ publish. IsPublish queues bytes.now publish (map (λ text. text.now) texts.new.items))) }
    // It is of a queue that there is.
    ensures within { IfOk result (λ found. IfSome found (λ publish. publish.queue < queues)) }
    // Each text is a payload.
    ensures payloads { IfOk result (λ found. IfSome found (λ _. AllByRecursion IsPayload (map (λ text. text.now) texts.new.items))) }
{
    let Some((word, rest)) = stream_word(bytes) else {
        return Ok(None);
    };
    let Ok(stream) = fields::stream(word) else {
        return Ok(None);
    };
    if !plain_texts(rest, texts)? {
        return Ok(None);
    }
    Ok(Some(Publish {
        queue: fields::queue_of(&stream, queues),
        stream,
    }))
}

/// The word behind `pub` and a space, and what follows it.
fn stream_word(bytes: &[u8]) -> Option<(&[u8], &[u8])>
    ensures { IfSome result (λ found. cut Between bytes.now ≡ with_pub found.0.now (cut Between found.1.now)) }
{
    match bytes {
        [b'p', b'u', b'b', b' ', rest @ ..] => first_word(rest),
        _ => None,
    }
}

/// The word in front, and what follows it.
fn first_word(bytes: &[u8]) -> Option<(&[u8], &[u8])>
    ensures { IfSome result (λ found. CutsOne Between bytes.now (Some (Word found.0.now, found.1.now))) }
{
    match bytes {
        [b' ' | b'"', ..] | [] => None,
        _ => word_at(bytes),
    }
}

/// Leaves what all pieces of a line stand for. It gives whether each is a text that is a payload and has no escape.
fn plain_texts<'a>(bytes: &'a [u8], texts: &mut Vec<&'a [u8]>) -> Result<bool, AllocError>
    ensures cut { IfOk result (λ all. all ≡ true → cut Between bytes.now ≡ Some (map Text (map (λ text. text.now) texts.new.items))) }
    ensures payloads { IfOk result (λ all. all ≡ true → AllByRecursion IsPayload (map (λ text. text.now) texts.new.items)) }
{
    texts.clear();
    let mut rest = bytes;
    while let [first, after @ ..] = rest {
        if *first == b' ' {
            rest = after;
            continue;
        }
        if *first != b'"' {
            return Ok(false);
        }
        let Some((text, after)) = plain_text_at(after) else {
            return Ok(false);
        };
        if text.len() > PAYLOAD_BYTES || !are_printable(text) {
            return Ok(false);
        }
        texts.push(text)?;
        rest = after;
    }
    Ok(true)
}
