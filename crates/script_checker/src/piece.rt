//! The pieces of a line, by where they stand in it.
ghost use Rattle.std.specs.Prelude.{◌≡◌, ◌≢◌, ◌<◌, ◌≤◌, length, slice_index, MatchOption, false};
ghost use Rattle.std.specs.List.{list_all};
ghost use Rattle.stream_script.specs.Pieces.{is_space};
ghost use Rattle.script_checker.specs.Places.{AreSpaces, EndsAt, IsNextFrom, IsWhole};

/// A piece of a line.
#[derive(Clone, Copy)]
pub(crate) struct Piece {
    /// The place of its first byte, counted from 0.
    pub(crate) start: usize,
    /// The place behind its last byte.
    pub(crate) end: usize,
    /// Whether it begins with a quote.
    pub(crate) is_text: bool,
    /// Whether it is a word without a quote, or a text that ends and whose escapes are right.
    pub(crate) is_right: bool,
}

/// The first piece of a line that isn't empty.
pub(crate) fn first_piece(bytes: &[u8]) -> Piece
    requires { list_all is_space bytes.now ≡ false }
    ensures whole { IsWhole bytes.now result.start result.end }
    ensures first { AreSpaces bytes.now 0 result.start }
{
    let Some(piece) = piece_from(bytes, 0) else {
        unreachable!();
    };
    piece
}

/// The first piece that begins at this place or behind it. The place is the beginning of the line, or the end of a piece.
pub(crate) fn piece_from(bytes: &[u8], from: usize) -> Option<Piece>
    requires within { from ≤ length bytes.now }
    requires edge { 0 < from → EndsAt bytes.now from }
    ensures { MatchOption result (AreSpaces bytes.now from (length bytes.now)) (IsNextFrom bytes.now from) }
{
    let start = piece_start(bytes, from);
    if start == bytes.len() {
        return None;
    }
    Some(piece_at(bytes, start))
}

/// The place of the first byte at this place or behind it that isn't a space, or the end of the line.
fn piece_start(bytes: &[u8], from: usize) -> usize
    requires { from ≤ length bytes.now }
    ensures behind { from ≤ result }
    ensures within { result ≤ length bytes.now }
    ensures spaces { AreSpaces bytes.now from result }
    ensures first { result < length bytes.now → slice_index bytes.now result ≢ 32 }
{
    let mut start = from;
    while start < bytes.len() && bytes[start] == b' ' {
        start += 1;
    }
    start
}

/// The piece that begins here. What stands right behind a text's closing quote is part of it.
fn piece_at(bytes: &[u8], start: usize) -> Piece
    requires { start < length bytes.now }
    ensures start { result.start ≡ start }
    ensures some { start < result.end }
    ensures within { result.end ≤ length bytes.now }
    ensures ends { EndsAt bytes.now result.end }
{
    if bytes[start] != b'"' {
        let end = piece_end(bytes, start + 1);
        return Piece {
            start,
            end,
            is_text: false,
            is_right: !bytes[start..end].contains(&b'"'),
        };
    }
    let (len, is_right) = text_len(&bytes[start + 1..]);
    let closed = start + 1 + len;
    let end = piece_end(bytes, closed);
    Piece {
        start,
        end,
        is_text: true,
        is_right: is_right && end == closed,
    }
}

/// The place of the first space at this place or behind it, or the end of the line.
fn piece_end(bytes: &[u8], from: usize) -> usize
    requires { from ≤ length bytes.now }
    ensures behind { from ≤ result }
    ensures within { result ≤ length bytes.now }
    ensures ends { EndsAt bytes.now result }
{
    let mut end = from;
    while end < bytes.len() && bytes[end] != b' ' {
        end += 1;
    }
    end
}

/// How many bytes a text has, its closing quote counted, and whether it has one and its escapes are right.
fn text_len(text: &[u8]) -> (usize, bool)
    ensures { result.0 ≤ length text.now }
{
    let mut is_right = true;
    let mut is_escaped = false;
    for (at, byte) in text.iter().enumerate() {
        if is_escaped {
            is_escaped = false;
            is_right = is_right && matches!(*byte, b'"' | b'\\');
        } else if *byte == b'\\' {
            is_escaped = true;
        } else if *byte == b'"' {
            return (at + 1, is_right);
        }
    }
    (text.len(), false)
}
