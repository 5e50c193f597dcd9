//! The lines of a script, and the pieces of a line: words, and texts in quotes.
ghost use Rattle.std.specs.Prelude.{◌≡◌, ◌<◌, ◌≤◌, ◌||◌, true, ℕ, List, [], ◌∷◌, length, position, IfOk, IfSome, MatchOption, Some};
ghost use Rattle.std.specs.List.{position_or_len};
ghost use Rattle.std.specs.Option.{option_map};
ghost use Rattle.stream_script.specs.Lexer.{pieces_of, pieces_in, piece_of, starts_piece, begins_word, begins_with, escape_at, CutsOne, Between, InWord, InText, Closed};
ghost use Rattle.stream_script.specs.Lines.{cut_at_feeds, without_return, lines_of};
ghost use Rattle.stream_script.specs.Pieces.{Word, Text, ends_piece, ends_word, is_special};

use std::alloc::{AllocError, Global};
use std::marker::Model;
use stream_ident::split_once;

/// The most words of a command. Only behind `pub` there may be more pieces.
const MOST_WORDS: usize = 6;

/// The lines of a script that are left, in order, each without its line feed and the carriage return
/// before it.
#[derive(Drop)]
pub struct Lines<'a> {
    rest: &'a [u8],
}

impl<'a> Model for Lines<'a> {
    ghost Value = { List (List ℕ) };

    ghost view = { λ lines. lines_of lines.rest.now };
}

impl<'a> Lines<'a> {
    /// All lines of a script. A last line needs no line feed.
    pub fn of(script: &'a [u8]) -> Lines<'a>
        ensures { result ≡ lines_of script.now }
    {
        Lines { rest: script }
    }

    /// The next line, or `None` where none is left. It reads just the bytes of that line.
    pub fn next_line(&mut self) -> Option<&'a [u8]>
        ensures { MatchOption result (self.old ≡ []) (λ line. self.old ≡ line.now ∷ self.new) }
    {
        if self.rest.is_empty() {
            return None;
        }
        let (line, rest) = split_line(self.rest);
        self.rest = rest;
        Some(without_return(line))
    }
}

/// The bytes before the first line feed, and those behind it.
fn split_line(script: &[u8]) -> (&[u8], &[u8])
    requires { 0 < length script.now }
    ensures { cut_at_feeds script.now ≡ result.0.now ∷ cut_at_feeds result.1.now }
{
    match split_once(script, b'\n') {
        Some(parts) => parts,
        None => (script, &[]),
    }
}

/// A line without the carriage return at its end.
fn without_return(line: &[u8]) -> &[u8]
    ensures { result.now ≡ without_return line.now }
{
    match line {
        [front @ .., b'\r'] => front,
        _ => line,
    }
}

/// A piece of a line.
#[derive(Drop)]
pub(crate) enum Piece<'a> {
    /// A word, where it stands in the line.
    Word(&'a [u8]),
    /// What a text in quotes stands for.
    Text(Vec<u8>),
}

/// The pieces of a line, or `None` where a text doesn't end, has a wrong escape or something right behind
/// it, or where a `"` stands inside a word.
pub(crate) fn pieces<'a>(
    alloc: Global,
    line: &'a [u8],
) -> Result<Option<Vec<Piece<'a>>>, AllocError>
    ensures { IfOk result (λ found. option_map (λ v. pieces_in v.items) found ≡ pieces_of line.now) }
{
    let mut pieces = Vec::with_capacity(alloc, MOST_WORDS)?;
    let mut rest = line;
    while let [first, after @ ..] = rest {
        if *first == b' ' {
            rest = after;
            continue;
        }
        let Some((piece, after)) = piece_at(alloc, rest)? else {
            return Ok(None);
        };
        pieces.push(piece)?;
        rest = after;
    }
    Ok(Some(pieces))
}

/// The piece in front, and what follows it.
fn piece_at<'a>(alloc: Global, bytes: &'a [u8]) -> Result<Option<(Piece<'a>, &'a [u8])>, AllocError>
    requires { starts_piece bytes.now ≡ true }
    ensures exact { IfOk result (λ found. CutsOne Between bytes.now (option_map (λ found. (piece_of found.0, found.1.now)) found)) }
    ensures shorter { IfOk result (λ found. IfSome found (λ found. length found.1.now < length bytes.now)) }
{
    if begins_with(bytes, b'"') {
        let Some((text, rest)) = text_at(alloc, &bytes[1..])? else {
            return Ok(None);
        };
        return Ok(Some((Piece::Text(text), rest)));
    }
    let Some((word, rest)) = word_at(bytes) else {
        return Ok(None);
    };
    Ok(Some((Piece::Word(word), rest)))
}

/// Whether this byte stands in front.
pub(crate) fn begins_with(bytes: &[u8], byte: u8) -> bool
    ensures { result ≡ begins_with byte bytes.now }
{
    match bytes {
        [] => false,
        [first, ..] => *first == byte,
    }
}

/// The word in front, and what follows it, or `None` where a quote ends it.
pub(crate) fn word_at(bytes: &[u8]) -> Option<(&[u8], &[u8])>
    requires { begins_word bytes.now ≡ true }
    ensures exact { CutsOne (InWord []) bytes.now (option_map (λ found. (Word found.0.now, found.1.now)) result) }
    ensures shorter { IfSome result (λ found. length found.1.now < length bytes.now) }
{
    let (word, rest) = bytes.split_at(word_len(bytes));
    if begins_with(rest, b'"') {
        return None;
    }
    Some((word, rest))
}

/// The length of the word in front.
fn word_len(bytes: &[u8]) -> usize
    ensures exact { result ≡ position_or_len ends_word bytes.now }
    ensures within { result ≤ length bytes.now }
{
    word_end(bytes).unwrap_or(bytes.len())
}

/// The place of the first byte that may not stand in a word.
fn word_end(bytes: &[u8]) -> Option<usize>
    ensures exact { result ≡ position ends_word bytes.now }
    ensures within { IfSome result (λ at. at < length bytes.now) }
{
    bytes.iter().position(|byte| *byte == b' ' || *byte == b'"')
}

/// What the text in front stands for, its opening quote taken off, and what follows it.
fn text_at<'a>(alloc: Global, bytes: &'a [u8]) -> Result<Option<(Vec<u8>, &'a [u8])>, AllocError>
    ensures exact { IfOk result (λ found. CutsOne (InText []) bytes.now (option_map (λ found. (Text found.0.items, found.1.now)) found)) }
    ensures shorter { IfOk result (λ found. IfSome found (λ found. length found.1.now ≤ length bytes.now)) }
{
    let mut text = Vec::new(alloc);
    let mut rest = bytes;
    loop {
        let (plain, special) = rest.split_at(plain_len(rest));
        text.extend_from_slice(plain)?;
        if begins_with(special, b'"') {
            return Ok(closed(text, &special[1..]));
        }
        let Some((byte, after)) = escape_at(special) else {
            return Ok(None);
        };
        text.push(byte)?;
        rest = after;
    }
}

/// The text in front that has no escape, its opening quote taken off, and what follows it.
pub(crate) fn plain_text_at(bytes: &[u8]) -> Option<(&[u8], &[u8])>
    ensures exact { IfSome result (λ found. CutsOne (InText []) bytes.now (Some (Text found.0.now, found.1.now))) }
    ensures shorter { IfSome result (λ found. length found.1.now ≤ length bytes.now) }
{
    let (text, special) = bytes.split_at(plain_len(bytes));
    if !begins_with(special, b'"') {
        return None;
    }
    let rest = &special[1..];
    if !ends_piece(rest) {
        return None;
    }
    Some((text, rest))
}

/// The byte that an escape in front stands for, and what follows it.
fn escape_at(bytes: &[u8]) -> Option<(u8, &[u8])>
    ensures { option_map (λ found. (found.0, found.1.now)) result ≡ escape_at bytes.now }
{
    match bytes {
        [b'\\', byte, rest @ ..] if is_special(*byte) => Some((*byte, rest)),
        _ => None,
    }
}

/// How many bytes stand in front that stand for themselves in a text.
fn plain_len(bytes: &[u8]) -> usize
    ensures exact { result ≡ position_or_len is_special bytes.now }
    ensures within { result ≤ length bytes.now }
{
    plain_end(bytes).unwrap_or(bytes.len())
}

/// The place of the first byte that doesn't stand for itself in a text.
fn plain_end(bytes: &[u8]) -> Option<usize>
    ensures exact { result ≡ position is_special bytes.now }
    ensures within { IfSome result (λ at. at < length bytes.now) }
{
    bytes.iter().position(|byte| is_special(*byte))
}

/// Whether a backslash has to stand in front of this byte in a text.
pub(crate) fn is_special(byte: u8) -> bool
    ensures { result ≡ is_special byte }
{
    matches!(byte, b'"' | b'\\')
}

/// A text, and what follows its closing quote, or `None` where that is neither a space nor the end.
fn closed(text: Vec<u8>, rest: &[u8]) -> Option<(Vec<u8>, &[u8])>
    ensures exact { CutsOne (Closed text.items) rest.entry.now (option_map (λ found. (Text found.0.items, found.1.now)) result) }
    ensures same { IfSome result (λ found. found.1.now ≡ rest.entry.now) }
{
    if !ends_piece(rest) {
        return None;
    }
    Some((text, rest))
}

/// Whether a piece may end here.
fn ends_piece(rest: &[u8]) -> bool
    ensures { result ≡ ends_piece rest.now }
{
    rest.is_empty() || begins_with(rest, b' ')
}
