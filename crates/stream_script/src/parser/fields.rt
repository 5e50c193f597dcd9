//! The fields of a command: words and texts, and what each of them says.
ghost use Rattle.std.specs.Prelude.{◌≡◌, ◌^◌, ◌≤◌, map, MatchResult, Ok, Err};
ghost use Rattle.stream_script.specs.Fields.{number_field, queue_field, stream_field, grain_field, token_field, payload_field, bare_name_field, explicit_field, implicit_field, name_field, sub_parts, sub_field, own_sub_field};
ghost use Rattle.stream_script.specs.Forms.{word_of, text_of, words_of, texts_of, payloads_of, queue_of};
ghost use Rattle.stream_script.specs.Lexer.{piece_of, pieces_in};
ghost use Rattle.stream_script.specs.Reading.{Gives};

use crate::parser::command::{FaultKind, LineError};
use crate::parser::lines::Piece;
use std::alloc::Global;
use stream_ident::{
    GrainId, MOST_SILOS, Name, Payload, StreamId, SubName, Token, parse_number, split_once,
};

/// The word that a piece is.
pub(crate) fn word<'a>(piece: &Piece<'a>) -> Result<&'a [u8], FaultKind>
    ensures { MatchResult result (λ word. word_of (piece_of piece.now) ≡ Ok word.now) (λ fault. word_of (piece_of piece.now) ≡ Err fault) }
{
    match piece {
        Piece::Word(word) => Ok(*word),
        Piece::Text(_) => Err(FaultKind::WordCount),
    }
}

/// What the text that a piece is stands for.
fn text<'a>(piece: &'a Piece) -> Result<&'a [u8], FaultKind>
    ensures { MatchResult result (λ text. text_of (piece_of piece.now) ≡ Ok text.now) (λ fault. text_of (piece_of piece.now) ≡ Err fault) }
{
    match piece {
        Piece::Word(_) => Err(FaultKind::WordCount),
        Piece::Text(text) => Ok(text.as_slice()),
    }
}

/// The words, where none is a text.
pub(crate) fn words<'a>(alloc: Global, pieces: &[Piece<'a>]) -> Result<Vec<&'a [u8]>, LineError>
    ensures { Gives (λ v. map (λ word. word.now) v.items) result (words_of (pieces_in pieces.now)) }
{
    let mut words = Vec::with_capacity(alloc, pieces.len())?;
    for piece in pieces {
        let word = word(piece)?;
        words.push(word)?;
    }
    Ok(words)
}

/// What the texts stand for, where none is a word.
pub(crate) fn texts<'a>(alloc: Global, pieces: &'a [Piece]) -> Result<Vec<&'a [u8]>, LineError>
    ensures { Gives (λ v. map (λ text. text.now) v.items) result (texts_of (pieces_in pieces.now)) }
{
    let mut texts = Vec::new(alloc);
    for piece in pieces {
        let text = text(piece)?;
        texts.push(text)?;
    }
    Ok(texts)
}

/// Each text as a payload.
#[inline(never)]
pub(crate) fn payloads(alloc: Global, texts: &[&[u8]]) -> Result<Vec<Payload>, LineError>
    ensures { Gives (λ v. v.items) result (payloads_of (map (λ text. text.now) texts.now)) }
{
    let mut payloads = Vec::new(alloc);
    for text in texts {
        let payload = payload(*text)?;
        payloads.push(payload)?;
    }
    Ok(payloads)
}

/// A number in decimal, below 2^64.
#[tactic(auto, unfolding(crate::specs::Fields::number_field))]
pub(crate) fn number(bytes: &[u8]) -> Result<u64, FaultKind>
    ensures { result ≡ number_field (2 ^ 64) bytes.now }
{
    parse_number(bytes).ok_or(FaultKind::BadNumber)
}

/// A number in decimal, below 2^32.
#[tactic(auto, unfolding(crate::specs::Fields::number_field))]
pub(crate) fn short_number(bytes: &[u8]) -> Result<u32, FaultKind>
    ensures { result ≡ number_field (2 ^ 32) bytes.now }
{
    let number = parse_number(bytes).ok_or(FaultKind::BadNumber)?;
    u32::try_from(number).map_err(|_| FaultKind::BadNumber)
}

/// The number of a silo, 0 to 15.
#[tactic(auto, unfolding(crate::specs::Fields::number_field))]
pub(crate) fn silo(bytes: &[u8]) -> Result<u8, FaultKind>
    ensures { result ≡ number_field MOST_SILOS bytes.now }
{
    let number = parse_number(bytes).ok_or(FaultKind::BadNumber)?;
    if number >= MOST_SILOS as u64 {
        return Err(FaultKind::BadNumber);
    }
    Ok(number as u8)
}

/// The number of a queue.
#[tactic(auto, unfolding(crate::specs::Fields::queue_field))]
pub(crate) fn queue(bytes: &[u8], queues: usize) -> Result<usize, FaultKind>
    ensures { result ≡ queue_field queues bytes.now }
{
    let queue = short_number(bytes)? as usize;
    if queue >= queues {
        return Err(FaultKind::NoQueue);
    }
    Ok(queue)
}

/// A stream, `NS/KEY`.
#[tactic(auto, unfolding(crate::specs::Fields::stream_field))]
pub(crate) fn stream(bytes: &[u8]) -> Result<StreamId, FaultKind>
    ensures { result ≡ stream_field bytes.now }
{
    let (namespace, key) = split_once(bytes, b'/').ok_or(FaultKind::BadName)?;
    StreamId::new(namespace, key).map_err(|_| FaultKind::BadName)
}

/// The queue of a stream.
pub(crate) fn queue_of(stream: &StreamId, queues: usize) -> usize
    requires { 1 ≤ queues }
    ensures { result ≡ queue_of stream.now queues }
{
    queue_mapper::queue(stream, queues)
}

/// A grain, `KIND/KEY`.
#[tactic(auto, unfolding(crate::specs::Fields::grain_field))]
pub(crate) fn grain(bytes: &[u8]) -> Result<GrainId, FaultKind>
    ensures { result ≡ grain_field bytes.now }
{
    let (kind, key) = split_once(bytes, b'/').ok_or(FaultKind::BadName)?;
    GrainId::new(kind, key).map_err(|_| FaultKind::BadName)
}

/// A name, of a kind or of a namespace.
#[tactic(auto, unfolding(crate::specs::Fields::bare_name_field))]
pub(crate) fn bare_name(bytes: &[u8]) -> Result<Name, FaultKind>
    ensures { result ≡ bare_name_field bytes.now }
{
    Name::new(bytes).map_err(|_| FaultKind::BadName)
}

/// A token, `SEQ.IDX`.
#[tactic(auto, unfolding(crate::specs::Fields::token_field))]
pub(crate) fn token(bytes: &[u8]) -> Result<Token, FaultKind>
    ensures { result ≡ token_field bytes.now }
{
    Token::parse(bytes).map_err(|_| FaultKind::BadToken)
}

/// What a text carries.
#[tactic(auto, unfolding(crate::specs::Fields::payload_field))]
#[inline(never)]
pub(crate) fn payload(bytes: &[u8]) -> Result<Payload, FaultKind>
    ensures { result ≡ payload_field bytes.now }
{
    Payload::new(bytes).map_err(|_| FaultKind::BadText)
}

/// The number of an explicit subscription, 1 or more.
#[tactic(auto, unfolding(crate::specs::Fields::explicit_field))]
fn explicit(bytes: &[u8]) -> Result<SubName, FaultKind>
    ensures { result ≡ explicit_field bytes.now }
{
    let number = short_number(bytes)?;
    if number == 0 {
        return Err(FaultKind::BadNumber);
    }
    Ok(SubName::Explicit(number))
}

/// The name of an implicit subscription, its kind and its stream cut at the `@`.
#[tactic(auto, unfolding(crate::specs::Fields::implicit_field))]
fn implicit(kind: &[u8], of: &[u8]) -> Result<SubName, FaultKind>
    ensures { result ≡ implicit_field (kind.now, of.now) }
{
    let kind = Name::new(kind).map_err(|_| FaultKind::BadName)?;
    let stream = stream(of)?;
    Ok(SubName::Implicit { kind, stream })
}

/// The name of a subscription: a number, or `KIND@NS/KEY`.
#[tactic(auto, unfolding(crate::specs::Fields::name_field))]
fn name(bytes: &[u8]) -> Result<SubName, FaultKind>
    ensures { result ≡ name_field bytes.now }
{
    match split_once(bytes, b'@') {
        None => explicit(bytes),
        Some((kind, of)) => implicit(kind, of),
    }
}

/// A subscription's queue, and what stands behind its one `:`.
#[tactic(auto, unfolding(crate::specs::Fields::sub_parts))]
fn sub_parts(bytes: &[u8], queues: usize) -> Result<(usize, &[u8]), FaultKind>
    ensures { MatchResult result (λ parts. sub_parts queues bytes.entry.now ≡ Ok (parts.0, parts.1.now)) (λ fault. sub_parts queues bytes.entry.now ≡ Err fault) }
{
    let (of, after) = split_once(bytes, b':').ok_or(FaultKind::BadName)?;
    if after.contains(&b':') {
        return Err(FaultKind::BadName);
    }
    let queue = queue(of, queues)?;
    Ok((queue, after))
}

/// A subscription with its queue, `Q:NAME`.
#[tactic(auto, unfolding(crate::specs::Fields::sub_field))]
pub(crate) fn sub(bytes: &[u8], queues: usize) -> Result<(usize, SubName), FaultKind>
    ensures { result ≡ sub_field queues bytes.now }
{
    let (queue, after) = sub_parts(bytes, queues)?;
    let name = name(after)?;
    Ok((queue, name))
}

/// A subscription of this queue, `Q:NAME`.
#[tactic(auto, unfolding(crate::specs::Fields::own_sub_field))]
pub(crate) fn own_sub(bytes: &[u8], queue: usize, queues: usize) -> Result<SubName, FaultKind>
    ensures { result ≡ own_sub_field queues queue bytes.now }
{
    let (of, after) = sub_parts(bytes, queues)?;
    if of != queue {
        return Err(FaultKind::NoQueue);
    }
    name(after)
}
