//! Where the fault of a line is.
ghost use Rattle.std.specs.Prelude.{◌≡◌, ◌⊎◌, ◌≤◌, false, length, IfSome};
ghost use Rattle.std.specs.List.{list_all};
ghost use Rattle.stream_script.specs.Pieces.{is_space};
ghost use Rattle.script_checker.specs.Places.{IsBadByte, IsMissing, IsOfPiece, IsSpan, IsSpot, IsWhole};

use crate::field::Field;
use crate::piece::{Piece, first_piece, piece_from};
use crate::printable::unprintable;
use crate::verb::Verb;
use stream_script::FaultKind;

/// Where a fault is, and what is told of it.
#[derive(Clone, Copy)]
pub(crate) struct Finding {
    /// The place of the faulty word's first byte, counted from 0.
    pub(crate) start: usize,
    /// The place behind its last byte.
    pub(crate) end: usize,
    /// What is right there.
    pub(crate) expected: &'static str,
    /// How the line might be mended.
    pub(crate) hint: Option<&'static str>,
}

/// Where the fault of this kind is that a line has.
pub(crate) fn find(bytes: &[u8], kind: FaultKind, queues: usize) -> Finding
    requires { list_all is_space bytes.now ≡ false }
    ensures span { IsSpan bytes.now result.start result.end }
    ensures spot { IsSpot kind bytes.now result.start result.end }
{
    match kind {
        FaultKind::BadByte => bad_byte(bytes),
        FaultKind::BadText => bad_text(bytes, queues),
        FaultKind::NotInSim => of_piece(
            first_piece(bytes),
            "this command stands only in a script that is run",
            Some("`streams run` knows `up` and `down`, and `streams sim` refuses them"),
        ),
        FaultKind::NotInRun => of_piece(
            first_piece(bytes),
            "this command stands only in a script that is simulated",
            Some(
                "a script that is run has `pub`, `sub`, `unsub`, `rule`, `drain`, `up` and `down`",
            ),
        ),
        FaultKind::WordCount => miscounted(bytes),
        _ => misfit(bytes, queues),
    }
}

/// The first byte that isn't printable.
fn bad_byte(bytes: &[u8]) -> Finding
    ensures span { IsSpan bytes.now result.start result.end }
    ensures byte { IsBadByte bytes.now result.start result.end }
{
    let expected = "a line has printable ASCII alone, 0x20 to 0x7E";
    match unprintable(bytes) {
        None => at_end(bytes, expected),
        Some(start) => Finding {
            start,
            end: start + 1,
            expected,
            hint: byte_hint(bytes[start]),
        },
    }
}

/// How a byte might be mended that isn't printable.
fn byte_hint(byte: u8) -> Option<&'static str> {
    match byte {
        b'\t' => Some("write a space, and no tab"),
        0x80.. => Some("letters with accents and other signs of Unicode can't stand in a script"),
        _ => None,
    }
}

/// The first piece with wrong quotes or escapes, or else the text that is too long.
fn bad_text(bytes: &[u8], queues: usize) -> Finding
    requires { list_all is_space bytes.now ≡ false }
    ensures { IsWhole bytes.now result.start result.end }
{
    let mut from = 0;
    while let Some(piece) = piece_from(bytes, from) {
        if !piece.is_right {
            return of_piece(
                piece,
                "a text begins and ends with a quote, with spaces around it",
                Some(text_hint(piece.is_text)),
            );
        }
        from = piece.end;
    }
    misfit(bytes, queues)
}

/// How quotes might be mended.
fn text_hint(is_text: bool) -> &'static str {
    if is_text {
        r#"inside a text write \" for a quote and \\ for a backslash"#
    } else {
        "no quote stands inside a word"
    }
}

/// The leftmost piece that is one too many, or a text in the place of a word, or the reverse, or else the end of the line,
/// where a piece is missing.
fn miscounted(bytes: &[u8]) -> Finding
    requires { list_all is_space bytes.now ≡ false }
    ensures span { IsSpan bytes.now result.start result.end }
    ensures count { IsWhole bytes.now result.start result.end ⊎ IsMissing bytes.now result.start result.end }
{
    let front = first_piece(bytes);
    let Some(verb) = Verb::named(&bytes[front.start..front.end]) else {
        return unknown(front);
    };
    let mut number = 0;
    let mut from = front.end;
    while let Some(piece) = piece_from(bytes, from) {
        if let Some(hint) = count_hint(verb.field(number), piece.is_text) {
            return of_piece(piece, verb.form(), hint);
        }
        number += 1;
        from = piece.end;
    }
    at_end(bytes, verb.form())
}

/// How a piece might be mended that can't stand in the place of this field, or nothing where it can.
fn count_hint(field: Option<Field>, is_text: bool) -> Option<Option<&'static str>> {
    match (field, is_text) {
        (None, _) => Some(None),
        (Some(Field::Text), true) => None,
        (Some(Field::Text), false) => Some(Some(r#"a text stands between quotes, as "paid""#)),
        (Some(_), true) => Some(Some("no quotes stand around a word")),
        (Some(_), false) => None,
    }
}

/// The leftmost piece that isn't what belongs in its place. Where each is right by itself, the last one doesn't go with the
/// one in front of it.
fn misfit(bytes: &[u8], queues: usize) -> Finding
    requires { list_all is_space bytes.now ≡ false }
    ensures { IsWhole bytes.now result.start result.end }
{
    let front = first_piece(bytes);
    let Some(verb) = Verb::named(&bytes[front.start..front.end]) else {
        return unknown(front);
    };
    let mut number = 0;
    let mut last = front;
    while let Some(piece) = piece_from(bytes, last.end) {
        if let Some(finding) = unfit(bytes, verb.field(number), piece, queues) {
            return finding;
        }
        number += 1;
        last = piece;
    }
    of_piece(
        last,
        "the subscription is one of the queue in front of it",
        None,
    )
}

/// What is told of a piece in the place of this field, where it isn't what belongs there.
fn unfit(bytes: &[u8], field: Option<Field>, piece: Piece, queues: usize) -> Option<Finding>
    requires { IsWhole bytes.now piece.start piece.end }
    ensures { IfSome result (IsOfPiece piece) }
{
    let field = field?;
    let word = &bytes[piece.start..piece.end];
    let is_last = piece_from(bytes, piece.end).is_none();
    if field.fits(word, queues, is_last) {
        return None;
    }
    Some(of_piece(piece, field.expected(), field.hint(word, is_last)))
}

/// A piece in front that begins no command.
fn unknown(front: Piece) -> Finding
    ensures { IsOfPiece front result }
{
    of_piece(front, "a line begins with a command", Some(COMMANDS))
}

/// What is told of a word that begins no command.
const COMMANDS: &str =
    "the commands are pub, sub, unsub, rule, pull, deliver, retry, ack, purge, move, begin, commit, deactivate, ready, due, quiet, drain, report, up and down";

/// A fault of a piece.
fn of_piece(piece: Piece, expected: &'static str, hint: Option<&'static str>) -> Finding
    ensures { IsOfPiece piece result }
{
    Finding {
        start: piece.start,
        end: piece.end,
        expected,
        hint,
    }
}

/// A fault at the end of the line.
fn at_end(bytes: &[u8], expected: &'static str) -> Finding
    ensures { IsMissing bytes.now result.start result.end }
{
    Finding {
        start: bytes.len(),
        end: bytes.len(),
        expected,
        hint: None,
    }
}
