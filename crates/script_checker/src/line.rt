//! What a line is to a checker.
ghost use Rattle.std.specs.Prelude.{◌≡◌, ◌≤◌, false, IfOk, Some};
ghost use Rattle.std.specs.List.{list_all};
ghost use Rattle.stream_script.specs.Pieces.{is_space};
ghost use Rattle.stream_script.specs.Reading.{reading};
ghost use Rattle.script_checker.specs.Checks.{HasVerb, IsPlaced, IsPlacedFault, parsed_of};
ghost use Rattle.script_checker.specs.FaultTexts.{fault_text, hint_text, word_text};

use crate::finding::find;
use crate::printable::printable_text;
use std::alloc::{AllocError, Global};
use std::fmt;
use stream_script::{Command, Fault, Mode, Parsed, parse_line};

/// A fault of a line, and where it is.
#[derive(Clone, Copy, Debug)]
pub struct LineFault<'a> {
    /// What the parser tells: the number of the line, and what is wrong with it.
    pub fault: Fault,
    /// The column of the faulty word's first byte, counted from 1, in bytes.
    pub column: usize,
    /// The faulty word as it stands in the line, which is empty where one is missing at the end.
    pub word: &'a [u8],
    /// What would be right there.
    pub expected: &'static str,
    /// How the line might be mended.
    pub hint: Option<&'static str>,
}

/// What a line is.
#[derive(Debug, Drop)]
pub enum Checked<'a> {
    /// A command.
    Command(Command),
    /// A line to pass over.
    Skip,
    /// A fault.
    Fault(LineFault<'a>),
}

/// What a line is, its line feed and carriage return taken off. It is what [`parse_line`] reads it as, and a fault has
/// its place.
///
/// `line` is the number that a fault gets. Queue numbers have to be below `queues`.
///
/// # Errors
/// The call failed to allocate.
pub fn check_line<'a>(
    alloc: Global,
    bytes: &'a [u8],
    line: usize,
    queues: usize,
    mode: Mode,
) -> Result<Checked<'a>, AllocError>
    requires { 1 ≤ queues }
    // A line has a fault where the parser tells one, and that one.
    ensures exact { IfOk result (λ checked. parsed_of checked ≡ reading queues mode line bytes.now) }
    // A command's line begins with the word of its verb.
    ensures verb { IfOk result (HasVerb bytes.now) }
    // The word of a fault is what stands in the line from its column on: the first bad byte, or a whole piece between
    // spaces, or, where the number of pieces is wrong, such a piece or nothing at the end of the line.
    ensures placed { IfOk result (IsPlaced bytes.now) }
{
    match parse_line(alloc, bytes, line, queues, mode)? {
        Parsed::Command(command) => Ok(Checked::Command(command)),
        Parsed::Skip => Ok(Checked::Skip),
        Parsed::Fault(fault) => Ok(Checked::Fault(placed(bytes, fault, queues))),
    }
}

/// A fault of a line with its place.
fn placed(bytes: &[u8], fault: Fault, queues: usize) -> LineFault<'_>
    requires { list_all is_space bytes.now ≡ false }
    ensures fault { result.fault ≡ fault }
    ensures placed { IsPlacedFault bytes.now result }
{
    let finding = find(bytes, fault.kind, queues);
    LineFault {
        fault,
        column: finding.start + 1,
        word: &bytes[finding.start..finding.end],
        expected: finding.expected,
        hint: finding.hint,
    }
}

/// A fault prints as compilers print theirs: where it is, what it is, and what would be right, and on a second line how
/// the line might be mended.
impl fmt::Display for LineFault<'_> {
    ghost output = { λ fault. Some (fault_text fault) };

    fn fmt<W: fmt::Write>(&self, f: &mut fmt::Formatter<W>) -> fmt::Result {
        let line = self.fault.line;
        let column = self.column;
        let kind = self.fault.kind;
        let word = Quoted(self.word);
        let expected = self.expected;
        let hint = Hint(self.hint);
        write!(
            f,
            "line {line}, column {column}: {kind}: {word}: {expected}{hint}"
        )
    }
}

/// A hint, on a line of its own.
#[derive(Clone, Copy)]
struct Hint(Option<&'static str>);

impl fmt::Display for Hint {
    ghost output = { λ hint. Some (hint_text hint.0) };

    fn fmt<W: fmt::Write>(&self, f: &mut fmt::Formatter<W>) -> fmt::Result {
        match self.0 {
            None => Ok(()),
            Some(hint) => write!(f, "\n    hint: {hint}"),
        }
    }
}

/// A word of a line, to be printed between quotes.
#[derive(Clone, Copy)]
struct Quoted<'a>(&'a [u8]);

impl fmt::Display for Quoted<'_> {
    ghost output = { λ quoted. Some (word_text quoted.0.now) };

    fn fmt<W: fmt::Write>(&self, f: &mut fmt::Formatter<W>) -> fmt::Result {
        match (self.0, printable_text(self.0)) {
            ([], _) => f.write_str("end of line"),
            ([b'"', ..], Some(text)) => f.write_str(text),
            (_, Some(text)) => write!(f, "\"{text}\""),
            ([first, ..], None) => write!(f, "byte 0x{first:x}"),
        }
    }
}
