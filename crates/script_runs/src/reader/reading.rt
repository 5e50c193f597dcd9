//! The lines of a script that is to be run.
ghost use Rattle.std.specs.Prelude.{◌≤◌, length, IfOk};
ghost use Rattle.stream_script.specs.declared.parser.limits.TheConstants.{MOST_SCRIPT_BYTES};
ghost use Rattle.stream_script.specs.Lines.{lines_of};
ghost use Rattle.script_runs.specs.Scripts.{IsRead};

use crate::reader::line::Line;
use std::alloc::{AllocError, Global};
use stream_script::{Command, Fault, Lines, Mode, Parsed, parse_line};

/// What a script reads as.
#[derive(Debug, Drop)]
pub enum Script {
    /// Its lines that say something, in order.
    Lines(Vec<Line>),
    /// Its first fault.
    Fault(Fault),
}

/// Reads a script that is to be run on so many queues: each line that isn't empty or a comment is a command, and has
/// the number of its line, counted from 1. A script has at most [`MOST_SCRIPT_BYTES`](stream_script::MOST_SCRIPT_BYTES).
///
/// # Errors
/// The call failed to allocate.
pub fn read_lines(alloc: Global, script: &[u8], queues: usize) -> Result<Script, AllocError>
    requires queues { 1 ≤ queues }
    requires short { length script.now ≤ MOST_SCRIPT_BYTES }
    ensures { IfOk result (IsRead queues (lines_of script.now)) }
{
    let mut found = Vec::new(alloc);
    let mut lines = Lines::of(script);
    let mut number = 0;
    while let Some(line) = lines.next_line() {
        number += 1;
        match parse_line(alloc, line, number, queues, Mode::Run)? {
            Parsed::Skip => {}
            Parsed::Fault(fault) => return Ok(Script::Fault(fault)),
            Parsed::Command(command) => found.push(Line { number, command })?,
        }
    }
    Ok(Script::Lines(found))
}
