//! The text that goes out of a run.
ghost use Rattle.std.specs.Prelude.{◌≡◌, ◌++◌, IfOk, OnOk};
ghost use Rattle.script_runs.specs.ScriptReport.{line_text};
ghost use Rattle.script_runs.specs.Runs.{text_of};

use crate::reader::ScriptLine;
use crate::runs::outcome::{Ran, RunEnd};
use itoa::Buffer;
use std::alloc::{AllocError, Global};

/// All that a run prints: a line for each line of the script that is refused, and then the report, where it has one.
///
/// # Errors
/// The call failed to allocate.
pub fn run_text<H>(alloc: Global, ran: &Ran<H>) -> Result<Vec<u8>, AllocError>
    ensures { IfOk result (λ text. text.items ≡ text_of ran.now) }
{
    let mut text = Vec::new(alloc);
    for line in &ran.printed {
        push_line(&mut text, *line)?;
    }
    if let RunEnd::Report {
        text: report,
        traces: _,
    } = &ran.end
    {
        text.extend_from_slice(report)?;
    }
    Ok(text)
}

// The text of one line.
fn push_line(text: &mut Vec<u8>, line: ScriptLine) -> Result<(), AllocError>
    ensures { OnOk result (text.new.items ≡ text.old.items ++ line_text line) }
{
    let (word, number) = match line {
        ScriptLine::Miss { line } => ("miss ", line),
        ScriptLine::Refused { line } => ("refused ", line),
    };
    text.extend_from_slice(word.as_bytes())?;
    text.extend_from_slice(Buffer::new().format(number).as_bytes())?;
    text.push(b'\n')?;
    Ok(())
}
