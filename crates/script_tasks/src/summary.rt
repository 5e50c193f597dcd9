//! The text of a run, whole or without the lines of events.
ghost use Rattle.std.specs.Prelude.{◌≡◌, ◌++◌, IfOk, OnOk};
ghost use Rattle.script_tasks.specs.Printing.{is_event_line, kept_line, printed_text, without_events};

use std::alloc::{AllocError, Global};
use stream_script::Lines;

/// How much is printed of a run.
#[derive(Clone, Copy, Debug, PartialEq, Eq)]
pub enum Detail {
    /// All of its text.
    Events,
    /// Its text without the lines of events: the report tells how many events each subscription has handled.
    Counts,
}

/// What is printed of the text of a run.
pub(crate) fn printed(alloc: Global, detail: Detail, text: Vec<u8>) -> Result<Vec<u8>, AllocError>
    ensures { IfOk result (λ printed. printed.items ≡ printed_text detail text.items) }
{
    match detail {
        Detail::Events => Ok(text),
        Detail::Counts => without_events(alloc, &text),
    }
}

/// A text without the lines of events.
fn without_events(alloc: Global, text: &[u8]) -> Result<Vec<u8>, AllocError>
    ensures { IfOk result (λ kept. kept.items ≡ without_events text.now) }
{
    let mut kept = Vec::new(alloc);
    let mut lines = Lines::of(text);
    while let Some(line) = lines.next_line() {
        keep_line(line, &mut kept)?;
    }
    Ok(kept)
}

/// Appends a line and its line feed, where it isn't that of an event.
fn keep_line(line: &[u8], kept: &mut Vec<u8>) -> Result<(), AllocError>
    ensures { OnOk result (kept.new.items ≡ kept.old.items ++ kept_line line.now) }
{
    if is_event_line(line) {
        return Ok(());
    }
    kept.extend_from_slice(line)?;
    kept.push(b'\n')?;
    Ok(())
}

/// Whether a line is that of an event. No other line begins with a space.
fn is_event_line(line: &[u8]) -> bool
    ensures { result ≡ is_event_line line.now }
{
    match line {
        [] => false,
        [first, ..] => *first == b' ',
    }
}
