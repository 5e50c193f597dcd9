//! What a check of a whole script finds.
ghost use Rattle.std.specs.Prelude.{◌≡◌, ◌≤◌, ◌++◌, length, IfOk, OnOk};
ghost use Rattle.std.specs.String.{string_bytes};
ghost use Rattle.stream_script.specs.declared.parser.limits.TheConstants.{MOST_SCRIPT_BYTES};
ghost use Rattle.stream_script.specs.Lines.{lines_of};
ghost use Rattle.script_checker.specs.Checks.{parsed_of};
ghost use Rattle.script_checker.specs.Scripts.{HasFound, fault_line, fault_lines, findings_text, noted_in, placed_in};

use crate::line::{Checked, LineFault, check_line};
use crate::summary::Summary;
use std::alloc::{AllocError, Global};
use stream_script::{Lines, Mode};

/// What a check of a script has found.
#[derive(Debug, Drop)]
pub struct Findings<'a> {
    /// The faults, in the order of their lines.
    pub faults: Vec<LineFault<'a>>,
    /// What stands in the lines without a fault.
    pub summary: Summary,
}

impl Findings<'_> {
    /// The text of a check: a line for each fault, with its hint on a line of its own, or the text of the summary where
    /// there is none.
    ///
    /// # Errors
    /// The call failed to allocate.
    pub fn text(&self, alloc: Global) -> Result<String, AllocError>
        ensures { IfOk result (λ text. string_bytes text ≡ findings_text self.now.faults.items self.now.summary) }
    {
        if self.faults.is_empty() {
            return self.summary.text(alloc);
        }
        let mut text = String::new(alloc);
        push_faults(&self.faults, &mut text)?;
        Ok(text)
    }
}

impl<'a> Findings<'a> {
    /// Adds what a line is.
    fn add(&mut self, checked: Checked<'a>) -> Result<(), AllocError>
        ensures faults { OnOk result (self.new.faults.items ≡ self.old.faults.items ++ placed_in checked.entry) }
        ensures summary { OnOk result (self.new.summary ≡ noted_in self.old.summary (parsed_of checked.entry)) }
    {
        match checked {
            Checked::Skip => {}
            Checked::Command(command) => self.summary.note(&command)?,
            Checked::Fault(fault) => self.faults.push(fault)?,
        }
        Ok(())
    }
}

/// Appends the lines of faults.
fn push_faults(faults: &[LineFault<'_>], text: &mut String) -> Result<(), AllocError>
    ensures { OnOk result (string_bytes text.new ≡ string_bytes text.old ++ fault_lines faults.now) }
{
    for fault in faults {
        push_fault(fault, text)?;
    }
    Ok(())
}

/// Appends the lines of a fault.
fn push_fault(fault: &LineFault<'_>, text: &mut String) -> Result<(), AllocError>
    ensures { OnOk result (string_bytes text.new ≡ string_bytes text.old ++ fault_line fault.now) }
{
    write!(text, "{fault}\n")
}

/// Checks each line of a script, as a simulation or a run on so many queues would read it. A fault doesn't end the check,
/// where it would end that.
///
/// # Errors
/// The call failed to allocate.
pub fn check_script<'a>(
    alloc: Global,
    script: &'a [u8],
    queues: usize,
    mode: Mode,
) -> Result<Findings<'a>, AllocError>
    requires queues { 1 ≤ queues }
    requires short { length script.now ≤ MOST_SCRIPT_BYTES }
    ensures { IfOk result (HasFound queues mode (lines_of script.now)) }
{
    let mut findings = Findings {
        faults: Vec::new(alloc),
        summary: Summary::new(alloc, queues),
    };
    let mut lines = Lines::of(script);
    let mut number = 0;
    while let Some(line) = lines.next_line() {
        number += 1;
        findings.add(check_line(alloc, line, number, queues, mode)?)?;
    }
    Ok(findings)
}
