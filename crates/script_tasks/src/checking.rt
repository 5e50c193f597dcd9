//! A script that is checked.
ghost use Rattle.std.specs.Prelude.{◌≡◌, ◌-◌, ◌^◌, ◌<◌, ◌≤◌, suc, IfSome, if◌then◌else◌};
ghost use Rattle.script_tasks.specs.Checking.{EndsCheck, PrintsCheck};
ghost use Rattle.script_tasks.specs.Printing.{is_unread};

use crate::fault::ProgramFault;
use crate::options::CheckConfig;
use crate::silos::write_text;
use script_checker::{LineFault, check_script};
use std::alloc::Global;
use std::io::Write;
use stream_script::{SimError, Source, read_script};

/// Checks each line of a script, and writes all faults, or what stands in a script without one.
///
/// # Errors
/// The first of these: a read failed, the script is too long, the check failed to allocate, a write failed, a line is
/// faulty. That is the first of the faults that were written.
pub fn check_source<R: Source, W: Write>(
    alloc: Global,
    config: CheckConfig,
    source: &mut R,
    sink: &mut W,
) -> Result<(), ProgramFault>
    requires config { 1 ≤ config.queues }
    requires count { R.failures source.old < 2 ^ 64 - 1 }
    // What was written, where the source's bytes are known.
    ensures written { IfSome (R.remaining source.old) (λ input.
        PrintsCheck config input (W.contents sink.old) (W.contents sink.new) result) }
    // A read fault comes only where the source counted a failed call.
    ensures counted { R.failures source.new ≡ (if is_unread result then suc (R.failures source.old) else R.failures source.old) }
{
    let script = read_script(alloc, source)?;
    let findings = check_script(alloc, &script, config.queues, config.mode)?;
    let text = findings.text(alloc)?;
    write_text(text.as_bytes(), sink)?;
    end_of(&findings.faults)
}

/// How a check ends that has found these faults.
fn end_of(faults: &[LineFault<'_>]) -> Result<(), ProgramFault>
    ensures { EndsCheck faults.now result }
{
    match faults {
        [] => Ok(()),
        [first, ..] => Err(ProgramFault::Script(SimError::ScriptFault(first.fault))),
    }
}
