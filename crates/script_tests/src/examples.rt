//! The examples in the help do what it says of them.
use crate::tasks::{Doing, task_of};
use script_tasks::{RUN_EXAMPLE, SIM_EXAMPLE, perform_task};
use std::alloc::{AllocError, Global};
use std::test::Fail;

/// The lines that stand four spaces in.
fn indented(alloc: Global, text: &str) -> Result<Vec<u8>, AllocError> {
    let mut lines = Vec::new(alloc);
    for line in text.lines() {
        if let Some(line) = line.strip_prefix("    ") {
            lines.extend_from_slice(line.as_bytes())?;
            lines.push(b'\n')?;
        }
    }
    Ok(lines)
}

/// Examples, the words that stand behind their scripts, and what is done with these on how many silos.
static EXAMPLES: [(&str, &str, Doing, u32); 2] = [
    (SIM_EXAMPLE, "Each command", Doing::Simulating, 1),
    (RUN_EXAMPLE, "The run then", Doing::Running, 2),
];

#[test]
fn the_examples_hold(rt: HostRuntime) -> Result<(), Fail> {
    let alloc = rt.alloc();
    for (text, behind, doing, silos) in &EXAMPLES {
        let Some((script, printed)) = text.split_once(*behind) else {
            return Err(Fail::from("no example"));
        };
        let (script, printed) = (indented(alloc, script)?, indented(alloc, printed)?);
        let mut text = Vec::new(alloc);
        let task = task_of(*doing, 1, 4, *silos);
        let outcome = perform_task(&rt, alloc, task, script.as_slice(), &mut text);
        assert!(rt; outcome.is_ok());
        assert!(rt; text.as_slice() == printed.as_slice());
    }
    Ok(())
}
