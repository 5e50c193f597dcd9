//! Whole scripts that are to be run: their lines, or their first fault.
use crate::rows::assert_at;
use script_runs::{Script, read_lines};
use std::alloc::Global;
use std::test::Fail;
use stream_script::{Command, Fault, FaultKind};

// Lines that say nothing are passed over, but counted.
#[test]
fn lines_have_their_numbers(rt: HostRuntime) -> Result<(), Fail> {
    let text = b"# a story\n\nsub o/x g/x latest\n  \r\npub o/x \"a\"\ndown 3";
    let Script::Lines(lines) = read_lines(rt.alloc(), text, 2)? else {
        return Err(Fail::from("a fault"));
    };
    let [first, second, third] = lines.as_slice() else {
        return Err(Fail::from("there are three lines"));
    };
    assert!(rt; first.number == 3);
    assert!(rt; matches!(first.command, Command::Step { .. }));
    assert!(rt; second.number == 5);
    assert!(rt; third.number == 6);
    assert!(rt; matches!(third.command, Command::Down { silo: 3 }));
    Ok(())
}

// Scripts, and the line and the kind of the first fault of each.
static FAULTS: [(&[u8], usize, FaultKind); 5] = [
    (b"quiet\nfly", 1, FaultKind::NotInRun),
    (b"drain\nreport\nfly", 2, FaultKind::NotInRun),
    (b"\nup 16\nquiet", 2, FaultKind::BadNumber),
    (b"unsub 2:1", 1, FaultKind::NoQueue),
    (b"# one\nrule g\x7f o", 2, FaultKind::BadByte),
];

fn first_fault(alloc: Global, text: &[u8]) -> Result<Fault, Fail> {
    if 100 < text.len() {
        return Err(Fail::from("the script is too long"));
    }
    match read_lines(alloc, text, 2)? {
        Script::Fault(fault) => Ok(fault),
        Script::Lines(_) => Err(Fail::from("there is a fault")),
    }
}

// Nothing is read past the first fault.
#[test]
fn the_first_fault(rt: HostRuntime) -> Result<(), Fail> {
    for (row, (text, line, kind)) in FAULTS.iter().enumerate() {
        let fault = first_fault(rt.alloc(), text)?;
        assert_at(&rt, row, fault.line == *line && fault.kind == *kind);
    }
    Ok(())
}

#[test]
fn a_script_may_be_empty(rt: HostRuntime) -> Result<(), Fail> {
    let Script::Lines(lines) = read_lines(rt.alloc(), b"", 1)? else {
        return Err(Fail::from("a fault"));
    };
    assert!(rt; lines.is_empty());
    Ok(())
}
