//! What lines are read as.
use crate::rows::assert_line;
use std::alloc::{AllocError, Global};
use std::process::Abort;
use std::test::Fail;
use stream_script::{Fault, FaultKind, Mode, Parsed, parse_line};

/// Lines of a script that is simulated on one queue, and how the command that each reads as is printed.
static COMMANDS: &[(&str, &str)] = &[
    (
        r#"pub o/k"#,
        "Command(Step { queue: 0, op: Publish { stream: StreamId { namespace: o, key: k }, payloads: Batch { payloads: [] } } })",
    ),
    (
        r#"  pub   o/k "a\"b\\c"  "" "#,
        r#"Command(Step { queue: 0, op: Publish { stream: StreamId { namespace: o, key: k }, payloads: Batch { payloads: [a"b\c, ] } } })"#,
    ),
    (
        "sub o/k g/x latest",
        "Command(Step { queue: 0, op: Subscribe { stream: StreamId { namespace: o, key: k }, grain: GrainId { kind: g, key: x }, start: Latest } })",
    ),
    (
        "sub o/k g/x from 7.2",
        "Command(Step { queue: 0, op: Subscribe { stream: StreamId { namespace: o, key: k }, grain: GrainId { kind: g, key: x }, start: At(Token { seq: 7, idx: 2 }) } })",
    ),
    (
        "pull 0 18446744073709551615 4294967295",
        "Command(Step { queue: 0, op: Pull { generation: 18446744073709551615, max: 4294967295 } })",
    ),
    (
        "deliver 3 0:1",
        "Command(Step { queue: 0, op: Deliver { generation: 3, sub: Explicit(1) } })",
    ),
    (
        "deliver 3 0:g@o/k",
        "Command(Step { queue: 0, op: Deliver { generation: 3, sub: Implicit { kind: g, stream: StreamId { namespace: o, key: k } } } })",
    ),
    (
        "begin 0 g/x",
        "Command(Step { queue: 0, op: Begin { grain: GrainId { kind: g, key: x }, max: 1 } })",
    ),
    (
        "begin 0 g/x 0",
        "Command(Step { queue: 0, op: Begin { grain: GrainId { kind: g, key: x }, max: 0 } })",
    ),
    (
        "commit 0 g/x 1 2 9",
        "Command(Step { queue: 0, op: Commit { grain: GrainId { kind: g, key: x }, activation: 1, turn: 2, note: 9 } })",
    ),
    (
        "unsub 0:2",
        "Command(Step { queue: 0, op: Unsubscribe { sub: Explicit(2) } })",
    ),
    (
        "retry 3 0:1",
        "Command(Step { queue: 0, op: Retry { generation: 3, sub: Explicit(1) } })",
    ),
    (
        "ack 3 0:1 7.2",
        "Command(Step { queue: 0, op: Ack { generation: 3, sub: Explicit(1), token: Token { seq: 7, idx: 2 } } })",
    ),
    (
        "purge 0 3 4294967295",
        "Command(Step { queue: 0, op: Purge { generation: 3, keep: 4294967295 } })",
    ),
    (
        "move 0 15",
        "Command(Step { queue: 0, op: Move { silo: 15 } })",
    ),
    (
        "deactivate 0 g/x",
        "Command(Step { queue: 0, op: Deactivate { grain: GrainId { kind: g, key: x } } })",
    ),
    (
        "ready 0",
        "Command(Step { queue: 0, op: Ready { after: None } })",
    ),
    (
        "ready 0 g/x",
        "Command(Step { queue: 0, op: Ready { after: Some(GrainId { kind: g, key: x }) } })",
    ),
    (
        "due 0",
        "Command(Step { queue: 0, op: Due { after: None } })",
    ),
    (
        "due 0 0:1",
        "Command(Step { queue: 0, op: Due { after: Some(Explicit(1)) } })",
    ),
    ("rule g o", "Command(Each(Rule { kind: g, namespace: o }))"),
    ("quiet", "Command(Each(Quiet))"),
    ("report", "Command(Report)"),
    ("drain", "Command(Drain)"),
];

/// Lines of a script that is run, and how what each reads as is printed.
static RUN_COMMANDS: &[(&str, &str)] = &[
    ("up 15", "Command(Up { silo: 15 })"),
    (" down 0 ", "Command(Down { silo: 0 })"),
    ("drain", "Command(Drain)"),
    (
        "pub o/k",
        "Command(Step { queue: 0, op: Publish { stream: StreamId { namespace: o, key: k }, payloads: Batch { payloads: [] } } })",
    ),
    (
        "sub o/k g/x latest",
        "Command(Step { queue: 0, op: Subscribe { stream: StreamId { namespace: o, key: k }, grain: GrainId { kind: g, key: x }, start: Latest } })",
    ),
    (
        "unsub 0:1",
        "Command(Step { queue: 0, op: Unsubscribe { sub: Explicit(1) } })",
    ),
    ("rule g o", "Command(Each(Rule { kind: g, namespace: o }))"),
    ("", "Skip"),
    ("   ", "Skip"),
    ("#", "Skip"),
    ("# pub", "Skip"),
    ("#\tpub \"", "Skip"),
    ("#pub o/k \"a\"", "Skip"),
];

/// What a line of a script on one queue is read as, printed.
fn shown(alloc: Global, line: &str, mode: Mode) -> Result<String, AllocError> {
    let parsed = parse_line(alloc, line.as_bytes(), 7, 1, mode)?;
    format!(in alloc; "{parsed:?}")
}

fn check_commands(
    rt: &impl Abort,
    alloc: Global,
    mode: Mode,
    rows: &[(&str, &str)],
) -> Result<(), AllocError> {
    for (line, wanted) in rows {
        assert_line(rt, line, shown(alloc, line, mode)?.as_str() == *wanted);
    }
    Ok(())
}

#[test]
fn commands(rt: HostRuntime) -> Result<(), Fail> {
    check_commands(&rt, rt.alloc(), Mode::Sim, COMMANDS)?;
    check_commands(&rt, rt.alloc(), Mode::Run, RUN_COMMANDS)?;
    Ok(())
}

/// Faults, and lines of a script that is run which have them.
static RUN_FAULTS: &[(FaultKind, &str)] = &[
    (
        FaultKind::WordCount,
        "up\n\
         down 1 2\n\
         up \"1\"",
    ),
    (
        FaultKind::BadNumber,
        "down 16\n\
         up 01",
    ),
    (
        FaultKind::NotInRun,
        "pull 0 0 32\n\
         deliver\n\
         begin \"0\"\n\
         report\n\
         due 9",
    ),
];

/// Whether a line of a script that is run on one queue has such a fault.
fn is_faulty(alloc: Global, line: &str, kind: FaultKind) -> Result<bool, AllocError> {
    let parsed = parse_line(alloc, line.as_bytes(), 7, 1, Mode::Run)?;
    Ok(is_fault(&parsed, kind))
}

#[test]
fn faults_of_a_run(rt: HostRuntime) -> Result<(), Fail> {
    for (kind, lines) in RUN_FAULTS {
        for line in lines.lines() {
            assert_line(&rt, line, is_faulty(rt.alloc(), line, *kind)?);
        }
    }
    Ok(())
}

/// Whether this is such a fault of the seventh line.
fn is_fault(parsed: &Parsed, kind: FaultKind) -> bool {
    match parsed {
        Parsed::Fault(fault) => *fault == Fault { line: 7, kind },
        _ => false,
    }
}
