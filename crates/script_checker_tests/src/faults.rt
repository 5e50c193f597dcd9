//! What is told of faulty lines.
use script_checker::{Checked, check_line};
use std::alloc::{AllocError, Global};
use std::process::Abort;
use std::test::Fail;
use stream_script::Mode;

/// Lines of a script that is simulated on two queues, and what is told of each as line 7.
static FAULTS: &[(&str, &str)] = &[
    (
        r#"pub orders/17 paid"#,
        "line 7, column 15: word count: \"paid\": the line is `pub STREAM TEXT ..`\n    hint: a text stands between quotes, as \"paid\"",
    ),
    (
        r#"pub "o k" "paid""#,
        "line 7, column 5: word count: \"o k\": the line is `pub STREAM TEXT ..`\n    hint: no quotes stand around a word",
    ),
    (
        "  drain  now",
        "line 7, column 10: word count: \"now\": the line is `drain`",
    ),
    (
        "unsub ",
        "line 7, column 7: word count: end of line: the line is `unsub SUB`",
    ),
    (
        "sub orders/17 clerk/17 latst",
        "line 7, column 24: bad command: \"latst\": a subscription starts with `latest`, or with `from` and a token\n    hint: write `latest`, or `from 0.0` to begin with the first event",
    ),
    (
        "sub orders/17 clerk/17 latest 7.2",
        "line 7, column 24: bad command: \"latest\": a subscription starts with `latest`, or with `from` and a token\n    hint: nothing stands behind `latest`",
    ),
    (
        "up 1",
        "line 7, column 1: not in sim: \"up\": this command stands only in a script that is run\n    hint: `streams run` knows `up` and `down`, and `streams sim` refuses them",
    ),
    (
        "rule clerk o!k",
        "line 7, column 12: bad name: \"o!k\": a name has 1 to 64 bytes of A-Z a-z 0-9 _ . -",
    ),
    (
        "sub orders clerk/17 latst",
        "line 7, column 5: bad name: \"orders\": a stream is two names with a slash between them, each of 1 to 64 bytes of A-Z a-z 0-9 _ . -\n    hint: write NAMESPACE/KEY, as orders/17",
    ),
    (
        "pull 2 0 01",
        "line 7, column 6: no queue: \"2\": a queue is a number below that of the queues",
    ),
    (
        "due 0 1:3",
        "line 7, column 7: no queue: \"1:3\": the subscription is one of the queue in front of it",
    ),
    (
        "deliver 03 0:1",
        "line 7, column 9: bad number: \"03\": this number is below 2^64 and has no leading zeros",
    ),
    (
        "ack 0 0:1 7",
        "line 7, column 11: bad token: \"7\": a token is two numbers with a full stop between them\n    hint: write the number of a batch and the index in it, as 7.2",
    ),
    (
        r#"pub orders/17 "a" "b\n" "c""#,
        "line 7, column 19: bad text: \"b\\n\": a text begins and ends with a quote, with spaces around it\n    hint: inside a text write \\\" for a quote and \\\\ for a backslash",
    ),
    (
        "pub orders/17\t\"paid\"",
        "line 7, column 14: bad byte: byte 0x9: a line has printable ASCII alone, 0x20 to 0x7E\n    hint: write a space, and no tab",
    ),
    (
        r#"publish orders/17 "paid""#,
        "line 7, column 1: bad command: \"publish\": a line begins with a command\n    hint: the commands are pub, sub, unsub, rule, pull, deliver, retry, ack, purge, move, begin, commit, deactivate, ready, due, quiet, drain, report, up and down",
    ),
];

/// A line of a script that is run, and what is told of it.
static RUN_FAULT: (&str, &str) = (
    "pull 0 0 1",
    "line 7, column 1: not in run: \"pull\": this command stands only in a script that is simulated\n    hint: a script that is run has `pub`, `sub`, `unsub`, `rule`, `drain`, `up` and `down`",
);

/// What is told of a line of a script on two queues, or nothing where it has no fault.
fn told(alloc: Global, line: &[u8], mode: Mode) -> Result<String, AllocError> {
    match check_line(alloc, line, 7, 2, mode)? {
        Checked::Fault(fault) => format!(in alloc; "{fault}"),
        Checked::Command(_) | Checked::Skip => Ok(String::new(alloc)),
    }
}

fn check_faults(rt: &impl Abort, alloc: Global, rows: &[(&str, &str)]) -> Result<(), AllocError> {
    for (line, wanted) in rows {
        let text = told(alloc, line.as_bytes(), Mode::Sim)?;
        assert!(rt; text.as_str() == *wanted, "at {line}: {text}");
    }
    Ok(())
}

/// What is told of a line whose second text has a byte too many.
fn told_of_long(alloc: Global) -> Result<String, AllocError> {
    let mut line = Vec::from_slice(alloc, b"pub orders/17 \"a\" \"")?;
    for _ in 0..257 {
        line.push(b'x')?;
    }
    line.push(b'"')?;
    told(alloc, &line, Mode::Sim)
}

#[test]
fn faults(rt: HostRuntime) -> Result<(), Fail> {
    let alloc = rt.alloc();
    check_faults(&rt, alloc, FAULTS)?;
    let (line, wanted) = RUN_FAULT;
    assert!(rt; told(alloc, line.as_bytes(), Mode::Run)?.as_str() == wanted);
    let text = told_of_long(alloc)?;
    assert!(rt;
        text.as_str()
            .starts_with("line 7, column 19: bad text: \"xx"),
        "{text}"
    );
    assert!(rt;
        text.as_str().ends_with("x\": a text has at most 256 bytes"),
        "{text}"
    );
    Ok(())
}
