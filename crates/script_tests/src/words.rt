//! What the words of a command line ask for.
use crate::tasks::{Doing, task_of};
use script_tasks::parse_options;
use std::alloc::{AllocError, Global};
use std::test::Fail;

/// What a command line asks for: what is done, the file or a dash, and how many queues, blocks and silos.
type Asked = (Doing, &'static str, u32, u32, u32);

static ASKED: [(&[&str], Asked); 18] = [
    (&["streams"], (Doing::Simulating, "-", 1, 4, 1)),
    (&["streams", "sim"], (Doing::Simulating, "-", 1, 4, 1)),
    (
        &["streams", "sim", "a b"],
        (Doing::Simulating, "a b", 1, 4, 1),
    ),
    (
        &["streams", "sim", "--queues", "64"],
        (Doing::Simulating, "-", 64, 4, 1),
    ),
    (
        &["streams", "sim", "--blocks=64", "f"],
        (Doing::Simulating, "f", 1, 64, 1),
    ),
    (
        &["streams", "sim", "f", "--queues", "2", "--blocks", "1"],
        (Doing::Simulating, "f", 2, 1, 1),
    ),
    (&["streams", "run"], (Doing::Running, "-", 1, 4, 1)),
    (&["streams", "run", "run"], (Doing::Running, "run", 1, 4, 1)),
    (
        &["streams", "run", "--silos", "16"],
        (Doing::Running, "-", 1, 4, 16),
    ),
    (
        &["streams", "run", "--silos=3", "--queues=4", "f"],
        (Doing::Running, "f", 4, 4, 3),
    ),
    (
        &["streams", "run", "--blocks", "1", "-"],
        (Doing::Running, "-", 1, 1, 1),
    ),
    (&["streams", "trace"], (Doing::Tracing, "-", 1, 4, 1)),
    (
        &[
            "streams",
            "trace",
            "f",
            "--silos=3",
            "--queues=2",
            "--blocks=1",
        ],
        (Doing::Tracing, "f", 2, 1, 3),
    ),
    (
        &["streams", "run", "--summary", "f"],
        (Doing::Summarizing, "f", 1, 4, 1),
    ),
    (
        &["streams", "trace", "--busy"],
        (Doing::TracingBusy, "-", 1, 4, 1),
    ),
    (
        &["streams", "trace", "--queue=0", "--queues", "2"],
        (Doing::TracingQueue0, "-", 2, 4, 1),
    ),
    (&["streams", "check"], (Doing::Checking, "-", 1, 4, 1)),
    (
        &["streams", "check", "--run", "f", "--queues", "64"],
        (Doing::CheckingForARun, "f", 64, 4, 1),
    ),
];

/// Command lines that ask for no task, and the status that they end with.
static REFUSED: [(&[&str], i32); 31] = [
    (&["streams", "sim", "--queues", "0"], 2),
    (&["streams", "sim", "--queues", "65"], 2),
    (&["streams", "sim", "--blocks", "0"], 2),
    (&["streams", "sim", "--blocks", "four"], 2),
    (&["streams", "sim", "--blocks"], 2),
    (&["streams", "sim", "f", "g"], 2),
    (&["streams", "sim", "--silos", "2"], 2),
    (&["streams", "fly"], 2),
    (&["streams", "--help"], 0),
    (&["streams", "--version"], 0),
    (&["streams", "sim", "--help"], 0),
    (&["streams", "sim", "--version"], 2),
    (&["streams", "run", "--silos", "0"], 2),
    (&["streams", "run", "--silos", "17"], 2),
    (&["streams", "run", "--silos", "-1"], 2),
    (&["streams", "run", "--queues", "65"], 2),
    (&["streams", "run", "f", "g"], 2),
    (&["streams", "run", "--help"], 0),
    (&["streams", "trace", "--silos", "17"], 2),
    (&["streams", "trace", "--help"], 0),
    (&["streams", "trace", "--queue", "1"], 2),
    (&["streams", "trace", "--queue=2", "--queues=2"], 2),
    (&["streams", "trace", "--queue=64", "--queues=64"], 2),
    (&["streams", "trace", "--summary"], 2),
    (&["streams", "run", "--busy"], 2),
    (&["streams", "run", "--queue", "0"], 2),
    (&["streams", "sim", "--summary"], 2),
    (&["streams", "check", "--queues", "0"], 2),
    (&["streams", "check", "--silos", "2"], 2),
    (&["streams", "check", "--run", "f", "g"], 2),
    (&["streams", "check", "--help"], 0),
];

/// The words of a command line.
pub fn owned(alloc: Global, words: &[&str]) -> Result<Vec<String>, AllocError> {
    let mut owned = Vec::new(alloc);
    for word in words {
        owned.push(String::from_str(alloc, word)?)?;
    }
    Ok(owned)
}

/// Whether the words ask for this.
fn is_asked(alloc: Global, words: &[&str], asked: &Asked) -> Result<bool, AllocError> {
    let (doing, file, queues, blocks, silos) = *asked;
    let owned = owned(alloc, words)?;
    Ok(match parse_options(alloc, owned.as_slice()) {
        Ok(request) => {
            request.file.unwrap_or("-") == file
                && request.task == task_of(doing, queues, blocks, silos)
        }
        Err(_) => false,
    })
}

/// Whether the words ask for no task, and end with this status.
fn is_refused(alloc: Global, words: &[&str], status: i32) -> Result<bool, AllocError> {
    let owned = owned(alloc, words)?;
    Ok(match parse_options(alloc, owned.as_slice()) {
        Ok(_) => false,
        Err(error) => error.exit_code() == status,
    })
}

#[test]
fn words_ask_for_a_task(rt: HostRuntime) -> Result<(), Fail> {
    for (words, asked) in &ASKED {
        assert!(rt; is_asked(rt.alloc(), words, asked)?);
    }
    for (words, status) in &REFUSED {
        assert!(rt; is_refused(rt.alloc(), words, *status)?);
    }
    Ok(())
}
