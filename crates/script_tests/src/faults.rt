//! What is told of each fault, and the status that the program ends with.
use crate::words::owned;
use script_runs::Unfinished;
use script_tasks::{ProgramFault, end, parse_options};
use std::alloc::Global;
use std::cell::Cell;
use std::fmt::Display;
use std::io::{self, ErrorKind};
use std::process::ExitCode;
use std::test::Fail;
use stream_script::{Fault, FaultKind, SimError};

/// How often something is printed.
#[derive(Clone, Copy, PartialEq, Eq)]
struct Prints {
    /// Calls that print the text that is waited for on standard error.
    told: u32,
    /// Other calls that print on standard error.
    other: u32,
    /// Calls that print on standard output.
    shown: u32,
}

/// Standard output and standard error of a program.
#[derive(Drop)]
struct Console<'a> {
    alloc: Global,
    /// The text that is waited for on standard error.
    text: &'a str,
    /// Whether nothing can be printed on standard output.
    is_closed: bool,
    prints: Cell<Prints>,
}

impl Console<'_> {
    fn show(&self) -> io::Result<()> {
        let prints = self.prints.get();
        self.prints.set(Prints {
            shown: prints.shown.saturating_add(1),
            ..prints
        });
        if self.is_closed {
            return Err(io::Error::from(ErrorKind::BrokenPipe));
        }
        Ok(())
    }

    fn tell(&self, text: &str) {
        let prints = self.prints.get();
        self.prints.set(if text == self.text {
            Prints {
                told: prints.told.saturating_add(1),
                ..prints
            }
        } else {
            Prints {
                other: prints.other.saturating_add(1),
                ..prints
            }
        });
    }
}

impl Print for Console<'_> {
    fn print<D: Display + Drop>(&self, _value: D) -> io::Result<()> {
        self.show()
    }

    fn println<D: Display + Drop>(&self, _value: D) -> io::Result<()> {
        self.show()
    }

    fn write_all(&self, _bytes: &[u8]) -> io::Result<()> {
        self.show()
    }
}

impl Eprint for Console<'_> {
    fn eprint<D: Display + Drop>(&self, value: D) -> io::Result<()> {
        let text = format!(in self.alloc; "{value}")?;
        self.tell(text.as_str());
        Ok(())
    }

    fn eprintln<D: Display + Drop>(&self, value: D) -> io::Result<()> {
        let text = format!(in self.alloc; "{value}\n")?;
        self.tell(text.as_str());
        Ok(())
    }
}

/// What is printed where the program ends with a fault, and the exit status.
fn reported(alloc: Global, fault: ProgramFault, text: &str, is_closed: bool) -> (Prints, ExitCode) {
    let console = Console {
        alloc,
        text,
        is_closed,
        prints: Cell::new(NOTHING),
    };
    let code = end(&console, &Err(fault));
    (console.prints.get(), code)
}

const NOTHING: Prints = Prints {
    told: 0,
    other: 0,
    shown: 0,
};

/// What is printed where a fault is told once on standard error, and nothing else is printed.
const TOLD_ONCE: Prints = Prints {
    told: 1,
    other: 0,
    shown: 0,
};

/// Whether the fault is told once, in this text, and ends with this status.
fn is_told(alloc: Global, fault: ProgramFault, text: &str, status: u8) -> bool {
    let own = fault.status();
    let (prints, code) = reported(alloc, fault, text, false);
    prints == TOLD_ONCE && code == ExitCode::from(status) && own == status
}

/// Faults of reading and writing and of lines, their texts, and the statuses that they end with.
static FAULTS: [(SimError, &str, u8); 5] = [
    (SimError::ReadFault, "streams: read fault\n", 3),
    (SimError::WriteFault, "streams: write fault\n", 3),
    (SimError::Memory, "streams: out of memory\n", 3),
    (
        SimError::ScriptFault(Fault {
            line: 0,
            kind: FaultKind::TooLong,
        }),
        "streams: line 0: too long\n",
        1,
    ),
    (
        SimError::ScriptFault(Fault {
            line: 2,
            kind: FaultKind::NotInRun,
        }),
        "streams: line 2: not in run\n",
        1,
    ),
];

#[test]
fn faults_of_a_script_are_told_once(rt: HostRuntime) {
    for (error, text, status) in &FAULTS {
        assert!(rt;
            is_told(rt.alloc(), ProgramFault::from(*error), text, *status),
            "{text}"
        );
    }
}

/// Why runs have no report, and their texts.
static UNFINISHED: [(Unfinished, &str); 3] = [
    (Unfinished::Limit, "streams: limit reached\n"),
    (Unfinished::RoundLimit, "streams: round limit\n"),
    (Unfinished::NotQuiet, "streams: not quiet\n"),
];

#[test]
fn runs_without_a_report_are_told_once(rt: HostRuntime) {
    for (why, text) in &UNFINISHED {
        assert!(rt;
            is_told(rt.alloc(), ProgramFault::Unfinished(*why), text, 4),
            "{text}"
        );
    }
}

/// Words, whether standard output is closed, what is printed on standard error or none where it is the text of the
/// mistake itself, what is printed, and the status.
static WORDS: [(&str, bool, Option<&str>, Prints, u8); 4] = [
    ("fly", false, None, TOLD_ONCE, 2),
    (
        "--help",
        false,
        None,
        Prints {
            told: 0,
            other: 0,
            shown: 1,
        },
        0,
    ),
    (
        "--version",
        false,
        None,
        Prints {
            told: 0,
            other: 0,
            shown: 1,
        },
        0,
    ),
    (
        "--help",
        true,
        Some("streams: write fault\n"),
        Prints {
            told: 1,
            other: 0,
            shown: 1,
        },
        3,
    ),
];

/// The fault of a command line with this word, which asks for no task.
fn fault_of(alloc: Global, word: &str) -> Result<ProgramFault, Fail> {
    let words = owned(alloc, &["streams", word])?;
    match parse_options(alloc, words.as_slice()) {
        Ok(_) => Err(Fail::from("a task")),
        Err(error) => Ok(ProgramFault::from(error)),
    }
}

#[test]
fn words_that_ask_for_no_task_are_told_once(rt: HostRuntime) -> Result<(), Fail> {
    let alloc = rt.alloc();
    for (word, is_closed, text, prints, status) in &WORDS {
        let fault = fault_of(alloc, word)?;
        let own = format!(in alloc; "{fault}")?;
        let text = match text {
            Some(text) => text,
            None => own.as_str(),
        };
        assert!(rt;
            reported(alloc, fault, text, *is_closed) == (*prints, ExitCode::from(*status)),
            "{word}"
        );
    }
    Ok(())
}
