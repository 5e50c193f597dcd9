//! Tries calls to which memory may be refused. It refuses none itself: that does whoever runs it.
//!
//! A word names a case, and another one says what came of it: `done`, nothing was refused; `refused`, memory was refused
//! to the call, and all was as it has to be; or `setup`, memory was refused to what stands before the call, behind a call
//! that was done, or to the loop of a silo. Else it says what isn't as it has to be, and the status is 1. Without words
//! all cases are tried, and each has a line with its name and what came of it. The line of a call that takes no memory
//! says so.
#![tactic(auto)]

mod calls;
mod came;
mod cases;
mod clusters;
mod partitions;
mod simulation;
mod trying;
mod turnstiles;

use crate::came::Stop;
use crate::cases::{CASES, try_case};
use std::process::ExitCode;
use streams::Host;

/// Status 0 where nothing is wrong.
fn main(rt: HostRuntime) -> ExitCode {
    let (text, status) = match try_words(rt) {
        Ok(()) => return ExitCode::SUCCESS,
        Err(Stop::Memory) => ("setup", ExitCode::SUCCESS),
        Err(Stop::Wrong(wrong)) => (wrong, ExitCode::FAILURE),
    };
    match println!(rt; "{text}") {
        Ok(()) => status,
        Err(_) => ExitCode::FAILURE,
    }
}

/// Tries the case that the command line names, or all.
fn try_words<R: Host>(rt: R) -> Result<(), Stop> {
    let words: Vec<String> = std::env::args(&rt)?.skip(1).collect(rt.alloc())?;
    match words.first() {
        Some(name) => try_named(rt, name.as_str()),
        None => try_all(rt),
    }
}

/// Tries the case with this name, and prints what came of it.
fn try_named<R: Host>(rt: R, name: &str) -> Result<(), Stop> {
    for case in &CASES {
        if case.name == name {
            let word = try_case(rt, case)?.word();
            println!(rt; "{word}")?;
            return Ok(());
        }
    }
    Err(Stop::Wrong("there is no such case"))
}

/// Tries each case, and prints its name and what came of it.
fn try_all<R: Host>(rt: R) -> Result<(), Stop> {
    for case in &CASES {
        print!(rt; "{} ", case.name)?;
        let word = try_case(rt, case)?.word();
        let memory = if case.takes_memory {
            ""
        } else {
            " without memory"
        };
        println!(rt; "{word}{memory}")?;
    }
    Ok(())
}
