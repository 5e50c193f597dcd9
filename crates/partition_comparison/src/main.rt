//! Runs the partition of `step_core` and the plain program of `partition_reference` beside each other, over long
//! pseudo-random lists of operations, and compares every reply.
#![tactic(auto)]

mod draws;
mod fault;
mod heard;
mod history;
mod kinds;
mod looks;
mod names;
mod options;
mod place;
mod side_by_side;
mod tally;

use crate::fault::Fault;
use crate::history::compare;
use crate::kinds::REPLIES;
use crate::options::parse;
use crate::tally::Tally;
use std::process::ExitCode;

/// Exit statuses: 0 no difference, 1 a difference, or one that wasn't told, 2 a faulty command line, 3 no
/// answer, since a call failed to allocate, or the output couldn't be written.
fn main(rt: HostRuntime) -> ExitCode {
    match run(&rt) {
        Ok(()) => ExitCode::SUCCESS,
        Err(fault) => fault.report(&rt),
    }
}

/// Compares what the command line asks for, and prints how often each reply came.
fn run(rt: &HostRuntime) -> Result<(), Fault> {
    let alloc = rt.alloc();
    let Ok(words) = std::env::args(rt) else {
        return Err(Fault::Memory);
    };
    let words: Vec<String> = words.skip(1).collect(alloc)?;
    let plan = parse(words.as_slice())?;
    let tally = compare(alloc, plan)?;
    report(rt, &tally)
}

/// Prints how often each reply came, and how many there were in all.
fn report<R: Print>(rt: &R, tally: &Tally) -> Result<(), Fault> {
    tally.print(rt)?;
    let kinds = tally.kinds();
    let total = tally.total();
    let all = REPLIES.len();
    println!(rt; "{kinds} of {all} kinds of reply came")?;
    println!(rt; "{total} operations, every reply the same")?;
    Ok(())
}
