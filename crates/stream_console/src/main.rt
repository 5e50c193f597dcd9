//! The program `streams`: it does a script of producers, consumers and operator steps, on one thread or on silos in
//! threads, and prints what comes of it.
#![tactic(auto)]

use script_tasks::{Terminals, perform};
use std::io::IsTerminal;
use std::process::ExitCode;

fn main(rt: HostRuntime) -> ExitCode {
    let terminals = Terminals {
        output: rt.stdout().is_terminal(),
        error: rt.stderr().is_terminal(),
    };
    perform(&rt, terminals)
}
