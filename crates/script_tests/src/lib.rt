//! The tests of scripts and of the program `streams`: what lines are read as, how replies read and under which queue
//! they stand, what comes of scripts that are cut off and of failing readers and writers, and limits that are reached;
//! and through the public calls of `script_tasks` what the words of a command line ask for, scripts in files, the
//! examples in its help, what runs on silos print, runs that meet a limit, traces that are simulated again, and the
//! text and the status of each fault. What whole scripts print is shown by `stream_examples`. They stand in a crate of
//! their own, since a crate with tests is proved twice.
#![tactic(auto)]

#[cfg(test)]
mod cuts;
#[cfg(test)]
mod ends;
#[cfg(test)]
mod examples;
#[cfg(test)]
mod faults;
#[cfg(test)]
mod files;
#[cfg(test)]
mod outputs;
#[cfg(test)]
mod parse;
#[cfg(test)]
mod queues;
#[cfg(test)]
mod reading;
#[cfg(test)]
mod rows;
#[cfg(test)]
mod scripts;
#[cfg(test)]
mod sim;
#[cfg(test)]
mod tasks;
#[cfg(test)]
mod texts;
#[cfg(test)]
mod traces;
#[cfg(test)]
mod transfers;
#[cfg(test)]
mod words;
