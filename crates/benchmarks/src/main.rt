//! Measures a partition, how many events a service handles in a second, and how long one of them takes.
//!
//! Without a word on the command line it only sees that a partition and a service answer as they have to. With the word
//! `time` it prints figures: of what the words `partition`, `throughput` and `latency` name, or of all.
#![tactic(auto)]

mod consumers;
mod latency;
mod load;
mod partition;
mod tally;
mod throughput;
mod words;
mod work;

use crate::words::has;
use anyhow::Result;
use std::alloc::Global;
use streams::Host;

fn main(rt: HostRuntime) -> Result<()> {
    let alloc = rt.alloc();
    let words: Vec<String> = std::env::args(&rt)?.skip(1).collect(alloc)?;
    if has(&words, "time") {
        time(&rt, alloc, &words)
    } else {
        check(&rt, alloc)
    }
}

/// Sees that all is answered as it has to be.
fn check<R: Host>(rt: &R, alloc: Global) -> Result<()> {
    partition::check(rt, alloc)?;
    throughput::check(rt, alloc)?;
    latency::check(rt, alloc)
}

/// Prints the figures of what is named, or of all where the word `time` stands alone.
fn time<R: Host>(rt: &R, alloc: Global, words: &[String]) -> Result<()> {
    let is_all = words.len() == 1;
    if is_all || has(words, "partition") {
        partition::time(rt, alloc)?;
    }
    if is_all || has(words, "throughput") {
        throughput::time(rt, alloc, words)?;
    }
    if is_all || has(words, "latency") {
        latency::time(rt, alloc, words)?;
    }
    Ok(())
}
