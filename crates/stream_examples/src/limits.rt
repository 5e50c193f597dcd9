//! Simulates scripts that go to the limits of a partition, and counts the lines of their replies. Grains subscribe as
//! often as they may, and a rule does so for as many streams.
//!
//! No clause can say that memory is there. Here it is, and so a simulation that fails to allocate ends the program with a
//! fault.
ghost use Rattle.std.specs.Prelude.{◌≤◌};
ghost use Rattle.stream_ident.specs.declared.limits.TheConstants.{MOST_BLOCKS, MOST_QUEUES};
ghost use Rattle.stream_script.specs.Simulation.{IsSimConfig};

use anyhow::{Result, ensure};
use std::alloc::{AllocError, Global};
use stream_model::Limits;
use stream_script::{Counted, SimConfig, sim};

/// Simulates each script, and prints how many lines it is answered with.
pub fn print_all<R: Print>(rt: &R, alloc: Global) -> Result<()> {
    print_lines(
        rt,
        alloc,
        "10,000 grains",
        sim_config(1, 4),
        &many_grains(alloc)?,
    )?;
    print_lines(
        rt,
        alloc,
        "10,000 streams with a rule",
        sim_config(1, 4),
        &many_streams(alloc)?,
    )?;
    print_lines(
        rt,
        alloc,
        "a cache of 64 blocks",
        sim_config(1, 64),
        &large_cache(alloc)?,
    )?;
    print_lines(
        rt,
        alloc,
        "64 queues",
        sim_config(64, 1),
        &many_queues(alloc)?,
    )
}

/// A simulation of so many queues, each with a cache of so many blocks.
fn sim_config(queues: usize, blocks: usize) -> SimConfig
    requires some_queues { 1 ≤ queues }
    requires queues { queues ≤ MOST_QUEUES }
    requires some_blocks { 1 ≤ blocks }
    requires blocks { blocks ≤ MOST_BLOCKS }
    ensures { IsSimConfig result }
{
    SimConfig {
        queues,
        blocks,
        limits: Limits::GREATEST,
    }
}

/// Ten thousand grains that follow one stream, and two events for each of them.
fn many_grains(alloc: Global) -> Result<Vec<u8>, AllocError> {
    let mut script = Vec::new(alloc);
    for key in 0..10_000 {
        script.extend_from_slice(format!(in alloc; "sub o/k g/{key} latest\n")?.as_bytes())?;
    }
    script.extend_from_slice(b"pub o/k \"a\"\npub o/k \"b\"\ndrain\nreport\n")?;
    Ok(script)
}

/// A rule, and ten thousand streams with an event each, so that it makes a subscription for each.
fn many_streams(alloc: Global) -> Result<Vec<u8>, AllocError> {
    let mut script = Vec::new(alloc);
    script.extend_from_slice(b"rule g o\n")?;
    for key in 0..10_000 {
        script.extend_from_slice(format!(in alloc; "pub o/{key} \"a\"\n")?.as_bytes())?;
    }
    script.extend_from_slice(b"drain\nreport\n")?;
    Ok(script)
}

/// A log of 157 batches of 64 events, of which the cache takes 4,096 while nobody follows; a full mailbox, and
/// a turn of sixteen.
fn large_cache(alloc: Global) -> Result<Vec<u8>, AllocError> {
    let mut script = Vec::new(alloc);
    script.extend_from_slice(b"sub o/k g/x latest\n")?;
    for _ in 0..157 {
        script.extend_from_slice(b"pub o/k")?;
        for _ in 0..64 {
            script.extend_from_slice(b" \"e\"")?;
        }
        script.extend_from_slice(b"\n")?;
    }
    for _ in 0..17 {
        script.extend_from_slice(b"pull 0 0 256\ndeliver 0 0:1\n")?;
    }
    script.extend_from_slice(b"begin 0 g/x 16\ncommit 0 g/x 1 1 7\ndrain\nreport\n")?;
    Ok(script)
}

/// A thousand streams on 64 queues, each with a grain and an event.
fn many_queues(alloc: Global) -> Result<Vec<u8>, AllocError> {
    let mut script = Vec::new(alloc);
    for key in 0..1000 {
        let line = format!(in alloc; "sub o/{key} g/{key} latest\npub o/{key} \"e\"\n")?;
        script.extend_from_slice(line.as_bytes())?;
    }
    script.extend_from_slice(b"quiet\ndrain\nquiet\nreport\n")?;
    Ok(script)
}

/// Simulates a script, and prints how many lines it is answered with.
fn print_lines<R: Print>(
    rt: &R,
    alloc: Global,
    name: &str,
    config: SimConfig,
    script: &[u8],
) -> Result<()>
    requires { IsSimConfig config }
{
    let mut source = Counted::new(script);
    let mut sink = Counted::new(Vec::new(alloc));
    let outcome = sim(alloc, config, &mut source, &mut sink);
    ensure!(outcome.is_ok(), "the simulation failed");
    let lines = count_lines(sink.into_inner().as_slice());
    println!(rt; "{name}: {lines} lines")?;
    Ok(())
}

fn count_lines(text: &[u8]) -> usize {
    text.iter().filter(|byte| **byte == b'\n').count()
}
