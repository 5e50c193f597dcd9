//! Measures `step_core::Partition`: what an event or an operation costs, and how many times that of a case of a tenth
//! of the size.
mod asking;
mod cases;
mod feeding;

use crate::partition::asking::ask_in_turn;
use crate::partition::cases::{BLOCKS, CASES, Case, Work};
use crate::partition::feeding::{deliver_each, publish_all, pull_all, subscribe_all};
use anyhow::{Result, bail, ensure};
use std::alloc::Global;
use std::num::nearest_usize_to_f64;
use std::rt::Clock;
use std::time::Instant;
use step_core::Partition;
use stream_ident::GrainId;
use stream_model::{DrainEnd, Limits};

/// How many streams a drain has, each with a consumer.
const CONSUMERS: usize = 8;

/// Prints what each case costs.
pub fn time<R: Print + Clock>(rt: &R, alloc: Global) -> Result<()> {
    for case in &CASES {
        let (sizes, sums) = (case.sizes, case.sums);
        let mut smaller = fastest(rt, alloc, case, sizes[0], sums[0])?;
        for place in 1..4 {
            let seconds = fastest(rt, alloc, case, sizes[place], sums[place])?;
            print_cost(rt, case, sizes[place], seconds, smaller)?;
            smaller = seconds;
        }
    }
    Ok(())
}

/// What an event or an operation costs, and how many times that at a tenth of the size.
fn print_cost(rt: &impl Print, case: &Case, size: usize, seconds: f64, smaller: f64) -> Result<()> {
    let (name, nanoseconds, ratio) = (case.name, seconds * 1e9, seconds / smaller);
    println!(rt; "{name} {size}: {nanoseconds:.0} ns, {ratio:.2} times a tenth")?;
    Ok(())
}

/// Sees that each case is answered as it has to be, in its smallest size, and that a difference is told: a case of
/// another size isn't taken for the same.
pub fn check<R: Print + Clock>(rt: &R, alloc: Global) -> Result<()> {
    for case in &CASES {
        let small = run(rt, alloc, case, case.sizes[0])?;
        let sums = case.sums;
        ensure!(agree(small, sums[0]), "an answer isn't what it has to be");
        let is_told = sums[0] == sums[1] || !agree(small, sums[1]);
        ensure!(is_told, "a larger case was taken for the same");
    }
    println!(rt; "each case is answered as it has to be")?;
    Ok(())
}

/// The time that an event or an operation took, and the sum of what was answered.
#[derive(Clone, Copy)]
struct Ran {
    seconds: f64,
    sum: u64,
}

/// Whether a run was answered what comes to this sum.
fn agree(ran: Ran, sum: u64) -> bool {
    ran.sum == sum
}

/// The seconds of an event or an operation in the fastest of several tries: 3 of the largest sizes, 20 of the
/// smallest. Each of them has to be answered what comes to this sum.
fn fastest<C: Clock>(clock: &C, alloc: Global, case: &Case, size: usize, sum: u64) -> Result<f64> {
    let mut best = f64::INFINITY;
    for _ in 0..(20_000 / size.max(1)).clamp(3, 20) {
        let ran = run(clock, alloc, case, size)?;
        ensure!(agree(ran, sum), "an answer isn't what it has to be");
        best = best.min(ran.seconds);
    }
    Ok(best)
}

/// Does a case once, with a partition of its own.
fn run<C: Clock>(clock: &C, alloc: Global, case: &Case, size: usize) -> Result<Ran> {
    let mut partition = Partition::new(alloc, BLOCKS, Limits::GREATEST)?;
    let (subs, streams, late) = match case.work {
        Work::Drain => (CONSUMERS, CONSUMERS, size),
        _ => (size, 1, case.late),
    };
    publish_all(&mut partition, alloc, case.early, 1)?;
    pull_all(&mut partition, alloc, case.early)?;
    let grains = subscribe_all(&mut partition, alloc, subs, streams)?;
    publish_all(&mut partition, alloc, late, streams)?;
    pull_all(&mut partition, alloc, case.pulled)?;
    if matches!(case.work, Work::Ready) {
        deliver_each(&mut partition, alloc, subs)?;
    }
    measure(clock, alloc, &mut partition, &grains, case, size)
}

/// Measures it, with a partition for which all is there.
fn measure<C: Clock>(
    clock: &C,
    alloc: Global,
    partition: &mut Partition,
    grains: &[GrainId],
    case: &Case,
    size: usize,
) -> Result<Ran> {
    let start = Instant::now(clock)?;
    let (sum, times) = match case.work {
        Work::Drain => (drain(partition, alloc)?, size),
        work => (
            ask_in_turn(partition, alloc, grains, work, case.times)?,
            case.times,
        ),
    };
    let seconds = start.elapsed(clock)?.as_secs_f64() / nearest_usize_to_f64(times);
    Ok(Ran { seconds, sum })
}

/// All events are handled, and the result is how many.
fn drain(partition: &mut Partition, alloc: Global) -> Result<u64> {
    match partition.drain(alloc)? {
        DrainEnd::Drained { turns } => Ok(turns as u64),
        _ => bail!("the drain ended early"),
    }
}
