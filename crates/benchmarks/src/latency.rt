//! Measures how long an event takes from its publish to the end of its handler, at a tenth of the events a second that
//! the same service handles where they are published without a pause.
use crate::consumers::Consumers;
use crate::load::Load;
use crate::tally::Tally;
use crate::throughput::run;
use crate::words::read_numbers;
use anyhow::{Result, bail, ensure};
use std::alloc::Global;
use std::num::{nearest_u64_to_f64, nearest_usize_to_f64};
use std::time::Duration;
use streams::Host;

/// How many times as long as without a pause the publishing takes.
const PAUSES: u32 = 10;

/// What is published where nothing is measured.
const FEW: Load = Load {
    silos: 2,
    queues: 4,
    bytes: 20,
    consumers: 10,
    batches: 200,
    batch: 1,
    handler: 0,
    skewed: false,
};

/// What the words say, by numbers in the order of `time latency`. Where one is missing, it is that of 10,000 events to
/// 100 consumers on two silos and 16 queues.
fn load_of(words: &[String]) -> Load {
    let mut numbers = [2, 16, 100, 10_000];
    read_numbers(words, &mut numbers);
    let [silos, queues, consumers, events] = numbers;
    Load {
        silos: silos.min(16) as u8,
        queues: queues as usize,
        consumers: consumers as usize,
        batches: events as usize,
        ..FEW
    }
}

/// What came of a run.
#[derive(Drop)]
struct Paced {
    /// The time from the first publish to the last.
    time: Duration,
    /// The nanoseconds that each event took, from the least on.
    latencies: Vec<u64>,
}

/// Prints the median of the latencies, the 99th of a hundred and the greatest.
pub fn time<R: Host>(rt: &R, alloc: Global, words: &[String]) -> Result<()> {
    let load = load_of(words);
    let paced = measure(rt, alloc, &load)?;
    let (events, latencies) = (load.events(), paced.latencies.as_slice());
    let rate = nearest_usize_to_f64(events) / paced.time.as_secs_f64();
    let median = microseconds(rank(latencies, 50));
    let high = microseconds(rank(latencies, 99));
    let greatest = microseconds(rank(latencies, 100));
    println!(rt;
        "{events} events, {rate:.0} a second: a median of {median:.1} microseconds, 99 of 100 within {high:.1}, all within {greatest:.1}"
    )?;
    Ok(())
}

/// Sees that each event is handled once and has a latency, and that a missing one is told.
pub fn check<R: Host>(rt: &R, alloc: Global) -> Result<()> {
    let paced = measure(rt, alloc, &FEW)?;
    ensure!(
        paced.latencies.len() == FEW.events(),
        "an event has no latency"
    );
    let unhandled = Tally::new(*rt, alloc, 0, 1)?;
    ensure!(
        unhandled.latencies(alloc).is_err(),
        "an event that isn't handled has a latency"
    );
    let numbers = [1, 2, 3, 4];
    let is_ranked = rank(&numbers, 50) == 2 && rank(&numbers, 99) == 4 && rank(&numbers, 100) == 4;
    ensure!(is_ranked, "another number is the median");
    println!(rt; "each event that was published at its time has a latency")?;
    Ok(())
}

/// Publishes all without a pause, and then, to another service, with pauses.
fn measure<R: Host>(rt: &R, alloc: Global, load: &Load) -> Result<Paced> {
    let (time, _handled) = run(rt, alloc, load)?;
    let events = u32::try_from(load.events())?;
    let Some(interval) = time.saturating_mul(PAUSES).checked_div(events) else {
        bail!("there are no events");
    };
    pace(rt, alloc, load, interval)
}

/// Publishes an event at each of even times. Each has to be handled once.
fn pace<R: Host>(rt: &R, alloc: Global, load: &Load, interval: Duration) -> Result<Paced> {
    let tally = Tally::new(*rt, alloc, 0, load.events())?;
    let mut consumers = Consumers::open(rt, alloc, load, tally)?;
    let start = consumers.tally.now()?;
    let mut due = start;
    for batch in 0..load.batches {
        consumers.tally.pause_until(due)?;
        let payload = consumers.tally.stamp(alloc)?;
        consumers.publish(load.stream_of(batch), &[payload])?;
        due = due.saturating_add(interval);
    }
    let time = consumers.tally.now()?.saturating_sub(start);
    consumers.settle(load.events())?;
    let latencies = consumers.tally.latencies(alloc)?;
    let handled = consumers.close(alloc)?;
    ensure!(handled.agrees(load), "not each event is handled once");
    Ok(Paced { time, latencies })
}

/// The least of these numbers, which are in order, that so many of a hundred of them don't exceed.
fn rank(numbers: &[u64], hundredths: usize) -> u64 {
    let count = numbers.len().saturating_mul(hundredths).div_ceil(100);
    match numbers.get(count.saturating_sub(1)) {
        Some(number) => *number,
        None => 0,
    }
}

fn microseconds(nanoseconds: u64) -> f64 {
    nearest_u64_to_f64(nanoseconds) / 1e3
}
