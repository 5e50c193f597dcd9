//! Measures how long a service takes from the first publish until each event is handled and its turn committed.
use crate::consumers::{Consumers, Handled};
use crate::load::{BATCH, Load};
use crate::tally::Tally;
use crate::words::{has, read_numbers};
use crate::work::steps_of;
use anyhow::{Result, ensure};
use std::alloc::Global;
use std::time::{Duration, Instant};
use streams::Host;

/// What is published where nothing is measured.
const FEW: Load = Load {
    silos: 2,
    queues: 4,
    bytes: 20,
    consumers: 10,
    batches: 20,
    batch: BATCH,
    handler: 0,
    skewed: false,
};

/// What the words say, by numbers in the order of `time throughput`. Where one is missing, it is that of a load of
/// 256,000 events to 100 consumers on two silos and 16 queues.
fn load_of(words: &[String]) -> Load {
    let mut numbers = [2, 16, 20, 100, 40, 0];
    read_numbers(words, &mut numbers);
    let [silos, queues, bytes, consumers, rounds, handler] = numbers;
    Load {
        silos: silos.min(16) as u8,
        queues: queues as usize,
        bytes: bytes as usize,
        consumers: consumers as usize,
        batches: consumers.saturating_mul(rounds) as usize,
        batch: BATCH,
        handler,
        skewed: has(words, "skewed"),
    }
}

/// Prints how many events were handled, and in how many seconds.
pub fn time<R: Host>(rt: &R, alloc: Global, words: &[String]) -> Result<()> {
    let load = load_of(words);
    let (time, _handled) = run(rt, alloc, &load)?;
    let (events, seconds) = (load.events(), time.as_secs_f64());
    println!(rt; "{events} events in {seconds:.6} seconds")?;
    Ok(())
}

/// Sees that each event is handled once, whatever the handler takes and where one stream has half of them, and that a
/// difference is told.
pub fn check<R: Host>(rt: &R, alloc: Global) -> Result<()> {
    let (_time, handled) = run(rt, alloc, &FEW)?;
    let calls = handled.calls.saturating_sub(1);
    let lines = handled.lines.saturating_add(1);
    let is_told = !Handled { calls, ..handled }.agrees(&FEW)
        && !Handled { lines, ..handled }.agrees(&FEW);
    ensure!(is_told, "another number was taken for the same");
    run(rt, alloc, &Load { handler: 1, ..FEW })?;
    run(rt, alloc, &Load { handler: 10, ..FEW })?;
    let skewed = Load {
        skewed: true,
        ..FEW
    };
    run(rt, alloc, &skewed)?;
    ensure!(
        !handled.agrees(&skewed),
        "an even load was taken for a skewed one"
    );
    println!(rt; "each event that was published is handled once")?;
    Ok(())
}

/// Opens a service, publishes all to it, and closes it when each event is handled: the time from the first publish until
/// all queues were quiet, and what was handled, which has to be each event once.
pub fn run<R: Host>(rt: &R, alloc: Global, load: &Load) -> Result<(Duration, Handled)> {
    let tally = Tally::new(*rt, alloc, steps_of(rt, load.handler)?, 0)?;
    let mut consumers = Consumers::open(rt, alloc, load, tally)?;
    let payloads = load.payloads(alloc)?;
    let start = Instant::now(rt)?;
    for batch in 0..load.batches {
        consumers.publish(load.stream_of(batch), &payloads)?;
    }
    consumers.settle(load.events())?;
    let time = start.elapsed(rt)?;
    let handled = consumers.close(alloc)?;
    ensure!(handled.agrees(load), "not each event is handled once");
    Ok((time, handled))
}
