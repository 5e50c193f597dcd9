//! A service that watches 600 devices, on four silos over sixteen queues.
mod monitors;
mod service;
mod story;

use anyhow::Result;
use monitors::{Monitors, tenths_of};
use service::{DeviceService, Totals};
use std::alloc::{AllocError, Global};
use std::sync::Arc;
use story::{DEVICES, STORY, Step};
use streams::{Host, Partition, SubSummary};

// A reading above this is an alarm, in tenths of a degree.
const LIMIT: u64 = 895;

/// Has all devices send two readings each while a silo goes, and prints figures where all are handled, what each queue
/// has handled and which devices are too hot.
pub fn run<R: Host + Print>(rt: R) -> Result<()> {
    let alloc = rt.alloc();
    let monitors = Arc::new(alloc, Monitors::new(alloc, DEVICES)?)?;
    let service = DeviceService::open(rt, Arc::try_clone(&monitors)?)?;
    let partitions = watch(&rt, service)?;
    println!(rt; "queue  silo  monitors  readings  highest")?;
    for (queue, partition) in partitions.iter().enumerate() {
        print_row(&rt, alloc, queue, partition)?;
    }
    for device in 0..DEVICES {
        print_alarm(&rt, device, monitors.highest(device))?;
    }
    Ok(())
}

// All devices send two readings each. It gives the partition of each queue.
fn watch<R: Host + Print>(rt: &R, mut service: DeviceService<R>) -> Result<Vec<Partition>> {
    for (step, told) in &STORY {
        service.go(step)?;
        print!(rt; "{told}")?;
        if let Step::Settle = step {
            print_totals(rt, &mut service)?;
        }
    }
    service.close()
}

// Prints what all queues keep together.
fn print_totals<R: Host + Print>(rt: &R, service: &mut DeviceService<R>) -> Result<()> {
    let Totals {
        events,
        subscriptions,
        moves,
    } = service.totals();
    println!(rt; "events  subscriptions  moves")?;
    println!(rt; "{events:>6} {subscriptions:>14} {moves:>6}")?;
    Ok(())
}

// Prints the silo of a queue, and what its subscriptions have handled.
fn print_row(rt: &impl Print, alloc: Global, queue: usize, partition: &Partition) -> Result<()> {
    let (_generation, silo) = partition.agent();
    let subs = partition.subs(alloc)?;
    let (readings, highest) = sum_up(alloc, partition, &subs)?;
    let monitors = subs.len();
    let (degrees, tenths) = (highest / 10, highest % 10);
    println!(rt; "{queue:>5} {silo:>5} {monitors:>9} {readings:>9} {degrees:>6}.{tenths}")?;
    Ok(())
}

// How many readings these subscriptions have handled, and the highest of them.
fn sum_up(
    alloc: Global,
    partition: &Partition,
    subs: &[SubSummary],
) -> Result<(usize, u64), AllocError> {
    let mut readings = 0usize;
    let mut highest = 0u64;
    for sub in subs {
        let events = partition.handled(alloc, &sub.name)?;
        readings = readings.saturating_add(events.len());
        for event in &events {
            highest = highest.max(tenths_of(event).unwrap_or(0));
        }
    }
    Ok((readings, highest))
}

// Prints whether a device has sent a reading above the limit.
fn print_alarm(rt: &impl Print, device: usize, highest: u64) -> Result<()> {
    if highest > LIMIT {
        println!(rt;
            "alarm: device {device} has {}.{}",
            highest / 10,
            highest % 10
        )?;
    }
    Ok(())
}
