//! A service with an archive that is stopped: its queue is pressed until the archive unsubscribes.
mod archive;

use anyhow::{Result, bail};
use archive::Archive;
use std::rt::Clock;
use std::sync::Arc;
use std::thread;
use std::time::Duration;
use streams::{Config, Encode, GrainId, Host, Service, StartFrom, StreamId, Subscription};

// How many readings each device sends. The cache of a queue keeps 64.
const READINGS: usize = 100;

// How often a figure is looked at before it is given up, once in a millisecond.
const MOST_LOOKS: u32 = 60_000;

/// Publishes more than a cache keeps, and prints figures while the archive is stopped and when it has unsubscribed.
pub fn run<R: Host + Clock + Print>(rt: R) -> Result<()> {
    let gate = Arc::new(rt.alloc(), Archive::new(rt))?;
    let config = Config {
        blocks: 1,
        ..Config::new(2, 1)
    };
    let mut service = Service::open(rt, &config, Arc::try_clone(&gate)?)?;
    let archive = subscribe(&mut service, b"archive", b"d1")?;
    let monitor = subscribe(&mut service, b"monitor", b"d1")?;
    let other = subscribe(&mut service, b"monitor", b"d2")?;
    for reading in 0..READINGS {
        send(&mut service, b"d1", reading)?;
        send(&mut service, b"d2", reading)?;
    }
    // The monitor is as far as the cache lets it. A settle would wait for ever.
    wait_for(&rt, &mut service, &monitor, READINGS - 64)?;
    wait_for(&rt, &mut service, &other, 0)?;
    print_figures(&rt, &mut service, &[archive, monitor, other])?;
    if let Some(left) = service.pending(archive.queue)? {
        println!(rt; "queue {} isn't quiet: {left:?}", archive.queue)?;
    }
    let stored = service.unsubscribe(&archive)?;
    println!(rt; "the archive has unsubscribed after {stored} readings")?;
    wait_for(&rt, &mut service, &monitor, 0)?;
    print_figures(&rt, &mut service, &[archive, monitor, other])?;
    gate.go_on();
    service.settle()?;
    service.close().report?;
    Ok(())
}

// A grain of this kind consumes the readings of the device that has its key.
fn subscribe<R: Host + Clock>(
    service: &mut Service<R, Archive<R>>,
    kind: &[u8],
    device: &[u8],
) -> Result<Subscription> {
    let stream = StreamId::new(b"readings", device)?;
    let grain = GrainId::new(kind, device)?;
    Ok(service.subscribe(stream, grain, StartFrom::Latest)?)
}

// A device sends a reading.
fn send<R: Host + Clock>(
    service: &mut Service<R, Archive<R>>,
    device: &[u8],
    reading: usize,
) -> Result<()> {
    let stream = StreamId::new(b"readings", device)?;
    service.publish(stream, &[(reading as u64).encode()?])?;
    Ok(())
}

// Waits until a subscription has acknowledged all events of its queue but so many.
fn wait_for<R: Host + Clock>(
    rt: &R,
    service: &mut Service<R, Archive<R>>,
    sub: &Subscription,
    left: usize,
) -> Result<()> {
    for _ in 0..MOST_LOOKS {
        match service.subscription(sub.queue, &sub.name()) {
            Some(known) if known.behind <= left => return Ok(()),
            _ => thread::sleep(rt, Duration::from_millis(1)),
        }
    }
    bail!("a subscription of queue {} isn't served", sub.queue)
}

// Prints what each queue keeps, and how far each of these subscriptions is.
fn print_figures<R: Host + Clock + Print>(
    rt: &R,
    service: &mut Service<R, Archive<R>>,
    subs: &[Subscription],
) -> Result<()> {
    println!(rt; "queue  events  cached  pressed by")?;
    for queue in 0..service.queues() {
        print_queue(rt, service, queue)?;
    }
    println!(rt; "handled  behind  grain")?;
    for sub in subs {
        if let Some(known) = service.subscription(sub.queue, &sub.name()) {
            println!(rt; "{:>7} {:>7}  {}", known.handled, known.behind, known.grain)?;
        }
    }
    Ok(())
}

// Prints what a queue keeps, and the grain that presses it.
fn print_queue<R: Host + Clock + Print>(
    rt: &R,
    service: &mut Service<R, Archive<R>>,
    queue: usize,
) -> Result<()> {
    let Some(kept) = service.queue(queue) else {
        return Ok(());
    };
    let (events, cached) = (kept.events, kept.high.saturating_sub(kept.low));
    print!(rt; "{queue:>5} {events:>7} {cached:>7}")?;
    if let Some(slow) = kept.pressed_by
        && let Some(known) = service.subscription(queue, &slow)
    {
        print!(rt; "  {}", known.grain)?;
    }
    println!(rt; "")?;
    Ok(())
}
