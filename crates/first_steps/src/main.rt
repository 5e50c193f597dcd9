//! A desk that sums up what a customer orders, on a cluster of two silos.
#![tactic(auto)]

use anyhow::Result;
use std::sync::Arc;
use std::sync::atomic::{AtomicU64, Ordering};
use streams::{Config, Event, Gate, GrainId, Payload, Service, StartFrom, StreamId, SubName};

/// The handler of all desks, and the greatest letter count of one desk.
#[derive(Drop)]
struct Desks {
    letters: AtomicU64,
}

impl Gate for Desks {
    /// Is called for each event of a turn. The note is a number of the subscription's own, which is stored with the turn:
    /// here it counts the letters that were ordered.
    fn handle(&self, _sub: &SubName, event: &Event, note: u64) -> u64 {
        let letters = note.saturating_add(event.payload.as_bytes().len() as u64);
        self.letters.fetch_max(letters, Ordering::SeqCst);
        letters
    }
}

fn main(rt: HostRuntime) -> Result<()> {
    let letters = AtomicU64::new(0);
    let desks = Arc::new(rt.alloc(), Desks { letters })?;
    let mut service = Service::open(rt, &Config::new(4, 2), Arc::try_clone(&desks)?)?;
    let stream = StreamId::new(b"orders", b"ann")?;
    let desk = GrainId::new(b"desk", b"ann")?;
    service.subscribe(stream, desk, StartFrom::Latest)?;
    service.publish(stream, &[Payload::new(b"tea")?, Payload::new(b"milk")?])?;
    service.settle()?;
    println!(rt; "{} letters", desks.letters.load(Ordering::SeqCst))?;
    let report = service.close().report?;
    print!(rt; "{}", str::from_utf8(&report)?)?;
    Ok(())
}
