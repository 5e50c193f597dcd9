//! The handler: monitors that keep the highest reading of each device.
use anyhow::Result;
use std::alloc::Global;
use std::sync::atomic::{AtomicU64, Ordering};
use streams::{Decode, Event, Gate, GrainId, SubName};

/// What all monitors share. The workers of all silos call it from their threads.
#[derive(Drop)]
pub struct Monitors {
    // the highest reading of each device, in tenths of a degree
    highest: Vec<AtomicU64>,
}

impl Monitors {
    /// Monitors of so many devices, none of which has sent a reading.
    pub fn new(alloc: Global, devices: usize) -> Result<Monitors> {
        let mut highest = Vec::new(alloc);
        for _ in 0..devices {
            highest.push(AtomicU64::new(0))?;
        }
        Ok(Monitors { highest })
    }

    /// The highest reading of a device that was handled, in tenths of a degree, and 0 where there is none.
    pub fn highest(&self, device: usize) -> u64 {
        match self.highest.get(device) {
            Some(highest) => highest.load(Ordering::SeqCst),
            None => 0,
        }
    }

    // A monitor notes the reading of its device: that of `d0017` is the one with number 17. It may see a reading twice,
    // so it keeps the highest, and counts nothing.
    fn note(&self, monitor: &GrainId, event: &Event) -> Option<u64> {
        let device: usize = monitor.key.as_str().strip_prefix('d')?.parse().ok()?;
        let highest = self.highest.get(device)?;
        Some(highest.fetch_max(tenths_of(event)?, Ordering::SeqCst))
    }
}

impl Gate for Monitors {
    /// The note counts the readings of a subscription.
    fn handle(&self, _sub: &SubName, _event: &Event, note: u64) -> u64 {
        note.saturating_add(1)
    }

    fn handle_for(&self, grain: &GrainId, sub: &SubName, event: &Event, note: u64) -> u64 {
        let _before = self.note(grain, event);
        self.handle(sub, event, note)
    }
}

/// The reading of an event, in tenths of a degree.
pub fn tenths_of(event: &Event) -> Option<u64> {
    u64::decode(&event.payload).ok()
}
