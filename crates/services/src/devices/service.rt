//! The streams of readings, and what is asked of them.
use crate::devices::monitors::Monitors;
use crate::devices::story::Step;
use anyhow::Result;
use std::alloc::Global;
use std::sync::Arc;
use streams::{Closed, Config, Encode, Host, Name, Partition, Payload, Service, StreamId};

/// What devices and operators may ask.
#[derive(Drop)]
pub struct DeviceService<R: Host> {
    rt: R,
    service: Service<R, Monitors>,
}

/// What all queues keep together.
#[derive(Clone, Copy)]
pub struct Totals {
    /// Events.
    pub events: usize,
    /// Subscriptions.
    pub subscriptions: usize,
    /// How often a queue has moved to another silo.
    pub moves: u64,
}

impl<R: Host> DeviceService<R> {
    /// A service on sixteen queues and four silos, whose readings these monitors handle. A rule makes a subscription of
    /// each device that sends a reading: that of the monitor with its name.
    pub fn open(rt: R, monitors: Arc<Monitors, Global>) -> Result<DeviceService<R>> {
        // A cache has one block of 64 readings, and most queues get more.
        let config = Config {
            blocks: 1,
            ..Config::new(16, 4)
        };
        let (monitor, readings) = (Name::new(b"monitor")?, Name::new(b"readings")?);
        let mut service = Service::open(rt, &config, monitors)?;
        service.add_rule(monitor, readings)?;
        Ok(DeviceService { rt, service })
    }

    /// Does a step of the story.
    pub fn go(&mut self, step: &Step) -> Result<()> {
        match *step {
            Step::Send { round, from, to } => self.send(round, from, to),
            Step::Settle => Ok(self.service.settle()?),
            Step::TakeSiloDown(silo) => Ok(self.service.silo_down(silo)?),
        }
    }

    /// What all queues keep together.
    pub fn totals(&mut self) -> Totals {
        let (mut events, mut subscriptions, mut moves) = (0usize, 0usize, 0u64);
        for queue in 0..self.service.queues() {
            if let Some(kept) = self.service.queue(queue) {
                events = events.saturating_add(kept.events);
                subscriptions = subscriptions.saturating_add(kept.subscriptions);
                moves = moves.saturating_add(kept.generation);
            }
        }
        Totals {
            events,
            subscriptions,
            moves,
        }
    }

    /// Ends the service, and gives the partition of each queue.
    pub fn close(self) -> Result<Vec<Partition>> {
        let DeviceService { rt: _, service } = self;
        let Closed { report, partitions } = service.close();
        report?;
        Ok(partitions)
    }

    // Each of these devices sends a reading.
    fn send(&mut self, round: usize, from: usize, to: usize) -> Result<()> {
        for number in from..to {
            let (stream, reading) = reading_of(self.rt.alloc(), number, round)?;
            self.service.publish(stream, &[reading])?;
        }
        Ok(())
    }
}

// The stream of a device, and what it sends in a round: tenths of a degree.
fn reading_of(alloc: Global, device: usize, round: usize) -> Result<(StreamId, Payload)> {
    let name = format!(in alloc; "d{device:04}")?;
    let tenths = device.wrapping_mul(37).wrapping_add(round.wrapping_mul(11)) % 700 + 200;
    let stream = StreamId::new(b"readings", name.as_bytes())?;
    Ok((stream, (tenths as u64).encode()?))
}
