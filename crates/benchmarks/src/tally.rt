//! The handler of all consumers.
use crate::work::work;
use anyhow::{Result, bail};
use std::alloc::Global;
use std::rt::Clock;
use std::sync::atomic::{AtomicU64, Ordering};
use std::time::{Duration, Instant};
use std::{io, thread};
use stream_ident::parse_number;
use streams::{Event, Gate, Payload, SubName};

/// How often a thread looks at a count before it gives up, which is after some minutes.
const MOST_LOOKS: u32 = 200_000;

/// The microseconds before the end of a pause in which a thread doesn't sleep: a sleep ends late.
const AWAKE: u64 = 500;

/// What stands for the latency of an event that isn't handled.
const NONE: u64 = u64::MAX;

/// The handler of all consumers. It counts, takes processor time, and may note the latency of each event, whose payload
/// then says when it was published.
#[derive(Drop)]
pub struct Tally<R> {
    rt: R,
    start: Instant,
    /// How many steps of work an event takes.
    steps: u64,
    handled: AtomicU64,
    /// The nanoseconds from the publish of each event to the end of its handler, in the order of these ends.
    latencies: Vec<AtomicU64>,
}

impl<R: Clock + Drop + Send + Sync> Gate for Tally<R> {
    fn handle(&self, _sub: &SubName, event: &Event, note: u64) -> u64 {
        let worked = work(note.saturating_add(1), self.steps);
        let place = self.handled.fetch_add(1, Ordering::SeqCst) as usize;
        if let Some(latency) = self.latencies.get(place) {
            latency.store(self.latency_of(event).unwrap_or(NONE), Ordering::SeqCst);
        }
        worked
    }
}

impl<R: Clock + Drop> Tally<R> {
    /// One that has handled nothing, and has room for so many latencies.
    pub fn new(rt: R, alloc: Global, steps: u64, room: usize) -> Result<Tally<R>> {
        let mut latencies = Vec::with_capacity(alloc, room)?;
        for _ in 0..room {
            latencies.push(AtomicU64::new(NONE))?;
        }
        let start = Instant::now(&rt)?;
        Ok(Tally {
            rt,
            start,
            steps,
            handled: AtomicU64::new(0),
            latencies,
        })
    }

    /// The time since it was made.
    pub fn now(&self) -> io::Result<Duration> {
        self.start.elapsed(&self.rt)
    }

    /// A payload that says when it was made.
    pub fn stamp(&self, alloc: Global) -> Result<Payload> {
        let nanoseconds = self.now()?.as_nanos();
        Ok(Payload::new(format!(in alloc; "{nanoseconds}")?.as_bytes())?)
    }

    /// How many nanoseconds ago the payload of an event was made.
    fn latency_of(&self, event: &Event) -> Option<u64> {
        let made = Duration::from_nanos(parse_number(event.payload.as_bytes())?);
        let latency = self.now().ok()?.saturating_sub(made);
        u64::try_from(latency.as_nanos()).ok()
    }

    /// How often the handler was called.
    pub fn handled(&self) -> u64 {
        self.handled.load(Ordering::SeqCst)
    }

    /// The latencies, from the least on.
    pub fn latencies(&self, alloc: Global) -> Result<Vec<u64>> {
        let mut latencies = Vec::with_capacity(alloc, self.latencies.len())?;
        for place in &self.latencies {
            let latency = place.load(Ordering::SeqCst);
            if latency == NONE {
                bail!("an event has no latency");
            }
            latencies.push(latency)?;
        }
        latencies.sort_unstable();
        Ok(latencies)
    }

    /// Sleeps until so many events are handled, so as to take no turn at a queue meanwhile.
    pub fn wait_until(&self, events: usize) -> Result<()> {
        for _ in 0..MOST_LOOKS {
            if self.handled() >= events as u64 {
                return Ok(());
            }
            thread::sleep(&self.rt, Duration::from_millis(1));
        }
        bail!("the events aren't handled")
    }

    /// Pauses until so much time has passed since it was made.
    pub fn pause_until(&self, time: Duration) -> Result<()> {
        let awake = Duration::from_micros(AWAKE);
        for _ in 0..u64::MAX {
            let left = time.saturating_sub(self.now()?);
            if left.is_zero() {
                break;
            }
            if left > awake {
                thread::sleep(&self.rt, left.saturating_sub(awake));
            } else {
                thread::yield_now();
            }
        }
        Ok(())
    }
}
