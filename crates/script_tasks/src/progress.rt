//! How far a script is.
ghost use Rattle.std.specs.Prelude.{◌≤◌};

use shared_partition::{Counting, Gate};
use std::alloc::{AllocError, Global};
use std::rt::Clock;
use std::sync::atomic::{AtomicU64, Ordering};
use std::time::Instant;
use stream_ident::{Event, SubName};
use stream_model::Op;
use stream_script::{Command, Failed, Lines, Mode, Parsed, Sink, parse_line};

/// When a line on standard error says how far a script is: after a second, and each time when twice as many have passed.
#[derive(Drop)]
pub(crate) struct Progress<R> {
    rt: R,
    /// When the script began, where the clock could be read.
    start: Option<Instant>,
    /// After how many seconds the next line is due.
    next: AtomicU64,
}

impl<R: Clock> Progress<R> {
    /// Of a script that begins now.
    pub(crate) fn new(rt: R) -> Progress<R> {
        let start = Instant::now(&rt).ok();
        Progress {
            rt,
            start,
            next: AtomicU64::new(1),
        }
    }

    /// How many seconds have passed, where a line is due. One caller alone gets them.
    fn due(&self) -> Option<u64> {
        let seconds = self.start.as_ref()?.elapsed(&self.rt).ok()?.as_secs();
        let next = self.next.load(Ordering::SeqCst);
        if seconds < next {
            return None;
        }
        let later = seconds.saturating_mul(2);
        self.next
            .compare_exchange(next, later, Ordering::SeqCst, Ordering::SeqCst)
            .ok()?;
        Some(seconds)
    }
}

/// The handler of a run that says how far it is, and is else like [`Counting`].
#[derive(Drop)]
pub(crate) struct WatchedHandler<R> {
    pub(crate) progress: Progress<R>,
    /// How many events the script publishes.
    pub(crate) events: usize,
    /// How often it was called.
    pub(crate) handled: AtomicU64,
}

impl<R: Clock + Eprint + Drop + Send + Sync> Gate for WatchedHandler<R> {
    fn handle(&self, sub: &SubName, event: &Event, note: u64) -> u64 {
        let before = self.handled.fetch_add(1, Ordering::SeqCst);
        if let Some(seconds) = self.progress.due() {
            let events = self.events;
            let handled = before.saturating_add(1);
            // Where standard error fails, nothing is said.
            let _ = eprintln!(self.progress.rt;
                "streams: {events} events in the script, {handled} handled, {seconds} s"
            );
        }
        Counting.handle(sub, event, note)
    }
}

/// The sink of a simulation that says how far it is. Each write is the reply to one line.
#[derive(Drop)]
pub(crate) struct WatchedSink<W, R> {
    pub(crate) inner: W,
    pub(crate) progress: Progress<R>,
    /// How many lines the script has.
    pub(crate) lines: u64,
    /// How many replies there were.
    pub(crate) replies: u64,
}

impl<W: Sink, R: Clock + Eprint + Drop> Sink for WatchedSink<W, R> {
    ghost contents = { λ sink. W.contents sink.inner };

    ghost failures = { λ sink. W.failures sink.inner };

    fn write(&mut self, bytes: &[u8]) -> Result<usize, Failed> {
        self.replies = self.replies.saturating_add(1);
        if let Some(seconds) = self.progress.due() {
            let (lines, replies) = (self.lines, self.replies);
            // Where standard error fails, nothing is said.
            let _ = eprintln!(self.progress.rt;
                "streams: {lines} lines in the script, {replies} done, {seconds} s"
            );
        }
        self.inner.write(bytes)
    }

    fn flush(&mut self) -> Result<(), Failed> {
        self.inner.flush()
    }
}

/// How many lines a script has.
pub(crate) fn lines_in(script: &[u8]) -> u64 {
    let mut count = 0_u64;
    let mut lines = Lines::of(script);
    while let Some(_) = lines.next_line() {
        count = count.saturating_add(1);
    }
    count
}

/// How many events a script publishes that is run on so many queues.
///
/// # Errors
/// The call failed to allocate.
pub(crate) fn events_in(alloc: Global, script: &[u8], queues: usize) -> Result<usize, AllocError>
    requires { 1 ≤ queues }
{
    let mut count = 0_usize;
    let mut lines = Lines::of(script);
    while let Some(line) = lines.next_line() {
        if let Parsed::Command(
            Command::Step {
                op: Op::Publish { payloads, .. },
                ..
            },
        ) = &parse_line(alloc, line, 1, queues, Mode::Run)?
        {
            count = count.saturating_add(payloads.as_slice().len());
        }
    }
    Ok(count)
}
