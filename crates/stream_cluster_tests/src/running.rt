//! A cluster that runs.
ghost use Rattle.std.specs.Prelude.{◌≡◌, ◌≤◌, [], IfOk, vec_capacity};

use crate::producer::Producer;
use crate::told::Told;
use activation_directory::{DirectoryOp, DirectoryReply};
use shared_partition::{DirectoryHistory, Gate, QueueHistory};
use silo_threads::{Caller, Cluster, Config, Finished, SiloDown, SiloUp, Traces};
use std::alloc::{AllocError, Global};
use std::marker::Model;
use std::process::Abort;
use std::sync::{Arc, Wait};
use std::thread::Threads;
use step_core::{Answer, Limits, Op};
use turnstile::{AskedHistory, PlainHistory};

/// How the calls of a queue are stored.
pub type Calls = AskedHistory<Op, Answer>;

/// How the calls of a directory are stored.
pub type Places = PlainHistory<DirectoryOp, DirectoryReply>;

/// How a cluster has ended, or that the end failed to allocate.
pub type Ended<H> = Result<Finished<H>, AllocError>;

/// A cluster whose queues and directory have these histories. A contract sees the turnstiles of its queues.
pub struct Running<G: Gate, H: QueueHistory, D: DirectoryHistory> {
    cluster: Cluster<G, H, D>,
}

impl<G: Gate + Drop, H: QueueHistory + Drop, D: DirectoryHistory + Drop> Drop for Running<G, H, D> {
    fn drop(self) {
        let Self { cluster: _ } = self;
    }
}

impl<G: Gate, H: QueueHistory, D: DirectoryHistory> Model for Running<G, H, D> {
    ghost use Rattle.std.specs.Prelude.{List, Option};
    ghost use Rattle.silo_loops.specs.Lines.{places};
    ghost use Rattle.stream_model.specs.declared.plain.PlainPartition.{PlainPartition};
    ghost use Rattle.turnstile.specs.Passes.{Origin};

    ghost Value = { List (Option (Origin PlainPartition)) };

    ghost view = { λ r. places r.cluster.operator.lines };
}

/// How large a cluster is.
#[derive(Clone, Copy)]
pub struct Size {
    pub queues: usize,
    pub silos: u8,
    /// How many calls each history has at most.
    pub history: u64,
    /// How many events a producer has room to be told of.
    pub room: usize,
}

/// A cluster of this size, and its first producer.
///
/// # Errors
/// The call failed to allocate, or a thread can't be made.
pub fn start<
    G: Gate + 'static,
    H: QueueHistory + Send + 'static,
    D: DirectoryHistory + Send + 'static,
    R: Threads + Wait + Abort + Copy + Send + 'static,
>(
    rt: &R,
    alloc: Global,
    size: &Size,
    gate: Arc<G, Global>,
) -> Result<(Running<G, H, D>, Producer<G, H>), AllocError>
    ensures { IfOk result (λ r. r.1 ≡ r.0) }
{
    let Size {
        queues,
        silos,
        history,
        room,
    } = *size;
    assert!(rt; 1 <= queues && queues <= 64);
    assert!(rt; 1 <= silos && silos <= 16);
    assert!(rt; 1 <= history);
    let config = Config {
        queues,
        blocks: 4,
        silos,
        limits: Limits::GREATEST,
        history,
        rounds: 1_000_000,
        looks: 100_000,
    };
    let told = Vec::with_capacity(alloc, room)?;
    let (cluster, caller) = Cluster::new(rt, alloc, &config, gate)?;
    Ok((Running { cluster }, Producer::new(caller, told)))
}

// Whether a silo came; else no silo comes or goes any more.
fn came<R: Abort>(rt: &R, answer: Result<SiloUp, AllocError>) -> Result<bool, AllocError> {
    match answer {
        Ok(SiloUp::Up) => Ok(true),
        Ok(SiloUp::Halted) => Ok(false),
        Ok(_) => panic!(rt; "it comes"),
        Err(AllocError) => Err(AllocError),
    }
}

// Whether a silo went; else no silo comes or goes any more.
fn went<R: Abort>(rt: &R, answer: Result<SiloDown, AllocError>) -> Result<bool, AllocError> {
    match answer {
        Ok(SiloDown::Down) => Ok(true),
        Ok(SiloDown::Halted) => Ok(false),
        Ok(_) => panic!(rt; "it goes"),
        Err(AllocError) => Err(AllocError),
    }
}

impl<
    G: Gate + 'static,
    H: QueueHistory + Send + 'static,
    D: DirectoryHistory + Send + 'static,
> Running<G, H, D> {
    fn up<R: Threads + Wait + Abort + Copy + Send + 'static>(
        &mut self,
        rt: &R,
        alloc: Global,
        silo: u8,
    ) -> Result<SiloUp, AllocError>
        ensures { self.new ≡ self.old }
    {
        assert!(rt; silo < 16);
        self.cluster.silo_up(rt, alloc, silo)
    }

    /// A silo is to go.
    ///
    /// # Errors
    /// The call failed to allocate.
    pub fn down<R: Threads + Wait + Abort>(
        &mut self,
        rt: &R,
        alloc: Global,
        silo: u8,
    ) -> Result<SiloDown, AllocError>
        ensures { self.new ≡ self.old }
    {
        assert!(rt; silo < 16);
        self.cluster.silo_down(rt, alloc, silo)
    }

    /// A silo comes or goes. Whether it did; else no silo comes or goes any more.
    ///
    /// # Errors
    /// The call failed to allocate.
    pub fn change<R: Threads + Wait + Abort + Copy + Send + 'static>(
        &mut self,
        rt: &R,
        alloc: Global,
        silo: u8,
        comes: bool,
    ) -> Result<bool, AllocError>
        ensures { self.new ≡ self.old }
    {
        if comes {
            came(rt, self.up(rt, alloc, silo))
        } else {
            went(rt, self.down(rt, alloc, silo))
        }
    }
}

impl<G: Gate, H: QueueHistory, D: DirectoryHistory> Running<G, H, D> {
    /// Ends with this producer, and gives what it was told.
    pub fn finish<R: Threads + Wait + Abort>(
        self,
        rt: &R,
        alloc: Global,
        producer: Producer<G, H>,
    ) -> (Ended<H>, Vec<Told>)
        requires { producer ≡ self }
    {
        let Running { cluster } = self;
        let (caller, told) = producer.into_parts();
        let mut callers = Vec::with_capacity(alloc, 1).expect(rt, "memory");
        callers.push_reserved(caller);
        (without_loops(cluster.finish(rt, alloc, callers)), told)
    }

    /// Ends with these producers, and gives what they were told.
    pub fn finish_both<R: Threads + Wait + Abort>(
        self,
        rt: &R,
        alloc: Global,
        first: Producer<G, H>,
        second: Producer<G, H>,
    ) -> (Ended<H>, Vec<Told>)
        requires first { first ≡ self }
        requires second { second ≡ self }
    {
        let Running { cluster } = self;
        let (first, mut told) = first.into_parts();
        let (second, mut other) = second.into_parts();
        told.append(&mut other).expect(rt, "room");
        let mut callers = room_for_two(rt, alloc);
        callers.push_reserved(first);
        callers.push_reserved(second);
        (without_loops(cluster.finish(rt, alloc, callers)), told)
    }
}

// How a cluster has ended, without the loops that came back.
fn without_loops<G: Gate, H: QueueHistory, D: DirectoryHistory>(
    ended: Result<silo_threads::Ended<G, H, D>, AllocError>,
) -> Ended<H> {
    Ok(ended?.finished)
}

// Room for two callers. A want of memory is answered by asking again.
fn room_for_two<G: Gate, H: QueueHistory, R: Abort>(rt: &R, alloc: Global) -> Vec<Caller<G, H>>
    ensures empty { result.items ≡ [] }
    ensures room { 2 ≤ vec_capacity result }
{
    match Vec::with_capacity(alloc, 2) {
        Ok(room) => room,
        Err(AllocError) => Vec::with_capacity(alloc, 2).expect(rt, "memory"),
    }
}

/// How a cluster ends.
#[derive(Clone, Copy)]
pub enum End {
    /// With this report.
    Report(&'static [u8]),
    /// With this report, or something was left to do at the first queue.
    LeftOr(&'static [u8]),
    /// The history of the second queue was full, with so many calls, and what was done at so many queues is there.
    Full(usize, usize),
    /// So many passes of the first queue were missing.
    Missing(u64),
    /// Somebody else still had the turnstile of a queue.
    InUse,
}

// Whether the second of so many histories has so many calls.
fn are_full<H: QueueHistory>(traces: &Traces<H>, calls: usize, queues: usize) -> bool {
    match traces.histories.get(1) {
        Some(history) => {
            history.len() == calls
                && traces.histories.len() == queues
                && traces.partitions.len() == queues
        }
        None => false,
    }
}

/// Whether it ended with this report.
pub fn is_reported<H>(ended: &Ended<H>, report: &[u8]) -> bool {
    match ended {
        Ok(Finished::Report { text, .. }) => text.as_slice() == report,
        _ => false,
    }
}

/// Whether it ended so.
pub fn is_so<H: QueueHistory>(ended: &Ended<H>, end: End) -> bool {
    match end {
        End::Report(report) => is_reported(ended, report),
        End::LeftOr(report) => match ended {
            Ok(Finished::NotQuiet { queue, .. }) => *queue == 0,
            _ => is_reported(ended, report),
        },
        End::Full(calls, queues) => match ended {
            Ok(Finished::Limit { traces }) => are_full(traces, calls, queues),
            _ => false,
        },
        End::Missing(passes) => match ended {
            Ok(Finished::NotAll { queue, missing }) => *queue == 0 && *missing == passes,
            _ => false,
        },
        End::InUse => matches!(ended, Ok(Finished::InUse)),
    }
}
