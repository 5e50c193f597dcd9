//! A plain program that computes the definitions of a partition, for tests and comparisons.
//!
//! It is slow and simple on purpose: it keeps one log, positions in it and lists of records.
#![tactic(auto)]

ghost use Rattle.std.specs.Prelude.{◌≡◌, ◌≤◌, true, OnErr};
ghost use Rattle.stream_ident.specs.declared.limits.TheConstants.{MOST_BLOCKS};
ghost use Rattle.stream_model.specs.Bounds.{AreLimits, IsWithinLimits};
ghost use Rattle.stream_model.specs.Looks.{pending_in};
ghost use Rattle.stream_model.specs.Positions.{empty};
ghost use Rattle.stream_model.specs.Step.{step, takes_memory, IsReached};
ghost use Rattle.stream_ident.specs.Words.{Performs};

mod acknowledging;
mod deactivating;
mod delivering;
mod looking;
mod moving;
mod positions;
mod publishing;
mod pulling;
mod purging;
mod records;
mod rules;
mod turns;
mod unsubscribing;

use acknowledging::{ack, retry};
use deactivating::deactivate;
use delivering::deliver;
use looking::{due, pending, quiet, ready};
use moving::move_queue;
use publishing::{publish, subscribe};
use pulling::pull;
use purging::purge;
use rules::add_rule;
use std::alloc::{AllocError, Global};
use std::marker::Model;
use stream_model::{Limits, Op, Pending, PlainPartition, Reply, Sequence};
use turns::{begin, commit};
use unsubscribing::unsubscribe;

/// A partition that keeps the plain data and does each operation as the definition says it.
///
/// A contract sees it as its plain data, which a legal history leads to.
pub struct Partition {
    plain: PlainPartition,
}

impl Drop for Partition {
    fn drop(self) {
        let Self { plain: _ } = self;
    }
}

impl Model for Partition {
    ghost use Rattle.stream_model.specs.declared.plain.PlainPartition.{PlainPartition};

    ghost Value = { PlainPartition };

    ghost use Rattle.stream_model.specs.Bounds.{IsWithinLimits};
    ghost use Rattle.stream_model.specs.Step.{IsReached};

    ghost view = { λ r. r.plain };

    ghost invariant = { λ r. IsWithinLimits r.plain × IsReached r.plain };
}

impl Partition {
    /// The partition before the first operation. It takes no memory.
    pub fn new(alloc: Global, blocks: usize, limits: Limits) -> Partition
        requires some_blocks { 1 ≤ blocks }
        requires blocks { blocks ≤ MOST_BLOCKS }
        requires limits { AreLimits limits }
        ensures { result ≡ empty blocks limits }
    {
        Partition {
            plain: PlainPartition {
                log: Sequence::new(alloc),
                batches: 0,
                low: 0,
                high: 0,
                generation: 0,
                silo: 0,
                subs: Sequence::new(alloc),
                explicit: 0,
                rules: Sequence::new(alloc),
                grains: Sequence::new(alloc),
                rises: 0,
                turns: 0,
                blocks,
                limits,
            },
        }
    }

    /// One operation: its reply, refusals included. Where it fails to allocate, nothing has changed, and that
    /// can happen only where the step keeps more than before.
    pub fn step(&mut self, alloc: Global, op: Op) -> Result<Reply, AllocError>
        ensures performs { Performs self.old self.new result (step self.old op) }
        ensures memory { OnErr result (takes_memory (step self.old op).1 ≡ true) }
    {
        step_plain(&mut self.plain, alloc, op)
    }

    /// Why the partition isn't quiet, the first reason that holds, or none where everything is pulled,
    /// delivered and handled. It takes no memory and changes nothing.
    pub fn quiet(&self) -> Option<Pending>
        ensures { result ≡ pending_in self.now }
    {
        pending(&self.plain)
    }

    /// The plain data.
    pub fn plain(&self) -> &PlainPartition
        ensures state { result.now ≡ self.now }
        ensures limits { IsWithinLimits self.now }
        ensures reached { IsReached self.now }
    {
        &self.plain
    }
}

/// One operation on the plain data.
fn step_plain(p: &mut PlainPartition, alloc: Global, op: Op) -> Result<Reply, AllocError>
    requires within { IsWithinLimits p.old }
    ensures performs { Performs p.old p.new result (step p.old op) }
    ensures memory { OnErr result (takes_memory (step p.old op).1 ≡ true) }
{
    match op {
        Op::Publish { stream, payloads } => publish(p, stream, &payloads),
        Op::Subscribe {
            stream,
            grain,
            start,
        } => subscribe(p, alloc, stream, grain, start),
        Op::Pull { generation, max } => pull(p, alloc, generation, max),
        Op::Deliver { generation, sub } => deliver(p, alloc, generation, sub),
        Op::Begin { grain, max } => Ok(begin(p, grain, max)),
        Op::Commit {
            grain,
            activation,
            turn,
            note,
        } => commit(p, grain, activation, turn, note),
        Op::Retry { generation, sub } => Ok(retry(p, generation, sub)),
        Op::Ack {
            generation,
            sub,
            token,
        } => Ok(ack(p, generation, sub, token)),
        Op::Purge { generation, keep } => Ok(purge(p, generation, keep)),
        Op::Move { silo } => Ok(move_queue(p, silo)),
        Op::Ready { after } => Ok(ready(p, after)),
        Op::Due { after } => Ok(due(p, after)),
        Op::Quiet => Ok(quiet(p)),
        Op::Unsubscribe { sub } => Ok(unsubscribe(p, sub)),
        Op::AddRule { kind, namespace } => add_rule(p, kind, namespace),
        Op::Deactivate { grain } => Ok(deactivate(p, grain)),
    }
}
