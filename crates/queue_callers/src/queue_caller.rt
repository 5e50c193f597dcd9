//! A pass at the turnstile of a queue, as a producer holds it.
ghost use Rattle.std.specs.Prelude.{◌≡◌, IfOk, MatchResult, OnErr, OnOk};
ghost use Rattle.std.specs.Arc.{arc_value};
ghost use Rattle.turnstile.specs.Calls.{Agree, HasOnlyMade, IsOf, IsSplitOff, joined_pass};
ghost use Rattle.step_core.specs.Figures.{figures_of, subscription_figures_of};
ghost use Rattle.step_core.specs.Replied.{Shows};
ghost use Rattle.shared_partition.specs.Partitions.{BeganEmpty};
ghost use Rattle.queue_callers.specs.Calls.{IsUnused, QueueCalls, QueueLooks};

use shared_partition::{Gate, QueueHistory, SharedPartition};
use silo_loops::Doorbell;
use std::alloc::{AllocError, Global};
use std::marker::Model;
use std::sync::{Arc, Wait};
use step_core::{Answer, QueueFigures, SubscriptionFigures};
use stream_ident::{Event, SubName};
use stream_model::{Op, PlainPartition};
use turnstile::{Handle, Pass, Refusal, Turnstile};

/// A producer's pass at a queue, with its turnstile. A contract sees the pass.
pub struct QueueCaller<G: Gate, H: QueueHistory> {
    handle: Handle<SharedPartition<G, H>>,
}

impl<G: Gate + Drop, H: QueueHistory + Drop> Drop for QueueCaller<G, H> {
    fn drop(self) {
        let Self { handle: _ } = self;
    }
}

impl<G: Gate, H: QueueHistory> Model for QueueCaller<G, H> {
    ghost use Rattle.shared_partition.specs.Partitions.{IsOfEmpty};
    ghost use Rattle.silo_loops.specs.Lines.{QueuePass};

    ghost Value = { QueuePass };

    ghost view = { λ c. c.handle };

    ghost invariant = { λ c. IsOfEmpty c.handle };
}

impl<G: Gate, H: QueueHistory> QueueCaller<G, H> {
    /// A caller with this pass.
    pub fn new(
        turnstile: Arc<Turnstile<SharedPartition<G, H>>, Global>,
        pass: Pass<SharedPartition<G, H>, H, Op, Answer, PlainPartition>,
    ) -> QueueCaller<G, H>
        requires pass { IsOf (arc_value turnstile) pass }
        requires empty { BeganEmpty (arc_value turnstile).start }
        ensures { result ≡ pass }
    {
        QueueCaller {
            handle: Handle::new(turnstile, pass),
        }
    }

    /// Waits for its turn, does an operation, and rings where a loop may then find more to do. The events of a turn
    /// are put into `events`, in the place of those before, where that has room for sixteen.
    ///
    /// # Errors
    /// `HistoryFull` where the history has as many entries as it may have, and else `Memory`. No entry is
    /// added, the partition is as before, and the pass has seen the whole history as it was found.
    pub fn ask<R: Wait>(
        &mut self,
        rt: &R,
        alloc: Global,
        doorbell: &Doorbell,
        queue: usize,
        op: Op,
        events: &mut Vec<Event>,
    ) -> Result<Answer, Refusal>
        ensures calls { QueueCalls self.old op result self.new }
        ensures shows { MatchResult result (λ r. Shows events.old events.new r) (λ _. events.new ≡ events.old) }
    {
        let answer = SharedPartition::call_by(&mut self.handle, rt, alloc, op, events);
        if let Ok(ref reply) = answer {
            doorbell.tell(rt, queue, reply);
        }
        answer
    }

    /// Waits for its turn, and gives what the queue keeps. No call is made, and nobody is told.
    pub fn figures<R: Wait>(&mut self, rt: &R) -> QueueFigures
        ensures { QueueLooks self.old (λ p. result ≡ figures_of p) self.new }
    {
        SharedPartition::figures_by(&mut self.handle, rt)
    }

    /// Waits for its turn, and gives how far a subscription is, and none where it has no record. No call is made, and
    /// nobody is told.
    pub fn subscription<R: Wait>(&mut self, rt: &R, sub: &SubName) -> Option<SubscriptionFigures>
        ensures { QueueLooks self.old (λ p. result ≡ subscription_figures_of p sub.now) self.new }
    {
        SharedPartition::subscription_by(&mut self.handle, rt, sub)
    }

    /// A caller with a pass of its own at the same queue, which has seen as much and has made no call.
    ///
    /// # Errors
    /// The turnstile can't be shared once more, or 2^32 passes of it were made. The caller is then as before,
    /// save that its pass may know of more passes.
    pub fn split(&mut self) -> Result<QueueCaller<G, H>, AllocError>
        ensures same { OnOk result (self.new ≡ self.old) }
        ensures turnstile { self.new.turnstile ≡ self.old.turnstile }
        ensures new { IfOk result (λ new. IsSplitOff self.old new) }
        ensures unused { IfOk result (λ new. IsUnused new) }
        ensures refused { OnErr result (HasOnlyMade self.old self.new) }
    {
        let handle = self.handle.split()?;
        Ok(QueueCaller { handle })
    }

    /// Takes in another caller of the same queue: the numbers of its pass, and what that has seen where it is
    /// more. It takes no memory.
    pub fn join(&mut self, other: QueueCaller<G, H>)
        requires { other.turnstile ≡ self.old.turnstile }
        ensures joined { self.new ≡ joined_pass self.old other }
        ensures agree { Agree self.old other self.new }
    {
        let QueueCaller { handle } = other;
        self.handle.join(handle);
    }

    /// The turnstile and the pass.
    pub fn into_parts(
        self,
    ) -> (
        Arc<Turnstile<SharedPartition<G, H>>, Global>,
        Pass<SharedPartition<G, H>, H, Op, Answer, PlainPartition>,
    )
        ensures pass { result.1 ≡ self }
        ensures of { IsOf (arc_value result.0) result.1 }
        ensures empty { BeganEmpty (arc_value result.0).start }
    {
        let QueueCaller { handle } = self;
        handle.into_parts()
    }
}
