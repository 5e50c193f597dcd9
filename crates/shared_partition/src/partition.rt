//! The partition that a turnstile holds.
ghost use Rattle.std.specs.Prelude.{◌≡◌, ◌≤◌, IfOk, MatchResult};
ghost use Rattle.stream_ident.specs.declared.limits.TheConstants.{MOST_BLOCKS};
ghost use Rattle.stream_model.specs.Bounds.{AreLimits};
ghost use Rattle.step_core.specs.Figures.{figures_of, subscription_figures_of};
ghost use Rattle.step_core.specs.Replied.{Shows};
ghost use Rattle.stream_model.specs.Positions.{empty};
ghost use Rattle.turnstile.specs.Calls.{Called, CallsBy, Found, HasOnlySeen, IsOf, LooksBy};
ghost use Rattle.turnstile.specs.Passes.{Origin};
ghost use Rattle.stream_model.specs.declared.plain.PlainPartition.{PlainPartition};
ghost use Rattle.shared_partition.specs.Partitions.{BeganEmpty, IsOfEmpty, LeavesLegal, TellsOneHistory, after, replied};

use crate::gate::Gate;
use crate::history::QueueHistory;
use std::alloc::{AllocError, Global};
use std::marker::{Model, PhantomData};
use std::sync::{Arc, Wait};
use step_core::{Answer, Partition, QueueFigures, SubscriptionFigures};
use stream_ident::{Event, SubName};
use stream_model::{Limits, Op, PlainPartition};
use turnstile::{Handle, PassOf, Refusal, Replays, Turnstile};

/// The partition of a queue, with a gate that sees each operation before it is applied.
///
/// A contract sees it as the plain partition. It is small, since a turnstile moves what it holds.
pub struct SharedPartition<G, H> {
    partition: Box<Partition, Global>,
    gate: Arc<G, Global>,
    queue: usize,
    history: PhantomData<H>,
}

impl<G: Drop, H: Drop> Drop for SharedPartition<G, H> {
    #[inline(never)]
    fn drop(self) {
        let Self {
            partition: _,
            gate: _,
            queue: _,
            history: _,
        } = self;
    }
}

impl<G, H> Model for SharedPartition<G, H> {
    ghost use Rattle.stream_model.specs.declared.plain.PlainPartition.{PlainPartition};

    ghost Value = { PlainPartition };

    ghost view = { λ s. s.partition.value };
}

impl<G: Gate, H: QueueHistory> Replays for SharedPartition<G, H> {
    type Op = Op;

    type Reply = Answer;

    type History = H;

    type Room = Vec<Event>;

    type State = PlainPartition;

    ghost state_of = { λ s. s };

    ghost replied = { replied };

    ghost after = { after };

    ghost shows = { Shows };

    fn apply(
        &mut self,
        alloc: Global,
        op: &Op,
        events: &mut Vec<Event>,
    ) -> Result<Answer, AllocError> {
        self.gate.inside(self.queue);
        self.partition.answer(alloc, op, events)
    }
}

impl<G: Gate, H: QueueHistory> SharedPartition<G, H> {
    /// A partition without events and subscriptions, whose cache has this many blocks of 64 events.
    ///
    /// # Errors
    /// The call failed to allocate.
    pub fn new(
        alloc: Global,
        gate: Arc<G, Global>,
        queue: usize,
        blocks: usize,
        limits: Limits,
    ) -> Result<SharedPartition<G, H>, AllocError>
        requires some_blocks { 1 ≤ blocks }
        requires blocks { blocks ≤ MOST_BLOCKS }
        requires limits { AreLimits limits }
        ensures { IfOk result (λ shared. shared ≡ empty blocks limits) }
    {
        Ok(SharedPartition {
            partition: Box::new(alloc, Partition::new(alloc, blocks, limits)?)?,
            gate,
            queue,
            history: PhantomData,
        })
    }

    /// The partition, without the gate.
    pub fn into_partition(self) -> Partition
        ensures { result ≡ self }
    {
        let SharedPartition {
            partition,
            gate: _gate,
            queue: _,
            history: _,
        } = self;
        Box::into_inner(partition)
    }

    /// Waits for its turn, and does one operation on the partition of a turnstile that began with an empty
    /// one.
    ///
    /// All that the pass has seen then is one history of the partition, also where the call is refused: the
    /// clause `headline` says what that promises, and by the clause `stands` each law of
    /// [`laws`](step_core::laws) holds of it. The events of a turn are put into `events`, in the place of those
    /// before, where that has room for sixteen.
    ///
    /// # Errors
    /// `HistoryFull` where the history has as many entries as it may have, and else `Memory`. No entry is
    /// added, the partition is as before, and the pass has seen the whole history as it was found.
    #[inline(never)]
    pub fn call<R: Wait>(
        turnstile: &Turnstile<SharedPartition<G, H>>,
        rt: &R,
        alloc: Global,
        pass: &mut PassOf<SharedPartition<G, H>>,
        op: Op,
        events: &mut Vec<Event>,
    ) -> Result<Answer, Refusal>
        requires pass { IsOf turnstile.now pass.old }
        requires empty { BeganEmpty turnstile.now.start }
        ensures pass { HasOnlySeen pass.old pass.new }
        ensures call { MatchResult result (λ r. Called replied after turnstile.now.start pass.old op r pass.new.seen) (λ e. Found replied after turnstile.now.start pass.old e pass.new.seen) }
        ensures shows { MatchResult result (λ r. Shows events.old events.new r) (λ _. events.new ≡ events.old) }
        ensures headline { TellsOneHistory pass.new.seen }
        ensures stands { LeavesLegal turnstile.now.start pass.new.seen }
    {
        turnstile.call_into(rt, alloc, pass, op, events)
    }

    /// Does one operation by a handle, in the turn that it keeps or in one that it waits for. It says what
    /// [`call`](SharedPartition::call) says.
    ///
    /// # Errors
    /// They are those of `call`.
    #[inline(never)]
    pub fn call_by<R: Wait>(
        handle: &mut Handle<SharedPartition<G, H>>,
        rt: &R,
        alloc: Global,
        op: Op,
        events: &mut Vec<Event>,
    ) -> Result<Answer, Refusal>
        requires { IsOfEmpty handle.old }
        ensures calls { CallsBy replied after handle.old op result handle.new }
        ensures shows { MatchResult result (λ r. Shows events.old events.new r) (λ _. events.new ≡ events.old) }
        ensures headline { TellsOneHistory handle.new.seen }
        ensures stands { (t : Origin PlainPartition) → IsOf t handle.old → LeavesLegal t.start handle.new.seen }
    {
        handle.call(rt, alloc, op, events)
    }
    /// What the queue keeps, read in the turn that a handle keeps or in one that it waits for. The history gets no
    /// entry, and no memory is taken. The figures are those of the partition that all calls leave which the pass has seen
    /// then, and of these calls it says what [`call`](SharedPartition::call) says.
    #[inline(never)]
    pub fn figures_by<R: Wait>(handle: &mut Handle<SharedPartition<G, H>>, rt: &R) -> QueueFigures
        requires { IsOfEmpty handle.old }
        ensures looks { LooksBy replied after handle.old (λ p. result ≡ figures_of p) handle.new }
        ensures headline { TellsOneHistory handle.new.seen }
        ensures stands { (t : Origin PlainPartition) → IsOf t handle.old → LeavesLegal t.start handle.new.seen }
    {
        handle.look(rt, |shared| shared.partition.figures())
    }

    /// How far a subscription is, and none where it has no record, read as
    /// [`figures_by`](SharedPartition::figures_by) reads what the queue keeps.
    #[inline(never)]
    pub fn subscription_by<R: Wait>(
        handle: &mut Handle<SharedPartition<G, H>>,
        rt: &R,
        sub: &SubName,
    ) -> Option<SubscriptionFigures>
        requires { IsOfEmpty handle.old }
        ensures looks { LooksBy replied after handle.old (λ p. result ≡ subscription_figures_of p sub.now) handle.new }
        ensures headline { TellsOneHistory handle.new.seen }
        ensures stands { (t : Origin PlainPartition) → IsOf t handle.old → LeavesLegal t.start handle.new.seen }
    {
        handle.look(rt, |shared| shared.partition.subscription(sub))
    }
}
