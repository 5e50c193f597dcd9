//! The partition.
ghost use Rattle.std.specs.Prelude.{◌≡◌, ◌<◌, ◌≤◌, true, length, map, slice_get, slice_index_or, Some, IfOk, IfSome, MatchResult, OnErr, OnOk};
ghost use Rattle.stream_ident.specs.declared.limits.TheConstants.{MOST_BLOCKS};
ghost use Rattle.std.specs.List.{AllByRecursion};
ghost use Rattle.std.specs.Option.{option_map};
ghost use Rattle.stream_ident.specs.Alphabet.{IsPayload};
ghost use Rattle.stream_ident.specs.Event.{no_event};
ghost use Rattle.stream_ident.specs.Name.{grain_lt};
ghost use Rattle.stream_ident.specs.Words.{keys_where, least, Performs};
ghost use Rattle.stream_model.specs.Bounds.{AreLimits, IsWithinLimits};
ghost use Rattle.stream_model.specs.Draining.{all_waiting, last_handled, least_waiting};
ghost use Rattle.stream_model.specs.Looks.{is_running, pending_in};
ghost use Rattle.stream_model.specs.Positions.{empty, high_token, low_token, sub_at};
ghost use Rattle.stream_model.specs.Memory.{may_allocate};
ghost use Rattle.stream_model.specs.Step.{step, IsReached};
ghost use Rattle.step_core.specs.Figures.{figures_of, subscription_figures_of};
ghost use Rattle.step_core.specs.Finishing.{OwesNothing};
ghost use Rattle.step_core.specs.Quiets.{quiet_by};
ghost use Rattle.step_core.specs.declared.quiet.Quiet.TheVariants.{Yes};
ghost use Rattle.step_core.specs.Reads.{handled_of, handled_positions, summaries_in_order};
ghost use Rattle.step_core.specs.Replied.{answered, IsOfLog, Shows};
ghost use Rattle.step_core.specs.Replies.{appended_reply};
ghost use Rattle.step_core.specs.Run.{Does, StopsBefore};
ghost use Rattle.step_core.specs.Serving.{cursor_of, grain_of, is_settled_in, name_of, next_due};

mod asking;

use crate::answer::Answer;
use crate::figures::{QueueFigures, SubscriptionFigures, queue_figures, subscription_figures};
use crate::looking::{all_waiting, least_running, least_waiting, next_due, pending};
use crate::outcome::{Outcome, reply_of, show};
use crate::parts::Parts;
use crate::publishing::publish_slices;
use crate::quiet::Quiet;
use crate::reading::{
    SubSummary, handled, handled_positions, high_token, is_settled, last_handled, low_token,
    summaries, summary_at,
};
use crate::stepping::step;
use grain_table::GrainTable;
use partition_queue::{Appended, PartitionQueue};
use pulling_agent::Agent;
use std::alloc::{AllocError, Global};
use std::fmt;
use std::marker::Model;
use stream_ident::{Event, GrainId, StreamId, SubName, Token};
use stream_model::{Limits, Op, Reply};
use subscription_table::SubscriptionTable;

/// A partition.
///
/// A contract sees it as the plain partition of the definitions.
pub struct Partition {
    parts: Parts,
}

impl Drop for Partition {
    fn drop(self) {
        let Self { parts: _ } = self;
    }
}

impl Model for Partition {
    ghost use Rattle.stream_model.specs.declared.plain.PlainPartition.{PlainPartition};

    ghost Value = { PlainPartition };

    ghost use Rattle.step_core.specs.Assembly.{Agrees};
    ghost use Rattle.step_core.specs.PlainOf.{plain_of};

    ghost view = { λ p. plain_of p.parts };

    ghost invariant = { λ p. Agrees p.parts };
}

impl Partition {
    /// A partition without events and subscriptions, whose cache has this many blocks of 64 events.
    ///
    /// # Errors
    /// The call failed to allocate.
    pub fn new(alloc: Global, blocks: usize, limits: Limits) -> Result<Partition, AllocError>
        requires some_blocks { 1 ≤ blocks }
        requires blocks { blocks ≤ MOST_BLOCKS }
        requires limits { AreLimits limits }
        ensures { IfOk result (λ p. p ≡ empty blocks limits) }
    {
        Ok(Partition {
            parts: Parts {
                queue: PartitionQueue::new(alloc, limits.events),
                agent: Agent::new(alloc, blocks)?,
                subs: SubscriptionTable::new(alloc, limits.subs, limits.rules),
                grains: GrainTable::new(alloc),
                rises: 0,
                turns: 0,
                limits,
            },
        })
    }

    /// Does one operation, and gives its reply. A refusal is a reply, and changes nothing save where its
    /// definition says so.
    ///
    /// # Errors
    /// The call failed to allocate, and nothing has changed. That can happen only where the operation would
    /// be done, and only at a Publish, a Subscribe, an AddRule, a Commit, a Pull that makes subscriptions, and
    /// a Deliver to a subscription that has handled nothing, of which nothing is on its way, and whose cursor
    /// stands at its resume.
    pub fn step(&mut self, alloc: Global, op: Op) -> Result<Reply, AllocError>
        ensures performs { Performs self.old self.new result (step self.old op) }
        ensures memory { OnErr result (may_allocate self.old op ≡ true) }
    {
        self.apply(alloc, &op)
    }

    /// Does one operation that is lent, as `step` does it. The payloads of a batch are copied once, into the
    /// log.
    ///
    /// # Errors
    /// They are those of `step`.
    #[inline(never)]
    pub fn apply(&mut self, alloc: Global, op: &Op) -> Result<Reply, AllocError>
        ensures performs { Performs self.old self.new result (step self.old op.now) }
        ensures memory { OnErr result (may_allocate self.old op.now ≡ true) }
    {
        let outcome = self.advance(alloc, op)?;
        Ok(reply_of(&outcome, &self.parts.queue))
    }

    /// Does one operation that is lent, as `step` does it, and gives an answer that stands for the reply. The events
    /// of a turn are put into `events`, in the place of those before, where that has room for sixteen.
    ///
    /// # Errors
    /// They are those of `step`.
    #[inline(always)]
    pub fn answer(
        &mut self,
        alloc: Global,
        op: &Op,
        events: &mut Vec<Event>,
    ) -> Result<Answer, AllocError>
        ensures performs { Performs self.old self.new result (step self.old op.now) }
        ensures memory { OnErr result (may_allocate self.old op.now ≡ true) }
        ensures shows { MatchResult result (λ r. Shows events.old events.new r) (λ _. events.new ≡ events.old) }
    {
        let outcome = self.advance(alloc, op)?;
        show(&outcome, &self.parts.queue, events);
        Ok(Answer::new(outcome, &self.parts.queue))
    }

    /// Does the operations in order, and appends their replies.
    ///
    /// # Errors
    /// The call failed to allocate. The operations whose replies were appended are done, and no other. It
    /// comes in front of an operation that is not yet done: of the first one, where there is no room for all
    /// replies, or of one for which `step` would fail to allocate.
    pub fn run(
        &mut self,
        alloc: Global,
        mut ops: Vec<Op>,
        replies: &mut Vec<Reply>,
    ) -> Result<(), AllocError>
        ensures done { OnOk result (Does ops.items self.old self.new replies.old.items replies.new.items) }
        ensures front { OnErr result (StopsBefore ops.items self.old self.new replies.old.items replies.new.items) }
    {
        if ops.is_empty() {
            return Ok(());
        }
        replies.reserve(ops.len())?;
        ops.reverse();
        while let Some(op) = ops.pop() {
            let reply = self.step(alloc, op)?;
            replies.push_reserved(reply);
        }
        Ok(())
    }

    /// Does one operation that is lent, as `step` does it, and gives no more than it came to: of a turn the
    /// positions of its events in the log, where a `Reply` has the events.
    ///
    /// # Errors
    /// They are those of `step`.
    #[inline(always)]
    pub fn advance(&mut self, alloc: Global, op: &Op) -> Result<Outcome, AllocError>
        ensures performs { Performs self.old self.new (answered self.new.log result) (step self.old op.now) }
        ensures of_log { IfOk result (IsOfLog self.new.log) }
        ensures memory { OnErr result (may_allocate self.old op.now ≡ true) }
    {
        let outcome = step(&mut self.parts, alloc, op);
        // A table promises with its length that no number is given twice, and that its rows agree. That is
        // asked here, once for all operations: each starts from parts that `Agrees` speaks of.
        let _lengths = (self.parts.subs.len(), self.parts.grains.len());
        outcome
    }

    /// Publishes a batch, as `advance` does it at a Publish, where each payload is lent as its bytes. They are copied
    /// once, into the log. It gives what came of the batch, which the producer's reply says.
    ///
    /// # Errors
    /// They are those of `step`.
    #[inline(never)]
    pub fn publish(
        &mut self,
        alloc: Global,
        stream: &StreamId,
        payloads: &[&[u8]],
    ) -> Result<Appended, AllocError>
        requires { AllByRecursion IsPayload (map (λ payload. payload.now) payloads.now) }
        ensures performs { Performs self.old self.new (appended_reply result) (step self.old (Op.Publish stream.now (map (λ payload. payload.now) payloads.now))) }
        ensures memory { OnErr result (may_allocate self.old (Op.Publish stream.now (map (λ payload. payload.now) payloads.now)) ≡ true) }
    {
        let appended = publish_slices(&mut self.parts, alloc, stream, payloads);
        // As in `advance`: the next operation starts from parts that `Agrees` speaks of.
        let _lengths = (self.parts.subs.len(), self.parts.grains.len());
        appended
    }

    /// The limits that the partition was made with. Its events, subscriptions, rules and rises are never
    /// more, and a legal history leads to it, so that each law of [`laws`](crate::laws) holds of it.
    pub fn limits(&self) -> Limits
        ensures limits { result ≡ self.now.limits }
        ensures within { IsWithinLimits self.now }
        ensures reached { IsReached self.now }
    {
        self.parts.limits
    }

    /// The event at a position of the log.
    pub fn event_at(&self, position: usize) -> Event
        requires { position < length self.now.log }
        ensures { result ≡ slice_index_or self.now.log position no_event }
    {
        self.parts.queue.event_at(position)
    }

    /// One past the last position that the cache has.
    pub(crate) fn high(&self) -> usize
        ensures { result ≡ self.now.high }
    {
        self.parts.agent.cache().high()
    }

    /// How many events the queue has.
    pub(crate) fn queued(&self) -> usize
        ensures { result ≡ length self.now.log }
    {
        self.parts.queue.len()
    }

    /// The number of the last turn, 0 before the first, of a partition that a legal history leads to.
    pub(crate) fn turns(&self) -> u64
        ensures turns { result ≡ self.now.turns }
        ensures reached { IsReached self.now }
    {
        self.parts.turns
    }

    /// The least grain that a turn runs for.
    pub(crate) fn least_running(&self) -> Option<GrainId>
        ensures { result ≡ least grain_lt (keys_where is_running self.now.grains) }
    {
        least_running(&self.parts)
    }

    /// The least grain that something waits for.
    pub(crate) fn least_waiting(&self) -> Option<GrainId>
        ensures { result ≡ least_waiting self.now }
    {
        least_waiting(&self.parts)
    }

    /// How many deliveries wait.
    pub(crate) fn all_waiting(&self) -> u128
        ensures { result ≡ all_waiting self.now }
    {
        all_waiting(&self.parts)
    }

    /// The number of the due subscription with the least name that is greater than the name of the one with the given
    /// number, in a partition that a legal history leads to.
    pub(crate) fn next_due(&self, after: Option<usize>) -> Option<usize>
        requires { IfSome after (λ number. number < length self.now.subs) }
        ensures next { option_map (name_of self.now) result ≡ next_due self.now (option_map (name_of self.now) after) }
        ensures within { IfSome result (λ number. number < length self.now.subs) }
        ensures reached { IsReached self.now }
    {
        next_due(&self.parts, after)
    }

    /// The name of the subscription with a number.
    pub(crate) fn name(&self, number: usize) -> SubName
        requires { number < length self.now.subs }
        ensures { result ≡ name_of self.now number }
    {
        self.parts.subs.name(number)
    }

    /// The grain of the subscription with a number.
    pub(crate) fn grain(&self, number: usize) -> GrainId
        requires { number < length self.now.subs }
        ensures { Some result ≡ option_map grain_of (sub_at self.now (name_of self.now number)) }
    {
        *self.parts.subs.grain(number)
    }

    /// From where on the next event of the subscription with a number is sought.
    pub(crate) fn cursor(&self, number: usize) -> usize
        requires { number < length self.now.subs }
        ensures { Some result ≡ option_map cursor_of (sub_at self.now (name_of self.now number)) }
    {
        self.parts.subs.state(number).cursor
    }

    /// Whether a drain that serves a subscription changes nothing, in a partition that a legal history leads to.
    pub(crate) fn is_settled(&self, sub: &SubName) -> bool
        ensures settled { result ≡ is_settled_in self.now.high (sub_at self.now sub.now) }
        ensures reached { IsReached self.now }
    {
        is_settled(&self.parts, sub)
    }

    /// The token of the last event that a subscription has handled.
    pub(crate) fn last_handled(&self, sub: &SubName) -> Option<Token>
        ensures { result ≡ last_handled self.now (sub_at self.now sub.now) }
    {
        last_handled(&self.parts, sub)
    }

    /// Whether everything is pulled, delivered and handled, and else the first reason why it isn't. It takes no
    /// memory.
    pub fn quiet(&self) -> Quiet
        ensures quiet { result ≡ quiet_by (pending_in self.now) }
        ensures owes { result ≡ Yes → OwesNothing self.now }
    {
        match pending(&self.parts) {
            None => Quiet::Yes,
            Some(why) => Quiet::No(why),
        }
    }

    /// The token of the first event that the cache keeps, or would keep next.
    pub fn low_token(&self) -> Token
        ensures { result ≡ low_token self.now }
    {
        low_token(&self.parts)
    }

    /// The token after the last event that the cache has.
    pub fn high_token(&self) -> Token
        ensures { result ≡ high_token self.now }
    {
        high_token(&self.parts)
    }

    /// The generation of the current pulling agent, and its silo.
    pub fn agent(&self) -> (u64, u8)
        ensures generation { result.0 ≡ self.now.generation }
        ensures silo { result.1 ≡ self.now.silo }
    {
        let agent = &self.parts.agent;
        (agent.generation(), agent.silo())
    }

    /// What the queue keeps, and how much more it takes. It takes no memory and walks over no list, however much there
    /// is.
    pub fn figures(&self) -> QueueFigures
        ensures { result ≡ figures_of self.now }
    {
        queue_figures(&self.parts)
    }

    /// How far a subscription is, and none where it has no record. It takes no memory, and costs a look-up of its name.
    pub fn subscription(&self, sub: &SubName) -> Option<SubscriptionFigures>
        ensures { result ≡ subscription_figures_of self.now sub.now }
    {
        subscription_figures(&self.parts, sub)
    }

    /// How many subscriptions have a record.
    pub fn sub_count(&self) -> usize
        ensures { result ≡ length (summaries_in_order self.now) }
    {
        self.parts.subs.len()
    }

    /// The subscription at a place in the order of the names of those that have a record. It takes no memory.
    pub fn sub_at(&self, place: usize) -> SubSummary
        requires { place < length (summaries_in_order self.now) }
        ensures { slice_get (summaries_in_order self.now) place ≡ Some result }
    {
        summary_at(&self.parts, place)
    }

    /// The subscriptions that have a record, in the order of their names.
    ///
    /// # Errors
    /// The call failed to allocate.
    pub fn subs(&self, alloc: Global) -> Result<Vec<SubSummary>, AllocError>
        ensures { IfOk result (λ subs. subs.items ≡ summaries_in_order self.now) }
    {
        summaries(&self.parts, alloc)
    }

    /// The positions in the log of the events that a subscription has handled, in the order in which it handled
    /// them, and none where it has no record. [`event_at`](Partition::event_at) gives the event of each.
    pub fn handled_positions(&self, sub: &SubName) -> &[usize]
        ensures positions { result.now ≡ handled_positions self.now sub.now }
        ensures within { AllByRecursion (λ position. position < length self.now.log) result.now }
    {
        handled_positions(&self.parts, sub)
    }

    /// The events that a subscription has handled, in the order in which it handled them, and none where it
    /// has no record.
    ///
    /// # Errors
    /// The call failed to allocate.
    pub fn handled(&self, alloc: Global, sub: &SubName) -> Result<Vec<Event>, AllocError>
        ensures { IfOk result (λ events. events.items ≡ handled_of self.now sub.now) }
    {
        handled(&self.parts, alloc, sub)
    }
}

impl fmt::Debug for Partition {
    /// The agent, and how much the partition has: all that it keeps would be pages of text.
    fn fmt<W: fmt::Write>(&self, f: &mut fmt::Formatter<W>) -> fmt::Result {
        let (generation, silo) = self.agent();
        f.debug_struct("Partition")
            .field("generation", &generation)
            .field("silo", &silo)
            .field("events", &self.queued())
            .field("subs", &self.parts.subs.len())
            .field("grains", &self.parts.grains.len())
            .finish_non_exhaustive()
    }
}
