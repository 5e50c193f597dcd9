//! A cluster with its first caller, as a service uses it.
ghost use Rattle.std.specs.Prelude.{◌≡◌, ◌<◌, ◌≤◌, length, IfOk};
ghost use Rattle.silo_threads.specs.Clusters.{IsConfig};
ghost use Rattle.queue_callers.specs.Calls.{CallerCalls, CallerSplits, JoinsAll, joined_passes, turnstiles};
ghost use Rattle.streams.specs.Answers.{checked_token};
ghost use Rattle.streams.specs.Services.{AddsRule, AsksPending, ChangesDown, ChangesUp, Closes, IsNewService, IsProducerOf, Publishes, ReadsQueue, ReadsSubscription, SeesNext, Subscribes, Unsubscribes, queue_of};
ghost use Rattle.streams.specs.Settling.{PublishesFrom, Settles, SettlesWith};

use crate::answers::{
    CallError, CloseError, Closed, PublishError, SettleError, SiloError, StartFrom, StreamToken,
    SubscribeError, Subscription, UnsubscribeError, all_gone, came, closing, pending_of,
    rule_added, subscribed, unsubscribed, went,
};
use crate::outbox::{Outbox, Unpublished};
use crate::producer::{Producer, ask, ending, publish};
use crate::settling::settle;
use crate::{UntracedCaller, UntracedCluster};
use queue_mapper::queue;
use shared_partition::Gate;
use silo_threads::Config;
use std::alloc::{AllocError, Global};
use std::marker::Model;
use std::rt::Runtime;
use std::sync::{Arc, Wait};
use std::thread::Threads;
use step_core::{Answer, QueueFigures, SubscriptionFigures};
use stream_ident::{GrainId, MOST_SILOS, Name, Payload, StreamId, SubName, Token};
use stream_model::{Op, Pending};
use turnstile::Refusal;

/// A runtime that allocates, starts threads and waits for them in any thread, as the one that `main` has.
pub trait Host: Runtime + AllocGlobal + Threads + Wait + Copy + Send + Sync + 'static {}

impl<R: Runtime + AllocGlobal + Threads + Wait + Copy + Send + Sync + 'static> Host for R {}

/// A cluster with its first caller, on a runtime: what a service asks of its streams, with an answer of its own for
/// each call.
///
/// A contract sees the cluster and the caller.
pub struct Service<R: Host, G: Gate> {
    rt: R,
    cluster: UntracedCluster<G>,
    caller: UntracedCaller<G>,
    // empty, with the room that the caller takes when the service is closed
    callers: Vec<UntracedCaller<G>>,
}

impl<R: Host, G: Gate> Drop for Service<R, G> {
    fn drop(self) {
        let Self {
            rt: _,
            cluster: _,
            caller: _,
            callers: _,
        } = self;
    }
}

impl<R: Host, G: Gate> Model for Service<R, G> {
    ghost use Rattle.std.specs.Prelude.{◌≡◌, ◌≤◌, [], vec_capacity};
    ghost use Rattle.streams.specs.Services.{IsService, ServiceView};

    ghost Value = { ServiceView };

    ghost view = { λ s. record { cluster = s.cluster; caller = s.caller } };

    ghost invariant = { λ s. IsService (record { cluster = s.cluster; caller = s.caller }) × (s.callers.items ≡ []) × (1 ≤ vec_capacity s.callers) };
}

impl<R: Host, G: Gate + 'static> Service<R, G> {
    /// Starts a cluster whose events this gate handles. The configuration has to be within what the fields of
    /// [`Config`] and of its [`Limits`](crate::Limits) say, with one rise at least.
    ///
    /// # Errors
    /// `AllocError`: the call failed to allocate, or a thread can't be made. Loops that ran by then were stopped, nothing
    /// is left of the service, and the gate is let go.
    pub fn open(rt: R, config: &Config, gate: Arc<G, Global>) -> Result<Service<R, G>, AllocError>
        requires { IsConfig config.now }
        ensures { IfOk result (IsNewService config.now) }
    {
        let callers = Vec::with_capacity(rt.alloc(), 1)?;
        let (cluster, caller) = UntracedCluster::new(&rt, rt.alloc(), config, gate)?;
        Ok(Service {
            rt,
            cluster,
            caller,
            callers,
        })
    }

    /// How many queues there are.
    pub fn queues(&self) -> usize
        ensures count { result ≡ length self.now.caller }
        ensures some { 1 ≤ result }
    {
        self.caller.queues()
    }

    /// The queue of a stream.
    pub fn queue_of(&self, stream: &StreamId) -> usize
        ensures place { result ≡ queue_of self.now.caller stream.now }
        ensures queue { result < length self.now.caller }
    {
        queue(stream, self.caller.queues())
    }

    /// Publishes a batch of 1 to 64 payloads to a stream, and gives the token of its first event. The batch is in the
    /// log then, and perhaps not yet handled. A subscription that starts at this token begins with this batch, and is a
    /// `Miss` once its first event has left the cache.
    ///
    /// # Errors
    /// They are those of [`PublishError`]. Nothing was published.
    pub fn publish(
        &mut self,
        stream: StreamId,
        payloads: &[Payload],
    ) -> Result<StreamToken, PublishError>
        ensures publishes { Publishes self.old.caller stream payloads.now result self.new.caller }
        ensures cluster { self.new.cluster ≡ self.old.cluster }
        ensures turnstiles { turnstiles self.new.caller ≡ turnstiles self.old.caller }
    {
        publish(
            &self.rt,
            self.rt.alloc(),
            &mut self.caller,
            stream,
            payloads,
        )
    }

    /// What publishes to this service beside it. It has seen as much as the service has, and has published
    /// nothing.
    ///
    /// Hand it back by [`take_back`](Service::take_back) before [`close`](Service::close), which answers `InUse` while one
    /// is out, and `NotAll` where one was dropped.
    ///
    /// # Errors
    /// The call failed to allocate, or 2^32 passes of a queue were made. The service is as before: what was split off
    /// is joined again.
    pub fn producer(&mut self) -> Result<Producer<R, G>, AllocError>
        ensures splits { CallerSplits self.old.caller result self.new.caller }
        ensures producer { IfOk result (IsProducerOf self.new) }
        ensures cluster { self.new.cluster ≡ self.old.cluster }
        ensures turnstiles { turnstiles self.new.caller ≡ turnstiles self.old.caller }
    {
        let alloc = self.rt.alloc();
        let caller = self.caller.split(alloc)?;
        Ok(Producer::new(self.rt, alloc, caller))
    }

    /// Takes a producer of this service in again, with all that it has seen. It takes no memory.
    pub fn take_back(&mut self, producer: Producer<R, G>)
        requires { IsProducerOf self.old producer }
        ensures joined { self.new.caller ≡ joined_passes self.old.caller producer }
        ensures agree { JoinsAll self.old.caller producer self.new.caller }
        ensures cluster { self.new.cluster ≡ self.old.cluster }
        ensures turnstiles { turnstiles self.new.caller ≡ turnstiles self.old.caller }
    {
        self.caller.join(producer.into_caller());
    }

    /// Subscribes a grain to a stream. A start that was given as `At` or `Token` may not be above the token that the next
    /// batch of the queue gets, for which the queue is looked at before. That token only rises: where others publish
    /// between the look and the subscription, a start that is accepted stays right, and one that is refused may be right
    /// by then.
    ///
    /// # Errors
    /// They are those of [`SubscribeError`]. No subscription was made.
    pub fn subscribe(
        &mut self,
        stream: StreamId,
        grain: GrainId,
        from: StartFrom,
    ) -> Result<Subscription, SubscribeError>
        ensures subscribes { Subscribes self.old.caller stream grain from result self.new.caller }
        ensures cluster { self.new.cluster ≡ self.old.cluster }
        ensures turnstiles { turnstiles self.new.caller ≡ turnstiles self.old.caller }
    {
        let Some(start) = from.start_for(&stream) else {
            return Err(SubscribeError::OtherStream);
        };
        if let Some(end) = ending(&self.rt, &self.caller) {
            return Err(SubscribeError::Ended { end });
        }
        let queue = self.queue_of(&stream);
        if let Some(next) = self.next_below(queue, &from) {
            return Err(SubscribeError::Ahead { next });
        }
        let op = Op::Subscribe {
            stream,
            grain,
            start,
        };
        let reply = self.ask(queue, op);
        subscribed(&self.rt, &mut self.caller, queue, reply)
    }

    /// Ends a subscription, and gives how many events it has handled. It handles none after this. For a turn that runs
    /// meanwhile the handler may still be called; its commit is refused.
    ///
    /// # Errors
    /// They are those of [`UnsubscribeError`]. Nothing has changed.
    pub fn unsubscribe(&mut self, subscription: &Subscription) -> Result<usize, UnsubscribeError>
        ensures unsubscribes { Unsubscribes self.old.caller subscription.now result self.new.caller }
        ensures cluster { self.new.cluster ≡ self.old.cluster }
        ensures turnstiles { turnstiles self.new.caller ≡ turnstiles self.old.caller }
    {
        let queue = subscription.queue;
        if queue >= self.queues() {
            return Err(UnsubscribeError::NoSuch);
        }
        let sub = subscription.name();
        unsubscribed(self.ask(queue, Op::Unsubscribe { sub }))
    }

    /// From now on the grains of a kind consume the streams of a namespace, each the stream with its key. Each queue is
    /// told so, and the result is whether one of them didn't have the rule yet.
    ///
    /// # Errors
    /// `Limit` where a queue has as many rules as it may have or its history is full, and `Memory` where a call failed
    /// to allocate there. Which queue that was isn't said. The queues before it have the rule, and nothing has
    /// changed at the others. The call may be made again. A rule can't be taken back, and is added also where a loop has
    /// ended.
    pub fn add_rule(&mut self, kind: Name, namespace: Name) -> Result<bool, CallError>
        ensures adds { AddsRule self.old.caller kind namespace result self.new.caller }
        ensures cluster { self.new.cluster ≡ self.old.cluster }
        ensures turnstiles { turnstiles self.new.caller ≡ turnstiles self.old.caller }
    {
        let mut is_new = false;
        for queue in 0..self.queues() {
            is_new |= rule_added(self.ask(queue, Op::AddRule { kind, namespace }))?;
        }
        Ok(is_new)
    }

    /// What is left to do at a queue, or none where everything is pulled, delivered and handled.
    ///
    /// # Errors
    /// `NoQueue` where there is no such queue, `Limit` where its history is full, and `Memory` where the call failed to
    /// allocate. Nothing has changed.
    pub fn pending(&mut self, queue: usize) -> Result<Option<Pending>, CallError>
        ensures asks { AsksPending self.old.caller queue result self.new.caller }
        ensures cluster { self.new.cluster ≡ self.old.cluster }
        ensures turnstiles { turnstiles self.new.caller ≡ turnstiles self.old.caller }
    {
        if queue >= self.queues() {
            return Err(CallError::NoQueue);
        }
        pending_of(self.ask(queue, Op::Quiet))
    }

    /// What a queue keeps, and none where there is no such queue. It waits for its turn there, asks nothing that the
    /// history would keep, and takes no memory; what it costs doesn't grow with the queue.
    pub fn queue(&mut self, queue: usize) -> Option<QueueFigures>
        ensures reads { ReadsQueue self.old.caller queue result self.new.caller }
        ensures cluster { self.new.cluster ≡ self.old.cluster }
        ensures turnstiles { turnstiles self.new.caller ≡ turnstiles self.old.caller }
    {
        if queue >= self.queues() {
            return None;
        }
        Some(self.caller.figures(&self.rt, queue))
    }

    /// How far a subscription is, and none where there is no such queue, or no such subscription at it. It is read as
    /// [`queue`](Service::queue) reads what a queue keeps, and costs a look-up.
    pub fn subscription(&mut self, queue: usize, sub: &SubName) -> Option<SubscriptionFigures>
        ensures reads { ReadsSubscription self.old.caller queue sub.now result self.new.caller }
        ensures cluster { self.new.cluster ≡ self.old.cluster }
        ensures turnstiles { turnstiles self.new.caller ≡ turnstiles self.old.caller }
    {
        if queue >= self.queues() {
            return None;
        }
        self.caller.subscription(&self.rt, queue, sub)
    }

    /// Waits until everything that was published is handled: all queues were quiet in one look, and had accepted as many
    /// batches after it as before it. It looks at them as often as [`Config`]'s `looks` says at most until they are quiet,
    /// and between two looks waits until something happens: so that is no time.
    /// Where a batch was accepted meanwhile it waits again, as often at most. It asks nothing else of them.
    ///
    /// So the turns of all those events are committed. It doesn't wait for [`Gate::done`], which a worker calls after the
    /// commit: for the last turns it may not have been called yet. What handlers have put into an outbox is for
    /// [`settle_with`](Service::settle_with). Where a handler doesn't return, this call may wait for ever.
    ///
    /// # Errors
    /// They are those of [`SettleError`]. What was published stays, and the silos go on with it. The call may be made
    /// again, save that a loop that has ended stays so.
    pub fn settle(&mut self) -> Result<(), SettleError>
        ensures settles { Settles self.old.cluster.looks self.old.cluster.looks self.old.caller result self.new.caller }
        ensures cluster { self.new.cluster ≡ self.old.cluster }
        ensures turnstiles { turnstiles self.new.caller ≡ turnstiles self.old.caller }
    {
        let looks = self.cluster.looks();
        settle(&self.rt, &mut self.caller, looks)
    }

    /// Publishes what waits in an outbox, in the order in which it was put in, and gives how many messages that were: as
    /// many as the outbox has room for at most.
    ///
    /// # Errors
    /// A message was refused. It has left the outbox, and comes back. Those before it are published, how many isn't said,
    /// and those after it still wait.
    pub fn publish_from(&mut self, outbox: &Outbox<R>) -> Result<usize, Unpublished>
        ensures publishes { PublishesFrom self.old.caller result self.new.caller }
        ensures room { IfOk result (λ published. published ≤ outbox.now) }
        ensures cluster { self.new.cluster ≡ self.old.cluster }
        ensures turnstiles { turnstiles self.new.caller ≡ turnstiles self.old.caller }
    {
        let room = outbox.room();
        for published in 0..room {
            let Some(message) = outbox.take() else {
                return Ok(published);
            };
            if let Err(why) = self.publish(message.stream, &[message.payload]) {
                return Err(Unpublished { message, why });
            }
        }
        Ok(room)
    }

    /// Waits until everything that was published is handled, with all that handlers put into an outbox for it: it settles
    /// and publishes what is in the outbox, until nothing is in it after that, and as often as [`Config`]'s `looks` says at
    /// most. What [`Gate::done`] puts in may come too late.
    ///
    /// # Errors
    /// They are those of [`settle`](Service::settle), and `Unpublished`: a message was refused, has left the outbox, and comes
    /// back. After each error what was published stays so, and all other messages wait in the outbox.
    pub fn settle_with(&mut self, outbox: &Outbox<R>) -> Result<(), SettleError>
        ensures settles { SettlesWith self.old.cluster.looks self.old.cluster.looks self.old.caller result self.new.caller }
        ensures cluster { self.new.cluster ≡ self.old.cluster }
        ensures turnstiles { turnstiles self.new.caller ≡ turnstiles self.old.caller }
    {
        for _round in 0..self.cluster.looks() {
            self.settle()?;
            match self.publish_from(outbox) {
                Ok(0) => return Ok(()),
                Ok(_) => {}
                Err(unpublished) => return Err(SettleError::Unpublished(unpublished)),
            }
        }
        Err(SettleError::NotQuiet)
    }

    /// A silo comes: its loops are started, and the queues are spread over all silos that live.
    ///
    /// # Errors
    /// They are those of [`SiloError`]. After `NoSilo`, `Ended`, `Already` and `Halted` nothing was done. After `Limit` and
    /// `Memory` what was answered by then stands, and no silo comes or goes any more. Where not all of the silo's threads
    /// could be made, one of them may have stopped with a turn in hand, so [`settle`](Service::settle) answers `Ended`
    /// unless all is quiet; [`close`](Service::close) still ends the service.
    pub fn silo_up(&mut self, silo: u8) -> Result<(), SiloError>
        ensures changes { ChangesUp self.old silo result self.new }
        ensures caller { self.new.caller ≡ self.old.caller }
    {
        if silo >= MOST_SILOS {
            return Err(SiloError::NoSilo);
        }
        if let Some(end) = ending(&self.rt, &self.caller) {
            return Err(SiloError::Ended { end });
        }
        came(self.cluster.silo_up(&self.rt, self.rt.alloc(), silo))
    }

    /// A silo goes: its loops are stopped, its grains are deactivated, and the queues are spread over the silos that
    /// live. What waits or runs there may be handled elsewhere from then on.
    ///
    /// # Errors
    /// They are those of [`SiloError`]. After `NoSilo`, `NotLive`, `LastSilo` and `Halted` nothing was done. After
    /// `Limit` and `Memory` the loops of the silo have stopped, what was answered by then stands, and no silo comes or
    /// goes any more. A queue that was not moved has no agent then, so [`settle`](Service::settle) answers `Ended`
    /// unless all is quiet; [`close`](Service::close) still ends the service.
    pub fn silo_down(&mut self, silo: u8) -> Result<(), SiloError>
        ensures changes { ChangesDown self.old silo result self.new }
        ensures caller { self.new.caller ≡ self.old.caller }
    {
        if silo >= MOST_SILOS {
            return Err(SiloError::NoSilo);
        }
        went(self.cluster.silo_down(&self.rt, self.rt.alloc(), silo))
    }

    /// Stops all silos, waits until each handler has returned, and gives the report, or why there is none, and what is
    /// left of each partition.
    ///
    /// The report comes where everything is handled, so call [`settle`](Service::settle) before this. After `Memory`, `NotAll`
    /// and `InUse` the partitions are gone, so take each producer back before. A service that is
    /// dropped without this call leaves its silos running until the program ends.
    pub fn close(self) -> Closed
        ensures { Closes self result }
    {
        let Service {
            rt,
            cluster,
            caller,
            mut callers,
        } = self;
        callers.push_reserved(caller);
        match cluster.finish(&rt, rt.alloc(), callers) {
            Ok(ended) => closing(rt.alloc(), ended.finished),
            Err(_) => all_gone(rt.alloc(), CloseError::Memory),
        }
    }

    // The token that the next batch at a queue gets, where the start is above it and may not be.
    fn next_below(&mut self, queue: usize, from: &StartFrom) -> Option<Token>
        requires { queue < length self.old.caller }
        ensures sees { SeesNext self.old.caller queue (checked_token from.now) result self.new.caller }
        ensures queues { length self.new.caller ≡ length self.old.caller }
        ensures cluster { self.new.cluster ≡ self.old.cluster }
        ensures turnstiles { turnstiles self.new.caller ≡ turnstiles self.old.caller }
    {
        let start = from.checked_token()?;
        let seq = self.caller.figures(&self.rt, queue).batches;
        let next = Token { seq, idx: 0 };
        next.is_before(&start).then_some(next)
    }

    // One call at a queue.
    fn ask(&mut self, queue: usize, op: Op) -> Result<Answer, Refusal>
        requires { queue < length self.old.caller }
        ensures calls { CallerCalls self.old.caller queue op result self.new.caller }
        ensures cluster { self.new.cluster ≡ self.old.cluster }
        ensures turnstiles { turnstiles self.new.caller ≡ turnstiles self.old.caller }
    {
        ask(&self.rt, self.rt.alloc(), &mut self.caller, queue, op)
    }
}
