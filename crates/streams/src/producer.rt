//! What publishes to the streams of a service beside it.
ghost use Rattle.std.specs.Prelude.{◌≡◌, ◌<◌, ◌≤◌, length};
ghost use Rattle.queue_callers.specs.Calls.{CallerCalls, turnstiles};
ghost use Rattle.streams.specs.Services.{Publishes};

use crate::UntracedCaller;
use crate::answers::{PublishError, StreamToken, published};
use queue_mapper::queue;
use shared_partition::Gate;
use silo_loops::LoopEnd;
use std::alloc::Global;
use std::marker::Model;
use std::snapshot::Snapshot;
use std::sync::Wait;
use std::thread::Promise;
use step_core::Answer;
use stream_ident::{Batch, Payload, StreamId};
use stream_model::Op;
use turnstile::Refusal;

/// Publishes to the streams of a service beside it, also in another thread.
///
/// [`Service::producer`](crate::Service::producer) makes it, and [`Service::take_back`](crate::Service::take_back) takes
/// it in again; one that is dropped is lost, and `close` then answers `NotAll`. One that goes to a thread comes back by a
/// [`promise`](Producer::promise).
///
/// A contract sees it as its passes, in the order of the queues.
pub struct Producer<R: Wait + Copy, G: Gate> {
    rt: R,
    alloc: Global,
    caller: UntracedCaller<G>,
}

impl<R: Wait + Copy, G: Gate> Drop for Producer<R, G> {
    fn drop(self) {
        let Self {
            rt: _,
            alloc: _,
            caller: _,
        } = self;
    }
}

impl<R: Wait + Copy, G: Gate> Model for Producer<R, G> {
    ghost use Rattle.std.specs.Prelude.{◌≤◌, List, length};
    ghost use Rattle.silo_loops.specs.Lines.{QueuePass};

    ghost Value = { List QueuePass };

    ghost view = { λ p. p.caller };

    ghost invariant = { λ p. 1 ≤ length p.caller };
}

impl<R: Wait + Copy, G: Gate> Producer<R, G> {
    /// What publishes by this caller.
    pub(crate) fn new(rt: R, alloc: Global, caller: UntracedCaller<G>) -> Producer<R, G>
        requires { 1 ≤ length caller }
        ensures { result ≡ caller }
    {
        Producer { rt, alloc, caller }
    }

    /// The caller that it published by.
    pub(crate) fn into_caller(self) -> UntracedCaller<G>
        ensures { result ≡ self }
    {
        let Producer {
            rt: _,
            alloc: _,
            caller,
        } = self;
        caller
    }

    /// What a thread promises that is given this producer by [`spawn_with`](std::thread::spawn_with), and gives it back
    /// beside what it comes to. A function that starts one asks `Threads + Wait + Copy + Send + 'static` of its runtime:
    /// under the many bounds of a [`Host`](crate::Host) no search shows that the producer may be sent.
    pub fn promise(&self) -> ProducerPromise<R, G>
        ensures { result.0.value ≡ self.now }
    {
        ProducerPromise(Snapshot::of(self))
    }

    /// Publishes a batch of 1 to 64 payloads to a stream, as [`Service::publish`](crate::Service::publish) does.
    ///
    /// # Errors
    /// They are those of [`PublishError`]. Nothing was published.
    pub fn publish(
        &mut self,
        stream: StreamId,
        payloads: &[Payload],
    ) -> Result<StreamToken, PublishError>
        ensures publishes { Publishes self.old stream payloads.now result self.new }
        ensures turnstiles { turnstiles self.new ≡ turnstiles self.old }
    {
        publish(&self.rt, self.alloc, &mut self.caller, stream, payloads)
    }
}

/// The promise of a thread that a producer goes to: the one that comes back publishes to the same service, so
/// [`Service::take_back`](crate::Service::take_back) may be given it.
#[derive(Drop)]
pub struct ProducerPromise<R: Wait + Copy, G: Gate>(Snapshot<Producer<R, G>>);

impl<R: Wait + Copy, G: Gate, T> Promise<(Producer<R, G>, T)> for ProducerPromise<R, G> {
    ghost kept_by = { λ promise came. turnstiles came.0 ≡ turnstiles promise.0.value };
}

/// A caller publishes a batch.
pub(crate) fn publish<R: Wait, G: Gate>(
    rt: &R,
    alloc: Global,
    caller: &mut UntracedCaller<G>,
    stream: StreamId,
    payloads: &[Payload],
) -> Result<StreamToken, PublishError>
    requires { 1 ≤ length caller.old }
    ensures publishes { Publishes caller.old stream payloads.now result caller.new }
    ensures turnstiles { turnstiles caller.new ≡ turnstiles caller.old }
{
    if let Some(end) = ending(rt, caller) {
        return Err(PublishError::Ended { end });
    }
    let Ok(payloads) = Vec::from_slice(alloc, payloads) else {
        return Err(PublishError::Memory);
    };
    let payloads = Batch::of(payloads);
    let queue = queue(&stream, caller.queues());
    let reply = ask(rt, alloc, caller, queue, Op::Publish { stream, payloads });
    published(rt, caller, queue, stream, reply)
}

/// What has ended a loop of a silo by itself, where one has ended.
pub(crate) fn ending<R: Wait, G: Gate>(rt: &R, caller: &UntracedCaller<G>) -> Option<LoopEnd> {
    let doorbell = caller.doorbell();
    if !doorbell.has_ended() {
        return None;
    }
    doorbell.loop_end(rt)
}

/// A caller makes one call at a queue.
pub(crate) fn ask<R: Wait, G: Gate>(
    rt: &R,
    alloc: Global,
    caller: &mut UntracedCaller<G>,
    queue: usize,
    op: Op,
) -> Result<Answer, Refusal>
    requires { queue < length caller.old }
    ensures calls { CallerCalls caller.old queue op result caller.new }
    ensures turnstiles { turnstiles caller.new ≡ turnstiles caller.old }
{
    caller.ask(rt, alloc, queue, op, &mut Vec::new(alloc))
}
