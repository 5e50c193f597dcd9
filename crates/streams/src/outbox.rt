//! What handlers publish.
ghost use Rattle.std.specs.Prelude.{◌≡◌, ◌≤◌, IfErr, IfOk};

use crate::answers::PublishError;
use crate::service::Host;
use crossbeam_queue::ArrayQueue;
use std::alloc::AllocError;
use std::marker::Model;
use std::sync::Wait;
use stream_ident::{Payload, StreamId};
use thiserror::Error;

/// A payload that is to be published to a stream, as a batch of its own.
#[derive(Clone, Copy, Debug, PartialEq, Eq)]
pub struct Message {
    /// The stream.
    pub stream: StreamId,
    /// The payload.
    pub payload: Payload,
}

/// An outbox has no room for a message.
#[derive(Clone, Copy, Debug, PartialEq, Eq, Error)]
#[error("the outbox is full")]
pub struct OutboxFull {
    /// The message.
    pub message: Message,
}

/// A message that was taken out of an outbox and isn't published.
#[derive(Clone, Copy, Debug, PartialEq, Eq, Error)]
#[error("to {}/{}: {why}", message.stream.namespace, message.stream.key)]
pub struct Unpublished {
    /// The message.
    pub message: Message,
    /// Why it isn't published.
    pub why: PublishError,
}

/// What handlers have to publish, until their service does.
///
/// A gate holds it, shared with whoever has the service: a handler puts messages in, and
/// [`Service::publish_from`](crate::Service::publish_from) or [`Service::settle_with`](crate::Service::settle_with)
/// publishes them. It is made before the service is opened, and needs no end. What is in it once the service is closed was
/// never published.
///
/// A message is published at least once: where a turn is lost before its commit, its events are handled again, and their
/// messages put in again. A consumer knows a repeat where the payload names what it came from.
///
/// A contract sees it as how many messages it has room for. None says which are in it.
pub struct Outbox<R: Wait + Copy> {
    rt: R,
    messages: ArrayQueue<Message>,
}

impl<R: Wait + Copy> Drop for Outbox<R> {
    fn drop(self) {
        let Self { rt: _, messages: _ } = self;
    }
}

impl<R: Wait + Copy> Model for Outbox<R> {
    ghost use Rattle.std.specs.Prelude.{ℕ};
    ghost use Rattle.crossbeam_queue.specs.Passes.{queue_capacity};

    ghost Value = { ℕ };

    ghost view = { λ o. queue_capacity o.messages };
}

impl<R: Host> Outbox<R> {
    /// An outbox for so many messages. All its room is taken now.
    ///
    /// # Errors
    /// The call failed to allocate.
    pub fn new(rt: R, room: usize) -> Result<Outbox<R>, AllocError>
        requires { 1 ≤ room }
        ensures { IfOk result (λ outbox. outbox ≡ room) }
    {
        let messages = ArrayQueue::new(rt.alloc(), room)?;
        Ok(Outbox { rt, messages })
    }
}

impl<R: Wait + Copy> Outbox<R> {
    /// Puts a message in. It takes no memory, and waits for no queue.
    ///
    /// # Errors
    /// The outbox is full. The message isn't in it and comes back, and those that are in it stay. A handler mustn't wait
    /// for room: the service may be waiting for that handler.
    pub fn put(&self, message: Message) -> Result<(), OutboxFull>
        ensures { IfErr result (λ full. full.message ≡ message) }
    {
        match self.messages.push(&self.rt, message) {
            Ok(()) => Ok(()),
            Err(message) => Err(OutboxFull { message }),
        }
    }

    /// How many messages it has room for.
    pub(crate) fn room(&self) -> usize
        ensures { result ≡ self.now }
    {
        self.messages.capacity()
    }

    /// The message that waits longest.
    pub(crate) fn take(&self) -> Option<Message> {
        self.messages.pop(&self.rt)
    }
}
