//! A caller in a thread, and what it was told.
ghost use Rattle.std.specs.Prelude.{◌≡◌, IfOk};
ghost use Rattle.queue_callers.specs.Calls.{turnstiles};

use crate::asking::{Produced, production};
use crate::told::Told;
use shared_partition::{Gate, QueueHistory};
use silo_threads::{Caller, Drained, drain};
use std::alloc::{AllocError, Global};
use std::marker::Model;
use std::process::Abort;
use std::sync::Wait;
use step_core::{Op, Reply};
use turnstile::Refusal;

/// A caller of a cluster, and what it was told was published. A contract sees the turnstiles of its passes.
pub struct Producer<G: Gate, H: QueueHistory> {
    caller: Caller<G, H>,
    told: Vec<Told>,
}

impl<G: Gate + Drop, H: QueueHistory + Drop> Drop for Producer<G, H> {
    fn drop(self) {
        let Self { caller: _, told: _ } = self;
    }
}

impl<G: Gate, H: QueueHistory> Model for Producer<G, H> {
    ghost use Rattle.std.specs.Prelude.{List, Option};
    ghost use Rattle.stream_model.specs.declared.plain.PlainPartition.{PlainPartition};
    ghost use Rattle.queue_callers.specs.Calls.{turnstiles};
    ghost use Rattle.turnstile.specs.Passes.{Origin};

    ghost Value = { List (Option (Origin PlainPartition)) };

    ghost view = { λ p. turnstiles p.caller };
}

// The number that a reply gives to a subscription or a batch.
fn number_of(reply: &Reply) -> Option<u64> {
    match reply {
        Reply::Subscribed { number } => Some(u64::from(*number)),
        Reply::Published { seq } => Some(*seq),
        _ => None,
    }
}

// The number that a queue answers. It is refused only for want of memory.
fn ask<G: Gate, H: QueueHistory, R: Wait + Abort>(
    rt: &R,
    alloc: Global,
    caller: &mut Caller<G, H>,
    queue: usize,
    asked: &Produced,
) -> Result<u64, AllocError>
    ensures { turnstiles caller.new ≡ turnstiles caller.old }
{
    assert!(rt; queue < caller.queues());
    let op = production(rt, alloc, asked)?;
    match caller.call(rt, alloc, queue, op) {
        Ok(reply) => Ok(number_of(&reply).expect(rt, "it is taken")),
        Err(Refusal::Memory) => Err(AllocError),
        Err(Refusal::HistoryFull) => panic!(rt; "there is room"),
    }
}

impl<G: Gate, H: QueueHistory> Producer<G, H> {
    /// A producer with this caller, which was told nothing yet, and has room to be told of so many events.
    pub fn new(caller: Caller<G, H>, told: Vec<Told>) -> Producer<G, H>
        ensures { result ≡ turnstiles caller }
    {
        Producer { caller, told }
    }

    /// Another one of the same queues, which was told nothing yet.
    ///
    /// # Errors
    /// The call failed to allocate.
    pub fn split(&mut self, alloc: Global, room: usize) -> Result<Producer<G, H>, AllocError>
        ensures same { self.new ≡ self.old }
        ensures other { IfOk result (λ other. other ≡ self.old) }
    {
        let told = Vec::with_capacity(alloc, room)?;
        let caller = self.caller.split(alloc)?;
        Ok(Producer { caller, told })
    }

    /// Takes in another one of the same queues, with what it was told, for which there is room.
    pub fn join<R: Abort>(&mut self, rt: &R, other: Producer<G, H>)
        requires { other ≡ self.old }
        ensures { self.new ≡ self.old }
    {
        let (caller, mut told) = other.into_parts();
        self.caller.join(caller);
        self.told.append(&mut told).expect(rt, "room");
    }

    /// The caller, and what it was told.
    pub fn into_parts(self) -> (Caller<G, H>, Vec<Told>)
        ensures { turnstiles result.0 ≡ self }
    {
        let Producer { caller, told } = self;
        (caller, told)
    }

    /// What a queue answers to an operation.
    pub fn ask<R: Wait + Abort>(&mut self, rt: &R, alloc: Global, queue: usize, op: Op) -> Reply
        ensures { self.new ≡ self.old }
    {
        assert!(rt; queue < self.caller.queues());
        match self.caller.call(rt, alloc, queue, op) {
            Ok(reply) => reply,
            Err(_) => panic!(rt; "there is memory, and room in the history"),
        }
    }

    /// A grain subscribes to the stream of a queue.
    ///
    /// # Errors
    /// The call failed to allocate, and nothing was done.
    pub fn subscribe<R: Wait + Abort>(
        &mut self,
        rt: &R,
        alloc: Global,
        queue: usize,
        to: usize,
    ) -> Result<(), AllocError>
        ensures { self.new ≡ self.old }
    {
        let from = digits(alloc, queue as u64)?;
        let to = digits(alloc, to as u64)?;
        let asked = Produced::Subscribe(from.as_bytes(), to.as_bytes());
        let _number = ask(rt, alloc, &mut self.caller, queue, &asked)?;
        Ok(())
    }

    /// Publishes an event to the stream of a queue.
    ///
    /// # Errors
    /// The call failed to allocate, and nothing was done.
    pub fn publish<R: Wait + Abort>(
        &mut self,
        rt: &R,
        alloc: Global,
        queue: usize,
        payload: u64,
    ) -> Result<(), AllocError>
        ensures { self.new ≡ self.old }
    {
        let key = digits(alloc, queue as u64)?;
        let text = digits(alloc, payload)?;
        let texts = [text.as_bytes()];
        let asked = Produced::Publish(key.as_bytes(), &texts);
        let seq = ask(rt, alloc, &mut self.caller, queue, &asked)? as usize;
        let told = Told {
            queue,
            seq,
            payload,
        };
        self.told.push(told).expect(rt, "room");
        Ok(())
    }

    /// Publishes an event to each queue. Whether that was refused somewhere; then it was asked for once more.
    pub fn publish_all<R: Wait + Abort>(&mut self, rt: &R, alloc: Global, payload: u64) -> bool
        ensures { self.new ≡ self.old }
    {
        let mut refused = false;
        for queue in 0..self.caller.queues() {
            if self.publish(rt, alloc, queue, payload).is_err() {
                refused = true;
                self.publish(rt, alloc, queue, payload).expect(rt, "memory");
            }
        }
        refused
    }

    /// Waits until all queues are quiet, and tells whether they are: a loop may have ended.
    pub fn is_quiet<R: Wait + Abort>(&mut self, rt: &R, alloc: Global) -> bool
        ensures { self.new ≡ self.old }
    {
        drain(rt, alloc, &mut self.caller, 100_000).expect(rt, "it takes no memory")
            == Drained::Quiet
    }
}

// The key or the payload of this number.
fn digits(alloc: Global, number: u64) -> Result<String, AllocError> {
    format!(in alloc; "{number}")
}
