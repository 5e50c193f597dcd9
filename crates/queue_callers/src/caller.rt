//! A caller of all queues.
ghost use Rattle.std.specs.Prelude.{◌≡◌, ◌<◌, length, IfOk, MatchResult, OnErr};
ghost use Rattle.step_core.specs.Figures.{figures_of, subscription_figures_of};
ghost use Rattle.step_core.specs.Replied.{Shows};
ghost use Rattle.std.specs.List.{AllByRecursion};
ghost use Rattle.silo_loops.specs.Fronts.{AllZipFront};
ghost use Rattle.silo_loops.specs.Lines.{NeverProduces};
ghost use Rattle.queue_callers.specs.Gathering.{passes_of};
ghost use Rattle.queue_callers.specs.Calls.{AreAlike, CallerCalls, CallerLooks, CallerSplits, JoinsAll, SplitsOff, TakesBack, joined_passes, turnstiles};

use crate::queue_caller::QueueCaller;
use shared_partition::{Gate, QueueHistory};
use silo_loops::{Doorbell, Line, TurnRoom};
use std::alloc::{AllocError, Global};
use std::marker::Model;
use std::sync::{Arc, Wait};
use step_core::{Answer, QueueFigures, SubscriptionFigures};
use stream_ident::{Event, SubName};
use stream_model::{Op, Reply};
use turnstile::Refusal;

/// A caller of each queue of a cluster, the doorbell of its loops, and room for the events of a turn.
///
/// A contract sees it as the passes, in the order of the queues.
pub struct Caller<G: Gate, H: QueueHistory> {
    doorbell: Arc<Doorbell, Global>,
    queues: Vec<QueueCaller<G, H>>,
    events: Vec<Event>,
}

impl<G: Gate + Drop, H: QueueHistory + Drop> Drop for Caller<G, H> {
    fn drop(self) {
        let Self {
            doorbell: _,
            queues: _,
            events: _,
        } = self;
    }
}

impl<G: Gate, H: QueueHistory> Model for Caller<G, H> {
    ghost use Rattle.stream_ident.specs.declared.limits.TheConstants.{TURN_EVENTS};
    ghost use Rattle.std.specs.Prelude.{◌≤◌, List, vec_capacity};
    ghost use Rattle.silo_loops.specs.Lines.{QueuePass};

    ghost Value = { List QueuePass };

    ghost view = { λ c. c.queues.items };

    ghost invariant = { λ c. TURN_EVENTS ≤ vec_capacity c.events };
}

impl<G: Gate, H: QueueHistory> Caller<G, H> {
    /// A caller of these queues, which rings at this doorbell.
    pub fn new(
        doorbell: Arc<Doorbell, Global>,
        queues: Vec<QueueCaller<G, H>>,
        room: TurnRoom,
    ) -> Caller<G, H>
        ensures { result ≡ queues.items }
    {
        Caller {
            doorbell,
            queues,
            events: room.into_events(),
        }
    }

    /// A caller with the passes of these lines, which rings at this doorbell.
    ///
    /// # Errors
    /// The call failed to allocate. What was given is lost then.
    pub fn of_lines(
        alloc: Global,
        doorbell: Arc<Doorbell, Global>,
        lines: Vec<Line<G, H>>,
    ) -> Result<Caller<G, H>, AllocError>
        ensures passes { IfOk result (λ caller. caller ≡ passes_of lines.items) }
        ensures never { IfOk result (λ caller. AllByRecursion NeverProduces caller) }
    {
        let mut queues = Vec::with_capacity(alloc, lines.len())?;
        for line in lines {
            queues.push_reserved(line_caller(line));
        }
        let room = TurnRoom::new(alloc)?;
        Ok(Caller::new(doorbell, queues, room))
    }

    /// How many queues there are.
    pub fn queues(&self) -> usize
        ensures { result ≡ length self.now }
    {
        self.queues.len()
    }

    /// The doorbell of the cluster's loops.
    pub fn doorbell(&self) -> &Doorbell {
        &self.doorbell
    }

    /// Waits for its turn at a queue, does an operation there, and rings where a loop may then find more to
    /// do.
    ///
    /// # Errors
    /// `HistoryFull` where the history of the queue has as many entries as it may have, and else `Memory`. No
    /// entry is added, the partition is as before, and the pass has seen the whole history as it was found.
    pub fn call<R: Wait>(
        &mut self,
        rt: &R,
        alloc: Global,
        queue: usize,
        op: Op,
    ) -> Result<Reply, Refusal>
        requires { queue < length self.old }
        ensures calls { CallerCalls self.old queue op result self.new }
        ensures turnstiles { turnstiles self.new ≡ turnstiles self.old }
    {
        let answer = ask_at(
            rt,
            alloc,
            &self.doorbell,
            &mut self.queues,
            queue,
            op,
            &mut self.events,
        )?;
        Ok(answer.reply(&self.events))
    }

    /// The same call, with an answer that stands for the reply, which is never made. The events of a turn are put into
    /// `events`, in the place of those before, where that has room for sixteen. Who wants none of them lends a vector
    /// without room, which takes no memory.
    ///
    /// # Errors
    /// They are those of [`call`](Caller::call).
    pub fn ask<R: Wait>(
        &mut self,
        rt: &R,
        alloc: Global,
        queue: usize,
        op: Op,
        events: &mut Vec<Event>,
    ) -> Result<Answer, Refusal>
        requires { queue < length self.old }
        ensures calls { CallerCalls self.old queue op result self.new }
        ensures turnstiles { turnstiles self.new ≡ turnstiles self.old }
        ensures shows { MatchResult result (λ r. Shows events.old events.new r) (λ _. events.new ≡ events.old) }
    {
        ask_at(
            rt,
            alloc,
            &self.doorbell,
            &mut self.queues,
            queue,
            op,
            events,
        )
    }

    /// Waits for its turn at a queue, and gives what the queue keeps. No call is made there, and nobody rings.
    pub fn figures<R: Wait>(&mut self, rt: &R, queue: usize) -> QueueFigures
        requires { queue < length self.old }
        ensures looks { CallerLooks self.old queue (λ p. result ≡ figures_of p) self.new }
        ensures turnstiles { turnstiles self.new ≡ turnstiles self.old }
    {
        figures_at(rt, &mut self.queues, queue)
    }

    /// Waits for its turn at a queue, and gives how far a subscription is there, and none where it has no record. No call
    /// is made, and nobody rings.
    pub fn subscription<R: Wait>(
        &mut self,
        rt: &R,
        queue: usize,
        sub: &SubName,
    ) -> Option<SubscriptionFigures>
        requires { queue < length self.old }
        ensures looks { CallerLooks self.old queue (λ p. result ≡ subscription_figures_of p sub.now) self.new }
        ensures turnstiles { turnstiles self.new ≡ turnstiles self.old }
    {
        subscription_at(rt, &mut self.queues, queue, sub)
    }

    /// A caller with a pass of its own at each queue, each of which has seen as much and has made no call.
    ///
    /// # Errors
    /// The call failed to allocate, or the doorbell or a turnstile can't be shared once more, or 2^32 passes of
    /// a turnstile were made. No pass is lost then: what was split off is joined again.
    pub fn split(&mut self, alloc: Global) -> Result<Caller<G, H>, AllocError>
        ensures { CallerSplits self.old result self.new }
    {
        let doorbell = Arc::try_clone(&self.doorbell)?;
        let room = TurnRoom::new(alloc)?;
        let queues = split_all(alloc, &mut self.queues)?;
        Ok(Caller::new(doorbell, queues, room))
    }

    /// Takes in another caller of the same queues: at each queue the numbers of its pass, and what that has
    /// seen where it is more. The doorbell stays the one of this caller. It takes no memory.
    pub fn join(&mut self, other: Caller<G, H>)
        requires { turnstiles other ≡ turnstiles self.old }
        ensures joined { self.new ≡ joined_passes self.old other }
        ensures agree { JoinsAll self.old other self.new }
        ensures turnstiles { turnstiles self.new ≡ turnstiles self.old }
    {
        join_all(&mut self.queues, other.into_queues());
    }

    /// The callers of the queues.
    pub fn into_queues(self) -> Vec<QueueCaller<G, H>>
        ensures { result.items ≡ self }
    {
        let Caller {
            doorbell: _doorbell,
            queues,
            events: _,
        } = self;
        queues
    }
}

// A caller with the pass of a line.
fn line_caller<G: Gate, H: QueueHistory>(line: Line<G, H>) -> QueueCaller<G, H>
    ensures pass { result ≡ line.pass }
    ensures never { NeverProduces line.pass }
{
    let (turnstile, pass) = line.into_parts();
    QueueCaller::new(turnstile, pass)
}

// One call at one queue.
fn ask_at<G: Gate, H: QueueHistory, R: Wait>(
    rt: &R,
    alloc: Global,
    doorbell: &Doorbell,
    queues: &mut Vec<QueueCaller<G, H>>,
    queue: usize,
    op: Op,
    events: &mut Vec<Event>,
) -> Result<Answer, Refusal>
    requires { queue < length queues.old.items }
    ensures calls { CallerCalls queues.old.items queue op result queues.new.items }
    ensures shows { MatchResult result (λ r. Shows events.old events.new r) (λ _. events.new ≡ events.old) }
{
    let caller = &mut queues[queue];
    caller.ask(rt, alloc, doorbell, queue, op, events)
}

// What one queue keeps.
fn figures_at<G: Gate, H: QueueHistory, R: Wait>(
    rt: &R,
    queues: &mut Vec<QueueCaller<G, H>>,
    queue: usize,
) -> QueueFigures
    requires { queue < length queues.old.items }
    ensures { CallerLooks queues.old.items queue (λ p. result ≡ figures_of p) queues.new.items }
{
    let caller = &mut queues[queue];
    caller.figures(rt)
}

// How far a subscription is at one queue.
fn subscription_at<G: Gate, H: QueueHistory, R: Wait>(
    rt: &R,
    queues: &mut Vec<QueueCaller<G, H>>,
    queue: usize,
    sub: &SubName,
) -> Option<SubscriptionFigures>
    requires { queue < length queues.old.items }
    ensures { CallerLooks queues.old.items queue (λ p. result ≡ subscription_figures_of p sub.now) queues.new.items }
{
    let caller = &mut queues[queue];
    caller.subscription(rt, sub)
}

// A new caller of each queue, for which there is room before a pass is split.
fn split_all<G: Gate, H: QueueHistory>(
    alloc: Global,
    queues: &mut Vec<QueueCaller<G, H>>,
) -> Result<Vec<QueueCaller<G, H>>, AllocError>
    ensures ok { IfOk result (λ new. SplitsOff queues.old.items new.items queues.new.items) }
    ensures err { OnErr result (TakesBack queues.old.items queues.new.items) }
{
    let mut made = Vec::with_capacity(alloc, queues.len())?;
    for at in 0..queues.len() {
        let queue = &mut queues[at];
        match queue.split() {
            Ok(new) => made.push_reserved(new),
            Err(refused) => {
                join_all(queues, made);
                return Err(refused);
            }
        }
    }
    Ok(made)
}

// Joins each of the others to the one at its place, from the last on. There may be fewer of them.
fn join_all<G: Gate, H: QueueHistory>(
    queues: &mut Vec<QueueCaller<G, H>>,
    mut others: Vec<QueueCaller<G, H>>,
)
    requires { AllZipFront AreAlike queues.old.items others.items }
    ensures { JoinsAll queues.old.items others.items queues.new.items }
{
    while let Some(other) = others.pop() {
        let queue = &mut queues[others.len()];
        queue.join(other);
    }
}
