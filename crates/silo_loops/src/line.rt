//! A pass at the turnstile of a queue, as loops hold it.
ghost use Rattle.std.specs.Prelude.{◌≡◌, ◌↔◌, ◌<◌, ◌≤◌, false, true, length, map, IfOk, MatchResult, OnOk, OnErr, vec_capacity};
ghost use Rattle.std.specs.Arc.{arc_value};
ghost use Rattle.turnstile.specs.Calls.{Agree, HasOnlyMade, IsOf, IsSplitOff, joined_pass};
ghost use Rattle.step_core.specs.Replied.{Shows};
ghost use Rattle.shared_partition.specs.Partitions.{BeganEmpty, IsOfEmpty};
ghost use Rattle.stream_model.specs.Producers.{is_producer};
ghost use Rattle.silo_loops.specs.Lines.{CallsOn, Hears, HearsAt, HasLooked, HasPulled, NeverProduces, is_pull, is_ready, rested};

use crate::heard::{Heard, heard_of};
use doorbells::{Bell, Doorbell};
use shared_partition::{Gate, QueueHistory, SharedPartition};
use std::alloc::{AllocError, Global};
use std::marker::Model;
use std::sync::{Arc, Wait};
use step_core::Answer;
use stream_ident::Event;
use stream_model::{Op, PlainPartition};
use turnstile::{Handle, Pass, Refusal, Turnstile};

/// A loop's pass at a queue, with its turnstile, and a mark: how much the pass had seen when the loop was
/// made or last idle. No call of the pass is a producer's. After a call it gives its turn up, or keeps it for the
/// next one.
///
/// A contract sees the pass and the mark.
pub struct Line<G: Gate, H: QueueHistory> {
    handle: Handle<SharedPartition<G, H>>,
    queue: usize,
    mark: u64,
    // whether the pass has asked for a ready grain past the mark, and whether it has pulled
    looked: bool,
    pulled: bool,
    bell: Bell,
}

impl<G: Gate + Drop, H: QueueHistory + Drop> Drop for Line<G, H> {
    fn drop(self) {
        let Self {
            handle: _,
            queue: _,
            mark: _,
            looked: _,
            pulled: _,
            bell: _,
        } = self;
    }
}

impl<G: Gate, H: QueueHistory> Model for Line<G, H> {
    ghost use Rattle.shared_partition.specs.Partitions.{IsOfEmpty};
    ghost use Rattle.silo_loops.specs.Lines.{LineView, IsKept};

    ghost Value = { LineView };

    ghost view = { λ l. record { pass = l.handle; mark = l.mark } };

    ghost invariant = { λ l. IsOfEmpty l.handle × IsKept (record { pass = l.handle; mark = l.mark }) l.looked l.pulled };
}

impl<G: Gate, H: QueueHistory> Line<G, H> {
    /// A line of a pass at this queue that has made no producer's call, nor any pass that was joined to it. Its mark is
    /// what the pass has seen. The doorbell's hints name the queue by this number, and no contract does.
    pub fn new(
        queue: usize,
        turnstile: Arc<Turnstile<SharedPartition<G, H>>, Global>,
        pass: Pass<SharedPartition<G, H>, H, Op, Answer, PlainPartition>,
    ) -> Line<G, H>
        requires pass { IsOf (arc_value turnstile) pass }
        requires empty { BeganEmpty (arc_value turnstile).start }
        requires never { NeverProduces pass }
        ensures { result ≡ record { pass = pass; mark = length pass.seen } }
    {
        line_of(queue, Handle::new(turnstile, pass))
    }

    /// Waits for its turn, does an operation that isn't a producer's, and rings where a loop may then find
    /// more to do.
    ///
    /// # Errors
    /// `HistoryFull` where the history has as many entries as it may have, and else `Memory`. No entry is
    /// added, the partition is as before, and the pass has seen the whole history as it was found.
    pub fn call<R: Wait>(
        &mut self,
        rt: &R,
        alloc: Global,
        doorbell: &Doorbell,
        op: Op,
    ) -> Result<Answer, Refusal>
        requires { is_producer op ≡ false }
        ensures { CallsOn self.old op result self.new }
    {
        self.ask(rt, alloc, doorbell, op, &mut Vec::new(alloc))
    }

    // Does an operation in the turn that it keeps, or waits for one, and takes the events of a turn.
    #[inline(always)]
    fn ask<R: Wait>(
        &mut self,
        rt: &R,
        alloc: Global,
        doorbell: &Doorbell,
        op: Op,
        events: &mut Vec<Event>,
    ) -> Result<Answer, Refusal>
        requires { is_producer op ≡ false }
        ensures calls { CallsOn self.old op result self.new }
        ensures shows { MatchResult result (λ r. Shows events.old events.new r) (λ _. events.new ≡ events.old) }
    {
        let looks = is_ready(&op);
        let pulls = is_pull(&op);
        let answer = SharedPartition::call_by(&mut self.handle, rt, alloc, op, events);
        let Ok(ref reply) = answer else {
            return answer;
        };
        self.looked |= looks;
        self.pulled |= pulls;
        self.bell.hear(rt, doorbell, self.queue, reply);
        answer
    }

    // Makes a call, and takes from its answer what loops go by.
    pub(crate) fn hear<R: Wait>(
        &mut self,
        rt: &R,
        alloc: Global,
        doorbell: &Doorbell,
        op: Op,
        events: &mut Vec<Event>,
    ) -> Heard
        requires { is_producer op ≡ false }
        ensures heard { Hears self.old op self.new (vec_capacity events.old) events.old.items events.new.items result }
        ensures room { vec_capacity events.new ≡ vec_capacity events.old }
    {
        let answer = self.ask(rt, alloc, doorbell, op, events);
        heard_of(&answer)
    }

    // Keeps its turn from the next call on.
    pub(crate) fn keep(&mut self)
        ensures { self.new ≡ self.old }
    {
        self.handle.keep();
        self.bell.keep();
    }

    // Gives up the turn that it may have, and then rings once for all calls that were made in it.
    pub(crate) fn leave<R: Wait>(&mut self, rt: &R, doorbell: &Doorbell)
        ensures { self.new ≡ self.old }
    {
        self.handle.leave();
        self.bell.leave(rt, doorbell, self.queue);
    }

    /// Whether the pass has asked for a ready grain since the mark.
    pub fn has_looked(&self) -> bool
        ensures { (result ≡ true) ↔ HasLooked self.now }
    {
        self.looked
    }

    /// Whether the pass has pulled since the mark.
    pub fn has_pulled(&self) -> bool
        ensures { (result ≡ true) ↔ HasPulled self.now }
    {
        self.pulled
    }

    /// Begins anew: what the pass has seen is the mark.
    pub fn rest(&mut self)
        ensures { self.new ≡ rested self.old }
    {
        self.mark = self.handle.len();
        self.looked = false;
        self.pulled = false;
    }

    /// A line with a pass of its own at the same queue, whose mark is what it has seen.
    ///
    /// # Errors
    /// The turnstile can't be shared once more, or 2^32 passes of it were made. The line is then as before,
    /// save that its pass may know of more passes.
    pub fn split(&mut self) -> Result<Line<G, H>, AllocError>
        ensures same { OnOk result (self.new ≡ self.old) }
        ensures turnstile { self.new.pass.turnstile ≡ self.old.pass.turnstile }
        ensures new { IfOk result (λ line. IsSplitOff self.old.pass line.pass × (line.mark ≡ length line.pass.seen)) }
        ensures made { OnErr result (HasOnlyMade self.old.pass self.new.pass × (self.new.mark ≡ self.old.mark)) }
    {
        Ok(line_of(self.queue, self.handle.split()?))
    }

    /// Takes in another line of the same queue: the numbers of its pass, and what that has seen where it is
    /// more.
    pub fn join(&mut self, other: Line<G, H>)
        requires { other.pass.turnstile ≡ self.old.pass.turnstile }
        ensures joined { self.new ≡ record self.old { pass = joined_pass self.old.pass other.pass } }
        ensures agree { Agree self.old.pass other.pass self.new.pass }
    {
        let Line {
            handle,
            queue: _,
            mark: _,
            looked: _,
            pulled: _,
            bell: _,
        } = other;
        self.handle.join(handle);
    }

    /// The turnstile and the pass.
    pub fn into_parts(
        self,
    ) -> (
        Arc<Turnstile<SharedPartition<G, H>>, Global>,
        Pass<SharedPartition<G, H>, H, Op, Answer, PlainPartition>,
    )
        ensures pass { result.1 ≡ self.pass }
        ensures of { IsOf (arc_value result.0) result.1 }
        ensures empty { BeganEmpty (arc_value result.0).start }
        ensures never { NeverProduces result.1 }
    {
        let Line {
            handle,
            queue: _,
            mark: _,
            looked: _,
            pulled: _,
            bell: _,
        } = self;
        handle.into_parts()
    }
}

// A line whose mark is what the pass has seen.
fn line_of<G: Gate, H: QueueHistory>(
    queue: usize,
    handle: Handle<SharedPartition<G, H>>,
) -> Line<G, H>
    requires of { IsOfEmpty handle }
    requires never { NeverProduces handle }
    ensures { result ≡ record { pass = handle; mark = length handle.seen } }
{
    let mark = handle.len();
    Line {
        handle,
        queue,
        mark,
        looked: false,
        pulled: false,
        bell: Bell::new(),
    }
}

// Whether the operation asks for a ready grain.
fn is_ready(op: &Op) -> bool
    ensures { result ≡ is_ready op.now }
{
    matches!(op, Op::Ready { .. })
}

// Whether the operation pulls.
fn is_pull(op: &Op) -> bool
    ensures { result ≡ is_pull op.now }
{
    matches!(op, Op::Pull { .. })
}

/// One call at one queue.
pub(crate) fn hear_at<G: Gate, H: QueueHistory, R: Wait>(
    rt: &R,
    alloc: Global,
    doorbell: &Doorbell,
    lines: &mut Vec<Line<G, H>>,
    at: usize,
    op: Op,
    events: &mut Vec<Event>,
) -> Heard
    requires here { at < length lines.old.items }
    requires op { is_producer op ≡ false }
    ensures heard { HearsAt lines.old.items at op lines.new.items (vec_capacity events.old) events.old.items events.new.items result }
    ensures room { vec_capacity events.new ≡ vec_capacity events.old }
{
    let line = &mut lines[at];
    line.hear(rt, alloc, doorbell, op, events)
}

/// Each line begins anew.
pub(crate) fn rest_all<G: Gate, H: QueueHistory>(lines: &mut Vec<Line<G, H>>)
    ensures { lines.new.items ≡ map rested lines.old.items }
{
    for at in 0..lines.len() {
        lines[at].rest();
    }
}

/// The line at this place keeps its turn from the next call on.
pub(crate) fn keep_at<G: Gate, H: QueueHistory>(lines: &mut Vec<Line<G, H>>, at: usize)
    ensures { lines.new.items ≡ lines.old.items }
{
    if at < lines.len() {
        lines[at].keep();
    }
}

/// The line at this place gives up the turn that it may have.
pub(crate) fn leave_at<G: Gate, H: QueueHistory, R: Wait>(
    rt: &R,
    doorbell: &Doorbell,
    lines: &mut Vec<Line<G, H>>,
    at: usize,
)
    ensures { lines.new.items ≡ lines.old.items }
{
    if at < lines.len() {
        lines[at].leave(rt, doorbell);
    }
}
