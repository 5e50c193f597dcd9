//! Mailboxes: the deliveries that wait, and the front of them that a turn takes.
ghost use Rattle.std.specs.Prelude.{◌≡◌, ◌<◌, ◌≤◌, [], ◌∷◌, ◌++◌, ◌==◌, ◌&&◌, not, length, drop, filter, nat_le, vec_capacity, IfOk, suc};
ghost use Rattle.std.specs.List.{list_any};
ghost use Rattle.stream_ident.specs.Blocks.{turn_size};
ghost use Rattle.consumer_grain.specs.declared.mailbox.Delivery.{Delivery};
ghost use Rattle.consumer_grain.specs.Activations.{front_of};

use std::alloc::{AllocError, Global};
use std::marker::Model;
use stream_ident::{MAILBOX_PLACES, Row, TURN_EVENTS};

/// An event on its way to a grain.
#[derive(Clone, Copy, Debug, PartialEq, Eq)]
pub struct Delivery {
    /// The number of the record of the subscription that it is for.
    pub sub: usize,
    /// The position of the event in the log, counted from 0.
    pub position: usize,
}

/// The deliveries that wait for a grain, at most sixteen, the oldest first.
///
/// A contract sees it as the list of them. Its places are taken once, when it is made, so that nothing
/// after that takes memory.
#[derive(Debug, Drop)]
pub struct Mailbox {
    deliveries: Vec<Delivery>,
}

impl Model for Mailbox {
    ghost use Rattle.stream_ident.specs.declared.limits.TheConstants.{MAILBOX_PLACES};
    ghost use Rattle.std.specs.Prelude.{List, ◌≤◌, length, vec_capacity};
    ghost use Rattle.consumer_grain.specs.declared.mailbox.Delivery.{Delivery};

    ghost Value = { List Delivery };

    ghost view = { λ m. m.deliveries.items };

    ghost invariant = { λ m. (MAILBOX_PLACES ≤ vec_capacity m.deliveries) × (length m.deliveries.items ≤ MAILBOX_PLACES) };
}

impl Mailbox {
    /// A mailbox in which nothing waits.
    ///
    /// # Errors
    /// The call failed to allocate its places.
    pub fn new(alloc: Global) -> Result<Mailbox, AllocError>
        ensures { IfOk result (λ mailbox. mailbox ≡ []) }
    {
        Ok(Mailbox {
            deliveries: Vec::with_capacity(alloc, MAILBOX_PLACES)?,
        })
    }

    /// Whether no place is left.
    pub fn is_full(&self) -> bool
        ensures { result ≡ nat_le MAILBOX_PLACES (length self.now) }
    {
        self.deliveries.len() >= MAILBOX_PLACES
    }

    /// The deliveries, the oldest first.
    pub fn as_slice(&self) -> &[Delivery]
        ensures deliveries { result.now ≡ self.now }
        ensures few { length self.now ≤ MAILBOX_PLACES }
    {
        self.deliveries.as_slice()
    }

    /// Adds a delivery behind the others.
    pub fn push(&mut self, delivery: Delivery)
        requires { length self.old < MAILBOX_PLACES }
        ensures { self.new ≡ self.old ++ delivery ∷ [] }
    {
        self.deliveries.push_reserved(delivery);
    }

    /// Takes the oldest `count` deliveries out, or all where there are fewer.
    pub fn drop_front(&mut self, count: usize)
        ensures { self.new ≡ drop count self.old }
    {
        drop_front(&mut self.deliveries, count);
    }

    /// Takes the deliveries of a subscription out.
    pub fn drop_sub(&mut self, sub: usize)
        ensures { self.new ≡ filter (λ d. not (sub == d.sub)) self.old }
    {
        keep_others(&mut self.deliveries, sub);
    }

    /// Takes all deliveries out.
    pub fn clear(&mut self)
        ensures { self.new ≡ [] }
    {
        self.deliveries.clear();
    }
}

/// Takes the first `count` deliveries out, or all where there are fewer.
fn drop_front(deliveries: &mut Vec<Delivery>, count: usize)
    ensures items { deliveries.new.items ≡ drop count deliveries.old.items }
    ensures capacity { vec_capacity deliveries.new ≡ vec_capacity deliveries.old }
{
    let len = deliveries.len();
    let count = count.min(len);
    deliveries.copy_within(count.., 0);
    deliveries.truncate(len - count);
}

/// Keeps the deliveries of other subscriptions, in their order.
fn keep_others(deliveries: &mut Vec<Delivery>, sub: usize)
    ensures items { deliveries.new.items ≡ filter (λ d. not (sub == d.sub)) deliveries.old.items }
    ensures capacity { vec_capacity deliveries.new ≡ vec_capacity deliveries.old }
{
    deliveries.retain(|delivery| sub != delivery.sub);
}

/// Whether one of the deliveries is of this subscription.
pub fn has_sub(deliveries: &[Delivery], sub: usize) -> bool
    ensures { result ≡ list_any (λ (d : Delivery). sub == d.sub) deliveries.now }
{
    deliveries.iter().any(|delivery| sub == delivery.sub)
}

/// The most events of a turn.
pub fn turn_size(max_events: usize) -> usize
    ensures size { result ≡ turn_size max_events }
    ensures some { 1 ≤ result }
    ensures bound { result ≤ TURN_EVENTS }
{
    max_events.clamp(1, TURN_EVENTS)
}

/// Whether a delivery goes on with a turn of this subscription after this position.
fn goes_on(sub: usize, last: usize, delivery: Delivery) -> bool
    ensures { result ≡ ((sub == delivery.sub) && nat_le (suc last) delivery.position) }
{
    sub == delivery.sub && last < delivery.position
}

/// The positions of a turn: those of the longest front of the deliveries, at most `most`, that are all of
/// the subscription of the first one and rise.
pub fn turn_positions(deliveries: &[Delivery], front: Delivery, most: usize) -> Row<usize>
    requires some { 1 ≤ most }
    requires bound { most ≤ TURN_EVENTS }
    requires first { deliveries.now ≡ front ∷ drop 1 deliveries.now }
    ensures { result ≡ front_of most front.sub front.position deliveries.now }
{
    let mut positions = Row::of(front.position);
    let mut last = front.position;
    for delivery in &deliveries[1..] {
        if positions.len() == most || !goes_on(front.sub, last, *delivery) {
            return positions;
        }
        positions.push(delivery.position);
        last = delivery.position;
    }
    positions
}
