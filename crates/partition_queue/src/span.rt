//! Parts of a log.
ghost use Rattle.std.specs.Prelude.{◌≡◌, ◌<◌, ◌≤◌, length, get_or, map, take};
ghost use Rattle.stream_ident.specs.Event.{no_event};
ghost use Rattle.partition_queue.specs.Queue.{between};
ghost use Rattle.queue_mapper.specs.Place.{bare};

use crate::queue::PartitionQueue;
use queue_mapper::HeaderRef;
use std::marker::Model;

/// The events of a log from one position up to another. It lends the log and copies nothing.
///
/// A contract sees it as the list of its events, bare: with no byte of their payloads.
#[derive(Drop)]
pub struct Span<'a> {
    queue: &'a PartitionQueue,
    from: usize,
    to: usize,
}

impl<'a> Model for Span<'a> {
    ghost use Rattle.std.specs.Prelude.{◌^◌, ◌<◌, ◌≤◌, List, length, map};
    ghost use Rattle.stream_ident.specs.declared.event.Event.{Event};
    ghost use Rattle.partition_queue.specs.Queue.{between};
    ghost use Rattle.queue_mapper.specs.Place.{bare};

    ghost Value = { List Event };

    ghost view = { λ s. map bare (between s.queue.now s.from s.to) };

    ghost invariant = { λ s. (s.from ≤ s.to) × (s.to ≤ length s.queue.now.events) × (s.to < 2 ^ 64) };
}

impl<'a> Span<'a> {
    /// The events of a log from one position up to another, that at `to` left out.
    pub(crate) fn new(queue: &'a PartitionQueue, from: usize, to: usize) -> Span<'a>
        requires order { from ≤ to }
        requires end { to ≤ length queue.now.events }
        ensures { result ≡ map bare (between queue.now from to) }
    {
        Span { queue, from, to }
    }

    /// How many events there are.
    pub fn len(&self) -> usize
        ensures { result ≡ length self.now }
    {
        self.to - self.from
    }

    /// The header of the event at a place, counted from the first. It is lent.
    pub fn at(&self, index: usize) -> HeaderRef<'a>
        requires { index < length self.now }
        ensures { result ≡ get_or self.now index no_event }
    {
        self.queue.header_at(self.from + index)
    }

    /// The first events, so many of them.
    pub fn first(&self, count: usize) -> Span<'a>
        requires { count ≤ length self.now }
        ensures { result ≡ take count self.now }
    {
        Span::new(self.queue, self.from, self.from + count)
    }
}
