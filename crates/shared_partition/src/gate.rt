//! What a program adds to the calls of a partition.
ghost use Rattle.std.specs.Prelude.{◌≡◌, ◌+◌, ◌-◌, ◌^◌, min, true};

use stream_ident::{Event, GrainId, SubName, Token};

/// What a program does beside the operations of its partitions.
///
/// [`SharedPartition::call`](crate::SharedPartition::call) calls `inside` and nothing else; the others are for whoever runs
/// turns. No contract here says when one of them is called, or how often. A gate has to have a handler (`handle`); where it
/// doesn't say what the others do, `handle_for` is the handler, and `inside` and `done` do nothing.
pub trait Gate: Send + Sync + Drop {
    ghost use Rattle.std.specs.Prelude.{ℕ, Bool, true};
    ghost use Rattle.stream_ident.specs.declared.event.Event.{Event};
    ghost use Rattle.stream_ident.specs.declared.ident.GrainId.{GrainId};
    ghost use Rattle.stream_ident.specs.declared.ident.SubName.{SubName};

    /// Which note may follow where the handler of this grain is given this subscription, event and note. Where a gate
    /// doesn't say, any may.
    ghost follows: { GrainId → SubName → Event → ℕ → ℕ → Bool } = { λ _ _ _ _ _. true };

    /// Is called for each call of the partition of this queue, while its turnstile is held and before the operation is
    /// applied. All other calls of that partition wait until it returns.
    fn inside(&self, _queue: usize) {}

    /// Handles an event of a subscription, and gives the note that follows. It is to run while no turnstile is held.
    ///
    /// All grains share the gate: workers call it from their threads, for different grains at the same time. The number of
    /// an explicit subscription is unique in its queue, which is that of the event's stream. The note is the
    /// subscription's own: for the first event of a turn what its last commit stored, 0 at first, and for each further
    /// one what the handler gave for the event before. Where a turn is lost before its commit, the handler is called
    /// again for its events. It has to return: a silo that goes, and the end of a cluster, wait for it.
    fn handle(&self, sub: &SubName, event: &Event, note: u64) -> u64
        ensures { (grain : GrainId) → Self.follows grain sub.now event.now note result ≡ true };

    /// The same for the grain whose turn runs, so this is as a method of that grain. Who runs turns calls it; a gate that
    /// has to know the grain says what it does then.
    fn handle_for(&self, grain: &GrainId, sub: &SubName, event: &Event, note: u64) -> u64
        ensures { Self.follows grain.now sub.now event.now note result ≡ true }
    {
        self.handle(sub, event, note)
    }

    /// Is to be called once after each commit, with the token of the turn's last event.
    fn done(&self, _sub: &SubName, _token: Token) {}
}

/// A gate that counts the events of each subscription in its notes, and does nothing else.
#[derive(Clone, Copy, Debug, PartialEq, Eq)]
pub struct Counting;

impl Gate for Counting {
    ghost use Rattle.std.specs.Prelude.{◌+◌, ◌-◌, ◌^◌, min, nat_eq};

    ghost follows = { λ grain sub event note next. nat_eq next (min (note + 1) (2 ^ 64 - 1)) };

    fn inside(&self, _queue: usize) {}

    /// The next number, and at the greatest one the number itself.
    fn handle(&self, _sub: &SubName, _event: &Event, note: u64) -> u64
        ensures { result ≡ min (note + 1) (2 ^ 64 - 1) }
    {
        note.saturating_add(1)
    }

    fn done(&self, _sub: &SubName, _token: Token) {}
}
