//! Objects that a turnstile can hold.
ghost use Rattle.std.specs.Prelude.{◌≡◌, MatchResult};

use crate::history::StoredHistory;
use std::alloc::{AllocError, Global};

/// An object whose calls a history can replay: its state and the op give the reply and the next state.
pub trait Replays: Drop {
    /// What can be asked of the object.
    type Op: Drop;

    /// What it answers. It may be small, and stand for a large plain value: contracts see its model.
    type Reply: Drop;

    /// How a history of its calls is stored.
    type History: StoredHistory<Self::Op, Self::Reply>;

    /// What a caller lends, for the object to write into while it does an op.
    type Room;

    /// What contracts see of the object. No value of it is made.
    type State: Drop;

    // What contracts see of the object.
    ghost state_of: { Self → Self.State };

    // The reply to an op.
    ghost replied: { Self.State → Self.Op → Self.Reply };

    // The state after an op.
    ghost after: { Self.State → Self.Op → Self.State };

    // What stands in the room that was lent, before and after a reply.
    ghost shows: { Self.Room → Self.Room → Self.Reply → Type 0 };

    /// Does an op, and gives its reply. It may write into the room.
    ///
    /// # Errors
    /// The call failed to allocate. The state is as before.
    fn apply(
        &mut self,
        alloc: Global,
        op: &Self::Op,
        room: &mut Self::Room,
    ) -> Result<Self::Reply, AllocError>
        ensures room { MatchResult result (λ reply. shows room.old room.new reply) (λ _. room.new ≡ room.old) }
        ensures does { MatchResult result (λ reply. (state_of self.new ≡ after (state_of self.old) op.now) × (reply ≡ replied (state_of self.old) op.now)) (λ _. state_of self.new ≡ state_of self.old) };
}
