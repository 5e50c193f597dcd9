//! A history of what was asked, whose replies only proofs see.
ghost use Rattle.std.specs.Prelude.{◌≡◌, ◌++◌, [], ◌∷◌, true, length, map, nat_lt, vec_capacity, IfOk, IfSome, IsSome, OnOk};
ghost use Rattle.turnstile.specs.Recorded.{recorded};

use crate::history::StoredHistory;
use crate::recorded::Recorded;
use crate::replays::Replays;
use std::alloc::{AllocError, Global};

/// A call as it was asked: the number of the pass that made it, and the op.
#[derive(Drop)]
pub struct Asked<O> {
    /// The number of the pass.
    pub number: u64,
    /// What was asked.
    pub op: O,
}

/// A history that stores what was asked. Its replies are for proofs alone, and `replay` gives them again.
///
/// A contract sees it as the list of its entries, replies included. At the end what was asked can be read
/// and printed as it stands, and the replies after a replay. It serves objects whose replies are large.
#[derive(Drop)]
pub struct AskedHistory<O, R> {
    asked: Vec<Asked<O>>,
    replies: Recorded<R>,
    ghost counted: { length asked.items ≡ length (recorded replies) },
}

impl<O, R> AskedHistory<O, R> {
    /// What was asked, in order.
    pub fn as_slice(&self) -> &[Asked<O>]
        ensures { result.now ≡ self.now.asked.items }
    {
        self.asked.as_slice()
    }
}

impl<O: Drop, R: Drop> AskedHistory<O, R> {
    ghost use Rattle.turnstile.specs.Asked.{asked_entries};
    ghost use Rattle.turnstile.specs.History.{replay, IsLegal};

    /// Does all calls once more, on an object whose state is the one that the history began with, and gives
    /// the replies, in order. They are those that the passes were given.
    ///
    /// # Errors
    /// The call failed to allocate. The object has then done a part of the calls.
    pub fn replay<T: Replays<Op = O, Reply = R>>(
        &self,
        alloc: Global,
        object: &mut T,
        room: &mut T::Room,
    ) -> Result<Vec<R>, AllocError>
        requires { IsLegal T.replied T.after (T.state_of object.old) (asked_entries self.now) }
        ensures replies { IfOk result (λ v. v.items ≡ map (λ e. e.reply) (asked_entries self.now)) }
        ensures state { OnOk result (T.state_of object.new ≡ replay T.replied T.after (T.state_of object.old) (asked_entries self.now)) }
    {
        let mut replies = Vec::new(alloc);
        for asked in &self.asked {
            replies.push(object.apply(alloc, &asked.op, room)?)?;
        }
        Ok(replies)
    }
}

impl<O: Drop, R: Drop> StoredHistory<O, R> for AskedHistory<O, R> {
    ghost use Rattle.turnstile.specs.Asked.{asked_entries};
    ghost use Rattle.turnstile.specs.History.{entry};

    ghost entries = { λ h. asked_entries h };

    ghost has_room = { λ h. nat_lt (length h.asked.items) (vec_capacity h.asked) };

    fn empty(alloc: Global) -> AskedHistory<O, R> {
        AskedHistory {
            asked: Vec::new(alloc),
            replies: Recorded::Nothing,
        }
    }

    fn len(&self) -> usize {
        self.asked.len()
    }

    fn reserve(&mut self) -> Result<(), AllocError> {
        self.asked.reserve(1)
    }

    fn push(&mut self, asked: &mut Option<Asked<O>>, reply: &R)
        requires room { nat_lt (length self.old.asked.items) (vec_capacity self.old.asked) ≡ true }
        requires asked { IsSome asked.old }
        ensures { IfSome asked.old (λ a. asked_entries self.new ≡ asked_entries self.old ++ entry a.number a.op reply.now ∷ []) }
    {
        self.replies.add(reply);
        self.asked.push_reserved(asked.take().unwrap());
    }
}
