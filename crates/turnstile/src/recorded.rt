//! A history that only proofs see.
ghost use Rattle.std.specs.Prelude.{◌≡◌, ◌++◌, ◌∷◌, [], ◌-◌, ◌^◌, true, length, nat_lt, IfSome, IsSome};
ghost use Rattle.turnstile.specs.History.{entry};
ghost use Rattle.turnstile.specs.Recorded.{recorded, answered};

use crate::asked::Asked;
use crate::history::StoredHistory;
use std::alloc::{AllocError, Global};
use std::snapshot::Snapshot;

/// A list of values that were shown to it, for proofs alone. It takes one byte, however long it is.
#[derive(Drop)]
pub enum Recorded<T> {
    /// Nothing was shown.
    Nothing,
    /// What was shown before, and the last value.
    Then(Snapshot<Recorded<T>>, Snapshot<T>),
}

impl<T> Recorded<T> {
    /// Adds a value at the end. It takes no memory.
    pub fn add(&mut self, value: &T)
        ensures { recorded self.new ≡ recorded self.old ++ value.now ∷ [] }
    {
        let before = Snapshot::of(&*self);
        *self = Recorded::Then(before, Snapshot::of(value));
    }
}

/// A history that only proofs see: at run time it is the number of its entries, and a call stores nothing.
///
/// A contract sees it as the list of its entries. A limit of a turnstile that keeps it may be any number.
/// At the end there are the object, how many calls were made, and what the contract of `close` says of
/// them. The calls themselves can be neither read nor printed.
#[derive(Drop)]
pub struct ProofHistory<O, R> {
    asked: Recorded<Asked<O>>,
    replies: Recorded<R>,
    len: usize,
    ghost counted: { (len ≡ length (recorded asked)) × (len ≡ length (recorded replies)) },
}

impl<O: Drop, R: Drop> StoredHistory<O, R> for ProofHistory<O, R> {
    ghost entries = { λ h. answered (recorded h.asked) (recorded h.replies) };

    ghost has_room = { λ h. nat_lt h.len (2 ^ 64 - 1) };

    fn empty(_alloc: Global) -> ProofHistory<O, R> {
        ProofHistory {
            asked: Recorded::Nothing,
            replies: Recorded::Nothing,
            len: 0,
        }
    }

    fn len(&self) -> usize {
        self.len
    }

    fn reserve(&mut self) -> Result<(), AllocError> {
        if self.len < usize::MAX {
            Ok(())
        } else {
            Err(AllocError)
        }
    }

    fn push(&mut self, asked: &mut Option<Asked<O>>, reply: &R)
        requires room { nat_lt self.old.len (2 ^ 64 - 1) ≡ true }
        requires asked { IsSome asked.old }
        ensures { IfSome asked.old (λ a. answered (recorded self.new.asked) (recorded self.new.replies) ≡ answered (recorded self.old.asked) (recorded self.old.replies) ++ entry a.number a.op reply.now ∷ []) }
    {
        let Some(asked) = &*asked else { unreachable!() };
        self.asked.add(asked);
        self.replies.add(reply);
        self.len += 1;
    }
}
