//! The history of a turnstile as it is stored.
ghost use Rattle.std.specs.Prelude.{◌≡◌, ◌++◌, ◌∷◌, [], List, Bool, true, length, nat_lt, vec_capacity, IfSome, IsSome, OnOk};

use crate::asked::Asked;
use std::alloc::{AllocError, Global};

/// A call in a history: the number of the pass that made it, the op and its reply.
#[derive(Drop)]
pub struct Entry<O, R> {
    /// The number of the pass.
    pub number: u64,
    /// What was asked.
    pub op: O,
    /// What was answered.
    pub reply: R,
}

/// A history as it is stored. Contracts see it as the list of its entries, in the order of the calls.
pub trait StoredHistory<O, R>: Drop {
    ghost use Rattle.turnstile.specs.declared.history.Entry.{Entry};

    // The entries, in order.
    ghost entries: { Self → List (Entry O R) };

    // Whether there is room for one more entry.
    ghost has_room: { Self → Bool };

    /// A history without entries. It takes no memory.
    fn empty(alloc: Global) -> Self
        ensures { entries result ≡ [] };

    /// How many entries there are.
    fn len(&self) -> usize
        ensures { result ≡ length (entries self.now) };

    /// Takes room for one more entry.
    ///
    /// # Errors
    /// The call failed to allocate. The entries are as before.
    fn reserve(&mut self) -> Result<(), AllocError>
        ensures same { entries self.new ≡ entries self.old }
        ensures room { OnOk result (has_room self.new ≡ true) };

    /// Adds an entry at the end. It takes no memory. The call is lent, and a history that stores it takes it out. The
    /// reply is shown, and stays with the caller.
    fn push(&mut self, asked: &mut Option<Asked<O>>, reply: &R)
        requires room { has_room self.old ≡ true }
        requires asked { IsSome asked.old }
        ensures { IfSome asked.old (λ a. entries self.new ≡ entries self.old ++ record { number = a.number; op = a.op; reply = reply.now } ∷ []) };
}

/// A history that is stored as it stands, entry after entry. It is for replies that can be copied; where they are
/// large, or stand for a plain value that they don't hold, an [`AskedHistory`](crate::AskedHistory) gives them again.
///
/// A contract sees it as its entries, and whether there is room for one more.
#[derive(Drop)]
pub struct PlainHistory<O, R> {
    entries: Vec<Entry<O, R>>,
}

impl<O, R> PlainHistory<O, R> {
    /// The entries, in order.
    pub fn as_slice(&self) -> &[Entry<O, R>]
        ensures { result.now ≡ self.now.entries.items }
    {
        self.entries.as_slice()
    }
}

impl<O: Drop, R: Copy> StoredHistory<O, R> for PlainHistory<O, R> {
    ghost entries = { λ h. h.entries.items };

    ghost has_room = { λ h. nat_lt (length h.entries.items) (vec_capacity h.entries) };

    fn empty(alloc: Global) -> PlainHistory<O, R> {
        PlainHistory {
            entries: Vec::new(alloc),
        }
    }

    fn len(&self) -> usize {
        self.entries.len()
    }

    fn reserve(&mut self) -> Result<(), AllocError> {
        self.entries.reserve(1)
    }

    fn push(&mut self, asked: &mut Option<Asked<O>>, reply: &R)
        requires room { nat_lt (length self.old.entries.items) (vec_capacity self.old.entries) ≡ true }
        requires asked { IsSome asked.old }
        ensures { IfSome asked.old (λ a. self.new.entries.items ≡ self.old.entries.items ++ record { number = a.number; op = a.op; reply = reply.now } ∷ []) }
    {
        let Asked { number, op } = asked.take().unwrap();
        self.entries.push_reserved(Entry {
            number,
            op,
            reply: *reply,
        });
    }
}
