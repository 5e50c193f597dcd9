//! A history without room for one of its entries.
ghost use Rattle.std.specs.Prelude.{◌≡◌, ◌++◌, ◌∷◌, [], ◌-◌, ◌^◌, true, length, nat_lt, IfSome, IsSome};
ghost use Rattle.turnstile.specs.Recorded.{recorded};

use activation_directory::{DirectoryOp, DirectoryReply};
use std::alloc::{AllocError, Global};
use turnstile::{Asked, Entry, Recorded, StoredHistory};

/// A history of a directory that refuses room once: for the entry that is to follow after so many grains were
/// released.
#[derive(Drop)]
pub struct Scarce<const RELEASED: usize> {
    calls: Recorded<Entry<DirectoryOp, DirectoryReply>>,
    len: usize,
    // how many grains were released, and whether room was refused
    released: usize,
    refused: bool,
    ghost counted: { len ≡ length (recorded calls) },
}

impl<const RELEASED: usize> StoredHistory<DirectoryOp, DirectoryReply> for Scarce<RELEASED> {
    ghost entries = { λ h. recorded h.calls };

    ghost has_room = { λ h. nat_lt h.len (2 ^ 64 - 1) };

    fn empty(_alloc: Global) -> Scarce<RELEASED> {
        Scarce {
            calls: Recorded::Nothing,
            len: 0,
            released: 0,
            refused: false,
        }
    }

    fn len(&self) -> usize {
        self.len
    }

    fn reserve(&mut self) -> Result<(), AllocError> {
        if self.len == usize::MAX {
            return Err(AllocError);
        }
        if self.released == RELEASED && !self.refused {
            self.refused = true;
            return Err(AllocError);
        }
        Ok(())
    }

    fn push(&mut self, asked: &mut Option<Asked<DirectoryOp>>, reply: &DirectoryReply)
        requires room { nat_lt self.old.len (2 ^ 64 - 1) ≡ true }
        requires asked { IsSome asked.old }
        ensures { IfSome asked.old (λ a. recorded self.new.calls ≡ recorded self.old.calls ++ record { number = a.number; op = a.op; reply = reply.now } ∷ []) }
    {
        let Asked { number, op } = asked.take().unwrap();
        if matches!(reply, DirectoryReply::Released { .. }) {
            self.released = self.released.saturating_add(1);
        }
        self.calls.add(&Entry {
            number,
            op,
            reply: *reply,
        });
        self.len += 1;
    }
}
