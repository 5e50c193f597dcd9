//! The events that a subscription has handled.
ghost use Rattle.std.specs.Prelude.{◌≡◌, ◌+◌, ◌^◌, ◌<◌, ◌++◌, [], true, is_ok, if◌then◌else◌};
ghost use Rattle.stream_ident.specs.Words.{past};
ghost use Rattle.consumer_grain.specs.Handled.{rises_from};

use std::alloc::{AllocError, Global};
use std::marker::Model;
use stream_ident::Row;

/// The positions in the log of the events that a subscription has handled, rising.
///
/// A contract sees the list of them. The room that they have in memory is no part of it.
#[derive(Debug, Drop)]
pub struct Handled {
    positions: Vec<usize>,
    past: usize,
}

impl Model for Handled {
    ghost use Rattle.std.specs.Prelude.{ℕ, List};
    ghost use Rattle.consumer_grain.specs.Handled.{IsHandled};

    ghost Value = { List ℕ };

    ghost view = { λ h. h.positions.items };

    ghost invariant = { λ h. IsHandled h.positions.items h.past };
}

impl Handled {
    /// No event. It takes no memory.
    pub fn new(alloc: Global) -> Handled
        ensures { result ≡ [] }
    {
        Handled {
            positions: Vec::new(alloc),
            past: 0,
        }
    }

    /// The positions.
    pub fn as_slice(&self) -> &[usize]
        ensures positions { result.now ≡ self.now }
        ensures rising { rises_from 0 self.now ≡ true }
    {
        self.positions.as_slice()
    }

    /// One past the last position, 0 where there is none. It looks at no position.
    pub fn past(&self) -> usize
        ensures { result ≡ past self.now }
    {
        self.past
    }

    /// Adds the positions of a turn, which go on where these end.
    ///
    /// # Errors
    /// The call failed to allocate, and nothing has changed.
    pub fn extend(&mut self, positions: &Row<usize>) -> Result<(), AllocError>
        requires rising { rises_from (past self.old) positions.now ≡ true }
        requires room { past positions.now < 2 ^ 64 }
        ensures { self.new ≡ (if is_ok result then self.old ++ positions.now else self.old) }
    {
        self.positions.extend_from_slice(positions.as_slice())?;
        self.past = past_of(positions);
        Ok(())
    }
}

/// One past the last of rising positions.
fn past_of(positions: &Row<usize>) -> usize
    requires { past positions.now < 2 ^ 64 }
    ensures { result ≡ past positions.now }
{
    let positions = positions.as_slice();
    positions[positions.len() - 1] + 1
}
