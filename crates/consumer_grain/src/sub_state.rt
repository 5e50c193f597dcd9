//! How far a subscription is.
ghost use Rattle.std.specs.Prelude.{◌≡◌, ◌+◌, ◌^◌, ◌<◌, true, is_ok, if◌then◌else◌};
ghost use Rattle.stream_ident.specs.Words.{past};
ghost use Rattle.consumer_grain.specs.Handled.{rises_from};
ghost use Rattle.consumer_grain.specs.Subscriptions.{acknowledged, advanced, caught_up, closed, committed, is_unacknowledged, new_state, rewound};

use crate::handled::Handled;
use std::alloc::{AllocError, Global};
use stream_ident::{Row, Token};

/// How far a subscription is: which events of the log it has handled, and where it goes on.
#[derive(Debug, Drop)]
pub struct SubState {
    /// The token from which on it is owed events.
    pub start: Token,
    /// The positions of the events that it has handled.
    pub handled: Handled,
    /// The note of its last commit, 0 before the first.
    pub note: u64,
    /// What it is owed before this position is acknowledged.
    pub resume: usize,
    /// The next event to deliver is sought from this position on.
    pub cursor: usize,
    /// Whether it is open: it hasn't been unsubscribed.
    pub live: bool,
}

impl SubState {
    /// A subscription that is open, has handled nothing, and is owed the events from a token on, the first
    /// of which is sought from a position on. Its note is 0. It takes no memory.
    pub fn new(alloc: Global, start: Token, position: usize) -> SubState
        ensures { result ≡ new_state start position }
    {
        SubState {
            start,
            handled: Handled::new(alloc),
            note: 0,
            resume: position,
            cursor: position,
            live: true,
        }
    }

    /// Whether it has handled an event at or past its resume, so that an acknowledgement is due.
    pub fn is_unacknowledged(&self) -> bool
        ensures { result ≡ is_unacknowledged self.now }
    {
        self.resume < self.handled.past()
    }

    /// Adds the positions of a turn, which go on where those handled end, to the handled ones, and keeps
    /// the note.
    ///
    /// # Errors
    /// The call failed to allocate, and nothing has changed.
    pub fn commit(
        &mut self,
        _alloc: Global,
        positions: &Row<usize>,
        note: u64,
    ) -> Result<(), AllocError>
        requires rising { rises_from (past self.old.handled) positions.now ≡ true }
        requires room { past positions.now < 2 ^ 64 }
        ensures { self.new ≡ (if is_ok result then committed positions.now note self.old else self.old) }
    {
        self.handled.extend(positions)?;
        self.note = note;
        Ok(())
    }

    /// Its cursor goes past the event at a position, which was delivered. It takes no memory.
    pub fn advance(&mut self, position: usize)
        requires { position + 1 < 2 ^ 64 }
        ensures { self.new ≡ advanced position self.old }
    {
        self.cursor = position + 1;
    }

    /// Its cursor goes back to its resume, so that what isn't acknowledged is delivered again. It takes no
    /// memory.
    pub fn rewind(&mut self)
        ensures { self.new ≡ rewound self.old }
    {
        self.cursor = self.resume;
    }

    /// Nothing is left for it before the position `high`: its cursor goes there, or stays where it is
    /// further. Its resume follows the cursor where nothing is outstanding. It takes no memory.
    pub fn catch_up(&mut self, high: usize, outstanding: bool)
        ensures { self.new ≡ caught_up high outstanding self.old }
    {
        self.cursor = self.cursor.max(high);
        if !outstanding {
            self.resume = self.cursor;
        }
    }

    /// What it is owed up to and with a position is acknowledged: its resume goes past it, or stays where
    /// it is further, and its cursor isn't left behind. It takes no memory.
    pub fn acknowledge(&mut self, position: usize)
        requires { position + 1 < 2 ^ 64 }
        ensures { self.new ≡ acknowledged position self.old }
    {
        self.resume = self.resume.max(position + 1);
        self.cursor = self.cursor.max(self.resume);
    }

    /// It is unsubscribed. It takes no memory.
    pub fn close(&mut self)
        ensures { self.new ≡ closed self.old }
    {
        self.live = false;
    }
}
