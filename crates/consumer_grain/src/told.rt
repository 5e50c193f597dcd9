//! What an activation answers.

use crate::activation::RunningTurn;
use crate::mailbox::Delivery;
use stream_ident::Row;

/// What becomes of a delivery that is offered to a grain.
#[derive(Clone, Copy, Debug, PartialEq, Eq)]
pub enum Offered {
    /// It waits in the mailbox, as the last one, and the grain is active.
    Delivered,
    /// It is refused, since sixteen deliveries wait already. Nothing has changed.
    MailboxFull,
}

/// What a grain begins with.
#[derive(Debug, Drop)]
pub enum Begun {
    /// No turn begins, since one runs already. Nothing has changed.
    Busy,
    /// Nothing waits, or the grain isn't active. Nothing has changed.
    Empty,
    /// The front delivery was handled before: it has left the mailbox, alone, and no turn has begun.
    Dropped(Delivery),
    /// A turn runs, and its deliveries have left the mailbox.
    Turn {
        /// The number of the record of the subscription whose events it has.
        sub: usize,
        /// The positions of its events, 1 to 16 that rise.
        positions: Row<usize>,
    },
}

/// What ends at a commit.
#[derive(Debug, Drop)]
pub enum Ended {
    /// The turn that was named: it runs no more.
    Turn(RunningTurn),
    /// No turn, since the one that was named doesn't run. Nothing has changed.
    Stale,
}
