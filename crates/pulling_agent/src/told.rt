//! What is told of the calls that move a subscription over the log.

/// What was sought for a subscription.
#[derive(Clone, Copy, Debug, PartialEq, Eq)]
pub enum Sought {
    /// The subscription is closed. Nothing has changed.
    Closed,
    /// Nothing in the cache is owed to it: it has caught up.
    Nothing,
    /// The next event that it is owed. Nothing has changed.
    Next {
        /// The event's position.
        position: usize,
    },
}

/// What became of a retry.
#[derive(Clone, Copy, Debug, PartialEq, Eq)]
pub enum Retried {
    /// The subscription is closed. Nothing has changed.
    Closed,
    /// What it hasn't acknowledged is sought again.
    Rewound,
}

/// What became of an acknowledgement.
#[derive(Clone, Copy, Debug, PartialEq, Eq)]
pub enum Acked {
    /// The subscription is closed. Nothing has changed.
    Closed,
    /// It has handled no event with this token. Nothing has changed.
    NotHandled,
    /// What it is owed up to and with the event is acknowledged.
    Acked,
}
