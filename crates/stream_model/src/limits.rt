//! Limits of a partition.

use stream_ident::{MOST_EVENTS, MOST_RISES, MOST_RULES, MOST_SUBS};

/// How much a partition holds at most. An operation that would go past it is answered `QueueFull` (events), `TooMany`
/// (subscriptions and rules) or `Spent` (rises), and changes nothing.
#[derive(Clone, Copy, Debug, PartialEq, Eq)]
pub struct Limits {
    /// Events in the log: up to 1,000,000.
    pub events: usize,
    /// Records of subscriptions, closed and implicit ones included: up to 10,000.
    pub subs: usize,
    /// Rules of implicit subscriptions: up to 64.
    pub rules: usize,
    /// Rises, which are turns handed out, activations and moves: up to 4,000,000.
    pub rises: u64,
}

impl Limits {
    /// The greatest limits.
    pub const GREATEST: Limits = Limits {
        events: MOST_EVENTS,
        subs: MOST_SUBS,
        rules: MOST_RULES,
        rises: MOST_RISES,
    };
}
