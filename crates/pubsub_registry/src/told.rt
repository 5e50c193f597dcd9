//! The replies of a registry. Each refusal leaves the registry as it was.

/// The reply to a grain that subscribes.
#[derive(Clone, Copy, Debug, PartialEq, Eq)]
pub enum Added {
    /// The subscription is there, and open.
    Added {
        /// Its number: 1 for the first that a grain makes in the partition, and one more each time.
        number: u32,
    },
    /// There are as many subscriptions as there may be, closed and implicit ones counted.
    TooMany,
}

/// What becomes of subscriptions that rules make of streams.
#[derive(Clone, Copy, Debug, PartialEq, Eq)]
pub enum Implied {
    /// They are there, and open.
    Implied,
    /// There would be more subscriptions than there may be, closed and explicit ones counted.
    TooMany,
}

/// The reply to a grain that unsubscribes.
#[derive(Clone, Copy, Debug, PartialEq, Eq)]
pub enum Closing {
    /// The subscription is closed.
    Done,
    /// No subscription has this name.
    NoSuch,
    /// An implicit subscription isn't closed.
    Implicit,
    /// It was closed before.
    Closed,
}

/// What becomes of a rule.
#[derive(Clone, Copy, Debug, PartialEq, Eq)]
pub enum RuleAdded {
    /// The rule is there, behind the others.
    Added,
    /// A rule for this kind and namespace is there, from whatever batch on.
    RuleThere,
    /// There are as many rules as there may be.
    TooMany,
}
