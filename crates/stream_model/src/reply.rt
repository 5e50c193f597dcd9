//! The replies of a partition.
ghost use Rattle.std.specs.Prelude.{◌≡◌};
ghost use Rattle.stream_model.specs.Replies.{with_events, IsNoTurn};

use stream_ident::{Event, GrainId, Row, SubName, Token};

/// The events of a turn: 1 to 16, in order.
pub type Events = Row<Event>;

/// Why a partition isn't quiet, in the order in which it is asked.
#[derive(Clone, Copy, Debug, PartialEq, Eq)]
pub enum Pending {
    /// The queue has events that the cache hasn't.
    Behind,
    /// An open subscription has a next event in the cache.
    Deliverable(SubName),
    /// Deliveries wait for this grain.
    Waiting(GrainId),
    /// A turn of this grain runs.
    Running(GrainId),
}

/// The reply to an operation. A refusal changes nothing, save where it says so.
///
/// `E` is what it has of the events of a turn: the events themselves, where no other type is named.
#[derive(Debug, Drop, PartialEq, Eq)]
pub enum Reply<E = Events> {
    /// The batch was accepted.
    Published {
        /// Its number.
        seq: u64,
    },
    /// The log would have more events than its limit.
    QueueFull,
    /// A batch of no payload, or of more than 64.
    BadBatch,
    /// The subscription was made.
    Subscribed {
        /// Its number: its name is `SubName::Explicit` of it.
        number: u32,
    },
    /// The start token is less than the low token: the cache no longer has the events from there on.
    Miss {
        /// The start token that was asked for.
        requested: Token,
        /// The token of the first event that the cache keeps.
        low: Token,
        /// The token after the last event that the cache has.
        high: Token,
    },
    /// There would be more records than the limit.
    TooMany,
    /// The subscription is closed.
    Unsubscribed {
        /// How many events it has handled.
        handled: usize,
    },
    /// No subscription has this name.
    NoSuch,
    /// The subscription is closed. To a Commit this also says that the turn has ended, with nothing
    /// handled.
    Closed,
    /// An implicit subscription can't be unsubscribed.
    Implicit,
    /// The rule holds from now on.
    RuleAdded {
        /// The number of the first batch that it holds for.
        from: u64,
    },
    /// There is such a rule.
    RuleThere,
    /// Events were taken into the cache.
    Pulled {
        /// How many events were taken.
        count: usize,
        /// The token of the first event that the cache keeps.
        low: Token,
        /// The token after the last event that the cache has.
        high: Token,
    },
    /// The cache is full of events that an open subscription may still need.
    Pressed {
        /// The slowest subscription.
        by: SubName,
    },
    /// The cache has all events of the queue.
    Dry,
    /// The agent that asks isn't the current one.
    StaleAgent {
        /// The current generation.
        now: u64,
    },
    /// The event went into the mailbox.
    Delivered {
        /// Its token.
        token: Token,
    },
    /// The cache has no further event for the subscription. Its cursor now stands at the cache's end, and
    /// so does its resume, where nothing is outstanding.
    Nothing,
    /// Sixteen deliveries wait.
    MailboxFull,
    /// The cursor stands at the resume.
    Rewound,
    /// The resume stands past the event.
    Acked,
    /// The subscription has handled no event with this token.
    NotHandled,
    /// Blocks that nobody needs were dropped.
    Purged {
        /// The token of the first event that the cache keeps.
        low: Token,
    },
    /// A turn runs.
    Turn {
        /// The subscription whose events it has.
        sub: SubName,
        /// The activation of the grain.
        activation: u64,
        /// The number of the turn.
        turn: u64,
        /// Its events, 1 to 16.
        events: E,
        /// The note of the subscription's last commit, 0 at first.
        note: u64,
    },
    /// The front delivery was a repeat of an event that is handled. It has left the mailbox.
    Dropped {
        /// The subscription.
        sub: SubName,
        /// The token of the event.
        token: Token,
    },
    /// The grain isn't active, or nothing waits.
    Empty,
    /// A turn of the grain runs.
    Busy,
    /// The events of the turn are handled.
    Committed {
        /// The subscription.
        sub: SubName,
        /// The token of the last event.
        token: Token,
    },
    /// That turn of that activation doesn't run.
    Stale,
    /// The grain isn't active any more.
    Deactivated {
        /// How many events waited or ran.
        lost: usize,
    },
    /// The grain isn't active.
    NotActive,
    /// The queue has a new agent.
    Moved {
        /// Its generation.
        generation: u64,
        /// The token of the first event that its cache will have.
        low: Token,
    },
    /// A grain for which something waits and no turn runs.
    Next(GrainId),
    /// There is no such grain.
    NoneReady,
    /// A subscription that has something to acknowledge or to look for.
    DueSub {
        /// Its name.
        sub: SubName,
        /// The token to acknowledge.
        ack: Option<Token>,
    },
    /// There is no such subscription.
    NoneDue,
    /// There would be more rises than the limit.
    Spent,
    /// Everything is pulled, delivered and handled.
    IsQuiet,
    /// Something is left to do.
    NotQuiet(Pending),
}

impl<E> Reply<E> {
    /// The same reply, which is no turn, whatever the type of the events that a turn would have. It takes no memory.
    pub fn no_turn<F>(&self) -> Reply<F>
        requires { IsNoTurn self.now }
        ensures { (events : E → F) → result ≡ with_events events self.now }
    {
        match *self {
            Reply::Published { seq } => Reply::Published { seq },
            Reply::QueueFull => Reply::QueueFull,
            Reply::BadBatch => Reply::BadBatch,
            Reply::Subscribed { number } => Reply::Subscribed { number },
            Reply::Miss {
                requested,
                low,
                high,
            } => Reply::Miss {
                requested,
                low,
                high,
            },
            Reply::TooMany => Reply::TooMany,
            Reply::Unsubscribed { handled } => Reply::Unsubscribed { handled },
            Reply::NoSuch => Reply::NoSuch,
            Reply::Closed => Reply::Closed,
            Reply::Implicit => Reply::Implicit,
            Reply::RuleAdded { from } => Reply::RuleAdded { from },
            Reply::RuleThere => Reply::RuleThere,
            Reply::Pulled { count, low, high } => Reply::Pulled { count, low, high },
            Reply::Pressed { by } => Reply::Pressed { by },
            Reply::Dry => Reply::Dry,
            Reply::StaleAgent { now } => Reply::StaleAgent { now },
            Reply::Delivered { token } => Reply::Delivered { token },
            Reply::Nothing => Reply::Nothing,
            Reply::MailboxFull => Reply::MailboxFull,
            Reply::Rewound => Reply::Rewound,
            Reply::Acked => Reply::Acked,
            Reply::NotHandled => Reply::NotHandled,
            Reply::Purged { low } => Reply::Purged { low },
            Reply::Dropped { sub, token } => Reply::Dropped { sub, token },
            Reply::Empty => Reply::Empty,
            Reply::Busy => Reply::Busy,
            Reply::Committed { sub, token } => Reply::Committed { sub, token },
            Reply::Stale => Reply::Stale,
            Reply::Deactivated { lost } => Reply::Deactivated { lost },
            Reply::NotActive => Reply::NotActive,
            Reply::Moved { generation, low } => Reply::Moved { generation, low },
            Reply::Next(grain) => Reply::Next(grain),
            Reply::NoneReady => Reply::NoneReady,
            Reply::DueSub { sub, ack } => Reply::DueSub { sub, ack },
            Reply::NoneDue => Reply::NoneDue,
            Reply::Spent => Reply::Spent,
            Reply::IsQuiet => Reply::IsQuiet,
            Reply::NotQuiet(why) => Reply::NotQuiet(why),
            Reply::Turn { .. } => unreachable!(),
        }
    }
}

impl<T: Copy> Reply<Row<T>> {
    /// An equal reply. It takes no memory.
    pub fn copy(&self) -> Reply<Row<T>>
        ensures { result ≡ self.now }
    {
        match *self {
            Reply::Turn {
                sub,
                activation,
                turn,
                ref events,
                note,
            } => Reply::Turn {
                sub,
                activation,
                turn,
                events: events.copy(),
                note,
            },
            _ => self.no_turn(),
        }
    }
}
