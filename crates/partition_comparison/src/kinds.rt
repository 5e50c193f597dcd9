//! The kinds of operations and of replies.
ghost use Rattle.std.specs.Prelude.{◌<◌};

use step_core::{DrainEnd, Op, Pending, Reply};

/// The names of the operations.
pub static OPERATIONS: [&str; 16] = [
    "Publish",
    "Subscribe",
    "Unsubscribe",
    "AddRule",
    "Pull",
    "Deliver",
    "Retry",
    "Ack",
    "Purge",
    "Begin",
    "Commit",
    "Deactivate",
    "Move",
    "Ready",
    "Due",
    "Quiet",
];

/// The place of an operation's name.
pub fn operation_kind(op: &Op) -> usize
    ensures { result < 16 }
{
    match op {
        Op::Publish { .. } => 0,
        Op::Subscribe { .. } => 1,
        Op::Unsubscribe { .. } => 2,
        Op::AddRule { .. } => 3,
        Op::Pull { .. } => 4,
        Op::Deliver { .. } => 5,
        Op::Retry { .. } => 6,
        Op::Ack { .. } => 7,
        Op::Purge { .. } => 8,
        Op::Begin { .. } => 9,
        Op::Commit { .. } => 10,
        Op::Deactivate { .. } => 11,
        Op::Move { .. } => 12,
        Op::Ready { .. } => 13,
        Op::Due { .. } => 14,
        Op::Quiet => 15,
    }
}

/// The names of the replies. Each reason why a partition isn't quiet has one of its own.
pub static REPLIES: [&str; 42] = [
    "Published",
    "QueueFull",
    "BadBatch",
    "Subscribed",
    "Miss",
    "TooMany",
    "Unsubscribed",
    "NoSuch",
    "Closed",
    "Implicit",
    "RuleAdded",
    "RuleThere",
    "Pulled",
    "Pressed",
    "Dry",
    "StaleAgent",
    "Delivered",
    "Nothing",
    "MailboxFull",
    "Rewound",
    "Acked",
    "NotHandled",
    "Purged",
    "Turn",
    "Dropped",
    "Empty",
    "Busy",
    "Committed",
    "Stale",
    "Deactivated",
    "NotActive",
    "Moved",
    "Next",
    "NoneReady",
    "DueSub",
    "NoneDue",
    "Spent",
    "IsQuiet",
    "Behind",
    "Deliverable",
    "Waiting",
    "Running",
];

/// The place of a reply's name.
pub fn reply_kind(reply: &Reply) -> usize
    ensures { result < 42 }
{
    match reply {
        Reply::Published { .. } => 0,
        Reply::QueueFull => 1,
        Reply::BadBatch => 2,
        Reply::Subscribed { .. } => 3,
        Reply::Miss { .. } => 4,
        Reply::TooMany => 5,
        Reply::Unsubscribed { .. } => 6,
        Reply::NoSuch => 7,
        Reply::Closed => 8,
        Reply::Implicit => 9,
        Reply::RuleAdded { .. } => 10,
        Reply::RuleThere => 11,
        Reply::Pulled { .. } => 12,
        Reply::Pressed { .. } => 13,
        Reply::Dry => 14,
        Reply::StaleAgent { .. } => 15,
        Reply::Delivered { .. } => 16,
        Reply::Nothing => 17,
        Reply::MailboxFull => 18,
        Reply::Rewound => 19,
        Reply::Acked => 20,
        Reply::NotHandled => 21,
        Reply::Purged { .. } => 22,
        Reply::Turn { .. } => 23,
        Reply::Dropped { .. } => 24,
        Reply::Empty => 25,
        Reply::Busy => 26,
        Reply::Committed { .. } => 27,
        Reply::Stale => 28,
        Reply::Deactivated { .. } => 29,
        Reply::NotActive => 30,
        Reply::Moved { .. } => 31,
        Reply::Next(_) => 32,
        Reply::NoneReady => 33,
        Reply::DueSub { .. } => 34,
        Reply::NoneDue => 35,
        Reply::Spent => 36,
        Reply::IsQuiet => 37,
        Reply::NotQuiet(why) => 38 + pending_kind(why),
    }
}

/// The place of a reason among the four.
fn pending_kind(why: &Pending) -> usize
    ensures { result < 4 }
{
    match why {
        Pending::Behind => 0,
        Pending::Deliverable(_) => 1,
        Pending::Waiting(_) => 2,
        Pending::Running(_) => 3,
    }
}

/// The names of the ends of drains.
pub static ENDS: [&str; 4] = ["Drained", "Stuck", "TooMany", "Spent"];

/// The place of an end's name.
pub fn end_kind(end: &DrainEnd) -> usize
    ensures { result < 4 }
{
    match end {
        DrainEnd::Drained { .. } => 0,
        DrainEnd::Stuck { .. } => 1,
        DrainEnd::TooMany => 2,
        DrainEnd::Spent => 3,
    }
}
