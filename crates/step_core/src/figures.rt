//! Figures of a queue and of a subscription, for whoever operates them. No figure walks over a list.
ghost use Rattle.std.specs.Prelude.{◌≡◌, ◌-◌, if◌then◌else◌};
ghost use Rattle.step_core.specs.Assembly.{Agrees};
ghost use Rattle.step_core.specs.Figures.{figures_of, pressed_by, subscription_figures_of};
ghost use Rattle.step_core.specs.PlainOf.{plain_of};

use crate::parts::Parts;
use crate::pulling::slowest;
use crate::reading::{last_handled, least_resume};
use consumer_grain::SubState;
use pulling_agent::Plan;
use stream_ident::{BLOCK_EVENTS, GrainId, StreamId, SubName, Token};
use stream_model::Limits;

/// What a queue keeps, and how much more it takes.
#[derive(Clone, Copy, Debug, PartialEq, Eq)]
pub struct QueueFigures {
    /// How many events the log has. It keeps them all, so that this never falls.
    pub events: usize,
    /// How many batches were accepted.
    pub batches: u64,
    /// The first position that the cache keeps.
    pub low: usize,
    /// One past the last position that the cache has. The log's events from there on wait to be pulled.
    pub high: usize,
    /// How many events the cache has room for in all, 64 in each block.
    pub places: usize,
    /// The subscription that a pull of one event would now be answered `Pressed` by: the cache is full, and this one
    /// may still need its first block. None where such a pull would be answered otherwise.
    pub pressed_by: Option<SubName>,
    /// How many subscriptions have a record, closed and implicit ones counted.
    pub subscriptions: usize,
    /// How many rises there were: turns, activations and moves.
    pub rises: u64,
    /// The generation of the current agent.
    pub generation: u64,
    /// The silo of the current agent.
    pub silo: u8,
    /// How many events, subscriptions, rules and rises there may be.
    pub limits: Limits,
}

/// How far a subscription is.
#[derive(Clone, Copy, Debug, PartialEq, Eq)]
pub struct SubscriptionFigures {
    /// The stream.
    pub stream: StreamId,
    /// The grain that consumes it.
    pub grain: GrainId,
    /// It is owed the events of its stream from this token on.
    pub start: Token,
    /// Whether it hasn't been unsubscribed.
    pub is_open: bool,
    /// How many events it has handled.
    pub handled: usize,
    /// How many events of its queue, of whatever stream, lie from its resume on: the first of them is the first that it
    /// may be owed and hasn't acknowledged. It is 0 where it is closed, since it is owed nothing then.
    pub behind: usize,
    /// The token of the last event that it has handled.
    pub last: Option<Token>,
}

/// What the queue keeps. It walks over nothing.
pub(crate) fn queue_figures(parts: &Parts) -> QueueFigures
    requires { Agrees parts.now }
    ensures { result ≡ figures_of (plain_of parts.now) }
{
    let cache = parts.agent.cache();
    QueueFigures {
        events: parts.queue.len(),
        batches: parts.queue.batches(),
        low: cache.low(),
        high: cache.high(),
        places: BLOCK_EVENTS * cache.blocks(),
        pressed_by: pressed_by(parts),
        subscriptions: parts.subs.len(),
        rises: parts.rises,
        generation: parts.agent.generation(),
        silo: parts.agent.silo(),
        limits: parts.limits,
    }
}

/// How far a subscription is, none where it has no record. It costs a look-up.
pub(crate) fn subscription_figures(parts: &Parts, sub: &SubName) -> Option<SubscriptionFigures>
    requires { Agrees parts.now }
    ensures { result ≡ subscription_figures_of (plain_of parts.now) sub.now }
{
    let number = parts.subs.find(sub)?;
    let state = parts.subs.state(number);
    Some(SubscriptionFigures {
        stream: *parts.subs.stream(number),
        grain: *parts.subs.grain(number),
        start: state.start,
        is_open: state.live,
        handled: state.handled.as_slice().len(),
        behind: behind(state, parts.queue.len()),
        last: last_handled(parts, sub),
    })
}

/// How many of so many events lie from the resume of a subscription on, none where it is closed.
fn behind(state: &SubState, events: usize) -> usize
    ensures { result ≡ (if state.now.live then events - state.now.resume else 0) }
{
    if !state.live {
        return 0;
    }
    events.saturating_sub(state.resume)
}

/// The subscription that a pull of one event would be answered `Pressed` by, where it would.
fn pressed_by(parts: &Parts) -> Option<SubName>
    requires { Agrees parts.now }
    ensures { result ≡ pressed_by (plain_of parts.now) }
{
    let least = least_resume(parts);
    let agent = &parts.agent;
    match agent.plan_pull(agent.generation(), 1, parts.queue.len(), least) {
        Ok(Plan::Held) => Some(slowest(parts)),
        Ok(Plan::Dry) => None,
        Ok(Plan::Take { .. }) => None,
        Err(_) => None,
    }
}
