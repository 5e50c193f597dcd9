//! What the calls of a service answer, and how that is read from the replies of a queue and of a cluster.
ghost use Rattle.std.specs.Prelude.{◌≡◌, ◌<◌, length};
ghost use Rattle.queue_callers.specs.Calls.{turnstiles};
ghost use Rattle.streams.specs.Answers as read;
ghost use Rattle.streams.specs.Answers.{ComesTo, IsGone, IsLeft, full, too_many};

use crate::UntracedCaller;
use crate::outbox::Unpublished;
use shared_partition::Gate;
use silo_loops::LoopEnd;
use silo_threads::{Drained, Finished, SiloDown, SiloUp, Traces};
use std::alloc::{AllocError, Global};
use std::sync::Wait;
use step_core::{Answer, Partition, QueueFigures, Reply, SubscriptionFigures};
use stream_ident::{StreamId, SubName, Token};
use stream_model::{Pending, Start};
use thiserror::Error;
use turnstile::Refusal;

/// An explicit subscription, which a call made.
#[derive(Clone, Copy, Debug, PartialEq, Eq)]
pub struct Subscription {
    /// The queue of its stream.
    pub queue: usize,
    /// Its number at that queue, from 1 on.
    pub number: u32,
}

impl Subscription {
    /// Its name at its queue.
    pub fn name(&self) -> SubName
        ensures { result ≡ read.name_of self.now }
    {
        SubName::Explicit(self.number)
    }
}

/// The token of an event with the stream of that event.
#[derive(Clone, Copy, Debug, PartialEq, Eq)]
pub struct StreamToken {
    /// The stream.
    pub stream: StreamId,
    /// The token of the event at the queue of the stream.
    pub token: Token,
}

/// Where a subscription to a stream starts.
#[derive(Clone, Copy, Debug, PartialEq, Eq)]
pub enum StartFrom {
    /// With the first batch that is accepted after it.
    Latest,
    /// With the first event whose token isn't less than that of an event of the same stream. It is `Ahead` above the
    /// token of the next batch, and a `Miss` below that of the first event that the cache keeps; and one of another
    /// stream is `OtherStream`.
    At(StreamToken),
    /// With the first event whose token isn't less than this one, which may be that of an event of another stream at
    /// the same queue. It is `Ahead` or a `Miss` as at `At`.
    Token(Token),
    /// From this token on, even if it is above the one that the next batch gets: events before it are passed over.
    Later(Token),
}

impl StartFrom {
    /// The start that the queue of a stream is asked for. There is none at an event of another stream.
    pub(crate) fn start_for(&self, stream: &StreamId) -> Option<Start>
        ensures { result ≡ read.start_for stream.now self.now }
    {
        match self {
            StartFrom::Latest => Some(Start::Latest),
            StartFrom::At(first) if first.stream == *stream => Some(Start::At(first.token)),
            StartFrom::At(_) => None,
            StartFrom::Token(token) | StartFrom::Later(token) => Some(Start::At(*token)),
        }
    }

    /// The start token, where it may not be above the one that the next batch gets.
    pub(crate) fn checked_token(&self) -> Option<Token>
        ensures { result ≡ read.checked_token self.now }
    {
        match self {
            StartFrom::At(first) => Some(first.token),
            StartFrom::Token(token) => Some(*token),
            StartFrom::Latest | StartFrom::Later(_) => None,
        }
    }
}

/// What is left of a service that was closed.
#[derive(Drop)]
pub struct Closed {
    /// The report: the line `report`, a line for each subscription, and below each open one a line for each event that
    /// it has handled. Or why there is none.
    pub report: Result<Vec<u8>, CloseError>,
    /// The partition of each queue, in order, also where there is no report because of `NotQuiet`, `RoundLimit` or
    /// `Limit`. After the other errors there are none. [`Partition::subs`] and [`Partition::handled`] read what each
    /// subscription has handled.
    pub partitions: Vec<Partition>,
}

impl Closed {
    /// What a queue keeps, and none where its partition isn't here.
    pub fn queue(&self, queue: usize) -> Option<QueueFigures>
        ensures { result ≡ read.figures_in self.now.partitions.items queue }
    {
        Some(self.partitions.get(queue)?.figures())
    }

    /// How far a subscription is, also one that was ended: the report doesn't say how many events that one had handled.
    /// None where the partition of its queue isn't here, or has no such subscription.
    pub fn subscription(&self, queue: usize, sub: &SubName) -> Option<SubscriptionFigures>
        ensures { result ≡ read.subscription_in self.now.partitions.items queue sub.now }
    {
        self.partitions.get(queue)?.subscription(sub)
    }
}

/// Why a queue doesn't answer a call.
#[derive(Clone, Copy, Debug, PartialEq, Eq, Error)]
pub enum CallError {
    /// There is no such queue. Only [`Service::pending`](crate::Service::pending) answers so.
    #[error("there is no such queue")]
    NoQueue,
    /// The queue has as many rules as it may have, or its history is full.
    #[error("a queue has as many rules as it may have, or its history is full")]
    Limit,
    /// The call failed to allocate.
    #[error("no memory")]
    Memory,
}

/// Why a batch isn't published.
#[derive(Clone, Copy, Debug, PartialEq, Eq, Error)]
pub enum PublishError {
    /// The batch has no payload, or more than 64.
    #[error("a batch has 1 to 64 payloads")]
    BadBatch,
    /// A loop of a silo has ended before. Nothing was asked: what is published from then on may never be handled.
    #[error("{end}: nothing is published any more, open a new service")]
    Ended {
        /// What has ended it.
        end: LoopEnd,
    },
    /// With this batch the log of the queue would have more events than it may have. It never gets smaller.
    #[error("the log of queue {queue} has {events} of at most {limit} events, too many for this batch, and never gets shorter: open a new service")]
    QueueFull {
        /// The queue.
        queue: usize,
        /// How many events its log has, looked at after the refusal: other producers may have published meanwhile.
        events: usize,
        /// How many events it may have.
        limit: usize,
    },
    /// The history of the queue has as many calls as `Config::history` says.
    #[error("the history of queue {queue} is full")]
    HistoryFull {
        /// The queue.
        queue: usize,
    },
    /// The call failed to allocate.
    #[error("no memory")]
    Memory,
}

/// Why a subscription isn't made.
#[derive(Clone, Copy, Debug, PartialEq, Eq, Error)]
pub enum SubscribeError {
    /// The start token is below that of the first event that the cache keeps. A subscribe from the token `low` or from
    /// `StartFrom::Latest` may be tried instead; the low token may have risen by then.
    #[error("the cache keeps no event before {}.{}: start there, or by StartFrom::Latest", low.seq, low.idx)]
    Miss {
        /// The token of the first event that the cache keeps.
        low: Token,
        /// The token after the last event that the cache has.
        high: Token,
    },
    /// The subscription was to start at an event of another stream. Nothing was asked.
    #[error("the start is an event of another stream: start by a token of this one")]
    OtherStream,
    /// The start token is above the one that the next batch gets, and wasn't given as `StartFrom::Later`. Nothing was
    /// asked. Where others publish, the next batch may get a greater token by now.
    #[error("the start is above {}.{}, the token of the next batch: StartFrom::Later waits for it", next.seq, next.idx)]
    Ahead {
        /// The token that the next batch got when the queue was looked at.
        next: Token,
    },
    /// A loop of a silo has ended before. Nothing was asked: what is published from then on may never be handled.
    #[error("{end}: no subscription is made any more, open a new service")]
    Ended {
        /// What has ended it.
        end: LoopEnd,
    },
    /// The queue has as many subscriptions as it may have, closed and implicit ones counted.
    #[error("queue {queue} has {subscriptions} of at most {limit} subscriptions, closed and implicit ones counted: open a new service")]
    TooMany {
        /// The queue.
        queue: usize,
        /// How many subscriptions it has, looked at after the refusal.
        subscriptions: usize,
        /// How many it may have.
        limit: usize,
    },
    /// The history of the queue has as many calls as `Config::history` says.
    #[error("the history of queue {queue} is full")]
    HistoryFull {
        /// The queue.
        queue: usize,
    },
    /// The call failed to allocate.
    #[error("no memory")]
    Memory,
}

/// Why a subscription isn't ended.
#[derive(Clone, Copy, Debug, PartialEq, Eq, Error)]
pub enum UnsubscribeError {
    /// There is no such subscription.
    #[error("there is no such subscription")]
    NoSuch,
    /// The subscription has ended already.
    #[error("the subscription has ended already")]
    Closed,
    /// The history of the queue is full.
    #[error("the history of the queue is full")]
    Limit,
    /// The call failed to allocate.
    #[error("no memory")]
    Memory,
}

/// Why a service doesn't settle.
#[derive(Clone, Copy, Debug, PartialEq, Eq, Error)]
pub enum SettleError {
    /// There were as many looks at the queues as `Config::looks` says, and in each a queue wasn't quiet. Or all were
    /// quiet as often as it says, and each time a batch was accepted meanwhile, or there was a message in the outbox.
    #[error("not all queues get quiet")]
    NotQuiet,
    /// A queue wasn't quiet, and may never be: a loop has ended, a silo went and its queues weren't given to others, or
    /// not all loops of one that came could be started.
    #[error("a queue isn't quiet and may never be: a loop has ended, or a change of silos was broken off")]
    Ended,
    /// The history of a queue is full.
    #[error("the history of a queue is full")]
    Limit,
    /// A message of an outbox was refused. Only [`Service::settle_with`](crate::Service::settle_with) answers so.
    #[error("a message isn't published: {0}")]
    Unpublished(Unpublished),
    /// The call failed to allocate. It has only looked, and by `settle_with` published messages.
    #[error("no memory")]
    Memory,
}

/// Why a silo doesn't come or go.
#[derive(Clone, Copy, Debug, PartialEq, Eq, Error)]
pub enum SiloError {
    /// Silos are numbered from 0 to 15. Nothing was done.
    #[error("silos are numbered from 0 to 15")]
    NoSilo,
    /// A loop of a silo has ended before. Nothing was done. Only [`Service::silo_up`](crate::Service::silo_up) answers so.
    #[error("{end}: no silo comes any more")]
    Ended {
        /// What has ended it.
        end: LoopEnd,
    },
    /// A silo that was to come lives already. Nothing was done.
    #[error("the silo lives already")]
    Already,
    /// A silo that was to go doesn't live. Nothing was done.
    #[error("the silo doesn't live")]
    NotLive,
    /// No other silo lives than the one that was to go. Nothing was done.
    #[error("no other silo lives: let one come before this one goes")]
    LastSilo,
    /// The history of a queue or of the directory is full, or a queue has no rise left for a Move. What was done
    /// by then stands, and the cluster's silos don't change any more.
    #[error("a queue has no rise left for a move, or a history is full: the silos don't change any more")]
    Limit,
    /// An earlier change of silos was broken off (`Limit` or `Memory`), and the silos don't change any more. Nothing
    /// was done.
    #[error("the silos don't change any more")]
    Halted,
    /// The call failed to allocate, or a thread can't be made. What was done by then stands, and the cluster's silos
    /// don't change any more.
    #[error("no memory, or no thread could be made: the silos don't change any more")]
    Memory,
}

/// Why a service is closed without a report. What it leaves stands in [`Closed::partitions`].
#[derive(Clone, Copy, Debug, PartialEq, Eq, Error)]
pub enum CloseError {
    /// Something is left to do at a queue. The partitions are handed back.
    #[error("queue {queue} isn't quiet: {why:?}: settle before you close")]
    NotQuiet {
        /// The first such queue.
        queue: usize,
        /// What is left to do there.
        why: Pending,
    },
    /// A loop has made as many rounds as `Config::rounds` says. The partitions are handed back.
    #[error("a loop has made as many rounds as it may")]
    RoundLimit,
    /// A loop has come to another limit, or the history of a queue is full. The partitions are handed back.
    #[error("a loop has come to a limit, or the history of a queue is full: Closed::queue has the figures")]
    Limit,
    /// Passes of a queue are missing, as where a [`Producer`](crate::Producer) was dropped: no other run is known to meet
    /// this. The partitions are gone.
    #[error("{missing} passes of queue {queue} are missing, as where a producer was dropped, and the partitions are gone")]
    NotAll {
        /// The first such queue.
        queue: usize,
        /// How many of its passes are missing.
        missing: u64,
    },
    /// The turnstile of a queue is still in use, as where a [`Producer`](crate::Producer) is out. The partitions are gone.
    #[error("a queue is still in use, as where a producer wasn't given to take_back, and the partitions are gone")]
    InUse,
    /// The call failed to allocate, or a loop failed to before. The partitions are gone.
    #[error("no memory, and the partitions are gone")]
    Memory,
}

// The first event of a batch, by the reply to its publish. Where the log is full, it is looked at how much it has.
pub(crate) fn published<R: Wait, G: Gate>(
    rt: &R,
    caller: &mut UntracedCaller<G>,
    queue: usize,
    stream: StreamId,
    reply: Result<Answer, Refusal>,
) -> Result<StreamToken, PublishError>
    requires { queue < length caller.old }
    ensures comes { ComesTo (read.published queue stream reply) (full queue) caller.old queue result caller.new }
    ensures turnstiles { turnstiles caller.new ≡ turnstiles caller.old }
{
    match reply {
        Ok(answer) => match answer.outcome() {
            Reply::Published { seq } => Ok(StreamToken {
                stream,
                token: Token { seq: *seq, idx: 0 },
            }),
            Reply::BadBatch => Err(PublishError::BadBatch),
            _ => {
                let kept = caller.figures(rt, queue);
                Err(PublishError::QueueFull {
                    queue,
                    events: kept.events,
                    limit: kept.limits.events,
                })
            }
        },
        Err(Refusal::HistoryFull) => Err(PublishError::HistoryFull { queue }),
        Err(Refusal::Memory) => Err(PublishError::Memory),
    }
}

// The subscription at a queue, by the reply to its subscribe. Where there are too many, it is looked at how many.
pub(crate) fn subscribed<R: Wait, G: Gate>(
    rt: &R,
    caller: &mut UntracedCaller<G>,
    queue: usize,
    reply: Result<Answer, Refusal>,
) -> Result<Subscription, SubscribeError>
    requires { queue < length caller.old }
    ensures comes { ComesTo (read.subscribed queue reply) (too_many queue) caller.old queue result caller.new }
    ensures turnstiles { turnstiles caller.new ≡ turnstiles caller.old }
{
    match reply {
        Ok(answer) => match answer.outcome() {
            Reply::Subscribed { number } => Ok(Subscription {
                queue,
                number: *number,
            }),
            Reply::Miss { low, high, .. } => Err(SubscribeError::Miss {
                low: *low,
                high: *high,
            }),
            _ => {
                let kept = caller.figures(rt, queue);
                Err(SubscribeError::TooMany {
                    queue,
                    subscriptions: kept.subscriptions,
                    limit: kept.limits.subs,
                })
            }
        },
        Err(Refusal::HistoryFull) => Err(SubscribeError::HistoryFull { queue }),
        Err(Refusal::Memory) => Err(SubscribeError::Memory),
    }
}

// How many events a subscription has handled, by the reply to its unsubscribe.
pub(crate) fn unsubscribed(reply: Result<Answer, Refusal>) -> Result<usize, UnsubscribeError>
    ensures { result ≡ read.unsubscribed reply }
{
    match reply {
        Ok(answer) => match answer.outcome() {
            Reply::Unsubscribed { handled } => Ok(*handled),
            Reply::Closed => Err(UnsubscribeError::Closed),
            _ => Err(UnsubscribeError::NoSuch),
        },
        Err(Refusal::HistoryFull) => Err(UnsubscribeError::Limit),
        Err(Refusal::Memory) => Err(UnsubscribeError::Memory),
    }
}

// Whether a rule is new at a queue, by the reply to it.
pub(crate) fn rule_added(reply: Result<Answer, Refusal>) -> Result<bool, CallError>
    ensures { result ≡ read.rule_added reply }
{
    match reply {
        Ok(answer) => match answer.outcome() {
            Reply::RuleAdded { .. } => Ok(true),
            Reply::RuleThere => Ok(false),
            _ => Err(CallError::Limit),
        },
        Err(Refusal::HistoryFull) => Err(CallError::Limit),
        Err(Refusal::Memory) => Err(CallError::Memory),
    }
}

// What is left to do at a queue, by the reply to a look.
pub(crate) fn pending_of(reply: Result<Answer, Refusal>) -> Result<Option<Pending>, CallError>
    ensures { result ≡ read.pending_of reply }
{
    match reply {
        Ok(answer) => match answer.outcome() {
            Reply::NotQuiet(why) => Ok(Some(*why)),
            _ => Ok(None),
        },
        Err(Refusal::HistoryFull) => Err(CallError::Limit),
        Err(Refusal::Memory) => Err(CallError::Memory),
    }
}

// Whether all queues got quiet, by how a drain has ended.
pub(crate) fn settled(drained: Result<Drained, AllocError>) -> Result<(), SettleError>
    ensures { result ≡ read.settled drained }
{
    match drained {
        Ok(Drained::Quiet) => Ok(()),
        Ok(Drained::NotQuiet) => Err(SettleError::NotQuiet),
        Ok(Drained::Ended) => Err(SettleError::Ended),
        Ok(Drained::Limit) => Err(SettleError::Limit),
        Err(_) => Err(SettleError::Memory),
    }
}

// Whether a silo has come.
pub(crate) fn came(answer: Result<SiloUp, AllocError>) -> Result<(), SiloError>
    ensures { result ≡ read.came answer }
{
    match answer {
        Ok(SiloUp::Up) => Ok(()),
        Ok(SiloUp::Already) => Err(SiloError::Already),
        Ok(SiloUp::Limit) => Err(SiloError::Limit),
        Ok(SiloUp::Halted) => Err(SiloError::Halted),
        Err(_) => Err(SiloError::Memory),
    }
}

// Whether a silo has gone.
pub(crate) fn went(answer: Result<SiloDown, AllocError>) -> Result<(), SiloError>
    ensures { result ≡ read.went answer }
{
    match answer {
        Ok(SiloDown::Down) => Ok(()),
        Ok(SiloDown::NotLive) => Err(SiloError::NotLive),
        Ok(SiloDown::LastSilo) => Err(SiloError::LastSilo),
        Ok(SiloDown::Limit) => Err(SiloError::Limit),
        Ok(SiloDown::Halted) => Err(SiloError::Halted),
        Err(_) => Err(SiloError::Memory),
    }
}

// What is left of a service, by how its cluster has ended.
pub(crate) fn closing<H: Drop>(alloc: Global, finished: Finished<H>) -> Closed
    ensures { IsLeft finished result }
{
    match finished {
        Finished::Report { text, traces } => handed_back(Ok(text), traces),
        Finished::NotQuiet { queue, why, traces } => {
            handed_back(Err(CloseError::NotQuiet { queue, why }), traces)
        }
        Finished::RoundLimit { traces } => handed_back(Err(CloseError::RoundLimit), traces),
        Finished::Limit { traces } => handed_back(Err(CloseError::Limit), traces),
        Finished::NotAll { queue, missing } => {
            all_gone(alloc, CloseError::NotAll { queue, missing })
        }
        Finished::InUse => all_gone(alloc, CloseError::InUse),
    }
}

// The report, or why there is none, and the partitions; the histories are let go.
fn handed_back<H: Drop>(report: Result<Vec<u8>, CloseError>, traces: Traces<H>) -> Closed
    ensures { result ≡ record { report = report; partitions = traces.partitions } }
{
    let Traces {
        histories: _histories,
        partitions,
    } = traces;
    Closed { report, partitions }
}

// Why there is no report, and no partition.
pub(crate) fn all_gone(alloc: Global, why: CloseError) -> Closed
    ensures { IsGone why result }
{
    Closed {
        report: Err(why),
        partitions: Vec::new(alloc),
    }
}
