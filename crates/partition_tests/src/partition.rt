//! A partition as a whole, and what is asked of it. Names are single bytes.
use crate::log::batch;
use crate::names::{grain, name, stream};
use crate::rows::{Asked, ask};
use std::alloc::{AllocError, Global};
use std::fmt::Debug;
use std::process::Abort;
use std::test::Fail;
use step_core::{Limits, Op, Partition, Reply, Start};
use stream_ident::{Event, SubName, Token};

const FIRST: Token = Token { seq: 0, idx: 0 };

/// What is asked of a partition.
pub(crate) enum Call {
    /// So many payloads go to the stream o/KEY.
    Publish(u8, usize),
    /// The grain g/KEY subscribes to the stream o/k.
    Subscribe(u8, Start),
    /// The grain g/KEY does so in a run of one operation.
    Run(u8),
    /// The grains of the kind g shall consume the streams of a namespace.
    AddRule(u8),
    /// The agent takes up to so many events.
    Pull(u32),
    /// The next event goes to the grain of the subscription with a number.
    Deliver(u32),
    /// The grain g/KEY begins a turn of up to so many events.
    Begin(u8, u32),
    /// The grain g/KEY does so, and the answer stands for the reply.
    Answer(u8, u32),
    /// The queue goes to another silo.
    Move(u8),
    /// All that is left is done.
    Drain,
    /// Whether it is quiet.
    Quiet,
    /// The subscription with a number ends.
    Unsubscribe(u32),
    /// How many events the subscription with a number has handled.
    Handled(u32),
    /// What the queue keeps.
    Figures,
    /// How far the subscription with a number is.
    Subscription(u32),
    /// The subscriptions.
    Subs,
    /// The tokens of the cache, and the agent.
    Cache,
    /// The text of the partition itself.
    Print,
}

fn subscription<R: Abort>(rt: &R, key: u8, start: Start) -> Op {
    Op::Subscribe {
        stream: stream(rt, b'o', b'k'),
        grain: grain(rt, b'g', key),
        start,
    }
}

/// The operation of a call.
fn op<R: Abort>(rt: &R, alloc: Global, call: &Call) -> Result<Op, AllocError> {
    let generation = 0;
    Ok(match *call {
        Call::Publish(key, count) => Op::Publish {
            stream: stream(rt, b'o', key),
            payloads: batch(rt, alloc, count)?,
        },
        Call::Subscribe(key, start) => subscription(rt, key, start),
        Call::AddRule(namespace) => Op::AddRule {
            kind: name(rt, b'g'),
            namespace: name(rt, namespace),
        },
        Call::Pull(max) => Op::Pull { generation, max },
        Call::Deliver(number) => Op::Deliver {
            generation,
            sub: SubName::Explicit(number),
        },
        Call::Begin(key, max) | Call::Answer(key, max) => Op::Begin {
            grain: grain(rt, b'g', key),
            max,
        },
        Call::Unsubscribe(number) => Op::Unsubscribe {
            sub: SubName::Explicit(number),
        },
        Call::Move(silo) => Op::Move { silo },
        _ => panic!(rt; "no operation"),
    })
}

/// Whether a value reads so.
fn reads<T: Debug>(alloc: Global, value: &T, text: &str) -> Result<bool, AllocError> {
    let read = format!(in alloc; "{value:?}")?;
    Ok(read.as_str() == text)
}

/// Whether a reply reads so. Of a turn there is the subscription alone.
fn replies(alloc: Global, reply: &Reply, text: &str) -> Result<bool, AllocError> {
    match reply {
        Reply::Turn { sub, .. } => reads(alloc, sub, text),
        _ => reads(alloc, reply, text),
    }
}

/// Whether the operation of a call is replied to so.
fn steps<R: Abort>(
    rt: &R,
    alloc: Global,
    partition: &mut Partition,
    call: &Call,
    text: &str,
) -> Result<bool, AllocError> {
    let op = op(rt, alloc, call)?;
    replies(alloc, &partition.step(alloc, op)?, text)
}

/// Whether the answer to the operation of a call stands for a reply that reads so. The events of a turn come beside it.
fn answers<R: Abort>(
    rt: &R,
    alloc: Global,
    partition: &mut Partition,
    call: &Call,
    text: &str,
) -> Result<bool, AllocError> {
    let op = op(rt, alloc, call)?;
    let mut events = Vec::with_capacity(alloc, 16)?;
    let answer = partition.answer(alloc, &op, &mut events)?;
    let reply = answer.reply(&events);
    Ok(replies(alloc, &reply, text)? && has_events(&reply, &events))
}

/// Whether the events of a turn are these.
fn has_events(reply: &Reply, shown: &[Event]) -> bool {
    match reply {
        Reply::Turn { events, .. } => events.as_slice() == shown,
        _ => shown.is_empty(),
    }
}

/// Whether the run of one operation is replied to so.
fn runs(alloc: Global, partition: &mut Partition, op: Op, text: &str) -> Result<bool, AllocError> {
    let mut ops = Vec::new(alloc);
    ops.push(op)?;
    let mut replies = Vec::new(alloc);
    partition.run(alloc, ops, &mut replies)?;
    reads(alloc, &replies.as_slice(), text)
}

/// Whether this is seen of a partition.
fn shows(
    alloc: Global,
    partition: &Partition,
    call: &Call,
    text: &str,
) -> Result<bool, AllocError> {
    match *call {
        Call::Handled(number) => {
            let handled = partition.handled(alloc, &SubName::Explicit(number))?;
            reads(alloc, &handled.len(), text)
        }
        Call::Figures => reads(alloc, &partition.figures(), text),
        Call::Subscription(number) => {
            let name = SubName::Explicit(number);
            reads(alloc, &partition.subscription(&name), text)
        }
        Call::Subs => reads(alloc, &partition.subs(alloc)?.as_slice(), text),
        Call::Cache => {
            let tokens = (partition.low_token(), partition.high_token());
            reads(alloc, &(tokens, partition.agent()), text)
        }
        Call::Quiet => reads(alloc, &partition.quiet(), text),
        _ => reads(alloc, partition, text),
    }
}

impl Asked for Partition {
    type Call = (Call, &'static str);

    fn is_so<R: Abort>(
        &mut self,
        rt: &R,
        alloc: Global,
        call: &(Call, &'static str),
    ) -> Result<bool, AllocError> {
        let (call, text) = call;
        match *call {
            Call::Run(key) => runs(alloc, self, subscription(rt, key, Start::Latest), text),
            Call::Drain => reads(alloc, &self.drain(alloc)?, text),
            Call::Answer(..) => answers(rt, alloc, self, call, text),
            Call::Quiet
            | Call::Handled(_)
            | Call::Figures
            | Call::Subscription(_)
            | Call::Subs
            | Call::Cache
            | Call::Print => shows(alloc, self, call, text),
            _ => steps(rt, alloc, self, call, text),
        }
    }
}

/// Each subscription handles each event in a turn of its own, and then nothing is left to do.
const DRAINED: [(Call, &str); 12] = [
    (
        Call::Subscribe(b'x', Start::Latest),
        "Subscribed { number: 1 }",
    ),
    (
        Call::Subscribe(b'y', Start::Latest),
        "Subscribed { number: 2 }",
    ),
    (Call::Publish(b'k', 1), "Published { seq: 0 }"),
    (Call::Publish(b'k', 1), "Published { seq: 1 }"),
    (Call::Drain, "Drained { turns: 4 }"),
    (Call::Quiet, "Yes"),
    (Call::Handled(1), "2"),
    (Call::Handled(2), "2"),
    (Call::Drain, "Drained { turns: 0 }"),
    (Call::Quiet, "Yes"),
    (Call::Handled(1), "2"),
    (Call::Handled(2), "2"),
];

/// While a turn runs nothing is drained.
const STUCK: [(Call, &str); 10] = [
    (
        Call::Subscribe(b'x', Start::Latest),
        "Subscribed { number: 1 }",
    ),
    (
        Call::Subscribe(b'y', Start::Latest),
        "Subscribed { number: 2 }",
    ),
    (Call::Publish(b'k', 1), "Published { seq: 0 }"),
    (Call::Publish(b'k', 1), "Published { seq: 1 }"),
    (
        Call::Pull(1),
        "Pulled { count: 1, low: Token { seq: 0, idx: 0 }, high: Token { seq: 1, idx: 0 } }",
    ),
    (
        Call::Deliver(2),
        "Delivered { token: Token { seq: 0, idx: 0 } }",
    ),
    (Call::Begin(b'y', 1), "Explicit(2)"),
    (Call::Drain, "Stuck { grain: GrainId { kind: g, key: y } }"),
    (Call::Handled(1), "0"),
    (Call::Handled(2), "0"),
];

/// Answers stand for replies.
const ANSWERED: [(Call, &str); 8] = [
    (
        Call::Subscribe(b'x', Start::Latest),
        "Subscribed { number: 1 }",
    ),
    (Call::Answer(b'x', 2), "Empty"),
    (Call::Publish(b'k', 2), "Published { seq: 0 }"),
    (
        Call::Pull(2),
        "Pulled { count: 2, low: Token { seq: 0, idx: 0 }, high: Token { seq: 1, idx: 0 } }",
    ),
    (
        Call::Deliver(1),
        "Delivered { token: Token { seq: 0, idx: 0 } }",
    ),
    (
        Call::Deliver(1),
        "Delivered { token: Token { seq: 0, idx: 1 } }",
    ),
    (Call::Answer(b'x', 2), "Explicit(1)"),
    (Call::Answer(b'x', 2), "Busy"),
];

/// Operations run, and show.
const SHOWN: [(Call, &str); 4] = [
    (Call::Run(b'x'), "[Subscribed { number: 1 }]"),
    (
        Call::Cache,
        "((Token { seq: 0, idx: 0 }, Token { seq: 0, idx: 0 }), (0, 0))",
    ),
    (
        Call::Subs,
        "[SubSummary { name: Explicit(1), stream: StreamId { namespace: o, key: k }, grain: GrainId { kind: g, key: x }, start: Token { seq: 0, idx: 0 }, is_open: true }]",
    ),
    (Call::Quiet, "Yes"),
];

/// The rule's subscription has its record first, and its name comes last.
const ORDERED: [(Call, &str); 5] = [
    (Call::AddRule(b'o'), "RuleAdded { from: 0 }"),
    (Call::Publish(b'k', 1), "Published { seq: 0 }"),
    (
        Call::Pull(1),
        "Pulled { count: 1, low: Token { seq: 0, idx: 0 }, high: Token { seq: 1, idx: 0 } }",
    ),
    (
        Call::Subscribe(b'x', Start::Latest),
        "Subscribed { number: 1 }",
    ),
    (
        Call::Subs,
        "[SubSummary { name: Explicit(1), stream: StreamId { namespace: o, key: k }, grain: GrainId { kind: g, key: x }, start: Token { seq: 1, idx: 0 }, is_open: true }, SubSummary { name: Implicit { kind: g, stream: StreamId { namespace: o, key: k } }, stream: StreamId { namespace: o, key: k }, grain: GrainId { kind: g, key: k }, start: Token { seq: 0, idx: 0 }, is_open: true }]",
    ),
];

/// A queue is pressed while its cache is full of what a subscription may still need. What that one is behind counts from
/// its resume, until it ends.
const PRESSED: [(Call, &str); 20] = [
    (
        Call::Subscribe(b'x', Start::Latest),
        "Subscribed { number: 1 }",
    ),
    (Call::Publish(b'k', 64), "Published { seq: 0 }"),
    (Call::Publish(b'k', 64), "Published { seq: 1 }"),
    (Call::Publish(b'k', 64), "Published { seq: 2 }"),
    (Call::Publish(b'k', 64), "Published { seq: 3 }"),
    (Call::Publish(b'k', 64), "Published { seq: 4 }"),
    (
        Call::Figures,
        "QueueFigures { events: 320, batches: 5, low: 0, high: 0, places: 256, pressed_by: None, subscriptions: 1, rises: 0, generation: 0, silo: 0, limits: Limits { events: 1000000, subs: 10000, rules: 64, rises: 4000000 } }",
    ),
    (
        Call::Pull(256),
        "Pulled { count: 256, low: Token { seq: 0, idx: 0 }, high: Token { seq: 4, idx: 0 } }",
    ),
    (
        Call::Deliver(1),
        "Delivered { token: Token { seq: 0, idx: 0 } }",
    ),
    (
        Call::Figures,
        "QueueFigures { events: 320, batches: 5, low: 0, high: 256, places: 256, pressed_by: Some(Explicit(1)), subscriptions: 1, rises: 1, generation: 0, silo: 0, limits: Limits { events: 1000000, subs: 10000, rules: 64, rises: 4000000 } }",
    ),
    (Call::Pull(1), "Pressed { by: Explicit(1) }"),
    (
        Call::Subscription(1),
        "Some(SubscriptionFigures { stream: StreamId { namespace: o, key: k }, grain: GrainId { kind: g, key: x }, start: Token { seq: 0, idx: 0 }, is_open: true, handled: 0, behind: 320, last: None })",
    ),
    (Call::Subscription(2), "None"),
    (Call::Drain, "Drained { turns: 320 }"),
    (
        Call::Figures,
        "QueueFigures { events: 320, batches: 5, low: 64, high: 320, places: 256, pressed_by: None, subscriptions: 1, rises: 321, generation: 0, silo: 0, limits: Limits { events: 1000000, subs: 10000, rules: 64, rises: 4000000 } }",
    ),
    (
        Call::Subscription(1),
        "Some(SubscriptionFigures { stream: StreamId { namespace: o, key: k }, grain: GrainId { kind: g, key: x }, start: Token { seq: 0, idx: 0 }, is_open: true, handled: 320, behind: 0, last: Some(Token { seq: 4, idx: 63 }) })",
    ),
    (Call::Publish(b'k', 2), "Published { seq: 5 }"),
    (
        Call::Subscription(1),
        "Some(SubscriptionFigures { stream: StreamId { namespace: o, key: k }, grain: GrainId { kind: g, key: x }, start: Token { seq: 0, idx: 0 }, is_open: true, handled: 320, behind: 2, last: Some(Token { seq: 4, idx: 63 }) })",
    ),
    (Call::Unsubscribe(1), "Unsubscribed { handled: 320 }"),
    (
        Call::Subscription(1),
        "Some(SubscriptionFigures { stream: StreamId { namespace: o, key: k }, grain: GrainId { kind: g, key: x }, start: Token { seq: 0, idx: 0 }, is_open: false, handled: 320, behind: 0, last: Some(Token { seq: 4, idx: 63 }) })",
    ),
];

/// A partition is printed short. No two of the numbers are equal, and none is 0.
const PRINTED: [(Call, &str); 12] = [
    (
        Call::Subscribe(b'x', Start::Latest),
        "Subscribed { number: 1 }",
    ),
    (
        Call::Subscribe(b'y', Start::Latest),
        "Subscribed { number: 2 }",
    ),
    (
        Call::Subscribe(b'x', Start::Latest),
        "Subscribed { number: 3 }",
    ),
    (
        Call::Subscribe(b'x', Start::Latest),
        "Subscribed { number: 4 }",
    ),
    (Call::Publish(b'k', 1), "Published { seq: 0 }"),
    (Call::Publish(b'k', 1), "Published { seq: 1 }"),
    (Call::Publish(b'k', 1), "Published { seq: 2 }"),
    (
        Call::Pull(1),
        "Pulled { count: 1, low: Token { seq: 0, idx: 0 }, high: Token { seq: 1, idx: 0 } }",
    ),
    (
        Call::Deliver(1),
        "Delivered { token: Token { seq: 0, idx: 0 } }",
    ),
    (
        Call::Deliver(2),
        "Delivered { token: Token { seq: 0, idx: 0 } }",
    ),
    (
        Call::Move(7),
        "Moved { generation: 1, low: Token { seq: 0, idx: 0 } }",
    ),
    (
        Call::Print,
        "Partition { generation: 1, silo: 7, events: 3, subs: 4, grains: 2, .. }",
    ),
];

/// Room for two events, one subscription and one rule, and one rise.
const SMALL: Limits = Limits {
    events: 2,
    subs: 1,
    rules: 1,
    rises: 1,
};

/// Each limit is met. A batch is taken whole or not at all, and the grain's first activation is the one rise, so the
/// second event isn't delivered.
const LIMITED: [(Call, &str); 15] = [
    (Call::Publish(b'k', 3), "QueueFull"),
    (Call::Publish(b'k', 0), "BadBatch"),
    (Call::Publish(b'k', 2), "Published { seq: 0 }"),
    (Call::Publish(b'k', 1), "QueueFull"),
    (
        Call::Subscribe(b'x', Start::At(FIRST)),
        "Subscribed { number: 1 }",
    ),
    (Call::Subscribe(b'x', Start::At(FIRST)), "TooMany"),
    (Call::AddRule(b'o'), "RuleAdded { from: 1 }"),
    (Call::AddRule(b'o'), "RuleThere"),
    (Call::AddRule(b'p'), "TooMany"),
    (
        Call::Pull(32),
        "Pulled { count: 2, low: Token { seq: 0, idx: 0 }, high: Token { seq: 1, idx: 0 } }",
    ),
    (
        Call::Deliver(1),
        "Delivered { token: Token { seq: 0, idx: 0 } }",
    ),
    (Call::Begin(b'x', 1), "Spent"),
    (Call::Move(1), "Spent"),
    (Call::Drain, "Spent"),
    (Call::Quiet, "No(Deliverable(Explicit(1)))"),
];

/// An event that was delivered waits for a turn, which would be one rise too many.
const WAITING: [(Call, &str); 6] = [
    (
        Call::Subscribe(b'x', Start::At(FIRST)),
        "Subscribed { number: 1 }",
    ),
    (Call::Publish(b'k', 1), "Published { seq: 0 }"),
    (
        Call::Pull(32),
        "Pulled { count: 1, low: Token { seq: 0, idx: 0 }, high: Token { seq: 1, idx: 0 } }",
    ),
    (
        Call::Deliver(1),
        "Delivered { token: Token { seq: 0, idx: 0 } }",
    ),
    (Call::Begin(b'x', 16), "Spent"),
    (Call::Quiet, "No(Waiting(GrainId { kind: g, key: x }))"),
];

/// A pull that makes too many changes nothing.
const MADE: [(Call, &str); 6] = [
    (
        Call::Subscribe(b'x', Start::At(FIRST)),
        "Subscribed { number: 1 }",
    ),
    (Call::AddRule(b'o'), "RuleAdded { from: 0 }"),
    (Call::Publish(b'a', 1), "Published { seq: 0 }"),
    (Call::Pull(32), "TooMany"),
    (Call::Drain, "TooMany"),
    (Call::Quiet, "No(Behind)"),
];

/// The limits of a partition, and what is asked of it.
static CASES: [(Limits, &[(Call, &str)]); 10] = [
    (Limits::GREATEST, &DRAINED),
    (Limits::GREATEST, &STUCK),
    (Limits::GREATEST, &ANSWERED),
    (Limits::GREATEST, &SHOWN),
    (Limits::GREATEST, &ORDERED),
    (Limits::GREATEST, &PRESSED),
    (Limits::GREATEST, &PRINTED),
    (SMALL, &LIMITED),
    (SMALL, &WAITING),
    (Limits { events: 9, ..SMALL }, &MADE),
];

/// A partition with these limits.
fn new_partition<R: Abort>(rt: &R, alloc: Global, limits: Limits) -> Result<Partition, AllocError> {
    let greatest = Limits::GREATEST;
    assert!(rt; limits.events <= greatest.events && limits.subs <= greatest.subs);
    assert!(rt; limits.rules <= greatest.rules && limits.rises <= greatest.rises);
    Partition::new(alloc, 4, limits)
}

#[test]
fn partitions_are_asked(rt: HostRuntime) -> Result<(), Fail> {
    for (case, (limits, calls)) in CASES.iter().enumerate() {
        let mut partition = new_partition(&rt, rt.alloc(), *limits)?;
        ask(&rt, rt.alloc(), &mut partition, case, calls)?;
    }
    Ok(())
}
