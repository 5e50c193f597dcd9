//! What is asked of a queue. The streams are of the namespace `o`, and the grains of the kind `g`.
use std::alloc::{AllocError, Global};
use std::process::Abort;
use step_core::{Op, Reply, Start};
use stream_ident::{Batch, Event, GrainId, Payload, Row, StreamId, SubName, Token};

/// The first token.
pub const FIRST: Token = Token { seq: 0, idx: 0 };

// The first subscription.
const SUB: SubName = SubName::Explicit(1);

/// What is asked. A grain and a stream are named by their keys.
#[derive(Clone, Copy)]
pub enum Call {
    /// Grains of the kind `g` shall consume the streams of the namespace `o`.
    Rule,
    /// A grain subscribes to a stream, from the next event on: the stream and the grain.
    Subscribe(u8, u8),
    /// An explicit subscription ends.
    Unsubscribe(u32),
    /// A batch of one event goes to the stream.
    Publish(u8),
    Pull,
    /// The next event goes to the first subscription.
    Deliver,
    /// The grain begins a turn of up to so many events.
    Begin(u8, u32),
    /// A turn of an activation of the grain ends, and leaves a note.
    Commit(u8, u64, u64, u64),
    /// The first subscription has handled all up to an event.
    Acknowledge(Token),
    /// The grain is taken out of memory.
    Deactivate(u8),
    /// The queue goes to a silo.
    Move(u8),
    /// Is all handled?
    Quiet,
}

fn stream(rt: &impl Abort, key: u8) -> StreamId {
    StreamId::new(b"o", &[key]).expect(rt, "a stream")
}

fn grain(rt: &impl Abort, key: u8) -> GrainId {
    GrainId::new(b"g", &[key]).expect(rt, "a grain")
}

fn payload(rt: &impl Abort) -> Payload {
    Payload::new(b"a").expect(rt, "a payload")
}

fn publish(rt: &impl Abort, alloc: Global, key: u8) -> Result<Op, AllocError> {
    let mut payloads = Vec::with_capacity(alloc, 1)?;
    payloads.push_reserved(payload(rt));
    Ok(Op::Publish {
        stream: stream(rt, key),
        payloads: Batch::of(payloads),
    })
}

fn subscribe(rt: &impl Abort, from: u8, to: u8) -> Op {
    Op::Subscribe {
        stream: stream(rt, from),
        grain: grain(rt, to),
        start: Start::Latest,
    }
}

fn add_rule(rt: &impl Abort) -> Op {
    Op::AddRule {
        kind: grain(rt, b'k').kind,
        namespace: stream(rt, b'k').namespace,
    }
}

/// The operation of a call.
pub fn operation(rt: &impl Abort, alloc: Global, call: Call) -> Result<Op, AllocError> {
    let generation = 0;
    Ok(match call {
        Call::Rule => add_rule(rt),
        Call::Subscribe(from, to) => subscribe(rt, from, to),
        Call::Unsubscribe(number) => Op::Unsubscribe {
            sub: SubName::Explicit(number),
        },
        Call::Publish(key) => return publish(rt, alloc, key),
        Call::Pull => Op::Pull {
            generation,
            max: 32,
        },
        Call::Deliver => Op::Deliver {
            generation,
            sub: SUB,
        },
        Call::Begin(key, max) => Op::Begin {
            grain: grain(rt, key),
            max,
        },
        Call::Commit(key, activation, turn, note) => Op::Commit {
            grain: grain(rt, key),
            activation,
            turn,
            note,
        },
        Call::Acknowledge(token) => Op::Ack {
            generation,
            sub: SUB,
            token,
        },
        Call::Deactivate(key) => Op::Deactivate {
            grain: grain(rt, key),
        },
        Call::Move(silo) => Op::Move { silo },
        Call::Quiet => Op::Quiet,
    })
}

/// What is told.
#[derive(Clone, Copy)]
pub enum Told {
    Subscribed(u32),
    /// The number of the batch.
    Published(u64),
    /// The first event was pulled.
    PulledFirst,
    /// The first event was delivered.
    DeliveredFirst,
    /// The first turn of the first activation has the first event, of the stream with this key.
    TurnOfFirst(u8),
    /// The first event was handled.
    CommittedFirst,
    /// How many events were handled.
    Unsubscribed(usize),
    Closed,
    RuleAdded(u64),
    /// How many events are lost.
    Deactivated(usize),
    /// The generation of a queue whose cache still has the first event.
    Moved(u64),
    IsQuiet,
}

// The first turn, which has the first event.
fn first_turn(rt: &impl Abort, key: u8) -> Reply {
    let event = Event {
        stream: stream(rt, key),
        token: FIRST,
        payload: payload(rt),
    };
    Reply::Turn {
        sub: SUB,
        activation: 1,
        turn: 1,
        events: Row::of(event),
        note: 0,
    }
}

/// The reply that tells it.
pub fn reply(rt: &impl Abort, told: Told) -> Reply {
    match told {
        Told::Subscribed(number) => Reply::Subscribed { number },
        Told::Published(seq) => Reply::Published { seq },
        Told::PulledFirst => Reply::Pulled {
            count: 1,
            low: FIRST,
            high: Token { seq: 1, idx: 0 },
        },
        Told::DeliveredFirst => Reply::Delivered { token: FIRST },
        Told::TurnOfFirst(key) => first_turn(rt, key),
        Told::CommittedFirst => Reply::Committed {
            sub: SUB,
            token: FIRST,
        },
        Told::Unsubscribed(handled) => Reply::Unsubscribed { handled },
        Told::Closed => Reply::Closed,
        Told::RuleAdded(from) => Reply::RuleAdded { from },
        Told::Deactivated(lost) => Reply::Deactivated { lost },
        Told::Moved(generation) => Reply::Moved {
            generation,
            low: FIRST,
        },
        Told::IsQuiet => Reply::IsQuiet,
    }
}
