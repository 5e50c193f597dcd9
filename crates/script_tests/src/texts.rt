//! The texts of replies and of the ends of drains, each behind what stands there.
use crate::rows::assert_line;
use std::alloc::{AllocError, Global};
use std::process::Abort;
use std::test::Fail;
use stream_ident::{Event, GrainId, Payload, Row, StreamId, SubName, Token};
use stream_model::{DrainEnd, Events, Pending, Reply};
use stream_script::{drain_text, reply_text};

/// What is replied.
#[derive(Clone, Copy)]
enum Told {
    Published,
    BadBatch,
    Miss,
    Pressed,
    Turn,
    Due,
    DueNothing,
    Moved,
    Next,
    Deliverable,
}

static REPLIES: [(Told, &str); 10] = [
    (Told::Published, "published 7"),
    (Told::BadBatch, "bad-batch"),
    (Told::Miss, "miss 0.1 low 7.2 high 12.0"),
    (Told::Pressed, "pressed log@o/k"),
    (
        Told::Turn,
        r#"turn 4 sub 3 activation 2 event 7.2 "a\"b" event 12.0 "a\"b" note 5"#,
    ),
    (Told::Due, "due log@o/k ack 7.2"),
    (Told::DueNothing, "due 3 ack -"),
    (Told::Moved, "moved 1 low 7.2"),
    (Told::Next, "next g/x"),
    (Told::Deliverable, "deliverable 3"),
];

/// How a drain ends.
#[derive(Clone, Copy)]
enum Ending {
    Drained,
    Stuck,
    TooMany,
    Spent,
}

static ENDS: [(Ending, &str); 4] = [
    (Ending::Drained, "drained 12"),
    (Ending::Stuck, "stuck g/x"),
    (Ending::TooMany, "too-many"),
    (Ending::Spent, "spent"),
];

const EXPLICIT: SubName = SubName::Explicit(3);

const FIRST: Token = Token { seq: 0, idx: 1 };

const LOW: Token = Token { seq: 7, idx: 2 };

const HIGH: Token = Token { seq: 12, idx: 0 };

fn stream(rt: &impl Abort) -> StreamId {
    StreamId::new(b"o", b"k").expect(rt, "a stream")
}

fn grain(rt: &impl Abort) -> GrainId {
    GrainId::new(b"g", b"x").expect(rt, "a grain")
}

fn implicit(rt: &impl Abort) -> SubName {
    SubName::Implicit {
        kind: GrainId::new(b"log", b"x").expect(rt, "a grain").kind,
        stream: stream(rt),
    }
}

fn event(rt: &impl Abort, token: Token) -> Event {
    Event {
        stream: stream(rt),
        token,
        payload: Payload::new(b"a\"b").expect(rt, "a payload"),
    }
}

fn events(rt: &impl Abort) -> Events {
    let mut events = Row::of(event(rt, LOW));
    events.push(event(rt, HIGH));
    events
}

fn reply_of(rt: &impl Abort, told: Told) -> Reply {
    match told {
        Told::Published => Reply::Published { seq: 7 },
        Told::BadBatch => Reply::BadBatch,
        Told::Miss => Reply::Miss {
            requested: FIRST,
            low: LOW,
            high: HIGH,
        },
        Told::Pressed => Reply::Pressed { by: implicit(rt) },
        Told::Turn => Reply::Turn {
            sub: EXPLICIT,
            activation: 2,
            turn: 4,
            events: events(rt),
            note: 5,
        },
        Told::Due => Reply::DueSub {
            sub: implicit(rt),
            ack: Some(LOW),
        },
        Told::DueNothing => Reply::DueSub {
            sub: EXPLICIT,
            ack: None,
        },
        Told::Moved => Reply::Moved {
            generation: 1,
            low: LOW,
        },
        Told::Next => Reply::Next(grain(rt)),
        Told::Deliverable => Reply::NotQuiet(Pending::Deliverable(EXPLICIT)),
    }
}

fn end_of(rt: &impl Abort, ending: Ending) -> DrainEnd {
    match ending {
        Ending::Drained => DrainEnd::Drained { turns: 12 },
        Ending::Stuck => DrainEnd::Stuck { grain: grain(rt) },
        Ending::TooMany => DrainEnd::TooMany,
        Ending::Spent => DrainEnd::Spent,
    }
}

/// Whether a text is two bytes and this one.
fn is_behind(written: &[u8], text: &str) -> bool {
    written.starts_with(b"0 ")
        && written.ends_with(text.as_bytes())
        && written.len().checked_sub(text.len()) == Some(2)
}

/// Whether a reply reads so.
fn reads(alloc: Global, reply: &Reply, text: &str) -> Result<bool, AllocError> {
    let mut written = Vec::from_slice(alloc, b"0 ")?;
    reply_text(reply, &mut written)?;
    Ok(is_behind(&written, text))
}

/// Whether the end of a drain reads so.
fn ends(alloc: Global, end: &DrainEnd, text: &str) -> Result<bool, AllocError> {
    let mut written = Vec::from_slice(alloc, b"0 ")?;
    drain_text(end, &mut written)?;
    Ok(is_behind(&written, text))
}

#[test]
fn replies_are_written(rt: HostRuntime) -> Result<(), Fail> {
    for (told, text) in &REPLIES {
        let is_so = reads(rt.alloc(), &reply_of(&rt, *told), text)?;
        assert_line(&rt, text, is_so);
    }
    Ok(())
}

#[test]
fn ends_of_drains_are_written(rt: HostRuntime) -> Result<(), Fail> {
    for (end, text) in &ENDS {
        let is_so = ends(rt.alloc(), &end_of(&rt, *end), text)?;
        assert_line(&rt, text, is_so);
    }
    Ok(())
}
