//! The cases: the calls that are tried.
use crate::calls::{Placing, try_balance, try_line, try_placing};
use crate::came::{Came, Stop};
use crate::clusters::parked::try_retire;
use crate::clusters::services::{Change, try_change};
use crate::partitions::{BLOCKS, STORY, try_drain, try_run, try_step};
use crate::simulation::try_sim;
use crate::turnstiles::{try_close, try_enter, try_new, try_split};
use streams::Host;

/// A call that is tried.
pub(crate) struct Case {
    /// Its name.
    pub(crate) name: &'static str,
    /// Whether it takes memory.
    pub(crate) takes_memory: bool,
    call: Call,
}

/// What is called.
#[derive(Clone, Copy)]
enum Call {
    /// The operation of a line, behind so many lines of the story, and how its reply begins.
    Step(usize, &'static str, &'static str),
    /// The operation of a line, behind two full blocks.
    Purge(&'static str, &'static str),
    Run,
    Drain,
    /// An operation on a directory, and how its reply reads.
    Placing(Placing, &'static str),
    Balance,
    Line,
    New,
    Split,
    /// A call behind so many others. The first one takes memory for the history and for the directory, and the fifth for the
    /// history. Where it is refused it is made again, or the turnstile is closed.
    Enter(usize, bool),
    Close,
    Sim,
    /// A call of a service, on a cluster in threads.
    Service(Change),
    /// The loops of a silo of a parked cluster are given back.
    Retire,
}

/// All cases.
pub(crate) static CASES: [Case; 38] = [
    Case {
        name: "publish",
        takes_memory: true,
        call: Call::Step(2, "pub o/k \"a\" \"b\"", "Published { seq: 0 }"),
    },
    Case {
        name: "subscribe",
        takes_memory: true,
        call: Call::Step(1, "sub o/k g/x from 0.0", "Subscribed { number: 1 }"),
    },
    Case {
        name: "unsubscribe",
        takes_memory: false,
        call: Call::Step(5, "unsub 0:1", "Unsubscribed { handled: 0 }"),
    },
    Case {
        name: "add_rule",
        takes_memory: true,
        call: Call::Step(0, "rule log o", "RuleAdded { from: 0 }"),
    },
    Case {
        name: "pull",
        takes_memory: true,
        call: Call::Step(
            3,
            "pull 0 0 32",
            "Pulled { count: 1, low: Token { seq: 0, idx: 0 }, high: Token { seq: 1, idx: 0 } }",
        ),
    },
    Case {
        name: "deliver",
        takes_memory: true,
        call: Call::Step(
            4,
            "deliver 0 0:1",
            "Delivered { token: Token { seq: 0, idx: 0 } }",
        ),
    },
    Case {
        name: "retry",
        takes_memory: false,
        call: Call::Step(5, "retry 0 0:1", "Rewound"),
    },
    Case {
        name: "ack",
        takes_memory: false,
        call: Call::Step(7, "ack 0 0:1 0.0", "Acked"),
    },
    Case {
        name: "purge",
        takes_memory: false,
        call: Call::Purge("purge 0 0 1", "Purged { low: Token { seq: 1, idx: 0 } }"),
    },
    Case {
        name: "begin",
        takes_memory: false,
        call: Call::Step(
            5,
            "begin 0 g/x",
            "Turn { sub: Explicit(1), activation: 1, turn: 1, ",
        ),
    },
    Case {
        name: "commit",
        takes_memory: true,
        call: Call::Step(
            6,
            "commit 0 g/x 1 1 1",
            "Committed { sub: Explicit(1), token: Token { seq: 0, idx: 0 } }",
        ),
    },
    Case {
        name: "deactivate",
        takes_memory: false,
        call: Call::Step(5, "deactivate 0 g/x", "Deactivated { lost: 1 }"),
    },
    Case {
        name: "move",
        takes_memory: false,
        call: Call::Step(
            7,
            "move 0 3",
            "Moved { generation: 1, low: Token { seq: 0, idx: 0 } }",
        ),
    },
    Case {
        name: "ready",
        takes_memory: false,
        call: Call::Step(5, "ready 0", "Next(GrainId { kind: g, key: x })"),
    },
    Case {
        name: "due",
        takes_memory: false,
        call: Call::Step(
            7,
            "due 0",
            "DueSub { sub: Explicit(1), ack: Some(Token { seq: 0, idx: 0 }) }",
        ),
    },
    Case {
        name: "quiet",
        takes_memory: false,
        call: Call::Step(
            7,
            "quiet",
            "NotQuiet(Deliverable(Implicit { kind: log, stream: StreamId { namespace: o, key: k } }))",
        ),
    },
    Case {
        name: "run",
        takes_memory: true,
        call: Call::Run,
    },
    Case {
        name: "drain",
        takes_memory: true,
        call: Call::Drain,
    },
    Case {
        name: "enter",
        takes_memory: true,
        call: Call::Placing(Placing::Enter, "Entered { permit: 1 }"),
    },
    Case {
        name: "leave",
        takes_memory: false,
        call: Call::Placing(Placing::Leave, "Left"),
    },
    Case {
        name: "unplace",
        takes_memory: false,
        call: Call::Placing(Placing::Unplace, "Unplaced"),
    },
    Case {
        name: "down",
        takes_memory: false,
        call: Call::Placing(
            Placing::Down,
            "Released { grain: GrainId { kind: g, key: a }, left: 2 }",
        ),
    },
    Case {
        name: "rebalance",
        takes_memory: true,
        call: Call::Balance,
    },
    Case {
        name: "parse_line",
        takes_memory: true,
        call: Call::Line,
    },
    Case {
        name: "new",
        takes_memory: true,
        call: Call::New,
    },
    Case {
        name: "split",
        takes_memory: false,
        call: Call::Split,
    },
    Case {
        name: "first_call",
        takes_memory: true,
        call: Call::Enter(0, true),
    },
    Case {
        name: "first_call_and_close",
        takes_memory: true,
        call: Call::Enter(0, false),
    },
    Case {
        name: "fifth_call",
        takes_memory: true,
        call: Call::Enter(4, true),
    },
    Case {
        name: "fifth_call_and_close",
        takes_memory: true,
        call: Call::Enter(4, false),
    },
    Case {
        name: "close",
        takes_memory: false,
        call: Call::Close,
    },
    Case {
        name: "sim",
        takes_memory: true,
        call: Call::Sim,
    },
    Case {
        name: "open_service",
        takes_memory: true,
        call: Call::Service(Change::Open),
    },
    Case {
        name: "silo_up",
        takes_memory: true,
        call: Call::Service(Change::Up),
    },
    Case {
        name: "silo_down",
        takes_memory: true,
        call: Call::Service(Change::Down),
    },
    Case {
        name: "producer",
        takes_memory: true,
        call: Call::Service(Change::Producer),
    },
    Case {
        name: "close_service",
        takes_memory: true,
        call: Call::Service(Change::Close),
    },
    Case {
        name: "retire",
        takes_memory: true,
        call: Call::Retire,
    },
];

/// Tries a call.
pub(crate) fn try_case<R: Host>(rt: R, case: &Case) -> Result<Came, Stop> {
    let alloc = rt.alloc();
    match case.call {
        Call::Step(front, line, reply) => {
            let before = STORY.get(..front).unwrap_or(&STORY);
            try_step(alloc, before, line, reply)
        }
        Call::Purge(line, reply) => try_step(alloc, &BLOCKS, line, reply),
        Call::Run => try_run(alloc),
        Call::Drain => try_drain(alloc),
        Call::Placing(what, reply) => try_placing(alloc, what, reply),
        Call::Balance => try_balance(alloc),
        Call::Line => try_line(alloc),
        Call::New => try_new(&rt, alloc),
        Call::Split => try_split(&rt, alloc),
        Call::Enter(calls, again) => try_enter(&rt, alloc, calls, again),
        Call::Close => try_close(&rt, alloc),
        Call::Sim => try_sim(alloc),
        Call::Service(change) => try_change(rt, change),
        Call::Retire => try_retire(&rt, alloc),
    }
}
