//! The ends of parked clusters.
use crate::asking::{Produced, holds, production};
use crate::parked::{Astray, Parked, Went};
use crate::running::{Calls, End, Ended, Places, is_so};
use crate::story::{QUEUES, REPORT, begin, tell_the_rest};
use script_runs::Answer as Answered;
use shared_partition::{DirectoryHistory, QueueHistory};
use silo_threads::{Finished, SiloUp};
use std::alloc::Global;
use std::process::Abort;
use std::sync::Wait;
use std::thread::Threads;
use step_core::{Answer, Limits, Op, Partition, Reply};
use turnstile::Refusal;

static WENT: [Went; 3] = [Went::Down, Went::Down, Went::LastSilo];

// Silos are retired one after another, up to the last, whose loops are handed out again.
fn retire_all<H: QueueHistory, D: DirectoryHistory, R: Wait + Abort>(rt: &R, alloc: Global) {
    let mut parked = Parked::<H, D>::new(rt, alloc, QUEUES, 3, 1_000_000, 1_000).expect(
        rt, "memory",
    );
    begin(rt, alloc, &mut parked);
    for wanted in &WENT {
        assert!(rt; parked.retire(rt, alloc, 0) == *wanted);
    }
    let ended = tell_the_rest(rt, alloc, parked);
    assert!(rt; is_so(&ended, End::Report(REPORT)));
}

// What becomes of the loops of a silo that aren't given back, and how the cluster ends.
static ASTRAY: [(usize, Astray, End); 2] = [
    // They are neither given back nor dropped.
    (0, Astray::Kept, End::InUse),
    // They were dropped, and the three passes of each queue that they had are missing.
    (1, Astray::Dropped, End::Missing(3)),
];

fn go_astray<H: QueueHistory, D: DirectoryHistory, R: Wait + Abort>(rt: &R, alloc: Global) {
    for (at, astray, end) in &ASTRAY {
        let parked = Parked::<H, D>::new(rt, alloc, QUEUES, 2, 1_000_000, 1_000).expect(
            rt, "memory",
        );
        let ended = parked.finish_without(rt, alloc, *at, *astray);
        assert!(rt; is_so(&ended, *end), "the silo at {at}");
    }
}

// How often a batch of no event is published to each queue.
const CALLS: usize = 20;

// How many calls a history has at most, how often a queue moves, how a producer is answered in the end, and how the
// cluster ends.
static LIMITED: [(u64, u64, Answered, End); 2] = [
    (
        CALLS as u64,
        1_000,
        Answered::Limit,
        End::Full(CALLS, QUEUES),
    ),
    (1_000, 1, Answered::Refused, End::Report(b"report\n")),
];

// A queue can't leave its silo, as its history is full or it has moved as often as it may. The silos don't change any
// more then.
fn stay<H: QueueHistory, D: DirectoryHistory, R: Wait + Abort>(rt: &R, alloc: Global) {
    for (row, (history, rises, wanted, end)) in LIMITED.iter().enumerate() {
        let mut parked = Parked::<H, D>::new(rt, alloc, QUEUES, 2, *history, *rises).expect(
            rt, "memory",
        );
        for call in 0..QUEUES * CALLS {
            let asked = Produced::Publish(b"x", &[]);
            let _ = parked.ask(rt, alloc, call % QUEUES, &asked);
        }
        let answer = parked.ask(rt, alloc, 1, &Produced::Publish(b"x", &[]));
        holds(
            rt,
            matches!(answer, Ok(answer) if answer == *wanted),
            0,
            row,
        );
        holds(rt, parked.retire(rt, alloc, 1) == Went::Limit, 1, row);
        holds(rt, parked.retire(rt, alloc, 0) == Went::Halted, 2, row);
        holds(rt, is_so(&parked.finish(rt, alloc), *end), 3, row);
    }
}

// The batches that a history of two calls has room for.
static TEXTS: [&str; 2] = ["a", "b"];

fn publish<H: QueueHistory, D: DirectoryHistory, R: Wait + Abort>(
    rt: &R,
    alloc: Global,
    parked: &mut Parked<H, D>,
    text: &str,
) -> Result<Answer, Refusal> {
    let texts = [text.as_bytes()];
    let op = production(rt, alloc, &Produced::Publish(b"x", &texts)).expect(rt, "memory");
    parked.call(rt, alloc, 0, op)
}

// Whether the answer says that the batch has this number.
fn is_published(answer: &Answer, number: usize) -> bool {
    matches!(answer.outcome(), Reply::Published { seq } if *seq == number as u64)
}

// One queue whose history is full after two calls. Its only silo stays then, and no other one comes.
fn fill<
    H: QueueHistory + Send + 'static,
    D: DirectoryHistory + Send + 'static,
    R: Threads + Wait + Abort + Copy + Send + 'static,
>(rt: &R, alloc: Global) -> Ended<H> {
    let mut parked = Parked::<H, D>::new(rt, alloc, 1, 1, 2, 1_000).expect(rt, "memory");
    for (number, text) in TEXTS.iter().enumerate() {
        let answer = publish(rt, alloc, &mut parked, text).expect(rt, "an answer");
        assert!(rt; is_published(&answer, number));
    }
    let refused = publish(rt, alloc, &mut parked, "c");
    assert!(rt; matches!(refused, Err(Refusal::HistoryFull)));
    assert!(rt; matches!(parked.up(rt, alloc, 1), Ok(SiloUp::Halted)));
    assert!(rt; parked.retire(rt, alloc, 0) == Went::LastSilo);
    parked.finish(rt, alloc)
}

// Whether it is the publish of a batch with this payload alone.
fn publishes(op: &Op, text: &str) -> bool {
    match op {
        Op::Publish { payloads, .. } => match payloads.as_slice() {
            [payload] => payload.as_bytes() == text.as_bytes(),
            _ => false,
        },
        _ => false,
    }
}

// A full history has those two calls, and by them the replies that were given.
fn is_filled<R: Abort>(rt: &R, alloc: Global, ended: &Ended<Calls>) {
    let Ok(Finished::Limit { traces }) = ended else {
        panic!(rt; "a history is full");
    };
    let calls = traces.histories.first().expect(rt, "a history").as_slice();
    assert!(rt; traces.histories.len() == 1 && calls.len() == TEXTS.len());
    let mut partition = Partition::new(alloc, 1, Limits::GREATEST).expect(rt, "memory");
    for (number, call) in calls.iter().enumerate() {
        let answer = partition.answer(alloc, &call.op, &mut Vec::new(alloc));
        assert!(rt; number < TEXTS.len() && publishes(&call.op, TEXTS[number]));
        assert!(rt; is_published(&answer.expect(rt, "memory"), number));
    }
}

#[test]
fn a_history_is_full(rt: HostRuntime) {
    is_filled(
        &rt,
        rt.alloc(),
        &fill::<Calls, Places, HostRuntime>(&rt, rt.alloc()),
    );
}

#[test]
fn parked_clusters_end(rt: HostRuntime) {
    retire_all::<Calls, Places, HostRuntime>(&rt, rt.alloc());
    go_astray::<Calls, Places, HostRuntime>(&rt, rt.alloc());
    stay::<Calls, Places, HostRuntime>(&rt, rt.alloc());
}
