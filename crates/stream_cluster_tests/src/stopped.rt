//! A parked cluster of two silos, one of which is stopped between any two of its calls, and what is left of it is used
//! again.
use crate::asking::Produced;
use crate::parked::{LOOPS, Parked, Went};
use crate::replayed::{Begun, replay};
use crate::running::{Calls, Ended, Places};
use activation_directory::{Directory, DirectoryOp, DirectoryReply};
use queue_mapper::place;
use script_runs::Answer as Answered;
use shared_partition::{DirectoryHistory, QueueHistory};
use silo_loops::{DirectoryLine, Doorbell};
use silo_threads::{Finished, Traces};
use std::alloc::{AllocError, Global};
use std::process::Abort;
use std::sync::Wait;
use step_core::{Op, Reply};
use stream_ident::{GrainId, MOST_PERMITS, StreamId, SubName, Token};
use stream_model::Start;

// How many calls the loops of the silo make at most before it is stopped, and those of the other one behind that.
const MOST: usize = 200;

const MOST_BEHIND: usize = 100_000;

const QUEUES: usize = 2;

// The key of the stream and of the grain of each queue, and the payloads of the events.
static KEYS: [&str; QUEUES] = ["0", "1"];

static TEXTS: [&str; 3] = ["a", "b", "c"];

// The key of a grain that subscribes late.
const LATE: &str = "late";

// The places of the silo that goes on, and of the one that is stopped.
const STAYS: usize = 0;

const GOES: usize = 1;

// The number of the silo that is stopped.
const GONE_SILO: u8 = 1;

const FIRST_TOKEN: Token = Token { seq: 0, idx: 0 };

fn key_of<R: Abort>(rt: &R, queue: usize) -> &'static str {
    assert!(rt; queue < QUEUES);
    KEYS[queue]
}

fn stream<R: Abort>(rt: &R, queue: usize) -> StreamId {
    StreamId::new(b"o", key_of(rt, queue).as_bytes()).expect(rt, "a stream")
}

fn grain<R: Abort>(rt: &R, key: &str) -> GrainId {
    GrainId::new(b"g", key.as_bytes()).expect(rt, "a grain")
}

// A cluster with a stream in each queue, to which a grain subscribes and three events are published.
fn begun<H: QueueHistory, D: DirectoryHistory, R: Wait + Abort>(
    rt: &R,
    alloc: Global,
) -> Parked<H, D> {
    let made = Parked::<H, D>::new(rt, alloc, QUEUES, 2, 1_000_000, 1_000);
    let mut parked = made.expect(rt, "memory");
    for (queue, key) in KEYS.iter().enumerate() {
        let key = key.as_bytes();
        assert!(rt; place(&stream(rt, queue), QUEUES).queue == queue);
        take(
            rt,
            alloc,
            &mut parked,
            queue,
            &Produced::Subscribe(key, key),
        );
        for text in &TEXTS {
            let texts = [text.as_bytes()];
            take(
                rt,
                alloc,
                &mut parked,
                queue,
                &Produced::Publish(key, &texts),
            );
        }
    }
    parked
}

fn take<H: QueueHistory, D: DirectoryHistory, R: Wait + Abort>(
    rt: &R,
    alloc: Global,
    parked: &mut Parked<H, D>,
    queue: usize,
    asked: &Produced,
) {
    let answer = parked.ask(rt, alloc, queue, asked).expect(rt, "memory");
    assert!(rt; answer == Answered::Taken);
}

// The loops of a silo take turns, and make so many calls in all.
fn take_turns<H: QueueHistory, D: DirectoryHistory, R: Wait + Abort>(
    rt: &R,
    alloc: Global,
    parked: &mut Parked<H, D>,
    at: usize,
    calls: usize,
) {
    for call in 0..calls {
        let _did = parked.advance(rt, alloc, at, LOOPS[call % 3]);
    }
}

// The loops of the silo that stays take turns until all queues are quiet.
fn settle<H: QueueHistory, D: DirectoryHistory, R: Wait + Abort>(
    rt: &R,
    alloc: Global,
    parked: &mut Parked<H, D>,
) {
    for call in 0..MOST_BEHIND {
        if call % 3 == 0 && parked.is_quiet(rt, alloc) {
            return;
        }
        let _did = parked.advance(rt, alloc, STAYS, LOOPS[call % 3]);
    }
    panic!(rt; "all is quiet at some time");
}

// A cluster of which one silo has made so many calls, and the other one none.
fn stopped<H: QueueHistory, D: DirectoryHistory, R: Wait + Abort>(
    rt: &R,
    alloc: Global,
    calls: usize,
) -> Parked<H, D> {
    let mut parked = begun::<H, D, R>(rt, alloc);
    take_turns(rt, alloc, &mut parked, GOES, calls);
    parked
}

// What a silo had when it was stopped: its queue, the generation of its agent there, the turns that it had begun, and
// whether the last of these runs.
#[derive(Drop)]
struct Left {
    queue: usize,
    generation: u64,
    turns: Vec<Begun>,
    runs: bool,
}

// What the silo had that was stopped in a cluster with these traces: that of the queue that was moved to it.
fn left_in<R: Abort>(rt: &R, alloc: Global, traces: &Traces<Calls>) -> Left {
    for (queue, history) in traces.histories.iter().enumerate() {
        let came_to = replay(rt, alloc, history.as_slice());
        if let Some((generation, _)) = came_to.moved {
            return Left {
                queue,
                generation,
                turns: came_to.turns,
                runs: came_to.runs,
            };
        }
    }
    panic!(rt; "a queue was moved");
}

// What the silo has after so many calls, by a cluster that ends there.
fn left_after<R: Wait + Abort>(rt: &R, alloc: Global, calls: usize) -> Left {
    let parked = stopped::<Calls, Places, R>(rt, alloc, calls);
    match &parked.finish(rt, alloc) {
        Ok(Finished::NotQuiet { traces, .. }) => left_in(rt, alloc, traces),
        _ => panic!(rt; "the other silo has done nothing"),
    }
}

// The silo is gone. Its agent and its workers call once more.
fn call_again<H: QueueHistory, D: DirectoryHistory, R: Wait + Abort>(
    rt: &R,
    alloc: Global,
    parked: &mut Parked<H, D>,
    left: &Left,
) {
    let deliver = Op::Deliver {
        generation: left.generation,
        sub: SubName::Explicit(1),
    };
    let answer = parked
        .call(rt, alloc, left.queue, deliver)
        .expect(rt, "an answer");
    assert!(rt; matches!(answer.outcome(), Reply::StaleAgent { now } if *now > left.generation));
    for begun in &left.turns {
        let commit = Op::Commit {
            grain: begun.grain,
            activation: begun.activation,
            turn: begun.turn,
            note: 0,
        };
        let answer = parked
            .call(rt, alloc, left.queue, commit)
            .expect(rt, "an answer");
        assert!(rt; matches!(answer.outcome(), Reply::Stale));
    }
}

// How a subscription to the first event is answered.
#[derive(Clone, Copy)]
enum Late {
    Subscribed,
    // below the low token of the cache
    Missed(Token),
}

fn subscribe_late<H: QueueHistory, D: DirectoryHistory, R: Wait + Abort>(
    rt: &R,
    alloc: Global,
    parked: &mut Parked<H, D>,
    queue: usize,
) -> Late {
    let subscribe = Op::Subscribe {
        stream: stream(rt, queue),
        grain: grain(rt, LATE),
        start: Start::At(FIRST_TOKEN),
    };
    let answer = parked
        .call(rt, alloc, queue, subscribe)
        .expect(rt, "an answer");
    match *answer.outcome() {
        Reply::Subscribed { .. } => Late::Subscribed,
        Reply::Miss { requested, low, .. } => {
            assert!(rt; requested == FIRST_TOKEN);
            Late::Missed(low)
        }
        _ => panic!(rt; "it is taken, or a miss"),
    }
}

// A silo is stopped after so many calls, and the other one does what is left to do.
fn stop<H: QueueHistory, D: DirectoryHistory, R: Wait + Abort>(
    rt: &R,
    alloc: Global,
    calls: usize,
    left: &Left,
) -> (Late, Ended<H>) {
    let mut parked = stopped::<H, D, R>(rt, alloc, calls);
    assert!(rt; parked.retire(rt, alloc, GOES) == Went::Down);
    call_again(rt, alloc, &mut parked, left);
    let late = subscribe_late(rt, alloc, &mut parked, left.queue);
    settle(rt, alloc, &mut parked);
    (late, parked.finish(rt, alloc))
}

// What is reported of a grain that has handled the three events of a queue.
fn write_sub(
    text: &mut String,
    queue: usize,
    number: usize,
    key: &str,
    grain: &str,
) -> Result<(), AllocError> {
    write!(text, "{queue}:{number} o/{key} g/{grain} 0.0 3\n")?;
    write!(text, "  0.0 \"a\"\n  1.0 \"b\"\n  2.0 \"c\"\n")?;
    Ok(())
}

// The report in which each event is handled once. A queue may have a late subscription.
fn report(alloc: Global, late: Option<usize>) -> Result<String, AllocError> {
    let mut text = "report\n".to_string(alloc)?;
    for (queue, key) in KEYS.iter().enumerate() {
        write_sub(&mut text, queue, 1, key, key)?;
        if late == Some(queue) {
            write_sub(&mut text, queue, 2, key, LATE)?;
        }
    }
    Ok(text)
}

// The low token with which the agent of a queue began that has it now.
fn low_at<R: Abort>(rt: &R, alloc: Global, traces: &Traces<Calls>, queue: usize) -> Token {
    let history = traces.histories.get(queue).expect(rt, "a history");
    let (_, low) = replay(rt, alloc, history.as_slice())
        .moved
        .expect(rt, "it was moved");
    low
}

// A late subscription was a miss exactly where it would begin below the low token, and else all of it is reported.
// Whether it was one.
fn was_missed<R: Abort>(
    rt: &R,
    alloc: Global,
    queue: usize,
    late: Late,
    ended: &Ended<Calls>,
) -> bool {
    let Ok(Finished::Report { text, traces }) = ended else {
        panic!(rt; "it reports");
    };
    let low = low_at(rt, alloc, traces, queue);
    let (missed, reported) = match late {
        Late::Missed(told) => (told == low, None),
        Late::Subscribed => (false, Some(queue)),
    };
    assert!(rt; missed == FIRST_TOKEN.is_before(&low));
    assert!(rt; text.as_slice() == report(alloc, reported).expect(rt, "memory").as_bytes());
    missed
}

// The permits that the silo was given: the number of the next one, and whether the last one is out.
#[derive(Clone, Copy)]
struct Permits {
    next: u64,
    is_out: bool,
}

// The permit that the silo is given for a grain, unless one is out.
fn entered<D: DirectoryHistory, R: Wait + Abort>(
    rt: &R,
    alloc: Global,
    directory: &mut DirectoryLine<D>,
    doorbell: &Doorbell,
    grain: &GrainId,
) -> Option<u64> {
    let enter = DirectoryOp::Enter {
        grain: *grain,
        silo: GONE_SILO,
    };
    match directory.call(rt, alloc, doorbell, enter) {
        Ok(DirectoryReply::Entered { permit }) => Some(permit),
        Ok(DirectoryReply::Busy) => None,
        _ => panic!(rt; "the grain is nowhere else"),
    }
}

// The permits that a directory has given the silo for a grain, by what it answers then.
fn permits_in<D: DirectoryHistory, R: Wait + Abort>(
    rt: &R,
    alloc: Global,
    directory: &mut DirectoryLine<D>,
    grain: &GrainId,
) -> Permits {
    let doorbell = Doorbell::new(alloc, 1, 0).expect(rt, "memory");
    if let Some(next) = entered(rt, alloc, directory, &doorbell, grain) {
        return Permits {
            next,
            is_out: false,
        };
    }
    let down = DirectoryOp::Down { silo: GONE_SILO };
    let released = directory.call(rt, alloc, &doorbell, down);
    assert!(rt; matches!(released, Ok(DirectoryReply::Released { .. })));
    let next = entered(rt, alloc, directory, &doorbell, grain);
    Permits {
        next: next.expect(rt, "none is out"),
        is_out: true,
    }
}

// The permits that the silo has after so many calls, by a cluster that ends there.
fn permits_after<H: QueueHistory, D: DirectoryHistory, R: Wait + Abort>(
    rt: &R,
    alloc: Global,
    calls: usize,
    grain: &GrainId,
) -> Permits {
    let parked = stopped::<H, D, R>(rt, alloc, calls);
    let mut directory = parked.into_directory(rt);
    permits_in(rt, alloc, &mut directory, grain)
}

// A permit for the grain is given, which is this one.
fn enter<R: Abort>(rt: &R, alloc: Global, twin: &mut Directory, grain: &GrainId, permit: u64) {
    let enter = DirectoryOp::Enter {
        grain: *grain,
        silo: GONE_SILO,
    };
    let given = twin.step(alloc, enter).expect(rt, "memory");
    assert!(rt; matches!(given, DirectoryReply::Entered { permit: given } if given == permit));
}

// Whether the permit was out; else it is nobody's.
fn leaves<R: Abort>(
    rt: &R,
    alloc: Global,
    twin: &mut Directory,
    grain: &GrainId,
    permit: u64,
) -> bool {
    let leave = DirectoryOp::Leave {
        grain: *grain,
        permit,
    };
    match twin.step(alloc, leave) {
        Ok(DirectoryReply::Left) => true,
        Ok(DirectoryReply::NotYours) => false,
        _ => panic!(rt; "a Leave has no other reply"),
    }
}

// Whether the silo had a grain, its last one, which is released.
fn releases<R: Abort>(rt: &R, alloc: Global, twin: &mut Directory) -> bool {
    match twin.step(alloc, DirectoryOp::Down { silo: GONE_SILO }) {
        Ok(DirectoryReply::Released { left: 0, .. }) => true,
        Ok(DirectoryReply::NoneLeft) => false,
        _ => panic!(rt; "it has one grain at most"),
    }
}

// The old permits are nobody's at a twin of the cluster's directory, from which the silo has gone.
fn leave_again<R: Abort>(rt: &R, alloc: Global, grain: &GrainId, permits: Permits) {
    let mut twin = Directory::new(alloc, MOST_PERMITS);
    for permit in 1..permits.next {
        enter(rt, alloc, &mut twin, grain, permit);
        let is_last = permit == permits.next - 1;
        assert!(rt; is_last && permits.is_out || leaves(rt, alloc, &mut twin, grain, permit));
    }
    assert!(rt; releases(rt, alloc, &mut twin) == (permits.next > 1));
    assert!(rt; !releases(rt, alloc, &mut twin));
    for permit in 1..permits.next {
        assert!(rt; !leaves(rt, alloc, &mut twin, grain, permit));
    }
}

// What is met where the silo is stopped: whether a turn ran, a late subscription was a miss, and a permit was given.
#[derive(Clone, Copy)]
struct Met {
    runs: bool,
    missed: bool,
    permits: bool,
}

// Stops the silo after so many calls.
fn stop_after<R: Wait + Abort>(rt: &R, alloc: Global, calls: usize) -> Met {
    let left = left_after(rt, alloc, calls);
    let (late, ended) = stop::<Calls, Places, R>(rt, alloc, calls, &left);
    let missed = was_missed(rt, alloc, left.queue, late, &ended);
    let grain = grain(rt, key_of(rt, left.queue));
    let permits = permits_after::<Calls, Places, R>(rt, alloc, calls, &grain);
    assert!(rt; !left.runs || permits.is_out);
    leave_again(rt, alloc, &grain, permits);
    Met {
        runs: left.runs,
        missed,
        permits: permits.next > 1,
    }
}

// Each of these was met after some number of calls, and the contrary after another.
#[test]
fn a_silo_stops_between_any_two_calls(rt: HostRuntime) {
    let mut ever = Met {
        runs: false,
        missed: false,
        permits: false,
    };
    let mut always = Met {
        runs: true,
        missed: true,
        permits: true,
    };
    for calls in 0..MOST + 1 {
        let met = stop_after(&rt, rt.alloc(), calls);
        ever.runs |= met.runs;
        ever.missed |= met.missed;
        ever.permits |= met.permits;
        always.runs &= met.runs;
        always.missed &= met.missed;
        always.permits &= met.permits;
    }
    assert!(rt; ever.runs && ever.missed && ever.permits);
    assert!(rt; !always.runs && !always.missed && !always.permits);
}
