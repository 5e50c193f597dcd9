//! The loops of a silo over one queue, step by step.
use crate::fresh::{Asked, History};
use crate::gate::Recorder;
use crate::operations::{Call, Told, reply};
use crate::rows::assert_row;
use crate::silo::{KEY, Loop, Silo, ask, publish};
use shared_partition::{DirectoryHistory, QueueHistory};
use silo_loops::{Advance, Over};
use std::alloc::Global;
use std::process::Abort;
use std::sync::Wait;

// What the gate was told: events, commits, and how much of it was out of order.
type Work = (u64, u64, u64);

// What is done, and what is seen then.
#[derive(Clone, Copy)]
enum Step {
    // An operation of a producer, and its reply.
    Ask(Call, Told),
    // So many events are published, each in a batch of its own.
    Publish(u64),
    // The agent is told under which generation it has the queue, or that it hasn't the queue.
    Assign(Option<u64>),
    // A loop goes on until it is idle.
    Rest(Loop),
    // Both loops go on until neither finds anything to do.
    Settle,
    // The calls of the partition are counted from here on.
    Count,
    // The worker takes a step. So many calls were made by then, and the gate was told so much.
    Did(u64, Work),
    // A loop finds nothing to do.
    Idle(Loop),
    // The gate was told so much.
    Works(Work),
    // So many events were handled, with nothing out of order.
    Handled(u64),
    // A loop goes on until it ends so. It tells the doorbell, and rings.
    Ends(Loop, Over),
}

// Whether a loop ends so.
fn ends<H: QueueHistory, D: DirectoryHistory, R: Wait + Abort>(
    rt: &R,
    alloc: Global,
    silo: &mut Silo<Recorder, H, D>,
    which: Loop,
    over: Over,
) -> bool {
    for _ in 0..100 {
        let rung = silo.rung(rt);
        if let Advance::Over(end) = silo.advance(rt, alloc, which) {
            return end == over && silo.doorbell.has_ended() && silo.rung(rt) != rung;
        }
    }
    false
}

// Takes a step, and tells whether what is seen then is as it should be. The calls are counted from a number on.
fn is_met<H: QueueHistory, D: DirectoryHistory, R: Wait + Abort>(
    rt: &R,
    alloc: Global,
    silo: &mut Silo<Recorder, H, D>,
    since: &mut u64,
    step: &Step,
) -> bool {
    match step {
        Step::Ask(call, told) => {
            let replied = ask(rt, alloc, &mut silo.producer, 0, *call);
            return replied == reply(rt, *told);
        }
        Step::Publish(events) => publish(rt, alloc, &mut silo.producer, 0, KEY, *events),
        Step::Assign(generation) => silo.assign(*generation),
        Step::Rest(which) => silo.rest(rt, alloc, *which),
        Step::Settle => silo.settle(rt, alloc),
        Step::Count => *since = silo.gate.calls(),
        Step::Did(calls, work) => {
            let is_so = silo.advance(rt, alloc, Loop::Worker) == Advance::Did;
            let made = silo.gate.calls().wrapping_sub(*since);
            return is_so && made == *calls && silo.gate.work() == *work;
        }
        Step::Idle(which) => return silo.advance(rt, alloc, *which) == Advance::Idle,
        Step::Works(work) => return silo.gate.work() == *work,
        Step::Handled(events) => {
            let (handled, _, astray) = silo.gate.work();
            return handled == *events && astray == 0;
        }
        Step::Ends(which, over) => return ends(rt, alloc, silo, *which, *over),
    }
    true
}

// Plays a case.
fn play<H: QueueHistory, D: DirectoryHistory, R: Wait + Abort>(
    rt: &R,
    alloc: Global,
    case: usize,
    calls: u64,
    rounds: u64,
    steps: &[Step],
) {
    let mut silo = Silo::<Recorder, H, D>::new(rt, alloc, Recorder::new(), 1, calls, rounds);
    let mut since = 0;
    for (row, step) in steps.iter().enumerate() {
        assert_row(
            rt,
            case,
            row,
            is_met(rt, alloc, &mut silo, &mut since, step),
        );
    }
}

// The first step of most cases.
const BEGIN: Step = Step::Ask(Call::Subscribe(KEY, KEY), Told::Subscribed(1));

// All is pulled, delivered and handled.
const QUIET: Step = Step::Ask(Call::Quiet, Told::IsQuiet);

// What stands after each step of a worker for three events: each step is one call, one event or one commit that is
// told. The calls are Ready, Enter (which isn't a call of the partition), Begin, Commit, Ready with the permit in hand,
// Leave, and Ready twice, since the round changed something.
const TURN: [Step; 20] = [
    BEGIN,
    Step::Publish(3),
    Step::Rest(Loop::Agent),
    Step::Count,
    Step::Did(1, (0, 0, 0)),
    Step::Did(1, (0, 0, 0)),
    Step::Did(2, (0, 0, 0)),
    Step::Did(2, (1, 0, 0)),
    Step::Did(2, (2, 0, 0)),
    Step::Did(2, (3, 0, 0)),
    Step::Did(3, (3, 0, 0)),
    Step::Did(3, (3, 1, 0)),
    Step::Did(4, (3, 1, 0)),
    Step::Did(4, (3, 1, 0)),
    Step::Did(5, (3, 1, 0)),
    Step::Did(6, (3, 1, 0)),
    Step::Idle(Loop::Worker),
    Step::Settle,
    Step::Handled(3),
    QUIET,
];

// A worker has handled two events of a turn when its grain is taken out of memory. Its commit is refused, so the
// gate isn't told of one, and the events come again from the first, under the note of the last commit.
const LOST: [Step; 17] = [
    BEGIN,
    Step::Publish(3),
    Step::Rest(Loop::Agent),
    Step::Count,
    Step::Did(1, (0, 0, 0)),
    Step::Did(1, (0, 0, 0)),
    Step::Did(2, (0, 0, 0)),
    Step::Did(2, (1, 0, 0)),
    Step::Did(2, (2, 0, 0)),
    Step::Ask(Call::Deactivate(KEY), Told::Deactivated(3)),
    Step::Did(3, (3, 0, 0)),
    Step::Did(4, (3, 0, 0)),
    Step::Did(4, (3, 0, 0)),
    Step::Did(5, (3, 0, 0)),
    Step::Did(6, (3, 0, 0)),
    Step::Settle,
    Step::Works((6, 1, 1)),
];

// Each operation of a producer. The subscription, the rule and a later subscription each have the events from the
// next one on, until they end.
const PRODUCED: [Step; 25] = [
    BEGIN,
    Step::Settle,
    Step::Handled(0),
    QUIET,
    Step::Publish(40),
    Step::Settle,
    Step::Handled(40),
    QUIET,
    Step::Ask(Call::Rule, Told::RuleAdded(40)),
    Step::Publish(100),
    Step::Settle,
    Step::Handled(240),
    QUIET,
    Step::Ask(Call::Unsubscribe(1), Told::Unsubscribed(140)),
    Step::Publish(30),
    Step::Settle,
    Step::Handled(270),
    Step::Ask(Call::Subscribe(KEY, KEY), Told::Subscribed(2)),
    Step::Publish(300),
    Step::Settle,
    Step::Handled(870),
    Step::Ask(Call::Unsubscribe(1), Told::Closed),
    Step::Settle,
    Step::Handled(870),
    QUIET,
];

// A mailbox has sixteen places, so an agent is idle with the rest in the cache until a worker has run.
const FULL: [Step; 9] = [
    BEGIN,
    Step::Publish(20),
    Step::Rest(Loop::Agent),
    Step::Rest(Loop::Agent),
    Step::Rest(Loop::Worker),
    Step::Works((16, 1, 0)),
    Step::Settle,
    Step::Handled(20),
    QUIET,
];

// A Move makes the agent's generation stale: it passes the queue over until it is told the new one, and when it is
// told that it hasn't the queue.
const STALE: [Step; 18] = [
    BEGIN,
    Step::Ask(Call::Move(0), Told::Moved(1)),
    Step::Publish(5),
    Step::Settle,
    Step::Handled(0),
    Step::Assign(Some(1)),
    Step::Publish(5),
    Step::Settle,
    Step::Handled(10),
    Step::Assign(None),
    Step::Publish(5),
    Step::Settle,
    Step::Handled(10),
    Step::Assign(Some(1)),
    Step::Publish(5),
    Step::Settle,
    Step::Handled(20),
    QUIET,
];

// An agent makes so many rounds at most as it may, here three that find nothing to do.
const ROUNDS: [Step; 4] = [
    Step::Rest(Loop::Agent),
    Step::Rest(Loop::Agent),
    Step::Rest(Loop::Agent),
    Step::Ends(Loop::Agent, Over::Rounds),
];

// An agent that holds no queue is idle and uses up no round: here it still has its only one then. It is idle also where
// no round is left.
const WITHOUT_A_QUEUE: [Step; 10] = [
    Step::Assign(None),
    Step::Idle(Loop::Agent),
    Step::Idle(Loop::Agent),
    Step::Assign(Some(0)),
    Step::Rest(Loop::Agent),
    Step::Assign(None),
    Step::Idle(Loop::Agent),
    Step::Idle(Loop::Agent),
    Step::Assign(Some(0)),
    Step::Ends(Loop::Agent, Over::Rounds),
];

// A history that has as many calls as it may have ends each loop.
const LIMIT: [Step; 2] = [
    Step::Ends(Loop::Agent, Over::Limit),
    Step::Ends(Loop::Worker, Over::Limit),
];

// More calls and rounds than a case makes.
const MANY: u64 = 1_000_000;

// How many calls the history may have, how many rounds each loop may begin, and what is done.
static CASES: [(u64, u64, &[Step]); 8] = [
    (MANY, MANY, &TURN),
    (MANY, MANY, &LOST),
    (MANY, MANY, &PRODUCED),
    (MANY, MANY, &FULL),
    (MANY, MANY, &STALE),
    (MANY, 3, &ROUNDS),
    (MANY, 1, &WITHOUT_A_QUEUE),
    (10, MANY, &LIMIT),
];

#[test]
fn steps_by_hand(rt: HostRuntime) {
    for (case, (calls, rounds, steps)) in CASES.iter().enumerate() {
        play::<History, Asked, HostRuntime>(&rt, rt.alloc(), case, *calls, *rounds, steps);
    }
}
