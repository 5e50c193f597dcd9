//! A queue that is taken from its agent in the middle of a visit.
use crate::fresh::{Asked, History};
use crate::meetings::Meetings;
use crate::operations::Call;
use crate::silo::{Silo, ask};
use crate::visits::{Asks, Visits};
use shared_partition::{DirectoryHistory, Gate, QueueHistory};
use silo_loops::{Advance, AgentLoop, Assigned};
use silo_threads::Caller;
use std::alloc::Global;
use std::process::Abort;
use std::sync::Wait;
use std::sync::atomic::{AtomicBool, Ordering};
use std::thread::{Threads, join};
use stream_ident::{Event, SubName};

// The first call of each of two queues waits until another thread has answered. The turn of that queue is held meanwhile.
#[derive(Drop)]
struct Pausing {
    first: AtomicBool,
    second: AtomicBool,
    meetings: Meetings,
}

impl Pausing {
    fn new() -> Pausing {
        Pausing {
            first: AtomicBool::new(false),
            second: AtomicBool::new(false),
            meetings: Meetings::new(),
        }
    }
}

impl Gate for Pausing {
    fn inside(&self, queue: usize) {
        let was_called = if queue == 0 {
            &self.first
        } else {
            &self.second
        };
        if !was_called.swap(true, Ordering::SeqCst) {
            self.meetings.ask();
        }
    }

    fn handle(&self, _sub: &SubName, _event: &Event, note: u64) -> u64 {
        note
    }
}

impl<H: QueueHistory + Send> Visits for AgentLoop<Pausing, H> {
    fn does<R: Wait>(&mut self, rt: &R, alloc: Global) -> bool {
        self.visit(rt, alloc) == Advance::Did
    }
}

impl<H: QueueHistory + Send> Asks for Caller<Pausing, H> {
    fn ask_at<R: Wait + Abort>(&mut self, rt: &R, alloc: Global, queue: usize) {
        let _reply = ask(rt, alloc, self, queue, Call::Quiet);
    }
}

// One visit, whose loop is gone then.
fn visit_once<V: Visits, R: Wait>(rt: &R, alloc: Global, mut visits: V) -> bool {
    visits.does(rt, alloc)
}

// Takes the first queue away while the agent calls it. Then it calls that queue itself, while the agent calls the other one.
fn take_and_call<A: Asks, R: Wait + Abort>(
    rt: &R,
    alloc: Global,
    meetings: &Meetings,
    assigned: &Assigned,
    mut asks: A,
) -> bool {
    let has_come = meetings.comes_to(true);
    assigned.take_away(0);
    meetings.answer();
    let has_gone_on = meetings.comes_to(true);
    asks.ask_at(rt, alloc, 0);
    meetings.answer();
    has_come && has_gone_on
}

// Whether the agent comes to both queues in one visit while its first one is taken away.
fn take_beside<V: Visits, A: Asks, R: Threads + Wait + Abort + Sync>(
    rt: &R,
    alloc: Global,
    meetings: &Meetings,
    assigned: &Assigned,
    visits: V,
    asks: A,
) -> bool {
    let (did, came) = join(
        rt,
        || visit_once(rt, alloc, visits),
        || take_and_call(rt, alloc, meetings, assigned, asks),
    );
    did && came
}

// An agent has two queues, and keeps its turn at the first one. That is taken from it, so the visit goes on at the other
// queue. By then the turn at the first one is given up: another pass calls there before the agent's call at the other
// queue is over. An agent that kept that turn and waited for the other one could wait for another agent that does the
// same the other way round.
fn take_away<H: QueueHistory + Send, D: DirectoryHistory + Send, R: Threads + Wait + Abort + Sync>(
    rt: &R,
    alloc: Global,
) {
    let Silo {
        gate,
        doorbell: _,
        assigned,
        producer,
        agent,
        worker: _,
    } = Silo::<Pausing, H, D>::new(rt, alloc, Pausing::new(), 2, 1_000, 1_000);
    assert!(rt; take_beside(rt, alloc, &gate.meetings, &assigned, agent, producer));
    assert!(rt; !gate.meetings.has_missed() && gate.meetings.count() == 2);
}

#[test]
fn no_turn_is_kept_at_a_queue_that_is_taken_away(rt: HostRuntime) {
    take_away::<History, Asked, HostRuntime>(&rt, rt.alloc());
}
