//! Queues with a producer, an agent and a worker, by hand.
use crate::fresh::{caller_of, directory_line, line};
use crate::operations::{Call, operation};
use crate::passes::{alone, push};
use shared_partition::{DirectoryHistory, Gate, QueueHistory};
use silo_loops::{
    Advance, AgentLoop, Assigned, DirectoryLine, Doorbell, Line, TurnRoom, WorkerLoop,
};
use silo_threads::{Caller, QueueCaller};
use std::alloc::Global;
use std::process::Abort;
use std::sync::{Arc, Wait};
use step_core::Reply;

/// The key of the stream and of the grain.
pub const KEY: u8 = b'a';

/// A loop of a silo.
#[derive(Clone, Copy)]
pub enum Loop {
    Agent,
    Worker,
}

/// Queues with a producer, and the loops of a silo over them: an agent and a worker.
#[derive(Drop)]
pub struct Silo<G: Gate, H: QueueHistory, D: DirectoryHistory> {
    pub gate: Arc<G, Global>,
    pub doorbell: Arc<Doorbell, Global>,
    pub assigned: Arc<Assigned, Global>,
    pub producer: Caller<G, H>,
    pub agent: AgentLoop<G, H>,
    pub worker: WorkerLoop<G, H, D>,
}

// The first line of each of so many empty queues.
fn first_lines<G: Gate, H: QueueHistory, R: Abort>(
    rt: &R,
    alloc: Global,
    gate: &Arc<G, Global>,
    queues: usize,
    calls: u64,
) -> Vec<Line<G, H>> {
    let mut lines = Vec::new(alloc);
    for queue in 0..queues {
        let shared = Arc::try_clone(gate).expect(rt, "memory");
        let line = line(alloc, shared, queue, calls).expect(rt, "memory");
        push(rt, &mut lines, line);
    }
    lines
}

// A line that is split off each of these.
fn split_lines<G: Gate, H: QueueHistory, R: Abort>(
    rt: &R,
    alloc: Global,
    lines: &mut Vec<Line<G, H>>,
) -> Vec<Line<G, H>> {
    let mut others = Vec::new(alloc);
    for at in 0..lines.len() {
        let line = &mut lines[at];
        let other = line.split().expect(rt, "a pass");
        push(rt, &mut others, other);
    }
    others
}

fn callers_of<G: Gate, H: QueueHistory, R: Abort>(
    rt: &R,
    alloc: Global,
    lines: Vec<Line<G, H>>,
) -> Vec<QueueCaller<G, H>> {
    let mut callers = Vec::new(alloc);
    for line in lines {
        push(rt, &mut callers, caller_of(line));
    }
    callers
}

// So many queues, each of which the agent has.
fn all_assigned<R: Abort>(rt: &R, alloc: Global, queues: usize) -> Arc<Assigned, Global> {
    let assigned = Assigned::new(alloc, queues).expect(rt, "memory");
    for queue in 0..queues {
        assigned.assign(queue, 0);
    }
    Arc::new(alloc, assigned).expect(rt, "memory")
}

fn new_producer<G: Gate, H: QueueHistory, R: Abort>(
    rt: &R,
    alloc: Global,
    doorbell: &Arc<Doorbell, Global>,
    lines: Vec<Line<G, H>>,
) -> Caller<G, H> {
    let doorbell = Arc::try_clone(doorbell).expect(rt, "memory");
    let room = TurnRoom::new(alloc).expect(rt, "memory");
    Caller::new(doorbell, callers_of(rt, alloc, lines), room)
}

fn new_agent<G: Gate, H: QueueHistory, R: Abort>(
    rt: &R,
    alloc: Global,
    doorbell: &Arc<Doorbell, Global>,
    assigned: &Arc<Assigned, Global>,
    lines: Vec<Line<G, H>>,
    rounds: u64,
) -> AgentLoop<G, H> {
    let doorbell = Arc::try_clone(doorbell).expect(rt, "memory");
    let assigned = Arc::try_clone(assigned).expect(rt, "memory");
    match AgentLoop::new(alloc, 0, doorbell, assigned, lines, rounds) {
        Ok(agent) => agent,
        Err(_lines) => panic!(rt; "memory"),
    }
}

fn new_worker<G: Gate, H: QueueHistory, D: DirectoryHistory, R: Abort>(
    rt: &R,
    alloc: Global,
    gate: &Arc<G, Global>,
    doorbell: &Arc<Doorbell, Global>,
    lines: Vec<Line<G, H>>,
    directory: DirectoryLine<D>,
    rounds: u64,
) -> WorkerLoop<G, H, D> {
    assert!(rt; !lines.is_empty());
    let gate = Arc::try_clone(gate).expect(rt, "memory");
    let doorbell = Arc::try_clone(doorbell).expect(rt, "memory");
    let room = TurnRoom::new(alloc).expect(rt, "memory");
    WorkerLoop::new(0, gate, doorbell, lines, directory, room, rounds)
}

/// A worker, and another one beside it, with passes of its own.
pub fn two_workers<G: Gate, H: QueueHistory, D: DirectoryHistory, R: Abort>(
    rt: &R,
    alloc: Global,
    gate: &Arc<G, Global>,
    doorbell: &Arc<Doorbell, Global>,
    worker: WorkerLoop<G, H, D>,
) -> (WorkerLoop<G, H, D>, WorkerLoop<G, H, D>) {
    let rounds = worker.rounds();
    let (mut lines, mut directory) = worker.into_parts();
    let others = split_lines(rt, alloc, &mut lines);
    let other = directory.split().expect(rt, "a pass");
    (
        new_worker(rt, alloc, gate, doorbell, lines, directory, rounds),
        new_worker(rt, alloc, gate, doorbell, others, other, rounds),
    )
}

/// The reply to a producer at a queue.
pub fn ask<G: Gate, H: QueueHistory, R: Wait + Abort>(
    rt: &R,
    alloc: Global,
    producer: &mut Caller<G, H>,
    queue: usize,
    call: Call,
) -> Reply {
    assert!(rt; queue < producer.queues());
    let op = operation(rt, alloc, call).expect(rt, "memory");
    producer.call(rt, alloc, queue, op).expect(rt, "a reply")
}

/// Publishes so many events to a stream, each in a batch of its own.
pub fn publish<G: Gate, H: QueueHistory, R: Wait + Abort>(
    rt: &R,
    alloc: Global,
    producer: &mut Caller<G, H>,
    queue: usize,
    key: u8,
    count: u64,
) {
    for _ in 0..count {
        let reply = ask(rt, alloc, producer, queue, Call::Publish(key));
        assert!(rt; matches!(reply, Reply::Published { .. }));
    }
}

impl<G: Gate, H: QueueHistory, D: DirectoryHistory> Silo<G, H, D> {
    /// So many empty queues, each of which the agent has, whose histories may have so many calls each and whose loops
    /// may begin so many rounds each. The doorbell's count is about to wrap.
    pub fn new<R: Abort>(
        rt: &R,
        alloc: Global,
        gate: G,
        queues: usize,
        calls: u64,
        rounds: u64,
    ) -> Silo<G, H, D> {
        let gate = Arc::new(alloc, gate).expect(rt, "memory");
        let doorbell = Doorbell::new(alloc, queues, u64::MAX).expect(rt, "memory");
        let doorbell = Arc::new(alloc, doorbell).expect(rt, "memory");
        let assigned = all_assigned(rt, alloc, queues);
        let mut lines = first_lines(rt, alloc, &gate, queues, calls);
        let pulling = split_lines(rt, alloc, &mut lines);
        let working = split_lines(rt, alloc, &mut lines);
        let directory = directory_line(rt, alloc);
        let agent = new_agent(rt, alloc, &doorbell, &assigned, pulling, rounds);
        let worker = new_worker(rt, alloc, &gate, &doorbell, working, directory, rounds);
        let producer = new_producer(rt, alloc, &doorbell, lines);
        Silo {
            gate,
            doorbell,
            assigned,
            producer,
            agent,
            worker,
        }
    }

    /// How often the doorbell was rung.
    pub fn rung<R: Wait>(&self, rt: &R) -> u64 {
        self.doorbell.now(rt).wrapping_add(1)
    }

    /// The agent has the first queue from now on, under this generation, or has it no more.
    pub fn assign(&self, generation: Option<u64>) {
        match generation {
            Some(generation) => self.assigned.assign(0, generation),
            None => self.assigned.take_away(0),
        }
    }

    /// One step of a loop.
    pub fn advance<R: Wait>(&mut self, rt: &R, alloc: Global, which: Loop) -> Advance {
        match which {
            Loop::Agent => self.agent.advance(rt, alloc),
            Loop::Worker => self.worker.advance(rt, alloc),
        }
    }

    /// Steps of a loop, until it is idle.
    pub fn rest<R: Wait + Abort>(&mut self, rt: &R, alloc: Global, which: Loop) {
        for _ in 0..100_000 {
            if self.advance(rt, alloc, which) == Advance::Idle {
                return;
            }
        }
        panic!(rt; "a loop is idle at some time");
    }

    // Steps of each loop, until it is idle.
    fn rest_both<R: Wait + Abort>(&mut self, rt: &R, alloc: Global) {
        self.rest(rt, alloc, Loop::Agent);
        self.rest(rt, alloc, Loop::Worker);
    }

    /// Steps of both loops, until neither finds anything to do. Each ends the round in which it is first, since that may
    /// have passed a queue at which there is more by now.
    pub fn settle<R: Wait + Abort>(&mut self, rt: &R, alloc: Global) {
        self.rest_both(rt, alloc);
        for _ in 0..10_000 {
            let seen = self.rung(rt);
            self.rest_both(rt, alloc);
            if self.rung(rt) == seen {
                return;
            }
        }
        panic!(rt; "a silo settles at some time");
    }
}
