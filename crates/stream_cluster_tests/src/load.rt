//! Silos that go and come while producers publish in threads.
ghost use Rattle.std.specs.Prelude.{◌≡◌};

use crate::producer::Producer;
use crate::running::{Ended, Running, Size, is_reported, start};
use crate::told::{Told, report_of, subscribe_all};
use activation_directory::{DirectoryOp, DirectoryReply};
use shared_partition::{Counting, DirectoryHistory, QueueHistory};
use std::alloc::Global;
use std::process::Abort;
use std::snapshot::Snapshot;
use std::sync::{Arc, Barrier, Wait};
use std::thread;
use std::thread::{Promise, PromisedHandle, Threads};
use step_core::{Answer, Op};
use turnstile::ProofHistory;

// How many clusters there are, one after another.
const CLUSTERS: usize = 2;

// How often the silos of a cluster go and come.
const ROUNDS: usize = 2;

// How often a silo goes or comes in a round: all but one go, and come again.
const CHANGES: usize = 14;

// How many events each of four producers publishes beside that, in a round.
const EVENTS: usize = 16;

// How many events they publish.
const ROOM: usize = 4 * ROUNDS * EVENTS;

const QUEUES: usize = 16;

static SIZE: Size = Size {
    queues: QUEUES,
    silos: 8,
    history: 1_000_000_000,
    room: ROOM,
};

type Publisher<H> = Producer<Counting, H>;

type Silos<H, D> = Running<Counting, H, D>;

// In each round all silos but one go, and come again. The one that stays is another one in each round.
fn change_silos<
    H: QueueHistory + Send + 'static,
    D: DirectoryHistory + Send + 'static,
    R: Threads + Wait + Abort + Copy + Send + 'static,
>(rt: &R, alloc: Global, rounds: &Barrier, running: &mut Silos<H, D>, from: usize)
    ensures { running.new ≡ running.old }
{
    for at in 0..ROUNDS * CHANGES {
        let change = at % CHANGES;
        if change == 0 {
            let _ = rounds.wait(rt);
        }
        let silo = from.wrapping_add(at / CHANGES).wrapping_add(change % 7) % 8;
        let changed = running.change(rt, alloc, silo as u8, change >= 7);
        assert!(rt; changed.expect(rt, "memory"));
    }
}

// Publishes in each round, beside the silos that change.
fn publish<H: QueueHistory, R: Wait + Abort>(
    rt: &R,
    alloc: Global,
    rounds: &Barrier,
    producer: Publisher<H>,
    number: usize,
) -> Publisher<H>
    ensures { result ≡ producer }
{
    let mut producer = producer;
    for at in 0..ROUNDS * EVENTS {
        if at % EVENTS == 0 {
            let _ = rounds.wait(rt);
        }
        let queue = number.wrapping_mul(4).wrapping_add(at.wrapping_mul(5)) % QUEUES;
        let payload = number.wrapping_mul(1_000_000).wrapping_add(at) as u64;
        let published = producer.publish(rt, alloc, queue, payload);
        published.expect(rt, "memory");
    }
    producer
}

// The producer that comes back has its passes at the turnstiles of the one that was sent.
#[derive(Drop)]
struct Beside<H: QueueHistory>(Snapshot<Publisher<H>>);

impl<H: QueueHistory> Promise<Publisher<H>> for Beside<H> {
    ghost kept_by = { λ p producer. producer ≡ p.0.value };
}

type Publishing<H> = PromisedHandle<Publisher<H>, Beside<H>>;

// A producer beside another one publishes in a thread.
fn spawn<H: QueueHistory + Send + 'static, R: Threads + Wait + Abort + Copy + Send + 'static>(
    rt: &R,
    alloc: Global,
    rounds: &Arc<Barrier, Global>,
    producer: &mut Publisher<H>,
    number: usize,
) -> Publishing<H>
    ensures same { producer.new ≡ producer.old }
    ensures beside { result.promise.0.value ≡ producer.old }
{
    let other = producer.split(alloc, ROOM).expect(rt, "memory");
    let rounds = Arc::try_clone(rounds).expect(rt, "it is shared a few times");
    let own = *rt;
    let promise = Beside(Snapshot::of(&other));
    let publishes = move || publish(&own, alloc, &rounds, other, number);
    match thread::spawn_with(rt, promise, publishes) {
        Ok(thread) => thread,
        Err(_) => panic!(rt; "a thread"),
    }
}

// The silos change beside four producers in threads, which are taken in when they come back.
fn publish_beside<
    H: QueueHistory + Send + 'static,
    D: DirectoryHistory + Send + 'static,
    R: Threads + Wait + Abort + Copy + Send + 'static,
>(rt: &R, alloc: Global, running: &mut Silos<H, D>, producer: &mut Publisher<H>, from: usize)
    ensures running { running.new ≡ running.old }
    ensures producer { producer.new ≡ producer.old }
{
    let rounds = Arc::new(alloc, Barrier::new(5)).expect(rt, "memory");
    let first = spawn(rt, alloc, &rounds, producer, 0);
    let second = spawn(rt, alloc, &rounds, producer, 1);
    let third = spawn(rt, alloc, &rounds, producer, 2);
    let fourth = spawn(rt, alloc, &rounds, producer, 3);
    change_silos(rt, alloc, &rounds, running, from);
    producer.join(rt, first.join(rt));
    producer.join(rt, second.join(rt));
    producer.join(rt, third.join(rt));
    producer.join(rt, fourth.join(rt));
}

// Whether all events that were told of are reported of each subscription, in their order.
fn is_whole<H, R: Abort>(rt: &R, alloc: Global, ended: &Ended<H>, told: &[Told]) -> bool {
    let wanted = report_of(alloc, told, QUEUES).expect(rt, "memory");
    match wanted {
        Some(wanted) => told.len() == ROOM && is_reported(ended, wanted.as_bytes()),
        None => false,
    }
}

// One cluster, from its start to its report. At each queue two grains subscribe.
fn run<
    H: QueueHistory + Send + 'static,
    D: DirectoryHistory + Send + 'static,
    R: Threads + Wait + Abort + Copy + Send + 'static,
>(rt: &R, alloc: Global, gate: Arc<Counting, Global>, from: usize) -> bool {
    let started = start::<Counting, H, D, R>(rt, alloc, &SIZE, gate);
    let (mut running, mut producer) = started.expect(rt, "memory");
    assert!(rt; !subscribe_all(rt, alloc, &mut producer, QUEUES));
    publish_beside(rt, alloc, &mut running, &mut producer, from);
    assert!(rt; producer.is_quiet(rt, alloc));
    let (ended, told) = running.finish(rt, alloc, producer);
    is_whole(rt, alloc, &ended, &told)
}

// Eight silos go and come under four producers in threads, in one cluster after another. In the first round they go
// from one silo on, which is another one in each cluster, and the one before it stays. Nothing that the producers were
// told was published is lost, and nothing is left of a cluster.
fn run_each<
    H: QueueHistory + Send + 'static,
    D: DirectoryHistory + Send + 'static,
    R: Threads + Wait + Abort + Copy + Send + 'static,
>(rt: &R, alloc: Global) {
    let gate = Arc::new(alloc, Counting).expect(rt, "memory");
    for cluster in 0..CLUSTERS {
        let shared = Arc::try_clone(&gate).expect(rt, "it is shared a few times");
        let is_whole = run::<H, D, R>(rt, alloc, shared, cluster.wrapping_mul(3));
        assert!(rt; is_whole && Arc::strong_count(&gate) == 1);
    }
}

#[test]
fn silos_go_and_come(rt: HostRuntime) {
    run_each::<ProofHistory<Op, Answer>, ProofHistory<DirectoryOp, DirectoryReply>, HostRuntime>(
        &rt,
        rt.alloc(),
    );
}
