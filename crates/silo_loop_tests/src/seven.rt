//! Seven streams at two queues, each of which a grain consumes.
use crate::operations::Call;
use crate::silo::{Silo, ask, publish};
use crate::tally::Tally;
use shared_partition::{DirectoryHistory, QueueHistory};
use silo_threads::Caller;
use std::alloc::Global;
use std::process::Abort;
use std::sync::Wait;
use step_core::Reply;

/// How many queues there are.
pub const QUEUES: usize = 2;

/// The key of each stream, and its queue.
static STREAMS: [(u8, usize); 7] = [
    (b'a', 0),
    (b'b', 1),
    (b'c', 0),
    (b'd', 1),
    (b'e', 0),
    (b'f', 1),
    (b'g', 0),
];

/// Publishes so many events to each stream, in turn.
pub fn publish_each<H: QueueHistory, R: Wait + Abort>(
    rt: &R,
    alloc: Global,
    producer: &mut Caller<Tally, H>,
    count: u64,
) {
    for _ in 0..count {
        for (key, queue) in &STREAMS {
            publish(rt, alloc, producer, *queue, *key, 1);
        }
    }
}

/// Whether each queue is quiet.
pub fn are_quiet<H: QueueHistory, R: Wait + Abort>(
    rt: &R,
    alloc: Global,
    producer: &mut Caller<Tally, H>,
) -> bool {
    let mut quiet = true;
    for queue in 0..QUEUES {
        let reply = ask(rt, alloc, producer, queue, Call::Quiet);
        quiet &= matches!(reply, Reply::IsQuiet);
    }
    quiet
}

/// A silo over the queues, before its loops have done anything. So many events were published to each stream.
pub fn begun<H: QueueHistory, D: DirectoryHistory, R: Wait + Abort>(
    rt: &R,
    alloc: Global,
    gate: Tally,
    count: u64,
) -> Silo<Tally, H, D> {
    let mut silo = Silo::<Tally, H, D>::new(rt, alloc, gate, QUEUES, 1_000_000, 1_000_000);
    for queue in 0..QUEUES {
        let reply = ask(rt, alloc, &mut silo.producer, queue, Call::Rule);
        assert!(rt; matches!(reply, Reply::RuleAdded { .. }));
    }
    publish_each(rt, alloc, &mut silo.producer, count);
    silo
}
