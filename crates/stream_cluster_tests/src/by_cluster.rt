//! A cluster that makes the calls of its callers.
use crate::asking::{Produced, production};
use crate::running::{Calls, Places};
use shared_partition::{Counting, DirectoryHistory, QueueHistory};
use silo_threads::{Cluster, Config, Finished};
use std::alloc::Global;
use std::process::Abort;
use std::sync::{Arc, Wait};
use std::thread::Threads;
use step_core::Reply;

// A caller that the cluster splits off publishes by the cluster. Then both callers are lost, and missing at the end.
fn call_by_cluster<
    H: QueueHistory + Send + 'static,
    D: DirectoryHistory + Send + 'static,
    R: Threads + Wait + Abort + Copy + Send + 'static,
>(rt: &R, alloc: Global) {
    let gate = Arc::new(alloc, Counting).expect(rt, "memory");
    let made = Cluster::<Counting, H, D>::new(rt, alloc, &Config::new(1, 1), gate);
    let (cluster, mut first) = made.expect(rt, "memory");
    let mut second = cluster.split(alloc, &mut first).expect(rt, "memory");
    let publish = production(rt, alloc, &Produced::Publish(b"x", &[b"a"])).expect(rt, "memory");
    assert!(rt; 0 < second.queues());
    let told = cluster.call(rt, alloc, &mut second, 0, publish);
    assert!(rt; matches!(told, Ok(Reply::Published { seq: 0 })));
    drop(first);
    drop(second);
    let ended = cluster
        .finish(rt, alloc, Vec::new(alloc))
        .expect(rt, "memory");
    assert!(rt;
        matches!(
            ended.finished,
            Finished::NotAll {
                queue: 0,
                missing: 2
            }
        )
    );
}

#[test]
fn callers_call_by_their_cluster(rt: HostRuntime) {
    call_by_cluster::<Calls, Places, HostRuntime>(&rt, rt.alloc());
}
