//! A service whose queues have room for two events and one subscription each: what it answers once one of them is full.
use crate::refusals::ask_for_more;
use anyhow::Result;
use std::sync::Arc;
use streams::{Config, Counting, Encode, GrainId, Host, Limits, Service, StartFrom, StreamId};

/// Fills a queue, and prints what is refused there. The other queue has room, and all events are handled.
pub fn run<R: Host + Print>(rt: R) -> Result<()> {
    let limits = Limits {
        events: 2,
        subs: 1,
        ..Limits::GREATEST
    };
    let config = Config {
        limits,
        ..Config::new(2, 1)
    };
    let gate = Arc::new(rt.alloc(), Counting)?;
    let mut service = Service::open(rt, &config, gate)?;
    let ann = StreamId::new(b"orders", b"ann")?;
    let bob = StreamId::new(b"orders", b"bob")?;
    service.subscribe(ann, GrainId::new(b"desk", b"ann")?, StartFrom::Latest)?;
    service.publish(ann, &["tea".encode()?, "milk".encode()?])?;
    ask_for_more(&rt, &mut service, ann)?;
    service.publish(bob, &["tea".encode()?])?;
    service.settle()?;
    print_queues(&rt, &mut service)?;
    let report = service.close().report?;
    print!(rt; "{}", str::from_utf8(&report)?)?;
    Ok(())
}

// Prints how full each queue is.
fn print_queues<R: Host + Print>(rt: &R, service: &mut Service<R, Counting>) -> Result<()> {
    println!(rt; "queue  events  of  subscriptions  of")?;
    for queue in 0..service.queues() {
        if let Some(kept) = service.queue(queue) {
            let (events, subscriptions) = (kept.events, kept.subscriptions);
            let (most, most_subscriptions) = (kept.limits.events, kept.limits.subs);
            println!(rt;
                "{queue:>5} {events:>7} {most:>3} {subscriptions:>14} {most_subscriptions:>3}"
            )?;
        }
    }
    Ok(())
}
