//! A service that may hand out no turn: what it answers once a loop of its silo has ended.
use crate::refusals::ask_for_more;
use anyhow::Result;
use std::sync::Arc;
use streams::{Config, Counting, Encode, GrainId, Host, Limits, Service, StartFrom, StreamId};

/// Publishes to it, and prints why nothing is handled and what is refused from then on.
pub fn run<R: Host + Print>(rt: R) -> Result<()> {
    // The one rise of a queue is the activation of its grain.
    let limits = Limits {
        rises: 1,
        ..Limits::GREATEST
    };
    let config = Config {
        limits,
        ..Config::new(2, 1)
    };
    let gate = Arc::new(rt.alloc(), Counting)?;
    let mut service = Service::open(rt, &config, gate)?;
    let stream = StreamId::new(b"orders", b"ann")?;
    let desk = service.subscribe(stream, GrainId::new(b"desk", b"ann")?, StartFrom::Latest)?;
    service.publish(stream, &["tea".encode()?])?;
    if let Err(unsettled) = service.settle() {
        println!(rt; "not settled: {unsettled}")?;
    }
    print_queues(&rt, &mut service)?;
    ask_for_more(&rt, &mut service, stream)?;
    if let Err(refused) = service.silo_up(1) {
        println!(rt; "silo 1 hasn't come: {refused}")?;
    }
    let closed = service.close();
    if let Err(unfinished) = &closed.report {
        println!(rt; "no report: {unfinished}")?;
    }
    if let Some(known) = closed.subscription(desk.queue, &desk.name()) {
        println!(rt; "{} has handled {} events", known.grain, known.handled)?;
    }
    Ok(())
}

// Prints how many rises each queue has left.
fn print_queues<R: Host + Print>(rt: &R, service: &mut Service<R, Counting>) -> Result<()> {
    println!(rt; "queue  events  rises  of")?;
    for queue in 0..service.queues() {
        if let Some(kept) = service.queue(queue) {
            let (events, rises, most) = (kept.events, kept.rises, kept.limits.rises);
            println!(rt; "{queue:>5} {events:>7} {rises:>6} {most:>3}")?;
        }
    }
    Ok(())
}
