//! A service that is closed while a producer is out.
use anyhow::Result;
use std::sync::Arc;
use streams::{Config, Counting, Encode, GrainId, Host, Service, StartFrom, StreamId};

/// Publishes by a producer, doesn't hand it back, and prints why there is no report.
pub fn run<R: Host + Print>(rt: R) -> Result<()> {
    let gate = Arc::new(rt.alloc(), Counting)?;
    let mut service = Service::open(rt, &Config::new(2, 1), gate)?;
    let sales = StreamId::new(b"sales", b"shop")?;
    let ledger = service.subscribe(sales, GrainId::new(b"ledger", b"shop")?, StartFrom::Latest)?;
    let mut till = service.producer()?;
    till.publish(sales, &[450i64.encode()?])?;
    service.settle()?;
    if let Some(known) = service.subscription(ledger.queue, &ledger.name()) {
        println!(rt; "the ledger has handled {} sale", known.handled)?;
    }
    let closed = service.close();
    if let Err(unfinished) = &closed.report {
        println!(rt; "no report: {unfinished}")?;
    }
    drop(till);
    Ok(())
}
