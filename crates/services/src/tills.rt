//! A shop with two tills, each of which publishes what it sells by a producer of its own.
ghost use Rattle.std.specs.Prelude.{◌≡◌, IfOk};

use anyhow::Result;
use std::alloc::{AllocError, Global};
use std::sync::{Arc, Wait};
use std::thread;
use std::thread::{PromisedHandle, Threads};
use streams::{
    Closed, Config, Counting, Decode, Encode, GrainId, Host, Payload, Producer, ProducerPromise,
    PublishError, Service, StartFrom, StreamId, StreamToken, Subscription,
};

/// Sells at both tills at once, audits that, and prints what they have taken.
pub fn run<R: Host + Print>(rt: R) -> Result<()> {
    let gate = Arc::new(rt.alloc(), Counting)?;
    let mut service = Service::open(rt, &Config::new(4, 2), gate)?;
    let sales = StreamId::new(b"sales", b"shop")?;
    let all = service.subscribe(sales, GrainId::new(b"ledger", b"shop")?, StartFrom::Latest)?;
    let first = sell(&rt, &mut service, sales)?;
    audit(&rt, &mut service, sales, first)?;
    let closed = service.close();
    let cents = taken(rt.alloc(), &closed, &all)?;
    println!(rt; "they have taken {cents} cents")?;
    Ok(())
}

// What a till comes to in its thread: its producer, and the first event that it has published.
type Till<R> = PromisedHandle<
    (Producer<R, Counting>, Result<StreamToken, PublishError>),
    ProducerPromise<R, Counting>,
>;

// A till sells in a thread of its own.
fn open<R: Threads + Wait + Copy + Send + 'static>(
    rt: &R,
    mut till: Producer<R, Counting>,
    sales: StreamId,
    sale: Payload,
) -> Result<Till<R>, AllocError>
    ensures { IfOk result (λ thread. thread.promise.0.value ≡ till) }
{
    let promise = till.promise();
    Ok(thread::spawn_with(rt, promise, move || {
        let sold = till.publish(sales, &[sale]);
        (till, sold)
    })?)
}

// One till sells, and the other one takes something back meanwhile. It gives the first of both.
fn sell<R: Host>(
    rt: &R,
    service: &mut Service<R, Counting>,
    sales: StreamId,
) -> Result<StreamToken> {
    let (sale, refund) = (450i64.encode()?, (-120i64).encode()?);
    let till = open(rt, service.producer()?, sales, sale)?;
    let mut other = service.producer()?;
    let refunded = other.publish(sales, &[refund]);
    let (till, sold) = till.join(rt);
    service.take_back(till);
    service.take_back(other);
    let (sold, refunded) = (sold?, refunded?);
    if refunded.token.is_before(&sold.token) {
        return Ok(refunded);
    }
    Ok(sold)
}

// An auditor looks at the sales from this one on.
fn audit<R: Host + Print>(
    rt: &R,
    service: &mut Service<R, Counting>,
    sales: StreamId,
    first: StreamToken,
) -> Result<()> {
    let auditor = GrainId::new(b"auditor", b"shop")?;
    let audited = service.subscribe(sales, auditor, StartFrom::At(first))?;
    service.settle()?;
    let audited = service.unsubscribe(&audited)?;
    println!(rt; "both tills have sold: {audited} sales are audited")?;
    Ok(())
}

// What a subscription has handled comes to, in cents.
fn taken(alloc: Global, closed: &Closed, all: &Subscription) -> Result<i64> {
    let mut cents = 0i64;
    if let Some(partition) = closed.partitions.get(all.queue) {
        for event in &partition.handled(alloc, &all.name())? {
            cents = cents.saturating_add(i64::decode(&event.payload)?);
        }
    }
    Ok(cents)
}
