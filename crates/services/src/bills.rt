//! A shop whose orders lead to bills: the handler of an order publishes its bill.
use anyhow::Result;
use std::alloc::Global;
use std::sync::atomic::{AtomicU64, Ordering};
use std::sync::{Arc, Wait};
use streams::{
    Closed, Config, Decode, Encode, Event, Gate, Host, Message, Name, Outbox, Partition, Payload,
    Service, StreamId, SubName, SubSummary,
};

// What a cup costs, in cents.
const PRICE: u64 = 350;

// How many bills may wait to be published.
const ROOM: usize = 64;

// How many reminders may wait.
const FEW: usize = 2;

// How many cups are ordered, and by whom.
static ORDERS: [(&str, u64); 4] = [("ann", 2), ("bob", 1), ("ann", 3), ("carla", 4)];

static CUSTOMERS: [&str; 3] = ["ann", "bob", "carla"];

/// Takes the orders, waits until they and their bills are handled, reminds the customers, and prints what each grain has
/// handled.
pub fn run<R: Host + Print>(rt: R) -> Result<()> {
    let alloc = rt.alloc();
    let outbox = Arc::new(alloc, Outbox::new(rt, ROOM)?)?;
    let billing = Arc::new(alloc, Billing::new(Arc::try_clone(&outbox)?)?)?;
    let mut service = Service::open(rt, &Config::new(4, 2), Arc::try_clone(&billing)?)?;
    service.add_rule(Name::new(b"desk")?, Name::new(b"orders")?)?;
    service.add_rule(Name::new(b"ledger")?, Name::new(b"bills")?)?;
    for (customer, cups) in &ORDERS {
        let orders = StreamId::new(b"orders", customer.as_bytes())?;
        service.publish(orders, &[cups.encode()?])?;
    }
    service.settle_with(&outbox)?;
    remind(rt, &mut service)?;
    let Closed { report, partitions } = service.close();
    report?;
    for partition in &partitions {
        print_partition(&rt, alloc, partition)?;
    }
    let missing = billing.missing.load(Ordering::SeqCst);
    println!(rt; "{missing} orders have no bill")?;
    Ok(())
}

// Reminds as many customers as there is room for.
fn remind<R: Host + Print>(rt: R, service: &mut Service<R, Billing<R>>) -> Result<()> {
    let outbox = Outbox::new(rt, FEW)?;
    for customer in &CUSTOMERS {
        let stream = StreamId::new(b"bills", customer.as_bytes())?;
        let payload = Payload::new(b"reminder")?;
        if let Err(full) = outbox.put(Message { stream, payload }) {
            println!(rt; "no reminder for {customer}: {full}")?;
        }
    }
    let published = service.publish_from(&outbox)?;
    println!(rt; "{published} reminders are published")?;
    service.settle()?;
    Ok(())
}

// What each grain of a partition has handled.
fn print_partition(rt: &impl Print, alloc: Global, partition: &Partition) -> Result<()> {
    for sub in partition.subs(alloc)? {
        print_row(rt, &sub, &partition.handled(alloc, &sub.name)?)?;
    }
    Ok(())
}

fn print_row(rt: &impl Print, sub: &SubSummary, events: &[Event]) -> Result<()> {
    print!(rt; "{} has handled", sub.grain)?;
    for event in events {
        print!(rt; " {}", event.payload)?;
    }
    println!(rt;)?;
    Ok(())
}

// The handler of orders and of bills. An order's bill goes into the outbox.
struct Billing<R: Wait + Copy> {
    outbox: Arc<Outbox<R>, Global>,
    orders: Name,
    bills: Name,
    // how many orders have no bill
    missing: AtomicU64,
}

impl<R: Wait + Copy> Drop for Billing<R> {
    fn drop(self) {
        let Self {
            outbox: _,
            orders: _,
            bills: _,
            missing: _,
        } = self;
    }
}

impl<R: Wait + Copy> Billing<R> {
    fn new(outbox: Arc<Outbox<R>, Global>) -> Result<Billing<R>> {
        Ok(Billing {
            outbox,
            orders: Name::new(b"orders")?,
            bills: Name::new(b"bills")?,
            missing: AtomicU64::new(0),
        })
    }

    // The bill of an order.
    fn bill(&self, order: &Event) -> Option<Message> {
        let stream = StreamId {
            namespace: self.bills,
            key: order.stream.key,
        };
        let cups = u64::decode(&order.payload).ok()?;
        let payload = cups.saturating_mul(PRICE).encode().ok()?;
        Some(Message { stream, payload })
    }

    // Puts the bill of an order into the outbox, and says whether it is in.
    fn put_bill(&self, order: &Event) -> bool {
        match self.bill(order) {
            Some(bill) => self.outbox.put(bill).is_ok(),
            None => false,
        }
    }
}

impl<R: Wait + Copy + Send + Sync + 'static> Gate for Billing<R> {
    /// The note counts what the subscription has handled.
    fn handle(&self, _sub: &SubName, event: &Event, note: u64) -> u64 {
        if event.stream.namespace == self.orders && !self.put_bill(event) {
            self.missing.fetch_add(1, Ordering::SeqCst);
        }
        note.saturating_add(1)
    }
}
