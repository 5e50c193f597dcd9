//! A service that takes orders, on a cluster whose silos are threads.
mod accounts;
mod day;
mod service;

use accounts::{Accounts, CUSTOMERS, price};
use anyhow::Result;
use day::{DAY, Request};
use service::{Answer, DeskFigures, OrderService};
use std::alloc::Global;
use std::sync::Arc;
use streams::{Event, Host, Partition, SubSummary};

/// Spends a day of the service, and prints what became of each request, figures where all orders are handled, what each
/// desk has handled and what each customer has to pay.
pub fn run<R: Host + Print>(rt: R) -> Result<()> {
    let alloc = rt.alloc();
    let accounts = Arc::new(alloc, Accounts::new())?;
    let service = OrderService::open(rt, Arc::try_clone(&accounts)?)?;
    let partitions = spend_the_day(&rt, service)?;
    for partition in &partitions {
        print_partition(&rt, alloc, partition)?;
    }
    print_bills(&rt, &accounts)
}

// Asks the service for all that is asked in the day, prints what becomes of it, and ends the service.
fn spend_the_day<R: Host + Print>(rt: &R, mut service: OrderService<R>) -> Result<Vec<Partition>> {
    for (who, request) in &DAY {
        let answer = service.serve(who, request)?;
        print_answer(rt, who, answer)?;
        if let Request::Settle = request {
            print_desks(rt, &mut service)?;
        }
    }
    service.close()
}

// Prints what has become of a request.
fn print_answer(rt: &impl Print, who: &str, answer: Answer) -> Result<()> {
    match answer {
        Answer::Done(what) => println!(rt; "{who}{what}")?,
        Answer::Refused(why) => println!(rt; "refused: {who}{why}")?,
        Answer::Closed(orders) => println!(rt; "{who}'s desk closes after {orders} orders")?,
        Answer::Ordered(first) => println!(rt; "{who} orders: from {first}")?,
        Answer::NoPrice(order) => println!(rt;
            "refused: {who} orders {order}, which has no price"
        )?,
        Answer::Missed(low) => println!(rt; "missed: {who}'s orders before {low} are gone")?,
    }
    Ok(())
}

// Prints what the queue of each desk keeps, and how many orders the desk has handled. How far it is behind would depend
// on the moment: that comes to 0 a little after the settle.
fn print_desks<R: Host + Print>(rt: &R, service: &mut OrderService<R>) -> Result<()> {
    println!(rt; "desk   queue  events  subscriptions  handled")?;
    for customer in &CUSTOMERS {
        if let Some(desk) = service.desk(customer) {
            print_desk(rt, customer, &desk)?;
        }
    }
    Ok(())
}

// Prints the figures of a desk.
fn print_desk(rt: &impl Print, customer: &str, desk: &DeskFigures) -> Result<()> {
    let (events, subscriptions) = (desk.kept.events, desk.kept.subscriptions);
    let (queue, handled) = (desk.queue, desk.known.handled);
    println!(rt; "{customer:<5} {queue:>6} {events:>7} {subscriptions:>14} {handled:>8}")?;
    Ok(())
}

// Prints what each subscription of a partition has handled.
fn print_partition(rt: &impl Print, alloc: Global, partition: &Partition) -> Result<()> {
    for sub in partition.subs(alloc)? {
        print_row(rt, &sub, &partition.handled(alloc, &sub.name)?)?;
    }
    Ok(())
}

// Prints how many orders a subscription has handled, from which on, and what they come to.
fn print_row(rt: &impl Print, sub: &SubSummary, orders: &[Event]) -> Result<()> {
    let (grain, start, count, total) = (sub.grain, sub.start, orders.len(), total_of(orders));
    let (dollars, cents) = (total / 100, total % 100);
    let closed = if sub.is_open { "" } else { ", closed" };
    println!(rt; "{grain} from {start}, {count} handled: {dollars}.{cents:02}{closed}")?;
    Ok(())
}

// The prices of these orders together, in cents.
fn total_of(orders: &[Event]) -> u64 {
    let mut total = 0u64;
    for order in orders {
        total = total.saturating_add(price(order.payload.as_str()).unwrap_or(0));
    }
    total
}

// Prints what each customer has to pay.
fn print_bills(rt: &impl Print, accounts: &Accounts) -> Result<()> {
    for (customer, name) in CUSTOMERS.iter().enumerate() {
        let cents = accounts.cents(customer);
        println!(rt; "{name} has to pay {}.{:02}", cents / 100, cents % 100)?;
    }
    Ok(())
}
