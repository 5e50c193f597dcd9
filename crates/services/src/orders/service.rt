//! The streams of orders, and what is asked of them.
use crate::orders::accounts::{Accounts, price};
use crate::orders::day::Request;
use anyhow::Result;
use std::alloc::Global;
use std::sync::Arc;
use streams::{
    BadName, Closed, Config, Encode, GrainId, Host, Partition, Payload, PublishError, QueueFigures,
    Service, SiloError, StartFrom, StreamId, SubscribeError, Subscription, SubscriptionFigures,
    Token, UnsubscribeError,
};

// The first order of a stream.
const FIRST: Token = Token { seq: 0, idx: 0 };

/// What becomes of a request.
#[derive(Clone, Copy)]
pub enum Answer {
    /// It is done.
    Done(&'static str),
    /// It is refused.
    Refused(&'static str),
    /// The desk has closed after so many orders.
    Closed(usize),
    /// The orders are taken, the first of them under this token.
    Ordered(Token),
    /// An order is refused, since it has no price.
    NoPrice(&'static str),
    /// The orders before this token are gone.
    Missed(Token),
}

/// The desk of a customer: the subscription of a grain to the stream of the customer's orders.
#[derive(Clone, Copy)]
struct Desk {
    customer: &'static str,
    subscription: Subscription,
}

/// The figures of a desk, and of the queue of its orders.
#[derive(Clone, Copy)]
pub struct DeskFigures {
    /// The queue.
    pub queue: usize,
    /// What the queue keeps.
    pub kept: QueueFigures,
    /// How far the desk is.
    pub known: SubscriptionFigures,
}

/// What customers, auditors and operators may ask.
///
/// A call fails where it fails to allocate, where a name or an order isn't one, and where the streams have come to a
/// limit.
#[derive(Drop)]
pub struct OrderService<R: Host> {
    alloc: Global,
    service: Service<R, Accounts>,
    // the desks that were opened
    desks: Vec<Desk>,
}

impl<R: Host> OrderService<R> {
    /// A service on four queues and two silos, whose orders these accounts handle.
    pub fn open(rt: R, accounts: Arc<Accounts, Global>) -> Result<OrderService<R>> {
        let alloc = rt.alloc();
        Ok(OrderService {
            alloc,
            service: Service::open(rt, &Config::new(4, 2), accounts)?,
            desks: Vec::new(alloc),
        })
    }

    /// Does what is asked, which is about this customer or silo.
    pub fn serve(&mut self, who: &'static str, request: &Request) -> Result<Answer> {
        match *request {
            Request::OpenDesk => self.open_desk(who),
            Request::CloseDesk => self.close_desk(who),
            Request::Order(orders) => self.order(who, orders),
            Request::Audit => self.audit(who),
            Request::Settle => self.settle(),
            Request::StartSilo(silo) => self.start_silo(silo),
            Request::TakeSiloDown(silo) => self.take_silo_down(silo),
        }
    }

    /// The figures of a customer's desk, none where the customer has no desk.
    pub fn desk(&mut self, customer: &str) -> Option<DeskFigures> {
        let desk = desk_of(&self.desks, customer)?;
        let queue = desk.queue;
        let kept = self.service.queue(queue)?;
        let known = self.service.subscription(queue, &desk.name())?;
        Some(DeskFigures { queue, kept, known })
    }

    /// Ends the service, and gives the partition of each queue.
    pub fn close(self) -> Result<Vec<Partition>> {
        let OrderService {
            alloc: _,
            service,
            desks: _,
        } = self;
        let Closed { report, partitions } = service.close();
        report?;
        Ok(partitions)
    }

    // A customer gets a desk, which handles what is ordered from now on.
    fn open_desk(&mut self, customer: &'static str) -> Result<Answer> {
        let subscription = self.subscribe(b"desk", customer, StartFrom::Latest)??;
        self.desks.push(Desk {
            customer,
            subscription,
        })?;
        Ok(Answer::Done(" has a desk"))
    }

    // A desk handles nothing more.
    fn close_desk(&mut self, customer: &str) -> Result<Answer> {
        let Some(subscription) = desk_of(&self.desks, customer) else {
            return Ok(Answer::Refused(" has no desk"));
        };
        match self.service.unsubscribe(&subscription) {
            Ok(handled) => Ok(Answer::Closed(handled)),
            Err(UnsubscribeError::Closed) => Ok(Answer::Refused("'s desk is closed")),
            Err(error) => Err(error.into()),
        }
    }

    // A customer orders.
    fn order(&mut self, customer: &str, orders: &'static [&'static str]) -> Result<Answer> {
        if let Some(order) = without_price(orders) {
            return Ok(Answer::NoPrice(order));
        }
        let batch = batch_of(self.alloc, orders)?;
        match self.service.publish(orders_of(customer)?, &batch) {
            Ok(first) => Ok(Answer::Ordered(first.token)),
            Err(PublishError::BadBatch) => Ok(Answer::Refused(" orders nothing")),
            Err(error) => Err(error.into()),
        }
    }

    // An auditor looks at the orders of a customer from the first one on, or else from the first that is kept.
    fn audit(&mut self, customer: &str) -> Result<Answer> {
        match self.subscribe(b"audit", customer, StartFrom::Token(FIRST))? {
            Ok(_) => Ok(Answer::Done(" is audited")),
            Err(SubscribeError::Miss { low, .. }) => {
                self.subscribe(b"audit", customer, StartFrom::Token(low))??;
                Ok(Answer::Missed(low))
            }
            Err(error) => Err(error.into()),
        }
    }

    // A grain of this kind, whose key is the customer, subscribes to the stream of the customer's orders.
    fn subscribe(
        &mut self,
        kind: &[u8],
        customer: &str,
        from: StartFrom,
    ) -> Result<Result<Subscription, SubscribeError>, BadName> {
        let grain = GrainId::new(kind, customer.as_bytes())?;
        Ok(self.service.subscribe(orders_of(customer)?, grain, from))
    }

    // Waits until all orders are handled.
    fn settle(&mut self) -> Result<Answer> {
        self.service.settle()?;
        Ok(Answer::Done(" are handled"))
    }

    // A silo comes.
    fn start_silo(&mut self, silo: u8) -> Result<Answer> {
        self.service.silo_up(silo)?;
        Ok(Answer::Done(" has come"))
    }

    // A silo goes. What waits or runs there is handled elsewhere.
    fn take_silo_down(&mut self, silo: u8) -> Result<Answer> {
        match self.service.silo_down(silo) {
            Ok(()) => Ok(Answer::Done(" has gone")),
            Err(SiloError::LastSilo) => Ok(Answer::Refused(" is the last one")),
            Err(error) => Err(error.into()),
        }
    }
}

// The subscription of a customer's desk, where there is one.
fn desk_of(desks: &[Desk], customer: &str) -> Option<Subscription> {
    for desk in desks {
        if desk.customer == customer {
            return Some(desk.subscription);
        }
    }
    None
}

// The stream of a customer's orders.
fn orders_of(customer: &str) -> Result<StreamId, BadName> {
    StreamId::new(b"orders", customer.as_bytes())
}

// The first of these orders that has no price.
fn without_price(orders: &[&'static str]) -> Option<&'static str> {
    for order in orders {
        if price(order).is_none() {
            return Some(*order);
        }
    }
    None
}

// Orders as the payloads of a batch.
fn batch_of(alloc: Global, orders: &[&str]) -> Result<Vec<Payload>> {
    let mut batch = Vec::new(alloc);
    for order in orders {
        batch.push(order.encode()?)?;
    }
    Ok(batch)
}
