//! The handler: it adds up what each customer has to pay.
use std::sync::atomic::{AtomicU64, Ordering};
use streams::{Event, Gate, GrainId, SubName};

/// The customers. The name of each is the key of a stream of orders.
pub static CUSTOMERS: [&str; 4] = ["ann", "bob", "carla", "dora"];

/// What each customer has to pay, in cents. One value of this type serves all grains: the workers of all silos call it
/// from their threads, so what it changes is atomic.
#[derive(Drop)]
pub struct Accounts {
    cents: [AtomicU64; 4],
}

impl Accounts {
    /// The accounts of customers who have ordered nothing yet.
    pub fn new() -> Accounts {
        Accounts {
            cents: [
                AtomicU64::new(0),
                AtomicU64::new(0),
                AtomicU64::new(0),
                AtomicU64::new(0),
            ],
        }
    }

    /// The sum of the orders that a customer's desk has handled, in cents.
    pub fn cents(&self, customer: usize) -> u64 {
        match self.cents.get(customer) {
            Some(cents) => cents.load(Ordering::SeqCst),
            None => 0,
        }
    }
}

impl Gate for Accounts {
    /// The note of a subscription is the sum of the orders that it has handled. It is stored with each turn, so that
    /// each order is in it once, whatever happens to silos.
    fn handle(&self, _sub: &SubName, event: &Event, note: u64) -> u64 {
        note.saturating_add(price(event.payload.as_str()).unwrap_or(0))
    }

    /// Where the grain is a desk, its key is the customer, whose account gets the sum; an auditor changes no account.
    ///
    /// The account is not stored with the turn: where that is lost before its commit, as when its silo goes, the order
    /// comes here a second time, with the same note as before. So what is done here may be done twice without harm: an
    /// account takes the greatest sum that it is told.
    fn handle_for(&self, grain: &GrainId, sub: &SubName, event: &Event, note: u64) -> u64 {
        let sum = self.handle(sub, event, note);
        for customer in 0..4 {
            if grain.kind.as_str() == "desk" && grain.key.as_str() == CUSTOMERS[customer] {
                self.cents[customer].fetch_max(sum, Ordering::SeqCst);
            }
        }
        sum
    }
}

/// The price of an order in cents: the number before its first space.
pub fn price(order: &str) -> Option<u64> {
    let (cents, _what) = order.split_once(' ')?;
    cents.parse().ok()
}
