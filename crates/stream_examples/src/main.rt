//! Goes to the limits: 10,000 subscriptions and grains, 10,000 streams for each of which a rule makes a subscription, a
//! cache of 64 blocks, a log of 10,048 events, 64 queues, a turn of sixteen, 256 queues for the balancer.
#![tactic(auto)]

mod balancing;
mod limits;

use anyhow::Result;

fn main(rt: HostRuntime) -> Result<()> {
    limits::print_all(&rt, rt.alloc())?;
    balancing::print(&rt, rt.alloc())
}
