//! Services over streams, one after the other: orders with a desk for each customer, the readings of 600
//! devices, a shop with two tills, one that closes while a till is open, one with an archive that is stopped, one with a
//! queue that is full, one whose orders lead to bills, and one that may hand out no turn.
#![tactic(auto)]

mod bills;
mod devices;
mod full;
mod orders;
mod pressed;
mod refusals;
mod tills;
mod turns;
mod unfinished;

use anyhow::Result;

fn main(rt: HostRuntime) -> Result<()> {
    println!(rt; "== Orders")?;
    orders::run(rt)?;
    println!(rt; "\n== Devices")?;
    devices::run(rt)?;
    println!(rt; "\n== Tills")?;
    tills::run(rt)?;
    println!(rt; "\n== Unfinished")?;
    unfinished::run(rt)?;
    println!(rt; "\n== Pressed")?;
    pressed::run(rt)?;
    println!(rt; "\n== Full")?;
    full::run(rt)?;
    println!(rt; "\n== Bills")?;
    bills::run(rt)?;
    println!(rt; "\n== Turns")?;
    turns::run(rt)
}
