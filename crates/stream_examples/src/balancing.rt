//! Spreads 256 queues over the silos.
ghost use Rattle.std.specs.Prelude.{IfOk};
ghost use Rattle.queue_balancer.specs.Balance.{HasNoDoubles};

use anyhow::{Result, bail};
use queue_balancer::rebalance;
use std::alloc::{AllocError, Global};

/// Prints whether of 256 queues, which were all on one silo, each of sixteen gets its part.
pub fn print<R: Print>(rt: &R, alloc: Global) -> Result<()> {
    let old = vec![in alloc; 0; 256]?;
    let live = silos(alloc)?;
    let Ok(new) = rebalance(alloc, &old, &live) else {
        bail!("the queues were not spread");
    };
    let even = live.iter().all(|silo| load(new.as_slice(), *silo) == 16);
    println!(rt; "256 queues on 16 silos: 16 on each is {even}")?;
    Ok(())
}

/// How many of the queues a silo has.
fn load(queues: &[u8], silo: u8) -> usize {
    queues.iter().filter(|queue| **queue == silo).count()
}

fn silos(alloc: Global) -> Result<Vec<u8>, AllocError>
    ensures { IfOk result (λ silos. HasNoDoubles silos.items) }
{
    let mut silos = Vec::new(alloc);
    for silo in 0..16 {
        silos.push(silo)?;
    }
    Ok(silos)
}
