//! What a new cluster is made of: its turnstiles, its own passes, and its first caller.
ghost use Rattle.std.specs.Prelude.{◌≡◌, [], length, IfOk, OnOk};
ghost use Rattle.std.specs.List.{range_with_len};
ghost use Rattle.silo_threads.specs.Clusters.{AreAtQueues, HaveSeenNone, IsAtDirectory, IsAtQueue, IsConfig, IsOpened};

use crate::config::Config;
use queue_callers::Caller;
use shared_partition::{DirectoryHistory, Gate, QueueHistory, SharedDirectory, SharedPartition};
use silo_loops::{DirectoryLine, Doorbell, Line, split_lines};
use silo_operators::Operator;
use std::alloc::{AllocError, Global};
use std::sync::{Arc, Wait};
use stream_ident::MOST_PERMITS;
use turnstile::Turnstile;

// A line with the first pass of the partition of a queue.
fn open_queue<G: Gate, H: QueueHistory>(
    alloc: Global,
    gate: &Arc<G, Global>,
    config: &Config,
    queue: usize,
) -> Result<Line<G, H>, AllocError>
    requires { IsConfig config.now }
    ensures at { IfOk result (λ line. IsAtQueue config.now line.pass) }
    ensures unseen { IfOk result (λ line. line.pass.seen ≡ []) }
{
    let gate = Arc::try_clone(gate)?;
    let empty = SharedPartition::new(alloc, gate, queue, config.blocks, config.limits)?;
    let (turnstile, pass) = Turnstile::new(alloc, empty, config.history)?;
    let shared = Arc::new(alloc, turnstile)?;
    Ok(Line::new(queue, shared, pass))
}

// The partition of each queue behind its turnstile.
fn open_queues<G: Gate, H: QueueHistory>(
    alloc: Global,
    gate: &Arc<G, Global>,
    config: &Config,
) -> Result<Vec<Line<G, H>>, AllocError>
    requires { IsConfig config.now }
    ensures many { IfOk result (λ lines. length lines.items ≡ config.now.queues) }
    ensures at { IfOk result (λ lines. AreAtQueues config.now lines.items) }
    ensures unseen { IfOk result (λ lines. HaveSeenNone lines.items) }
{
    let mut lines = Vec::with_capacity(alloc, config.queues)?;
    for queue in 0..config.queues {
        lines.push_reserved(open_queue(alloc, gate, config, queue)?);
    }
    Ok(lines)
}

// A line with the first pass of the directory.
fn open_directory<D: DirectoryHistory>(
    alloc: Global,
    config: &Config,
) -> Result<DirectoryLine<D>, AllocError>
    ensures { IfOk result (λ line. IsAtDirectory config.now line) }
{
    let empty = SharedDirectory::new(alloc, MOST_PERMITS);
    let (turnstile, pass) = Turnstile::new(alloc, empty, config.history)?;
    let shared = Arc::new(alloc, turnstile)?;
    Ok(DirectoryLine::new(shared, pass))
}

// So many silos live from now on, numbered from 0 on.
fn enlist_first<G: Gate, H: QueueHistory, D: DirectoryHistory>(
    operator: &mut Operator<G, H, D>,
    silos: u8,
) -> Result<(), AllocError>
    requires { operator.old.live ≡ [] }
    ensures { OnOk result (operator.new ≡ record operator.old { live = range_with_len 0 silos }) }
{
    for silo in 0..silos {
        operator.enlist(silo)?;
    }
    Ok(())
}

// The operator and the first caller of a cluster whose loops aren't made yet. The queues are spread over its first
// silos: these moves are the first calls, so that no limit refuses one.
pub(crate) fn open<G: Gate, H: QueueHistory, D: DirectoryHistory, R: Wait>(
    rt: &R,
    alloc: Global,
    config: &Config,
    gate: Arc<G, Global>,
) -> Result<(Operator<G, H, D>, Caller<G, H>), AllocError>
    requires { IsConfig config.now }
    ensures { IfOk result (λ made. IsOpened config.now made.0 made.1) }
{
    let doorbell = Arc::new(alloc, Doorbell::new(alloc, config.queues, 0)?)?;
    let mut lines = open_queues(alloc, &gate, config)?;
    let own = split_lines(alloc, &mut lines)?;
    let caller = Caller::of_lines(alloc, Arc::try_clone(&doorbell)?, own)?;
    let directory = open_directory(alloc, config)?;
    let mut operator = Operator::new(alloc, gate, doorbell, lines, directory)?;
    enlist_first(&mut operator, config.silos)?;
    match operator.spread(rt, alloc) {
        Ok(()) => Ok((operator, caller)),
        Err(_) => Err(AllocError),
    }
}
