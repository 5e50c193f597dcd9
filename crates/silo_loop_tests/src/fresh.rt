//! Lines of an empty queue and of an empty directory, and how their calls are stored.
ghost use Rattle.std.specs.Prelude.{◌≡◌, ◌≤◌, [], IfOk};
ghost use Rattle.turnstile.specs.Calls.{IsOf};
ghost use Rattle.shared_partition.specs.Directories as directories;
ghost use Rattle.shared_partition.specs.Partitions as partitions;

use activation_directory::{DirectoryOp, DirectoryReply};
use shared_partition::{DirectoryHistory, Gate, QueueHistory, SharedDirectory, SharedPartition};
use silo_loops::{DirectoryLine, Line};
use silo_threads::QueueCaller;
use std::alloc::{AllocError, Global};
use std::process::Abort;
use std::sync::Arc;
use step_core::{Answer, Limits, Op};
use turnstile::{AskedHistory, PassOf, PlainHistory, Turnstile};

/// How the calls of a partition are stored.
pub type History = AskedHistory<Op, Answer>;

/// How the calls of a directory are stored.
pub type Asked = PlainHistory<DirectoryOp, DirectoryReply>;

// How many blocks of 64 events the cache of a queue has.
const BLOCKS: usize = 4;

/// A turnstile over an empty partition whose cache has so many blocks, and its first pass. The history has at most so
/// many calls.
pub fn partition<G: Gate, H: QueueHistory>(
    alloc: Global,
    gate: Arc<G, Global>,
    queue: usize,
    blocks: usize,
    calls: u64,
) -> Result<
    (
        Turnstile<SharedPartition<G, H>>,
        PassOf<SharedPartition<G, H>>,
    ),
    AllocError,
>
    requires some { 1 ≤ blocks }
    requires most { blocks ≤ 64 }
    ensures { IfOk result (λ r. IsOf r.0 r.1 × partitions.BeganEmpty r.0.start × (r.1.seen ≡ [])) }
{
    let shared = SharedPartition::new(alloc, gate, queue, blocks, Limits::GREATEST)?;
    let (turnstile, pass) = Turnstile::new(alloc, shared, calls)?;
    Ok((turnstile, pass))
}

/// The first line of an empty queue, whose history has at most so many calls.
pub fn line<G: Gate, H: QueueHistory>(
    alloc: Global,
    gate: Arc<G, Global>,
    queue: usize,
    calls: u64,
) -> Result<Line<G, H>, AllocError> {
    let (turnstile, pass) = partition(alloc, gate, queue, BLOCKS, calls)?;
    Ok(Line::new(queue, Arc::new(alloc, turnstile)?, pass))
}

/// A caller with the pass of a line.
pub fn caller_of<G: Gate, H: QueueHistory>(line: Line<G, H>) -> QueueCaller<G, H> {
    let (turnstile, pass) = line.into_parts();
    QueueCaller::new(turnstile, pass)
}

// A turnstile over an empty directory, which gives so many permits, and its first pass. The history has at most so
// many calls.
fn directory<D: DirectoryHistory>(
    alloc: Global,
    permits: u64,
    calls: u64,
) -> Result<(Turnstile<SharedDirectory<D>>, PassOf<SharedDirectory<D>>), AllocError>
    requires { permits ≤ 4000000 }
    ensures { IfOk result (λ r. IsOf r.0 r.1 × directories.BeganEmpty r.0.start) }
{
    let shared = SharedDirectory::new(alloc, permits);
    let (turnstile, pass) = Turnstile::new(alloc, shared, calls)?;
    Ok((turnstile, pass))
}

/// The first line of an empty directory.
pub fn directory_line<D: DirectoryHistory, R: Abort>(rt: &R, alloc: Global) -> DirectoryLine<D> {
    let (turnstile, pass) = directory(alloc, 4_000_000, 1_000_000).expect(rt, "memory");
    DirectoryLine::new(Arc::new(alloc, turnstile).expect(rt, "memory"), pass)
}
