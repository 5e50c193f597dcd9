//! A parked cluster, whose operator takes back the loops of a silo. It starts no thread.
ghost use Rattle.std.specs.Prelude.{◌≡◌, ◌<◌, length, map, true};
ghost use Rattle.std.specs.List.{AllByRecursion};
ghost use Rattle.queue_callers.specs.Gathering.{AreAt};
ghost use Rattle.silo_loops.specs.Silos.{SiloView};
ghost use Rattle.silo_loops.specs.Lines.{places};
ghost use Rattle.silo_threads.specs.Clusters.{RunsOn};

use crate::came::{Came, Stop, check, with_memory};
use shared_partition::{DirectoryHistory, QueueHistory};
use std::alloc::{AllocError, Global};
use std::sync::{Arc, Wait};
use streams::{
    Answer, AskedHistory, Caller, Cluster, Config, Counting, DirectoryOp, DirectoryReply, Finished,
    Op, Retired, SiloLoops,
};

/// How the calls of a queue are stored.
type Calls = AskedHistory<Op, Answer>;

/// How those of the directory are stored.
type Places = AskedHistory<DirectoryOp, DirectoryReply>;

/// Tries to take back the loops of the first of two silos, so that its queue goes to the other one.
pub(crate) fn try_retire<R: Wait>(rt: &R, alloc: Global) -> Result<Came, Stop> {
    let gate = Arc::new(alloc, Counting)?;
    let shared = Arc::try_clone(&gate)?;
    let came = live::<Calls, Places, R>(rt, alloc, shared)?;
    check(Arc::strong_count(&gate) == 1, "a pass is left")?;
    Ok(came)
}

/// Lets a parked cluster live, whose first silo goes.
fn live<H: QueueHistory, D: DirectoryHistory, R: Wait>(
    rt: &R,
    alloc: Global,
    gate: Arc<Counting, Global>,
) -> Result<Came, Stop> {
    let mut callers = Vec::with_capacity(alloc, 1)?;
    let config = Config::new(2, 2);
    let (cluster, caller, crew) = Cluster::<Counting, H, D>::parked(rt, alloc, &config, gate)?;
    callers.push_reserved(caller);
    retire(rt, alloc, cluster, callers, crew)
}

/// Gives back the loops of the first silo, and ends the cluster: where memory is refused to the first no pass is lost.
fn retire<H: QueueHistory, D: DirectoryHistory, R: Wait>(
    rt: &R,
    alloc: Global,
    mut cluster: Cluster<Counting, H, D>,
    callers: Vec<Caller<Counting, H>>,
    mut crew: Vec<SiloLoops<Counting, H, D>>,
) -> Result<Came, Stop>
    requires parked { cluster.is_parked ≡ true }
    requires some { 0 < length crew.items }
    requires live { map (λ (s : SiloView). s.silo) crew.items ≡ cluster.operator.live }
    requires runs { RunsOn cluster.operator crew.items }
    requires callers { AllByRecursion (AreAt (places cluster.operator.lines)) callers.items }
{
    let first = crew.remove(0);
    let retired = cluster.retire(rt, alloc, first);
    let ended = finish(rt, alloc, cluster, callers, crew);
    judge(retired, ended)
}

/// What came of a retire, where the cluster has ended so behind it.
fn judge<H: QueueHistory, D: DirectoryHistory>(
    retired: Result<Retired<Counting, H, D>, AllocError>,
    ended: Result<(), Stop>,
) -> Result<Came, Stop> {
    match retired {
        Ok(Retired::Down) => {
            ended?;
            Ok(Came::Done)
        }
        Err(AllocError) => with_memory(ended),
        Ok(_) => Err(Stop::Wrong("the silo isn't retired")),
    }
}

/// Ends a cluster to whose queues nothing was published.
fn finish<H: QueueHistory, D: DirectoryHistory, R: Wait>(
    rt: &R,
    alloc: Global,
    cluster: Cluster<Counting, H, D>,
    callers: Vec<Caller<Counting, H>>,
    crew: Vec<SiloLoops<Counting, H, D>>,
) -> Result<(), Stop>
    requires parked { cluster.is_parked ≡ true }
    requires runs { RunsOn cluster.operator crew.items }
    requires callers { AllByRecursion (AreAt (places cluster.operator.lines)) callers.items }
{
    match cluster.finish_parked(rt, alloc, callers, crew)? {
        Finished::Report { text, traces: _ } => {
            check(
                text.as_slice() == b"report\n".as_slice(),
                "the report is another one",
            )
        }
        _ => Err(Stop::Wrong("the cluster ends otherwise")),
    }
}
