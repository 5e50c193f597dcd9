//! Silos that come and go.
ghost use Rattle.std.specs.Prelude.{◌≡◌, ◌<◌, [], ◌∷◌, ◌++◌, length, Contains, Some, slice_get, IfErr, IfOk, OnErr, OnOk};
ghost use Rattle.std.specs.List.{AllByRecursion, AllZip};
ghost use Rattle.turnstile.specs.Recorded.{recorded};
ghost use Rattle.silo_loops.specs.Silos.{AreSplitOff, AreTakenIn, HasRun, HaveCauses, IsFresh, IsSiloAt, SiloView};
ghost use Rattle.silo_operators.specs.Changes.{HaveOnlySeen, HaveStayed};
ghost use Rattle.silo_operators.specs.Operators.{HasOnlyGoneOn, HasSpread, OperatorGoesOn};
ghost use Rattle.silo_threads.specs.Clusters.{AreFresh, AreStarted, HasAtMostCome, HasLeft, HasMetLimit, HaveComeBack, HaveEnded, IsEmptied, RunsOn, all_noted, noted};

use queue_callers::LoopEnds;
use shared_partition::{DirectoryHistory, Gate, QueueHistory};
use silo_loops::{RunningSilo, SiloLoops};
use silo_operators::{Halt, Operator};
use std::alloc::{AllocError, Global};
use std::sync::Wait;
use std::thread::Threads;
use turnstile::Recorded;

// Starts the loops of a silo. Where they can't all be started, their passes are joined back. One that had started may
// have stopped with a turn in hand, which is never committed then: whoever waits until all is quiet is told.
pub(crate) fn start_silo<
    G: Gate + 'static,
    H: QueueHistory + Send + 'static,
    D: DirectoryHistory + Send + 'static,
    R: Threads + Wait + Copy + Send + 'static,
>(
    rt: &R,
    alloc: Global,
    operator: &mut Operator<G, H, D>,
    silo: u8,
    rounds: u64,
) -> Result<RunningSilo<G, H, D>, AllocError>
    ensures same { OnOk result (operator.new ≡ operator.old) }
    ensures only { HasOnlyGoneOn operator.old operator.new }
    ensures split { IfOk result (AreSplitOff operator.old.lines operator.old.directory) }
    ensures started { IfOk result (λ running. IsFresh rounds silo running × IsSiloAt operator.new.lines operator.new.directory running) }
{
    let loops = operator.make_loops(alloc, silo, rounds)?;
    match RunningSilo::start(rt, alloc, operator.doorbell(), loops) {
        Ok(running) => Ok(running),
        Err(back) => {
            operator.take_back(back);
            operator.doorbell().end(rt);
            Err(AllocError)
        }
    }
}

// Brings a silo up: its loops are started, and the queues are spread anew.
pub(crate) fn bring_up<
    G: Gate + 'static,
    H: QueueHistory + Send + 'static,
    D: DirectoryHistory + Send + 'static,
    R: Threads + Wait + Copy + Send + 'static,
>(
    rt: &R,
    alloc: Global,
    operator: &mut Operator<G, H, D>,
    silos: &mut Vec<RunningSilo<G, H, D>>,
    silo: u8,
    rounds: u64,
) -> Result<(), Halt>
    requires absent { ¬ Contains operator.old.live silo }
    requires at { RunsOn operator.old silos.old.items }
    requires fresh { AreFresh rounds silos.old.items }
    ensures at { RunsOn operator.new silos.new.items }
    ensures fresh { AreFresh rounds silos.new.items }
    ensures on { OperatorGoesOn operator.old operator.new }
    ensures seen { OnOk result (HaveOnlySeen operator.old.lines operator.new.lines) }
    ensures directory { OnOk result (operator.new.directory ≡ operator.old.directory) }
    ensures live { OnOk result (operator.new.live ≡ operator.old.live ++ silo ∷ []) }
    ensures started { OnOk result ((s : SiloView) × (silos.new.items ≡ silos.old.items ++ s ∷ []) × IsFresh rounds silo s × AreSplitOff operator.old.lines operator.old.directory s) }
    ensures spread { OnOk result (HasSpread operator.old operator.new) }
    ensures stayed { OnOk result (HaveStayed operator.old.lines operator.new.lines operator.old.assignment operator.new.assignment) }
    ensures others { HasAtMostCome silo silos.old.items silos.new.items }
    ensures kept { OnErr result (operator.new.assignment ≡ operator.old.assignment) }
    ensures limit { IfErr result (λ why. why ≡ Halt.Limit → HasMetLimit operator.old operator.new) }
{
    silos.reserve(1)?;
    silos.push_reserved(start_silo(rt, alloc, operator, silo, rounds)?);
    operator.enlist(silo)?;
    operator.spread(rt, alloc)
}

// What is done once a silo's loops came back: their passes are joined, its grains are deactivated, and the queues are
// spread over the silos that are left.
pub(crate) fn leave<G: Gate, H: QueueHistory, D: DirectoryHistory, R: Wait>(
    rt: &R,
    alloc: Global,
    operator: &mut Operator<G, H, D>,
    place: usize,
    loops: SiloLoops<G, H, D>,
) -> Result<(), Halt>
    requires place { slice_get operator.old.live place ≡ Some loops.silo }
    requires others { 1 < length operator.old.live }
    requires at { IsSiloAt operator.old.lines operator.old.directory loops }
    ensures on { OperatorGoesOn operator.old operator.new }
    ensures taken { AreTakenIn operator.new.lines operator.new.directory loops }
    ensures left { OnOk result (HasLeft loops.silo place operator.old operator.new) }
    ensures emptied { OnOk result (IsEmptied operator.new.directory loops) }
    ensures kept { OnErr result (operator.new.assignment ≡ operator.old.assignment) }
    ensures limit { IfErr result (λ why. why ≡ Halt.Limit → HasMetLimit operator.old operator.new) }
{
    let silo = loops.silo;
    operator.take_back(loops);
    operator.evict(rt, alloc, silo)?;
    operator.dismiss(place);
    operator.spread(rt, alloc)
}

// Starts the loops of the silos that live. Where one can't be started, those that run are stopped, and all passes are
// joined back.
pub(crate) fn start_all<
    G: Gate + 'static,
    H: QueueHistory + Send + 'static,
    D: DirectoryHistory + Send + 'static,
    R: Threads + Wait + Copy + Send + 'static,
>(
    rt: &R,
    alloc: Global,
    operator: &mut Operator<G, H, D>,
    silos: u8,
    rounds: u64,
) -> Result<Vec<RunningSilo<G, H, D>>, AllocError>
    ensures same { OnOk result (operator.new ≡ operator.old) }
    ensures only { HasOnlyGoneOn operator.old operator.new }
    ensures started { IfOk result (λ running. AreStarted silos running.items × AreFresh rounds running.items × RunsOn operator.new running.items) }
{
    let mut running = Vec::with_capacity(alloc, usize::from(silos))?;
    for silo in 0..silos {
        match start_silo(rt, alloc, operator, silo, rounds) {
            Ok(started) => running.push_reserved(started),
            Err(AllocError) => {
                let _stopped = stop_all(rt, operator, running, LoopEnds::default());
                return Err(AllocError);
            }
        }
    }
    Ok(running)
}

// Notes how the loops of a silo have ended.
pub(crate) fn note_ends<G: Gate, H: QueueHistory, D: DirectoryHistory>(
    ends: LoopEnds,
    loops: &SiloLoops<G, H, D>,
) -> LoopEnds
    ensures noted { result ≡ noted ends loops.now }
    ensures causes { HaveCauses loops.now }
{
    let mut ends = ends;
    ends.note(loops.agent.over());
    ends.note(loops.first.over());
    ends.note(loops.second.over());
    ends
}

// Stops the loops of silos, joins their passes back, and notes how they have ended. For proofs alone it gives the loops
// as they came back.
pub(crate) fn stop_all<G: Gate, H: QueueHistory, D: DirectoryHistory, R: Threads + Wait>(
    rt: &R,
    operator: &mut Operator<G, H, D>,
    silos: Vec<RunningSilo<G, H, D>>,
    ends: LoopEnds,
) -> (LoopEnds, Recorded<SiloLoops<G, H, D>>)
    requires { RunsOn operator.old silos.items }
    ensures only { HasOnlyGoneOn operator.old operator.new }
    ensures ran { AllZip HasRun silos.items (recorded result.1) }
    ensures ends { HaveEnded ends (recorded result.1) operator.new.lines operator.new.directory result.0 }
{
    let mut ends = ends;
    let mut back = Recorded::Nothing;
    for silo in silos {
        let loops = silo.stop(rt, operator.doorbell());
        ends = note_ends(ends, &loops);
        back.add(&loops);
        operator.take_back(loops);
    }
    (ends, back)
}

// Makes the loops of the silos that live. Where those of one can't be made, all passes are joined back.
pub(crate) fn make_all<G: Gate, H: QueueHistory, D: DirectoryHistory>(
    alloc: Global,
    operator: &mut Operator<G, H, D>,
    silos: u8,
    rounds: u64,
) -> Result<Vec<SiloLoops<G, H, D>>, AllocError>
    ensures same { OnOk result (operator.new ≡ operator.old) }
    ensures only { HasOnlyGoneOn operator.old operator.new }
    ensures made { IfOk result (λ made. AreStarted silos made.items × AreFresh rounds made.items × RunsOn operator.new made.items) }
{
    let mut made = Vec::with_capacity(alloc, usize::from(silos))?;
    for silo in 0..silos {
        match operator.make_loops(alloc, silo, rounds) {
            Ok(loops) => made.push_reserved(loops),
            Err(AllocError) => {
                let _ends = take_all_back(operator, made, LoopEnds::default());
                return Err(AllocError);
            }
        }
    }
    Ok(made)
}

// Joins the passes of loops back, and notes how the loops have ended.
pub(crate) fn take_all_back<G: Gate, H: QueueHistory, D: DirectoryHistory>(
    operator: &mut Operator<G, H, D>,
    silos: Vec<SiloLoops<G, H, D>>,
    ends: LoopEnds,
) -> LoopEnds
    requires { RunsOn operator.old silos.items }
    ensures only { HasOnlyGoneOn operator.old operator.new }
    ensures ends { result ≡ all_noted ends silos.items }
    ensures back { AllByRecursion (HaveComeBack operator.new.lines operator.new.directory) silos.items }
{
    let mut ends = ends;
    for loops in silos {
        ends = note_ends(ends, &loops);
        operator.take_back(loops);
    }
    ends
}
