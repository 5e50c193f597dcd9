//! The loops of a silo.
ghost use Rattle.std.specs.Prelude.{◌≡◌, ◌<◌, length, IfOk, OnOk};
ghost use Rattle.turnstile.specs.Calls.{joined_pass};
ghost use Rattle.std.specs.List.{AllZip};
ghost use Rattle.silo_loops.specs.Passes.{IsOtherIn};
ghost use Rattle.silo_loops.specs.Silos.{AreSilent, AreSplitOff, AreTakenIn, GoOn, HasTakenIn, HaveJoined, IsAgentAt, IsFresh, IsFreshAgent, IsFreshWorker, IsSilent, IsSiloAt, IsSplitLine, IsSplitWorker, IsWorkerAt, joined_lines};

use crate::crew::lines::{join_lines, split_lines};
use crate::{AgentLoop, Assigned, DirectoryLine, Doorbell, Line, TurnRoom, WorkerLoop};
use shared_partition::{DirectoryHistory, Gate, QueueHistory};
use std::alloc::{AllocError, Global};
use std::marker::Model;
use std::sync::Arc;

/// What the loops of a silo go by: the gate, the doorbell, the queues that are assigned to its agent, and how many rounds
/// each of them may begin.
#[derive(Drop)]
pub struct SiloTools<G> {
    /// What handles the events.
    pub gate: Arc<G, Global>,
    /// Where the loops wait.
    pub doorbell: Arc<Doorbell, Global>,
    /// The queues of the agent.
    pub assigned: Arc<Assigned, Global>,
    /// How many rounds each loop may begin.
    pub rounds: u64,
}

impl<G: Drop> SiloTools<G> {
    /// The same tools once more.
    ///
    /// # Errors
    /// The call failed to allocate.
    pub fn try_clone(&self) -> Result<SiloTools<G>, AllocError> {
        Ok(SiloTools {
            gate: Arc::try_clone(&self.gate)?,
            doorbell: Arc::try_clone(&self.doorbell)?,
            assigned: Arc::try_clone(&self.assigned)?,
            rounds: self.rounds,
        })
    }
}

/// The three loops of a silo: its agent and two turn workers, each with passes of its own.
///
/// A contract sees the silo and its loops.
#[derive(Drop)]
pub struct SiloLoops<G: Gate, H: QueueHistory, D: DirectoryHistory> {
    /// The silo, a number.
    pub silo: u8,
    /// The loop of its agent.
    pub agent: AgentLoop<G, H>,
    /// The loop of its first turn worker.
    pub first: WorkerLoop<G, H, D>,
    /// The loop of its second turn worker.
    pub second: WorkerLoop<G, H, D>,
}

impl<G: Gate, H: QueueHistory, D: DirectoryHistory> Model for SiloLoops<G, H, D> {
    ghost use Rattle.silo_loops.specs.Silos.{SiloView};

    ghost Value = { SiloView };

    ghost view = { λ s. record { silo = s.silo; agent = s.agent; first = s.first; second = s.second } };
}

// An agent with passes that are split off.
fn make_agent<G: Gate, H: QueueHistory>(
    alloc: Global,
    silo: u8,
    tools: &SiloTools<G>,
    lines: &mut Vec<Line<G, H>>,
) -> Result<AgentLoop<G, H>, AllocError>
    ensures same { OnOk result (lines.new.items ≡ lines.old.items) }
    ensures go_on { GoOn lines.old.items lines.new.items }
    ensures split { IfOk result (λ agent. AllZip IsSplitLine lines.old.items agent.lines) }
    ensures fresh { IfOk result (λ agent. IsFreshAgent tools.now.rounds agent × IsAgentAt lines.new.items agent) }
{
    let kit = tools.try_clone()?;
    let own = split_lines(alloc, lines)?;
    match AgentLoop::new(alloc, silo, kit.doorbell, kit.assigned, own, tools.rounds) {
        Ok(agent) => Ok(agent),
        Err(own) => {
            join_lines(lines, own);
            Err(AllocError)
        }
    }
}

// A worker with passes that are split off.
fn make_worker<G: Gate, H: QueueHistory, D: DirectoryHistory>(
    alloc: Global,
    silo: u8,
    tools: &SiloTools<G>,
    lines: &mut Vec<Line<G, H>>,
    directory: &mut DirectoryLine<D>,
) -> Result<WorkerLoop<G, H, D>, AllocError>
    requires some { 0 < length lines.old.items }
    ensures same { OnOk result ((lines.new.items ≡ lines.old.items) × (directory.new ≡ directory.old)) }
    ensures go_on { GoOn lines.old.items lines.new.items }
    ensures directory { IsSilent directory.old directory.new }
    ensures split { IfOk result (λ worker. IsSplitWorker lines.old.items directory.old worker) }
    ensures fresh { IfOk result (λ worker. IsFreshWorker tools.now.rounds silo worker × IsWorkerAt lines.new.items directory.new worker) }
{
    let rounds = tools.rounds;
    let kit = tools.try_clone()?;
    let room = TurnRoom::new(alloc)?;
    let own = split_lines(alloc, lines)?;
    match directory.split() {
        Ok(line) => Ok(WorkerLoop::new(silo, kit.gate, kit.doorbell, own, line, room, rounds)),
        Err(error) => {
            join_lines(lines, own);
            Err(error)
        }
    }
}

// Takes back the passes of an agent.
fn join_agent<G: Gate, H: QueueHistory>(lines: &mut Vec<Line<G, H>>, agent: AgentLoop<G, H>)
    requires { IsAgentAt lines.old.items agent }
    ensures go_on { GoOn lines.old.items lines.new.items }
    ensures silent { AreSilent lines.old.items lines.new.items }
    ensures joined { lines.new.items ≡ joined_lines lines.old.items agent.lines }
    ensures taken { AllZip HasTakenIn lines.new.items agent.lines }
{
    join_lines(lines, agent.into_lines());
}

// Takes back the passes of a worker.
fn join_worker<G: Gate, H: QueueHistory, D: DirectoryHistory>(
    lines: &mut Vec<Line<G, H>>,
    directory: &mut DirectoryLine<D>,
    worker: WorkerLoop<G, H, D>,
)
    requires { IsWorkerAt lines.old.items directory.old worker }
    ensures go_on { GoOn lines.old.items lines.new.items }
    ensures silent { AreSilent lines.old.items lines.new.items }
    ensures directory { IsSilent directory.old directory.new }
    ensures joined { lines.new.items ≡ joined_lines lines.old.items worker.lines }
    ensures joined_directory { directory.new ≡ joined_pass directory.old worker.directory }
    ensures taken { AllZip HasTakenIn lines.new.items worker.lines }
    ensures asks { IsOtherIn worker.directory directory.new }
{
    let (own, line) = worker.into_parts();
    join_lines(lines, own);
    directory.join(line);
}

// Two workers of a silo.
fn make_workers<G: Gate, H: QueueHistory, D: DirectoryHistory>(
    alloc: Global,
    silo: u8,
    tools: &SiloTools<G>,
    lines: &mut Vec<Line<G, H>>,
    directory: &mut DirectoryLine<D>,
) -> Result<(WorkerLoop<G, H, D>, WorkerLoop<G, H, D>), AllocError>
    requires some { 0 < length lines.old.items }
    ensures same { OnOk result ((lines.new.items ≡ lines.old.items) × (directory.new ≡ directory.old)) }
    ensures go_on { GoOn lines.old.items lines.new.items }
    ensures directory { IsSilent directory.old directory.new }
    ensures split { IfOk result (λ r. IsSplitWorker lines.old.items directory.old r.0 × IsSplitWorker lines.old.items directory.old r.1) }
    ensures first { IfOk result (λ r. IsFreshWorker tools.now.rounds silo r.0 × IsWorkerAt lines.new.items directory.new r.0) }
    ensures second { IfOk result (λ r. IsFreshWorker tools.now.rounds silo r.1 × IsWorkerAt lines.new.items directory.new r.1) }
{
    let first = make_worker(alloc, silo, tools, lines, directory)?;
    match make_worker(alloc, silo, tools, lines, directory) {
        Ok(second) => Ok((first, second)),
        Err(error) => {
            join_worker(lines, directory, first);
            Err(error)
        }
    }
}

impl<G: Gate, H: QueueHistory, D: DirectoryHistory> SiloLoops<G, H, D> {
    /// The loops of a silo, which have done nothing yet, with passes that are split off from these. These are then as
    /// before: no pass was joined to them.
    ///
    /// # Errors
    /// The call failed to allocate, or a turnstile has no number for another pass. Each pass that was split off
    /// is joined back.
    pub fn new(
        alloc: Global,
        silo: u8,
        tools: &SiloTools<G>,
        lines: &mut Vec<Line<G, H>>,
        directory: &mut DirectoryLine<D>,
    ) -> Result<SiloLoops<G, H, D>, AllocError>
        requires some { 0 < length lines.old.items }
        ensures same { OnOk result ((lines.new.items ≡ lines.old.items) × (directory.new ≡ directory.old)) }
        ensures go_on { GoOn lines.old.items lines.new.items }
        ensures directory { IsSilent directory.old directory.new }
        ensures split { IfOk result (λ loops. AreSplitOff lines.old.items directory.old loops) }
        ensures fresh { IfOk result (λ loops. IsFresh tools.now.rounds silo loops) }
        ensures at { IfOk result (λ loops. IsSiloAt lines.new.items directory.new loops) }
    {
        let (first, second) = make_workers(alloc, silo, tools, lines, directory)?;
        match make_agent(alloc, silo, tools, lines) {
            Ok(agent) => Ok(SiloLoops {
                silo,
                agent,
                first,
                second,
            }),
            Err(error) => {
                join_worker(lines, directory, first);
                join_worker(lines, directory, second);
                Err(error)
            }
        }
    }

    /// Takes the passes of all loops into these, at the same turnstiles. It takes no memory.
    pub fn join_into(self, lines: &mut Vec<Line<G, H>>, directory: &mut DirectoryLine<D>)
        requires { IsSiloAt lines.old.items directory.old self }
        ensures go_on { GoOn lines.old.items lines.new.items }
        ensures silent { AreSilent lines.old.items lines.new.items }
        ensures directory { IsSilent directory.old directory.new }
        ensures joined { HaveJoined self lines.old.items directory.old lines.new.items directory.new }
        ensures taken { AreTakenIn lines.new.items directory.new self }
    {
        let SiloLoops {
            silo: _,
            agent,
            first,
            second,
        } = self;
        join_agent(lines, agent);
        join_worker(lines, directory, first);
        join_worker(lines, directory, second);
    }
}
