//! What the operator of a cluster holds: passes of its own, the silos that live, and the silo of each queue.
ghost use Rattle.std.specs.Prelude.{◌≡◌, ◌<◌, [], ◌∷◌, ◌++◌, length, remove, replicate, Contains, Some, slice_get, OnErr, OnOk, IfErr, IfOk, MatchOption};
ghost use Rattle.queue_balancer.specs.Balance.{HasNoDoubles, IsBalanced};
ghost use Rattle.silo_loops.specs.Silos.{AreSilent, AreSplitOff, AreTakenIn, GoOn, HaveJoined, IsFresh, IsSilent, IsSiloAt};
ghost use Rattle.silo_operators.specs.Changes.{AreDeactivated, HasMade, HaveMoved, HaveOnlySeen, HaveMovedNowhere, HaveStayed, HoldsGrains, IsNoneLeft};
ghost use Rattle.silo_operators.specs.Operators.{HasOnlyGoneOn, HasSpread, IsUnspread, OperatorGoesOn};

use crate::halt::Halt;
use crate::leaving::evict;
use crate::moving::spread;
use queue_balancer::{RebalanceError, rebalance};
use shared_partition::{DirectoryHistory, Gate, QueueHistory};
use silo_loops::{Assigned, DirectoryLine, Doorbell, Line, SiloLoops, SiloTools};
use std::alloc::{AllocError, Global};
use std::marker::Model;
use std::sync::{Arc, Wait};
use stream_ident::MOST_SILOS;

/// What changes the silos of a cluster.
pub struct Operator<G: Gate, H: QueueHistory, D: DirectoryHistory> {
    gate: Arc<G, Global>,
    doorbell: Arc<Doorbell, Global>,
    // what the agent of each silo is told, whether the silo lives or not
    agents: Vec<Arc<Assigned, Global>>,
    lines: Vec<Line<G, H>>,
    directory: DirectoryLine<D>,
    live: Vec<u8>,
    assignment: Vec<u8>,
}

impl<G: Gate + Drop, H: QueueHistory + Drop, D: DirectoryHistory + Drop> Drop
    for Operator<G, H, D> {
    fn drop(self) {
        let Self {
            gate: _,
            doorbell: _,
            agents: _,
            lines: _,
            directory: _,
            live: _,
            assignment: _,
        } = self;
    }
}

impl<G: Gate, H: QueueHistory, D: DirectoryHistory> Model for Operator<G, H, D> {
    ghost use Rattle.silo_operators.specs.Operators.{IsOperator, OperatorView};

    ghost Value = { OperatorView };

    ghost view = { λ o. record { lines = o.lines.items; directory = o.directory; live = o.live.items; assignment = o.assignment.items } };

    ghost invariant = { λ o. IsOperator (record { lines = o.lines.items; directory = o.directory; live = o.live.items; assignment = o.assignment.items }) };
}

// What the agent of each silo is told: it has no queue.
fn no_queues(alloc: Global, queues: usize) -> Result<Vec<Arc<Assigned, Global>>, AllocError> {
    let mut agents = Vec::with_capacity(alloc, usize::from(MOST_SILOS))?;
    for _ in 0..MOST_SILOS {
        agents.push(Arc::new(alloc, Assigned::new(alloc, queues)?)?)?;
    }
    Ok(agents)
}

// Spreads the queues over the silos that live.
fn spread_queues<G: Gate, H: QueueHistory, R: Wait>(
    rt: &R,
    alloc: Global,
    doorbell: &Doorbell,
    agents: &Vec<Arc<Assigned, Global>>,
    lines: &mut Vec<Line<G, H>>,
    live: &[u8],
    assignment: &mut Vec<u8>,
) -> Result<(), Halt>
    requires once { HasNoDoubles live.now }
    requires assigned { length assignment.old.items ≡ length lines.old.items }
    ensures assigned { length assignment.new.items ≡ length lines.new.items }
    ensures on { GoOn lines.old.items lines.new.items }
    ensures seen { HaveOnlySeen lines.old.items lines.new.items }
    ensures balanced { OnOk result (IsBalanced assignment.old.items live.now assignment.new.items) }
    ensures moved { OnOk result (HaveMoved lines.old.items lines.new.items assignment.old.items assignment.new.items) }
    ensures stayed { OnOk result (HaveStayed lines.old.items lines.new.items assignment.old.items assignment.new.items) }
    ensures kept { OnErr result (assignment.new.items ≡ assignment.old.items) }
    ensures unspread { IfErr result (λ why. IsUnspread why assignment.old.items live.now lines.old.items lines.new.items) }
{
    let new = match rebalance(alloc, assignment.as_slice(), live) {
        Ok(new) => new.into_vec(),
        Err(RebalanceError::NoSilo) => return Err(Halt::Limit),
        Err(RebalanceError::Memory(_)) => return Err(Halt::Memory),
    };
    spread(
        rt,
        alloc,
        doorbell,
        agents,
        lines,
        assignment.as_slice(),
        new.as_slice(),
    )?;
    *assignment = new;
    Ok(())
}

impl<G: Gate, H: QueueHistory, D: DirectoryHistory> Operator<G, H, D> {
    /// An operator of a cluster in which no silo lives, and each queue is on silo 0.
    ///
    /// # Errors
    /// The call failed to allocate.
    pub fn new(
        alloc: Global,
        gate: Arc<G, Global>,
        doorbell: Arc<Doorbell, Global>,
        lines: Vec<Line<G, H>>,
        directory: DirectoryLine<D>,
    ) -> Result<Operator<G, H, D>, AllocError>
        requires some { 0 < length lines.items }
        ensures { IfOk result (λ operator. operator ≡ record { lines = lines.items; directory = directory; live = []; assignment = replicate (length lines.items) 0 }) }
    {
        let queues = lines.len();
        let agents = no_queues(alloc, queues)?;
        let assignment = vec![in alloc; 0; queues]?;
        if let Some(first) = agents.first() {
            for queue in 0..queues {
                first.assign(queue, 0);
            }
        }
        Ok(Operator {
            gate,
            doorbell,
            agents,
            lines,
            directory,
            live: Vec::new(alloc),
            assignment,
        })
    }

    /// The doorbell, and the operator's passes of the queues.
    pub fn into_lines(self) -> (Arc<Doorbell, Global>, Vec<Line<G, H>>)
        ensures { result.1.items ≡ self.lines }
    {
        let Operator {
            gate: _gate,
            doorbell,
            agents: _agents,
            lines,
            directory: _directory,
            live: _live,
            assignment: _assignment,
        } = self;
        (doorbell, lines)
    }

    /// The doorbell at which all loops wait.
    pub fn doorbell(&self) -> &Doorbell {
        &self.doorbell
    }

    /// How many silos live.
    pub fn live_count(&self) -> usize
        ensures { result ≡ length self.now.live }
    {
        self.live.len()
    }

    /// At which place among the silos that live this one stands, where it lives.
    pub fn place_of(&self, silo: u8) -> Option<usize>
        ensures { MatchOption result (¬ Contains self.now.live silo) (λ at. slice_get self.now.live at ≡ Some silo) }
    {
        self.live.iter().position(|live| *live == silo)
    }

    /// The silo lives from now on. It didn't before.
    ///
    /// # Errors
    /// The call failed to allocate, and nothing changes.
    pub fn enlist(&mut self, silo: u8) -> Result<(), AllocError>
        requires { ¬ Contains self.old.live silo }
        ensures ok { OnOk result (self.new ≡ record self.old { live = self.old.live ++ silo ∷ [] }) }
        ensures err { OnErr result (self.new ≡ self.old) }
    {
        self.live.push(silo)?;
        Ok(())
    }

    /// The silo at this place lives no more.
    pub fn dismiss(&mut self, at: usize)
        requires { at < length self.old.live }
        ensures { self.new ≡ record self.old { live = remove self.old.live at } }
    {
        self.live.remove(at);
    }

    // What the loops of a silo go by.
    fn tools(&self, silo: u8, rounds: u64) -> Result<SiloTools<G>, AllocError>
        ensures { IfOk result (λ tools. tools.rounds ≡ rounds) }
    {
        let Some(agent) = self.agents.get(silo as usize) else {
            return Err(AllocError);
        };
        Ok(SiloTools {
            gate: Arc::try_clone(&self.gate)?,
            doorbell: Arc::try_clone(&self.doorbell)?,
            assigned: Arc::try_clone(agent)?,
            rounds,
        })
    }

    /// The loops of a silo, which have done nothing yet, and may begin so many rounds each. Their passes are split off
    /// from the operator's, and the operator is as before.
    ///
    /// # Errors
    /// The call failed to allocate. Each pass that was split off is joined back.
    pub fn make_loops(
        &mut self,
        alloc: Global,
        silo: u8,
        rounds: u64,
    ) -> Result<SiloLoops<G, H, D>, AllocError>
        ensures same { OnOk result (self.new ≡ self.old) }
        ensures only { HasOnlyGoneOn self.old self.new }
        ensures silent { IsSilent self.old.directory self.new.directory }
        ensures split { IfOk result (λ loops. AreSplitOff self.old.lines self.old.directory loops) }
        ensures fresh { IfOk result (λ loops. IsFresh rounds silo loops) }
        ensures at { IfOk result (λ loops. IsSiloAt self.new.lines self.new.directory loops) }
    {
        let tools = self.tools(silo, rounds)?;
        SiloLoops::new(alloc, silo, &tools, &mut self.lines, &mut self.directory)
    }

    /// Takes the passes of a silo's loops back.
    pub fn take_back(&mut self, loops: SiloLoops<G, H, D>)
        requires { IsSiloAt self.old.lines self.old.directory loops }
        ensures only { HasOnlyGoneOn self.old self.new }
        ensures silent { IsSilent self.old.directory self.new.directory }
        ensures silent_lines { AreSilent self.old.lines self.new.lines }
        ensures joined { HaveJoined loops self.old.lines self.old.directory self.new.lines self.new.directory }
        ensures taken { AreTakenIn self.new.lines self.new.directory loops }
    {
        loops.join_into(&mut self.lines, &mut self.directory)
    }

    /// Spreads the queues over the silos that live. Each queue that is to have another silo is moved there, and no other.
    /// The operator's passes have only made calls.
    ///
    /// # Errors
    /// `Limit` where a history is full, a Move was answered `Spent`, or no silo lives, and `Memory` where the call
    /// failed to allocate. A queue that is to have another silo was then not moved, or nothing was done. What was
    /// answered by then stands, and each queue still counts for the silo that it had.
    pub fn spread<R: Wait>(&mut self, rt: &R, alloc: Global) -> Result<(), Halt>
        ensures on { OperatorGoesOn self.old self.new }
        ensures seen { HaveOnlySeen self.old.lines self.new.lines }
        ensures directory { self.new.directory ≡ self.old.directory }
        ensures live { self.new.live ≡ self.old.live }
        ensures spread { OnOk result (HasSpread self.old self.new) }
        ensures stayed { OnOk result (HaveStayed self.old.lines self.new.lines self.old.assignment self.new.assignment) }
        ensures kept { OnErr result (self.new.assignment ≡ self.old.assignment) }
        ensures unspread { IfErr result (λ why. IsUnspread why self.old.assignment self.old.live self.old.lines self.new.lines) }
    {
        spread_queues(
            rt,
            alloc,
            &self.doorbell,
            &self.agents,
            &mut self.lines,
            self.live.as_slice(),
            &mut self.assignment,
        )
    }

    /// Takes each grain of a silo from the directory, and deactivates it at each queue.
    ///
    /// # Errors
    /// `Limit` where a history is full, and `Memory` where the call failed to allocate. The directory wasn't found
    /// without a grain of the silo then. What was answered by then stands.
    pub fn evict<R: Wait>(&mut self, rt: &R, alloc: Global, silo: u8) -> Result<(), Halt>
        ensures only { HasOnlyGoneOn self.old self.new }
        ensures nowhere { OnOk result (HaveMovedNowhere self.old.lines self.new.lines) }
        ensures deactivated { OnOk result (AreDeactivated silo self.old.directory self.new.directory self.old.lines self.new.lines) }
        ensures none_left { OnOk result (HasMade (length self.old.directory.seen) self.new.directory (IsNoneLeft silo)) }
        ensures holds { IfErr result (λ why. HoldsGrains why silo self.old.directory self.new.directory self.new.lines) }
    {
        evict(
            rt,
            alloc,
            &self.doorbell,
            &mut self.lines,
            &mut self.directory,
            silo,
        )
    }
}
