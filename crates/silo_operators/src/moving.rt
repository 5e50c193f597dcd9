//! Queues that go to agents on other silos.
ghost use Rattle.std.specs.Prelude.{◌≡◌, ◌≢◌, length, IfErr, OnOk};
ghost use Rattle.silo_loops.specs.Silos.{GoOn, LineGoesOn};
ghost use Rattle.silo_operators.specs.Changes.{HaveMoved, HaveOnlySeen, HaveStayed, IsAtSilo, IsUnmoved, LineHasOnlySeen, StaysBehind, moved_of};

use crate::halt::Halt;
use shared_partition::{Gate, QueueHistory};
use silo_loops::{Assigned, Doorbell, Line};
use std::alloc::Global;
use std::sync::{Arc, Wait};
use step_core::{Answer, Reply};
use stream_model::Op;

// The queue goes to an agent on another silo, where it is another. Each agent is told before the doorbell is rung
// for the last time.
fn move_queue<G: Gate, H: QueueHistory, R: Wait>(
    rt: &R,
    alloc: Global,
    doorbell: &Doorbell,
    agents: &Vec<Arc<Assigned, Global>>,
    line: &mut Line<G, H>,
    queue: usize,
    from: u8,
    to: u8,
) -> Result<(), Halt>
    ensures kept { LineGoesOn line.old line.new × LineHasOnlySeen line.old line.new }
    ensures moved { OnOk result (IsAtSilo from to line.old line.new) }
    ensures unmoved { IfErr result (λ why. to ≢ from × IsUnmoved why to line.old line.new) }
{
    if from == to {
        return Ok(());
    }
    let answer = line.call(rt, alloc, doorbell, Op::Move { silo: to })?;
    match moved_of(&answer) {
        Some(generation) => {
            tell(agents, queue, from, to, generation);
            doorbell.moved(rt, queue, to);
            Ok(())
        }
        None => Err(Halt::Limit),
    }
}

// The generation under which an agent has the queue, where the answer says that it was moved.
fn moved_of(answer: &Answer) -> Option<u64>
    ensures { result ≡ moved_of answer.now }
{
    match *answer.outcome() {
        Reply::Moved { generation, low: _ } => Some(generation),
        _ => None,
    }
}

// Tells the agent of one silo that it hasn't the queue any more, and that of another that it has.
fn tell(agents: &Vec<Arc<Assigned, Global>>, queue: usize, from: u8, to: u8, generation: u64) {
    if let Some(old) = agents.get(from as usize) {
        old.take_away(queue);
    }
    if let Some(new) = agents.get(to as usize) {
        new.assign(queue, generation);
    }
}

/// Moves each queue that is to have another silo, and no other.
///
/// # Errors
/// A move was refused. Those before it stand.
pub(crate) fn spread<G: Gate, H: QueueHistory, R: Wait>(
    rt: &R,
    alloc: Global,
    doorbell: &Doorbell,
    agents: &Vec<Arc<Assigned, Global>>,
    lines: &mut Vec<Line<G, H>>,
    old: &[u8],
    new: &[u8],
) -> Result<(), Halt>
    requires old { length old.now ≡ length lines.old.items }
    requires new { length new.now ≡ length lines.old.items }
    ensures on { GoOn lines.old.items lines.new.items }
    ensures seen { HaveOnlySeen lines.old.items lines.new.items }
    ensures moved { OnOk result (HaveMoved lines.old.items lines.new.items old.now new.now) }
    ensures stayed { OnOk result (HaveStayed lines.old.items lines.new.items old.now new.now) }
    ensures behind { IfErr result (λ why. StaysBehind why lines.old.items lines.new.items old.now new.now) }
{
    for queue in 0..lines.len() {
        let line = &mut lines[queue];
        move_queue(
            rt, alloc, doorbell, agents, line, queue, old[queue], new[queue],
        )?;
    }
    Ok(())
}
