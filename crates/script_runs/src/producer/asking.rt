//! What a line of a script asks for at the queues.
ghost use Rattle.std.specs.Prelude.{◌≡◌, ◌<◌, ◌≤◌, length, true, IfOk};
ghost use Rattle.std.specs.List.{AllZip};
ghost use Rattle.stream_model.specs.Producers.{is_producer};
ghost use Rattle.queue_callers.specs.Calls.{turnstiles};
ghost use Rattle.queue_callers.specs.Draining.{HasGoneOn};
ghost use Rattle.stream_script.specs.declared.parser.command.Command.TheVariants as command;
ghost use Rattle.stream_script.specs.Forms.{op_of};
ghost use Rattle.script_runs.specs.Telling.{AsksEachOnce, AsksOnce, EndsAsking, TellsUnlessLimit};

use crate::producer::answer::{Answer, answer_of};
use shared_partition::{Gate, QueueHistory};
use silo_threads::Caller;
use std::alloc::{AllocError, Global};
use std::sync::Wait;
use stream_model::Op;
use stream_script::EachOp;
use turnstile::Refusal;

/// Asks for an operation of a producer at a queue.
///
/// # Errors
/// The call failed to allocate. The partition is as before.
pub fn ask<G: Gate, H: QueueHistory, R: Wait>(
    rt: &R,
    alloc: Global,
    caller: &mut Caller<G, H>,
    queue: usize,
    op: Op,
) -> Result<Answer, AllocError>
    requires queue { queue < length caller.old }
    requires producer { is_producer op ≡ true }
    ensures told { IfOk result (λ answer. TellsUnlessLimit caller.old (command.Step queue op) answer caller.new) }
    ensures asks { AsksOnce caller.old queue op result caller.new }
    ensures on { AllZip HasGoneOn caller.old caller.new }
    ensures turnstiles { turnstiles caller.new ≡ turnstiles caller.old }
{
    ask_once(rt, alloc, caller, queue, op)
}

/// Asks for an operation of a producer at each queue, once and in order. The answer is that of the first queue: a rule is there
/// in each queue or in none. Where a queue answers that a limit is reached, so is the answer, and the queues behind it
/// aren't asked.
///
/// # Errors
/// A call failed to allocate. The queues before it were asked.
pub fn ask_each<G: Gate, H: QueueHistory, R: Wait>(
    rt: &R,
    alloc: Global,
    caller: &mut Caller<G, H>,
    each: &EachOp,
) -> Result<Answer, AllocError>
    requires some { 1 ≤ length caller.old }
    requires producer { is_producer (op_of each.now) ≡ true }
    ensures told { IfOk result (λ answer. TellsUnlessLimit caller.old (command.Each each.now) answer caller.new) }
    ensures once { AsksEachOnce caller.old (op_of each.now) result caller.new }
    ensures ends { EndsAsking caller.old (op_of each.now) result caller.new }
    ensures on { AllZip HasGoneOn caller.old caller.new }
    ensures turnstiles { turnstiles caller.new ≡ turnstiles caller.old }
{
    let mut first = Answer::Taken;
    for queue in 0..caller.queues() {
        let answer = ask_once(rt, alloc, caller, queue, each.op())?;
        if answer == Answer::Limit {
            return Ok(Answer::Limit);
        }
        if queue == 0 {
            first = answer;
        }
    }
    Ok(first)
}

// One call at a queue, and what its reply answers.
fn ask_once<G: Gate, H: QueueHistory, R: Wait>(
    rt: &R,
    alloc: Global,
    caller: &mut Caller<G, H>,
    queue: usize,
    op: Op,
) -> Result<Answer, AllocError>
    requires { queue < length caller.old }
    ensures asks { AsksOnce caller.old queue op result caller.new }
    ensures turnstiles { turnstiles caller.new ≡ turnstiles caller.old }
{
    match caller.ask(rt, alloc, queue, op, &mut Vec::new(alloc)) {
        Ok(reply) => Ok(answer_of(&reply)),
        Err(Refusal::HistoryFull) => Ok(Answer::Limit),
        Err(Refusal::Memory) => Err(AllocError),
    }
}
