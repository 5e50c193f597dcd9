//! Which module does each operation.
//!
//! A function clears the room of each of its values when it is entered, and what an operation comes to takes some 360
//! bytes. So no operation is written out in its caller, and those that take no memory have a function of their own.
ghost use Rattle.std.specs.Prelude.{◌≡◌, true, IfOk, OnErr};
ghost use Rattle.stream_ident.specs.Words.{Performs};
ghost use Rattle.stream_model.specs.Memory.{may_allocate};
ghost use Rattle.stream_model.specs.Step.{step};
ghost use Rattle.step_core.specs.Assembly.{Agrees, IsAssembled};
ghost use Rattle.step_core.specs.Kinds.{IsFree};
ghost use Rattle.step_core.specs.PlainOf.{plain_of};
ghost use Rattle.step_core.specs.Replied.{answered, reply_with, IsOfLog};

use crate::acknowledging::{ack, retry};
use crate::delivering::deliver;
use crate::looking::{due, quiet, ready};
use crate::moving::{move_queue, purge};
use crate::outcome::Outcome;
use crate::parts::Parts;
use crate::publishing::{add_rule, publish, subscribe, unsubscribe};
use crate::pulling::pull;
use crate::turns::{begin, commit, deactivate};
use std::alloc::{AllocError, Global};
use stream_model::Op;

/// Does one operation on the parts of a partition.
#[inline(never)]
pub(crate) fn step(parts: &mut Parts, alloc: Global, op: &Op) -> Result<Outcome, AllocError>
    requires { Agrees parts.old }
    ensures assembled { IsAssembled parts.new }
    ensures performs { Performs (plain_of parts.old) (plain_of parts.new) (answered parts.new.queue.events result) (step (plain_of parts.old) op.now) }
    ensures of_log { IfOk result (IsOfLog parts.new.queue.events) }
    ensures memory { OnErr result (may_allocate (plain_of parts.old) op.now ≡ true) }
{
    match op {
        Op::Publish { stream, payloads } => publish(parts, alloc, stream, payloads),
        Op::Subscribe {
            stream,
            grain,
            start,
        } => subscribe(parts, alloc, stream, grain, *start),
        Op::AddRule { kind, namespace } => add_rule(parts, alloc, *kind, *namespace),
        Op::Pull { generation, max } => pull(parts, alloc, *generation, *max),
        Op::Deliver { generation, sub } => deliver(parts, alloc, *generation, sub),
        Op::Commit {
            grain,
            activation,
            turn,
            note,
        } => commit(parts, alloc, grain, *activation, *turn, *note),
        _ => Ok(tell(parts, op)),
    }
}

/// Does an operation that takes no memory.
#[inline(never)]
fn tell(parts: &mut Parts, op: &Op) -> Outcome
    requires agrees { Agrees parts.old }
    requires free { IsFree op.now }
    ensures assembled { IsAssembled parts.new }
    ensures performs { (plain_of parts.new, reply_with parts.new.queue.events result) ≡ step (plain_of parts.old) op.now }
    ensures of_log { IsOfLog parts.new.queue.events result }
{
    match op {
        Op::Unsubscribe { sub } => unsubscribe(parts, sub),
        Op::Retry { generation, sub } => retry(parts, *generation, sub),
        Op::Ack {
            generation,
            sub,
            token,
        } => ack(parts, *generation, sub, *token),
        Op::Begin { grain, max } => begin(parts, grain, *max),
        Op::Purge { generation, keep } => purge(parts, *generation, *keep),
        Op::Deactivate { grain } => deactivate(parts, grain),
        Op::Move { silo } => move_queue(parts, *silo),
        Op::Ready { after } => ready(parts, *after),
        Op::Due { after } => due(parts, *after),
        Op::Quiet => quiet(parts),
        _ => unreachable!(),
    }
}
