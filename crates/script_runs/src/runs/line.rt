//! One line of a script.
ghost use Rattle.std.specs.Prelude.{◌≡◌, ◌≤◌, length, IfErr, OnOk};
ghost use Rattle.std.specs.List.{AllZip};
ghost use Rattle.queue_callers.specs.Calls.{turnstiles};
ghost use Rattle.queue_callers.specs.Draining.{HasGoneOn, LooksQuiet};
ghost use Rattle.stream_script.specs.declared.parser.command.Command.TheVariants as command;
ghost use Rattle.script_runs.specs.declared.producer.answer.Answer.TheVariants as answer;
ghost use Rattle.script_runs.specs.Telling.{Tells};
ghost use Rattle.script_runs.specs.Scripts.{IsRunCommand};
ghost use Rattle.script_runs.specs.Lines.{EndsLine, IsUnquiet, came_up, stop_by, unless_limit, went_down};

use crate::producer::{Answer, ask, ask_each};
use shared_partition::{DirectoryHistory, Gate, QueueHistory};
use silo_loops::{LoopEnd, Over};
use silo_threads::{Caller, Cluster, Drained, SiloDown, SiloUp, drain};
use std::alloc::{AllocError, Global};
use std::sync::Wait;
use std::thread::Threads;
use stream_script::Command;

/// Why a script isn't done to its end.
#[derive(Clone, Copy, Debug, PartialEq, Eq)]
pub(crate) enum Stop {
    /// A limit is reached.
    Limit,
    /// In as many looks as there may be not all queues were quiet.
    NotQuiet,
    /// A loop has made as many rounds as it may, and not all queues were quiet.
    RoundLimit,
    /// A call or a loop failed to allocate.
    Memory,
}

/// Does one line of a script. A drain is done once each queue was quiet in one look. A line that is stopped may be done
/// in part.
pub(crate) fn do_line<
    G: Gate + 'static,
    H: QueueHistory + Send + 'static,
    D: DirectoryHistory + Send + 'static,
    R: Threads + Wait + Copy + Send + 'static,
>(
    rt: &R,
    alloc: Global,
    cluster: &mut Cluster<G, H, D>,
    caller: &mut Caller<G, H>,
    command: Command,
) -> Result<Answer, Stop>
    requires some { 1 ≤ length caller.old }
    requires command { IsRunCommand (length caller.old) command }
    ensures { EndsLine cluster.old caller.old command result cluster.new caller.new }
{
    match command {
        Command::Step { queue, op } => unless_limit(ask(rt, alloc, caller, queue, op)),
        Command::Each(each) => unless_limit(ask_each(rt, alloc, caller, &each)),
        Command::Drain => {
            wait_until_quiet(rt, alloc, caller, cluster.looks())?;
            Ok(Answer::Taken)
        }
        Command::Up { silo } => came_up(cluster.silo_up(rt, alloc, silo)),
        Command::Down { silo } => went_down(cluster.silo_down(rt, alloc, silo)),
        Command::Report => Ok(Answer::Taken),
    }
}

// An answer that isn't a limit.
fn unless_limit(asked: Result<Answer, AllocError>) -> Result<Answer, Stop>
    ensures { result ≡ unless_limit asked }
{
    match asked {
        Ok(Answer::Limit) => Err(Stop::Limit),
        Ok(taken) => Ok(taken),
        Err(_) => Err(Stop::Memory),
    }
}

// How a line ends by which a silo was to come.
fn came_up(up: Result<SiloUp, AllocError>) -> Result<Answer, Stop>
    ensures { result ≡ came_up up }
{
    match up {
        Ok(SiloUp::Up) => Ok(Answer::Taken),
        Ok(SiloUp::Already) => Ok(Answer::Refused),
        Ok(SiloUp::Limit) => Err(Stop::Limit),
        Ok(SiloUp::Halted) => Err(Stop::Limit),
        Err(_) => Err(Stop::Memory),
    }
}

// How a line ends by which a silo was to go.
fn went_down(down: Result<SiloDown, AllocError>) -> Result<Answer, Stop>
    ensures { result ≡ went_down down }
{
    match down {
        Ok(SiloDown::Down) => Ok(Answer::Taken),
        Ok(SiloDown::NotLive) => Ok(Answer::Refused),
        Ok(SiloDown::LastSilo) => Ok(Answer::Refused),
        Ok(SiloDown::Limit) => Err(Stop::Limit),
        Ok(SiloDown::Halted) => Err(Stop::Limit),
        Err(_) => Err(Stop::Memory),
    }
}

/// Waits until all queues are quiet.
#[tactic(auto, using(crate::proofs::Drains::drain_tells, crate::proofs::Drains::ended_unquiet))]
pub(crate) fn wait_until_quiet<G: Gate, H: QueueHistory, R: Wait>(
    rt: &R,
    alloc: Global,
    caller: &mut Caller<G, H>,
    looks: u32,
) -> Result<(), Stop>
    ensures told { Tells caller.old command.Drain answer.Taken caller.new }
    ensures quiet { OnOk result (LooksQuiet looks caller.old caller.new) }
    ensures unquiet { IfErr result (λ why. IsUnquiet why looks caller.old caller.new) }
    ensures on { AllZip HasGoneOn caller.old caller.new }
    ensures turnstiles { turnstiles caller.new ≡ turnstiles caller.old }
{
    match drain(rt, alloc, caller, looks) {
        Ok(Drained::Quiet) => Ok(()),
        Ok(Drained::NotQuiet) => Err(Stop::NotQuiet),
        Ok(Drained::Ended) => Err(stop_by(caller.doorbell().loop_end(rt))),
        Ok(Drained::Limit) => Err(Stop::Limit),
        Err(_) => Err(Stop::Memory),
    }
}

// Why a line is stopped where a queue may never get quiet, by the first end of a loop.
fn stop_by(end: Option<LoopEnd>) -> Stop
    ensures { result ≡ stop_by end }
{
    let Some(end) = end else {
        return Stop::Limit;
    };
    match end.over {
        Over::Rounds => Stop::RoundLimit,
        Over::Limit => Stop::Limit,
        Over::Memory => Stop::Memory,
    }
}
