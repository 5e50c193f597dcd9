//! Histories: long lists of operations, each from a seed.
ghost use Rattle.std.specs.Prelude.{◌≤◌};
ghost use Rattle.stream_model.specs.Bounds.{AreLimits};

use crate::draws::{Draws, Idle, batch};
use crate::fault::Fault;
use crate::heard::Heard;
use crate::names::Names;
use crate::options::Plan;
use crate::side_by_side::SideBySide;
use crate::tally::Tally;
use std::alloc::{AllocError, Global};
use step_core::{DrainEnd, Limits, Op, Reply, Start};

/// How many operations a round has.
const ROUND: usize = 8;

/// How many drains end a history at most: each that is stuck names one of the four grains.
const DRAINS: usize = 5;

/// Compares one history after another, and counts the replies.
///
/// # Errors
/// There is a difference, or the call failed to allocate.
pub fn compare(alloc: Global, plan: Plan) -> Result<Tally, Fault> {
    let mut tally = Tally::new(alloc)?;
    see_difference(alloc)?;
    for run in 0..plan.runs {
        let seed = plan.seed.wrapping_add(run);
        let rounds = plan.rounds;
        compare_history(alloc, Like { seed, more: 0 }, rounds, &mut tally)?;
    }
    Ok(tally)
}

/// Sees that a difference is told by each comparison alone.
fn see_difference(alloc: Global) -> Result<(), Fault> {
    is_told(reply_beside_larger_cache(alloc))?;
    is_told(look_past_plain(alloc))?;
    is_told(drain_past_plain(alloc))?;
    is_told(reply_past_twin(alloc))?;
    is_told(drain_past_twin(alloc))
}

/// What was compared so has to have ended with a difference.
fn is_told(ended: Result<(), Fault>) -> Result<(), Fault> {
    match ended {
        Err(Fault::Different(_)) => Ok(()),
        Err(fault) => Err(fault),
        Ok(()) => Err(Fault::Untold),
    }
}

/// The rounds of a short history, without its end, beside a plain program with a block more.
fn reply_beside_larger_cache(alloc: Global) -> Result<(), Fault> {
    let mut tally = Tally::new(alloc)?;
    begin(alloc, Like { seed: 3, more: 1 })?.go_through(64, &mut tally)
}

/// The looks after an operation that the plain program isn't given.
fn look_past_plain(alloc: Global) -> Result<(), Fault> {
    let mut both = both(alloc, Like { seed: 3, more: 0 })?;
    both.step_without_plain(&Op::Move { silo: 1 })?;
    both.compare_looks()
}

/// A drain after an event that the plain program isn't given.
fn drain_past_plain(alloc: Global) -> Result<(), Fault> {
    let names = Names::new()?;
    let subscribe = Op::Subscribe {
        stream: names.streams[0],
        grain: names.grains[0],
        start: Start::Latest,
    };
    let publish = Op::Publish {
        stream: names.streams[0],
        payloads: batch(alloc, &names.payloads, 1)?,
    };
    let mut both = both(alloc, Like { seed: 3, more: 0 })?;
    both.step(&subscribe)?;
    both.step_without_plain(&publish)?;
    both.drain()?;
    Ok(())
}

/// A reply after an operation that the twin isn't given.
fn reply_past_twin(alloc: Global) -> Result<(), Fault> {
    let mut both = both(alloc, Like { seed: 3, more: 0 })?;
    both.step_without_twin(&Op::Move { silo: 1 })?;
    both.step(&Op::Move { silo: 1 })?;
    Ok(())
}

/// A drain after an operation that the twin isn't given.
fn drain_past_twin(alloc: Global) -> Result<(), Fault> {
    let mut both = both(alloc, Like { seed: 3, more: 0 })?;
    both.step_without_twin(&Op::Move { silo: 1 })?;
    both.drain()?;
    Ok(())
}

/// Of which seed a history is, and by how many blocks the plain program has more.
#[derive(Clone, Copy)]
struct Like {
    seed: u64,
    more: usize,
}

/// Compares the history of a seed.
fn compare_history(alloc: Global, like: Like, rounds: u64, tally: &mut Tally) -> Result<(), Fault>
    requires { like.more ≤ 1 }
{
    let mut history = begin(alloc, like)?;
    history.go_through(rounds, tally)?;
    history.end(tally)
}

/// The history of a seed, before its first round.
fn begin(alloc: Global, like: Like) -> Result<History, Fault>
    requires { like.more ≤ 1 }
{
    let names = Names::new()?;
    let both = both(alloc, like)?;
    let heard = Heard::nothing(&names.grains[0]);
    let draws = Draws::new(like.seed, names);
    Ok(History {
        alloc,
        both,
        heard,
        draws,
    })
}

/// A partition, its twin and the plain program, before the first round of a seed.
fn both(alloc: Global, like: Like) -> Result<SideBySide, AllocError>
    requires { like.more ≤ 1 }
{
    let seed = like.seed;
    SideBySide::new(alloc, seed, blocks(seed), like.more, limits(seed))
}

/// A history that is made.
struct History {
    alloc: Global,
    both: SideBySide,
    heard: Heard,
    draws: Draws,
}

impl Drop for History {
    fn drop(self) {
        let Self {
            alloc: _,
            both: _,
            heard: _,
            draws: _,
        } = self;
    }
}

impl History {
    /// All rounds.
    fn go_through(&mut self, rounds: u64, tally: &mut Tally) -> Result<(), Fault> {
        for round in 0..rounds {
            self.go_on(round, tally)?;
        }
        Ok(())
    }

    /// A round: one operation after another, or in each fourth round all of them at once.
    fn go_on(&mut self, round: u64, tally: &mut Tally) -> Result<(), Fault> {
        if round % 4 == 3 {
            return self.run_round(idle(round), tally);
        }
        for _ in 0..ROUND {
            let op = self.draws.operation(self.alloc, &self.heard, idle(round))?;
            self.step(&op, tally)?;
        }
        Ok(())
    }

    /// One operation.
    fn step(&mut self, op: &Op, tally: &mut Tally) -> Result<(), Fault> {
        let reply = self.both.step(op)?;
        self.note(op, &reply, tally);
        Ok(())
    }

    /// Does the operations of a round at once.
    fn run_round(&mut self, idle: Idle, tally: &mut Tally) -> Result<(), Fault> {
        let ops = self.draw_round(idle)?;
        let replies = self.both.run(ops.as_slice())?;
        for (op, reply) in ops.as_slice().iter().zip(replies.as_slice().iter()) {
            self.note(op, reply, tally);
        }
        Ok(())
    }

    /// The operations of a round, drawn one after another.
    fn draw_round(&mut self, idle: Idle) -> Result<Vec<Op>, AllocError> {
        let mut ops = Vec::new(self.alloc);
        for _ in 0..ROUND {
            ops.push(self.draws.operation(self.alloc, &self.heard, idle)?)?;
        }
        Ok(ops)
    }

    /// Hears and counts a reply.
    fn note(&mut self, op: &Op, reply: &Reply, tally: &mut Tally) {
        self.heard.hear(op, reply);
        tally.count(op, reply);
    }

    /// Compares what there is to see, and drains. Where a turn runs its grain is deactivated.
    fn end(&mut self, tally: &mut Tally) -> Result<(), Fault> {
        self.both.compare_looks()?;
        for _ in 0..DRAINS {
            let end = self.both.drain()?;
            tally.count_end(&end);
            let DrainEnd::Stuck { grain } = end else {
                return Ok(());
            };
            self.step(&Op::Deactivate { grain }, tally)?;
        }
        Ok(())
    }
}

/// Who is idle in a round.
fn idle(round: u64) -> Idle {
    match round % 64 {
        0..24 => Idle::Nobody,
        24..36 => Idle::Workers,
        _ => Idle::Producers,
    }
}

/// How many blocks the cache has: few, so that they are full at times.
fn blocks(seed: u64) -> usize
    ensures some { 1 ≤ result }
    ensures few { result ≤ 3 }
{
    1 + (seed % 3) as usize
}

/// Limits, each of them small for some seeds, so that it is met.
fn limits(seed: u64) -> Limits
    ensures { AreLimits result }
{
    Limits {
        events: if seed % 7 == 0 { 60 } else { 1_500 },
        subs: 4 + 12 * (seed % 4) as usize,
        rules: 3,
        rises: if seed % 5 == 0 { 24 } else { 100_000 },
    }
}
