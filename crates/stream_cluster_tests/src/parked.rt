//! A parked cluster, and all that was handed out with it.
ghost use Rattle.std.specs.Prelude.{◌≡◌, insert};
ghost use Rattle.silo_loops.specs.Silos.{HasRun};
ghost use Rattle.stream_cluster_tests.specs.Parked.{IsLeft};

use crate::asking::{Produced, production};
use crate::running::Ended;
use script_runs::Answer as Answered;
use shared_partition::{Counting, DirectoryHistory, QueueHistory};
use silo_loops::{Advance, DirectoryLine, SiloLoops};
use silo_threads::{Caller, Cluster, Config, Quiet, Retired, SiloUp, ask_quiet};
use std::alloc::{AllocError, Global};
use std::marker::Model;
use std::process::Abort;
use std::sync::atomic::AtomicBool;
use std::sync::{Arc, Wait};
use std::thread::Threads;
use step_core::{Answer, Limits, Op};
use turnstile::Refusal;

/// The loops of a silo.
pub type Loops<H, D> = SiloLoops<Counting, H, D>;

/// A loop of a silo.
#[derive(Clone, Copy)]
pub enum Loop {
    Agent,
    First,
    Second,
}

/// The loops of a silo, in the order in which they take turns.
pub static LOOPS: [Loop; 3] = [Loop::Agent, Loop::First, Loop::Second];

/// What became of a silo that was to be retired.
#[derive(Clone, Copy, PartialEq, Eq)]
pub enum Went {
    Down,
    LastSilo,
    Limit,
    Halted,
    Memory,
}

/// What becomes of the loops of a silo that aren't given back.
#[derive(Clone, Copy, PartialEq, Eq)]
pub enum Astray {
    Kept,
    Dropped,
}

/// A parked cluster, its caller, and the loops of its silos that weren't given back.
///
/// A contract sees of how many silos it has the loops.
pub struct Parked<H: QueueHistory, D: DirectoryHistory> {
    cluster: Cluster<Counting, H, D>,
    pub caller: Caller<Counting, H>,
    pub crew: Vec<Loops<H, D>>,
}

impl<H: QueueHistory + Drop, D: DirectoryHistory + Drop> Drop for Parked<H, D> {
    fn drop(self) {
        let Self {
            cluster: _,
            caller: _,
            crew: _,
        } = self;
    }
}

impl<H: QueueHistory, D: DirectoryHistory> Model for Parked<H, D> {
    ghost use Rattle.std.specs.Prelude.{ℕ, length};
    ghost use Rattle.stream_cluster_tests.specs.Parked.{IsWhole};

    ghost Value = { ℕ };

    ghost view = { λ p. length p.crew.items };

    ghost invariant = { λ p. IsWhole p.cluster p.caller p.crew.items };
}

// One step of a loop.
fn step<H: QueueHistory, D: DirectoryHistory, R: Wait>(
    rt: &R,
    alloc: Global,
    loops: &mut Loops<H, D>,
    which: Loop,
) -> Advance
    ensures { HasRun loops.old loops.new }
{
    match which {
        Loop::Agent => loops.agent.advance(rt, alloc),
        Loop::First => loops.first.advance(rt, alloc),
        Loop::Second => loops.second.advance(rt, alloc),
    }
}

// These loops, which go by hints from now on: each is run, and told to stop before its first step.
fn by_hints<H: QueueHistory, D: DirectoryHistory, R: Wait>(
    rt: &R,
    alloc: Global,
    loops: Loops<H, D>,
) -> Loops<H, D>
    ensures { HasRun loops result }
{
    let stop = AtomicBool::new(true);
    let SiloLoops {
        silo,
        agent,
        first,
        second,
    } = loops;
    SiloLoops {
        silo,
        agent: agent.run(rt, alloc, &stop),
        first: first.run(rt, alloc, &stop),
        second: second.run(rt, alloc, &stop),
    }
}

// The loops that are kept, where they are.
fn go_astray<H: QueueHistory, D: DirectoryHistory>(
    loops: Loops<H, D>,
    astray: Astray,
) -> Option<Loops<H, D>> {
    match astray {
        Astray::Kept => Some(loops),
        Astray::Dropped => None,
    }
}

// The loops come to this place again.
fn put_back<H: QueueHistory, D: DirectoryHistory, R: Abort>(
    rt: &R,
    crew: &mut Vec<Loops<H, D>>,
    at: usize,
    loops: Loops<H, D>,
)
    ensures { crew.new.items ≡ insert crew.old.items at loops }
{
    assert!(rt; at <= crew.len());
    crew.insert(at, loops).expect(rt, "room");
}

// What a retire answered. Loops that were handed out again come to their place.
fn sort_out<H: QueueHistory, D: DirectoryHistory, R: Abort>(
    rt: &R,
    crew: &mut Vec<Loops<H, D>>,
    at: usize,
    answer: Result<Retired<Counting, H, D>, AllocError>,
) -> Went
    ensures { IsLeft answer at crew.old.items crew.new.items }
{
    match answer {
        Ok(Retired::Down) => Went::Down,
        Ok(Retired::Limit) => Went::Limit,
        Ok(Retired::LastSilo { loops }) => {
            put_back(rt, crew, at, loops);
            Went::LastSilo
        }
        Ok(Retired::Halted { loops }) => {
            put_back(rt, crew, at, loops);
            Went::Halted
        }
        Err(AllocError) => Went::Memory,
    }
}

impl<H: QueueHistory, D: DirectoryHistory> Parked<H, D> {
    /// A parked cluster of so many queues and silos, whose histories have at most so many calls each, and at whose queues
    /// there are at most so many moves and turns.
    pub fn new<R: Wait + Abort>(
        rt: &R,
        alloc: Global,
        queues: usize,
        silos: u8,
        history: u64,
        rises: u64,
    ) -> Result<Parked<H, D>, AllocError> {
        assert!(rt; 1 <= queues && queues <= 64);
        assert!(rt; 1 <= silos && silos <= 16);
        assert!(rt; 1 <= history);
        assert!(rt; 1 <= rises && rises <= 1_000);
        let config = Config {
            queues,
            blocks: 1,
            silos,
            limits: Limits {
                rises,
                ..Limits::GREATEST
            },
            history,
            rounds: 1_000_000,
            looks: 100_000,
        };
        let gate = Arc::new(alloc, Counting)?;
        let (cluster, caller, crew) = Cluster::parked(rt, alloc, &config, gate)?;
        Ok(Parked {
            cluster,
            caller,
            crew,
        })
    }

    /// How the producer of a script is answered at a queue.
    ///
    /// # Errors
    /// The call failed to allocate.
    pub fn ask<R: Wait + Abort>(
        &mut self,
        rt: &R,
        alloc: Global,
        queue: usize,
        asked: &Produced,
    ) -> Result<Answered, AllocError> {
        assert!(rt; queue < self.caller.queues());
        let op = production(rt, alloc, asked)?;
        script_runs::ask(rt, alloc, &mut self.caller, queue, op)
    }

    /// One call at a queue, by the caller of the cluster.
    ///
    /// # Errors
    /// The queue refused it.
    pub fn call<R: Wait + Abort>(
        &mut self,
        rt: &R,
        alloc: Global,
        queue: usize,
        op: Op,
    ) -> Result<Answer, Refusal> {
        assert!(rt; queue < self.caller.queues());
        self.caller.ask(rt, alloc, queue, op, &mut Vec::new(alloc))
    }

    /// Whether each queue answers that it is quiet.
    pub fn is_quiet<R: Wait + Abort>(&mut self, rt: &R, alloc: Global) -> bool {
        ask_quiet(rt, alloc, &mut self.caller).expect(rt, "an answer") == Quiet::All
    }

    /// One step of a loop of the silo at this place.
    pub fn advance<R: Wait + Abort>(
        &mut self,
        rt: &R,
        alloc: Global,
        at: usize,
        which: Loop,
    ) -> Advance {
        assert!(rt; at < self.crew.len());
        let loops = &mut self.crew[at];
        step(rt, alloc, loops, which)
    }

    /// The loops of the silo at this place go by hints from now on.
    pub fn go_by_hints<R: Wait + Abort>(&mut self, rt: &R, alloc: Global, at: usize) {
        assert!(rt; at < self.crew.len());
        let loops = by_hints(rt, alloc, self.crew.remove(at));
        put_back(rt, &mut self.crew, at, loops);
    }

    /// Gives the loops of the silo at this place back. Where they are handed out again, they stand there as before.
    pub fn retire<R: Wait + Abort>(&mut self, rt: &R, alloc: Global, at: usize) -> Went {
        assert!(rt; at < self.crew.len());
        let loops = self.crew.remove(at);
        sort_out(
            rt,
            &mut self.crew,
            at,
            self.cluster.retire(rt, alloc, loops),
        )
    }

    /// Ends the cluster, to which all loops come back.
    pub fn finish<R: Wait>(self, rt: &R, alloc: Global) -> Ended<H> {
        let Parked {
            cluster,
            caller,
            crew,
        } = self;
        let mut callers = Vec::with_capacity(alloc, 1)?;
        callers.push_reserved(caller);
        cluster.finish_parked(rt, alloc, callers, crew)
    }

    /// Ends the cluster without the loops of the silo at this place.
    pub fn finish_without<R: Wait + Abort>(
        self,
        rt: &R,
        alloc: Global,
        at: usize,
        astray: Astray,
    ) -> Ended<H> {
        let Parked {
            cluster,
            caller,
            mut crew,
        } = self;
        assert!(rt; at < crew.len());
        let _kept = go_astray(crew.remove(at), astray);
        let mut callers = Vec::with_capacity(alloc, 1)?;
        callers.push_reserved(caller);
        cluster.finish_parked(rt, alloc, callers, crew)
    }

    /// The directory, by the pass of a worker of the silo at the first place. Nothing else is kept.
    pub fn into_directory<R: Abort>(self, rt: &R) -> DirectoryLine<D> {
        let Parked {
            cluster: _,
            caller: _,
            mut crew,
        } = self;
        assert!(rt; !crew.is_empty());
        let SiloLoops {
            silo: _,
            agent: _,
            first,
            second: _,
        } = crew.remove(0);
        first.into_parts().1
    }
}

impl<H: QueueHistory + Send + 'static, D: DirectoryHistory + Send + 'static> Parked<H, D> {
    /// A silo is to come.
    pub fn up<R: Threads + Wait + Abort + Copy + Send + 'static>(
        &mut self,
        rt: &R,
        alloc: Global,
        silo: u8,
    ) -> Result<SiloUp, AllocError> {
        assert!(rt; silo < 16);
        self.cluster.silo_up(rt, alloc, silo)
    }
}
