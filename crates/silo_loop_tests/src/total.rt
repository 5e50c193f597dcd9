//! A running total, which the tests of the turnstile call.
ghost use Rattle.std.specs.Prelude.{◌≡◌, ◌+◌, ◌%◌, ◌^◌};
ghost use Rattle.turnstile.specs.Calls.{IsOf};
ghost use Rattle.turnstile.specs.History.{IsLegal};

use crate::passes::{alone, finished, push};
use crate::rows::assert_at;
use std::alloc::{AllocError, Global};
use std::marker::PhantomData;
use std::process::Abort;
use std::sync::Wait;
use turnstile::{Closed, PassOf, Refusal, Replays, StoredHistory, Traced, Turnstile};

// A running total, whose calls are stored as H does.
#[derive(Drop)]
pub struct Total<H> {
    pub sum: u64,
    history: PhantomData<H>,
}

// Adds a number, and asks for room for so many more while it does.
#[derive(Clone, Copy, Drop)]
pub struct Addition {
    pub amount: u64,
    pub room: usize,
}

impl<H> Total<H> {
    pub fn new() -> Total<H>
        ensures { result.sum ≡ 0 }
    {
        Total {
            sum: 0,
            history: PhantomData,
        }
    }
}

impl<H: StoredHistory<Addition, u64>> Replays for Total<H> {
    type Op = Addition;

    type Reply = u64;

    type History = H;

    type Room = ();

    type State = u64;

    ghost state_of = { λ t. t.sum };

    ghost replied = { λ s op. (s + op.amount) % 2 ^ 64 };

    ghost after = { λ s op. (s + op.amount) % 2 ^ 64 };

    ghost shows = { λ _ _ _. Unit {0} };

    fn apply(&mut self, alloc: Global, op: &Addition, _room: &mut ()) -> Result<u64, AllocError> {
        let _room: Vec<u64> = Vec::with_capacity(alloc, op.room)?;
        self.sum = self.sum.wrapping_add(op.amount);
        Ok(self.sum)
    }
}

/// A pass: the first one, or the one that is split off it.
#[derive(Clone, Copy)]
pub enum By {
    First,
    Second,
}

/// A call: how much is added, for how many more there has to be room, and the answer, which is the sum or why the call
/// was refused.
pub type Call = (u64, usize, Result<u64, Refusal>);

/// More room than there ever is.
pub const EVERYTHING: usize = usize::MAX;

/// A turnstile whose history has so many entries at most, asked for once more where memory was refused.
pub fn opened<R: Abort, H: StoredHistory<Addition, u64>>(
    rt: &R,
    alloc: Global,
    entries: u64,
) -> (Turnstile<Total<H>>, PassOf<Total<H>>)
    ensures { IsOf result.0 result.1 × (result.0.start.state ≡ 0) }
{
    match Turnstile::new(alloc, Total::new(), entries) {
        Ok(opened) => opened,
        Err(AllocError) => Turnstile::new(alloc, Total::new(), entries).expect(rt, "memory"),
    }
}

// Whether a call is answered so. Where memory was refused that is to be there, it is asked once more.
fn is_told<R: Wait, H: StoredHistory<Addition, u64>>(
    rt: &R,
    alloc: Global,
    turnstile: &Turnstile<Total<H>>,
    pass: &mut PassOf<Total<H>>,
    call: &Call,
) -> bool
    requires { IsOf turnstile.now pass.old }
    ensures { IsOf turnstile.now pass.new }
{
    let op = Addition {
        amount: call.0,
        room: call.1,
    };
    let answer = turnstile.call(rt, alloc, pass, op);
    if answer == call.2 || answer != Err(Refusal::Memory) {
        return answer == call.2;
    }
    turnstile.call(rt, alloc, pass, op) == call.2
}

// Makes the calls of one pass. Each of them has to be answered as it says.
fn call_alone<R: Wait + Abort, H: StoredHistory<Addition, u64>>(
    rt: &R,
    alloc: Global,
    turnstile: &Turnstile<Total<H>>,
    pass: &mut PassOf<Total<H>>,
    calls: &[Call],
)
    requires { IsOf turnstile.now pass.old }
    ensures { IsOf turnstile.now pass.new }
{
    for (at, call) in calls.iter().enumerate() {
        assert_at(rt, at, is_told(rt, alloc, turnstile, pass, call));
    }
}

// Makes the calls of two passes. Each of them has to be answered as it says.
fn call_both<R: Wait + Abort, H: StoredHistory<Addition, u64>>(
    rt: &R,
    alloc: Global,
    turnstile: &Turnstile<Total<H>>,
    first: &mut PassOf<Total<H>>,
    second: &mut PassOf<Total<H>>,
    calls: &[(By, Call)],
)
    requires first { IsOf turnstile.now first.old }
    requires second { IsOf turnstile.now second.old }
    ensures first { IsOf turnstile.now first.new }
    ensures second { IsOf turnstile.now second.new }
{
    for (at, (by, call)) in calls.iter().enumerate() {
        let is_so = match by {
            By::First => is_told(rt, alloc, turnstile, first, call),
            By::Second => is_told(rt, alloc, turnstile, second, call),
        };
        assert_at(rt, at, is_so);
    }
}

// The trace of a turnstile with two passes, of which the first isn't enough to close it.
fn ended<R: Abort, H: StoredHistory<Addition, u64>>(
    rt: &R,
    alloc: Global,
    turnstile: Turnstile<Total<H>>,
    first: PassOf<Total<H>>,
    second: PassOf<Total<H>>,
) -> Traced<Total<H>>
    requires first { IsOf turnstile first }
    requires second { IsOf turnstile second }
    ensures { IsLegal (λ s op. (s + op.amount) % 2 ^ 64) (λ s op. (s + op.amount) % 2 ^ 64) turnstile.start.state (H.entries result.history) }
{
    let Closed::NotAll(back) = turnstile.close(alone(rt, alloc, first)) else {
        panic!(rt; "a pass is missing");
    };
    assert!(rt; back.missing == 1);
    let mut passes = back.passes;
    push(rt, &mut passes, second);
    finished(rt, back.turnstile, passes)
}

/// What is asked of a turnstile, and what it comes to.
pub struct Case {
    /// How many entries the history may have.
    pub entries: u64,
    /// The calls of the first pass, before another one is split off it.
    pub before: &'static [Call],
    /// The calls of both. Where there are none, there is one pass alone.
    pub calls: &'static [(By, Call)],
    /// The number of the pass, the amount and the reply of each entry.
    pub history: &'static [(u64, u64, u64)],
    /// The total at the end.
    pub sum: u64,
}

/// The trace of a turnstile after the calls of a case.
pub fn played<R: Wait + Abort, H: StoredHistory<Addition, u64>>(
    rt: &R,
    alloc: Global,
    case: &Case,
) -> Traced<Total<H>>
    ensures { IsLegal (λ s op. (s + op.amount) % 2 ^ 64) (λ s op. (s + op.amount) % 2 ^ 64) 0 (H.entries result.history) }
{
    let (turnstile, mut first) = opened::<R, H>(rt, alloc, case.entries);
    call_alone(rt, alloc, &turnstile, &mut first, case.before);
    if case.calls.is_empty() {
        return finished(rt, turnstile, alone(rt, alloc, first));
    }
    let mut second = turnstile.split(&mut first).expect(rt, "a pass");
    call_both(rt, alloc, &turnstile, &mut first, &mut second, case.calls);
    ended(rt, alloc, turnstile, first, second)
}
