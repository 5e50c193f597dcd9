//! A turnstile, its passes, and what it gives at the end.
ghost use Rattle.std.specs.Prelude.{◌≡◌, ◌<◌, All, vec_len};
ghost use Rattle.turnstile.specs.Calls.{IsOf};

use crate::passes::{alone, finished, push};
use crate::rows::assert_at;
use crate::total::{Addition, By, Call, Case, EVERYTHING, Total, opened, played};
use std::alloc::Global;
use std::process::Abort;
use std::sync::Wait;
use std::thread::{Threads, map_vec};
use turnstile::{AskedHistory, Entry, PassOf, PlainHistory, Refusal, StoredHistory, Turnstile};

type Stored = PlainHistory<Addition, u64>;

type Unanswered = AskedHistory<Addition, u64>;

// The calls of two passes at a history of five entries: two that want more memory than there is, and two at a full
// history.
const CALLS: [(By, Call); 9] = [
    (By::First, (1, EVERYTHING, Err(Refusal::Memory))),
    (By::First, (5, 1, Ok(5))),
    (By::Second, (2, 1, Ok(7))),
    (By::Second, (1, EVERYTHING, Err(Refusal::Memory))),
    (By::First, (1, 0, Ok(8))),
    (By::First, (4, 1, Ok(12))),
    (By::Second, (3, 1, Ok(15))),
    (By::Second, (1, EVERYTHING, Err(Refusal::HistoryFull))),
    (By::First, (1, 0, Err(Refusal::HistoryFull))),
];

// What both passes ask where the history may have two entries and the first one was made before the second pass was.
const LAST_OF_TWO: [(By, Call); 3] = [
    (By::Second, (2, 0, Ok(7))),
    (By::First, (1, 0, Err(Refusal::HistoryFull))),
    (By::Second, (1, 0, Err(Refusal::HistoryFull))),
];

static CASES: [Case; 3] = [
    Case {
        entries: 5,
        before: &[],
        calls: &CALLS,
        history: &[(0, 5, 5), (1, 2, 7), (0, 1, 8), (0, 4, 12), (1, 3, 15)],
        sum: 15,
    },
    Case {
        entries: 2,
        before: &[(5, 0, Ok(5))],
        calls: &LAST_OF_TWO,
        history: &[(0, 5, 5), (1, 2, 7)],
        sum: 7,
    },
    Case {
        entries: 1,
        before: &[(5, 0, Ok(5)), (1, 0, Err(Refusal::HistoryFull))],
        calls: &[],
        history: &[(0, 5, 5)],
        sum: 5,
    },
];

// Whether a history has these entries.
fn has_entries(history: &[Entry<Addition, u64>], wanted: &[(u64, u64, u64)]) -> bool {
    for (entry, wanted) in history.iter().zip(wanted) {
        if (entry.number, entry.op.amount, entry.reply) != *wanted {
            return false;
        }
    }
    history.len() == wanted.len()
}

// Run it with each allocation failing in turn.
#[test]
fn calls_in_their_order(rt: HostRuntime) {
    for (at, case) in CASES.iter().enumerate() {
        let done = played::<HostRuntime, Stored>(&rt, rt.alloc(), case);
        let is_so = has_entries(done.history.as_slice(), case.history);
        assert_at(&rt, at, is_so && done.object.sum == case.sum);
    }
}

// Adds twice in one turn.
fn add_twice<R: Wait, H: StoredHistory<Addition, u64>>(
    rt: &R,
    alloc: Global,
    turnstile: &Turnstile<Total<H>>,
    pass: &mut PassOf<Total<H>>,
    amounts: (u64, u64),
) -> (Result<u64, Refusal>, Result<u64, Refusal>)
    requires { IsOf turnstile.now pass.old }
    ensures { IsOf turnstile.now pass.new }
{
    let (first, second) = amounts;
    let mut turn = turnstile.enter(rt, pass);
    let first = Addition {
        amount: first,
        room: 0,
    };
    let first = turnstile.call_in(alloc, pass, &mut turn, first, &mut ());
    let second = Addition {
        amount: second,
        room: 0,
    };
    let second = turnstile.call_in(alloc, pass, &mut turn, second, &mut ());
    turnstile.leave(pass, turn);
    (first, second)
}

// Each call of a turn has an entry, until the history is full.
#[test]
fn a_turn_has_two_calls(rt: HostRuntime) {
    let alloc = rt.alloc();
    let (turnstile, mut pass) = opened::<HostRuntime, Stored>(&rt, alloc, 3);
    let replies = add_twice(&rt, alloc, &turnstile, &mut pass, (5, 2));
    assert!(rt; replies == (Ok(5), Ok(7)));
    let replies = add_twice(&rt, alloc, &turnstile, &mut pass, (1, 4));
    assert!(rt; replies == (Ok(8), Err(Refusal::HistoryFull)));
    let done = finished(&rt, turnstile, alone(&rt, alloc, pass));
    assert!(rt; has_entries(done.history.as_slice(), &[(0, 5, 5), (0, 2, 7), (0, 1, 8)]));
    assert!(rt; done.object.sum == 8);
}

// Whether these are the replies of a history.
fn are_replies(replies: &[u64], history: &[(u64, u64, u64)]) -> bool {
    for (reply, entry) in replies.iter().zip(history) {
        if *reply != entry.2 {
            return false;
        }
    }
    replies.len() == history.len()
}

// A history stores what was asked, and a fresh object gives again what the passes were told.
#[test]
fn a_fresh_object_gives_the_replies_again(rt: HostRuntime) {
    for (at, case) in CASES.iter().enumerate() {
        let done = played::<HostRuntime, Unanswered>(&rt, rt.alloc(), case);
        let mut fresh = Total::<Unanswered>::new();
        let replies = done
            .history
            .replay(rt.alloc(), &mut fresh, &mut ())
            .expect(&rt, "memory");
        assert_at(&rt, at, are_replies(replies.as_slice(), case.history));
    }
}

// How many passes add, each in a thread of its own, how many entries that makes, and the total.
static ADDING: [(usize, u64, u64); 2] = [(2, 2_000, 999_000), (10, 10_000, 4_995_000)];

// The most passes.
const PASSES: usize = 10;

// How often each of them adds.
const EACH: u64 = 1_000;

// Adds 0, 1, 2 and so on.
fn add_many<H: StoredHistory<Addition, u64>, R: Wait>(
    rt: &R,
    alloc: Global,
    turnstile: &Turnstile<Total<H>>,
    mut pass: PassOf<Total<H>>,
) -> PassOf<Total<H>>
    requires { IsOf turnstile.now pass }
    ensures { IsOf turnstile.now result }
{
    for amount in 0..EACH {
        let _ = turnstile.call(rt, alloc, &mut pass, Addition { amount, room: 0 });
    }
    pass
}

// So many passes: one, behind those that are split off it.
fn split_off<H: StoredHistory<Addition, u64>, R: Abort>(
    rt: &R,
    alloc: Global,
    turnstile: &Turnstile<Total<H>>,
    mut first: PassOf<Total<H>>,
    passes: usize,
) -> Vec<PassOf<Total<H>>>
    requires { IsOf turnstile.now first }
    ensures some { 0 < vec_len result }
    ensures passes { All (IsOf turnstile.now) result.items }
{
    let mut split = Vec::new(alloc);
    for _ in 1..passes {
        let pass = turnstile.split(&mut first).expect(rt, "a pass");
        push(rt, &mut split, pass);
    }
    push(rt, &mut split, first);
    split
}

// The passes after each has added in a thread of its own.
fn in_threads<H: StoredHistory<Addition, u64> + Send, R: Threads + Wait + Abort + Sync>(
    rt: &R,
    alloc: Global,
    turnstile: &Turnstile<Total<H>>,
    passes: Vec<PassOf<Total<H>>>,
) -> Vec<PassOf<Total<H>>>
    requires { All (IsOf turnstile.now) passes.items }
    ensures len { vec_len result ≡ vec_len passes }
    ensures passes { All (IsOf turnstile.now) result.items }
{
    let added = map_vec(
        rt,
        passes,
        &|pass: PassOf<Total<H>>| { add_many(rt, alloc, turnstile, pass) },
    );
    added.expect(rt, "memory")
}

// The history and the total after so many passes have added in threads.
fn added<H: StoredHistory<Addition, u64> + Send, R: Threads + Wait + Abort + Sync>(
    rt: &R,
    alloc: Global,
    passes: usize,
    entries: u64,
) -> (H, u64) {
    let (turnstile, first) = opened::<R, H>(rt, alloc, entries);
    let passes = split_off(rt, alloc, &turnstile, first, passes);
    let passes = in_threads(rt, alloc, &turnstile, passes);
    let done = finished(rt, turnstile, passes);
    (done.history, done.object.sum)
}

// The calls of each of so many passes stand in their order, a thousand of each, and each reply is the sum so far.
fn in_order<R: Abort>(rt: &R, history: &[Entry<Addition, u64>], passes: usize) {
    let mut counts = [0u64; PASSES];
    let mut sum = 0u64;
    for (at, entry) in history.iter().enumerate() {
        let Some(count) = counts.get_mut(entry.number as usize) else {
            panic!(rt; "no pass has this number");
        };
        sum = sum.wrapping_add(entry.op.amount);
        assert_at(rt, at, entry.op.amount == *count && entry.reply == sum);
        *count = count.wrapping_add(1);
    }
    for (pass, count) in counts.iter().enumerate() {
        let wanted = if pass < passes { EACH } else { 0 };
        assert_at(rt, pass, *count == wanted);
    }
}

#[test]
fn passes_add_in_threads(rt: HostRuntime) {
    for (passes, entries, total) in &ADDING {
        let (history, sum) = added::<Stored, HostRuntime>(&rt, rt.alloc(), *passes, *entries);
        assert!(rt; history.as_slice().len() as u64 == *entries && sum == *total);
        in_order(&rt, history.as_slice(), *passes);
        let (asked, sum) = added::<Unanswered, HostRuntime>(&rt, rt.alloc(), *passes, *entries);
        assert!(rt; asked.as_slice().len() as u64 == *entries && sum == *total);
    }
}
