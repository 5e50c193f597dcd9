//! Queues that are given to silos.
ghost use Rattle.std.specs.Prelude.{IfOk};
ghost use Rattle.queue_balancer.specs.Balance.{HasNoDoubles};

use crate::rows::assert_row;
use queue_balancer::{Assignment, RebalanceError, rebalance};
use std::alloc::{AllocError, Global};
use std::process::Abort;

/// Queues by their silos, and by their new ones.
type Row = (&'static [u8], &'static [u8]);

/// The silo 1 alone lives.
static ONE: [Row; 2] = [(&[0, 1, 0, 1], &[1, 1, 1, 1]), (&[], &[])];

/// The silos 0 and 2 live.
static TWO: [Row; 4] = [
    (&[2, 0], &[2, 0]),
    (&[0, 0, 0, 2, 2], &[0, 0, 0, 2, 2]),
    (&[0, 9, 2, 2], &[0, 0, 2, 2]),
    (&[1, 0, 0, 1], &[2, 0, 0, 2]),
];

/// The silos 0, 1 and 2 live.
static THREE: [Row; 1] = [(&[1, 0], &[1, 0])];

/// How many of these are this silo.
fn count(silo: u8, silos: &[u8]) -> usize {
    silos.iter().filter(|other| **other == silo).count()
}

/// Whether each queue is on a live silo.
fn are_on_live(live: &[u8], queues: &[u8]) -> bool {
    for silo in queues {
        if count(*silo, live) == 0 {
            return false;
        }
    }
    true
}

/// Whether each live silo has so many queues or one more.
fn are_even(least: usize, live: &[u8], queues: &[u8]) -> bool {
    for silo in live {
        let load = count(*silo, queues);
        if load < least || load - least > 1 {
            return false;
        }
    }
    true
}

/// Whether a queue moves only where its old silo isn't live or had more than so many queues.
fn moves_few(least: usize, live: &[u8], old: &[u8], new: &[u8]) -> bool {
    for (was, is) in old.iter().zip(new) {
        if was != is && count(*was, live) > 0 && count(*was, old) <= least {
            return false;
        }
    }
    true
}

/// Whether the new silos of all queues are balanced: each queue is on a live silo, each live silo has an equal number or
/// one more, queues move only from silos that are gone or had more than that number, and none moves where the old silos
/// were such already.
fn are_balanced(old: &[u8], live: &[u8], new: &[u8]) -> bool {
    let Some(least) = old.len().checked_div(live.len()) else {
        return false;
    };
    new.len() == old.len()
        && are_on_live(live, new)
        && are_even(least, live, new)
        && moves_few(least, live, old, new)
        && (new == old || !are_on_live(live, old) || !are_even(least, live, old))
}

/// The new silos of queues, which are balanced.
fn balanced(rt: &impl Abort, alloc: Global, old: &[u8], live: &[u8]) -> Assignment
    requires { HasNoDoubles live.now }
{
    let new = rebalance(alloc, old, live).expect(rt, "a balance");
    assert!(rt; are_balanced(old, live, new.as_slice()));
    new
}

/// The queues of each row go to these live silos as it says.
fn check(rt: &impl Abort, alloc: Global, case: usize, live: &[u8], rows: &[Row])
    requires { HasNoDoubles live.now }
{
    for (row, (old, wanted)) in rows.iter().enumerate() {
        let new = balanced(rt, alloc, old, live);
        assert_row(rt, case, row, new.as_slice() == *wanted);
    }
}

#[test]
fn queues_go_to_live_silos(rt: HostRuntime) {
    let none = rebalance(rt.alloc(), &[0], &[]);
    assert!(rt; matches!(none, Err(RebalanceError::NoSilo)));
    check(&rt, rt.alloc(), 1, &[1], &ONE);
    check(&rt, rt.alloc(), 2, &[0, 2], &TWO);
    check(&rt, rt.alloc(), 3, &[0, 1, 2], &THREE);
    let _new = balanced(&rt, rt.alloc(), &[0, 0, 1, 1], &[0, 1, 2]);
}

/// The silos 0 to 15.
fn sixteen_silos(alloc: Global) -> Result<Vec<u8>, AllocError>
    ensures { IfOk result (λ silos. HasNoDoubles silos.items) }
{
    let mut silos = Vec::new(alloc);
    for silo in 0..16 {
        silos.push(silo)?;
    }
    Ok(silos)
}

/// The places of the silos that go down, each among those that still live.
static GOING: [usize; 15] = [5, 0, 13, 6, 6, 1, 9, 3, 0, 6, 2, 2, 0, 1, 0];

/// Silos go down one after the other. The queues are balanced before, and each time.
fn go_down(rt: &impl Abort, alloc: Global, silos: Vec<u8>, queues: &[u8])
    requires { HasNoDoubles silos.items }
{
    let mut live = silos;
    let mut queues = balanced(rt, alloc, queues, &live);
    for at in &GOING {
        assert!(rt; *at < live.len());
        let _gone = live.remove(*at);
        queues = balanced(rt, alloc, queues.as_slice(), &live);
    }
    assert!(rt; live.len() == 1);
}

#[test]
fn silos_go_down_to_the_last(rt: HostRuntime) {
    let silos = sixteen_silos(rt.alloc()).expect(&rt, "memory");
    go_down(&rt, rt.alloc(), silos, &[0; 64]);
}
