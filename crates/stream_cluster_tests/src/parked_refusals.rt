//! A parked cluster in which memory is refused.
use crate::parked::{Parked, Went};
use crate::running::{Calls, Ended, Places, is_reported};
use crate::story::{Order, QUEUES, REPORT, advance, begin, tell_the_rest};
use shared_partition::{DirectoryHistory, QueueHistory};
use silo_threads::Finished;
use std::alloc::{AllocError, Global};
use std::process::Abort;
use std::sync::Wait;

// A parked cluster of three silos, asked for once more where memory was refused.
fn opened<H: QueueHistory, D: DirectoryHistory, R: Wait + Abort>(
    rt: &R,
    alloc: Global,
) -> Parked<H, D> {
    match Parked::new(rt, alloc, QUEUES, 3, 1_000_000, 1_000) {
        Ok(parked) => parked,
        Err(AllocError) => Parked::new(rt, alloc, QUEUES, 3, 1_000_000, 1_000).expect(rt, "memory"),
    }
}

// Whether something is left to do where a silo is gone by half, and else that memory was refused.
fn is_otherwise<H>(ended: &Ended<H>, went: Went) -> bool {
    match ended {
        Ok(Finished::NotQuiet { .. }) => went == Went::Memory,
        Err(AllocError) => went != Went::Memory,
        _ => false,
    }
}

// A silo is retired after so many steps. Where that was refused, the silos don't change any more; no pass is lost, and
// what isn't done is told.
fn retire_after<H: QueueHistory, D: DirectoryHistory, R: Wait + Abort>(
    rt: &R,
    alloc: Global,
    steps: usize,
) {
    let mut parked = opened::<H, D, R>(rt, alloc);
    begin(rt, alloc, &mut parked);
    advance(rt, alloc, &mut parked, Order::Around, steps);
    let went = parked.retire(rt, alloc, 0);
    if went != Went::Down {
        assert!(rt; went == Went::Memory);
        assert!(rt; parked.retire(rt, alloc, 0) == Went::Halted);
    }
    let ended = tell_the_rest(rt, alloc, parked);
    assert!(rt; is_reported(&ended, REPORT) || is_otherwise(&ended, went));
}

static STEPS: [usize; 2] = [0, 60];

fn retire_each<H: QueueHistory, D: DirectoryHistory, R: Wait + Abort>(rt: &R, alloc: Global) {
    for steps in &STEPS {
        retire_after::<H, D, R>(rt, alloc, *steps);
    }
}

// With any one allocation refused, what was answered stands. Run it with each allocation failing in turn.
#[test]
fn one_allocation_refused(rt: HostRuntime) {
    retire_each::<Calls, Places, HostRuntime>(&rt, rt.alloc());
}
