//! Parked clusters: a silo is stopped after any number of steps, or none is.
use crate::asking::holds;
use crate::parked::{Parked, Went};
use crate::replayed::astray_in;
use crate::running::{Calls, Ended, Places};
use crate::story::{Order, QUEUES, REPORT, advance, begin, tell_the_rest};
use shared_partition::{DirectoryHistory, QueueHistory};
use silo_threads::Finished;
use std::alloc::Global;
use std::process::Abort;
use std::sync::Wait;

// How many steps the loops make at most before a silo is stopped, in fours.
const FOURS: usize = 50;

// So many silos, whose loops make each of these numbers of steps. Then each silo in turn is stopped, and the rest of the
// story is told.
#[derive(Clone, Copy)]
struct Row {
    silos: u8,
    order: Order,
    // what becomes of a silo that is stopped, where one is
    went: Option<Went>,
}

static ROWS: [Row; 5] = [
    Row {
        silos: 1,
        order: Order::Around,
        went: None,
    },
    Row {
        silos: 3,
        order: Order::Back,
        went: None,
    },
    // The only silo isn't stopped: its loops are handed out again, and go on.
    Row {
        silos: 1,
        order: Order::Back,
        went: Some(Went::LastSilo),
    },
    Row {
        silos: 2,
        order: Order::Around,
        went: Some(Went::Down),
    },
    Row {
        silos: 3,
        order: Order::Back,
        went: Some(Went::Down),
    },
];

// How a cluster of a row ends in which the silo at a place is stopped after so many steps, where one is.
fn told<H: QueueHistory, D: DirectoryHistory, R: Wait + Abort>(
    rt: &R,
    alloc: Global,
    table: usize,
    row: &Row,
    steps: usize,
    at: usize,
) -> Ended<H> {
    let made = Parked::<H, D>::new(rt, alloc, QUEUES, row.silos, 1_000_000, 1_000);
    let mut parked = made.expect(rt, "memory");
    begin(rt, alloc, &mut parked);
    advance(rt, alloc, &mut parked, row.order, steps);
    if let Some(went) = row.went {
        holds(rt, parked.retire(rt, alloc, at) == went, table, steps);
    }
    tell_the_rest(rt, alloc, parked)
}

// How many deliveries were lost to deactivations in a cluster that ended with the report of the story. Where no silo
// went, there are none, and no agent has called at a queue that another agent has.
fn lost<R: Abort>(rt: &R, alloc: Global, ended: &Ended<Calls>, row: &Row) -> usize {
    let Ok(Finished::Report { text, traces }) = ended else {
        panic!(rt; "it reports");
    };
    assert!(rt; text.as_slice() == REPORT);
    let astray = astray_in(rt, alloc, traces);
    let went = matches!(row.went, Some(Went::Down));
    assert!(rt; went || (astray.lost == 0 && astray.stale == 0));
    astray.lost
}

// How many deliveries were lost where each silo in turn is stopped, or none is.
fn all_lost<R: Wait + Abort>(rt: &R, alloc: Global, table: usize, row: &Row) -> usize {
    let mut all: usize = 0;
    let stopped = if row.went.is_some() { row.silos } else { 1 };
    for fours in 0..FOURS + 1 {
        for at in 0..usize::from(stopped) {
            let steps = fours.wrapping_mul(4);
            let ended = told::<Calls, Places, R>(rt, alloc, table, row, steps, at);
            all = all.wrapping_add(lost(rt, alloc, &ended, row));
        }
    }
    all
}

#[test]
fn silos_stop(rt: HostRuntime) {
    for (table, row) in ROWS.iter().enumerate() {
        let lost = all_lost(&rt, rt.alloc(), table, row);
        assert!(rt; (lost > 0) == matches!(row.went, Some(Went::Down)));
    }
}
