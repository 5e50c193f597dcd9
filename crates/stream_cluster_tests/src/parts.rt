//! The operator and the end of a cluster, called by hand.
ghost use Rattle.std.specs.Prelude.{◌≡◌, [], IfOk};
ghost use Rattle.turnstile.specs.Calls.{IsOf};
ghost use Rattle.shared_partition.specs.Directories as directories;
ghost use Rattle.shared_partition.specs.Partitions as partitions;

use crate::asking::{Produced, production};
use crate::running::{Calls, Places};
use activation_directory::{DirectoryOp, DirectoryReply};
use shared_partition::{
    Counting, DirectoryHistory, QueueHistory, SharedDirectory, SharedPartition,
};
use silo_loops::{DirectoryLine, Doorbell, Line};
use silo_threads::{
    Caller, Closing, Finished, LoopEnds, Operator, Quiet, Traces, ask_quiet, close, finish, gather,
};
use std::alloc::{AllocError, Global};
use std::process::Abort;
use std::sync::{Arc, Wait};
use step_core::{Limits, Op, Reply};
use stream_ident::GrainId;
use stream_model::Pending;
use turnstile::{Asked, PassOf, Turnstile};

const QUEUES: usize = 2;

// A turnstile over an empty partition, and its first pass.
fn partition<H: QueueHistory>(
    alloc: Global,
    gate: Arc<Counting, Global>,
    queue: usize,
) -> Result<
    (
        Turnstile<SharedPartition<Counting, H>>,
        PassOf<SharedPartition<Counting, H>>,
    ),
    AllocError,
>
    ensures { IfOk result (λ r. IsOf r.0 r.1 × partitions.BeganEmpty r.0.start × (r.1.seen ≡ [])) }
{
    let shared = SharedPartition::new(alloc, gate, queue, 1, Limits::GREATEST)?;
    let (turnstile, pass) = Turnstile::new(alloc, shared, 1_000)?;
    Ok((turnstile, pass))
}

// The first line of each of some empty queues.
fn lines<H: QueueHistory>(
    alloc: Global,
    gate: &Arc<Counting, Global>,
) -> Result<Vec<Line<Counting, H>>, AllocError> {
    let mut lines = Vec::new(alloc);
    for queue in 0..QUEUES {
        let (turnstile, pass) = partition(alloc, Arc::try_clone(gate)?, queue)?;
        lines.push(Line::new(queue, Arc::new(alloc, turnstile)?, pass))?;
    }
    Ok(lines)
}

// A turnstile over an empty directory, and its first pass.
fn places<D: DirectoryHistory>(
    alloc: Global,
) -> Result<(Turnstile<SharedDirectory<D>>, PassOf<SharedDirectory<D>>), AllocError>
    ensures { IfOk result (λ r. IsOf r.0 r.1 × directories.BeganEmpty r.0.start) }
{
    let (turnstile, pass) = Turnstile::new(alloc, SharedDirectory::new(alloc, 1_000), 1_000)?;
    Ok((turnstile, pass))
}

// A line of a directory in which a grain is placed on silo 1.
fn directory<D: DirectoryHistory, R: Wait + Abort>(
    rt: &R,
    alloc: Global,
    doorbell: &Doorbell,
) -> DirectoryLine<D> {
    let (turnstile, pass) = places(alloc).expect(rt, "memory");
    let mut line = DirectoryLine::new(Arc::new(alloc, turnstile).expect(rt, "memory"), pass);
    let grain = GrainId::new(b"g", b"x").expect(rt, "a grain");
    let entered = line.call(rt, alloc, doorbell, DirectoryOp::Enter { grain, silo: 1 });
    assert!(rt; matches!(entered, Ok(DirectoryReply::Entered { permit: 1 })));
    line
}

// A silo that didn't live lives from now on.
fn enlist<H: QueueHistory, D: DirectoryHistory, R: Abort>(
    rt: &R,
    operator: &mut Operator<Counting, H, D>,
    silo: u8,
) {
    match operator.place_of(silo) {
        Some(_) => panic!(rt; "it doesn't live"),
        None => operator.enlist(silo).expect(rt, "memory"),
    }
}

// Two silos come, and the queues are spread over them. The loops of one are made and taken back, and its grain is taken
// from it.
fn operate<H: QueueHistory, D: DirectoryHistory, R: Wait + Abort>(
    rt: &R,
    alloc: Global,
) -> (Arc<Doorbell, Global>, Vec<Line<Counting, H>>) {
    let gate = Arc::new(alloc, Counting).expect(rt, "memory");
    let doorbell = Doorbell::new(alloc, QUEUES, 0).expect(rt, "memory");
    let doorbell = Arc::new(alloc, doorbell).expect(rt, "memory");
    let directory = directory::<D, R>(rt, alloc, &doorbell);
    let lines = lines(alloc, &gate).expect(rt, "memory");
    assert!(rt; !lines.is_empty());
    let made = Operator::new(alloc, gate, doorbell, lines, directory);
    let mut operator = made.expect(rt, "memory");
    assert!(rt; operator.live_count() == 0);
    enlist(rt, &mut operator, 0);
    enlist(rt, &mut operator, 1);
    assert!(rt; operator.live_count() == 2 && operator.place_of(1) == Some(1));
    assert!(rt; operator.spread(rt, alloc) == Ok(()));
    let loops = operator.make_loops(alloc, 1, 10).expect(rt, "memory");
    assert!(rt; loops.silo == 1 && loops.agent.rounds() == 10);
    operator.take_back(loops);
    assert!(rt; operator.evict(rt, alloc, 1) == Ok(()));
    operator.into_lines()
}

// The queues are quiet, until an event is published to the second one.
fn ask<H: QueueHistory, R: Wait + Abort>(rt: &R, alloc: Global, caller: &mut Caller<Counting, H>) {
    assert!(rt; ask_quiet(rt, alloc, caller) == Ok(Quiet::All));
    assert!(rt; caller.queues() == QUEUES);
    let publish = production(rt, alloc, &Produced::Publish(b"x", &[b"a"])).expect(rt, "memory");
    assert!(rt;
        matches!(
            caller.call(rt, alloc, 1, publish),
            Ok(Reply::Published { seq: 0 })
        )
    );
    let behind = Quiet::NotQuiet {
        queue: 1,
        why: Pending::Behind,
    };
    assert!(rt; ask_quiet(rt, alloc, caller) == Ok(behind));
}

// What was done at a queue by an operator and its caller, one word a call.
fn words(alloc: Global, calls: &[Asked<Op>]) -> Result<String, AllocError> {
    let mut text = String::new(alloc);
    for call in calls {
        text.push_str(match call.op {
            Op::Move { silo: 1 } => " move",
            Op::Deactivate { .. } => " deactivate",
            Op::Quiet => " quiet",
            Op::Publish { .. } => " publish",
            _ => " other",
        })?;
    }
    Ok(text)
}

// What was done at each queue, but for the move, and how many queues were moved.
static DONE: [&str; QUEUES] = [" deactivate quiet quiet", " deactivate quiet publish quiet"];

fn moves<R: Abort>(rt: &R, alloc: Global, traces: &Traces<Calls>) -> usize {
    let mut moves: usize = 0;
    assert!(rt; traces.histories.len() == QUEUES && traces.partitions.len() == QUEUES);
    for (history, done) in traces.histories.iter().zip(&DONE) {
        let words = words(alloc, history.as_slice()).expect(rt, "memory");
        match words.as_str().strip_prefix(" move") {
            Some(rest) => {
                assert!(rt; rest == *done);
                moves = moves.wrapping_add(1);
            }
            None => assert!(rt; words.as_str() == *done),
        }
    }
    moves
}

// The passes of an operator are gathered, and its turnstiles closed.
fn close_all<R: Wait + Abort>(rt: &R, alloc: Global) {
    let (doorbell, lines) = operate::<Calls, Places, R>(rt, alloc);
    let mut caller = gather(alloc, doorbell, lines, Vec::new(alloc)).expect(rt, "memory");
    ask(rt, alloc, &mut caller);
    match close(alloc, caller) {
        Ok(Closing::Traced(traces)) => assert!(rt; moves(rt, alloc, &traces) == 1),
        _ => panic!(rt; "all passes are there"),
    }
}

// All of that at once.
fn finish_all<H: QueueHistory, D: DirectoryHistory, R: Wait + Abort>(rt: &R, alloc: Global) {
    let (doorbell, lines) = operate::<H, D, R>(rt, alloc);
    let ends = LoopEnds::default();
    match finish(rt, alloc, doorbell, lines, Vec::new(alloc), ends) {
        Ok(Finished::Report { text, .. }) => assert!(rt; text.as_slice() == b"report\n".as_slice()),
        _ => panic!(rt; "nothing is left to do"),
    }
}

#[test]
fn operators_by_hand(rt: HostRuntime) {
    close_all(&rt, rt.alloc());
    finish_all::<Calls, Places, HostRuntime>(&rt, rt.alloc());
}
