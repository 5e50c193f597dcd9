//! What producers ask of a cluster, and how its loops get on.
use crate::asking::Produced;
use crate::parked::{LOOPS, Loop, Parked};
use crate::running::Ended;
use script_runs::Answer as Answered;
use shared_partition::{DirectoryHistory, QueueHistory};
use silo_loops::Advance;
use std::alloc::{AllocError, Global};
use std::process::Abort;
use std::sync::Wait;

/// How many queues the story has.
pub const QUEUES: usize = 3;

// What is asked at a queue, and how the producer of a script is answered.
type Asked = (usize, Produced<'static>, Answered);

// What is asked before the loops have done anything.
static FIRST: [Asked; 13] = [
    (0, Produced::Subscribe(b"x", b"x"), Answered::Taken),
    (0, Produced::Publish(b"x", &[b"a", b"b"]), Answered::Taken),
    (0, Produced::Publish(b"x", &[]), Answered::Refused),
    (0, Produced::Subscribe(b"x", b"w"), Answered::Taken),
    (0, Produced::Publish(b"x", &[b"c"]), Answered::Taken),
    (1, Produced::Rule, Answered::Taken),
    (1, Produced::Rule, Answered::Refused),
    (1, Produced::Subscribe(b"y", b"x"), Answered::Taken),
    (1, Produced::Publish(b"y", &[b"a"]), Answered::Taken),
    (1, Produced::Publish(b"z", &[b"b"]), Answered::Taken),
    (2, Produced::Subscribe(b"u", b"u"), Answered::Taken),
    (2, Produced::Rule, Answered::Taken),
    (2, Produced::Publish(b"u", &[b"a"]), Answered::Taken),
];

// What is asked later.
static LATER: [Asked; 3] = [
    (0, Produced::Publish(b"x", &[b"d"]), Answered::Taken),
    (1, Produced::Publish(b"y", &[b"c"]), Answered::Taken),
    (2, Produced::Publish(b"u", &[b"b"]), Answered::Taken),
];

/// What is reported of all that.
pub const REPORT: &[u8] = b"report
0:1 o/x g/x 0.0 4
  0.0 \"a\"
  0.1 \"b\"
  1.0 \"c\"
  2.0 \"d\"
0:2 o/x g/w 1.0 2
  1.0 \"c\"
  2.0 \"d\"
1:1 o/y g/x 0.0 2
  0.0 \"a\"
  2.0 \"c\"
1:g@o/y o/y g/y 0.0 2
  0.0 \"a\"
  2.0 \"c\"
1:g@o/z o/z g/z 0.0 1
  1.0 \"b\"
2:1 o/u g/u 0.0 2
  0.0 \"a\"
  1.0 \"b\"
2:g@o/u o/u g/u 0.0 2
  0.0 \"a\"
  1.0 \"b\"
";

// The answer at a queue. It is asked for once more where memory was refused.
fn answer<H: QueueHistory, D: DirectoryHistory, R: Wait + Abort>(
    rt: &R,
    alloc: Global,
    parked: &mut Parked<H, D>,
    queue: usize,
    asked: &Produced,
) -> Answered {
    match parked.ask(rt, alloc, queue, asked) {
        Ok(answer) => answer,
        Err(AllocError) => parked.ask(rt, alloc, queue, asked).expect(rt, "memory"),
    }
}

// Asks for each of these.
fn ask_all<H: QueueHistory, D: DirectoryHistory, R: Wait + Abort>(
    rt: &R,
    alloc: Global,
    parked: &mut Parked<H, D>,
    asks: &[Asked],
) {
    for (queue, asked, wanted) in asks {
        assert!(rt; answer(rt, alloc, parked, *queue, asked) == *wanted);
    }
}

/// Asks for what is asked before the loops have done anything.
pub fn begin<H: QueueHistory, D: DirectoryHistory, R: Wait + Abort>(
    rt: &R,
    alloc: Global,
    parked: &mut Parked<H, D>,
) {
    ask_all(rt, alloc, parked, &FIRST);
}

/// Asks for the rest.
pub fn go_on<H: QueueHistory, D: DirectoryHistory, R: Wait + Abort>(
    rt: &R,
    alloc: Global,
    parked: &mut Parked<H, D>,
) {
    ask_all(rt, alloc, parked, &LATER);
}

/// In which order loops are advanced.
#[derive(Clone, Copy)]
pub enum Order {
    /// One step of each loop after another, from the first silo's on.
    Around,
    /// Five steps of each loop after another, backwards from the first silo's first.
    Back,
}

/// Advances the loops by so many steps in all.
pub fn advance<H: QueueHistory, D: DirectoryHistory, R: Wait + Abort>(
    rt: &R,
    alloc: Global,
    parked: &mut Parked<H, D>,
    order: Order,
    steps: usize,
) {
    let loops = parked.crew.len().wrapping_mul(3);
    for step in 0..steps {
        let place = match order {
            Order::Around => step,
            Order::Back => (step / 5).wrapping_mul(loops.wrapping_sub(1)),
        };
        let which = place.checked_rem(loops).unwrap_or(0);
        let _did = parked.advance(rt, alloc, which / 3, LOOPS[which % 3]);
    }
}

// Steps of a loop, until it is idle or has ended.
fn rest<H: QueueHistory, D: DirectoryHistory, R: Wait + Abort>(
    rt: &R,
    alloc: Global,
    parked: &mut Parked<H, D>,
    at: usize,
    which: Loop,
) {
    for _ in 0..1_000 {
        if parked.advance(rt, alloc, at, which) != Advance::Did {
            return;
        }
    }
    panic!(rt; "a loop is idle at some time");
}

// Steps of each loop, until it is idle or has ended.
fn rest_all<H: QueueHistory, D: DirectoryHistory, R: Wait + Abort>(
    rt: &R,
    alloc: Global,
    parked: &mut Parked<H, D>,
) {
    for at in 0..parked.crew.len() {
        for which in &LOOPS {
            rest(rt, alloc, parked, at, *which);
        }
    }
}

// Steps of all loops, until none finds anything to do. Each ends the round in which it is first, since that may have
// passed a queue at which there is more by now.
fn settle<H: QueueHistory, D: DirectoryHistory, R: Wait + Abort>(
    rt: &R,
    alloc: Global,
    parked: &mut Parked<H, D>,
) {
    rest_all(rt, alloc, parked);
    for _ in 0..100 {
        let seen = parked.caller.doorbell().now(rt);
        rest_all(rt, alloc, parked);
        if parked.caller.doorbell().now(rt) == seen {
            return;
        }
    }
    panic!(rt; "a cluster settles at some time");
}

/// Asks for the rest, and ends the cluster once no loop finds anything to do.
pub fn tell_the_rest<H: QueueHistory, D: DirectoryHistory, R: Wait + Abort>(
    rt: &R,
    alloc: Global,
    parked: Parked<H, D>,
) -> Ended<H> {
    let mut parked = parked;
    go_on(rt, alloc, &mut parked);
    settle(rt, alloc, &mut parked);
    parked.finish(rt, alloc)
}
