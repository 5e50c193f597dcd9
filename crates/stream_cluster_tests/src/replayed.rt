//! What the calls of parked clusters came to.
use crate::running::Calls;
use silo_threads::Traces;
use std::alloc::Global;
use std::process::Abort;
use step_core::{Limits, Op, Outcome, Partition, Reply};
use stream_ident::{GrainId, Token};
use turnstile::Asked;

/// What can come to pass where a silo goes.
#[derive(Clone, Copy)]
pub struct Astray {
    /// How many deliveries were lost to deactivations.
    pub lost: usize,
    /// How often an agent has called at a queue that another agent has.
    pub stale: usize,
}

/// A turn that began.
#[derive(Clone, Copy)]
pub struct Begun {
    pub grain: GrainId,
    pub activation: u64,
    pub turn: u64,
}

/// What the calls of a queue came to.
#[derive(Drop)]
pub struct CameTo {
    pub astray: Astray,
    /// The generation of the last agent to which the queue was moved, and the low token that it began with.
    pub moved: Option<(u64, Token)>,
    /// All turns that began.
    pub turns: Vec<Begun>,
    /// Whether the last of them runs still.
    pub runs: bool,
}

impl CameTo {
    // A turn has begun.
    fn begin<R: Abort>(&mut self, rt: &R, op: &Op, activation: u64, turn: u64) {
        let Op::Begin { grain, .. } = *op else {
            panic!(rt; "only a Begin begins a turn");
        };
        let begun = Begun {
            grain,
            activation,
            turn,
        };
        self.turns.push(begun).expect(rt, "memory");
        self.runs = true;
    }

    // One more call has come to this.
    fn note<R: Abort>(&mut self, rt: &R, op: &Op, outcome: &Outcome) {
        match *outcome {
            Reply::Deactivated { lost } => {
                self.astray.lost = self.astray.lost.wrapping_add(lost);
                self.runs = false;
            }
            Reply::StaleAgent { .. } => self.astray.stale = self.astray.stale.wrapping_add(1),
            Reply::Moved { generation, low } => self.moved = Some((generation, low)),
            Reply::Turn {
                activation,
                turn,
                ..
            } => self.begin(rt, op, activation, turn),
            Reply::Committed { .. } => self.runs = false,
            _ => {}
        }
    }
}

/// Does all calls of a queue once more, on a partition like the one that it began with, which moves at most a thousand
/// times.
pub fn replay<R: Abort>(rt: &R, alloc: Global, calls: &[Asked<Op>]) -> CameTo {
    let limits = Limits {
        rises: 1_000,
        ..Limits::GREATEST
    };
    let mut partition = Partition::new(alloc, 1, limits).expect(rt, "memory");
    let mut came_to = CameTo {
        astray: Astray { lost: 0, stale: 0 },
        moved: None,
        turns: Vec::new(alloc),
        runs: false,
    };
    for call in calls {
        let answer = partition.answer(alloc, &call.op, &mut Vec::new(alloc));
        came_to.note(rt, &call.op, answer.expect(rt, "memory").outcome());
    }
    came_to
}

/// What came to pass in a cluster, whose queues move at most a thousand times.
pub fn astray_in<R: Abort>(rt: &R, alloc: Global, traces: &Traces<Calls>) -> Astray {
    let mut all = Astray { lost: 0, stale: 0 };
    for history in &traces.histories {
        let came_to = replay(rt, alloc, history.as_slice());
        all.lost = all.lost.wrapping_add(came_to.astray.lost);
        all.stale = all.stale.wrapping_add(came_to.astray.stale);
    }
    all
}
