//! A script that is simulated.
use crate::came::{Came, Stop, check, with_memory};
use std::alloc::Global;
use step_core::Limits;
use stream_script::{Counted, SimConfig, SimError, sim};

const SCRIPT: &[u8] =
    b"sub o/k g/x latest\npub o/k \"a\"\npub o/k \"b\"\npub o/k \"c\"\ndrain\nreport\n";

const REPLIES: &[u8] =
    b"0 subscribed 1\n0 published 0\n0 published 1\n0 published 2\n0 drained 3\nreport\n0:1 o/k g/x 0.0 3\n  0.0 \"a\"\n  1.0 \"b\"\n  2.0 \"c\"\n";

/// How a simulation of the script ends, and what it writes into this room.
fn simulate(alloc: Global, room: Vec<u8>) -> (Result<(), SimError>, Vec<u8>) {
    let config = SimConfig {
        queues: 1,
        blocks: 4,
        limits: Limits::GREATEST,
    };
    let mut source = Counted::new(SCRIPT);
    let mut sink = Counted::new(room);
    let ended = sim(alloc, config, &mut source, &mut sink);
    (ended, sink.into_inner())
}

/// Tries a simulation. Where memory is refused, a front of its text is written.
pub(crate) fn try_sim(alloc: Global) -> Result<Came, Stop> {
    let (ended, text) = simulate(alloc, Vec::with_capacity(alloc, REPLIES.len())?);
    match ended {
        Ok(()) => {
            check(
                text.as_slice() == REPLIES,
                "a simulation has written something else",
            )?;
            Ok(Came::Done)
        }
        Err(SimError::Memory) => with_memory(simulate_again(alloc, &text)),
        Err(_) => Err(Stop::Wrong("a simulation has ended otherwise")),
    }
}

/// The simulation that was refused is made again.
fn simulate_again(alloc: Global, front: &[u8]) -> Result<(), Stop> {
    check(
        REPLIES.starts_with(front),
        "a simulation has begun to write something else",
    )?;
    let (ended, text) = simulate(alloc, Vec::with_capacity(alloc, REPLIES.len())?);
    check(
        ended.is_ok() && text.as_slice() == REPLIES,
        "a simulation that was refused isn't done again",
    )
}
