//! Work that takes a known processor time.
use anyhow::{Result, ensure};
use std::rt::Clock;
use std::time::Instant;

/// How many steps are measured.
const STEPS: u64 = 500_000;

/// How often they are measured: the best time counts, since the processor does other things, too.
const TRIES: usize = 5;

/// What comes of so many steps, each of which needs what the one before gave.
#[inline(never)]
pub fn work(seed: u64, steps: u64) -> u64 {
    let mut state = seed;
    for _ in 0..steps {
        state ^= state << 13;
        state ^= state >> 7;
        state ^= state << 17;
    }
    state
}

/// How many steps take so many microseconds.
pub fn steps_of<C: Clock>(clock: &C, microseconds: u64) -> Result<u64> {
    if microseconds == 0 {
        return Ok(0);
    }
    let mut best = u128::MAX;
    let mut state = 1;
    for _ in 0..TRIES {
        let start = Instant::now(clock)?;
        state = work(state, STEPS);
        best = best.min(start.elapsed(clock)?.as_nanos());
    }
    // What nobody looks at isn't computed.
    ensure!(state != 0, "the work came to nothing");
    let nanoseconds = u64::try_from(best)?.max(1);
    Ok((STEPS * 1_000 / nanoseconds).saturating_mul(microseconds))
}
