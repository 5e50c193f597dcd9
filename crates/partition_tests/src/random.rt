//! Pseudo-random numbers: the same in each run.
ghost use Rattle.std.specs.Prelude.{◌<◌};

use rand::rngs::SmallRng;
use rand::{RngExt, SeedableRng};

/// Numbers that follow from a seed.
#[derive(Drop)]
pub(crate) struct Random {
    numbers: SmallRng,
}

impl Random {
    /// The numbers of a seed.
    pub(crate) fn new(seed: u64) -> Random {
        Random {
            numbers: SmallRng::seed_from_u64(seed),
        }
    }

    /// A number below another.
    pub(crate) fn below(&mut self, end: usize) -> usize
        requires { 0 < end }
        ensures { result < end }
    {
        self.numbers.random_range(0..end)
    }
}
