//! How the loops of a run have ended.
ghost use Rattle.std.specs.Prelude.{◌≡◌};
ghost use Rattle.queue_callers.specs.Ends.{ends_with};

use silo_loops::Over;

/// How the loops of a run have ended, all in all.
#[derive(Clone, Copy, Debug, Default, PartialEq, Eq)]
pub struct LoopEnds {
    /// A loop failed to allocate.
    pub memory: bool,
    /// A loop was told that a limit is reached, or found a history full.
    pub limit: bool,
    /// A loop has made as many rounds as it may.
    pub rounds: bool,
}

impl LoopEnds {
    /// Notes how one more loop has ended: by itself, or `None` where it was told to stop.
    pub fn note(&mut self, over: Option<Over>)
        ensures { self.new ≡ ends_with self.old over }
    {
        match over {
            None => {}
            Some(Over::Rounds) => self.rounds = true,
            Some(Over::Limit) => self.limit = true,
            Some(Over::Memory) => self.memory = true,
        }
    }
}
