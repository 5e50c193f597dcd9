//! What a trace shows.
ghost use Rattle.std.specs.Prelude.{◌≡◌};
ghost use Rattle.script_tasks.specs.Printing.{is_seen};

use script_runs::Calls;

/// What a trace shows of what was done.
#[derive(Clone, Copy, Debug, PartialEq, Eq)]
pub struct Shown {
    /// Which calls.
    pub calls: Calls,
    /// The one queue whose history is shown, or none where all are.
    pub queue: Option<usize>,
}

impl Shown {
    /// Whether the history of a queue is shown.
    pub(crate) fn sees(self, queue: usize) -> bool
        ensures { result ≡ is_seen self.queue queue }
    {
        match self.queue {
            None => true,
            Some(one) => one == queue,
        }
    }
}
