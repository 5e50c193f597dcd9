//! What a rebalancing gives.
ghost use Rattle.std.specs.Prelude.{◌≡◌};

use std::alloc::AllocError;
use std::marker::Model;

/// The silo of each queue.
///
/// A contract sees it as the list of the silos, in the order of the queues.
#[derive(Debug, Drop)]
pub struct Assignment {
    silos: Vec<u8>,
}

impl Model for Assignment {
    ghost use Rattle.std.specs.Prelude.{ℕ, List};

    ghost Value = { List ℕ };

    ghost view = { λ a. a.silos.items };
}

impl Assignment {
    /// The assignment of these silos. It takes no memory.
    pub(crate) fn of(silos: Vec<u8>) -> Assignment
        ensures { result ≡ silos.items }
    {
        Assignment { silos }
    }

    /// The silos, in the order of the queues.
    pub fn as_slice(&self) -> &[u8]
        ensures { result.now ≡ self.now }
    {
        self.silos.as_slice()
    }

    /// The silos, in the order of the queues. It takes no memory.
    pub fn into_vec(self) -> Vec<u8>
        ensures { result.items ≡ self }
    {
        self.silos
    }
}

/// Why there is no assignment.
#[derive(Clone, Copy, PartialEq, Eq, Debug)]
pub enum RebalanceError {
    /// No silo lives.
    NoSilo,
    /// No memory was left. Nothing has changed.
    Memory(AllocError),
}

impl From<AllocError> for RebalanceError {
    ghost use Rattle.queue_balancer.specs.declared.assignment.RebalanceError.TheVariants.{Memory};

    ghost from_gives = { λ e r. r ≡ Memory e };

    fn from(error: AllocError) -> RebalanceError {
        RebalanceError::Memory(error)
    }
}
