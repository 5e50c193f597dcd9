//! Why a cluster's silos don't change any more.
ghost use Rattle.std.specs.Prelude.{◌≡◌};

use std::alloc::AllocError;
use turnstile::Refusal;

/// Why a change of silos was broken off. What was answered by then stands, and no silo comes or goes any more.
#[derive(Clone, Copy, Debug, PartialEq, Eq)]
pub enum Halt {
    /// A Move was answered `Spent`, a history is full, or no silo lives.
    Limit,
    /// The call failed to allocate, or a thread can't be made.
    Memory,
}

impl From<Refusal> for Halt {
    ghost use Rattle.silo_operators.specs.Changes.{halt_of};

    ghost from_gives = { λ refusal halt. halt ≡ halt_of refusal };

    fn from(refusal: Refusal) -> Halt {
        match refusal {
            Refusal::HistoryFull => Halt::Limit,
            Refusal::Memory => Halt::Memory,
        }
    }
}

impl From<AllocError> for Halt {
    ghost use Rattle.silo_operators.specs.declared.halt.Halt.TheVariants.{Memory};

    ghost from_gives = { λ _ halt. halt ≡ Memory };

    fn from(_error: AllocError) -> Halt {
        Halt::Memory
    }
}
