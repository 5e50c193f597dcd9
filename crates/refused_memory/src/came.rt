//! What comes of a call to which memory may be refused.
ghost use Rattle.std.specs.Prelude.{◌≡◌, ◌↔◌, IfOk, IsOk, IsTrue};

use std::alloc::{AllocError, AllocFailed};
use std::io;
use stream_ident::{BadName, BadPayload};
use turnstile::Refusal;

/// What came of a call.
#[derive(Clone, Copy, Debug, PartialEq, Eq)]
pub(crate) enum Came {
    /// Nothing was refused.
    Done,
    /// Memory was refused to the call, and all was as it has to be.
    Refused,
}

impl Came {
    /// The word for it.
    pub(crate) fn word(self) -> &'static str {
        match self {
            Came::Done => "done",
            Came::Refused => "refused",
        }
    }
}

/// Why neither is said.
#[derive(Debug, Drop)]
pub(crate) enum Stop {
    /// Memory was refused to something else than the call.
    Memory,
    /// Something isn't as it has to be.
    Wrong(&'static str),
}

/// Stops where it isn't so.
///
/// # Errors
/// It isn't so, which is `Wrong`.
pub(crate) fn check(is_so: bool, wrong: &'static str) -> Result<(), Stop>
    ensures { IsOk result ↔ IsTrue is_so }
{
    if is_so {
        Ok(())
    } else {
        Err(Stop::Wrong(wrong))
    }
}

/// What came of a call to which memory was refused, where this was found behind it.
///
/// # Errors
/// Something isn't so, or memory was refused once more.
pub(crate) fn with_memory(found: Result<(), Stop>) -> Result<Came, Stop>
    ensures right { IsOk result ↔ IsOk found }
    ensures came { IfOk result (λ came. came ≡ Came.Refused) }
{
    match found {
        Ok(()) => Ok(Came::Refused),
        Err(Stop::Memory) => Err(Stop::Wrong("memory was refused twice")),
        Err(stop) => Err(stop),
    }
}

impl From<AllocError> for Stop {
    fn from(_: AllocError) -> Stop {
        Stop::Memory
    }
}

impl<T: Drop> From<AllocFailed<T>> for Stop {
    fn from(_: AllocFailed<T>) -> Stop {
        Stop::Memory
    }
}

impl From<io::Error> for Stop {
    fn from(error: io::Error) -> Stop {
        match error.kind() {
            io::ErrorKind::OutOfMemory => Stop::Memory,
            _ => Stop::Wrong("nothing can be printed"),
        }
    }
}

impl From<BadName> for Stop {
    fn from(_: BadName) -> Stop {
        Stop::Wrong("a name of the case is none")
    }
}

impl From<BadPayload> for Stop {
    fn from(_: BadPayload) -> Stop {
        Stop::Wrong("a payload of the case is none")
    }
}

impl From<Refusal> for Stop {
    fn from(refusal: Refusal) -> Stop {
        match refusal {
            Refusal::Memory => Stop::Memory,
            Refusal::HistoryFull => Stop::Wrong("the history is full"),
        }
    }
}
