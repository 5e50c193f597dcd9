//! Places in a history, where a difference may be found.
use crate::fault::Fault;
use std::alloc::{AllocError, Global};
use std::fmt::Debug;

/// A place in a history.
#[derive(Clone, Copy)]
pub struct Place {
    /// The allocator.
    pub alloc: Global,
    /// The seed of the history.
    pub seed: u64,
    /// How many operations have been done.
    pub operation: u64,
}

impl Place {
    /// Compares two values which should be the same.
    ///
    /// # Errors
    /// There is a difference, or its text failed to allocate.
    pub fn compare<T: Debug + PartialEq>(self, found: &T, expected: &T) -> Result<(), Fault> {
        if found == expected {
            return Ok(());
        }
        Err(Fault::Different(self.difference(found, expected)?))
    }

    /// The text that tells of two values which should be the same.
    fn difference<T: Debug>(self, found: &T, expected: &T) -> Result<String, AllocError> {
        let (seed, operation) = (self.seed, self.operation);
        format!(in self.alloc;
            "seed {seed}, operation {operation}: {found:?}, where {expected:?} was expected"
        )
    }
}
