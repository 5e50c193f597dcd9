//! The replies of a directory.

use stream_ident::GrainId;

/// What an operation on a directory answers. Each refusal leaves the directory as it was.
#[derive(Clone, Copy, Debug, PartialEq, Eq)]
pub enum DirectoryReply {
    /// Enter is refused: the grain is placed on another silo.
    Elsewhere {
        /// The silo that it is placed on.
        silo: u8,
    },
    /// Enter or Unplace is refused: the grain's permit is out.
    Busy,
    /// Enter is refused: as many permits were given as there are.
    Spent,
    /// The grain is placed on the silo, and its permit is out.
    Entered {
        /// The permit: 1 for the first that the directory gives, and one more each time.
        permit: u64,
    },
    /// Leave is refused: the permit of that grain isn't out, or it is another.
    NotYours,
    /// The permit is back. The grain is placed where it was.
    Left,
    /// Unplace is refused: the grain is placed nowhere.
    NotPlaced,
    /// The grain is placed nowhere.
    Unplaced,
    /// Down is refused: no grain is placed on the silo.
    NoneLeft,
    /// The least grain that was placed on the silo is placed nowhere, and its permit is void.
    Released {
        /// The grain.
        grain: GrainId,
        /// How many grains are still placed on the silo.
        left: usize,
    },
}
