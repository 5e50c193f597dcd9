//! How a drain ends.
use stream_ident::GrainId;

/// How a drain of a partition ended. What it has done stands in each case.
#[derive(Clone, Copy, Debug, PartialEq, Eq)]
pub enum DrainEnd {
    /// Nothing is left to do: the partition is quiet.
    Drained {
        /// How many turns were committed.
        turns: usize,
    },
    /// A turn runs, and nothing was done.
    Stuck {
        /// The least grain whose turn runs.
        grain: GrainId,
    },
    /// A pull would have made more records than the limit.
    TooMany,
    /// A turn or an activation would have been one rise more than the limit.
    Spent,
}
