//! Whether a partition is quiet.

use stream_model::Pending;

/// Whether everything is pulled, delivered and handled.
#[derive(Clone, Copy, Debug, PartialEq, Eq)]
pub enum Quiet {
    /// It is.
    Yes,
    /// It isn't, for this reason, the first that holds.
    No(Pending),
}
