//! How much there may be of a script.

/// The most bytes of a script.
pub const MOST_SCRIPT_BYTES: usize = 4_194_304;
