//! What the directory keeps of a grain.

/// Where a grain is placed, and its permit.
#[derive(Clone, Copy, Debug, PartialEq, Eq)]
pub struct Place {
    /// The silo.
    pub silo: u8,
    /// The permit that is out.
    pub permit: Option<u64>,
}
