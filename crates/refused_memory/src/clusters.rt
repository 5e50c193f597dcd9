//! The calls of clusters. They have no twin: which of their allocations is refused may be by chance.
pub(crate) mod parked;
pub(crate) mod services;
