//! The grains that were ever active in a partition, with what waits and runs for each. A grain is found by its
//! name in a binary search, and so is the next that is ready.
#![tactic(auto)]

mod table;

pub use table::GrainTable;
