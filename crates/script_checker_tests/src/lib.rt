//! The tests of the checker of scripts: where the fault of a line is said to be, and what is told of it; and the summary of
//! a script. They stand in a crate of their own, since a crate with tests is proved twice.
#![tactic(auto)]

#[cfg(test)]
mod faults;
#[cfg(test)]
mod summaries;
