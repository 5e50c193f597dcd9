//! Rows in an order of their own: a ranking, which is an order of numbers with the rank of each; and the resumes of
//! subscriptions by rank, with a tree of minima over them, that knows the slowest one and the next that is due.
//!
//! Its specs have the theory of lists that are kept in the order of names (`Ranked`, `Listed`), by which what is
//! added keeps its place among what is there.
#![tactic(auto)]

mod ranking;
mod resumes;
mod tree;

pub use ranking::Ranking;
pub use resumes::{Leaf, Resumes};
