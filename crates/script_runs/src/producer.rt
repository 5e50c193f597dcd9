//! The one producer of a script, line by line.
//!
//! A script that is run on silos has one producer, which asks for what each line says and is answered. What it is told
//! follows from the lines before, whatever the silos do meanwhile: [`ask`] and [`ask_each`] say so in their contracts,
//! provided that nobody else produces.
//!
//! Not claimed: that a call's turn comes.

mod answer;
mod asking;

pub use answer::Answer;
pub use asking::{ask, ask_each};
