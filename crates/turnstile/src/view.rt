//! What the slot of a turnstile holds, and what a pass knows.

use crate::history::Entry;
use std::collections::LinkedList;
use std::snapshot::Snapshot;

/// The history and the object.
#[derive(Drop)]
pub struct Held<X, H> {
    pub history: H,
    pub object: X,
}

/// How a turnstile began: the state of its object, and the most entries of its history. No value of it is
/// made.
pub struct Start<S> {
    pub state: S,
    pub limit: u64,
}

/// The object that a turnstile began with, for proofs alone, and the most entries of its history.
#[derive(Drop)]
pub struct Opening<X> {
    pub object: Snapshot<X>,
    pub limit: u64,
}

/// The numbers of a pass, and what it had seen. No value of it is made.
pub struct Claim<O, R> {
    pub numbers: LinkedList<u64>,
    pub seen: LinkedList<Entry<O, R>>,
}

/// What a pass knows: how the turnstile began, its own number and those joined to it, a count of passes
/// that were made, what it has seen of the history, what joined passes had seen, its ticket, and whether
/// its turn has come. No value of it is made.
pub struct View<S, O, R> {
    pub start: Option<Start<S>>,
    pub numbers: LinkedList<u64>,
    pub made: u64,
    pub seen: LinkedList<Entry<O, R>>,
    pub past: LinkedList<Claim<O, R>>,
    pub tickets: LinkedList<u64>,
    pub come: bool,
}
