//! Short rows that take no memory.
ghost use Rattle.std.specs.Prelude.{◌≡◌, ◌<◌, ◌≤◌, [], ◌∷◌, ◌++◌, length};
ghost use Rattle.std.specs.Cmp.Lexicographic.{pointwise, lists_per, lists_equiv};

use crate::limits::TURN_EVENTS;
use std::marker::Model;

/// 1 to 16 values, in order, in a fixed row of sixteen places, so that a turn takes no memory.
///
/// A contract sees it as the list of its values.
#[derive(Debug, Drop)]
pub struct Row<T: Copy> {
    len: usize,
    places: [T; TURN_EVENTS],
}

impl<T: Copy> Model for Row<T> {
    ghost use Rattle.std.specs.Prelude.{◌≡◌, ◌≤◌, ◌<◌, List, length, take};
    ghost use Rattle.stream_ident.specs.declared.limits.TheConstants.{TURN_EVENTS};

    ghost Value = { List T };

    ghost view = { λ r. take r.len r.places };

    ghost invariant = { λ r. (0 < r.len) × (r.len ≤ TURN_EVENTS) × (length r.places ≡ TURN_EVENTS) };
}

impl<T: Copy> Row<T> {
    /// The row of one value.
    pub fn of(value: T) -> Row<T>
        ensures { result ≡ value ∷ [] }
    {
        Row {
            len: 1,
            places: [value; TURN_EVENTS],
        }
    }

    /// How many values there are, 1 to 16.
    pub fn len(&self) -> usize
        ensures count { result ≡ length self.now }
        ensures some { 0 < result }
        ensures bound { result ≤ TURN_EVENTS }
    {
        self.len
    }

    /// Adds a value at the end.
    pub fn push(&mut self, value: T)
        requires { length self.old < TURN_EVENTS }
        ensures { self.new ≡ self.old ++ value ∷ [] }
    {
        self.places[self.len] = value;
        self.len += 1;
    }

    /// The values, in order.
    pub fn as_slice(&self) -> &[T]
        ensures values { result.now ≡ self.now }
        ensures some { 0 < length self.now }
        ensures bound { length self.now ≤ TURN_EVENTS }
    {
        &self.places[..self.len]
    }

    /// An equal row. It takes no memory.
    pub fn copy(&self) -> Row<T>
        ensures { result ≡ self.now }
    {
        Row {
            len: self.len,
            places: self.places,
        }
    }
}

impl<T: Copy + PartialEq> PartialEq for Row<T> {
    ghost eq = { λ one other. pointwise T.eq one other };

    ghost laws = { lists_per T.laws };

    fn eq(&self, other: &Row<T>) -> bool {
        self.as_slice() == other.as_slice()
    }
}

impl<T: Copy + Eq> Eq for Row<T> {
    ghost laws = { lists_equiv T.Eq.laws };
}
