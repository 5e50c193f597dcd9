//! The rule of a turnstile's table, and what each step on its words says.
ghost use Rattle.turnstile.specs.Turns.{Turning, start_of, opening_view, unnumbered, joined, spent_view};
ghost use Rattle.turnstile.specs.Plays.{drew, looked, noted, left, numbered, counted, told};

use crate::replays::Replays;
use crate::view::{Held, Opening, View};
use atomic_table::{Join, Play, Split, TableRule};
use std::marker::PhantomData;

pub type Slot<T> = Option<Held<T, <T as Replays>::History>>;

pub type Seen<T> = View<<T as Replays>::State, <T as Replays>::Op, <T as Replays>::Reply>;

/// All that is seen is a beginning of one legal history.
pub struct OneHistory<T> {
    of: PhantomData<T>,
}

impl<T: Replays> TableRule<Slot<T>, Seen<T>, Opening<T>> for OneHistory<T> {
    ghost holds = { λ key. Turning T.History.entries T.state_of T.replied T.after (start_of T.state_of key) };

    ghost first = { λ key. opening_view (start_of T.state_of key) };
}

/// A ticket is drawn.
pub struct Draw;

impl<X, H, S, O, R> Play<Option<Held<X, H>>, View<S, O, R>> for Draw {
    ghost then = { drew };
}

/// The ticket that is served is looked at.
pub struct Look<T> {
    of: PhantomData<T>,
}

impl<T: Replays> Play<Slot<T>, Seen<T>> for Look<T> {
    ghost then = { looked T.History.entries T.state_of T.replied T.after };
}

/// An entry is added to what all see: the last one of the value that the step announces.
pub struct Note<T> {
    of: PhantomData<T>,
}

impl<T: Replays> Play<Slot<T>, Seen<T>> for Note<T> {
    ghost then = { noted T.History.entries };
}

/// The next ticket is served.
pub struct Serve;

impl<X, H, S, O, R> Play<Option<Held<X, H>>, View<S, O, R>> for Serve {
    ghost then = { left };
}

/// A number is drawn.
pub struct Number;

impl<X, H, S, O, R> Play<Option<Held<X, H>>, View<S, O, R>> for Number {
    ghost then = { numbered };
}

/// The passes that were made are counted.
pub struct Count;

impl<X, H, S, O, R> Play<Option<Held<X, H>>, View<S, O, R>> for Count {
    ghost then = { counted };
}

/// After a join, what both had seen is compared with the history.
pub struct Tell;

impl<X, H, S, O, R> Play<Option<Held<X, H>>, View<S, O, R>> for Tell {
    ghost then = { told };
}

/// A seat that has seen as much, with no number yet.
pub struct Twin;

impl<S, O, R> Split<View<S, O, R>> for Twin {
    ghost left = { λ v. v };

    ghost right = { unnumbered };
}

/// All numbers of both, and the longer of what they have seen.
pub struct Meet;

impl<S, O, R> Join<View<S, O, R>> for Meet {
    ghost both = { joined };

    ghost spent = { spent_view };
}
