//! What a caller of a turnstile carries.
ghost use Rattle.std.specs.Prelude.{◌≡◌, length};

use crate::replays::Replays;
use crate::view::{Held, View};
use atomic_table::Seat;
use std::marker::Model;

/// A pass of a turnstile, with what it has seen of the history.
///
/// A contract sees which turnstile it is of, or in which it has a turn, its number and those joined to it, how many passes it knows
/// were made, and what it has seen. It has no bound, so that a struct over a generic object can hold one:
/// name its type as [`PassOf`].
#[derive(Drop)]
pub struct Pass<X, H, O, R, S> {
    pub(crate) seat: Seat<Option<Held<X, H>>, View<S, O, R>>,
    pub(crate) number: u64,
    pub(crate) made: u64,
    pub(crate) joined: u64,
    pub(crate) len: u64,
}

impl<X, H, O, R, S> Model for Pass<X, H, O, R, S> {
    ghost use Rattle.turnstile.specs.Passes.{PassView, pass_view, Sits};

    ghost Value = { PassView O R S };

    ghost view = { λ p. pass_view p.seat.table_id p.seat.me.0 p.number };

    ghost invariant = { λ p. Sits p.seat.me p.number p.made p.joined p.len };
}

/// The pass of a turnstile with such an object.
pub type PassOf<T> = Pass<
    T,
    <T as Replays>::History,
    <T as Replays>::Op,
    <T as Replays>::Reply,
    <T as Replays>::State,
>;

impl<X, H, O, R, S> Pass<X, H, O, R, S> {
    /// How many entries of the history the pass has seen.
    pub fn len(&self) -> u64
        ensures { result ≡ length self.now.seen }
    {
        self.len
    }

    /// The number under which its calls stand in the history.
    pub fn number(&self) -> u64
        ensures { result ≡ self.now.number }
    {
        self.number
    }

    /// How many passes were made, as far as the pass knows.
    pub fn made(&self) -> u64
        ensures { result ≡ self.now.made }
    {
        self.made
    }
}
