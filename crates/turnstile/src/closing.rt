//! The end of a turnstile.
ghost use Rattle.std.specs.Prelude.{◌≡◌, ◌-◌, ◌^◌, ◌<◌, ◌≤◌, length, min, IfSome, All, vec_len};

use crate::lock::{Lock, PASSES};
use crate::pass::{Pass, PassOf};
use crate::replays::Replays;
use crate::turnstile::Turnstile;
use crate::view::Held;

/// The history of a turnstile, and the object at its end.
#[derive(Drop)]
pub struct Traced<T: Replays> {
    /// Every call that was made, in order.
    pub history: T::History,
    /// What the calls made of the object.
    pub object: T,
}

/// What was given to `close`, where a pass is missing.
#[derive(Drop)]
pub struct NotAll<T: Replays> {
    /// The turnstile as it was.
    pub turnstile: Turnstile<T>,
    /// The passes as they were given, save that the first now knows how many passes were made.
    pub passes: Vec<PassOf<T>>,
    /// How many passes are neither given nor joined to one that is.
    pub missing: u64,
}

/// What `close` answers.
#[derive(Drop)]
pub enum Closed<T: Replays> {
    /// All passes were given, and this is what was done.
    Traced(Traced<T>),
    /// A pass that was made was neither given nor joined to one that was.
    NotAll(NotAll<T>),
    /// A pass was made while the turnstile was closed. As far as the first pass knew, none was missing.
    InUse,
}

impl<T: Replays> Turnstile<T> {
    ghost use Rattle.turnstile.specs.Calls.{numbers_of, IsOf};
    ghost use Rattle.turnstile.specs.Closing.{all_numbers, FirstCounted, Gathered, IsTrace, IsClosed};

    /// Ends a turnstile to which all passes came back, and gives its history and its object.
    ///
    /// Where a pass is missing, it gives the turnstile and the passes back, and the first pass then knows
    /// how many passes were made. It answers `InUse` where none is missing by that count, and the table, once
    /// it is closed, shows another; no run is known to meet that. So it never answers `InUse` where the first
    /// pass already knew of more passes than were given. It takes no memory.
    pub fn close(self, mut passes: Vec<PassOf<T>>) -> Closed<T>
        requires some { 0 < vec_len passes }
        requires passes { All (IsOf self) passes.items }
        ensures { IsClosed T.History.entries T.replied T.after T.state_of self passes.items result }
    {
        let made = self.count_first(&mut passes);
        let given = Turnstile::count_numbers(&passes);
        if given < made {
            return Closed::NotAll(NotAll {
                turnstile: self,
                passes,
                missing: made - given,
            });
        }
        let kept = self.gather(passes);
        match self.end(kept, made) {
            Some(traced) => Closed::Traced(traced),
            None => Closed::InUse,
        }
    }

    // Asks, for the first pass, how many passes were made.
    fn count_first(&self, passes: &mut Vec<PassOf<T>>) -> u64
        requires some { 0 < vec_len passes.old }
        requires passes { All (IsOf self.now) passes.old.items }
        ensures passes { All (IsOf self.now) passes.new.items }
        ensures counted { FirstCounted passes.old.items passes.new.items result }
    {
        let first = &mut passes[0];
        self.count(first);
        first.made
    }

    // Joins all passes into one.
    fn gather(&self, mut passes: Vec<PassOf<T>>) -> PassOf<T>
        requires some { 0 < vec_len passes }
        requires passes { All (IsOf self.now) passes.items }
        ensures pass { IsOf self.now result }
        ensures gathered { Gathered passes.items result }
    {
        let Some(mut kept) = passes.pop() else {
            unreachable!()
        };
        while let Some(other) = passes.pop() {
            self.join(&mut kept, other);
        }
        kept
    }

    // The history and the object, unless more passes were made than were counted.
    fn end(self, pass: PassOf<T>, made: u64) -> Option<Traced<T>>
        requires pass { IsOf self pass }
        requires all { made ≤ length (numbers_of pass) }
        ensures { IfSome result (λ t. IsTrace T.replied T.after T.state_of self.start pass (T.History.entries t.history) t.object) }
    {
        let Turnstile { lock } = self;
        let Lock {
            table,
            limit: _,
            crowd: _,
        } = lock;
        let Pass {
            seat,
            number: _,
            made: _,
            joined: _,
            len: _,
        } = pass;
        let mut closed = table.close_with(seat);
        let all = closed.word(PASSES);
        let slot = closed.take(0);
        closed.free();
        if all != made {
            return None;
        }
        let Held { history, object } = slot?;
        Some(Traced { history, object })
    }

    // How many numbers the passes have, or the most that fit.
    fn count_numbers(passes: &Vec<PassOf<T>>) -> u64
        ensures { result ≡ min (length (all_numbers passes.now.items)) (2 ^ 64 - 1) }
    {
        let mut count: u64 = 0;
        for pass in passes {
            count = count.saturating_add(pass.joined).saturating_add(1);
        }
        count
    }
}
