//! A pass with its turnstile, and the turn that it may keep.
ghost use Rattle.std.specs.Prelude.{◌≡◌, length, IfOk, MatchResult, None, OnErr, OnOk};
ghost use Rattle.std.specs.Arc.{arc_value};
ghost use Rattle.std.specs.Fn.{FnOnceReturnsAt};
ghost use Rattle.turnstile.specs.Calls.{outside, Agree, CallsBy, HasOnlyMade, IsOf, IsSeated, IsSplitOff, IsTurn, LooksBy, Waited, joined_pass};

use crate::asked::Asked;
use crate::pass::PassOf;
use crate::replays::Replays;
use crate::turnstile::{Refusal, Turn, Turnstile};
use std::alloc::{AllocError, Global};
use std::marker::Model;
use std::mem;
use std::sync::{Arc, Wait};

/// A pass with its turnstile. After a call it gives its turn up, or keeps it for the next one, as it is told.
///
/// A contract sees the pass, without the turn that it may have. None says that a turn is kept, or for how long.
/// Whoever keeps one and waits for another may wait for ever.
pub struct Handle<T: Replays> {
    turnstile: Arc<Turnstile<T>, Global>,
    pass: PassOf<T>,
    turn: Option<Turn<T>>,
    keeps: bool,
}

impl<T: Replays> Drop for Handle<T> {
    fn drop(self) {
        let Handle {
            turnstile,
            mut pass,
            turn,
            keeps: _,
        } = self;
        give_up(&turnstile, &mut pass, turn);
    }
}

impl<T: Replays> Model for Handle<T> {
    ghost use Rattle.std.specs.Arc.{arc_value};
    ghost use Rattle.turnstile.specs.Calls.{outside, IsSeated};
    ghost use Rattle.turnstile.specs.Passes.{PassView};

    ghost Value = { PassView T.Op T.Reply T.State };

    ghost view = { λ h. outside (arc_value h.turnstile) h.pass };

    ghost invariant = { λ h. IsSeated T.replied T.after (arc_value h.turnstile) h.turn h.pass };
}

impl<T: Replays> Handle<T> {
    /// A handle with this pass.
    pub fn new(turnstile: Arc<Turnstile<T>, Global>, pass: PassOf<T>) -> Handle<T>
        requires { IsOf (arc_value turnstile) pass }
        ensures { result ≡ pass }
    {
        let _len = pass.len;
        Handle {
            turnstile,
            pass,
            turn: None,
            keeps: false,
        }
    }

    /// How many entries of the history the pass has seen.
    pub fn len(&self) -> u64
        ensures { result ≡ length self.now.seen }
    {
        self.pass.len()
    }

    /// Does an op in the turn that it keeps, or waits for one.
    ///
    /// # Errors
    /// `HistoryFull` where the history has as many entries as it may have, and `Memory` where the call failed
    /// to allocate. No entry is added, the object is as before, and the pass has seen the whole history as it
    /// was found.
    #[inline(always)]
    pub fn call<R: Wait>(
        &mut self,
        rt: &R,
        alloc: Global,
        op: T::Op,
        room: &mut T::Room,
    ) -> Result<T::Reply, Refusal>
        ensures calls { CallsBy T.replied T.after self.old op result self.new }
        ensures room { MatchResult result (λ r. T.shows room.old room.new r) (λ _. room.new ≡ room.old) }
    {
        let number = self.pass.number();
        let asked = &mut Some(Asked { number, op });
        let mut turn = take_turn(&self.turnstile, rt, &mut self.pass, self.turn.take());
        let answer = self
            .turnstile
            .call_lent(alloc, &mut self.pass, &mut turn, asked, room);
        settle(
            &self.turnstile,
            &mut self.pass,
            &mut self.turn,
            turn,
            self.keeps,
        );
        answer
    }

    /// Shows the object, in the turn that it keeps or in one that it waits for, and gives what is read of it. No entry is
    /// added, and the pass has then seen the whole history. Nobody else has a turn while `read` runs.
    #[inline(never)]
    pub fn look<R: Wait, V, F: FnOnce(&T) -> V>(&mut self, rt: &R, read: F) -> V
        requires { F.IsAlwaysCallable read }
        ensures { LooksBy T.replied T.after self.old (λ state. (object : T) × (state ≡ T.state_of object) × FnOnceReturnsAt F.FnOnce read object result) self.new }
    {
        let turn = take_turn(&self.turnstile, rt, &mut self.pass, self.turn.take());
        let seen = read(turn.object());
        settle(
            &self.turnstile,
            &mut self.pass,
            &mut self.turn,
            turn,
            self.keeps,
        );
        seen
    }

    /// Keeps its turn from the next call on.
    pub fn keep(&mut self)
        ensures { self.new ≡ self.old }
    {
        self.keeps = true;
    }

    /// Gives up the turn that it may have, and keeps none from now on.
    pub fn leave(&mut self)
        ensures { self.new ≡ self.old }
    {
        give_up(&self.turnstile, &mut self.pass, self.turn.take());
        self.keeps = false;
    }

    /// A handle with a pass of its own, which has seen as much and has made no call. A turn that it may have is
    /// given up.
    ///
    /// # Errors
    /// The turnstile can't be shared once more, or 2^32 passes of it were made. The pass is then as before, save
    /// that it may know of more passes.
    pub fn split(&mut self) -> Result<Handle<T>, AllocError>
        ensures same { OnOk result (self.new ≡ self.old) }
        ensures turnstile { self.new.turnstile ≡ self.old.turnstile }
        ensures new { IfOk result (λ new. IsSplitOff self.old new) }
        ensures made { OnErr result (HasOnlyMade self.old self.new) }
    {
        let turnstile = Arc::try_clone(&self.turnstile)?;
        give_up(&self.turnstile, &mut self.pass, self.turn.take());
        let pass = turnstile.split(&mut self.pass)?;
        Ok(Handle::new(turnstile, pass))
    }

    /// Takes in another handle of the same turnstile: the numbers of its pass, and what that has seen where it is
    /// more. A turn that either may have is given up.
    pub fn join(&mut self, other: Handle<T>)
        requires { other.turnstile ≡ self.old.turnstile }
        ensures joined { self.new ≡ joined_pass self.old other }
        ensures agree { Agree self.old other self.new }
    {
        let (_turnstile, pass) = other.into_parts();
        give_up(&self.turnstile, &mut self.pass, self.turn.take());
        self.turnstile.join(&mut self.pass, pass);
    }

    /// The turnstile and the pass. A turn that it may have is given up.
    pub fn into_parts(self) -> (Arc<Turnstile<T>, Global>, PassOf<T>)
        ensures pass { result.1 ≡ self }
        ensures of { IsOf (arc_value result.0) result.1 }
    {
        let Handle {
            turnstile,
            mut pass,
            turn,
            keeps: _,
        } = self;
        give_up(&turnstile, &mut pass, turn);
        (turnstile, pass)
    }
}

// The turn that is kept, or one that the pass waits for.
fn take_turn<T: Replays, R: Wait>(
    turnstile: &Turnstile<T>,
    rt: &R,
    pass: &mut PassOf<T>,
    turn: Option<Turn<T>>,
) -> Turn<T>
    requires { IsSeated T.replied T.after turnstile.now turn pass.old }
    ensures turn { IsTurn T.replied T.after turnstile.now pass.new result }
    ensures pass { outside turnstile.now pass.new ≡ record (outside turnstile.now pass.old) { seen = pass.new.seen } }
    ensures seen { Waited (outside turnstile.now pass.old) pass.new.seen }
{
    match turn {
        Some(turn) => turn,
        None => turnstile.enter(rt, pass),
    }
}

// Keeps the turn, or gives it up.
fn settle<T: Replays>(
    turnstile: &Turnstile<T>,
    pass: &mut PassOf<T>,
    kept: &mut Option<Turn<T>>,
    turn: Turn<T>,
    keeps: bool,
)
    requires none { kept.old ≡ None }
    requires turn { IsTurn T.replied T.after turnstile.now pass.old turn }
    ensures seated { IsSeated T.replied T.after turnstile.now kept.new pass.new }
    ensures pass { outside turnstile.now pass.new ≡ outside turnstile.now pass.old }
{
    if !keeps {
        turnstile.leave(pass, turn);
        return;
    }
    match mem::replace(kept, Some(turn)) {
        None => {}
        Some(_other) => unreachable!(),
    }
}

// Gives up the turn, where there is one.
fn give_up<T: Replays>(turnstile: &Turnstile<T>, pass: &mut PassOf<T>, turn: Option<Turn<T>>)
    requires { IsSeated T.replied T.after turnstile.now turn pass.old }
    ensures { pass.new ≡ outside turnstile.now pass.old }
{
    match turn {
        Some(turn) => turnstile.leave(pass, turn),
        None => {}
    }
}
