//! The turnstile.
ghost use Rattle.std.specs.Prelude.{◌≡◌, IfOk, IfSome, MatchResult, Some};

use crate::asked::Asked;
use crate::history::StoredHistory;
use crate::lock::Lock;
use crate::pass::{Pass, PassOf};
use crate::replays::Replays;
use crate::rule::Slot;
use crate::view::{Held, Opening};
use atomic_table::{Refused, Table};
use std::alloc::{AllocError, Global};
use std::marker::Model;
use std::snapshot::Snapshot;
use std::sync::Wait;
use std::sync::atomic::AtomicU64;

/// Why a call was refused. The history and the object are then as before.
#[derive(Debug, Clone, Copy, PartialEq, Eq)]
pub enum Refusal {
    /// The history has as many entries as it may have.
    HistoryFull,
    /// The call failed to allocate.
    Memory,
}

/// A lock that holds an object and the history of its calls.
///
/// A contract sees which turnstile it is, and how it began.
#[derive(Drop)]
pub struct Turnstile<T: Replays> {
    pub(crate) lock: Lock<T>,
}

impl<T: Replays> Model for Turnstile<T> {
    ghost use Rattle.turnstile.specs.Passes.{Origin, opened};
    ghost use Rattle.turnstile.specs.Turns.{start_of};

    ghost Value = { Origin T.State };

    ghost view = { λ t. opened t.lock.table.shared.table_id (start_of T.state_of t.lock.table.shared.key) };
}

/// What a pass holds while it has its turn.
///
/// A contract sees the history, and the state of the object. It has to be given back, by
/// [`Turnstile::leave`].
pub struct Turn<T: Replays> {
    slot: Slot<T>,
}

impl<T: Replays> Model for Turn<T> {
    ghost use Rattle.turnstile.specs.Passes.{TurnView, turn_view};

    ghost Value = { TurnView T.Op T.Reply T.State };

    ghost view = { λ t. turn_view T.History.entries T.state_of t.slot };
}

impl<T: Replays> Turn<T> {
    ghost use Rattle.std.specs.Option.{IsSome};

    /// The object, to be looked at while the turn lasts.
    pub fn object(&self) -> &T
        requires { IsSome self.now.state }
        ensures { self.now.state ≡ Some (T.state_of result.now) }
    {
        match &self.slot {
            Some(held) => &held.object,
            None => unreachable!(),
        }
    }
}

impl<T: Replays> Turnstile<T> {
    ghost use Rattle.std.specs.Option.{IsSome};
    ghost use Rattle.turnstile.specs.Calls.{first_pass, outside, IsOf, IsTurn, HasEntered, HasOnlySeen, Called, CalledNext, Does, Found, FoundNone, Waited};

    /// A turnstile over an object, whose history may have `limit` entries, and its first pass, with number 0.
    ///
    /// # Errors
    /// The call failed to allocate. The object is dropped.
    pub fn new(
        alloc: Global,
        object: T,
        limit: u64,
    ) -> Result<(Turnstile<T>, PassOf<T>), AllocError>
        ensures start { IfOk result (λ r. r.0.start ≡ record { state = T.state_of object; limit = limit }) }
        ensures pass { IfOk result (λ r. r.1 ≡ first_pass r.0) }
    {
        let about = Opening {
            object: Snapshot::of(&object),
            limit,
        };
        let mut slots = Vec::with_capacity(alloc, 1)?;
        let history = T::History::empty(alloc);
        slots.push_reserved(Some(Held { history, object }));
        match Table::new(alloc, &[1, 0, 0, 0], slots, &about) {
            Ok((table, seat)) => Ok((
                Turnstile {
                    lock: Lock {
                        table,
                        limit,
                        crowd: AtomicU64::new(0),
                    },
                },
                Pass {
                    seat,
                    number: 0,
                    made: 1,
                    joined: 0,
                    len: 0,
                },
            )),
            Err(Refused { slots: _ }) => Err(AllocError),
        }
    }

    // Does an op in a turn, as `call_in` says. The call is lent, and only a history that stores it takes it out: each
    // function that passes an op on by value has the room of another one.
    #[inline(always)]
    pub(crate) fn call_lent(
        &self,
        alloc: Global,
        pass: &mut PassOf<T>,
        turn: &mut Turn<T>,
        asked: &mut Option<Asked<T::Op>>,
        room: &mut T::Room,
    ) -> Result<T::Reply, Refusal>
        requires turn { IsTurn T.replied T.after self.now pass.old turn.old }
        requires asked { IsSome asked.old }
        requires number { IfSome asked.old (λ a. a.number ≡ pass.old.number) }
        ensures pass { HasOnlySeen pass.old pass.new }
        ensures turn { IsTurn T.replied T.after self.now pass.new turn.new }
        ensures call { IfSome asked.old (λ a. MatchResult result (λ r. CalledNext pass.old a.op r pass.new.seen) (λ e. FoundNone self.now.start pass.old e pass.new.seen)) }
        ensures room { MatchResult result (λ r. T.shows room.old room.new r) (λ _. room.new ≡ room.old) }
        ensures does { IfSome asked.old (λ a. IfOk result (λ r. Does T.replied T.after turn.old a.op r turn.new)) }
    {
        let held = turn.slot.as_mut().unwrap();
        let Some(call) = &*asked else { unreachable!() };
        if held.history.len() as u64 >= self.lock.limit {
            return Err(Refusal::HistoryFull);
        }
        if held.history.reserve().is_err() {
            return Err(Refusal::Memory);
        }
        let Ok(reply) = held.object.apply(alloc, &call.op, room) else {
            return Err(Refusal::Memory);
        };
        held.history.push(asked, &reply);
        pass.len += 1;
        self.lock.note(&mut pass.seat, &turn.slot, pass.len);
        Ok(reply)
    }

    /// Waits for its turn, and keeps it until [`leave`](Turnstile::leave). The pass has then seen the whole
    /// history: others may have made calls before the turn came, and make none while it lasts.
    #[inline(never)]
    pub fn enter<R: Wait>(&self, rt: &R, pass: &mut PassOf<T>) -> Turn<T>
        requires { IsOf self.now pass.old }
        ensures pass { HasEntered self.now pass.old pass.new }
        ensures turn { IsTurn T.replied T.after self.now pass.new result }
        ensures seen { Waited pass.old pass.new.seen }
    {
        let held = self.lock.begin(rt, &mut pass.seat);
        pass.len = held.history.len() as u64;
        Turn { slot: Some(held) }
    }

    /// Does an op in a turn, and adds its entry to the history, right after what the pass has seen.
    ///
    /// # Errors
    /// `HistoryFull` where the history has as many entries as it may have, and `Memory` where the call failed
    /// to allocate. Nothing is added, and the object is as before.
    #[inline(never)]
    pub fn call_in(
        &self,
        alloc: Global,
        pass: &mut PassOf<T>,
        turn: &mut Turn<T>,
        op: T::Op,
        room: &mut T::Room,
    ) -> Result<T::Reply, Refusal>
        requires { IsTurn T.replied T.after self.now pass.old turn.old }
        ensures pass { HasOnlySeen pass.old pass.new }
        ensures turn { IsTurn T.replied T.after self.now pass.new turn.new }
        ensures call { MatchResult result (λ r. CalledNext pass.old op r pass.new.seen) (λ e. FoundNone self.now.start pass.old e pass.new.seen) }
        ensures room { MatchResult result (λ r. T.shows room.old room.new r) (λ _. room.new ≡ room.old) }
        ensures does { IfOk result (λ r. Does T.replied T.after turn.old op r turn.new) }
    {
        let number = pass.number;
        self.call_lent(alloc, pass, turn, &mut Some(Asked { number, op }), room)
    }

    /// Gives the turn up.
    #[inline(never)]
    pub fn leave(&self, pass: &mut PassOf<T>, turn: Turn<T>)
        requires { IsTurn T.replied T.after self.now pass.old turn }
        ensures { pass.new ≡ outside self.now pass.old }
    {
        let Turn { slot } = turn;
        self.lock.leave(&mut pass.seat, slot.unwrap());
    }

    /// Waits for its turn, does an op, and adds its entry to the history. The pass has then seen the
    /// history up to this call. What the object shows beside its reply stands in `room`.
    ///
    /// # Errors
    /// `HistoryFull` where the history has as many entries as it may have, and `Memory` where the call failed
    /// to allocate. No entry is added, the object is as before, and the pass has seen the whole history as it
    /// was found.
    #[inline(never)]
    pub fn call_into<R: Wait>(
        &self,
        rt: &R,
        alloc: Global,
        pass: &mut PassOf<T>,
        op: T::Op,
        room: &mut T::Room,
    ) -> Result<T::Reply, Refusal>
        requires { IsOf self.now pass.old }
        ensures pass { HasOnlySeen pass.old pass.new }
        ensures call { MatchResult result (λ r. Called T.replied T.after self.now.start pass.old op r pass.new.seen) (λ e. Found T.replied T.after self.now.start pass.old e pass.new.seen) }
        ensures room { MatchResult result (λ r. T.shows room.old room.new r) (λ _. room.new ≡ room.old) }
    {
        let number = pass.number;
        let asked = &mut Some(Asked { number, op });
        let mut turn = self.enter(rt, pass);
        let answer = self.call_lent(alloc, pass, &mut turn, asked, room);
        self.leave(pass, turn);
        answer
    }
}

impl<T: Replays<Room = ()>> Turnstile<T> {
    ghost use Rattle.turnstile.specs.Calls.{IsOf, HasOnlySeen, Called, Found};

    /// A call of an object that shows nothing beside its replies, as [`call_into`](Turnstile::call_into) does it.
    ///
    /// # Errors
    /// They are those of `call_into`.
    pub fn call<R: Wait>(
        &self,
        rt: &R,
        alloc: Global,
        pass: &mut PassOf<T>,
        op: T::Op,
    ) -> Result<T::Reply, Refusal>
        requires { IsOf self.now pass.old }
        ensures pass { HasOnlySeen pass.old pass.new }
        ensures call { MatchResult result (λ r. Called T.replied T.after self.now.start pass.old op r pass.new.seen) (λ e. Found T.replied T.after self.now.start pass.old e pass.new.seen) }
    {
        self.call_into(rt, alloc, pass, op, &mut ())
    }
}
