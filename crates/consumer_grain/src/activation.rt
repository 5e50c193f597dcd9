//! A grain's mailbox and its turn.
ghost use Rattle.std.specs.Prelude.{◌≡◌, ◌+◌, ◌^◌, ◌<◌, ◌≤◌, ◌∷◌, ◌==◌, true, false, length, drop, Some, None, is_some, OnErr, IfOk, IfSome, not, filter, is_ok, if◌then◌else◌};
ghost use Rattle.stream_ident.specs.declared.limits.TheConstants.{MAILBOX_PLACES, TURN_EVENTS};
ghost use Rattle.stream_ident.specs.declared.limits.TheConstants.{TURN_EVENTS};
ghost use Rattle.std.specs.List.{slice_get};
ghost use Rattle.std.specs.Option.{option_copied};
ghost use Rattle.stream_ident.specs.Words.{past, Performs};
ghost use Rattle.consumer_grain.specs.Activations.{begin, begin_front, can_begin, commit, current_turn, deactivated, forgotten, holds, is_front_new, is_in, lost, new_activation, offered, offer_takes_memory, running_count, runs, with_number, without_number};
ghost use Rattle.consumer_grain.specs.Begins.{RisesFrom};
ghost use Rattle.consumer_grain.specs.Handled.{rises_from};

use crate::mailbox::{Delivery, Mailbox, has_sub, turn_positions, turn_size};
use crate::sub_state::SubState;
use crate::told::{Begun, Ended, Offered};
use std::alloc::{AllocError, Global};
use std::marker::Model;
use stream_ident::Row;

/// A turn that runs: one grain handles some events of one subscription, and nothing else meanwhile.
#[derive(Debug, Drop)]
pub struct RunningTurn {
    /// The number of the record of the subscription whose events it has.
    pub sub: usize,
    /// The number of the turn.
    pub turn: u64,
    /// The positions of its events, 1 to 16 that rise.
    pub positions: Row<usize>,
}

/// A grain as its partition knows it: whether it is in memory, what waits for it, and its turn.
///
/// A contract sees it as how often it was activated, whether it is active, the deliveries that wait, the
/// oldest first, the turn that runs, and the subscriptions that something was offered for, by rising
/// numbers. The room that these have in memory is no part of it.
#[derive(Debug)]
pub struct Activation {
    number: u64,
    is_active: bool,
    mailbox: Mailbox,
    running: Option<RunningTurn>,
    subs: Vec<usize>,
}

impl Drop for Activation {
    fn drop(self) {
        let Self {
            number: _,
            is_active: _,
            mailbox: _,
            running: _,
            subs: _,
        } = self;
    }
}

impl Model for Activation {
    ghost use Rattle.consumer_grain.specs.Activations.{PlainActivation};
    ghost use Rattle.consumer_grain.specs.Handled.{rises_from};
    ghost use Rattle.std.specs.Prelude.{◌≡◌, true};

    ghost Value = { PlainActivation };

    ghost view = { λ a. record { number = a.number; active = a.is_active; mailbox = a.mailbox; running = a.running; subs = a.subs.items } };

    ghost invariant = { λ a. rises_from 0 a.subs.items ≡ true };
}

impl Activation {
    /// A grain that was never active. It takes the memory of its mailbox.
    ///
    /// # Errors
    /// The call failed to allocate.
    pub fn new(alloc: Global) -> Result<Activation, AllocError>
        ensures { IfOk result (λ a. a ≡ new_activation) }
    {
        Ok(Activation {
            number: 0,
            is_active: false,
            mailbox: Mailbox::new(alloc)?,
            running: None,
            subs: Vec::new(alloc),
        })
    }

    /// How often it was activated: the number of its activation, 0 before the first.
    pub fn number(&self) -> u64
        ensures { result ≡ self.now.number }
    {
        self.number
    }

    /// Whether it is in memory.
    pub fn is_active(&self) -> bool
        ensures { result ≡ self.now.active }
    {
        self.is_active
    }

    /// How many deliveries wait, at most 16.
    pub fn waiting(&self) -> usize
        ensures count { result ≡ length self.now.mailbox }
        ensures bound { result ≤ MAILBOX_PLACES }
    {
        self.mailbox.as_slice().len()
    }

    /// The oldest delivery that waits.
    pub fn front(&self) -> Option<Delivery>
        ensures { result ≡ slice_get self.now.mailbox 0 }
    {
        self.mailbox.as_slice().first().copied()
    }

    /// The turn that runs.
    pub fn running(&self) -> Option<&RunningTurn>
        ensures { option_copied result ≡ self.now.running }
    {
        self.running.as_ref()
    }

    /// The turn that runs, if it is this turn of this activation.
    pub fn current_turn(&self, activation: u64, turn: u64) -> Option<&RunningTurn>
        ensures { option_copied result ≡ current_turn self.now activation turn }
    {
        let run = self.running()?;
        if activation == self.number && turn == run.turn {
            Some(run)
        } else {
            None
        }
    }

    /// The numbers of the subscriptions that something was offered for and that weren't forgotten, rising.
    pub fn subs(&self) -> &[usize]
        ensures subs { result.now ≡ self.now.subs }
        ensures rising { rises_from 0 self.now.subs ≡ true }
    {
        self.subs.as_slice()
    }

    /// Whether a delivery of a subscription waits or runs. It looks at the mailbox once.
    pub fn holds(&self, sub: usize) -> bool
        ensures { result ≡ holds sub self.now }
    {
        has_sub(self.mailbox.as_slice(), sub) || runs(&self.running, sub)
    }

    /// Performs a delivery, which wakes the grain where it isn't active: the activation gets the next number, up to the
    /// greatest of 64 bits. Sixteen deliveries wait at most, and one more is refused.
    ///
    /// A binary search looks the subscription up. The first delivery of each is inserted among the numbers,
    /// which moves those after it.
    ///
    /// # Errors
    /// The call failed to allocate, and nothing has changed. That can happen only at a delivery that would be
    /// taken, and only where its subscription isn't among the numbers.
    pub fn offer(&mut self, _alloc: Global, delivery: Delivery) -> Result<Offered, AllocError>
        ensures performs { Performs self.old self.new result (offered self.old delivery) }
        ensures memory { OnErr result (offer_takes_memory self.old delivery ≡ true) }
    {
        if self.mailbox.is_full() {
            return Ok(Offered::MailboxFull);
        }
        add_number(&mut self.subs, delivery.sub)?;
        if !self.is_active {
            self.number = self.number.saturating_add(1);
            self.is_active = true;
        }
        self.mailbox.push(delivery);
        Ok(Offered::Delivered)
    }

    /// Whether `begin` would begin a turn: none runs, the grain is active, and its front delivery is past what
    /// its subscription, which `state` is of, has handled.
    pub fn can_begin(&self, state: &SubState) -> bool
        ensures { result ≡ can_begin self.now (past state.now.handled) }
    {
        self.running.is_none()
            && self.is_active
            && is_front_new(self.mailbox.as_slice(), state.handled.past())
    }

    /// Begins a turn with the front of the mailbox: the longest front, at most `max_events` and at most 16,
    /// at least 1, that is all of one subscription and whose positions rise. A front delivery that isn't
    /// past what its subscription has handled is dropped, and begins none.
    ///
    /// `state` says how far the subscription of the front delivery is, and `turn` is the number that the turn
    /// gets. It takes no memory.
    pub fn begin(&mut self, state: &SubState, turn: u64, max_events: usize) -> Begun
        ensures begun { (self.new, result) ≡ begin self.old (past state.now.handled) turn max_events }
        ensures rising { RisesFrom (past state.now.handled) result }
    {
        if self.running.is_some() {
            return Begun::Busy;
        }
        if !self.is_active {
            return Begun::Empty;
        }
        self.begin_front(state.handled.past(), turn, turn_size(max_events))
    }

    /// Begins with the front delivery, where there is one.
    fn begin_front(&mut self, past: usize, turn: u64, most: usize) -> Begun
        requires some { 1 ≤ most }
        requires bound { most ≤ TURN_EVENTS }
        ensures begun { (self.new, result) ≡ begin_front self.old past turn most self.old.mailbox }
        ensures rising { RisesFrom past result }
    {
        let Some(front) = self.mailbox.as_slice().first() else {
            return Begun::Empty;
        };
        let front = *front;
        if front.position < past {
            self.mailbox.drop_front(1);
            return Begun::Dropped(front);
        }
        let positions = turn_positions(self.mailbox.as_slice(), front, most);
        self.mailbox.drop_front(positions.len());
        self.running = Some(RunningTurn {
            sub: front.sub,
            turn,
            positions: positions.copy(),
        });
        Begun::Turn {
            sub: front.sub,
            positions,
        }
    }

    /// Ends the turn that runs, and gives it, if it is this turn of this activation. It takes no memory.
    pub fn commit(&mut self, activation: u64, turn: u64) -> Ended
        ensures { (self.new, result) ≡ commit self.old activation turn }
    {
        if self.current_turn(activation, turn).is_none() {
            return Ended::Stale;
        }
        match self.running.take() {
            Some(run) => Ended::Turn(run),
            None => Ended::Stale,
        }
    }

    /// The deliveries of a subscription leave the mailbox, and its number leaves the numbers. A turn that
    /// runs stays. It takes no memory.
    pub fn forget(&mut self, sub: usize)
        ensures { self.new ≡ forgotten sub self.old }
    {
        self.mailbox.drop_sub(sub);
        remove_number(&mut self.subs, sub);
    }

    /// The grain leaves memory: what waits and what runs is lost. It gives how many deliveries that are. The
    /// activation's number stays, and so do the subscriptions. It takes no memory.
    pub fn deactivate(&mut self) -> usize
        ensures state { self.new ≡ deactivated self.old }
        ensures lost { result ≡ lost self.old }
    {
        let lost = self.mailbox.as_slice().len() + running_count(&self.running);
        self.is_active = false;
        self.mailbox.clear();
        self.running = None;
        lost
    }
}

/// Whether the first of these deliveries is at or past a position.
fn is_front_new(deliveries: &[Delivery], past: usize) -> bool
    ensures { result ≡ is_front_new past deliveries.now }
{
    match deliveries.first() {
        Some(front) => front.position >= past,
        None => false,
    }
}

/// Whether the turn that runs is one of this subscription.
fn runs(running: &Option<RunningTurn>, sub: usize) -> bool
    ensures { result ≡ runs sub running.now }
{
    match running {
        Some(run) => sub == run.sub,
        None => false,
    }
}

/// How many events run.
fn running_count(running: &Option<RunningTurn>) -> usize
    ensures count { result ≡ running_count running.now }
    ensures bound { result ≤ TURN_EVENTS }
{
    match running {
        Some(run) => run.positions.len(),
        None => 0,
    }
}

/// Adds a number to rising ones, in its place, unless it is there: a binary search, and at most one
/// insertion.
///
/// # Errors
/// The call failed to allocate, and the numbers are as they were. That can happen only where the number isn't
/// there.
fn add_number(numbers: &mut Vec<usize>, number: usize) -> Result<(), AllocError>
    requires { rises_from 0 numbers.old.items ≡ true }
    ensures numbers { numbers.new.items ≡ (if is_ok result then with_number number numbers.old.items else numbers.old.items) }
    ensures memory { OnErr result (is_in numbers.old.items number ≡ false) }
{
    if let Err(place) = numbers.binary_search(&number) {
        numbers.insert(place, number)?;
    }
    Ok(())
}

/// Takes a number out of rising ones.
fn remove_number(numbers: &mut Vec<usize>, number: usize)
    ensures { numbers.new.items ≡ without_number number numbers.old.items }
{
    numbers.retain(|other| number != *other);
}
