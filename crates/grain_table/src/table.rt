//! The table, with the orders by name of its grains and of the ready ones.
ghost use Rattle.std.specs.Prelude.{◌≡◌, ◌+◌, ◌-◌, ◌^◌, ◌<◌, ◌≤◌, ◌↔◌, [], None, Some, true, length, is_ok, slice_index, vec_capacity, IfOk, IfSome, IsTrue, OnErr, not, OnOk, if◌then◌else◌};
ghost use Rattle.stream_ident.specs.declared.limits.TheConstants.{MAILBOX_PLACES};
ghost use Rattle.std.specs.Option.{option_copied};
ghost use Rattle.stream_ident.specs.Words.{change_at, lesser, past};
ghost use Rattle.stream_ident.specs.Name.{grain_lt};
ghost use Rattle.consumer_grain.specs.Activations.{begin, commit, deactivated, forgotten, lost, new_activation, offer_takes_memory, woken};
ghost use Rattle.consumer_grain.specs.Begins.{RisesFrom};
ghost use Rattle.consumer_grain.specs.Handled.{rises_from};
ghost use Rattle.ranked_index.specs.Listed.{IsListed};
ghost use Rattle.ranked_index.specs.Ranked.{is_up_to, IsFirstPast};
ghost use Rattle.grain_table.specs.Changes.{activation_at, grain_at, OffersAt};
ghost use Rattle.grain_table.specs.Grains.{least_running, least_waiting, number_of, ready_after, with_grain, AreDistinct, AreIdle, PlainGrains};
ghost use Rattle.grain_table.specs.Table.{name_of, standing_of, AreReady, AreReadyBut, HaveRisingNames, IsKept, IsKeptBut};

use consumer_grain::{Activation, Begun, Delivery, Ended, Offered, SubState};
use std::alloc::{AllocError, Global};
use std::marker::Model;
use stream_ident::GrainId;

/// By what the mix of a name's bytes is multiplied for each byte (FNV).
const MIX: usize = 0x100_0000_01B3;

/// How many hints there are at the least.
const FEWEST_SLOTS: usize = 16;

/// The grains that were ever active in a partition, each with its activation.
///
/// A grain goes by its number, which is its place in the order of first activation and never changes. A
/// contract sees the table as the list of the grains with their activations, in that order. The orders by name, the
/// count of the turns that run, the hints, and the room that all take in memory are no part of it.
#[derive(Debug)]
pub struct GrainTable {
    // By number.
    entries: Vec<(GrainId, Activation)>,
    // The numbers of all grains in the order of their names.
    order: Vec<usize>,
    // The numbers of the ready grains in the order of their names, with room for all grains.
    ready: Vec<usize>,
    // For how many grains a turn runs.
    running: usize,
    // The number of a grain by a mix of its name's bytes, where `find` looks first: that of another where two mix alike.
    hints: Vec<usize>,
}

impl Drop for GrainTable {
    fn drop(self) {
        let Self {
            entries: _,
            order: _,
            ready: _,
            running: _,
            hints: _,
        } = self;
    }
}

impl Model for GrainTable {
    ghost use Rattle.grain_table.specs.Grains.{PlainGrains};
    ghost use Rattle.grain_table.specs.Table.{IsTable};

    ghost Value = { PlainGrains };

    ghost use Rattle.std.specs.Prelude.{vec_capacity};

    ghost view = { λ t. t.entries.items };

    ghost invariant = { λ t. IsTable t.entries.items t.order.items t.ready.items (vec_capacity t.ready) t.running };
}

/// What is kept of an activation beside it: whether its grain is ready, and whether a turn runs.
#[derive(Clone, Copy)]
struct Standing {
    is_ready: bool,
    runs: bool,
}

impl GrainTable {
    /// The table of no grain. It takes no memory.
    pub fn new(alloc: Global) -> GrainTable
        ensures { result ≡ [] }
    {
        GrainTable {
            entries: Vec::new(alloc),
            order: Vec::new(alloc),
            ready: Vec::new(alloc),
            running: 0,
            hints: Vec::new(alloc),
        }
    }

    /// How many grains there are. No grain stands under two numbers.
    pub fn len(&self) -> usize
        ensures count { result ≡ length self.now }
        ensures distinct { AreDistinct self.now }
    {
        self.entries.len()
    }

    /// Whether there is no grain.
    pub fn is_empty(&self) -> bool
        ensures { IsTrue result ↔ (self.now ≡ []) }
    {
        self.entries.is_empty()
    }

    /// Whether nothing waits for any grain, and no turn runs. It costs a constant.
    pub fn is_idle(&self) -> bool
        ensures { IsTrue result ↔ AreIdle self.now }
    {
        let ready = self.ready.as_slice();
        ready.is_empty() && self.running == 0
    }

    /// The number of a grain, where it was ever active. It costs a constant for most grains that are there, and the
    /// logarithm of the number of grains for others.
    pub fn find(&self, grain: &GrainId) -> Option<usize>
        ensures number { result ≡ number_of self.now grain.now }
        ensures within { IfSome result (λ number. number < length self.now) }
    {
        let hint = hint_for(&self.hints, grain);
        if self.has_number(hint, grain) {
            return Some(hint);
        }
        let past = first_past(&self.entries, &self.order, Some(grain));
        if past == 0 {
            return None;
        }
        let number = self.order[past - 1];
        self.has_number(number, grain).then_some(number)
    }

    /// Whether this is the number of a grain.
    fn has_number(&self, number: usize, grain: &GrainId) -> bool
        ensures { IsTrue result ↔ (number_of self.now grain.now ≡ Some number) }
    {
        match self.entries.get(number) {
            Some((other, _)) => *grain == *other,
            None => false,
        }
    }

    /// The grain with a number.
    pub fn grain_at(&self, number: usize) -> GrainId
        requires { number < length self.now }
        ensures { result ≡ grain_at self.now number }
    {
        self.entries[number].0
    }

    /// The activation of the grain with a number. At most 16 deliveries wait for it, and its subscriptions rise.
    pub fn at(&self, number: usize) -> &Activation
        requires { number < length self.now }
        ensures activation { result.now ≡ activation_at self.now number }
        ensures few { length (activation_at self.now number).mailbox ≤ MAILBOX_PLACES }
        ensures rising { rises_from 0 (activation_at self.now number).subs ≡ true }
    {
        let activation = &self.entries[number].1;
        // What each of these promises is what is promised here.
        let _waiting = activation.waiting();
        let _subs = activation.subs();
        activation
    }

    /// Adds a grain that was never active: it is active now, with one delivery. Its number is the length before. It costs
    /// the grains whose names are greater; where a row has to grow, once as much as all.
    ///
    /// # Errors
    /// The call failed to allocate, and nothing has changed.
    pub fn add(
        &mut self,
        alloc: Global,
        grain: GrainId,
        delivery: Delivery,
    ) -> Result<(), AllocError>
        requires { number_of self.old grain ≡ None }
        ensures { self.new ≡ (if is_ok result then with_grain self.old grain delivery else self.old) }
    {
        let activation = activated(alloc, delivery)?;
        let before = Standing {
            is_ready: false,
            runs: false,
        };
        let number = self.entries.len();
        let room = number + 1;
        self.ready.reserve(room - room.min(self.ready.len()))?;
        self.order.reserve(1)?;
        self.entries.reserve(1)?;
        grow(&mut self.hints, &self.entries, room)?;
        note(&mut self.hints, &grain, number);
        let past = first_past(&self.entries, &self.order, Some(&grain));
        self.order.insert(past, number).unwrap();
        self.entries.push_reserved((grain, activation));
        self.running = settle(&self.entries, &mut self.ready, self.running, number, before);
        Ok(())
    }

    /// Performs a delivery to the grain with a number, as `Activation::offer` says. It costs what that does, and where the
    /// grain becomes ready the ready grains whose names are greater.
    ///
    /// # Errors
    /// The call failed to allocate, and nothing has changed. That can happen only at a delivery that would be
    /// taken, and only where nothing was ever offered for its subscription, or that was forgotten.
    pub fn offer(
        &mut self,
        alloc: Global,
        number: usize,
        delivery: Delivery,
    ) -> Result<Offered, AllocError>
        requires { number < length self.old }
        ensures performs { OffersAt number self.old self.new result delivery }
        ensures memory { OnErr result (offer_takes_memory (activation_at self.old number) delivery ≡ true) }
    {
        let activation = &mut self.entries[number].1;
        let before = standing_of(activation);
        let offered = activation.offer(alloc, delivery)?;
        self.running = settle(&self.entries, &mut self.ready, self.running, number, before);
        Ok(offered)
    }

    /// Begins a turn of the grain with a number, as `Activation::begin` says. It takes no memory, and costs
    /// the ready grains whose names are greater.
    pub fn begin(&mut self, number: usize, state: &SubState, turn: u64, max_events: usize) -> Begun
        requires { number < length self.old }
        ensures grains { self.new ≡ change_at (λ a. (begin a (past state.now.handled) turn max_events).0) number self.old }
        ensures begun { result ≡ (begin (activation_at self.old number) (past state.now.handled) turn max_events).1 }
        ensures rising { RisesFrom (past state.now.handled) result }
    {
        let activation = &mut self.entries[number].1;
        let before = standing_of(activation);
        let begun = activation.begin(state, turn, max_events);
        self.running = settle(&self.entries, &mut self.ready, self.running, number, before);
        begun
    }

    /// Ends a turn of the grain with a number, as `Activation::commit` says. It takes no memory, and costs the
    /// ready grains whose names are greater.
    pub fn commit(&mut self, number: usize, activation: u64, turn: u64) -> Ended
        requires { number < length self.old }
        ensures grains { self.new ≡ change_at (λ a. (commit a activation turn).0) number self.old }
        ensures ended { result ≡ (commit (activation_at self.old number) activation turn).1 }
    {
        let entry = &mut self.entries[number].1;
        let before = standing_of(entry);
        let ended = entry.commit(activation, turn);
        self.running = settle(&self.entries, &mut self.ready, self.running, number, before);
        ended
    }

    /// The deliveries of a subscription leave the mailbox of the grain with a number, as
    /// `Activation::forget` says. It takes no memory, and costs the ready grains whose names are greater.
    pub fn forget(&mut self, number: usize, sub: usize)
        requires { number < length self.old }
        ensures { self.new ≡ change_at (forgotten sub) number self.old }
    {
        let activation = &mut self.entries[number].1;
        let before = standing_of(activation);
        activation.forget(sub);
        self.running = settle(&self.entries, &mut self.ready, self.running, number, before);
    }

    /// The grain with a number leaves memory, as `Activation::deactivate` says: it gives how many
    /// deliveries are lost. It takes no memory, and costs the ready grains whose names are greater.
    pub fn deactivate(&mut self, number: usize) -> usize
        requires { number < length self.old }
        ensures grains { self.new ≡ change_at deactivated number self.old }
        ensures lost { result ≡ lost (activation_at self.old number) }
    {
        let activation = &mut self.entries[number].1;
        let before = standing_of(activation);
        let lost = activation.deactivate();
        self.running = settle(&self.entries, &mut self.ready, self.running, number, before);
        lost
    }

    /// The least grain after the given one that something waits for and no turn runs for; where there is
    /// none after it or none is given, the least of all such grains, if there is one. The given one may be
    /// a grain that was never active. It costs the logarithm of the number of the ready ones.
    pub fn ready_after(&self, after: Option<&GrainId>) -> Option<GrainId>
        ensures { result ≡ ready_after self.now (option_copied after.entry) }
    {
        let ready = self.ready.as_slice();
        let past = first_past(&self.entries, ready, after);
        let place = if past < ready.len() { past } else { 0 };
        let number = *ready.get(place)?;
        Some(self.entries[number].0)
    }

    /// The least grain that something waits for, if there is one. It walks over all grains.
    pub fn least_waiting(&self) -> Option<GrainId>
        ensures { result ≡ least_waiting self.now }
    {
        let entries = self.entries.as_slice();
        let mut least = None;
        let mut number = entries.len();
        while number > 0 {
            number -= 1;
            let (grain, activation) = &entries[number];
            if activation.waiting() > 0 {
                least = Some(lesser(grain, least));
            }
        }
        least
    }

    /// The least grain that a turn runs for, if there is one. It walks over all grains.
    pub fn least_running(&self) -> Option<GrainId>
        ensures { result ≡ least_running self.now }
    {
        let entries = self.entries.as_slice();
        let mut least = None;
        let mut number = entries.len();
        while number > 0 {
            number -= 1;
            let (grain, activation) = &entries[number];
            if activation.running().is_some() {
                least = Some(lesser(grain, least));
            }
        }
        least
    }
}

/// The slot of a grain among so many, which are a power of two.
fn slot_of(grain: &GrainId, slots: usize) -> usize {
    let mut mix: usize = 0;
    for byte in grain.kind.as_bytes() {
        mix = (mix ^ *byte as usize).wrapping_mul(MIX);
    }
    for byte in grain.key.as_bytes() {
        mix = (mix ^ *byte as usize).wrapping_mul(MIX);
    }
    mix & slots.wrapping_sub(1)
}

/// The number that was noted last in the slot of a grain, which may be that of another.
fn hint_for(hints: &[usize], grain: &GrainId) -> usize {
    match hints.get(slot_of(grain, hints.len())) {
        Some(number) => *number,
        None => 0,
    }
}

/// Notes a number in the slot of its grain.
fn note(hints: &mut [usize], grain: &GrainId, number: usize) {
    let slot = slot_of(grain, hints.len());
    if let Some(hint) = hints.get_mut(slot) {
        *hint = number;
    }
}

/// Makes the hints twice as many where there aren't four for each of so many grains, and notes those that are there.
///
/// # Errors
/// The call failed to allocate.
fn grow(
    hints: &mut Vec<usize>,
    entries: &[(GrainId, Activation)],
    grains: usize,
) -> Result<(), AllocError> {
    let slots = hints.len();
    if slots / 4 >= grains {
        return Ok(());
    }
    hints.resize(slots.saturating_mul(2).max(FEWEST_SLOTS), 0)?;
    for number in 0..entries.len() {
        note(hints, &entries[number].0, number);
    }
    Ok(())
}

/// The activation of a grain that becomes active with a first delivery.
///
/// # Errors
/// The call failed to allocate.
fn activated(alloc: Global, delivery: Delivery) -> Result<Activation, AllocError>
    ensures { IfOk result (λ a. a ≡ woken new_activation delivery) }
{
    let mut activation = Activation::new(alloc)?;
    activation.offer(alloc, delivery)?;
    Ok(activation)
}

/// Whether there is a grain with this number, and it is not greater than the given one.
fn is_up_to(entries: &[(GrainId, Activation)], number: usize, grain: &GrainId) -> bool
    ensures { result ≡ is_up_to name_of grain_lt entries.now grain.now number }
{
    match entries.get(number) {
        Some((other, _)) => !grain.is_before(other),
        None => false,
    }
}

/// The first place among numbers of grains whose grain is greater than the given one, 0 where none is given. A
/// binary search.
fn first_past(
    entries: &[(GrainId, Activation)],
    numbers: &[usize],
    after: Option<&GrainId>,
) -> usize
    requires { HaveRisingNames entries.now numbers.now }
    ensures { IsFirstPast name_of grain_lt (option_copied after.entry) entries.now numbers.now result }
{
    let Some(grain) = after else {
        return 0;
    };
    numbers.partition_point(|number| is_up_to(entries, *number, grain))
}

/// How many turns run, where one may have ended or begun.
fn recount(running: usize, did_run: bool, runs: bool) -> usize
    requires some { IsTrue did_run → 0 < running }
    requires fits { running + 1 < 2 ^ 64 }
    ensures { result + (if did_run then 1 else 0) ≡ running + (if runs then 1 else 0) }
{
    match (did_run, runs) {
        (true, false) => running - 1,
        (false, true) => running + 1,
        (true, true) => running,
        (false, false) => running,
    }
}

/// What is kept of an activation beside it.
fn standing_of(activation: &Activation) -> Standing
    ensures { result ≡ standing_of activation.now }
{
    let runs = activation.running().is_some();
    Standing {
        is_ready: activation.waiting() > 0 && !runs,
        runs,
    }
}

/// Keeps the ready grains after a change of the grain with this number, of which is told how it stood before, and gives
/// how many turns run now. It takes no memory, and costs the ready grains whose names are greater.
fn settle(
    entries: &[(GrainId, Activation)],
    ready: &mut Vec<usize>,
    running: usize,
    number: usize,
    before: Standing,
) -> usize
    requires { IsKeptBut number before entries.now ready.old.items (vec_capacity ready.old) running }
    ensures { IsKept entries.now ready.new.items (vec_capacity ready.new) result }
{
    let now = standing_of(&entries[number].1);
    mark(entries, ready, number, before, now);
    recount(running, before.runs, now.runs)
}

/// Puts the grain with this number among the ready ones, or takes it out, where it became ready or is so no more. It takes
/// no memory.
fn mark(
    entries: &[(GrainId, Activation)],
    ready: &mut Vec<usize>,
    number: usize,
    before: Standing,
    now: Standing,
)
    requires number { number < length entries.now }
    requires distinct { AreDistinct entries.now }
    requires room { length entries.now ≤ vec_capacity ready.old }
    requires ready { AreReadyBut number entries.now ready.old.items }
    requires before { IsTrue before.is_ready ↔ IsListed ready.old.items number }
    requires now { now ≡ standing_of (activation_at entries.now number) }
    ensures ready { AreReady entries.now ready.new.items }
    ensures room { vec_capacity ready.new ≡ vec_capacity ready.old }
{
    if before.is_ready == now.is_ready {
        return;
    }
    let past = first_past(entries, ready.as_slice(), Some(&entries[number].0));
    if now.is_ready {
        ready.insert(past, number).unwrap();
    } else {
        ready.remove(past - 1);
    }
}

/// The lesser of a grain and the least so far.
fn lesser(grain: &GrainId, least: Option<GrainId>) -> GrainId
    ensures { result ≡ lesser grain_lt grain.now least }
{
    match least {
        Some(least) if least.is_before(grain) => least,
        _ => *grain,
    }
}
