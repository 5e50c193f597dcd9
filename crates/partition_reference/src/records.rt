//! Look-ups in the records of a partition, and changes of one record in place.
ghost use Rattle.std.specs.Prelude.{◌≡◌, ◌<◌, ◌≤◌, [], ◌∷◌, ◌++◌, Some, drop, is_ok, length, nat_lt, pred, if◌then◌else◌};
ghost use Rattle.std.specs.List.{AllByRecursion};
ghost use Rattle.stream_ident.specs.Name.{same_grain};
ghost use Rattle.stream_ident.specs.SubName.{same_sub};
ghost use Rattle.stream_model.specs.declared.plain.Grain.{Grain};
ghost use Rattle.stream_model.specs.declared.plain.Subscription.{Subscription};
ghost use Rattle.stream_model.specs.Places.{change_at, handled_also, place_of, started};
ghost use Rattle.stream_model.specs.Positions.{is_spent, new_grain, token_at};
ghost use Rattle.stream_model.specs.Pulling.{woken};
ghost use Rattle.stream_ident.specs.Words.{past, value_at};

use crate::positions::is_same_sub;
use std::alloc::{AllocError, Global};
use stream_ident::{GrainId, SubName};
use stream_model::{Delivery, Grain, RunningTurn, Sequence, Subscription};

/// Whether two names are of one grain.
pub fn is_same_grain(a: &GrainId, b: &GrainId) -> bool
    ensures { result ≡ same_grain a.now b.now }
{
    a == b
}

/// Whether the last handled position is at or past this one.
pub fn is_handled(handled: &Sequence<usize>, position: usize) -> bool
    ensures { result ≡ nat_lt position (past handled.now) }
{
    match handled.as_slice().last() {
        Some(last) => position <= *last,
        None => false,
    }
}

/// The last handled position, 0 where there is none.
pub fn last_handled(handled: &Sequence<usize>) -> usize
    ensures { result ≡ pred (past handled.now) }
{
    match handled.as_slice().last() {
        Some(last) => *last,
        None => 0,
    }
}

/// The place of a subscription's record.
pub fn place_of_sub(subs: &Sequence<(SubName, Subscription)>, name: &SubName) -> Option<usize>
    ensures { result ≡ place_of same_sub name.now subs.now }
{
    for (place, entry) in subs.items.iter().enumerate() {
        if is_same_sub(name, &entry.0) {
            return Some(place);
        }
    }
    None
}

/// The place of a grain's record.
pub fn place_of_grain(grains: &Sequence<(GrainId, Grain)>, id: &GrainId) -> Option<usize>
    ensures { result ≡ place_of same_grain id.now grains.now }
{
    for (place, entry) in grains.items.iter().enumerate() {
        if is_same_grain(id, &entry.0) {
            return Some(place);
        }
    }
    None
}

/// The record of a subscription, by its place.
pub fn sub_in<'a>(
    subs: &'a Sequence<(SubName, Subscription)>,
    name: &SubName,
    place: usize,
) -> &'a Subscription
    requires { place_of same_sub name.now subs.now ≡ Some place }
    ensures { value_at same_sub name.now subs.now ≡ Some result.now }
{
    &subs.items[place].1
}

/// The record of a grain, by its place.
pub fn grain_in<'a>(grains: &'a Sequence<(GrainId, Grain)>, id: &GrainId, place: usize) -> &'a Grain
    requires { place_of same_grain id.now grains.now ≡ Some place }
    ensures { value_at same_grain id.now grains.now ≡ Some result.now }
{
    &grains.items[place].1
}

/// Takes the first `count` deliveries out of a mailbox, or all where there are fewer.
pub fn drop_front(mailbox: &mut Sequence<Delivery>, count: usize)
    ensures { mailbox.new ≡ drop count mailbox.old }
{
    let count = count.min(mailbox.items.len());
    let _ = mailbox.items.drain(..count);
}

/// Takes the front delivery out of a grain's mailbox.
pub fn drop_delivery(grains: &mut Sequence<(GrainId, Grain)>, place: usize)
    requires { place < length grains.old }
    ensures { grains.new ≡ change_at (λ (st : Grain). record st { mailbox = drop 1 st.mailbox }) place grains.old }
{
    let grain = &mut grains.items[place].1;
    drop_front(&mut grain.mailbox, 1);
}

/// Starts a turn of a grain: its deliveries leave the front of the mailbox.
pub fn start_turn(grains: &mut Sequence<(GrainId, Grain)>, place: usize, run: RunningTurn)
    requires { place < length grains.old }
    ensures { grains.new ≡ change_at (started run) place grains.old }
{
    let count = run.positions.len();
    let grain = &mut grains.items[place].1;
    drop_front(&mut grain.mailbox, count);
    grain.running = Some(run);
}

/// Ends the running turn of a grain.
pub fn end_turn(grains: &mut Sequence<(GrainId, Grain)>, place: usize)
    requires { place < length grains.old }
    ensures { grains.new ≡ change_at (λ (st : Grain). record st { running = None }) place grains.old }
{
    let grain = &mut grains.items[place].1;
    grain.running = None;
}

/// Wakes a grain for one more delivery. Where it fails to allocate, nothing has changed.
fn wake_grain(grain: &mut Grain, sub: SubName, position: usize) -> Result<(), AllocError>
    requires { grain.old.activation ≤ 4000000 }
    ensures { grain.new ≡ (if is_ok result then woken grain.old sub position else grain.old) }
{
    grain.mailbox.push(Delivery { sub, position })?;
    if grain.active {
        return Ok(());
    }
    grain.activation += 1;
    grain.active = true;
    Ok(())
}

/// Wakes the grain at a place for one more delivery. Where it fails to allocate, nothing has changed.
pub fn wake(
    grains: &mut Sequence<(GrainId, Grain)>,
    place: usize,
    sub: SubName,
    position: usize,
) -> Result<(), AllocError>
    requires within { place < length grains.old }
    requires room { AllByRecursion (λ entry. entry.1.activation ≤ 4000000) grains.old }
    ensures { grains.new
        ≡ (if is_ok result then change_at (λ st. woken st sub position) place grains.old else grains.old) }
{
    let grain = &mut grains.items[place].1;
    wake_grain(grain, sub, position)
}

/// Adds a grain that was never active, awake for its first delivery. Where it fails to allocate, nothing has
/// changed.
pub fn add_grain(
    grains: &mut Sequence<(GrainId, Grain)>,
    alloc: Global,
    id: GrainId,
    sub: SubName,
    position: usize,
) -> Result<(), AllocError>
    ensures { grains.new
        ≡ (if is_ok result then grains.old ++ (id, woken new_grain sub position) ∷ [] else grains.old) }
{
    let mut mailbox = Sequence::new(alloc);
    mailbox.push(Delivery { sub, position })?;
    let grain = Grain {
        activation: 1,
        active: true,
        mailbox,
        running: None,
    };
    grains.push((id, grain))
}

/// Sets the cursor and the resume of a subscription.
pub fn set_marks(
    subs: &mut Sequence<(SubName, Subscription)>,
    place: usize,
    cursor: usize,
    resume: usize,
)
    requires { place < length subs.old }
    ensures { subs.new ≡ change_at (λ (r : Subscription). record r { cursor = cursor; resume = resume }) place subs.old }
{
    let sub = &mut subs.items[place].1;
    sub.cursor = cursor;
    sub.resume = resume;
}

/// Sets the cursor of a subscription.
pub fn set_cursor(subs: &mut Sequence<(SubName, Subscription)>, place: usize, cursor: usize)
    requires { place < length subs.old }
    ensures { subs.new ≡ change_at (λ (r : Subscription). record r { cursor = cursor }) place subs.old }
{
    let sub = &mut subs.items[place].1;
    sub.cursor = cursor;
}

/// Adds the positions of a turn to those that a subscription has handled, and leaves the note. Where it fails
/// to allocate, nothing has changed.
pub fn handle(
    subs: &mut Sequence<(SubName, Subscription)>,
    place: usize,
    positions: &[usize],
    note: u64,
) -> Result<(), AllocError>
    requires { place < length subs.old }
    ensures { subs.new ≡ (if is_ok result then change_at (handled_also positions.now note) place subs.old else subs.old) }
{
    let sub = &mut subs.items[place].1;
    let handled = &mut sub.handled;
    handled.items.extend_from_slice(positions)?;
    sub.note = note;
    Ok(())
}
