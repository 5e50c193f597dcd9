//! What a worker asks: the turns of a grain.
ghost use Rattle.std.specs.Prelude.{◌≡◌, ◌<◌, ◌≤◌, ◌∷◌, ◌&&◌, ◌==◌, OnErr, Some, drop, false, length, nat_le, nat_lt, pred, suc, true};
ghost use Rattle.stream_ident.specs.declared.limits.TheConstants.{TURN_EVENTS};
ghost use Rattle.std.specs.List.{AllByRecursion};
ghost use Rattle.stream_ident.specs.Name.{same_grain};
ghost use Rattle.stream_ident.specs.SubName.{same_sub};
ghost use Rattle.stream_model.specs.Bounds.{IsWithinLimits};
ghost use Rattle.stream_model.specs.Places.{place_of};
ghost use Rattle.stream_model.specs.Positions.{events_at, grain_at, is_spent, sub_at, token_at};
ghost use Rattle.stream_model.specs.Step.{takes_memory};
ghost use Rattle.stream_ident.specs.Words.{Performs, past};
ghost use Rattle.stream_model.specs.Turns.{begin, begin_front, begin_in, begin_turn, commit, commit_for, front_of};
ghost use Rattle.stream_ident.specs.Blocks.{turn_size};

use crate::positions::{is_same_sub, is_spent, token_at};
use crate::records::{
    drop_delivery, end_turn, grain_in, handle, is_handled, place_of_grain, place_of_sub,
    start_turn, sub_in,
};
use std::alloc::AllocError;
use stream_ident::{Event, GrainId, Row, SubName, TURN_EVENTS};
use stream_model::{Delivery, Events, Grain, PlainPartition, Reply, RunningTurn, Sequence};

/// A worker begins a turn of a grain. It takes no memory.
pub fn begin(p: &mut PlainPartition, grain: GrainId, max: u32) -> Reply
    requires { IsWithinLimits p.old }
    ensures { (p.new, result) ≡ begin p.old grain max }
{
    let Some(at) = place_of_grain(&p.grains, &grain) else {
        return Reply::Empty;
    };
    begin_in(p, &grain, at, turn_size(max))
}

/// Begins a turn of at most `most` events of the grain at a place.
fn begin_in(p: &mut PlainPartition, id: &GrainId, at: usize, most: usize) -> Reply
    requires within { IsWithinLimits p.old }
    requires place { place_of same_grain id.now p.old.grains ≡ Some at }
    requires some { 1 ≤ most }
    requires bound { most ≤ TURN_EVENTS }
    ensures { (p.new, result) ≡ begin_in p.old id.now most (grain_at p.old id.now) }
{
    let grain = grain_in(&p.grains, id, at);
    if grain.running.is_some() {
        return Reply::Busy;
    }
    if !grain.active {
        return Reply::Empty;
    }
    let Some(front) = grain.mailbox.as_slice().first() else {
        return Reply::Empty;
    };
    let front = *front;
    begin_front(p, id, at, most, front)
}

/// Begins a turn with the front delivery of a grain's mailbox.
fn begin_front(
    p: &mut PlainPartition,
    id: &GrainId,
    at: usize,
    most: usize,
    front: Delivery,
) -> Reply
    requires within { IsWithinLimits p.old }
    requires place { place_of same_grain id.now p.old.grains ≡ Some at }
    requires some { 1 ≤ most }
    requires bound { most ≤ TURN_EVENTS }
    requires first { let st = grain_at p.old id.now in st.mailbox ≡ front ∷ drop 1 st.mailbox }
    ensures { let st = grain_at p.old id.now in (p.new, result) ≡ begin_front p.old id.now most st st.mailbox }
{
    let Some(place) = place_of_sub(&p.subs, &front.sub) else {
        return Reply::Empty;
    };
    let sub = sub_in(&p.subs, &front.sub, place);
    if is_handled(&sub.handled, front.position) {
        let token = token_at(p, front.position);
        drop_delivery(&mut p.grains, at);
        return Reply::Dropped {
            sub: front.sub,
            token,
        };
    }
    let note = sub.note;
    if is_spent(p) {
        return Reply::Spent;
    }
    begin_turn(p, id, at, most, front, note)
}

/// Begins a turn of what goes on with the front delivery.
fn begin_turn(
    p: &mut PlainPartition,
    id: &GrainId,
    at: usize,
    most: usize,
    front: Delivery,
    note: u64,
) -> Reply
    requires within { IsWithinLimits p.old }
    requires place { place_of same_grain id.now p.old.grains ≡ Some at }
    requires some { 1 ≤ most }
    requires bound { most ≤ TURN_EVENTS }
    requires first { let st = grain_at p.old id.now in st.mailbox ≡ front ∷ drop 1 st.mailbox }
    requires left { is_spent p.old ≡ false }
    ensures { let st = grain_at p.old id.now in
        (p.new, result) ≡ begin_turn p.old id.now st front.sub note (front_of most front.sub front.position st.mailbox) }
{
    let grain = grain_in(&p.grains, id, at);
    let activation = grain.activation;
    let positions = turn_positions(grain.mailbox.as_slice(), &front, most);
    let events = turn_events(&p.log, &positions);
    let turn = p.turns + 1;
    p.rises += 1;
    p.turns = turn;
    let run = RunningTurn {
        sub: front.sub,
        turn,
        positions,
    };
    start_turn(&mut p.grains, at, run);
    Reply::Turn {
        sub: front.sub,
        activation,
        turn,
        events,
        note,
    }
}

/// A worker ends the running turn of a grain: its events are handled. Where it fails to allocate, nothing has
/// changed.
pub fn commit(
    p: &mut PlainPartition,
    grain: GrainId,
    activation: u64,
    turn: u64,
    note: u64,
) -> Result<Reply, AllocError>
    requires { IsWithinLimits p.old }
    ensures performs { Performs p.old p.new result (commit p.old grain activation turn note) }
    ensures memory { OnErr result (takes_memory (commit p.old grain activation turn note).1 ≡ true) }
{
    let Some(at) = place_of_grain(&p.grains, &grain) else {
        return Ok(Reply::Stale);
    };
    let found = grain_in(&p.grains, &grain, at);
    let Some(run) = &found.running else {
        return Ok(Reply::Stale);
    };
    if !is_current(found, run, activation, turn) {
        return Ok(Reply::Stale);
    }
    let run = copy_of(run);
    commit_run(p, &grain, at, &run, note)
}

/// Whether the grain's turn that runs is this turn of this activation.
fn is_current(found: &Grain, run: &RunningTurn, activation: u64, turn: u64) -> bool
    ensures { result ≡ ((activation == found.now.activation) && (turn == run.now.turn)) }
{
    activation == found.activation && turn == run.turn
}

/// Ends a turn of the grain at a place.
fn commit_run(
    p: &mut PlainPartition,
    id: &GrainId,
    at: usize,
    run: &RunningTurn,
    note: u64,
) -> Result<Reply, AllocError>
    requires { place_of same_grain id.now p.old.grains ≡ Some at }
    ensures performs { Performs p.old p.new result (commit_for p.old id.now (grain_at p.old id.now) run.now note (sub_at p.old run.now.sub)) }
    ensures memory { OnErr result (takes_memory (commit_for p.old id.now (grain_at p.old id.now) run.now note (sub_at p.old run.now.sub)).1 ≡ true) }
{
    let Some(place) = place_of_sub(&p.subs, &run.sub) else {
        return Ok(Reply::Stale);
    };
    let sub = sub_in(&p.subs, &run.sub, place);
    if !sub.is_open {
        end_turn(&mut p.grains, at);
        return Ok(Reply::Closed);
    }
    let token = token_at(p, last_position(&run.positions));
    handle(&mut p.subs, place, run.positions.as_slice(), note)?;
    end_turn(&mut p.grains, at);
    Ok(Reply::Committed {
        sub: run.sub,
        token,
    })
}

/// An equal running turn. It takes no memory.
fn copy_of(run: &RunningTurn) -> RunningTurn
    ensures { result ≡ run.now }
{
    RunningTurn {
        sub: run.sub,
        turn: run.turn,
        positions: run.positions.copy(),
    }
}

/// The last position of a turn.
fn last_position(positions: &Row<usize>) -> usize
    ensures { result ≡ pred (past positions.now) }
{
    let positions = positions.as_slice();
    positions[positions.len() - 1]
}

/// The most events of a turn.
fn turn_size(max: u32) -> usize
    ensures { result ≡ turn_size max }
{
    (max as usize).clamp(1, TURN_EVENTS)
}

/// Whether a delivery goes on with a turn of this subscription after this position.
fn goes_on(sub: &SubName, last: usize, delivery: &Delivery) -> bool
    ensures { result ≡ (same_sub sub.now delivery.now.sub && nat_le (suc last) delivery.now.position) }
{
    is_same_sub(sub, &delivery.sub) && last < delivery.position
}

/// The positions of a turn: those of the longest front of the deliveries, at most `most`, that are all of
/// one subscription and rise.
fn turn_positions(deliveries: &[Delivery], front: &Delivery, most: usize) -> Row<usize>
    requires some { 1 ≤ most }
    requires bound { most ≤ TURN_EVENTS }
    requires first { deliveries.now ≡ front.now ∷ drop 1 deliveries.now }
    ensures { result ≡ front_of most front.now.sub front.now.position deliveries.now }
{
    let mut positions = Row::of(front.position);
    let mut last = front.position;
    for delivery in &deliveries[1..] {
        if positions.len() == most || !goes_on(&front.sub, last, delivery) {
            return positions;
        }
        positions.push(delivery.position);
        last = delivery.position;
    }
    positions
}

/// The events at the positions of a turn.
fn turn_events(log: &Sequence<Event>, positions: &Row<usize>) -> Events
    requires { AllByRecursion (λ position. position < length log.now) positions.now }
    ensures { result ≡ events_at log.now positions.now }
{
    let log = log.as_slice();
    let positions = positions.as_slice();
    let mut events = Row::of(log[positions[0]]);
    for position in &positions[1..] {
        events.push(log[*position]);
    }
    events
}
