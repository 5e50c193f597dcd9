//! What is asked without changing anything.
ghost use Rattle.std.specs.Prelude.{◌≡◌, ◌&&◌, None, is_some, not};
ghost use Rattle.stream_ident.specs.Name.{grain_lt};
ghost use Rattle.stream_ident.specs.SubName.{sub_lt};
ghost use Rattle.stream_model.specs.declared.plain.Subscription.{Subscription};
ghost use Rattle.stream_model.specs.Least.{least_key};
ghost use Rattle.stream_model.specs.Looks.{due, is_due, is_running, is_waiting, pending_in, quiet, ready, to_acknowledge};
ghost use Rattle.stream_model.specs.Positions.{next_position, sub_at};
ghost use Rattle.stream_ident.specs.Words as words;
ghost use Rattle.stream_ident.specs.Words.{is_above};

use crate::delivering::{is_unacknowledged, next_position};
use crate::positions::{is_sub_before, lesser_name, token_at};
use crate::records::{last_handled, place_of_sub, sub_in};
use stream_ident::{GrainId, SubName, Token};
use stream_model::{Grain, Pending, PlainPartition, Reply, Subscription};

/// A worker asks for a grain for which something waits and no turn runs: the least such grain after the
/// given one, else the least.
pub fn ready(p: &PlainPartition, after: Option<GrainId>) -> Reply
    ensures { result ≡ ready p.now after }
{
    let grains = p.grains.as_slice();
    match least_ready(grains, &after).or(least_ready(grains, &None)) {
        Some(grain) => Reply::Next(grain),
        None => Reply::NoneReady,
    }
}

/// The agent asks for a subscription that has something to acknowledge or to look for: the least such name
/// after the given one, else the least.
pub fn due(p: &PlainPartition, after: Option<SubName>) -> Reply
    ensures { result ≡ due p.now after }
{
    match least_due(p, &after).or(least_due(p, &None)) {
        Some(sub) => Reply::DueSub {
            sub,
            ack: to_acknowledge(p, &sub),
        },
        None => Reply::NoneDue,
    }
}

/// Asks whether everything is pulled, delivered and handled.
pub fn quiet(p: &PlainPartition) -> Reply
    ensures { result ≡ quiet p.now }
{
    match pending(p) {
        Some(why) => Reply::NotQuiet(why),
        None => Reply::IsQuiet,
    }
}

/// Why a partition isn't quiet, the first that holds, or none where it is quiet.
pub fn pending(p: &PlainPartition) -> Option<Pending>
    ensures { result ≡ pending_in p.now }
{
    if p.high < p.log.as_slice().len() {
        return Some(Pending::Behind);
    }
    if let Some(sub) = least_deliverable(p) {
        return Some(Pending::Deliverable(sub));
    }
    let grains = p.grains.as_slice();
    if let Some(grain) = least_waiting(grains) {
        return Some(Pending::Waiting(grain));
    }
    match least_running(grains) {
        Some(grain) => Some(Pending::Running(grain)),
        None => None,
    }
}

/// The least ready grain after the given one, or of all where none is given.
fn least_ready(grains: &[(GrainId, Grain)], after: &Option<GrainId>) -> Option<GrainId>
    ensures { result ≡ least_key grain_lt after.now (λ st. is_waiting st && not (is_running st)) grains.now }
{
    let mut least = None;
    for index in (0..grains.len()).rev() {
        let (id, grain) = &grains[index];
        if is_ready_after(id, grain, after) {
            least = Some(lesser_grain(id, &least));
        }
    }
    least
}

/// The least grain for which deliveries wait.
fn least_waiting(grains: &[(GrainId, Grain)]) -> Option<GrainId>
    ensures { result ≡ least_key grain_lt None is_waiting grains.now }
{
    let mut least = None;
    for index in (0..grains.len()).rev() {
        let (id, grain) = &grains[index];
        if is_waiting(grain) {
            least = Some(lesser_grain(id, &least));
        }
    }
    least
}

/// The least grain of which a turn runs.
fn least_running(grains: &[(GrainId, Grain)]) -> Option<GrainId>
    ensures { result ≡ least_key grain_lt None is_running grains.now }
{
    let mut least = None;
    for index in (0..grains.len()).rev() {
        let (id, grain) = &grains[index];
        if is_running(grain) {
            least = Some(lesser_grain(id, &least));
        }
    }
    least
}

/// The least due name after the given one, or of all where none is given.
fn least_due(p: &PlainPartition, after: &Option<SubName>) -> Option<SubName>
    ensures { result ≡ least_key sub_lt after.now (is_due p.now) p.now.subs }
{
    let subs = p.subs.as_slice();
    let mut least = None;
    for index in (0..subs.len()).rev() {
        let (name, sub) = &subs[index];
        if is_due_after(p, name, sub, after) {
            least = Some(lesser_name(name, &least));
        }
    }
    least
}

/// The least name of an open subscription that has a next event in the cache.
fn least_deliverable(p: &PlainPartition) -> Option<SubName>
    ensures { result ≡ least_key sub_lt None (λ (r : Subscription). r.is_open && is_some (next_position p.now r)) p.now.subs }
{
    let subs = p.subs.as_slice();
    let mut least = None;
    for index in (0..subs.len()).rev() {
        let (name, sub) = &subs[index];
        if is_deliverable(p, sub) {
            least = Some(lesser_name(name, &least));
        }
    }
    least
}

/// Whether a grain is ready and comes after the given one, or is ready where none is given.
fn is_ready_after(id: &GrainId, grain: &Grain, after: &Option<GrainId>) -> bool
    ensures { result ≡ ((is_waiting grain.now && not (is_running grain.now)) && is_above grain_lt after.now id.now) }
{
    is_ready(grain) && is_grain_after(id, after)
}

/// Whether something waits for a grain and no turn runs.
fn is_ready(grain: &Grain) -> bool
    ensures { result ≡ (is_waiting grain.now && not (is_running grain.now)) }
{
    is_waiting(grain) && !is_running(grain)
}

/// Whether deliveries wait for a grain.
fn is_waiting(grain: &Grain) -> bool
    ensures { result ≡ is_waiting grain.now }
{
    !grain.mailbox.as_slice().is_empty()
}

/// Whether a turn of a grain runs.
fn is_running(grain: &Grain) -> bool
    ensures { result ≡ is_running grain.now }
{
    grain.running.is_some()
}

/// Whether a subscription is due and its name comes after the given one, or it is due where none is given.
fn is_due_after(
    p: &PlainPartition,
    name: &SubName,
    sub: &Subscription,
    after: &Option<SubName>,
) -> bool
    ensures { result ≡ (is_due p.now sub.now && is_above sub_lt after.now name.now) }
{
    is_due(p, sub) && is_sub_after(name, after)
}

/// Whether a subscription is open, with something to acknowledge or a resume below the cache's end.
fn is_due(p: &PlainPartition, sub: &Subscription) -> bool
    ensures { result ≡ is_due p.now sub.now }
{
    sub.is_open && (is_unacknowledged(sub) || sub.resume < p.high)
}

/// Whether a subscription is open and has a next event in the cache.
fn is_deliverable(p: &PlainPartition, sub: &Subscription) -> bool
    ensures { result ≡ (sub.now.is_open && is_some (next_position p.now sub.now)) }
{
    sub.is_open && next_position(&p.log, sub, p.high).is_some()
}

/// Whether a grain comes after the given one, always where none is given.
fn is_grain_after(id: &GrainId, after: &Option<GrainId>) -> bool
    ensures { result ≡ is_above grain_lt after.now id.now }
{
    match after {
        Some(after) => after.is_before(id),
        None => true,
    }
}

/// Whether a name comes after the given one, always where none is given.
fn is_sub_after(name: &SubName, after: &Option<SubName>) -> bool
    ensures { result ≡ is_above sub_lt after.now name.now }
{
    match after {
        Some(after) => is_sub_before(after, name),
        None => true,
    }
}

/// The lesser of two grains, where there are two.
fn lesser_grain(id: &GrainId, other: &Option<GrainId>) -> GrainId
    ensures { result ≡ words.lesser grain_lt id.now other.now }
{
    match other {
        Some(other) if other.is_before(id) => *other,
        _ => *id,
    }
}

/// The token of the last event that a subscription has handled, where that isn't acknowledged.
fn to_acknowledge(p: &PlainPartition, name: &SubName) -> Option<Token>
    ensures { result ≡ to_acknowledge p.now (sub_at p.now name.now) }
{
    let Some(place) = place_of_sub(&p.subs, name) else {
        return None;
    };
    let sub = sub_in(&p.subs, name, place);
    if !is_unacknowledged(sub) {
        return None;
    }
    Some(token_at(p, last_handled(&sub.handled)))
}
