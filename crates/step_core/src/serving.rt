//! What a drain does for a subscription at once, where that comes to what its single operations come to.
ghost use Rattle.std.specs.Prelude.{◌≡◌, ◌<◌, ℕ, true, max, length, nat_lt, IfSome, Some};
ghost use Rattle.stream_ident.specs.Name.{same_grain};
ghost use Rattle.stream_ident.specs.Words.{past, value_at};
ghost use Rattle.stream_model.specs.Draining.{next_note};
ghost use Rattle.stream_model.specs.Positions.{next_position};
ghost use Rattle.subscription_table.specs.Table.{name_at, state_at};
ghost use Rattle.step_core.specs.Assembly.{Agrees, IsAssembled};
ghost use Rattle.step_core.specs.PlainOf.{plain_of};
ghost use Rattle.step_core.specs.Records.{record_of};
ghost use Rattle.step_core.specs.Serving.{is_held, resting_grain, CatchesUp, CatchesUpFrom, HandlesNext, IsReady};

use crate::looking::next_of;
use crate::parts::Parts;
use crate::reading::is_spent;
use pulling_agent::Sought;
use std::alloc::{AllocError, Global};

/// Serves the subscription with a number to its end where the cache has nothing for it, nothing of it waits or runs, and it
/// has handled no event past both its cursor and the end of the cache: what it has handled is acknowledged, and its cursor
/// and its resume go to the end of the cache. Elsewhere nothing changes, and the result is false.
pub(crate) fn catch_up(parts: &mut Parts, number: usize) -> bool
    requires agrees { Agrees parts.old }
    requires number { number < length parts.old.subs.registry.names }
    ensures assembled { IsAssembled parts.new }
    ensures told { CatchesUp (plain_of parts.old) (plain_of parts.new) (name_at parts.old.subs number) result }
{
    if is_held(parts, number) {
        return false;
    }
    if is_ahead(parts, number) {
        return false;
    }
    let generation = parts.agent.generation();
    match parts.subs.deliver(number, &parts.agent, generation, false) {
        Ok(Sought::Nothing) => true,
        Ok(Sought::Next { .. }) => false,
        Ok(Sought::Closed) => false,
        Err(_) => false,
    }
}

/// Serves the subscription with a number to its end, and then each that is due after it, as `catch_up` does where it changes
/// something, as long as the cache has nothing for them and no event was handled past the end of the cache. It gives the
/// number of the last; elsewhere, and where anything waits or runs, nothing changes, and there is none.
pub(crate) fn catch_up_from(parts: &mut Parts, number: usize) -> Option<usize>
    requires agrees { Agrees parts.old }
    requires number { number < length parts.old.subs.registry.names }
    ensures agrees { Agrees parts.new }
    ensures within { IfSome result (λ last. last < length parts.new.subs.registry.names) }
    ensures told { CatchesUpFrom (name_at parts.old.subs) (plain_of parts.old) (plain_of parts.new) number result }
{
    if !parts.grains.is_idle() {
        return None;
    }
    parts.subs.catch_up_from(number, parts.agent.cache())
}

/// Whether a delivery of a subscription waits or runs. Its grain is looked for only where some grain isn't idle.
fn is_held(parts: &Parts, number: usize) -> bool
    requires agrees { Agrees parts.now }
    requires number { number < length parts.now.subs.registry.names }
    ensures { result ≡ is_held (plain_of parts.now) (name_at parts.now.subs number) (record_of parts.now number) }
{
    if parts.grains.is_idle() {
        return false;
    }
    match parts.grains.find(parts.subs.grain(number)) {
        Some(grain) => parts.grains.at(grain).holds(number),
        None => false,
    }
}

/// Whether a subscription has handled an event past its cursor and past the end of the cache. Only a move leads to that.
fn is_ahead(parts: &Parts, number: usize) -> bool
    requires { number < length parts.now.subs.registry.names }
    ensures { result ≡ nat_lt (max (state_at parts.now.subs number).cursor (plain_of parts.now).high) (past (state_at parts.now.subs number).handled) }
{
    let state = parts.subs.state(number);
    state.cursor.max(parts.agent.cache().high()) < state.handled.past()
}

/// Delivers the next event of the subscription with a number, which stands at a position, and has a turn of its grain handle
/// it, where a rise is left. It tells what comes next for the subscription, which is served to its end, as `catch_up` does,
/// where the cache has nothing more for it. Elsewhere, and where there is no memory, nothing changes, and there is none.
pub(crate) fn handle_next(
    parts: &mut Parts,
    alloc: Global,
    number: usize,
    position: usize,
) -> Option<Sought>
    requires agrees { Agrees parts.old }
    requires number { number < length parts.old.subs.registry.names }
    requires ready { IsReady (plain_of parts.old) (record_of parts.old number) position }
    ensures assembled { IsAssembled parts.new }
    ensures told { HandlesNext (plain_of parts.old) (plain_of parts.new) (name_at parts.old.subs number) result }
{
    if is_spent(parts) {
        return None;
    }
    let note = next_note(parts.subs.state(number).note);
    match parts
        .subs
        .handle(alloc, number, position, note, parts.agent.cache())
    {
        Ok(sought) => {
            parts.rises += 1;
            parts.turns += 1;
            Some(sought)
        }
        Err(AllocError) => None,
    }
}

/// The next event of the cache that a subscription is owed, where a turn can handle it at once: the subscription is open, has
/// handled an event and has handled none from that one on, and its grain is active and at rest.
pub(crate) fn ready_next(parts: &Parts, number: usize) -> Option<usize>
    requires agrees { Agrees parts.now }
    requires number { number < length parts.now.subs.registry.names }
    ensures { IfSome result (IsReady (plain_of parts.now) (record_of parts.now number)) }
{
    let handled = parts.subs.state(number).handled.past();
    if handled == 0 {
        return None;
    }
    let position = next_of(parts, number)?;
    if position < handled {
        return None;
    }
    if !rests(parts, number) {
        return None;
    }
    Some(position)
}

/// Whether the grain of a subscription is active, with nothing that waits and no turn that runs.
fn rests(parts: &Parts, number: usize) -> bool
    requires agrees { Agrees parts.now }
    requires number { number < length parts.now.subs.registry.names }
    ensures { result ≡ true → (activation : ℕ) × (value_at same_grain (record_of parts.now number).grain (plain_of parts.now).grains ≡ Some (resting_grain activation)) }
{
    let Some(grain) = parts.grains.find(parts.subs.grain(number)) else {
        return false;
    };
    let activation = parts.grains.at(grain);
    if activation.waiting() > 0 {
        return false;
    }
    if activation.running().is_some() {
        return false;
    }
    activation.is_active()
}

/// The note that a turn of a drain leaves: one more, up to the greatest.
pub(crate) fn next_note(note: u64) -> u64
    ensures { result ≡ next_note note }
{
    note.saturating_add(1)
}
