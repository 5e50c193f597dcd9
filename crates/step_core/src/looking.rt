//! What is asked without changing anything.
ghost use Rattle.std.specs.Prelude.{◌≡◌, ◌<◌, None, Some, IfNone, IfSome, length, pred, if◌then◌else◌};
ghost use Rattle.std.specs.List.{AllByRecursion};
ghost use Rattle.std.specs.Option.{option_copied, option_map};
ghost use Rattle.stream_ident.specs.Name.{grain_lt};
ghost use Rattle.stream_ident.specs.SubName.{sub_lt};
ghost use Rattle.stream_ident.specs.Words.{keys_where, least, past};
ghost use Rattle.stream_model.specs.Draining.{all_waiting, least_waiting};
ghost use Rattle.stream_model.specs.Looks.{due, is_running, pending_in, quiet, ready};
ghost use Rattle.consumer_grain.specs.Subscriptions.{is_unacknowledged};
ghost use Rattle.partition_queue.specs.Queue.{token_at};
ghost use Rattle.subscription_table.specs.Leaves.{due_after};
ghost use Rattle.subscription_table.specs.LeavesOf.{leaves_of};
ghost use Rattle.subscription_table.specs.Table.{name_at};
ghost use Rattle.stream_model.specs.Replies.{IsNoTurn};
ghost use Rattle.step_core.specs.Assembly.{Agrees};
ghost use Rattle.step_core.specs.Deliverables.{is_deliverable, next_of};
ghost use Rattle.step_core.specs.PlainOf.{plain_of};
ghost use Rattle.step_core.specs.Records.{record_of};
ghost use Rattle.step_core.specs.Replied.{reply_of};
ghost use Rattle.step_core.specs.Serving.{next_due};

use crate::outcome::Outcome;
use crate::parts::Parts;
use cache_cursor::next;
use consumer_grain::SubState;
use partition_queue::PartitionQueue;
use stream_ident::{GrainId, SubName, Token};
use stream_model::{Pending, Reply};
use subscription_table::SubscriptionTable;

/// A worker asks for a grain for which something waits and no turn runs: the least such grain after the
/// given one, else the least.
#[inline(never)]
pub(crate) fn ready(parts: &Parts, after: Option<GrainId>) -> Outcome
    requires { Agrees parts.now }
    ensures reply { reply_of result ≡ ready (plain_of parts.now) after }
    ensures told { IsNoTurn result }
{
    match parts.grains.ready_after(after.as_ref()) {
        Some(grain) => Reply::Next(grain),
        None => Reply::NoneReady,
    }
}

/// The agent asks for a subscription that has something to acknowledge or to look for: the least such name
/// after the given one, else the least.
#[inline(never)]
pub(crate) fn due(parts: &Parts, after: Option<SubName>) -> Outcome
    requires { Agrees parts.now }
    ensures reply { reply_of result ≡ due (plain_of parts.now) after }
    ensures told { IsNoTurn result }
{
    let high = parts.agent.cache().high();
    match due_number(&parts.subs, after.as_ref(), high) {
        Some(number) => Reply::DueSub {
            sub: parts.subs.name(number),
            ack: to_acknowledge(parts.subs.state(number), &parts.queue),
        },
        None => Reply::NoneDue,
    }
}

/// The number of the next subscription that is due, as `SubscriptionTable::due_after` says. It costs a look-up of `after`
/// and the logarithm of how many subscriptions there are. Names are searched only where no subscription has that one.
fn due_number(subs: &SubscriptionTable, after: Option<&SubName>, high: usize) -> Option<usize>
    ensures none { IfNone result (due_after high (option_copied after.entry) (leaves_of subs.now.registry.names subs.now.states) ≡ None) }
    ensures within { IfSome result (λ number. number < length subs.now.registry.names) }
    ensures some { IfSome result (λ number. due_after high (option_copied after.entry) (leaves_of subs.now.registry.names subs.now.states) ≡ Some (name_at subs.now number)) }
{
    if let Some(name) = after
        && let Some(number) = subs.find(name)
    {
        return subs.due_past(number, high);
    }
    subs.due_after(after, high)
}

/// The number of the due subscription with the least name that is greater than the name of the one with the given
/// number. It costs the logarithm of how many subscriptions there are.
pub(crate) fn next_due(parts: &Parts, after: Option<usize>) -> Option<usize>
    requires agrees { Agrees parts.now }
    requires after { IfSome after (λ number. number < length parts.now.subs.registry.names) }
    ensures next { option_map (name_at parts.now.subs) result ≡ next_due (plain_of parts.now) (option_map (name_at parts.now.subs) after) }
    ensures within { IfSome result (λ number. number < length parts.now.subs.registry.names) }
{
    match after {
        Some(last) => due_past(parts, last),
        None => parts.subs.due_after(None, parts.agent.cache().high()),
    }
}

/// The number of the due subscription with the least name that is greater than the name of the one with this number.
fn due_past(parts: &Parts, last: usize) -> Option<usize>
    requires agrees { Agrees parts.now }
    requires last { last < length parts.now.subs.registry.names }
    ensures next { option_map (name_at parts.now.subs) result ≡ next_due (plain_of parts.now) (Some (name_at parts.now.subs last)) }
    ensures within { IfSome result (λ number. number < length parts.now.subs.registry.names) }
{
    let number = parts.subs.due_past(last, parts.agent.cache().high())?;
    // Past the greatest name the table begins again at the least.
    let is_past = parts.subs.is_before(last, number);
    is_past.then_some(number)
}

/// The token of the last event that a subscription has handled, where that isn't acknowledged.
#[inline(never)]
fn to_acknowledge(state: &SubState, queue: &PartitionQueue) -> Option<Token>
    requires { AllByRecursion (λ position. position < length queue.now.events) state.now.handled }
    ensures { result ≡ (if is_unacknowledged state.now then Some (token_at queue.now (pred (past state.now.handled))) else None) }
{
    if state.is_unacknowledged() {
        Some(queue.token_at(state.handled.past() - 1))
    } else {
        None
    }
}

/// Asks whether everything is pulled, delivered and handled.
#[inline(never)]
pub(crate) fn quiet(parts: &Parts) -> Outcome
    requires { Agrees parts.now }
    ensures reply { reply_of result ≡ quiet (plain_of parts.now) }
    ensures told { IsNoTurn result }
{
    match pending(parts) {
        Some(why) => Reply::NotQuiet(why),
        None => Reply::IsQuiet,
    }
}

/// Why a partition isn't quiet, the first that holds, or none where it is quiet.
#[inline(never)]
pub(crate) fn pending(parts: &Parts) -> Option<Pending>
    requires { Agrees parts.now }
    ensures { result ≡ pending_in (plain_of parts.now) }
{
    if parts.agent.cache().high() < parts.queue.len() {
        return Some(Pending::Behind);
    }
    if let Some(sub) = least_deliverable(parts) {
        return Some(Pending::Deliverable(sub));
    }
    if let Some(grain) = least_waiting(parts) {
        return Some(Pending::Waiting(grain));
    }
    let grain = least_running(parts)?;
    Some(Pending::Running(grain))
}

/// The least grain that a turn runs for.
#[inline(never)]
pub(crate) fn least_running(parts: &Parts) -> Option<GrainId>
    requires { Agrees parts.now }
    ensures { result ≡ least grain_lt (keys_where is_running (plain_of parts.now).grains) }
{
    parts.grains.least_running()
}

/// The least grain for which deliveries wait.
#[inline(never)]
pub(crate) fn least_waiting(parts: &Parts) -> Option<GrainId>
    requires { Agrees parts.now }
    ensures { result ≡ least_waiting (plain_of parts.now) }
{
    parts.grains.least_waiting()
}

/// How many deliveries wait, for all grains together. It looks at each grain once.
pub(crate) fn all_waiting(parts: &Parts) -> u128
    requires { Agrees parts.now }
    ensures { result ≡ all_waiting (plain_of parts.now) }
{
    let mut count = 0;
    for number in 0..parts.grains.len() {
        count += parts.grains.at(number).waiting() as u128;
    }
    count
}

/// The least name of an open subscription that has a next event in the cache. It looks at those that are due, up to the
/// first that has one: only what is due can have one.
#[inline(never)]
fn least_deliverable(parts: &Parts) -> Option<SubName>
    requires { Agrees parts.now }
    ensures { result ≡ least sub_lt (keys_where (is_deliverable (plain_of parts.now)) (plain_of parts.now).subs) }
{
    let mut last = None;
    while let Some(number) = next_due(parts, last) {
        if next_of(parts, number).is_some() {
            return Some(parts.subs.name(number));
        }
        last = Some(number);
    }
    None
}

/// The next event of the cache that the subscription with a number is owed, where it is open.
pub(crate) fn next_of(parts: &Parts, number: usize) -> Option<usize>
    requires agrees { Agrees parts.now }
    requires number { number < length parts.now.subs.registry.names }
    ensures { result ≡ next_of (plain_of parts.now) (record_of parts.now number) }
{
    let state = parts.subs.state(number);
    if !state.live {
        return None;
    }
    let cache = parts.agent.cache();
    let stream = parts.subs.stream(number);
    let tag = parts.subs.tag(number);
    next(cache, state.cursor, stream, tag, &state.start)
}
