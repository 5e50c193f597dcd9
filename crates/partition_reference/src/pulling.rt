//! What a pulling agent asks.
ghost use Rattle.std.specs.Prelude.{◌≡◌, ◌==◌, ◌≤◌, ◌+◌, ◌-◌, ◌*◌, ◌&&◌, ℕ, true, not, length, take, fold, is_ok, is_some, min, max, OnErr, OnOk, if◌then◌else◌};
ghost use Rattle.stream_ident.specs.declared.limits.TheConstants.{MOST_BLOCKS, MOST_RULES};
ghost use Rattle.stream_ident.specs.declared.limits.TheConstants.{BLOCK_EVENTS, MOST_BLOCKS, MOST_RULES, PULL_EVENTS};
ghost use Rattle.std.specs.List.{flat_map};
ghost use Rattle.stream_ident.specs.Name.{same_name};
ghost use Rattle.stream_ident.specs.SubName.{same_sub};
ghost use Rattle.stream_ident.specs.Token.{token_lt};
ghost use Rattle.stream_model.specs.Bounds.{IsWithinLimits};
ghost use Rattle.stream_ident.specs.Event.{batch_token};
ghost use Rattle.stream_model.specs.Positions.{between};
ghost use Rattle.stream_ident.specs.Implying.{added};
ghost use Rattle.stream_model.specs.Pulling.{all_implied, drops, free_blocks, implied, is_stale, pull, pull_events, pull_want, room, subs_with};
ghost use Rattle.stream_ident.specs.Blocks.{pull_size};
ghost use Rattle.stream_model.specs.Step.{takes_memory};
ghost use Rattle.stream_ident.specs.Words.{Performs, value_at};

use crate::positions::{
    between, first_token, is_same_name, is_same_sub, is_token_before, slowest, slowest_name,
    token_at,
};
use crate::publishing::new_subscription;
use std::alloc::{AllocError, Global};
use stream_ident::{BLOCK_EVENTS, Event, GrainId, PULL_EVENTS, Rule, SubName};
use stream_model::{PlainPartition, Reply, Sequence, Subscription};

/// The agent takes events from the queue into the cache, and the rules make subscriptions of them.
pub fn pull(
    p: &mut PlainPartition,
    alloc: Global,
    generation: u64,
    max: u32,
) -> Result<Reply, AllocError>
    requires { IsWithinLimits p.old }
    ensures performs { Performs p.old p.new result (pull p.old generation max) }
    ensures memory { OnErr result (takes_memory (pull p.old generation max).1 ≡ true) }
{
    if is_stale(p, generation) {
        return Ok(Reply::StaleAgent { now: p.generation });
    }
    let queued = p.log.as_slice().len();
    if p.high == queued {
        return Ok(Reply::Dry);
    }
    let want = pull_size(max).min(queued.saturating_sub(p.high));
    pull_want(p, alloc, want)
}

/// Whether an agent isn't the current one.
pub fn is_stale(p: &PlainPartition, generation: u64) -> bool
    ensures { result ≡ is_stale p.now generation }
{
    generation != p.generation
}

/// How many events a pull may take.
fn pull_size(max: u32) -> usize
    ensures size { result ≡ pull_size max }
    ensures bound { result ≤ PULL_EVENTS }
{
    max.max(1).min(PULL_EVENTS as u32) as usize
}

/// Takes as many of these events as there is room for, blocks of the cache being dropped for them.
fn pull_want(p: &mut PlainPartition, alloc: Global, want: usize) -> Result<Reply, AllocError>
    requires within { IsWithinLimits p.old }
    requires size { want ≤ PULL_EVENTS }
    requires queued { want ≤ length p.old.log - p.old.high }
    ensures performs { Performs p.old p.new result (pull_want p.old want) }
    ensures memory { OnErr result (takes_memory (pull_want p.old want).1 ≡ true) }
{
    let blocks = drops(p, want);
    let count = want.min(room(p) + BLOCK_EVENTS * blocks);
    if count == 0 {
        let by = slowest_name(p).unwrap_or(SubName::Explicit(0));
        return Ok(Reply::Pressed { by });
    }
    let low = p.low + BLOCK_EVENTS * blocks;
    let high = p.high + count;
    pull_events(p, alloc, low, high)
}

/// Takes the events up to a position, the cache keeping those from `low` on.
fn pull_events(
    p: &mut PlainPartition,
    alloc: Global,
    low: usize,
    high: usize,
) -> Result<Reply, AllocError>
    requires within { IsWithinLimits p.old }
    requires order { p.old.high ≤ high }
    requires size { high ≤ p.old.high + PULL_EVENTS }
    ensures performs { Performs p.old p.new result (pull_events p.old low high (subs_with p.old.rules p.old.high p.old.subs (between p.old.log p.old.high high))) }
    ensures memory { OnErr result (takes_memory (pull_events p.old low high (subs_with p.old.rules p.old.high p.old.subs (between p.old.log p.old.high high))).1 ≡ true) }
{
    let low_token = token_at(p, low);
    let high_token = token_at(p, high);
    let events = between(p.log.as_slice(), p.high, high);
    let rules = p.rules.as_slice();
    let count = count_new(p.subs.as_slice(), rules, events);
    if p.subs.as_slice().len() + count > p.limits.subs {
        return Ok(Reply::TooMany);
    }
    add_implied(&mut p.subs, alloc, rules, p.high, events)?;
    let count = high - p.high;
    p.low = low;
    p.high = high;
    Ok(Reply::Pulled {
        count,
        low: low_token,
        high: high_token,
    })
}

/// Whole blocks that end at or below both the cache's end and the slowest resume.
pub fn free_blocks(p: &PlainPartition) -> usize
    ensures { result ≡ free_blocks p.now }
{
    p.high.min(slowest(p)).saturating_sub(p.low) / BLOCK_EVENTS
}

/// How many more events the cache takes.
fn room(p: &PlainPartition) -> usize
    requires { p.now.blocks ≤ MOST_BLOCKS }
    ensures room { result ≡ room p.now }
    ensures bound { result ≤ 4096 }
{
    (BLOCK_EVENTS * p.blocks).saturating_sub(p.high.saturating_sub(p.low))
}

/// The fewest blocks that make room for so many events, or all that are free.
fn drops(p: &PlainPartition, want: usize) -> usize
    requires blocks { p.now.blocks ≤ MOST_BLOCKS }
    requires size { want ≤ PULL_EVENTS }
    ensures drops { result ≡ drops p.now want }
    ensures few { result ≤ 4 }
    ensures fits { p.now.low + BLOCK_EVENTS * result ≤ max p.now.low p.now.high }
{
    let missing = want.saturating_sub(room(p));
    missing.div_ceil(BLOCK_EVENTS).min(free_blocks(p))
}

/// How many new names the rules make of these events.
fn count_new(subs: &[(SubName, Subscription)], rules: &[Rule], events: &[Event]) -> usize
    requires rules { length rules.now ≤ MOST_RULES }
    requires events { length events.now ≤ PULL_EVENTS }
    ensures count { (position : ℕ) → length (subs_with rules.now position subs.now events.now) ≡ length subs.now + result }
    ensures bound { result ≤ MOST_RULES * length events.now }
{
    let mut count = 0;
    for (index, event) in events.iter().enumerate() {
        count += count_for_event(subs, rules, &events[..index], event);
    }
    count
}

/// How many new names the rules make of an event, beyond those that they make of earlier ones.
fn count_for_event(
    subs: &[(SubName, Subscription)],
    rules: &[Rule],
    earlier: &[Event],
    event: &Event,
) -> usize
    requires { length rules.now ≤ MOST_RULES }
    ensures count { (position : ℕ) →
        length (fold added (subs_with rules.now position subs.now earlier.now) (flat_map (implied position event.now) rules.now))
        ≡ length (subs_with rules.now position subs.now earlier.now) + result }
    ensures bound { result ≤ length rules.now }
{
    let mut count = 0;
    for (index, rule) in rules.iter().enumerate() {
        if is_implied(event, rule)
            && is_new(
                subs,
                rules,
                earlier,
                &rules[..index],
                event,
                &implied_name(event, rule),
            )
        {
            count += 1;
        }
    }
    count
}

/// Whether a name is neither there, nor made of the earlier events, nor made of this event by the rules
/// before.
fn is_new(
    subs: &[(SubName, Subscription)],
    rules: &[Rule],
    earlier: &[Event],
    before: &[Rule],
    event: &Event,
    name: &SubName,
) -> bool
    ensures { (position : ℕ) →
        result ≡ not (is_some (value_at same_sub name.now
        (fold added (subs_with rules.now position subs.now earlier.now) (flat_map (implied position event.now) before.now)))) }
{
    !is_there(subs, name) && !makes(rules, earlier, name) && !makes_of_event(before, event, name)
}

/// Whether a rule makes a subscription of an event.
fn is_implied(event: &Event, rule: &Rule) -> bool
    ensures { result ≡ (same_name event.now.stream.namespace rule.now.namespace && not (token_lt event.now.token (batch_token rule.now.from))) }
{
    is_same_name(&event.stream.namespace, &rule.namespace)
        && !is_token_before(&event.token, &first_token(rule.from))
}

/// The name that a rule gives to the subscription that it makes of an event.
fn implied_name(event: &Event, rule: &Rule) -> SubName
    ensures { result ≡ SubName.Implicit rule.now.kind event.now.stream }
{
    SubName::Implicit {
        kind: rule.kind,
        stream: event.stream,
    }
}

/// Whether there is a subscription with this name.
fn is_there(subs: &[(SubName, Subscription)], name: &SubName) -> bool
    ensures { result ≡ is_some (value_at same_sub name.now subs.now) }
{
    for (other, _) in subs {
        if is_same_sub(name, other) {
            return true;
        }
    }
    false
}

/// Whether the rules make this name of one of these events.
fn makes(rules: &[Rule], events: &[Event], name: &SubName) -> bool
    ensures { (position : ℕ) → result ≡ is_some (value_at same_sub name.now (all_implied rules.now position events.now)) }
{
    for event in events {
        if makes_of_event(rules, event, name) {
            return true;
        }
    }
    false
}

/// Whether the rules make this name of an event.
fn makes_of_event(rules: &[Rule], event: &Event, name: &SubName) -> bool
    ensures { (position : ℕ) → result ≡ is_some (value_at same_sub name.now (flat_map (implied position event.now) rules.now)) }
{
    for rule in rules {
        if makes_by_rule(rule, event, name) {
            return true;
        }
    }
    false
}

/// Whether a rule makes this name of an event.
fn makes_by_rule(rule: &Rule, event: &Event, name: &SubName) -> bool
    ensures { (position : ℕ) → result ≡ is_some (value_at same_sub name.now (implied position event.now rule.now)) }
{
    is_implied(event, rule) && is_same_sub(name, &implied_name(event, rule))
}

/// Adds what the rules make of these events. Where it fails to allocate, the list stays as it was.
fn add_implied(
    subs: &mut Sequence<(SubName, Subscription)>,
    alloc: Global,
    rules: &[Rule],
    position: usize,
    events: &[Event],
) -> Result<(), AllocError>
    ensures { subs.new ≡ (if is_ok result then subs_with rules.now position subs.old events.now else subs.old) }
{
    let len = subs.items.len();
    let pushed = push_implied(&mut subs.items, alloc, rules, position, events);
    if pushed.is_err() {
        subs.items.truncate(len);
    }
    pushed
}

/// Adds what the rules make of these events, as far as there is memory.
fn push_implied(
    subs: &mut Vec<(SubName, Subscription)>,
    alloc: Global,
    rules: &[Rule],
    position: usize,
    events: &[Event],
) -> Result<(), AllocError>
    ensures all { OnOk result (subs.new.items ≡ subs_with rules.now position subs.old.items events.now) }
    ensures front { take (length subs.old.items) subs.new.items ≡ subs.old.items }
{
    for event in events {
        push_for_event(subs, alloc, rules, position, event)?;
    }
    Ok(())
}

/// Adds what the rules make of an event, as far as there is memory.
fn push_for_event(
    subs: &mut Vec<(SubName, Subscription)>,
    alloc: Global,
    rules: &[Rule],
    position: usize,
    event: &Event,
) -> Result<(), AllocError>
    ensures all { OnOk result (subs.new.items ≡ fold added subs.old.items (flat_map (implied position event.now) rules.now)) }
    ensures front { take (length subs.old.items) subs.new.items ≡ subs.old.items }
{
    for rule in rules {
        push_by_rule(subs, alloc, rule, position, event)?;
    }
    Ok(())
}

/// Adds what a rule makes of an event, unless its name is there.
fn push_by_rule(
    subs: &mut Vec<(SubName, Subscription)>,
    alloc: Global,
    rule: &Rule,
    position: usize,
    event: &Event,
) -> Result<(), AllocError>
    ensures all { OnOk result (subs.new.items ≡ fold added subs.old.items (implied position event.now rule.now)) }
    ensures front { take (length subs.old.items) subs.new.items ≡ subs.old.items }
{
    let name = implied_name(event, rule);
    if !is_implied(event, rule) || is_there(subs, &name) {
        return Ok(());
    }
    let grain = GrainId {
        kind: rule.kind,
        key: event.stream.key,
    };
    let sub = new_subscription(alloc, event.stream, grain, first_token(rule.from), position);
    subs.push((name, sub))?;
    Ok(())
}
