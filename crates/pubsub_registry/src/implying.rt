//! The subscriptions that the rules make of events.
ghost use Rattle.std.specs.Prelude.{◌≡◌, ◌<◌, ◌≤◌, ◌+◌, ◌^◌, ◌↔◌, ◌&&◌, ◌||◌, [], ◌∷◌, ◌++◌, not, filter, length, take, fold, is_some, IsTrue, OnOk, OnErr};
ghost use Rattle.stream_ident.specs.declared.limits.TheConstants.{MOST_RULES, MOST_SUBS, PULL_EVENTS};
ghost use Rattle.std.specs.List.{flat_map, list_any};
ghost use Rattle.stream_ident.specs.Event.{batch_token};
ghost use Rattle.stream_ident.specs.Name.{same_name, same_stream};
ghost use Rattle.stream_ident.specs.SubName.{same_sub};
ghost use Rattle.stream_ident.specs.Token.{token_lt};
ghost use Rattle.stream_ident.specs.Words.{value_at, Performs};
ghost use Rattle.stream_ident.specs.declared.event.Event.{Event};
ghost use Rattle.stream_ident.specs.declared.rule.Rule.{Rule};
ghost use Rattle.stream_ident.specs.Implying.{added};
ghost use Rattle.pubsub_registry.specs.Implying.{imply, made, makes_any, names_with, rule_count};

use crate::indexed::{Rules, Subscriptions};
use crate::registration::Registration;
use crate::registry::Registry;
use crate::told::Implied;
use partition_queue::Span;
use queue_mapper::HeaderRef;
use std::alloc::{AllocError, Global};
use stream_ident::{Name, Rule, StreamId, SubName, Token};

impl Registry {
    /// The rules make subscriptions of these events, in their order. Each rule on the namespace of an event
    /// makes one of its stream, unless the event is before the rule's batch or the name is there: the grain
    /// of the rule's kind with the stream's key consumes the stream, from the rule's batch on.
    ///
    /// All are made, or none where there would be more subscriptions than there may be.
    ///
    /// Without rules nothing is read. Else the cost is two look-ups for each event, one for each rule on its namespace that makes a subscription
    /// of it, and that of `add_implied` for each new one. Only where there are more rules on the namespaces
    /// of the events than places are left are the new ones counted first, each at a look-up and a walk over
    /// the earlier events.
    ///
    /// # Errors
    /// The call failed to allocate, and nothing has changed. That can happen only where there would be more
    /// subscriptions than before.
    #[inline(never)]
    pub fn imply(&mut self, alloc: Global, events: &Span) -> Result<Implied, AllocError>
        requires few { length events.now ≤ PULL_EVENTS }
        ensures performs { Performs self.old self.new result (imply self.old events.now) }
        ensures memory { OnErr result (length self.old.names < length (imply self.old events.now).0.names) }
    {
        if self.rules.as_slice().is_empty() {
            return Ok(Implied::Implied);
        }
        if !has_room(&self.subscriptions, &self.rules, self.most_names, events) {
            return Ok(Implied::TooMany);
        }
        add_all(&mut self.subscriptions, alloc, &self.rules, events)?;
        Ok(Implied::Implied)
    }
}

/// Whether there may be as many subscriptions as there are with those that the rules make of these events.
///
/// Mostly there is room for one by each rule on the namespaces of the events, and none is looked up.
fn has_room(subscriptions: &Subscriptions, rules: &Rules, most: usize, events: &Span) -> bool
    requires fits { length subscriptions.now ≤ most }
    requires rules { length rules.now ≤ MOST_RULES }
    requires events { length events.now ≤ PULL_EVENTS }
    ensures { IsTrue result ↔ (length (names_with rules.now subscriptions.now events.now) ≤ most) }
{
    let room = most - subscriptions.len();
    rule_count(rules, events) <= room || count_new(subscriptions, rules, events) <= room
}

/// The rules on the namespace of an event.
fn rules_on<'a>(rules: &'a Rules, event: &HeaderRef) -> &'a [Rule]
    ensures { result.now ≡ filter (λ (rule : Rule). same_name event.now.stream.namespace rule.namespace) rules.now }
{
    rules.on_namespace(&event.stream().namespace)
}

/// How many rules there are on the namespaces of these events, counted for each event.
fn rule_count(rules: &Rules, events: &Span) -> usize
    requires { rule_count rules.now events.now < 2 ^ 64 }
    ensures { result ≡ rule_count rules.now events.now }
{
    let mut count = 0;
    for index in 0..events.len() {
        let event = events.at(index);
        let here = rules_on(rules, &event);
        count += here.len();
    }
    count
}

/// How many new subscriptions the rules make of these events. It takes no memory.
fn count_new(subscriptions: &Subscriptions, rules: &Rules, events: &Span) -> usize
    requires rules { length rules.now ≤ MOST_RULES }
    requires events { length events.now ≤ PULL_EVENTS }
    ensures { length (names_with rules.now subscriptions.now events.now) ≡ length subscriptions.now + result }
{
    let mut count = 0;
    for index in 0..events.len() {
        count += count_for_event(
            subscriptions,
            rules,
            &events.first(index),
            &events.at(index),
        );
    }
    count
}

/// How many new subscriptions the rules make of an event, beyond those that they make of earlier ones.
fn count_for_event(
    subscriptions: &Subscriptions,
    rules: &Rules,
    earlier: &Span,
    event: &HeaderRef,
) -> usize
    requires { length rules.now ≤ MOST_RULES }
    ensures count { length (names_with rules.now subscriptions.now (earlier.now ++ event.now ∷ [])) ≡ length (names_with rules.now subscriptions.now earlier.now) + result }
    ensures bound { result ≤ MOST_RULES }
{
    let rules = rules_on(rules, event);
    let mut count = 0;
    for (index, rule) in rules.iter().enumerate() {
        if is_new(subscriptions, rules, &rules[..index], rule, earlier, event) {
            count += 1;
        }
    }
    count
}

/// Whether a rule on its namespace makes a subscription of an event whose name isn't there, which neither the
/// rules before it make, nor the rules on the namespace of an earlier event.
fn is_new(
    subscriptions: &Subscriptions,
    rules: &[Rule],
    before: &[Rule],
    rule: &Rule,
    earlier: &Span,
    event: &HeaderRef,
) -> bool
    ensures { result ≡ (not (token_lt event.now.token (batch_token rule.now.from)) && not (is_some (value_at same_sub (SubName.Implicit rule.now.kind event.now.stream) subscriptions.now)
        || (makes_any rule.now.kind event.now before.now
        || list_any (λ (other : Event). same_stream event.now.stream other.stream && makes_any rule.now.kind other rules.now) earlier.now))) }
{
    holds_for(rule, event)
        && subscriptions.find(&implied_name(rule, event)).is_none()
        && !makes(before, event, &rule.kind)
        && !makes_of_any(rules, earlier, event.stream(), &rule.kind)
}

/// Whether the rules, which are on a stream's namespace, make its subscription of a kind of any of these
/// events.
fn makes_of_any(rules: &[Rule], events: &Span, stream: &StreamId, kind: &Name) -> bool
    ensures { result ≡ list_any (λ (event : Event). same_stream stream.now event.stream && makes_any kind.now event rules.now) events.now }
{
    for index in 0..events.len() {
        let event = events.at(index);
        if *stream == *event.stream() && makes(rules, &event, kind) {
            return true;
        }
    }
    false
}

/// Whether the rules, which are on an event's namespace, make the subscription of a kind of it.
fn makes(rules: &[Rule], event: &HeaderRef, kind: &Name) -> bool
    ensures { result ≡ makes_any kind.now event.now rules.now }
{
    rules
        .iter()
        .any(|rule| *kind == rule.kind && holds_for(rule, event))
}

/// Adds what the rules make of these events.
///
/// # Errors
/// The call failed to allocate, and nothing has changed. That can happen only where a name is new.
fn add_all(
    subscriptions: &mut Subscriptions,
    alloc: Global,
    rules: &Rules,
    events: &Span,
) -> Result<(), AllocError>
    requires { length (names_with rules.now subscriptions.old events.now) ≤ MOST_SUBS }
    ensures ok { OnOk result (subscriptions.new ≡ names_with rules.now subscriptions.old events.now) }
    ensures err { OnErr result (subscriptions.new ≡ subscriptions.old) }
    ensures memory { OnErr result (length subscriptions.old < length (names_with rules.now subscriptions.old events.now)) }
{
    let len = subscriptions.len();
    let pushed = push_all(subscriptions, alloc, rules, events);
    if pushed.is_err() {
        subscriptions.truncate(len);
    }
    pushed
}

/// Adds what the rules make of these events, as far as there is memory.
fn push_all(
    subscriptions: &mut Subscriptions,
    alloc: Global,
    rules: &Rules,
    events: &Span,
) -> Result<(), AllocError>
    requires { length (names_with rules.now subscriptions.old events.now) ≤ MOST_SUBS }
    ensures all { OnOk result (subscriptions.new ≡ names_with rules.now subscriptions.old events.now) }
    ensures front { take (length subscriptions.old) subscriptions.new ≡ subscriptions.old }
    ensures memory { OnErr result (length subscriptions.old < length (names_with rules.now subscriptions.old events.now)) }
{
    for index in 0..events.len() {
        let event = events.at(index);
        let rules = rules_on(rules, &event);
        push_for_event(subscriptions, alloc, rules, &event)?;
    }
    Ok(())
}

/// Adds what the rules on its namespace make of an event, as far as there is memory.
fn push_for_event(
    subscriptions: &mut Subscriptions,
    alloc: Global,
    rules: &[Rule],
    event: &HeaderRef,
) -> Result<(), AllocError>
    requires { length (fold added subscriptions.old (flat_map (made event.now) rules.now)) ≤ MOST_SUBS }
    ensures all { OnOk result (subscriptions.new ≡ fold added subscriptions.old (flat_map (made event.now) rules.now)) }
    ensures front { take (length subscriptions.old) subscriptions.new ≡ subscriptions.old }
    ensures memory { OnErr result (length subscriptions.old < length (fold added subscriptions.old (flat_map (made event.now) rules.now))) }
{
    for rule in rules {
        push_by_rule(subscriptions, alloc, rule, event)?;
    }
    Ok(())
}

/// Adds what a rule on its namespace makes of an event, unless the name is there.
///
/// # Errors
/// The call failed to allocate, and nothing has changed. That can happen only where the name is new.
#[inline(never)]
fn push_by_rule(
    subscriptions: &mut Subscriptions,
    alloc: Global,
    rule: &Rule,
    event: &HeaderRef,
) -> Result<(), AllocError>
    requires { length subscriptions.old ≤ MOST_SUBS }
    ensures ok { OnOk result (subscriptions.new ≡ fold added subscriptions.old (made event.now rule.now)) }
    ensures err { OnErr result (subscriptions.new ≡ subscriptions.old) }
    ensures memory { OnErr result (length subscriptions.old < length (fold added subscriptions.old (made event.now rule.now))) }
{
    let sub = implied_name(rule, event);
    if !holds_for(rule, event) || subscriptions.find(&sub).is_some() {
        return Ok(());
    }
    let start = Token {
        seq: rule.from,
        idx: 0,
    };
    let registration = Registration::implied(rule.kind, event.stream(), start);
    subscriptions.push(alloc, &sub, &registration)
}

/// The name of the subscription that a rule makes of an event.
#[inline(never)]
fn implied_name(rule: &Rule, event: &HeaderRef) -> SubName
    ensures { result ≡ SubName.Implicit rule.now.kind event.now.stream }
{
    SubName::Implicit {
        kind: rule.kind,
        stream: *event.stream(),
    }
}

/// Whether an event isn't before a rule's batch.
fn holds_for(rule: &Rule, event: &HeaderRef) -> bool
    ensures { result ≡ not (token_lt event.now.token (batch_token rule.now.from)) }
{
    rule.from <= event.token().seq
}
