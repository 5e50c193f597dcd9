//! The subscriptions that rules make, as a registry keeps them. Names are single bytes.
use crate::names::{grain, name, stream};
use crate::rows::assert_at;
use pubsub_registry::{Added, Implied, Registry, RuleAdded};
use std::alloc::{AllocError, Global};
use std::process::Abort;
use std::test::Fail;
use stream_ident::{Rule, SubName, Token};

const START: Token = Token { seq: 3, idx: 1 };

/// The name of a subscription.
#[derive(Clone, Copy)]
enum Sub {
    /// The number of one that a grain made of the stream o/k.
    Explicit(u32),
    /// The kind of the grains, and the key of a stream of the namespace o.
    Implicit(u8, u8),
}

fn sub_name<R: Abort>(rt: &R, sub: Sub) -> SubName {
    match sub {
        Sub::Explicit(number) => SubName::Explicit(number),
        Sub::Implicit(kind, key) => SubName::Implicit {
            kind: name(rt, kind),
            stream: stream(rt, b'o', key),
        },
    }
}

/// The subscriptions in the order in which they are made, each with whether there is room for it.
static MADE: [(Sub, bool); 6] = [
    (Sub::Implicit(b'l', b'k'), true),
    (Sub::Explicit(1), true),
    (Sub::Implicit(b'a', b'k'), true),
    (Sub::Implicit(b'l', b'j'), true),
    (Sub::Explicit(2), true),
    (Sub::Implicit(b'a', b'j'), false),
];

/// Whether a rule makes a subscription where there is room, and else none.
fn is_implied<R: Abort>(
    rt: &R,
    alloc: Global,
    registry: &mut Registry,
    kind: u8,
    key: u8,
    has_room: bool,
) -> Result<bool, AllocError> {
    let (kind, stream) = (name(rt, kind), stream(rt, b'o', key));
    assert!(rt; registry.find(&SubName::Implicit { kind, stream }).is_none());
    let implied = registry.add_implied(alloc, kind, stream, START)?;
    Ok(match has_room {
        true => implied == Implied::Implied,
        false => implied == Implied::TooMany,
    })
}

/// Whether a subscription is made where there is room, and else none.
fn is_made<R: Abort>(
    rt: &R,
    alloc: Global,
    registry: &mut Registry,
    sub: Sub,
    has_room: bool,
) -> Result<bool, AllocError> {
    match sub {
        Sub::Implicit(kind, key) => is_implied(rt, alloc, registry, kind, key, has_room),
        Sub::Explicit(number) => {
            assert!(rt; registry.next_number() == Some(number));
            let (stream, grain) = (stream(rt, b'o', b'k'), grain(rt, b'g', b'x'));
            Ok(registry.add(alloc, stream, grain, START)? == Added::Added { number })
        }
    }
}

/// Whether a subscription is open, of the grain of its kind with the stream's key, from the start on.
fn is_there<R: Abort>(rt: &R, registry: &Registry, kind: u8, key: u8) -> bool {
    let sub = sub_name(rt, Sub::Implicit(kind, key));
    let Some(place) = registry.find(&sub) else {
        return false;
    };
    let (found, registration) = registry.at(place);
    found == sub
        && registration.stream == stream(rt, b'o', key)
        && registration.grain == grain(rt, kind, key)
        && registration.start == START
        && registration.is_open
}

/// The names of the subscriptions of the streams o/KEY, from the least to the greatest.
static NAMES: [(u8, &[Sub]); 3] = [
    (
        b'k',
        &[
            Sub::Explicit(1),
            Sub::Explicit(2),
            Sub::Implicit(b'a', b'k'),
            Sub::Implicit(b'l', b'k'),
        ],
    ),
    (b'j', &[Sub::Implicit(b'l', b'j')]),
    (b'i', &[]),
];

/// Whether these are the subscriptions of the stream o/KEY.
fn are_subs_of<R: Abort>(rt: &R, registry: &Registry, key: u8, wanted: &[Sub]) -> bool {
    let subs = registry.subs_of(&stream(rt, b'o', key));
    for (place, sub) in wanted.iter().enumerate() {
        if place >= subs.len() || subs.at(place) != sub_name(rt, *sub) {
            return false;
        }
    }
    subs.len() == wanted.len()
}

/// The kind, the namespace and the first batch of each rule.
type Ruled = (u8, u8, u64);

/// The rules in the order in which they are added.
static RULES: [Ruled; 4] = [
    (b'l', b'o', 2),
    (b'l', b'p', 0),
    (b'a', b'o', 7),
    (b'z', b'q', 1),
];

fn rule<R: Abort>(rt: &R, ruled: &Ruled) -> Rule {
    let (kind, namespace, from) = *ruled;
    Rule {
        kind: name(rt, kind),
        namespace: name(rt, namespace),
        from,
    }
}

/// The rules on each namespace, in the order in which they were added.
static IMPLIED: [(u8, &[Ruled]); 3] = [
    (b'o', &[(b'l', b'o', 2), (b'a', b'o', 7)]),
    (b'p', &[(b'l', b'p', 0)]),
    (b'r', &[]),
];

/// Whether these are the rules on the streams of a namespace.
fn are_implied_by<R: Abort>(rt: &R, registry: &Registry, namespace: u8, wanted: &[Ruled]) -> bool {
    let rules = registry.implied_by(&stream(rt, namespace, b'k'));
    for (ruled, wanted) in rules.iter().zip(wanted) {
        if *ruled != rule(rt, wanted) {
            return false;
        }
    }
    rules.len() == wanted.len()
}

/// A registry with the rules, and with room for five subscriptions, which are made.
fn filled<R: Abort>(rt: &R, alloc: Global) -> Result<Registry, AllocError> {
    let mut registry = Registry::new(alloc, 5, 4);
    for (row, ruled) in RULES.iter().enumerate() {
        let Rule {
            kind,
            namespace,
            from,
        } = rule(rt, ruled);
        let added = registry.add_rule(alloc, kind, namespace, from)?;
        assert_at(rt, row, added == RuleAdded::Added);
    }
    for (row, (sub, has_room)) in MADE.iter().enumerate() {
        let is_made = is_made(rt, alloc, &mut registry, *sub, *has_room)?;
        assert_at(rt, row, is_made);
    }
    Ok(registry)
}

#[test]
fn rules_make_subscriptions(rt: HostRuntime) -> Result<(), Fail> {
    let registry = filled(&rt, rt.alloc())?;
    assert!(rt; registry.len() == 5);
    assert!(rt; is_there(&rt, &registry, b'a', b'k') && !is_there(&rt, &registry, b'a', b'j'));
    for (row, (key, wanted)) in NAMES.iter().enumerate() {
        assert_at(&rt, row, are_subs_of(&rt, &registry, *key, wanted));
    }
    for (row, (namespace, wanted)) in IMPLIED.iter().enumerate() {
        assert_at(&rt, row, are_implied_by(&rt, &registry, *namespace, wanted));
    }
    Ok(())
}
