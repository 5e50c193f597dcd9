//! The registry.
ghost use Rattle.std.specs.Prelude.{◌≡◌, ℕ, ◌<◌, ◌≤◌, ◌↔◌, true, false, None, Some, IsTrue, IfNone, IfSome, OnErr, is_some, get_or, length, slice_get};
ghost use Rattle.stream_ident.specs.declared.limits.TheConstants.{MOST_RULES, MOST_SUBS};
ghost use Rattle.stream_ident.specs.SubName.{same_sub};
ghost use Rattle.stream_ident.specs.Words.{first_at, Performs};
ghost use Rattle.stream_ident.specs.declared.ident.SubName.TheVariants.{Explicit, Implicit};
ghost use Rattle.pubsub_registry.specs.Index.{AreUnique, IsOn};
ghost use Rattle.pubsub_registry.specs.Registry.{add, add_implied, add_rule, close, empty, is_full, next_number, no_entry, registration_of, rules_on, truncated, AreSubsOf};

use crate::indexed::{Rules, Subscriptions};
use crate::registration::Registration;
use crate::sub_names::SubNames;
use crate::told::{Added, Closing, Implied, RuleAdded};
use std::alloc::{AllocError, Global};
use std::marker::Model;
use stream_ident::{GrainId, Name, Rule, StreamId, SubName, Token};

/// The subscriptions and rules of a partition.
///
/// A contract sees it as the registrations by name in the order in which they were made, the number of
/// the last explicit one, the rules in the order in which they were added, and how many of each there may
/// be. Its room in memory is no part of it.
#[derive(Debug)]
pub struct Registry {
    pub(crate) subscriptions: Subscriptions,
    pub(crate) rules: Rules,
    explicit: u32,
    pub(crate) most_names: usize,
    most_rules: usize,
}

impl Drop for Registry {
    fn drop(self) {
        let Self {
            subscriptions: _,
            rules: _,
            explicit: _,
            most_names: _,
            most_rules: _,
        } = self;
    }
}

impl Model for Registry {
    ghost use Rattle.pubsub_registry.specs.Registry.{PlainRegistry};

    ghost Value = { PlainRegistry };

    ghost use Rattle.pubsub_registry.specs.Sound.{IsSound};

    ghost view = { λ r. record { names = r.subscriptions; explicit = r.explicit; rules = r.rules; most_names = r.most_names; most_rules = r.most_rules } };

    ghost invariant = { λ r. IsSound (record { names = r.subscriptions; explicit = r.explicit; rules = r.rules; most_names = r.most_names; most_rules = r.most_rules }) };
}

impl Registry {
    /// A registry without subscriptions and rules, for at most this many of them. It takes no memory.
    pub fn new(alloc: Global, most_names: usize, most_rules: usize) -> Registry
        requires names { most_names ≤ MOST_SUBS }
        requires rules { most_rules ≤ MOST_RULES }
        ensures { result ≡ empty most_names most_rules }
    {
        Registry {
            subscriptions: Subscriptions::new(alloc),
            rules: Rules::new(alloc),
            explicit: 0,
            most_names,
            most_rules,
        }
    }

    /// A grain subscribes to a stream, from a token on. The subscription gets the next explicit number: a
    /// number is given once, also where the subscription was taken back. There are too many subscriptions where the
    /// registry is full, and also where no number of 32 bits is left.
    ///
    /// The cost is a look-up, and a walk over the names of the stream's implicit subscriptions.
    ///
    /// # Errors
    /// The call failed to allocate, and nothing has changed. That can happen only where a subscription would
    /// be added.
    #[inline(never)]
    pub fn add(
        &mut self,
        alloc: Global,
        stream: StreamId,
        grain: GrainId,
        start: Token,
    ) -> Result<Added, AllocError>
        ensures performs { Performs self.old self.new result (add self.old stream grain start) }
        ensures memory { OnErr result (is_some (next_number self.old) ≡ true) }
    {
        let Some(number) = self.next_number() else {
            return Ok(Added::TooMany);
        };
        let registration = Registration {
            stream,
            grain,
            start,
            is_open: true,
        };
        let sub = SubName::Explicit(number);
        self.subscriptions.push(alloc, &sub, &registration)?;
        self.explicit = number;
        Ok(Added::Added { number })
    }

    /// A rule makes a subscription of a stream, from a token on: the grain of the kind with the stream's
    /// key consumes it.
    ///
    /// The cost is a look-up, and a walk over the names of the stream's implicit subscriptions.
    ///
    /// # Errors
    /// The call failed to allocate, and nothing has changed. That can happen only where a subscription would
    /// be added.
    pub fn add_implied(
        &mut self,
        alloc: Global,
        kind: Name,
        stream: StreamId,
        start: Token,
    ) -> Result<Implied, AllocError>
        requires { registration_of self.old (Implicit kind stream) ≡ None }
        ensures performs { Performs self.old self.new result (add_implied self.old kind stream start) }
        ensures memory { OnErr result (is_full self.old ≡ false) }
    {
        if self.is_full() {
            return Ok(Implied::TooMany);
        }
        let registration = Registration::implied(kind, &stream, start);
        let sub = SubName::Implicit { kind, stream };
        self.subscriptions.push(alloc, &sub, &registration)?;
        Ok(Implied::Implied)
    }

    /// A grain unsubscribes. Only an explicit subscription is closed, and it stays in the registry. It
    /// takes no memory, and costs two look-ups.
    #[inline(never)]
    pub fn close(&mut self, sub: &SubName) -> Closing
        ensures { (self.new, result) ≡ close self.old sub.now }
    {
        let Some(registration) = self.subscriptions.get(sub) else {
            return Closing::NoSuch;
        };
        match sub {
            SubName::Implicit { .. } => Closing::Implicit,
            SubName::Explicit(_) if registration.is_open => {
                self.subscriptions.close(sub);
                Closing::Done
            }
            SubName::Explicit(_) => Closing::Closed,
        }
    }

    /// Takes back the subscriptions behind the first `len`. The explicit numbers stay given. It takes no
    /// memory, and costs a look-up and a walk over the numbers of its stream for each that is taken back.
    pub fn truncate(&mut self, len: usize)
        ensures { self.new ≡ truncated self.old len }
    {
        self.subscriptions.truncate(len);
    }

    /// From a batch on, grains of a kind consume the streams of a namespace. The cost is a walk over the
    /// rules.
    ///
    /// # Errors
    /// The call failed to allocate, and nothing has changed. That can happen only where the rule would be
    /// added.
    pub fn add_rule(
        &mut self,
        alloc: Global,
        kind: Name,
        namespace: Name,
        seq: u64,
    ) -> Result<RuleAdded, AllocError>
        ensures performs { Performs self.old self.new result (add_rule self.old kind namespace seq) }
        ensures memory { OnErr result ((add_rule self.old kind namespace seq).1 ≡ RuleAdded.Added) }
    {
        if self.rules.contains(&kind, &namespace) {
            return Ok(RuleAdded::RuleThere);
        }
        if self.rules.as_slice().len() >= self.most_rules {
            return Ok(RuleAdded::TooMany);
        }
        let rule = Rule {
            kind,
            namespace,
            from: seq,
        };
        self.rules.push(alloc, &rule)?;
        Ok(RuleAdded::Added)
    }

    /// How many subscriptions there are, closed and implicit ones counted.
    pub fn len(&self) -> usize
        ensures len { result ≡ length self.now.names }
        ensures fits { length self.now.names ≤ self.now.most_names }
        ensures few { self.now.most_names ≤ MOST_SUBS }
        ensures unique { AreUnique self.now.names }
    {
        self.subscriptions.len()
    }

    /// Whether there are no subscriptions.
    pub fn is_empty(&self) -> bool
        ensures { IsTrue result ↔ (length self.now.names ≡ 0) }
    {
        self.len() == 0
    }

    /// Whether there are as many subscriptions as there may be, closed and implicit ones counted.
    pub fn is_full(&self) -> bool
        ensures { result ≡ is_full self.now }
    {
        self.len() >= self.most_names
    }

    /// The number that the next explicit subscription gets, which no subscription has; none where there are too many, as
    /// `add` says.
    pub fn next_number(&self) -> Option<u32>
        ensures number { result ≡ next_number self.now }
        ensures new { IfSome result (λ number. registration_of self.now (Explicit number) ≡ None) }
    {
        if self.is_full() {
            return None;
        }
        self.explicit.checked_add(1)
    }

    /// The place of a subscription in the order in which they were made. The cost is a look-up.
    pub fn find(&self, sub: &SubName) -> Option<usize>
        ensures place { result ≡ first_at (λ entry. same_sub sub.now entry.0) 0 self.now.names }
        ensures within { IfSome result (λ index. index < length self.now.names) }
        ensures found { is_some result ≡ is_some (registration_of self.now sub.now) }
    {
        self.subscriptions.find(sub)
    }

    /// The subscription at a place.
    pub fn at(&self, index: usize) -> (SubName, Registration)
        requires { index < length self.now.names }
        ensures { slice_get self.now.names index ≡ Some result }
    {
        self.subscriptions.at(index)
    }

    /// The name at a place.
    pub fn name(&self, index: usize) -> SubName
        requires { index < length self.now.names }
        ensures { result ≡ (get_or self.now.names index no_entry).0 }
    {
        self.subscriptions.name(index)
    }

    /// The stream of the subscription at a place.
    pub fn stream(&self, index: usize) -> &StreamId
        requires { index < length self.now.names }
        ensures { result.now ≡ (get_or self.now.names index no_entry).1.stream }
    {
        self.subscriptions.stream(index)
    }

    /// The grain of the subscription at a place.
    pub fn grain(&self, index: usize) -> &GrainId
        requires { index < length self.now.names }
        ensures { result.now ≡ (get_or self.now.names index no_entry).1.grain }
    {
        self.subscriptions.grain(index)
    }

    /// The start of the subscription at a place.
    pub fn start(&self, index: usize) -> Token
        requires { index < length self.now.names }
        ensures { result ≡ (get_or self.now.names index no_entry).1.start }
    {
        self.subscriptions.start(index)
    }

    /// The names of a stream's subscriptions, closed ones too, from the least to the greatest. It takes no
    /// memory, and costs a look-up.
    pub fn subs_of(&self, stream: &StreamId) -> SubNames<'_>
        ensures { AreSubsOf self.now stream.now result }
    {
        let numbers = self.subscriptions.numbers_of(stream);
        SubNames::new(&self.subscriptions, numbers)
    }

    /// The number of a subscription of a stream, that with the least name. It costs a look-up.
    pub fn number_on(&self, stream: &StreamId) -> Option<usize>
        ensures number { IfSome result (IsOn self.now.names stream.now) }
        ensures none { IfNone result ((number : ℕ) → IsOn self.now.names stream.now number → ⊥) }
    {
        let number = self.subscriptions.numbers_of(stream).first()?;
        Some(*number as usize)
    }

    /// The rules on a stream's namespace, in the order in which they were added. The cost is a look-up.
    pub fn implied_by(&self, stream: &StreamId) -> &[Rule]
        ensures { result.now ≡ rules_on self.now stream.now }
    {
        self.rules.on_namespace(&stream.namespace)
    }

    /// The rules, in the order in which they were added.
    pub fn rules(&self) -> &[Rule]
        ensures rules { result.now ≡ self.now.rules }
        ensures fits { length self.now.rules ≤ self.now.most_rules }
        ensures few { self.now.most_rules ≤ MOST_RULES }
    {
        self.rules.as_slice()
    }
}
