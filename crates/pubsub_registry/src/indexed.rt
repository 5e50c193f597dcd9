//! The subscriptions and the rules, each with an index: the numbers of each stream's subscriptions, and the
//! rules on each namespace.
ghost use Rattle.std.specs.Prelude.{◌≡◌, ◌-◌, ◌<◌, [], ◌∷◌, ◌++◌, ◌&&◌, ◌≤◌, filter, get_or, length, take, nat_eq, not, None, Some, OnOk, OnErr, IfSome, is_some, slice_get, Contains, insert, if◌then◌else◌};
ghost use Rattle.std.specs.List.{list_any};
ghost use Rattle.std.specs.Map.{keys_of, lookup};
ghost use Rattle.stream_ident.specs.Name.{same_stream, same_name};
ghost use Rattle.stream_ident.specs.SubName.{same_sub};
ghost use Rattle.stream_ident.specs.Words.{changed_value, first_at, value_at};
ghost use Rattle.stream_ident.specs.declared.ident.StreamId.{StreamId};
ghost use Rattle.stream_ident.specs.declared.limits.TheConstants.{MOST_SUBS};
ghost use Rattle.stream_ident.specs.declared.rule.Rule.{Rule};
ghost use Rattle.pubsub_registry.specs.Packed.{same_key};
ghost use Rattle.pubsub_registry.specs.Rows.{row_of, ChangesRow, KeepsRows};
ghost use Rattle.pubsub_registry.specs.Ascending.{IsAscending, IsPlaceOf};

use crate::packed::{Key, Row, entry_at, key_at, key_of, known_key, name_by, row_for};
use crate::registration::Registration;
use crate::sub_names::SubNames;
use indexmap::IndexMap;
use std::alloc::{AllocError, Global};
use std::hash::Hash;
use std::marker::Model;
use stream_ident::{GrainId, Name, Rule, StreamId, SubName, Token};

/// The subscriptions by name, in the order in which they were made, with the numbers of each stream's. A number is the
/// place in that order. Each stream and each grain is kept once, also where its last subscription was taken back.
///
/// A contract sees it as the names with their registrations, in that order.
#[derive(Debug, Drop)]
pub(crate) struct Subscriptions {
    rows: IndexMap<Key, Row>,
    by_stream: IndexMap<StreamId, Vec<u32>>,
    grains: IndexMap<GrainId, ()>,
}

impl Model for Subscriptions {
    ghost use Rattle.std.specs.Prelude.{List};
    ghost use Rattle.stream_ident.specs.declared.ident.SubName.{SubName};
    ghost use Rattle.pubsub_registry.specs.declared.registration.Registration.{Registration};
    ghost use Rattle.pubsub_registry.specs.Packed.{entries_by, ids_in, IsPacked};

    ghost Value = { List (SubName × Registration) };

    ghost view = { λ s. entries_by (ids_in s.by_stream s.grains) s.rows.entries };

    ghost invariant = { λ s. IsPacked s.by_stream s.grains s.rows.entries };
}

impl Subscriptions {
    ghost use Rattle.pubsub_registry.specs.Index.{AreNumbersOf, AreUnique};
    ghost use Rattle.pubsub_registry.specs.Packed.{IsNameOf};
    ghost use Rattle.pubsub_registry.specs.Registry.{closed_registration, no_entry};

    /// No subscriptions. It takes no memory.
    pub(crate) fn new(alloc: Global) -> Subscriptions
        ensures { result ≡ [] }
    {
        Subscriptions {
            rows: IndexMap::new(alloc),
            by_stream: IndexMap::new(alloc),
            grains: IndexMap::new(alloc),
        }
    }

    /// How many there are. No name stands twice.
    pub(crate) fn len(&self) -> usize
        ensures len { result ≡ length self.now }
        ensures unique { AreUnique self.now }
    {
        self.rows.len()
    }

    /// The registration of a name.
    pub(crate) fn get(&self, sub: &SubName) -> Option<Registration>
        ensures { result ≡ value_at same_sub sub.now self.now }
    {
        let place = self.find(sub)?;
        Some(self.at(place).1)
    }

    /// The place of a name.
    pub(crate) fn find(&self, sub: &SubName) -> Option<usize>
        ensures place { result ≡ first_at (λ entry. same_sub sub.now entry.0) 0 self.now }
        ensures within { IfSome result (λ index. index < length self.now) }
        ensures found { is_some result ≡ is_some (value_at same_sub sub.now self.now) }
    {
        let Some(key) = known_key(&self.by_stream, &self.grains, sub) else {
            return None;
        };
        self.rows.get_index_of(&key)
    }

    /// The subscription at a place.
    #[inline(never)]
    pub(crate) fn at(&self, index: usize) -> (SubName, Registration)
        requires { index < length self.now }
        ensures { slice_get self.now index ≡ Some result }
    {
        let (key, row) = entry_at(&self.rows, index);
        let registration = Registration {
            stream: *key_at(&self.by_stream, row.stream),
            grain: *key_at(&self.grains, row.grain),
            start: row.start,
            is_open: row.is_open,
        };
        (name_by(&self.by_stream, &self.grains, key), registration)
    }

    /// The name at a place.
    pub(crate) fn name(&self, index: usize) -> SubName
        requires { index < length self.now }
        ensures { result ≡ (get_or self.now index no_entry).0 }
    {
        let (key, _) = entry_at(&self.rows, index);
        name_by(&self.by_stream, &self.grains, key)
    }

    /// The stream at a place.
    pub(crate) fn stream(&self, index: usize) -> &StreamId
        requires { index < length self.now }
        ensures { result.now ≡ (get_or self.now index no_entry).1.stream }
    {
        let (_, row) = entry_at(&self.rows, index);
        key_at(&self.by_stream, row.stream)
    }

    /// The grain at a place.
    pub(crate) fn grain(&self, index: usize) -> &GrainId
        requires { index < length self.now }
        ensures { result.now ≡ (get_or self.now index no_entry).1.grain }
    {
        let (_, row) = entry_at(&self.rows, index);
        key_at(&self.grains, row.grain)
    }

    /// The start at a place.
    pub(crate) fn start(&self, index: usize) -> Token
        requires { index < length self.now }
        ensures { result ≡ (get_or self.now index no_entry).1.start }
    {
        let (_, row) = entry_at(&self.rows, index);
        row.start
    }

    /// The numbers of a stream's subscriptions, in the order of their names.
    pub(crate) fn numbers_of(&self, stream: &StreamId) -> &[u32]
        ensures { AreNumbersOf self.now stream.now result.now }
    {
        row(&self.by_stream, stream)
    }

    /// Adds a subscription under a new name, behind the others.
    ///
    /// # Errors
    /// The call failed to allocate, and nothing has changed.
    #[inline(never)]
    pub(crate) fn push(
        &mut self,
        alloc: Global,
        sub: &SubName,
        registration: &Registration,
    ) -> Result<(), AllocError>
        requires few { length self.old ≤ MOST_SUBS }
        requires new { value_at same_sub sub.now self.old ≡ None }
        requires own { IsNameOf registration.now sub.now }
        ensures ok { OnOk result (self.new ≡ self.old ++ (sub.now, registration.now) ∷ []) }
        ensures err { OnErr result (self.new ≡ self.old) }
    {
        let numbers = row(&self.by_stream, &registration.stream);
        let at = place_of(&SubNames::new(self, numbers), sub);
        let row = row_for(&mut self.by_stream, &mut self.grains, alloc, registration)?;
        let key = key_of(sub, row.grain, row.stream);
        put_row(&mut self.by_stream, &mut self.rows, key, row, at)
    }

    /// Closes the subscription of a name, where there is one.
    pub(crate) fn close(&mut self, sub: &SubName)
        ensures { self.new ≡ changed_value same_sub sub.now closed_registration self.old }
    {
        let Some(place) = self.find(sub) else {
            return;
        };
        let row = self.rows.get_index_mut(place).unwrap();
        row.is_open = false;
    }

    /// Takes back those behind the first `len`.
    pub(crate) fn truncate(&mut self, len: usize)
        ensures { self.new ≡ take len self.old }
    {
        while self.len() > len {
            self.pop();
        }
    }

    /// Takes back the last.
    fn pop(&mut self)
        requires { 0 < length self.old }
        ensures { self.new ≡ take (length self.old - 1) self.old }
    {
        let last = self.len() - 1;
        let (_, row) = entry_at(&self.rows, last);
        take_out(&mut self.by_stream, row.stream, last);
        self.rows.truncate(last);
    }
}

/// Adds a row under a new key behind the others, and its number to those of its stream, at this place.
///
/// # Errors
/// The call failed to allocate, and nothing has changed.
fn put_row(
    by_stream: &mut IndexMap<StreamId, Vec<u32>>,
    rows: &mut IndexMap<Key, Row>,
    key: Key,
    row: Row,
    at: usize,
) -> Result<(), AllocError>
    requires few { length rows.old.entries ≤ MOST_SUBS }
    requires new { lookup (same_key key) rows.old.entries ≡ None }
    requires there { row.stream < length (keys_of by_stream.old.entries) }
    requires at { (stream : StreamId) → slice_get (keys_of by_stream.old.entries) row.stream ≡ Some stream → at ≤ length (row_of same_stream by_stream.old stream) }
    ensures ok { OnOk result ((rows.new.entries ≡ rows.old.entries ++ (key, row) ∷ []) × ChangesRow same_stream row.stream (λ numbers. insert numbers at (length rows.old.entries)) by_stream.old by_stream.new) }
    ensures err { OnErr result ((rows.new.entries ≡ rows.old.entries) × KeepsRows same_stream by_stream.old by_stream.new) }
{
    let number = rows.len();
    rows.insert(key, row)?;
    let numbers = by_stream.get_index_mut(row.stream as usize).unwrap();
    if let Err(error) = numbers.insert(at, number as u32) {
        rows.truncate(number);
        return Err(error.into());
    }
    Ok(())
}

/// Takes a number out of the row of the stream with a number.
fn take_out(by_stream: &mut IndexMap<StreamId, Vec<u32>>, stream: u32, number: usize)
    requires { stream < length (keys_of by_stream.old.entries) }
    ensures { ChangesRow same_stream stream (λ row. filter (λ n. not (nat_eq n number)) row) by_stream.old by_stream.new }
{
    let row = by_stream.get_index_mut(stream as usize).unwrap();
    row.retain(|n| *n as usize != number);
}

/// The place of a new name among names that go from the least to the greatest. The walk goes from the end,
/// over the greater names alone: over none at a name that is greater than all.
fn place_of(names: &SubNames, sub: &SubName) -> usize
    requires ascending { IsAscending names.now }
    requires new { Contains names.now sub.now → ⊥ }
    ensures { IsPlaceOf names.now sub.now result }
{
    let mut at = names.len();
    while at > 0 && sub.is_before(&names.at(at - 1)) {
        at -= 1;
    }
    at
}

/// The rules in the order in which they were added, with those on each namespace.
///
/// A contract sees it as the rules, in that order.
#[derive(Debug, Drop)]
pub(crate) struct Rules {
    rules: Vec<Rule>,
    by_namespace: IndexMap<Name, Vec<Rule>>,
}

impl Model for Rules {
    ghost use Rattle.std.specs.Prelude.{◌≡◌, ℕ, List, filter};
    ghost use Rattle.stream_ident.specs.Name.{same_name};
    ghost use Rattle.stream_ident.specs.declared.rule.Rule.{Rule};
    ghost use Rattle.pubsub_registry.specs.Rows.{row_of};

    ghost Value = { List Rule };

    ghost view = { λ r. r.rules.items };

    ghost invariant = { λ r. (namespace : List ℕ) → row_of same_name r.by_namespace namespace ≡ filter (λ (rule : Rule). same_name namespace rule.namespace) r.rules.items };
}

impl Rules {
    /// No rules. It takes no memory.
    pub(crate) fn new(alloc: Global) -> Rules
        ensures { result ≡ [] }
    {
        Rules {
            rules: Vec::new(alloc),
            by_namespace: IndexMap::new(alloc),
        }
    }

    /// The rules, in the order in which they were added.
    pub(crate) fn as_slice(&self) -> &[Rule]
        ensures { result.now ≡ self.now }
    {
        self.rules.as_slice()
    }

    /// Whether there is a rule for a kind on a namespace.
    pub(crate) fn contains(&self, kind: &Name, namespace: &Name) -> bool
        ensures { result ≡ list_any (λ (rule : Rule). same_name kind.now rule.kind && same_name namespace.now rule.namespace) self.now }
    {
        self.rules
            .iter()
            .any(|rule| *kind == rule.kind && *namespace == rule.namespace)
    }

    /// The rules on a namespace, in the order in which they were added.
    pub(crate) fn on_namespace(&self, namespace: &Name) -> &[Rule]
        ensures { result.now ≡ filter (λ (rule : Rule). same_name namespace.now rule.namespace) self.now }
    {
        row(&self.by_namespace, namespace)
    }

    /// Adds a rule behind the others.
    ///
    /// # Errors
    /// The call failed to allocate, and nothing has changed.
    #[inline(never)]
    pub(crate) fn push(&mut self, alloc: Global, rule: &Rule) -> Result<(), AllocError>
        ensures ok { OnOk result (self.new ≡ self.old ++ rule.now ∷ []) }
        ensures err { OnErr result (self.new ≡ self.old) }
    {
        self.rules.reserve(1)?;
        push_to(&mut self.by_namespace, alloc, rule.namespace, *rule)?;
        self.rules.push_reserved(*rule);
        Ok(())
    }
}

/// The values at a key, in order.
fn row<'a, K: Eq + Hash, V>(rows: &'a IndexMap<K, Vec<V>>, key: &K) -> &'a [V]
    ensures { result.now ≡ row_of K.eq rows.now key.now }
{
    match rows.get(key) {
        Some(row) => row.as_slice(),
        None => &[],
    }
}

/// Adds a value to the row of a key, behind the others.
///
/// # Errors
/// The call failed to allocate, and each row is as it was.
#[inline(never)]
fn push_to<K: Eq + Hash + Drop, V: Drop>(
    rows: &mut IndexMap<K, Vec<V>>,
    alloc: Global,
    key: K,
    value: V,
) -> Result<(), AllocError>
    ensures ok { OnOk result ((other : K) → row_of K.eq rows.new other ≡ (if K.eq key other then row_of K.eq rows.old key ++ value ∷ [] else row_of K.eq rows.old other)) }
    ensures err { OnErr result ((other : K) → row_of K.eq rows.new other ≡ row_of K.eq rows.old other) }
{
    if let Some(row) = rows.get_mut(&key) {
        row.push(value)?;
        return Ok(());
    }
    // Most keys have one value, so the row begins with room for one.
    let mut row = Vec::with_capacity(alloc, 1)?;
    row.push_reserved(value);
    rows.insert(key, row)?;
    Ok(())
}
