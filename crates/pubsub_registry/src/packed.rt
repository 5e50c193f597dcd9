//! Subscriptions as they are kept: each stream and each grain once, and rows of their numbers.
ghost use Rattle.std.specs.Prelude.{◌≡◌, ◌<◌, ◌≤◌, ◌^◌, List, true, Some, IfOk, IfNone, IfSome, get_or, is_some, length, position, slice_get};
ghost use Rattle.std.specs.List.{AllByRecursion, IsDistinct};
ghost use Rattle.std.specs.Map.{keys_of};
ghost use Rattle.indexmap.specs.IndexMap.{get};
ghost use Rattle.stream_ident.specs.Name.{same_stream};
ghost use Rattle.stream_ident.specs.declared.ident.StreamId.{StreamId};
ghost use Rattle.pubsub_registry.specs.declared.packed.Key.{Key};
ghost use Rattle.pubsub_registry.specs.declared.packed.Row.{Row};
ghost use Rattle.pubsub_registry.specs.Packed.{entries_by, entry_by, ids_in, key_of, name_by, registration_by, Ids, IsEntryWithin, IsGrown, IsKeyWithin, IsPacked, IsRowWithin};
ghost use Rattle.pubsub_registry.specs.Rows.{row_of};

use crate::registration::{Registration, implied_grain};
use indexmap::IndexMap;
use std::alloc::{AllocError, Global};
use std::hash::Hash;
use stream_ident::{GrainId, StreamId, SubName, Token};

/// The name of a subscription, by numbers.
#[derive(Clone, Copy, Debug, PartialEq, Eq, Hash)]
pub(crate) enum Key {
    /// A subscription that a grain made, by its number.
    Explicit(u32),
    /// The subscription that a rule makes of a stream, for the grain of its kind with the stream's key.
    Implicit {
        /// The number of the grain.
        grain: u32,
        /// The number of the stream.
        stream: u32,
    },
}

/// A registration, by the numbers of its stream and its grain.
#[derive(Clone, Copy, Debug)]
pub(crate) struct Row {
    pub(crate) stream: u32,
    pub(crate) grain: u32,
    pub(crate) start: Token,
    pub(crate) is_open: bool,
}

/// The key with a number.
pub(crate) fn key_at<K: Eq + Hash, V>(map: &IndexMap<K, V>, number: u32) -> &K
    requires { number < length (keys_of map.now.entries) }
    ensures { (d : K) → get_or (keys_of map.now.entries) number d ≡ result.now }
{
    let (key, _) = map.get_index(number as usize).unwrap();
    key
}

/// The key and the row at a place.
pub(crate) fn entry_at(rows: &IndexMap<Key, Row>, index: usize) -> (&Key, &Row)
    requires { index < length rows.now.entries }
    ensures entry { (ids : Ids) → slice_get (entries_by ids rows.now.entries) index ≡ Some (entry_by ids (result.0.now, result.1.now)) }
    ensures within { (ids : Ids) → AllByRecursion (IsEntryWithin ids) rows.now.entries → IsEntryWithin ids (result.0.now, result.1.now) }
{
    rows.get_index(index).unwrap()
}

/// The row of a registration, whose stream and grain are added where they aren't there.
///
/// # Errors
/// The call failed to allocate, or there are as many streams or grains as numbers. What was kept stays the same.
pub(crate) fn row_for(
    by_stream: &mut IndexMap<StreamId, Vec<u32>>,
    grains: &mut IndexMap<GrainId, ()>,
    alloc: Global,
    registration: &Registration,
) -> Result<Row, AllocError>
    requires streams { length by_stream.old.entries ≤ 2 ^ 32 }
    requires grains { length grains.old.entries ≤ 2 ^ 32 }
    ensures stream { IfOk result (λ row. slice_get (keys_of by_stream.new.entries) row.stream ≡ Some registration.now.stream) }
    ensures grain { IfOk result (λ row. slice_get (keys_of grains.new.entries) row.grain ≡ Some registration.now.grain) }
    ensures own { IfOk result (λ row. IsRowWithin (ids_in by_stream.new grains.new) row × (registration_by (ids_in by_stream.new grains.new) row ≡ registration.now)) }
    ensures rows { (stream : StreamId) → row_of same_stream by_stream.new stream ≡ row_of same_stream by_stream.old stream }
    ensures packed { (rows : List (Key × Row)) → IsPacked by_stream.old grains.old rows → IsPacked by_stream.new grains.new rows × (entries_by (ids_in by_stream.new grains.new) rows ≡ entries_by (ids_in by_stream.old grains.old) rows) }
{
    let stream = number_of(by_stream, registration.stream, Vec::new(alloc))?;
    let grain = number_of(grains, registration.grain, ())?;
    Ok(Row {
        stream,
        grain,
        start: registration.start,
        is_open: registration.is_open,
    })
}

/// The number of a key, where it is there.
fn find_number<K: Eq + Hash, V>(map: &IndexMap<K, V>, key: &K) -> Option<u32>
    requires { length map.now.entries ≤ 2 ^ 32 }
    ensures number { result ≡ position (K.eq key.now) (keys_of map.now.entries) }
    ensures found { is_some result ≡ is_some (get K.eq map.now key.now) }
    ensures unique { IsDistinct K.eq (keys_of map.now.entries) }
{
    let index = map.get_index_of(key)?;
    Some(index as u32)
}

/// The number of a key, which is added with a value behind the others where it isn't there.
///
/// # Errors
/// The call failed to allocate, or there are as many keys as numbers.
#[inline(never)]
fn number_of<K: Eq + Hash + Drop, V: Drop>(
    map: &mut IndexMap<K, V>,
    key: K,
    value: V,
) -> Result<u32, AllocError>
    requires equal { (a b : K) → K.eq a b ≡ true → a ≡ b }
    requires few { length map.old.entries ≤ 2 ^ 32 }
    ensures number { IfOk result (λ number. slice_get (keys_of map.new.entries) number ≡ Some key) }
    ensures grown { IsGrown value map.old.entries map.new.entries }
    ensures unique { IsDistinct K.eq (keys_of map.new.entries) }
    ensures few { length map.new.entries ≤ 2 ^ 32 }
{
    if let Some(number) = find_number(map, &key) {
        return Ok(number);
    }
    let number = map.len();
    if number > u32::MAX as usize {
        return Err(AllocError);
    }
    map.insert(key, value)?;
    Ok(number as u32)
}

/// The name of a key.
pub(crate) fn name_by(
    streams: &IndexMap<StreamId, Vec<u32>>,
    grains: &IndexMap<GrainId, ()>,
    key: &Key,
) -> SubName
    requires { IsKeyWithin (ids_in streams.now grains.now) key.now }
    ensures { result ≡ name_by (ids_in streams.now grains.now) key.now }
{
    match key {
        Key::Explicit(number) => SubName::Explicit(*number),
        Key::Implicit { grain, stream } => SubName::Implicit {
            kind: key_at(grains, *grain).kind,
            stream: *key_at(streams, *stream),
        },
    }
}

/// The key of a name whose stream and grain are there.
pub(crate) fn known_key(
    streams: &IndexMap<StreamId, Vec<u32>>,
    grains: &IndexMap<GrainId, ()>,
    sub: &SubName,
) -> Option<Key>
    requires streams { length streams.now.entries ≤ 2 ^ 32 }
    requires grains { length grains.now.entries ≤ 2 ^ 32 }
    ensures some { IfSome result (λ key. IsKeyWithin (ids_in streams.now grains.now) key × (name_by (ids_in streams.now grains.now) key ≡ sub.now)) }
    ensures none { IfNone result ((key : Key) → IsKeyWithin (ids_in streams.now grains.now) key → name_by (ids_in streams.now grains.now) key ≡ sub.now → ⊥) }
{
    match sub {
        SubName::Explicit(number) => Some(Key::Explicit(*number)),
        SubName::Implicit { kind, stream } => {
            let number = find_number(streams, stream)?;
            let grain = find_number(grains, &implied_grain(*kind, stream))?;
            Some(Key::Implicit {
                grain,
                stream: number,
            })
        }
    }
}

/// The key of a name whose grain and stream have these numbers.
pub(crate) fn key_of(sub: &SubName, grain: u32, stream: u32) -> Key
    ensures { result ≡ key_of sub.now grain stream }
{
    match sub {
        SubName::Explicit(number) => Key::Explicit(*number),
        SubName::Implicit { .. } => Key::Implicit { grain, stream },
    }
}
