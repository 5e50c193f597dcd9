//! Names, and the streams, grains and subscriptions that they name.
ghost use Rattle.std.specs.Prelude.{◌≡◌, ◌<◌, ◌≤◌, not, length, Some, nat_eq, position, IfSome, refl};
ghost use Rattle.std.specs.Ordering.{nat_cmp};
ghost use Rattle.std.specs.Hash as fed;
ghost use Rattle.std.specs.Cmp.Lexicographic.{pointwise, slice_cmp, nat_list_eq_equiv, nat_list_cmp_total, texts_ties, texts_po};
ghost use Rattle.std.specs.Cmp.{partial_equiv_from_equiv};
ghost use Rattle.std.specs.Cmp.Rules.{hashing};
ghost use Rattle.std.proofs.Common.{rules};
ghost use Rattle.stream_ident.specs.Name.{field_of, stream_text, grain_text};
ghost use Rattle.stream_ident.specs.Alphabet.{is_name_byte, IsName, wrong_in_name};

use crate::limits::NAME_BYTES;
use crate::text::{ascii_text, padded};
use std::cmp::Ordering;
use std::fmt;
use std::hash::{Hash, Hasher};
use std::marker::Model;
use thiserror::Error;

/// A namespace, a kind or a key: 1 to 64 bytes of `A-Z a-z 0-9 _ . -`.
///
/// A contract sees it as the list of its bytes. Names are equal, ordered and hashed by their bytes.
#[derive(Clone, Copy)]
pub struct Name {
    len: u8,
    bytes: [u8; NAME_BYTES],
}

impl Model for Name {
    ghost use Rattle.std.specs.Prelude.{ℕ, List, ◌-◌, ◌++◌, length, replicate, take};

    ghost Value = { List ℕ };

    ghost use Rattle.stream_ident.specs.Alphabet.{IsName};
    ghost use Rattle.stream_ident.specs.Text.{IsPadded, length-padded, refilled};
    ghost use Rattle.stream_ident.specs.declared.limits.TheConstants.{NAME_BYTES};

    ghost view = { λ n. take n.len n.bytes };

    ghost invariant = { λ n. IsPadded NAME_BYTES n.len n.bytes × IsName (take n.len n.bytes) };

    ghost inverse = { λ bytes. record { len = length bytes; bytes = bytes ++ replicate (NAME_BYTES - length bytes) 0 } };

    ghost inverse_ok = { λ a h i. record { len = length-padded NAME_BYTES a.len a.bytes h.0 i; bytes = refilled NAME_BYTES a.len a.bytes h.0 i } };
}

/// Bytes that are no name, and the least place at which they are wrong: that of the first byte outside
/// the alphabet, 64 where they are more than 64, and 0 where there are none.
#[derive(Clone, Copy, Debug, PartialEq, Eq, Error)]
#[error("no name: wrong at byte {at}, a name has 1 to {} bytes of A-Z a-z 0-9 _ . -", NAME_BYTES)]
pub struct WrongByte {
    /// The place, counted from 0.
    pub at: usize,
}

impl Name {
    ghost use Rattle.stream_ident.specs.Name.{name_of, name_lt};

    /// The name of these bytes.
    ///
    /// # Errors
    /// They aren't 1 to 64 bytes of `A-Z a-z 0-9 _ . -`. [`WrongByte`] has the least wrong place.
    pub fn new(bytes: &[u8]) -> Result<Name, WrongByte>
        ensures { result ≡ name_of bytes.now }
    {
        if let Some(at) = wrong_in_name(bytes) {
            return Err(WrongByte { at });
        }
        Ok(Name {
            len: bytes.len() as u8,
            bytes: padded(bytes),
        })
    }

    /// The bytes of the name.
    pub fn as_bytes(&self) -> &[u8]
        ensures bytes { result.now ≡ self.now }
        ensures name { IsName self.now }
    {
        &self.bytes[..self.len as usize]
    }

    /// The name as text.
    pub fn as_str(&self) -> &str
        ensures { result.now ≡ self.now }
    {
        ascii_text(self.as_bytes())
    }

    /// Whether this name comes before another, by their bytes: a name comes before those that it begins.
    pub fn is_before(&self, other: &Name) -> bool
        ensures { result ≡ name_lt self.now other.now }
    {
        self < other
    }
}

/// Whether a byte may stand in a name.
fn is_name_byte(byte: u8) -> bool
    ensures { result ≡ is_name_byte byte }
{
    matches!(byte, b'A'..=b'Z' | b'a'..=b'z' | b'0'..=b'9' | b'_' | b'.' | b'-')
}

/// The place of the first byte that may not stand in a name.
fn outside_alphabet(bytes: &[u8]) -> Option<usize>
    ensures exact { result ≡ position (λ byte. not (is_name_byte byte)) bytes.now }
    ensures within { IfSome result (λ at. at < length bytes.now) }
{
    bytes.iter().position(|byte| !is_name_byte(*byte))
}

/// The least place at which bytes are no name.
fn wrong_in_name(bytes: &[u8]) -> Option<usize>
    ensures { result ≡ wrong_in_name bytes.now }
{
    if bytes.is_empty() {
        return Some(0);
    }
    if bytes.len() <= NAME_BYTES {
        return outside_alphabet(bytes);
    }
    outside_alphabet(&bytes[..NAME_BYTES]).or(Some(NAME_BYTES))
}

impl PartialEq for Name {
    ghost eq = { pointwise nat_eq };

    ghost laws = { partial_equiv_from_equiv nat_list_eq_equiv };

    fn eq(&self, other: &Name) -> bool {
        self.as_bytes() == other.as_bytes()
    }
}

impl Eq for Name {
    ghost laws = { nat_list_eq_equiv };
}

impl PartialOrd for Name {
    ghost partial_cmp = { λ x y. Some (slice_cmp nat_cmp x y) };

    ghost laws = { texts_po };

    fn partial_cmp(&self, other: &Name) -> Option<Ordering> {
        Some(self.cmp(other))
    }
}

impl Ord for Name {
    ghost cmp = { slice_cmp nat_cmp };

    ghost total = { nat_list_cmp_total };

    ghost matches_partial_cmp = { λ x y. refl };

    ghost matches_eq = { texts_ties };

    fn cmp(&self, other: &Name) -> Ordering {
        self.as_bytes().cmp(other.as_bytes())
    }
}

impl Hash for Name {
    ghost hash_input = { fed.slice fed.u8 };

    ghost respects_eq = { Prim.search (hashing, rules) };

    fn hash<H: Hasher>(&self, state: &mut H) {
        self.as_bytes().hash(state);
    }
}

impl fmt::Debug for Name {
    fn fmt<W: fmt::Write>(&self, f: &mut fmt::Formatter<W>) -> fmt::Result {
        f.write_str(self.as_str())
    }
}

/// A name prints as it is.
impl fmt::Display for Name {
    ghost output = { λ name. Some name };

    fn fmt<W: fmt::Write>(&self, f: &mut fmt::Formatter<W>) -> fmt::Result {
        f.write_str(self.as_str())
    }
}

/// A stream: a key in a namespace. It always exists, and is neither created nor destroyed (Orleans:
/// *Streaming, quickstart*).
///
/// Streams are ordered by the bytes of the namespace and then by those of the key.
#[derive(Clone, Copy, Debug, PartialEq, Eq, PartialOrd, Ord, Hash)]
pub struct StreamId {
    /// The namespace.
    pub namespace: Name,
    /// The key in it.
    pub key: Name,
}

/// A grain, a virtual actor: a key of a kind.
///
/// Grains are ordered by the bytes of the kind and then by those of the key.
#[derive(Clone, Copy, Debug, PartialEq, Eq, PartialOrd, Ord, Hash)]
pub struct GrainId {
    /// The kind.
    pub kind: Name,
    /// The key of the grain among those of its kind.
    pub key: Name,
}

/// Two texts that make no id, and the least place that is wrong, in the first text if it is in both.
#[derive(Clone, Copy, Debug, PartialEq, Eq, Error)]
#[error("bad name: the {} is wrong at byte {at}, a name has 1 to {} bytes of A-Z a-z 0-9 _ . -", field_text(*.field), NAME_BYTES)]
pub struct BadName {
    /// 0 for the namespace or kind, 1 for the key.
    pub field: u8,
    /// The place in that text, counted from 0: that of the first byte outside the alphabet, 64 where the
    /// text is longer than 64 bytes, and 0 where it is empty.
    pub at: usize,
}

impl StreamId {
    ghost use Rattle.stream_ident.specs.Name.{stream_of, stream_lt};

    /// The stream of a namespace and a key.
    ///
    /// # Errors
    /// One of the two is no name. [`BadName`] has the first such field, and the least wrong place in it.
    pub fn new(namespace: &[u8], key: &[u8]) -> Result<StreamId, BadName>
        ensures { result ≡ stream_of namespace.now key.now }
    {
        Ok(StreamId {
            namespace: field(0, namespace)?,
            key: field(1, key)?,
        })
    }

    /// Whether this stream comes before another: by the namespace, then by the key.
    pub fn is_before(&self, other: &StreamId) -> bool
        ensures { result ≡ stream_lt self.now other.now }
    {
        *self < *other
    }
}

impl GrainId {
    ghost use Rattle.stream_ident.specs.Name.{grain_of, grain_lt};

    /// The grain of a kind and a key.
    ///
    /// # Errors
    /// One of the two is no name. [`BadName`] has the first such field, and the least wrong place in it.
    pub fn new(kind: &[u8], key: &[u8]) -> Result<GrainId, BadName>
        ensures { result ≡ grain_of kind.now key.now }
    {
        Ok(GrainId {
            kind: field(0, kind)?,
            key: field(1, key)?,
        })
    }

    /// Whether this grain comes before another: by the kind, then by the key.
    pub fn is_before(&self, other: &GrainId) -> bool
        ensures { result ≡ grain_lt self.now other.now }
    {
        self < other
    }
}

/// A stream prints as `namespace/key`, as scripts write it.
impl fmt::Display for StreamId {
    ghost output = { λ stream. Some (stream_text stream) };

    fn fmt<W: fmt::Write>(&self, f: &mut fmt::Formatter<W>) -> fmt::Result {
        let namespace = self.namespace;
        let key = self.key;
        write!(f, "{namespace}/{key}")
    }
}

/// A grain prints as `kind/key`, as scripts write it.
impl fmt::Display for GrainId {
    ghost output = { λ grain. Some (grain_text grain) };

    fn fmt<W: fmt::Write>(&self, f: &mut fmt::Formatter<W>) -> fmt::Result {
        let kind = self.kind;
        let key = self.key;
        write!(f, "{kind}/{key}")
    }
}

/// What a field of an id is called.
fn field_text(field: u8) -> &'static str {
    if field == 0 {
        "namespace or kind"
    } else {
        "key"
    }
}

/// The name in a field of an id.
fn field(field: u8, bytes: &[u8]) -> Result<Name, BadName>
    ensures { result ≡ field_of field bytes.now }
{
    match Name::new(bytes) {
        Ok(name) => Ok(name),
        Err(WrongByte { at }) => Err(BadName { field, at }),
    }
}

/// The name of a subscription.
///
/// Names are ordered explicit ones first, by number, and then implicit ones by kind, namespace and key.
#[derive(Clone, Copy, Debug, PartialEq, Eq, PartialOrd, Ord, Hash)]
pub enum SubName {
    /// A subscription that a grain made, by its number in its partition: 1, 2, 3 and so on.
    Explicit(u32),
    /// The subscription that a rule makes of a stream: grains of this kind consume it.
    Implicit {
        /// The kind of the grain. Its key is the stream's.
        kind: Name,
        /// The stream.
        stream: StreamId,
    },
}

impl SubName {
    ghost use Rattle.stream_ident.specs.SubName.{sub_lt};

    /// Whether this name comes before another: explicit ones by number, then implicit ones by kind,
    /// namespace and key.
    pub fn is_before(&self, other: &SubName) -> bool
        ensures { result ≡ sub_lt self.now other.now }
    {
        self.lt(other)
    }
}
