//! Payloads: what an event carries, and the batches of them that are published.
ghost use Rattle.std.specs.Prelude.{◌≡◌, ◌<◌, ◌≤◌, not, length, Some, nat_eq, position, IfSome, refl, IfOk};
ghost use Rattle.std.specs.Ordering.{nat_cmp};
ghost use Rattle.std.specs.Hash as fed;
ghost use Rattle.std.specs.Cmp.Lexicographic.{pointwise, slice_cmp, nat_list_eq_equiv, nat_list_cmp_total, texts_ties, texts_po};
ghost use Rattle.std.specs.Cmp.{partial_equiv_from_equiv};
ghost use Rattle.std.specs.Cmp.Rules.{hashing};
ghost use Rattle.std.proofs.Common.{rules};
ghost use Rattle.stream_ident.specs.Alphabet.{IsPayload, wrong_in_payload, is_printable};

use crate::limits::PAYLOAD_BYTES;
use crate::text::{ascii_text, padded};
use std::alloc::{AllocError, Global};
use std::cmp::Ordering;
use std::fmt;
use std::hash::{Hash, Hasher};
use std::marker::Model;
use thiserror::Error;

/// The content of an event: 0 to 256 bytes, each 0x20 to 0x7E.
///
/// A contract sees it as the list of its bytes. Payloads are equal, ordered and hashed by their bytes.
#[derive(Clone, Copy)]
pub struct Payload {
    len: u16,
    bytes: [u8; PAYLOAD_BYTES],
}

impl Model for Payload {
    ghost use Rattle.std.specs.Prelude.{ℕ, List, ◌-◌, ◌++◌, length, replicate, take};

    ghost Value = { List ℕ };

    ghost use Rattle.stream_ident.specs.Alphabet.{IsPayload};
    ghost use Rattle.stream_ident.specs.Text.{IsPadded, length-padded, refilled};
    ghost use Rattle.stream_ident.specs.declared.limits.TheConstants.{PAYLOAD_BYTES};

    ghost view = { λ p. take p.len p.bytes };

    ghost invariant = { λ p. IsPadded PAYLOAD_BYTES p.len p.bytes × IsPayload (take p.len p.bytes) };

    ghost inverse = { λ bytes. record { len = length bytes; bytes = bytes ++ replicate (PAYLOAD_BYTES - length bytes) 0 } };

    ghost inverse_ok = { λ a h i. record { len = length-padded PAYLOAD_BYTES a.len a.bytes h.0 i; bytes = refilled PAYLOAD_BYTES a.len a.bytes h.0 i } };
}

/// Bytes that are no payload, and the least place at which they are wrong: that of the first byte that
/// isn't printable, or 256 where they are more than 256.
#[derive(Clone, Copy, Debug, PartialEq, Eq, Error)]
#[error("no payload: wrong at byte {at}, a payload has at most {} bytes of 0x20 to 0x7E", PAYLOAD_BYTES)]
pub struct BadPayload {
    /// The place, counted from 0.
    pub at: usize,
}

impl Payload {
    ghost use Rattle.stream_ident.specs.Name.{payload_of};

    /// The payload of these bytes.
    ///
    /// # Errors
    /// They are more than 256, or one of them isn't printable (0x20 to 0x7E). [`BadPayload`] has the least wrong place.
    pub fn new(bytes: &[u8]) -> Result<Payload, BadPayload>
        ensures { result ≡ payload_of bytes.now }
    {
        if let Some(at) = wrong_in_payload(bytes) {
            return Err(BadPayload { at });
        }
        Ok(Payload {
            len: bytes.len() as u16,
            bytes: padded(bytes),
        })
    }

    /// The bytes of the payload.
    pub fn as_bytes(&self) -> &[u8]
        ensures bytes { result.now ≡ self.now }
        ensures payload { IsPayload self.now }
    {
        &self.bytes[..self.len as usize]
    }

    /// The payload as text.
    pub fn as_str(&self) -> &str
        ensures { result.now ≡ self.now }
    {
        ascii_text(self.as_bytes())
    }
}

/// Whether a byte may stand in a payload.
fn is_printable(byte: u8) -> bool
    ensures { result ≡ is_printable byte }
{
    matches!(byte, b' '..=b'~')
}

/// The place of the first byte that may not stand in a payload.
fn unprintable(bytes: &[u8]) -> Option<usize>
    ensures exact { result ≡ position (λ byte. not (is_printable byte)) bytes.now }
    ensures within { IfSome result (λ at. at < length bytes.now) }
{
    bytes.iter().position(|byte| !is_printable(*byte))
}

/// The least place at which bytes are no payload.
fn wrong_in_payload(bytes: &[u8]) -> Option<usize>
    ensures { result ≡ wrong_in_payload bytes.now }
{
    if bytes.len() <= PAYLOAD_BYTES {
        return unprintable(bytes);
    }
    unprintable(&bytes[..PAYLOAD_BYTES]).or(Some(PAYLOAD_BYTES))
}

impl PartialEq for Payload {
    ghost eq = { pointwise nat_eq };

    ghost laws = { partial_equiv_from_equiv nat_list_eq_equiv };

    fn eq(&self, other: &Payload) -> bool {
        self.as_bytes() == other.as_bytes()
    }
}

impl Eq for Payload {
    ghost laws = { nat_list_eq_equiv };
}

impl PartialOrd for Payload {
    ghost partial_cmp = { λ x y. Some (slice_cmp nat_cmp x y) };

    ghost laws = { texts_po };

    fn partial_cmp(&self, other: &Payload) -> Option<Ordering> {
        Some(self.cmp(other))
    }
}

impl Ord for Payload {
    ghost cmp = { slice_cmp nat_cmp };

    ghost total = { nat_list_cmp_total };

    ghost matches_partial_cmp = { λ x y. refl };

    ghost matches_eq = { texts_ties };

    fn cmp(&self, other: &Payload) -> Ordering {
        self.as_bytes().cmp(other.as_bytes())
    }
}

impl Hash for Payload {
    ghost hash_input = { fed.slice fed.u8 };

    ghost respects_eq = { Prim.search (hashing, rules) };

    fn hash<H: Hasher>(&self, state: &mut H) {
        self.as_bytes().hash(state);
    }
}

impl fmt::Debug for Payload {
    fn fmt<W: fmt::Write>(&self, f: &mut fmt::Formatter<W>) -> fmt::Result {
        f.write_str(self.as_str())
    }
}

/// A payload prints as it is.
impl fmt::Display for Payload {
    ghost output = { λ payload. Some payload };

    fn fmt<W: fmt::Write>(&self, f: &mut fmt::Formatter<W>) -> fmt::Result {
        f.write_str(self.as_str())
    }
}

/// The payloads of one publish, in order.
///
/// A contract sees it as the list of its payloads. How many a partition accepts at once is the
/// partition's rule: a batch may have any number of them.
#[derive(Debug, Drop)]
pub struct Batch {
    payloads: Vec<Payload>,
}

impl Model for Batch {
    ghost use Rattle.std.specs.Prelude.{ℕ, List};

    ghost Value = { List (List ℕ) };

    ghost view = { λ b. b.payloads.items };
}

impl Batch {
    /// The batch of these payloads. It takes no memory.
    pub fn of(payloads: Vec<Payload>) -> Batch
        ensures { result ≡ payloads.items }
    {
        Batch { payloads }
    }

    /// The payloads, in order.
    pub fn as_slice(&self) -> &[Payload]
        ensures { result.now ≡ self.now }
    {
        self.payloads.as_slice()
    }

    /// The payloads, in order. It takes no memory.
    pub fn into_vec(self) -> Vec<Payload>
        ensures { result.items ≡ self }
    {
        self.payloads
    }

    /// An equal batch.
    ///
    /// # Errors
    /// The call failed to allocate. This batch stays as it is.
    pub fn copy(&self, alloc: Global) -> Result<Batch, AllocError>
        ensures { IfOk result (λ copy. copy ≡ self.now) }
    {
        Ok(Batch::of(Vec::from_slice(alloc, self.as_slice())?))
    }
}
