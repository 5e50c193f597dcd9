//! Sequence tokens.
ghost use Rattle.std.specs.Prelude.{◌≡◌, ◌≢◌, ℕ, ◌^◌, ◌<◌, Some, IfOk, OnErr};
ghost use Rattle.stream_ident.specs.declared.token.Token.{Token};
ghost use Rattle.stream_ident.specs.Number.{number_of};
ghost use Rattle.stream_ident.specs.Token.{token_text, IsToken, narrowed, token_lt, token_of, token_or};

use crate::text::{parse_number, split_once};
use std::fmt;
use thiserror::Error;

/// The place of an event in its partition: the number of its batch, and its index in that batch.
///
/// Tokens are ordered by the number and then by the index (Orleans: *Streaming, implementation
/// details*, event sequence token).
#[derive(Clone, Copy, Debug, PartialEq, Eq, PartialOrd, Ord, Hash)]
pub struct Token {
    /// The number of the batch, counted from 0 over the batches that the partition accepted.
    pub seq: u64,
    /// The place of the event in its batch, counted from 0.
    pub idx: u32,
}

/// Bytes that are no token.
#[derive(Clone, Copy, Debug, PartialEq, Eq, Error)]
#[error("bad token: a token is two decimal numbers without leading zeros, joined by a full stop, as 12.0")]
pub struct BadToken;

impl Token {
    /// The token of a text: two decimal numbers without leading zeros, joined by one full stop, the first
    /// below 2^64 and the second below 2^32. Each token has one such text, and anything else is a
    /// `BadToken`.
    pub fn parse(bytes: &[u8]) -> Result<Token, BadToken>
        ensures exact { result ≡ token_of bytes.now }
        ensures found { IfOk result (λ token. bytes.now ≡ token_text token) }
        ensures refused { OnErr result ((token : Token) → IsToken token → bytes.now ≢ token_text token) }
    {
        let (seq, idx) = split_once(bytes, b'.').ok_or(BadToken)?;
        Token::from_texts(seq, idx)
    }

    /// Whether this token comes before another: by the number of the batch, then by the index in it.
    pub fn is_before(&self, other: &Token) -> bool
        ensures { result ≡ token_lt self.now other.now }
    {
        self < other
    }

    /// The token of the texts of its numbers.
    fn from_texts(seq: &[u8], idx: &[u8]) -> Result<Token, BadToken>
        ensures { result ≡ token_or (number_of seq.now) (narrowed (number_of idx.now)) }
    {
        let seq = parse_number(seq).ok_or(BadToken)?;
        let idx = parse_number(idx).ok_or(BadToken)?;
        let idx = u32::try_from(idx).map_err(|_| BadToken)?;
        Ok(Token { seq, idx })
    }
}

/// A token prints as `seq.idx`, the text that `parse` reads.
impl fmt::Display for Token {
    ghost output = { λ token. Some (token_text token) };

    fn fmt<W: fmt::Write>(&self, f: &mut fmt::Formatter<W>) -> fmt::Result {
        let seq = self.seq;
        let idx = self.idx;
        write!(f, "{seq}.{idx}")
    }
}
