//! Values that payloads carry.
ghost use Rattle.std.specs.Prelude.{◌≡◌, ◌≢◌, ◌<◌, ◌^◌, ℕ, List, Ok, MatchResult, decimal};
ghost use Rattle.std.specs.Fmt.{signed_decimal};
ghost use lib.Signed.{mag};
ghost use Rattle.stream_ident.specs.Name.{payload_of};

use itoa::Buffer;
use stream_ident::{BadPayload, Payload};
use thiserror::Error;

/// A value that a payload can carry.
pub trait Encode {
    /// The bytes of a payload that carries the value.
    ghost bytes: { Self → List ℕ };

    /// The payload that carries the value.
    ///
    /// # Errors
    /// The value takes more than 256 bytes, or one of them isn't printable.
    fn encode(&self) -> Result<Payload, BadPayload>
        ensures { result ≡ payload_of (bytes self.now) };
}

/// A value that can be read from a payload: what is read is what [`Encode::encode`] writes, and nothing else.
pub trait Decode: Encode {
    /// Holds of the values that are read back.
    ghost is_value: { Self → Type 0 };

    /// The value that the payload carries, which encodes to this very payload.
    ///
    /// # Errors
    /// The payload carries no such value: none that is read back encodes to it.
    fn decode(payload: &Payload) -> Result<Self, NoValue>
        ensures found { (value : Self) → is_value value → Self.bytes value ≡ payload.now → result ≡ Ok value }
        ensures exact { MatchResult result (λ value. Self.bytes value ≡ payload.now) (λ _. (value : Self) → is_value value → Self.bytes value ≢ payload.now) };
}

/// A payload that carries no value of the type that was asked for.
#[derive(Clone, Copy, Debug, PartialEq, Eq, Error)]
#[error("the payload carries no such value")]
pub struct NoValue;

impl Encode for u64 {
    ghost bytes = { decimal };

    fn encode(&self) -> Result<Payload, BadPayload> {
        Payload::new(Buffer::new().format(*self).as_bytes())
    }
}

impl Decode for u64 {
    ghost is_value = { λ n. n < 2 ^ 64 };

    fn decode(payload: &Payload) -> Result<u64, NoValue> {
        let text = payload.as_str();
        match text.parse::<u64>() {
            // a plus and leading zeros are read as well, and encode does not write them
            Ok(value) if Buffer::new().format(value) == text => Ok(value),
            _ => Err(NoValue),
        }
    }
}

impl Encode for &str {
    ghost bytes = { λ text. text.now };

    fn encode(&self) -> Result<Payload, BadPayload> {
        Payload::new(self.as_bytes())
    }
}

impl Encode for i64 {
    ghost bytes = { signed_decimal };

    fn encode(&self) -> Result<Payload, BadPayload> {
        Payload::new(Buffer::new().format(*self).as_bytes())
    }
}

impl Decode for i64 {
    ghost is_value = { λ z. mag z < 2 ^ 63 };

    fn decode(payload: &Payload) -> Result<i64, NoValue> {
        let text = payload.as_str();
        match text.parse::<i64>() {
            // a plus and leading zeros are read as well, and encode does not write them
            Ok(value) if Buffer::new().format(value) == text => Ok(value),
            _ => Err(NoValue),
        }
    }
}

impl Encode for &[u8] {
    ghost bytes = { λ bytes. bytes.now };

    fn encode(&self) -> Result<Payload, BadPayload> {
        Payload::new(self)
    }
}
