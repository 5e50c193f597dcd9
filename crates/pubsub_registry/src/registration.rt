//! What the registry keeps of a subscription.
ghost use Rattle.std.specs.Prelude.{◌≡◌};
ghost use Rattle.pubsub_registry.specs.Registry.{registered};

use stream_ident::{GrainId, Name, StreamId, Token};

/// A subscription: the stream, the grain that consumes it, and from where.
///
/// A closed one is kept, so that its name is not forgotten.
#[derive(Clone, Copy, Debug, PartialEq, Eq)]
pub struct Registration {
    /// The stream.
    pub stream: StreamId,
    /// The grain that consumes it.
    pub grain: GrainId,
    /// The token of the first event that it consumes.
    pub start: Token,
    /// Whether it isn't closed.
    pub is_open: bool,
}

impl Registration {
    /// The open one of the grain of a kind with the stream's key.
    #[inline(never)]
    pub(crate) fn implied(kind: Name, stream: &StreamId, start: Token) -> Registration
        ensures { result ≡ registered stream.now (record { kind = kind; key = stream.now.key }) start }
    {
        Registration {
            stream: *stream,
            grain: implied_grain(kind, stream),
            start,
            is_open: true,
        }
    }
}

/// The grain of a kind with the stream's key.
pub(crate) fn implied_grain(kind: Name, stream: &StreamId) -> GrainId
    ensures { result ≡ record { kind = kind; key = stream.now.key } }
{
    GrainId {
        kind,
        key: stream.key,
    }
}
