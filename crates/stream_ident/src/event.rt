//! Events.
use crate::ident::StreamId;
use crate::payload::Payload;
use crate::token::Token;

/// One published event.
#[derive(Clone, Copy, Debug, PartialEq, Eq, PartialOrd, Ord, Hash)]
pub struct Event {
    /// The stream that it was published to.
    pub stream: StreamId,
    /// Its place in the partition.
    pub token: Token,
    /// What it carries.
    pub payload: Payload,
}
