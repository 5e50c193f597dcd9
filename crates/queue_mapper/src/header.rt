//! What is read of an event where its payload isn't.
ghost use Rattle.std.specs.Prelude.{◌≡◌, []};
ghost use Rattle.queue_mapper.specs.Place.{tag_of};

use std::marker::Model;
use stream_ident::{StreamId, Token};

/// The stream of an event, with its tag, and the token. It takes some 150 bytes, where an event takes 408.
///
/// A contract sees it as the event, bare: with no byte of its payload.
#[derive(Debug, Drop)]
pub struct EventHeader {
    stream: StreamId,
    // It fills the gap that the stream leaves before the token.
    tag: u8,
    token: Token,
}

impl Model for EventHeader {
    ghost use Rattle.std.specs.Prelude.{◌≡◌, []};
    ghost use Rattle.stream_ident.specs.declared.event.Event.{Event};
    ghost use Rattle.queue_mapper.specs.Place.{tag_of};

    ghost Value = { Event };

    ghost view = { λ h. record { stream = h.stream; token = h.token; payload = [] } };

    ghost invariant = { λ h. h.tag ≡ tag_of h.stream };
}

impl EventHeader {
    /// The header of an event of a stream, which has this tag.
    pub fn new(stream: StreamId, token: Token, tag: u8) -> EventHeader
        requires { tag ≡ tag_of stream }
        ensures { result ≡ record { stream = stream; token = token; payload = [] } }
    {
        EventHeader { stream, token, tag }
    }

    /// The stream of the event.
    pub fn stream(&self) -> &StreamId
        ensures { result.now ≡ self.now.stream }
    {
        &self.stream
    }

    /// The token of the event.
    pub fn token(&self) -> &Token
        ensures { result.now ≡ self.now.token }
    {
        &self.token
    }

    /// The tag of the event's stream.
    pub fn tag(&self) -> u8
        ensures { result ≡ tag_of self.now.stream }
    {
        self.tag
    }
}

/// The header of an event that is lent where it lies: it copies no name.
///
/// A contract sees it as the event, bare: with no byte of its payload.
#[derive(Drop)]
pub struct HeaderRef<'a> {
    stream: &'a StreamId,
    token: Token,
    tag: u8,
}

impl<'a> Model for HeaderRef<'a> {
    ghost use Rattle.std.specs.Prelude.{◌≡◌, []};
    ghost use Rattle.stream_ident.specs.declared.event.Event.{Event};
    ghost use Rattle.queue_mapper.specs.Place.{tag_of};

    ghost Value = { Event };

    ghost view = { λ h. record { stream = h.stream.now; token = h.token; payload = [] } };

    ghost invariant = { λ h. h.tag ≡ tag_of h.stream.now };
}

impl<'a> HeaderRef<'a> {
    /// The header of an event of a stream, which has this tag.
    pub fn new(stream: &'a StreamId, token: Token, tag: u8) -> HeaderRef<'a>
        requires { tag ≡ tag_of stream.now }
        ensures { result ≡ record { stream = stream.now; token = token; payload = [] } }
    {
        HeaderRef { stream, token, tag }
    }

    /// The stream of the event.
    pub fn stream(&self) -> &'a StreamId
        ensures { result.now ≡ self.now.stream }
    {
        self.stream
    }

    /// The token of the event.
    pub fn token(&self) -> Token
        ensures { result ≡ self.now.token }
    {
        self.token
    }

    /// The tag of the event's stream.
    pub fn tag(&self) -> u8
        ensures { result ≡ tag_of self.now.stream }
    {
        self.tag
    }

    /// A header of its own.
    pub fn to_header(&self) -> EventHeader
        ensures { result ≡ self.now }
    {
        EventHeader::new(*self.stream, self.token, self.tag)
    }
}
