//! What the operations are made of.
use crate::fault::Fault;
use stream_ident::{BadName, BadPayload, GrainId, Name, Payload, StreamId};

/// Few names, so that the operations meet often.
#[derive(Drop)]
pub struct Names {
    /// The kinds of the grains.
    pub kinds: [Name; 2],
    /// The namespaces of the streams.
    pub namespaces: [Name; 2],
    /// Each key in each namespace.
    pub streams: [StreamId; 4],
    /// Each key of each kind. The keys are those of the streams, so that rules make subscriptions of the
    /// same grains.
    pub grains: [GrainId; 4],
    /// What events carry.
    pub payloads: [Payload; 3],
}

impl Names {
    /// The names.
    ///
    /// # Errors
    /// There is none, since all of them are names.
    pub fn new() -> Result<Names, Fault> {
        let streams = streams()?;
        let grains = grains()?;
        Ok(Names {
            kinds: [grains[0].kind, grains[2].kind],
            namespaces: [streams[0].namespace, streams[2].namespace],
            streams,
            grains,
            payloads: payloads()?,
        })
    }
}

fn streams() -> Result<[StreamId; 4], BadName> {
    Ok([
        StreamId::new(b"orders", b"a")?,
        StreamId::new(b"orders", b"b")?,
        StreamId::new(b"parts", b"a")?,
        StreamId::new(b"parts", b"b")?,
    ])
}

fn grains() -> Result<[GrainId; 4], BadName> {
    Ok([
        GrainId::new(b"clerk", b"a")?,
        GrainId::new(b"clerk", b"b")?,
        GrainId::new(b"robot", b"a")?,
        GrainId::new(b"robot", b"b")?,
    ])
}

fn payloads() -> Result<[Payload; 3], BadPayload> {
    Ok([
        Payload::new(b"")?,
        Payload::new(b"x")?,
        Payload::new(b"y z")?,
    ])
}
