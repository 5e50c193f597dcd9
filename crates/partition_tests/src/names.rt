//! Names of one byte each.
use std::process::Abort;
use stream_ident::{GrainId, Name, Payload, StreamId};

pub(crate) fn name<R: Abort>(rt: &R, byte: u8) -> Name {
    Name::new(&[byte]).expect(rt, "a name")
}

/// The stream of this namespace and key.
pub(crate) fn stream<R: Abort>(rt: &R, namespace: u8, key: u8) -> StreamId {
    StreamId {
        namespace: name(rt, namespace),
        key: name(rt, key),
    }
}

/// The grain of this kind and key.
pub(crate) fn grain<R: Abort>(rt: &R, kind: u8, key: u8) -> GrainId {
    GrainId {
        kind: name(rt, kind),
        key: name(rt, key),
    }
}

/// A payload of one byte.
pub(crate) fn payload<R: Abort>(rt: &R, byte: u8) -> Payload {
    Payload::new(&[byte]).expect(rt, "a payload")
}
