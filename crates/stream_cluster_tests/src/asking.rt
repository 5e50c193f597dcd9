//! What producers ask for.
ghost use Rattle.std.specs.Prelude.{◌≡◌, true, IfOk};
ghost use Rattle.stream_model.specs.Producers.{is_producer};

use std::alloc::{AllocError, Global};
use std::process::Abort;
use stream_ident::{Batch, GrainId, Payload, StreamId};
use stream_model::{Op, Start};

/// What a producer asks. Streams are of the namespace `o`, and grains of the kind `g`.
#[derive(Clone, Copy)]
pub enum Produced<'a> {
    /// The grain of the second key subscribes to the stream of the first, from the next batch on.
    Subscribe(&'a [u8], &'a [u8]),
    /// The grain of each key shall consume the stream of the key.
    Rule,
    /// A batch for the stream of this key, with these payloads.
    Publish(&'a [u8], &'a [&'a [u8]]),
}

fn stream<R: Abort>(rt: &R, key: &[u8]) -> StreamId {
    StreamId::new(b"o", key).expect(rt, "a stream")
}

fn grain<R: Abort>(rt: &R, key: &[u8]) -> GrainId {
    GrainId::new(b"g", key).expect(rt, "a grain")
}

fn batch<R: Abort>(rt: &R, alloc: Global, texts: &[&[u8]]) -> Result<Batch, AllocError> {
    let mut payloads = Vec::new(alloc);
    for text in texts {
        payloads.push(Payload::new(text).expect(rt, "a payload"))?;
    }
    Ok(Batch::of(payloads))
}

/// The operation of a producer.
///
/// # Errors
/// The call failed to allocate.
pub fn production<R: Abort>(rt: &R, alloc: Global, asked: &Produced) -> Result<Op, AllocError>
    ensures { IfOk result (λ op. is_producer op ≡ true) }
{
    match *asked {
        Produced::Subscribe(from, to) => Ok(Op::Subscribe {
            stream: stream(rt, from),
            grain: grain(rt, to),
            start: Start::Latest,
        }),
        Produced::Rule => Ok(Op::AddRule {
            kind: grain(rt, b"k").kind,
            namespace: stream(rt, b"k").namespace,
        }),
        Produced::Publish(key, texts) => Ok(Op::Publish {
            stream: stream(rt, key),
            payloads: batch(rt, alloc, texts)?,
        }),
    }
}

/// A row of a table holds.
pub fn holds<R: Abort>(rt: &R, is_so: bool, table: usize, row: usize) {
    assert!(rt; is_so, "table {table}, row {row}");
}
