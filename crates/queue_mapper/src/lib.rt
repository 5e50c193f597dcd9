//! The queue mapper: it gives each stream one queue of several, by a hash of its name, and a tag of one
//! byte (Orleans: *Streaming, implementation details*, queue mapper).
#![tactic(auto)]

ghost use Rattle.std.specs.Prelude.{◌≡◌, ◌<◌, ◌≤◌};
ghost use Rattle.sha2.specs.Sha256.{sha256};
ghost use Rattle.queue_mapper.specs.Place.{message_of, place_of, tag_of};

mod header;
mod target;

pub use header::{EventHeader, HeaderRef};
use sha2::{Digest, Sha256};
use stream_ident::StreamId;
pub use target::Place;

/// The place of a stream among this many queues. It takes no memory.
///
/// The digest is SHA-256 (FIPS 180-4) of the namespace, one zero byte and the key. Its first eight bytes,
/// read with the highest first, modulo `queues`, are the queue; the byte behind them is the tag.
pub fn place(stream: &StreamId, queues: usize) -> Place
    requires { 1 ≤ queues }
    ensures place { result ≡ place_of stream.now queues }
    ensures queue { result.queue < queues }
{
    let digest = digest_of(stream);
    let number = u64::from_be_bytes([
        digest[0], digest[1], digest[2], digest[3], digest[4], digest[5], digest[6], digest[7],
    ]);
    Place {
        queue: (number % queues as u64) as usize,
        tag: digest[8],
    }
}

/// The queue of a stream's place among this many queues. It takes no memory, and where there is one queue,
/// no digest either.
pub fn queue(stream: &StreamId, queues: usize) -> usize
    requires { 1 ≤ queues }
    ensures place { result ≡ (place_of stream.now queues).queue }
    ensures queue { result < queues }
{
    if queues == 1 {
        0
    } else {
        place(stream, queues).queue
    }
}

/// The tag of a stream, which its places among all numbers of queues have. It takes no memory.
pub fn tag(stream: &StreamId) -> u8
    ensures { result ≡ tag_of stream.now }
{
    digest_of(stream)[8]
}

/// The digest of a stream's name.
fn digest_of(stream: &StreamId) -> [u8; 32]
    ensures { result ≡ sha256 (message_of stream.now) }
{
    let mut hasher = Sha256::new();
    hasher.update(stream.namespace.as_bytes());
    hasher.update(&[0u8]);
    hasher.update(stream.key.as_bytes());
    hasher.finalize()
}
