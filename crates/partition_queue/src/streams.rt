//! The streams of a log, each once, and beside each its tag.
ghost use Rattle.std.specs.Prelude.{◌≡◌, ◌<◌, ◌≤◌, [], length, get_or, map, IfOk, OnOk, OnErr};
ghost use Rattle.stream_ident.specs.declared.limits.TheConstants.{MOST_EVENTS};
ghost use Rattle.queue_mapper.specs.Place.{tag_of};
ghost use Rattle.partition_queue.specs.Log.{no_stream, Grows};

use indexmap::IndexSet;
use queue_mapper::tag;
use std::alloc::{AllocError, Global};
use std::marker::Model;
use stream_ident::StreamId;

/// Streams, each once, under the numbers 0, 1, 2 and so on, and beside each its tag, which costs a digest
/// where the stream is added, and nothing after that.
///
/// A contract sees it as the list of the streams.
#[derive(Debug)]
pub(crate) struct Streams {
    names: IndexSet<StreamId>,
    tags: Vec<u8>,
}

impl Drop for Streams {
    fn drop(self) {
        let Self { names: _, tags: _ } = self;
    }
}

impl Model for Streams {
    ghost use Rattle.std.specs.Prelude.{◌≡◌, List, map};
    ghost use Rattle.queue_mapper.specs.Place.{tag_of};
    ghost use Rattle.stream_ident.specs.declared.ident.StreamId.{StreamId};

    ghost Value = { List StreamId };

    ghost view = { λ s. s.names.keys };

    ghost invariant = { λ s. s.tags.items ≡ map tag_of s.names.keys };
}

impl Streams {
    /// No streams. It takes no memory.
    pub(crate) fn new(alloc: Global) -> Streams
        ensures { result ≡ [] }
    {
        Streams {
            names: IndexSet::new(alloc),
            tags: Vec::new(alloc),
        }
    }

    /// The number of a stream, which is added behind the others where it isn't there.
    ///
    /// # Errors
    /// The call failed to allocate, and the streams are as they were.
    pub(crate) fn number_of(&mut self, stream: &StreamId) -> Result<u32, AllocError>
        requires { length self.old < MOST_EVENTS }
        ensures within { IfOk result (λ number. number < length self.new) }
        ensures stored { IfOk result (λ number. get_or self.new number no_stream ≡ stream.now) }
        ensures grows { OnOk result (Grows self.old self.new) }
        ensures err { OnErr result (self.new ≡ self.old) }
    {
        if let Some(number) = self.names.get_index_of(stream) {
            return Ok(number as u32);
        }
        let number = self.names.len();
        self.tags.reserve(1)?;
        self.names.insert(*stream)?;
        self.tags.push_reserved(tag(stream));
        Ok(number as u32)
    }

    /// The stream of a number.
    pub(crate) fn get(&self, number: u32) -> &StreamId
        requires { number < length self.now }
        ensures { result.now ≡ get_or self.now number no_stream }
    {
        self.names.get_index(number as usize).unwrap()
    }

    /// The tag of the stream of a number.
    pub(crate) fn tag(&self, number: u32) -> u8
        requires { number < length self.now }
        ensures { result ≡ tag_of (get_or self.now number no_stream) }
    {
        self.tags[number as usize]
    }
}
