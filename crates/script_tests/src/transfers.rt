//! A script over a reader and a writer of these tests, which take a byte at each call.
ghost use Rattle.std.specs.Prelude.{◌≡◌, ◌-◌, ◌^◌, ◌<◌, Some};
ghost use Rattle.stream_script.specs.Transfers.{failures_after};

use crate::rows::assert_at;
use crate::sim::{DRAINED, DRAINED_REPLIES, one_queue};
use std::alloc::Global;
use stream_model::Limits;
use stream_script::{Failed, SimError, Sink, Source, sim};

/// Calls of which one fails.
#[derive(Clone, Copy)]
struct Calls {
    /// How many calls come before that.
    fails_at: u32,
    failures: u64,
}

/// So many calls are never made.
const NEVER: u32 = u32::MAX;

impl Calls {
    fn next_call(&mut self) -> Result<(), Failed>
        requires { self.old.failures < 2 ^ 64 - 1 }
        ensures { self.new.failures ≡ failures_after self.old.failures result }
    {
        if self.fails_at == 0 {
            self.fails_at = NEVER;
            self.failures += 1;
            return Err(Failed);
        }
        self.fails_at -= 1;
        Ok(())
    }
}

/// A script of which this is still to be read.
#[derive(Drop)]
struct Reader {
    rest: &'static [u8],
    calls: Calls,
}

impl Source for Reader {
    ghost remaining = { λ reader. Some reader.rest.now };

    ghost failures = { λ reader. reader.calls.failures };

    fn read(&mut self, buffer: &mut [u8]) -> Result<usize, Failed> {
        self.calls.next_call()?;
        let count = self.rest.len().min(buffer.len()).min(1);
        let (given, rest) = self.rest.split_at(count);
        buffer[..count].copy_from_slice(given);
        self.rest = rest;
        Ok(count)
    }
}

/// A text that was written so far.
#[derive(Drop)]
struct Writer {
    text: Vec<u8>,
    calls: Calls,
}

impl Sink for Writer {
    ghost contents = { λ writer. Some writer.text.items };

    ghost failures = { λ writer. writer.calls.failures };

    fn write(&mut self, bytes: &[u8]) -> Result<usize, Failed> {
        self.calls.next_call()?;
        match self.text.push(bytes[0]) {
            Ok(()) => Ok(1),
            Err(_) => {
                self.calls.failures += 1;
                Err(Failed)
            }
        }
    }

    fn flush(&mut self) -> Result<(), Failed> {
        self.calls.next_call()
    }
}

/// Whether a script ends so, with this text written, where the read and the write behind so many fail.
fn does_over(
    alloc: Global,
    read: u32,
    write: u32,
    outcome: &Result<(), SimError>,
    text: &[u8],
) -> bool {
    let mut reader = Reader {
        rest: DRAINED,
        calls: Calls {
            fails_at: read,
            failures: 0,
        },
    };
    let mut writer = Writer {
        text: Vec::new(alloc),
        calls: Calls {
            fails_at: write,
            failures: 0,
        },
    };
    let ended = sim(alloc, one_queue(Limits::GREATEST), &mut reader, &mut writer);
    ended == *outcome && writer.text.as_slice() == text
}

#[test]
fn bytes_come_and_go_one_by_one(rt: HostRuntime) {
    assert!(rt; does_over(rt.alloc(), NEVER, NEVER, &Ok(()), DRAINED_REPLIES));
}

/// There is a read of each of the 68 bytes, and one that finds the end.
#[test]
fn nothing_is_written_where_a_read_fails(rt: HostRuntime) {
    let outcome = Err(SimError::ReadFault);
    for read in 0..69 {
        let so = does_over(rt.alloc(), read, NEVER, &outcome, b"");
        assert_at(&rt, read as usize, so);
    }
}

/// There is a write of each of the 124 bytes, and a flush.
#[test]
fn a_front_is_written_where_a_write_fails(rt: HostRuntime) {
    let outcome = Err(SimError::WriteFault);
    for write in 0..125 {
        let front = &DRAINED_REPLIES[..write as usize];
        let so = does_over(rt.alloc(), NEVER, write, &outcome, front);
        assert_at(&rt, write as usize, so);
    }
}
