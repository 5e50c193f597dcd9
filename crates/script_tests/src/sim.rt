//! What no clause says of the simulator: that it succeeds, what whole scripts print, and what a failing
//! reader or writer leads to.
ghost use Rattle.std.specs.Prelude.{◌≤◌};
ghost use Rattle.stream_script.specs.Bounds.{AreLimits};
ghost use Rattle.stream_script.specs.Simulation.{IsSimConfig};

use crate::rows::assert_at;
use std::alloc::Global;
use std::io::{self, ErrorKind, Read, Write};
use std::test::Fail;
use stream_model::Limits;
use stream_script::{Counted, Failed, Fault, FaultKind, SimConfig, SimError, Sink, sim};

/// How calls go: each takes `most` bytes at most, and the one with the number `fails_at` fails with an error
/// of this kind, or where a write fails with `WriteZero`, by taking no byte.
#[derive(Clone, Copy)]
struct Calls {
    most: usize,
    fails_at: u32,
    kind: ErrorKind,
}

/// Calls that never fail.
const SOUND: Calls = Calls {
    most: 65_536,
    fails_at: u32::MAX,
    kind: ErrorKind::BrokenPipe,
};

/// A reader or a writer whose calls go so.
#[derive(Drop)]
struct Flaky<T> {
    inner: T,
    calls: Calls,
}

impl<T> Flaky<T> {
    fn next_call(&mut self) -> io::Result<()> {
        if self.calls.fails_at == 0 {
            self.calls.fails_at = u32::MAX;
            return Err(io::Error::from(self.calls.kind));
        }
        self.calls.fails_at -= 1;
        Ok(())
    }
}

impl<R: Read> Read for Flaky<R> {
    fn read(&mut self, buf: &mut [u8]) -> io::Result<usize> {
        self.next_call()?;
        let most = buf.len().min(self.calls.most);
        self.inner.read(&mut buf[..most])
    }
}

impl<W: Write> Write for Flaky<W> {
    fn write(&mut self, buf: &[u8]) -> io::Result<usize> {
        if let Err(error) = self.next_call() {
            return match error.kind() {
                ErrorKind::WriteZero => Ok(0),
                _ => Err(error),
            };
        }
        let most = buf.len().min(self.calls.most);
        self.inner.write(&buf[..most])
    }

    fn flush(&mut self) -> io::Result<()> {
        self.next_call()?;
        self.inner.flush()
    }
}

/// One queue with these limits.
pub fn one_queue(limits: Limits) -> SimConfig
    requires { AreLimits limits }
    ensures { IsSimConfig result }
{
    SimConfig {
        queues: 1,
        blocks: 2,
        limits,
    }
}

/// What came of a script: how it ended, how often reads and writes failed, and what was written.
#[derive(Drop)]
struct End {
    outcome: Result<(), SimError>,
    reads: u64,
    writes: u64,
    text: Vec<u8>,
}

/// Whether a script ended so, after so many failed reads and writes.
fn has_ended(end: &End, outcome: &Result<(), SimError>, reads: u64, writes: u64) -> bool {
    end.outcome == *outcome && end.reads == reads && end.writes == writes
}

/// What comes of a script whose reads and writes go so.
fn simulate_over(alloc: Global, script: &[u8], reads: Calls, writes: Calls) -> End {
    let mut source = Counted::new(Flaky {
        inner: script,
        calls: reads,
    });
    let mut sink = Counted::new(Flaky {
        inner: Vec::new(alloc),
        calls: writes,
    });
    let outcome = sim(alloc, one_queue(Limits::GREATEST), &mut source, &mut sink);
    End {
        outcome,
        reads: source.failures(),
        writes: sink.failures(),
        text: sink.into_inner().inner,
    }
}

/// Whether a script ends so, and writes these replies.
pub fn does(alloc: Global, script: &[u8], outcome: &Result<(), SimError>, replies: &[u8]) -> bool {
    let end = simulate_over(alloc, script, SOUND, SOUND);
    end.outcome == *outcome && end.text.as_slice() == replies
}

pub fn faulty(line: usize, kind: FaultKind) -> Result<(), SimError> {
    Err(SimError::ScriptFault(Fault { line, kind }))
}

/// An event on its way, step by step.
pub const SCRIPT: &[u8] =
    b"sub o/k g/x latest\npub o/k \"a\"\npull 0 0 32\ndeliver 0 0:1\nbegin 0 g/x\ncommit 0 g/x 1 1 1\n";

pub const REPLIES: &[u8] =
    b"0 subscribed 1\n0 published 0\n0 pulled 1 low 0.0 high 1.0\n0 delivered 0.0\n0 turn 1 sub 1 activation 1 event 0.0 \"a\" note 0\n0 committed 1 0.0\n";

/// A script for which the log has room for two events, and its replies.
const LIMITED: &[u8] =
    b"pub o/k \"a\" \"b\" \"c\"\npub o/k\npub o/k \"a\" \"b\"\npub o/k \"c\"\nsub o/k g/x from 0.0\nsub o/k g/x from 0.0\nrule log o\nrule log o\nrule log p\npull 0 0 32\ndeliver 0 0:1\nbegin 0 g/x\nmove 0 1\ndrain\nquiet\n";

const LIMITED_REPLIES: &[u8] =
    b"0 queue-full\n0 bad-batch\n0 published 0\n0 queue-full\n0 subscribed 1\n0 too-many\n0 rule-added 1\n0 rule-there\n0 too-many\n0 pulled 2 low 0.0 high 1.0\n0 delivered 0.0\n0 spent\n0 spent\n0 spent\n0 deliverable 1\n";

/// A script for which there is room for one subscription, and its replies.
const LIMITED_IMPLICIT: &[u8] =
    b"sub o/k g/x latest\nrule log o\npub o/a \"a\"\npull 0 0 32\ndrain\nquiet\n";

const LIMITED_IMPLICIT_REPLIES: &[u8] =
    b"0 subscribed 1\n0 rule-added 0\n0 published 0\n0 too-many\n0 too-many\n0 behind\n";

/// Whether a script gives these replies where there may be so many events, and one subscription, rule and rise.
fn gives(alloc: Global, events: usize, script: &[u8], replies: &[u8]) -> bool
    requires { events ≤ 9 }
{
    let limits = Limits {
        events,
        subs: 1,
        rules: 1,
        rises: 1,
    };
    let mut source = Counted::new(script);
    let mut sink = Counted::new(Vec::new(alloc));
    let outcome = sim(alloc, one_queue(limits), &mut source, &mut sink);
    outcome.is_ok() && sink.into_inner().as_slice() == replies
}

#[test]
fn limits_are_reached(rt: HostRuntime) {
    assert!(rt; gives(rt.alloc(), 2, LIMITED, LIMITED_REPLIES));
    assert!(rt; gives(rt.alloc(), 9, LIMITED_IMPLICIT, LIMITED_IMPLICIT_REPLIES));
}

#[test]
fn a_script_that_is_too_long_is_not_begun(rt: HostRuntime) -> Result<(), Fail> {
    let script = vec![in rt.alloc(); b'#'; 4_194_305]?;
    assert!(rt; does(rt.alloc(), &script, &faulty(0, FaultKind::TooLong), b""));
    assert!(rt; does(rt.alloc(), &script[1..], &Ok(()), b""));
    Ok(())
}

/// 4,096 bytes are read at each of 1,024 calls, and the one byte too many at the next.
#[test]
fn nothing_is_read_past_the_limit(rt: HostRuntime) -> Result<(), Fail> {
    let script = vec![in rt.alloc(); b'#'; 4_200_000]?;
    let outcome = Err(SimError::ReadFault);
    assert!(rt; reads_so(rt.alloc(), &script, broken(4096, 1024), &outcome, 1));
    let outcome = faulty(0, FaultKind::TooLong);
    assert!(rt; reads_so(rt.alloc(), &script, broken(4096, 1025), &outcome, 0));
    Ok(())
}

/// Calls of so many bytes at most, of which one fails.
fn broken(most: usize, fails_at: u32) -> Calls {
    Calls {
        most,
        fails_at,
        kind: ErrorKind::BrokenPipe,
    }
}

/// Whether a script whose reads go so writes nothing and ends so, after so many failed reads.
fn reads_so(
    alloc: Global,
    script: &[u8],
    reads: Calls,
    outcome: &Result<(), SimError>,
    failures: u64,
) -> bool {
    let end = simulate_over(alloc, script, reads, SOUND);
    has_ended(&end, outcome, failures, 0) && end.text.is_empty()
}

/// Kinds of failed reads, and what comes of each: an interrupted call is made again.
static READS: &[(ErrorKind, Result<(), SimError>, u64)] = &[
    (ErrorKind::BrokenPipe, Err(SimError::ReadFault), 1),
    (ErrorKind::Interrupted, Ok(()), 0),
];

#[test]
fn a_failed_read_is_told(rt: HostRuntime) {
    for fails_at in 0..3 {
        for (row, (kind, outcome, failures)) in READS.iter().enumerate() {
            let reads = Calls {
                kind: *kind,
                ..broken(3, fails_at)
            };
            let so = reads_so(rt.alloc(), b"# no", reads, outcome, *failures);
            assert_at(&rt, row, so);
        }
    }
}

/// Three events, done by a drain.
pub const DRAINED: &[u8] =
    b"sub o/k g/x latest\npub o/k \"a\"\npub o/k \"b\"\npub o/k \"c\"\ndrain\nreport\n";

pub const DRAINED_REPLIES: &[u8] =
    b"0 subscribed 1\n0 published 0\n0 published 1\n0 published 2\n0 drained 3\nreport\n0:1 o/k g/x 0.0 3\n  0.0 \"a\"\n  1.0 \"b\"\n  2.0 \"c\"\n";

/// A script and how its writes go; how it ends, how often a write has failed, and what was written.
type Written = (
    &'static [u8],
    usize,
    u32,
    ErrorKind,
    Result<(), SimError>,
    u64,
    &'static [u8],
);

static WRITES: &[Written] = &[
    // the flush of a script that writes nothing
    (
        b"",
        3,
        0,
        ErrorKind::BrokenPipe,
        Err(SimError::WriteFault),
        1,
        b"",
    ),
    (b"", 3, 0, ErrorKind::Interrupted, Ok(()), 0, b""),
    // a line of fifteen bytes takes five calls, so the second line is cut at its fourth byte
    (
        SCRIPT,
        3,
        6,
        ErrorKind::BrokenPipe,
        Err(SimError::WriteFault),
        1,
        b"0 subscribed 1\n0 p",
    ),
    (SCRIPT, 3, 6, ErrorKind::Interrupted, Ok(()), 0, REPLIES),
    // the call behind the last byte is the flush, and the one behind it is never made
    (
        DRAINED,
        1,
        124,
        ErrorKind::BrokenPipe,
        Err(SimError::WriteFault),
        1,
        DRAINED_REPLIES,
    ),
    (
        DRAINED,
        1,
        125,
        ErrorKind::BrokenPipe,
        Ok(()),
        0,
        DRAINED_REPLIES,
    ),
];

/// Whether a script ends so whose writes go so.
fn writes_so(alloc: Global, write: &Written) -> bool {
    let (script, most, fails_at, kind, outcome, failures, wanted) = write;
    let writes = Calls {
        kind: *kind,
        ..broken(*most, *fails_at)
    };
    let end = simulate_over(alloc, script, SOUND, writes);
    has_ended(&end, outcome, 0, *failures) && end.text.as_slice() == *wanted
}

#[test]
fn a_failed_write_is_told(rt: HostRuntime) {
    for (row, write) in WRITES.iter().enumerate() {
        assert_at(&rt, row, writes_so(rt.alloc(), write));
    }
}

/// A slice that is full takes no byte.
#[test]
fn a_full_writer_has_failed(rt: HostRuntime) {
    let mut room = [0u8; 4];
    let mut sink = Counted::new(&mut room[..]);
    assert!(rt; sink.write(b"abc") == Ok(3));
    assert!(rt; sink.write(b"de") == Ok(1));
    assert!(rt; sink.write(b"e") == Err(Failed));
    assert!(rt; sink.failures() == 1);
}

/// Calls of one byte, of which one fails at its time.
fn timed_out(fails_at: u32) -> Calls {
    Calls {
        kind: ErrorKind::TimedOut,
        ..broken(1, fails_at)
    }
}

/// A read of each byte, and one that finds the end.
#[test]
fn each_read_that_fails_is_told(rt: HostRuntime) {
    for fails_at in 0..69 {
        let so = reads_so(
            rt.alloc(),
            DRAINED,
            timed_out(fails_at),
            &Err(SimError::ReadFault),
            1,
        );
        assert_at(&rt, fails_at as usize, so);
    }
    let end = simulate_over(rt.alloc(), DRAINED, timed_out(69), SOUND);
    assert!(rt; has_ended(&end, &Ok(()), 0, 0) && end.text.len() == 124);
}

/// Whether a script ends where this write of a byte fails so, and those before it were taken.
fn fails_to_write(alloc: Global, kind: ErrorKind, fails_at: u32) -> bool {
    let writes = Calls {
        kind,
        ..broken(1, fails_at)
    };
    let end = simulate_over(alloc, DRAINED, SOUND, writes);
    has_ended(&end, &Err(SimError::WriteFault), 0, 1)
        && end.text.len() == fails_at as usize
        && DRAINED_REPLIES.starts_with(&end.text)
}

/// A write of each byte: where one fails or takes none, those before it were taken.
#[test]
fn each_write_that_fails_is_told(rt: HostRuntime) {
    for fails_at in 0..124 {
        let so = fails_to_write(rt.alloc(), ErrorKind::BrokenPipe, fails_at)
            && fails_to_write(rt.alloc(), ErrorKind::WriteZero, fails_at);
        assert_at(&rt, fails_at as usize, so);
    }
}
