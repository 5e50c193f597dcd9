//! What comes of a script that is cut off in the middle of a line, and of a line that is one byte.
use crate::rows::assert_at;
use crate::sim::{REPLIES, SCRIPT, does, faulty};
use std::alloc::Global;
use stream_script::{FaultKind, SimError};

const NOTHING: &[u8] = b"";

const SUBSCRIBED: &[u8] = b"0 subscribed 1\n";

const REFUSED: &[u8] = b"0 subscribed 1\n0 bad-batch\n";

const PUBLISHED: &[u8] = b"0 subscribed 1\n0 published 0\n";

const PULLED: &[u8] = b"0 subscribed 1\n0 published 0\n0 pulled 1 low 0.0 high 1.0\n";

const DELIVERED: &[u8] =
    b"0 subscribed 1\n0 published 0\n0 pulled 1 low 0.0 high 1.0\n0 delivered 0.0\n";

const BEGUN: &[u8] =
    b"0 subscribed 1\n0 published 0\n0 pulled 1 low 0.0 high 1.0\n0 delivered 0.0\n0 turn 1 sub 1 activation 1 event 0.0 \"a\" note 0\n";

/// How a script ends: with the fault of a line, or none, and with these replies written.
type Cut = (Option<(usize, FaultKind)>, &'static [u8]);

/// The most bytes of the script after which it ends so. Each row begins behind the one before.
///
/// What is left of the second line may be a publish of nothing, and what is left of the third a smaller pull, which
/// takes the one event too.
static CUTS: [(usize, Cut); 26] = [
    (0, (None, NOTHING)),
    (2, (Some((1, FaultKind::BadCommand)), NOTHING)),
    (12, (Some((1, FaultKind::WordCount)), NOTHING)),
    (17, (Some((1, FaultKind::BadCommand)), NOTHING)),
    (19, (None, SUBSCRIBED)),
    (21, (Some((2, FaultKind::BadCommand)), SUBSCRIBED)),
    (23, (Some((2, FaultKind::WordCount)), SUBSCRIBED)),
    (25, (Some((2, FaultKind::BadName)), SUBSCRIBED)),
    (27, (None, REFUSED)),
    (29, (Some((2, FaultKind::BadText)), SUBSCRIBED)),
    (31, (None, PUBLISHED)),
    (34, (Some((3, FaultKind::BadCommand)), PUBLISHED)),
    (40, (Some((3, FaultKind::WordCount)), PUBLISHED)),
    (43, (None, PULLED)),
    (49, (Some((4, FaultKind::BadCommand)), PULLED)),
    (53, (Some((4, FaultKind::WordCount)), PULLED)),
    (54, (Some((4, FaultKind::BadName)), PULLED)),
    (55, (Some((4, FaultKind::BadNumber)), PULLED)),
    (57, (None, DELIVERED)),
    (61, (Some((5, FaultKind::BadCommand)), DELIVERED)),
    (65, (Some((5, FaultKind::WordCount)), DELIVERED)),
    (67, (Some((5, FaultKind::BadName)), DELIVERED)),
    (69, (None, BEGUN)),
    (74, (Some((6, FaultKind::BadCommand)), BEGUN)),
    (86, (Some((6, FaultKind::WordCount)), BEGUN)),
    (88, (None, REPLIES)),
];

/// The end of a script with this fault, or with none.
fn outcome(fault: Option<(usize, FaultKind)>) -> Result<(), SimError> {
    match fault {
        None => Ok(()),
        Some((line, kind)) => faulty(line, kind),
    }
}

/// Whether the front of the script with this many bytes ends so.
fn ends_so(alloc: Global, len: usize, cut: &Cut) -> bool {
    let (fault, written) = cut;
    let front = &SCRIPT[..len.min(SCRIPT.len())];
    does(alloc, front, &outcome(*fault), written)
}

/// Whole lines are done, and what is left of the last one is read as it stands.
#[test]
fn a_script_is_cut_after_each_byte(rt: HostRuntime) {
    let mut next = 0;
    for (most, cut) in &CUTS {
        for len in next..=*most {
            assert_at(&rt, len, ends_so(rt.alloc(), len, cut));
        }
        next = most.saturating_add(1);
    }
    assert!(rt; next == SCRIPT.len() + 1);
}

/// Scripts that are cut in their last line, the number of that line, its fault, and what is written before.
static ENDS: [(&[u8], usize, FaultKind, &[u8]); 2] = [
    (
        b"sub o/k g/x latest\npub o/k \"a",
        2,
        FaultKind::BadText,
        SUBSCRIBED,
    ),
    (
        b"sub o/k g/x latest\npub o/k \"a\"\npull 0 0 32\ndeliver 0 0:1\nbegin 0 g/x\ncommit 0 g/x 1 1",
        6,
        FaultKind::WordCount,
        BEGUN,
    ),
];

#[test]
fn a_cut_text_and_a_cut_commit_are_told(rt: HostRuntime) {
    for (script, line, kind, written) in &ENDS {
        assert!(rt; does(rt.alloc(), script, &faulty(*line, *kind), written));
    }
}

/// The end of a script whose second line is this byte.
fn end_at_byte(byte: u8) -> Result<(), SimError> {
    match byte {
        b'\n' | b'\r' | b' ' | b'#' => Ok(()),
        b'"' => faulty(2, FaultKind::BadText),
        b'!'..=b'~' => faulty(2, FaultKind::BadCommand),
        _ => faulty(2, FaultKind::BadByte),
    }
}

/// Whether a script whose second line is this byte ends so, with a line feed behind the byte and without.
fn is_read_so(alloc: Global, byte: u8) -> bool {
    let mut script = *b"pub o/k \"a\"\n?\n";
    script[12] = byte;
    let end = end_at_byte(byte);
    does(alloc, &script, &end, b"0 published 0\n")
        && does(alloc, &script[..13], &end, b"0 published 0\n")
}

#[test]
fn a_line_may_be_any_byte(rt: HostRuntime) {
    for byte in 0..=u8::MAX {
        assert_at(&rt, usize::from(byte), is_read_so(rt.alloc(), byte));
    }
}
