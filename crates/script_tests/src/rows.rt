//! Stops at what isn't so.
use std::process::Abort;

/// Stops at a row, or at another number, where it isn't so.
pub(crate) fn assert_at(rt: &impl Abort, at: usize, is_so: bool) {
    assert!(rt; is_so, "at {at}");
}

/// Stops at a line where it isn't so.
pub(crate) fn assert_line(rt: &impl Abort, line: &str, is_so: bool) {
    assert!(rt; is_so, "at {line}");
}
