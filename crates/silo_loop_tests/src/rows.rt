//! What a row of a table asks has to be answered as it says.
use std::process::Abort;

/// Stops at a row of a case that isn't answered so.
pub(crate) fn assert_row(rt: &impl Abort, case: usize, row: usize, is_so: bool) {
    assert!(rt; is_so, "case {case}, row {row}");
}

/// Stops at a place where it isn't so.
pub(crate) fn assert_at(rt: &impl Abort, place: usize, is_so: bool) {
    assert!(rt; is_so, "at {place}");
}
