//! What rows ask of a value, and of two values of which one is refused memory.
use std::alloc::{AllocError, Global};
use std::process::Abort;

/// What rows ask, and where a row goes wrong.
pub(crate) trait Asked {
    /// What a row asks, with the answer that it has to get.
    type Call;

    /// Whether a row is answered so.
    fn is_so<R: Abort>(
        &mut self,
        rt: &R,
        alloc: Global,
        call: &Self::Call,
    ) -> Result<bool, AllocError>;
}

/// What two of can be compared.
pub(crate) trait Twin: Asked {
    /// Whether all that is seen of two of them is equal.
    fn is_like<R: Abort>(&self, rt: &R, twin: &Self) -> bool;
}

/// Stops at a row that isn't answered so.
pub(crate) fn assert_row<R: Abort>(rt: &R, case: usize, row: usize, is_so: bool) {
    assert!(rt; is_so, "case {case}, row {row}");
}

/// Asks each row of a case.
pub(crate) fn ask<T: Asked, R: Abort>(
    rt: &R,
    alloc: Global,
    asked: &mut T,
    case: usize,
    calls: &[T::Call],
) -> Result<(), AllocError> {
    for (row, call) in calls.iter().enumerate() {
        assert_row(rt, case, row, asked.is_so(rt, alloc, call)?);
    }
    Ok(())
}

/// Asks a row of one and then of its twin. Where memory is refused to the one it is as its twin, and it is asked again.
fn are_so<T: Twin, R: Abort>(
    rt: &R,
    alloc: Global,
    one: &mut T,
    twin: &mut T,
    call: &T::Call,
) -> Result<bool, AllocError> {
    let is_so = match one.is_so(rt, alloc, call) {
        Ok(is_so) => is_so,
        Err(_) => one.is_like(rt, twin) && one.is_so(rt, alloc, call)?,
    };
    let is_too = match twin.is_so(rt, alloc, call) {
        Ok(is_so) => is_so,
        Err(_) => twin.is_so(rt, alloc, call)?,
    };
    Ok(is_so && is_too && one.is_like(rt, twin))
}

/// Asks each row of one and then of its twin. The two stay alike, also where memory is refused.
pub(crate) fn ask_both<T: Twin, R: Abort>(
    rt: &R,
    alloc: Global,
    one: &mut T,
    twin: &mut T,
    case: usize,
    calls: &[T::Call],
) -> Result<(), AllocError> {
    for (row, call) in calls.iter().enumerate() {
        assert_row(rt, case, row, are_so(rt, alloc, one, twin, call)?);
    }
    Ok(())
}

/// Stops at a place where it isn't so.
pub(crate) fn assert_at<R: Abort>(rt: &R, place: usize, is_so: bool) {
    assert!(rt; is_so, "at {place}");
}
