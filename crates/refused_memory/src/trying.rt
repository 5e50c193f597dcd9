//! How a call is tried.
use crate::came::{Came, Stop, check, with_memory};
use std::alloc::{AllocError, Global};

/// A value, and a call of it.
pub(crate) trait Tried {
    /// What the call answers.
    type Answer: Drop;

    /// Makes the call.
    ///
    /// # Errors
    /// The call failed to allocate.
    fn call(&mut self, alloc: Global) -> Result<Self::Answer, AllocError>;

    /// Whether two answers are equal, and are what has to be answered.
    ///
    /// # Errors
    /// The comparison failed to allocate.
    fn is_right(
        &self,
        alloc: Global,
        answer: &Self::Answer,
        wanted: &Self::Answer,
    ) -> Result<bool, AllocError>;

    /// Whether all that can be seen of the value can be seen of another one.
    ///
    /// # Errors
    /// The comparison failed to allocate.
    fn is_like(&mut self, alloc: Global, twin: &mut Self) -> Result<bool, AllocError>;
}

/// Makes the call of a value that has an equal twin. Where memory is refused to it, nothing has changed, and it is made
/// once more. Its answer and what it leaves are then those of the twin.
///
/// # Errors
/// Something isn't so, or memory was refused to something else.
pub(crate) fn try_call<T: Tried>(alloc: Global, one: &mut T, twin: &mut T) -> Result<Came, Stop> {
    match one.call(alloc) {
        Ok(answer) => {
            compare(alloc, one, twin, &answer)?;
            Ok(Came::Done)
        }
        Err(AllocError) => with_memory(call_again(alloc, one, twin)),
    }
}

/// Makes a call once more that was refused, and has changed nothing.
fn call_again<T: Tried>(alloc: Global, one: &mut T, twin: &mut T) -> Result<(), Stop> {
    check(
        one.is_like(alloc, twin)?,
        "a call that was refused has changed something",
    )?;
    let answer = one.call(alloc)?;
    compare(alloc, one, twin, &answer)
}

/// Makes the call of the twin, whose answer has to be this one.
fn compare<T: Tried>(
    alloc: Global,
    one: &mut T,
    twin: &mut T,
    answer: &T::Answer,
) -> Result<(), Stop> {
    let wanted = twin.call(alloc)?;
    check(
        one.is_right(alloc, answer, &wanted)?,
        "the answer is another one",
    )?;
    check(
        one.is_like(alloc, twin)?,
        "the call has left something else than the twin's",
    )
}
