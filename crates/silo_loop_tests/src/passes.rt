//! The passes of a turnstile, as they are given back at its end.
ghost use Rattle.std.specs.Prelude.{◌≡◌, ◌<◌, [], ◌∷◌, ◌++◌, All, vec_len};
ghost use Rattle.turnstile.specs.Calls.{IsOf};
ghost use Rattle.turnstile.specs.History.{IsLegal};

use std::alloc::Global;
use std::process::Abort;
use turnstile::{Closed, PassOf, Replays, Traced, Turnstile};

/// Puts a value behind the others. A want of memory is answered by asking again.
pub(crate) fn push<T, R: Abort>(rt: &R, values: &mut Vec<T>, value: T)
    ensures { values.new.items ≡ values.old.items ++ value ∷ [] }
{
    if values.reserve(1).is_err() {
        values.reserve(1).expect(rt, "memory");
    }
    values.push_reserved(value);
}

/// A vector of one value. A want of memory is answered by asking again.
pub(crate) fn alone<T, R: Abort>(rt: &R, alloc: Global, value: T) -> Vec<T>
    ensures { result.items ≡ value ∷ [] }
{
    let mut values = Vec::new(alloc);
    push(rt, &mut values, value);
    values
}

/// The trace of a turnstile to which all passes are given. Its history is legal.
pub(crate) fn finished<R: Abort, T: Replays>(
    rt: &R,
    turnstile: Turnstile<T>,
    passes: Vec<PassOf<T>>,
) -> Traced<T>
    requires some { 0 < vec_len passes }
    requires passes { All (IsOf turnstile) passes.items }
    ensures { IsLegal T.replied T.after turnstile.start.state (T.History.entries result.history) }
{
    let Closed::Traced(done) = turnstile.close(passes) else {
        panic!(rt; "all passes were given");
    };
    done
}
