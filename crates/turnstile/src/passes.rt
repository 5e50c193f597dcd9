//! Passes that are split off, joined and counted.
ghost use Rattle.std.specs.Prelude.{◌≡◌, ◌^◌, ◌≤◌, IfOk, OnOk, OnErr};

use crate::lock::PASSES;
use crate::pass::{Pass, PassOf};
use crate::replays::Replays;
use crate::rule::{Count, Meet, Number, Tell, Twin};
use crate::turnstile::Turnstile;
use std::alloc::AllocError;

const MOST_PASSES: u64 = 1 << 32;

impl<T: Replays> Turnstile<T> {
    ghost use Rattle.turnstile.specs.Calls.{IsOf, HasOnlyMade, IsSplitOff, joined_pass, Agree};

    /// A new pass, which has seen what this one has, under a number of its own. The old pass is as before.
    /// It takes no memory.
    ///
    /// # Errors
    /// 2^32 passes were made, and no number is left. The old pass then knows so, and is else as before.
    pub fn split(&self, pass: &mut PassOf<T>) -> Result<PassOf<T>, AllocError>
        requires { IsOf self.now pass.old }
        ensures same { OnOk result (pass.new ≡ pass.old) }
        ensures new { IfOk result (λ q. IsSplitOff pass.old q) }
        ensures none_left { OnErr result (HasOnlyMade pass.old pass.new × (2 ^ 32 ≤ pass.new.made)) }
    {
        let mut made = pass.made;
        let mut seat = self.lock.table.shared.split_seat::<Twin>(&mut pass.seat);
        while made < MOST_PASSES {
            let found = self
                .lock
                .table
                .shared
                .compare_exchange::<Number>(&mut seat, PASSES, made, made + 1);
            if found == made {
                return Ok(Pass {
                    seat,
                    number: made,
                    made: made + 1,
                    joined: 0,
                    len: pass.len,
                });
            }
            made = found;
        }
        self.lock
            .table
            .shared
            .join_seat::<Meet>(&mut pass.seat, seat);
        self.lock.table.shared.load::<Tell>(&mut pass.seat, PASSES);
        pass.made = made;
        Err(AllocError)
    }

    /// Takes in another pass: its numbers, and what it has seen where that is more. It takes no memory.
    pub fn join(&self, pass: &mut PassOf<T>, other: PassOf<T>)
        requires pass { IsOf self.now pass.old }
        requires other { IsOf self.now other }
        ensures joined { pass.new ≡ joined_pass pass.old other }
        ensures agree { Agree pass.old other pass.new }
    {
        let Pass {
            seat,
            number: _,
            made,
            joined,
            len,
        } = other;
        self.lock
            .table
            .shared
            .join_seat::<Meet>(&mut pass.seat, seat);
        self.lock.table.shared.load::<Tell>(&mut pass.seat, PASSES);
        pass.made = pass.made.max(made);
        pass.joined = pass.joined + 1 + joined;
        pass.len = pass.len.max(len);
    }

    // Asks how many passes were made.
    pub(crate) fn count(&self, pass: &mut PassOf<T>)
        requires { IsOf self.now pass.old }
        ensures { HasOnlyMade pass.old pass.new }
    {
        pass.made = self.lock.table.shared.load::<Count>(&mut pass.seat, PASSES);
    }
}
