//! A grain leaves memory.
ghost use Rattle.std.specs.Prelude.{◌≡◌, ◌<◌, ◌≤◌, ◌^◌, ◌&&◌, [], None, false, length};
ghost use Rattle.stream_ident.specs.declared.limits.TheConstants.{TURN_EVENTS};
ghost use Rattle.stream_ident.specs.declared.limits.TheConstants.{TURN_EVENTS};
ghost use Rattle.stream_ident.specs.Name.{same_grain};
ghost use Rattle.stream_model.specs.declared.plain.Grain.{Grain};
ghost use Rattle.stream_model.specs.Places.{change_at};
ghost use Rattle.stream_model.specs.Pulling.{rewound_where};
ghost use Rattle.stream_model.specs.Turns.{deactivate, running_count};
ghost use Rattle.stream_ident.specs.Words.{each_value};

use crate::records::{grain_in, is_same_grain, place_of_grain};
use stream_ident::{GrainId, SubName};
use stream_model::{Delivery, Grain, PlainPartition, Reply, RunningTurn, Sequence, Subscription};

/// A grain leaves memory: what waits and what runs is lost, and the cursors of its open subscriptions go
/// back to their resumes. It takes no memory.
pub fn deactivate(p: &mut PlainPartition, grain: GrainId) -> Reply
    ensures { (p.new, result) ≡ deactivate p.old grain }
{
    let Some(at) = place_of_grain(&p.grains, &grain) else {
        return Reply::NotActive;
    };
    let found = grain_in(&p.grains, &grain, at);
    if !found.active {
        return Reply::NotActive;
    }
    let lost = waiting_count(&found.mailbox) + running_count(&found.running);
    leave(&mut p.grains, at);
    rewind(&mut p.subs, &grain);
    Reply::Deactivated { lost }
}

/// How many deliveries wait.
fn waiting_count(mailbox: &Sequence<Delivery>) -> usize
    ensures count { result ≡ length mailbox.now }
    ensures bound { result < 2 ^ 63 }
{
    mailbox.items.len()
}

/// How many events run.
fn running_count(running: &Option<RunningTurn>) -> usize
    ensures count { result ≡ running_count running.now }
    ensures bound { result ≤ TURN_EVENTS }
{
    match running {
        Some(run) => run.positions.len(),
        None => 0,
    }
}

/// Takes the grain at a place out of memory: nothing waits, and nothing runs.
fn leave(grains: &mut Sequence<(GrainId, Grain)>, at: usize)
    requires { at < length grains.old }
    ensures { grains.new
        ≡ change_at (λ (st : Grain). record st { active = false; mailbox = []; running = None }) at grains.old }
{
    let grain = &mut grains.items[at].1;
    grain.active = false;
    let mailbox = &mut grain.mailbox;
    mailbox.items.clear();
    grain.running = None;
}

/// Sets the cursors of a grain's open subscriptions back to their resumes.
fn rewind(subs: &mut Sequence<(SubName, Subscription)>, id: &GrainId)
    ensures { subs.new ≡ each_value (λ r. rewound_where (same_grain id.now r.grain && r.is_open) r) subs.old }
{
    rewind_in(subs.items.as_mut_slice(), id);
}

/// Sets the cursors of a grain's open subscriptions back to their resumes, in this list.
fn rewind_in(subs: &mut [(SubName, Subscription)], id: &GrainId)
    ensures { subs.new ≡ each_value (λ r. rewound_where (same_grain id.now r.grain && r.is_open) r) subs.old }
{
    for entry in subs.iter_mut() {
        rewind_sub(&mut entry.1, id);
    }
}

/// Sets the cursor of an open subscription of the grain back to its resume.
fn rewind_sub(sub: &mut Subscription, id: &GrainId)
    ensures { sub.new ≡ rewound_where (same_grain id.now sub.old.grain && sub.old.is_open) sub.old }
{
    if is_same_grain(id, &sub.grain) && sub.is_open {
        sub.cursor = sub.resume;
    }
}
