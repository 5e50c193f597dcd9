//! The queue goes to another agent.
ghost use Rattle.std.specs.Prelude.{◌≡◌, ◌<◌, length, if◌then◌else◌};
ghost use Rattle.stream_model.specs.declared.plain.Subscription.{Subscription};
ghost use Rattle.stream_model.specs.Bounds.{IsWithinLimits};
ghost use Rattle.stream_model.specs.Places.{change_at};
ghost use Rattle.stream_model.specs.Pulling.{move, rewound_where};
ghost use Rattle.stream_ident.specs.Words.{each_value};

use crate::positions::{is_spent, slowest, token_at};
use stream_ident::SubName;
use stream_model::{PlainPartition, Reply, Sequence, Subscription};

/// The queue goes to an agent on another silo, under a new generation. Its cache is empty and begins at
/// the slowest resume, and the cursor of each open subscription goes back to its resume. It takes no
/// memory.
pub fn move_queue(p: &mut PlainPartition, silo: u8) -> Reply
    requires { IsWithinLimits p.old }
    ensures { (p.new, result) ≡ move p.old silo }
{
    if is_spent(p) {
        return Reply::Spent;
    }
    let position = p.high.min(slowest(p));
    let low = token_at(p, position);
    let generation = p.generation + 1;
    p.generation = generation;
    p.silo = silo;
    p.rises += 1;
    p.low = position;
    p.high = position;
    rewind_open(&mut p.subs);
    Reply::Moved { generation, low }
}

/// Sets the cursor of each open subscription back to its resume.
fn rewind_open(subs: &mut Sequence<(SubName, Subscription)>)
    ensures { subs.new ≡ each_value (λ (r : Subscription). rewound_where r.is_open r) subs.old }
{
    for place in 0..subs.as_slice().len() {
        rewind_at(subs, place);
    }
}

/// Sets the cursor of the subscription at a place back to its resume, where it is open.
fn rewind_at(subs: &mut Sequence<(SubName, Subscription)>, place: usize)
    requires { place < length subs.old }
    ensures { subs.new ≡ change_at (λ (r : Subscription). rewound_where r.is_open r) place subs.old }
{
    let sub = &mut subs.items[place].1;
    let cursor = first_cursor(sub);
    sub.cursor = cursor;
}

/// Where the cursor of a subscription stands for a new agent.
fn first_cursor(sub: &Subscription) -> usize
    ensures { result ≡ (if sub.now.is_open then sub.now.resume else sub.now.cursor) }
{
    if sub.is_open { sub.resume } else { sub.cursor }
}
