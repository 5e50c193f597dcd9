//! What a pulling agent asks: the cursor of a subscription set back, and its resume set on.
ghost use Rattle.std.specs.Prelude.{◌≡◌, ◌<◌, IfSome, length};
ghost use Rattle.std.specs.List.{slice_get};
ghost use Rattle.stream_ident.specs.Token.{same_token};
ghost use Rattle.stream_model.specs.Bounds.{AreIn, IsWithinLimits};
ghost use Rattle.stream_model.specs.Positions.{token_at};
ghost use Rattle.stream_model.specs.Pulling.{ack, handled_at, retry};

use crate::positions::token_at;
use crate::pulling::is_stale;
use crate::records::{place_of_sub, set_cursor, set_marks, sub_in};
use stream_ident::{SubName, Token};
use stream_model::{PlainPartition, Reply, Subscription};

/// The agent sets a subscription's cursor back to its resume. It takes no memory.
pub fn retry(p: &mut PlainPartition, generation: u64, sub: SubName) -> Reply
    ensures { (p.new, result) ≡ retry p.old generation sub }
{
    if is_stale(p, generation) {
        return Reply::StaleAgent { now: p.generation };
    }
    let Some(place) = place_of_sub(&p.subs, &sub) else {
        return Reply::NoSuch;
    };
    let found = sub_in(&p.subs, &sub, place);
    if !found.is_open {
        return Reply::Closed;
    }
    let resume = found.resume;
    set_cursor(&mut p.subs, place, resume);
    Reply::Rewound
}

/// The agent learns that a subscription has handled an event and all before it: the resume goes past the
/// event, and the cursor goes to the resume where it is behind. Neither goes back. It takes no memory.
pub fn ack(p: &mut PlainPartition, generation: u64, sub: SubName, token: Token) -> Reply
    requires { IsWithinLimits p.old }
    ensures { (p.new, result) ≡ ack p.old generation sub token }
{
    if is_stale(p, generation) {
        return Reply::StaleAgent { now: p.generation };
    }
    let Some(place) = place_of_sub(&p.subs, &sub) else {
        return Reply::NoSuch;
    };
    let found = sub_in(&p.subs, &sub, place);
    if !found.is_open {
        return Reply::Closed;
    }
    let Some(position) = first_handled(p, found, &token) else {
        return Reply::NotHandled;
    };
    let resume = found.resume.max(position + 1);
    let cursor = found.cursor.max(resume);
    set_marks(&mut p.subs, place, cursor, resume);
    Reply::Acked
}

/// The first position with this token that a subscription has handled.
fn first_handled(p: &PlainPartition, sub: &Subscription, token: &Token) -> Option<usize>
    requires { AreIn p.now.log sub.now.handled }
    ensures exact { result ≡ slice_get (handled_at p.now sub.now token.now) 0 }
    ensures within { IfSome result (λ position. position < length p.now.log) }
{
    for position in sub.handled.as_slice() {
        if is_at(p, *position, token) {
            return Some(*position);
        }
    }
    None
}

/// Whether the event at a position has this token.
fn is_at(p: &PlainPartition, position: usize, token: &Token) -> bool
    ensures { result ≡ same_token (token_at p.now position) token.now }
{
    token_at(p, position) == *token
}
