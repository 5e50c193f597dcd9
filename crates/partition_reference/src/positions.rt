//! Positions on the log, and what is read at them.
ghost use Rattle.std.specs.Prelude.{◌≡◌, ◌==◌, ◌&&◌, min, unwrap_or};
ghost use Rattle.stream_ident.specs.Name.{same_name, same_stream};
ghost use Rattle.stream_ident.specs.SubName.{same_sub, sub_lt};
ghost use Rattle.stream_ident.specs.Token.{token_lt};
ghost use Rattle.stream_ident.specs.Event.{batch_token};
ghost use Rattle.stream_ident.specs.Words as words;
ghost use Rattle.stream_model.specs.Positions.{between, high_token, is_spent, low_token, lower_bound, slowest, slowest_name, token_at};

use stream_ident::{Event, Name, StreamId, SubName, Token};
use stream_model::{PlainPartition, Subscription};

/// Whether two names are one.
pub fn is_same_name(a: &Name, b: &Name) -> bool
    ensures { result ≡ same_name a.now b.now }
{
    a == b
}

/// Whether two subscriptions have one name.
pub fn is_same_sub(a: &SubName, b: &SubName) -> bool
    ensures { result ≡ same_sub a.now b.now }
{
    a == b
}

/// Whether a subscription's name comes before another.
pub fn is_sub_before(a: &SubName, b: &SubName) -> bool
    ensures { result ≡ sub_lt a.now b.now }
{
    a < b
}

/// Whether a token comes before another.
pub fn is_token_before(a: &Token, b: &Token) -> bool
    ensures { result ≡ token_lt a.now b.now }
{
    a < b
}

/// The first token of the batch with this number.
pub fn first_token(seq: u64) -> Token
    ensures { result ≡ batch_token seq }
{
    Token { seq, idx: 0 }
}

/// The token at a position, and at the log's end that of the next batch.
pub fn token_at(p: &PlainPartition, position: usize) -> Token
    ensures { result ≡ token_at p.now position }
{
    match p.log.as_slice().get(position) {
        Some(event) => event.token,
        None => first_token(p.batches),
    }
}

/// The token of the first event that the cache keeps.
pub fn low_token(p: &PlainPartition) -> Token
    ensures { result ≡ low_token p.now }
{
    token_at(p, p.low)
}

/// The token after the last event that the cache has.
pub fn high_token(p: &PlainPartition) -> Token
    ensures { result ≡ high_token p.now }
{
    token_at(p, p.high)
}

/// Whether no rise is left.
pub fn is_spent(p: &PlainPartition) -> bool
    ensures { result ≡ is_spent p.now }
{
    p.limits.rises <= p.rises
}

/// The events at the positions from one up to another.
pub fn between(log: &[Event], from: usize, to: usize) -> &[Event]
    ensures { result.now ≡ between log.now from to }
{
    let to = to.min(log.len());
    let from = from.min(to);
    &log[from..to]
}

/// The least position in the cache whose token isn't less, or the cache's end.
pub fn lower_bound(p: &PlainPartition, token: &Token) -> usize
    ensures { result ≡ lower_bound p.now token.now }
{
    let cached = between(p.log.as_slice(), p.low, p.high);
    for (index, event) in cached.iter().enumerate() {
        if !is_token_before(&event.token, token) {
            return p.low + index;
        }
    }
    p.high
}

/// The least resume of an open subscription, or the cache's end where none is open.
pub fn slowest(p: &PlainPartition) -> usize
    ensures { result ≡ slowest p.now }
{
    let mut slowest = None;
    for (_, sub) in p.subs.as_slice() {
        if sub.is_open {
            slowest = Some(lesser(sub.resume, slowest));
        }
    }
    slowest.unwrap_or(p.high)
}

/// The lesser of two numbers, where there are two.
fn lesser(number: usize, other: Option<usize>) -> usize
    ensures { result ≡ min number (unwrap_or other number) }
{
    number.min(other.unwrap_or(number))
}

/// The least name of an open subscription with the least resume.
pub fn slowest_name(p: &PlainPartition) -> Option<SubName>
    ensures { result ≡ slowest_name p.now }
{
    let resume = slowest(p);
    let subs = p.subs.as_slice();
    let mut least = None;
    for index in (0..subs.len()).rev() {
        let (name, sub) = &subs[index];
        if is_open_at(sub, resume) {
            least = Some(lesser_name(name, &least));
        }
    }
    least
}

/// Whether a subscription is open, with this resume.
fn is_open_at(sub: &Subscription, resume: usize) -> bool
    ensures { result ≡ (sub.now.is_open && (sub.now.resume == resume)) }
{
    sub.is_open && sub.resume == resume
}

/// The lesser of two names, where there are two.
pub fn lesser_name(name: &SubName, other: &Option<SubName>) -> SubName
    ensures { result ≡ words.lesser sub_lt name.now other.now }
{
    match other {
        Some(other) if is_sub_before(other, name) => *other,
        _ => *name,
    }
}
