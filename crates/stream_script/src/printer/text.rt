//! The texts of replies.
ghost use Rattle.std.specs.Prelude.{◌≡◌, ◌<◌, ◌++◌, List, [], ◌∷◌, length, OnOk, OnErr, codes};
ghost use Rattle.std.specs.Fmt.{decimal};
ghost use Rattle.std.specs.List.{AllByRecursion, flat_map};
ghost use Rattle.stream_ident.specs.Event.{events_at};
ghost use Rattle.stream_ident.specs.Token.{token_text};
ghost use Rattle.stream_ident.specs.declared.event.Event.{Event};
ghost use Rattle.stream_model.specs.Replies.{with_events, IsNoTurn};
ghost use Rattle.step_core.specs.Replied.{reply_with, IsOfLog};
ghost use Rattle.step_core.specs.Replies.{of_append};
ghost use Rattle.stream_script.specs.Replies.{reply_text, reply_line, drain_text, drain_line, event_text, ack_text, pending_text};
ghost use Rattle.stream_script.specs.Spelling.{name_text};
ghost use Rattle.stream_script.specs.Writing.{Writes};

use crate::printer::parts::{
    push_count, push_grain, push_named, push_placed, push_quoted, push_text,
};
use std::alloc::AllocError;
use step_core::{Appended, Outcome, Partition};
use stream_ident::{Event, SubName, Token};
use stream_model::{DrainEnd, Pending, Reply};

/// Appends the text of a reply.
///
/// # Errors
/// The call failed to allocate, and nothing of the text stays.
pub fn reply_text(reply: &Reply, out: &mut Vec<u8>) -> Result<(), AllocError>
    ensures ok { OnOk result (out.new.items ≡ out.old.items ++ reply_text reply.now) }
    ensures err { OnErr result (out.new.items ≡ out.old.items) }
{
    let start = out.len();
    let written = push_reply(reply, out);
    if written.is_err() {
        out.truncate(start);
    }
    written
}

/// Appends the line of what an operation on a partition came to: it is the line of its reply, which is never
/// made.
///
/// # Errors
/// The call failed to allocate, and a front of the line may stay.
pub fn outcome_line(
    queue: usize,
    outcome: &Outcome,
    partition: &Partition,
    out: &mut Vec<u8>,
) -> Result<(), AllocError>
    requires { IsOfLog partition.now.log outcome.now }
    ensures { Writes out.old.items out.new.items result (reply_line queue (reply_with partition.now.log outcome.now)) }
{
    push_queue(queue, out)?;
    push_outcome(outcome, partition, out)?;
    push_text(b"\n", out)
}

/// Appends the line of what came of a batch: it is the line of its producer's reply.
///
/// # Errors
/// The call failed to allocate, and a front of the line may stay.
pub fn appended_line(queue: usize, appended: &Appended, out: &mut Vec<u8>) -> Result<(), AllocError>
    ensures { Writes out.old.items out.new.items result (reply_line queue (of_append appended.now)) }
{
    push_queue(queue, out)?;
    push_appended(appended, out)?;
    push_text(b"\n", out)
}

/// Appends the text of what came of a batch.
#[tactic(auto, unfolding(crate::specs::Replies::reply_text))]
fn push_appended(appended: &Appended, out: &mut Vec<u8>) -> Result<(), AllocError>
    ensures { Writes out.old.items out.new.items result (reply_text (of_append appended.now)) }
{
    match appended {
        Appended::Accepted { seq } => push_count(b"published ", *seq, out),
        Appended::BadBatch => push_text(b"bad-batch", out),
        Appended::QueueFull => push_text(b"queue-full", out),
    }
}

/// Appends the number of the queue that a line is of, and a space.
fn push_queue(queue: usize, out: &mut Vec<u8>) -> Result<(), AllocError>
    ensures { Writes out.old.items out.new.items result (decimal queue ++ 32 ∷ []) }
{
    push_count(b"", queue as u64, out)?;
    push_text(b" ", out)
}

/// Appends the text of a reply, or a front of it where memory runs out.
#[tactic(auto, unfolding(crate::specs::Replies::reply_text))]
fn push_reply(reply: &Reply, out: &mut Vec<u8>) -> Result<(), AllocError>
    ensures { Writes out.old.items out.new.items result (reply_text reply.now) }
{
    match reply {
        Reply::Turn {
            sub,
            activation,
            turn,
            events,
            note,
        } => {
            push_running(sub, *activation, *turn, out)?;
            push_events(events.as_slice(), out)?;
            push_count(b" note ", *note, out)
        }
        _ => push_told(reply, out),
    }
}

/// Appends the text of what an operation came to, or a front of it where memory runs out.
fn push_outcome(
    outcome: &Outcome,
    partition: &Partition,
    out: &mut Vec<u8>,
) -> Result<(), AllocError>
    requires { IsOfLog partition.now.log outcome.now }
    ensures { Writes out.old.items out.new.items result (reply_text (reply_with partition.now.log outcome.now)) }
{
    match outcome {
        Reply::Turn {
            sub,
            activation,
            turn,
            events: positions,
            note,
        } => {
            push_running(sub, *activation, *turn, out)?;
            push_events_at(positions.as_slice(), partition, out)?;
            push_count(b" note ", *note, out)
        }
        _ => push_told(outcome, out),
    }
}

/// Appends the text of a reply that isn't a turn, or a front of it where memory runs out.
#[tactic(auto, unfolding(crate::specs::Replies::reply_text))]
fn push_told<E>(reply: &Reply<E>, out: &mut Vec<u8>) -> Result<(), AllocError>
    requires { IsNoTurn reply.now }
    ensures { (events : E → List Event) → Writes out.old.items out.new.items result (reply_text (with_events events reply.now)) }
{
    match reply {
        Reply::Published { seq } => push_appended(&Appended::Accepted { seq: *seq }, out),
        Reply::QueueFull => push_appended(&Appended::QueueFull, out),
        Reply::BadBatch => push_appended(&Appended::BadBatch, out),
        Reply::Subscribed { number } => push_count(b"subscribed ", u64::from(*number), out),
        Reply::Miss {
            requested,
            low,
            high,
        } => push_miss(*requested, *low, *high, out),
        Reply::TooMany => push_text(b"too-many", out),
        Reply::Unsubscribed { handled } => push_count(b"unsubscribed ", *handled as u64, out),
        Reply::NoSuch => push_text(b"no-such", out),
        Reply::Closed => push_text(b"closed", out),
        Reply::Implicit => push_text(b"implicit", out),
        Reply::RuleAdded { from } => push_count(b"rule-added ", *from, out),
        Reply::RuleThere => push_text(b"rule-there", out),
        Reply::Pulled { count, low, high } => push_pulled(*count as u64, *low, *high, out),
        Reply::Pressed { by } => push_named(b"pressed ", by, out),
        Reply::Dry => push_text(b"dry", out),
        Reply::StaleAgent { now } => push_count(b"stale-agent ", *now, out),
        Reply::Delivered { token } => push_placed(b"delivered ", *token, out),
        Reply::Nothing => push_text(b"nothing", out),
        Reply::MailboxFull => push_text(b"mailbox-full", out),
        Reply::Rewound => push_text(b"rewound", out),
        Reply::Acked => push_text(b"acked", out),
        Reply::NotHandled => push_text(b"not-handled", out),
        Reply::Purged { low } => push_placed(b"purged low ", *low, out),
        Reply::Dropped { sub, token } => push_handled(b"dropped ", sub, *token, out),
        Reply::Empty => push_text(b"empty", out),
        Reply::Busy => push_text(b"busy", out),
        Reply::Committed { sub, token } => push_handled(b"committed ", sub, *token, out),
        Reply::Stale => push_text(b"stale", out),
        Reply::Deactivated { lost } => push_count(b"deactivated ", *lost as u64, out),
        Reply::NotActive => push_text(b"not-active", out),
        Reply::Moved { generation, low } => push_moved(*generation, *low, out),
        Reply::Next(grain) => push_grain(b"next ", grain, out),
        Reply::NoneReady => push_text(b"none-ready", out),
        Reply::DueSub { sub, ack } => push_due(sub, *ack, out),
        Reply::NoneDue => push_text(b"none-due", out),
        Reply::Spent => push_text(b"spent", out),
        Reply::IsQuiet => push_text(b"quiet", out),
        Reply::NotQuiet(why) => push_pending(why, out),
        Reply::Turn { .. } => unreachable!(),
    }
}

// Not inlined, since an event that is read takes some 400 bytes.
#[inline(never)]
fn push_events_at(
    positions: &[usize],
    partition: &Partition,
    out: &mut Vec<u8>,
) -> Result<(), AllocError>
    requires { AllByRecursion (λ position. position < length partition.now.log) positions.now }
    ensures { Writes out.old.items out.new.items result (flat_map event_text (events_at partition.now.log positions.now)) }
{
    for position in positions {
        push_event(&partition.event_at(*position), out)?;
    }
    Ok(())
}

fn push_miss(requested: Token, low: Token, high: Token, out: &mut Vec<u8>) -> Result<(), AllocError>
    ensures { Writes out.old.items out.new.items result
        (codes "miss " ++ token_text requested ++ codes " low " ++ token_text low ++ codes " high " ++ token_text high) }
{
    push_placed(b"miss ", requested, out)?;
    push_placed(b" low ", low, out)?;
    push_placed(b" high ", high, out)
}

fn push_pulled(count: u64, low: Token, high: Token, out: &mut Vec<u8>) -> Result<(), AllocError>
    ensures { Writes out.old.items out.new.items result
        (codes "pulled " ++ decimal count ++ codes " low " ++ token_text low ++ codes " high " ++ token_text high) }
{
    push_count(b"pulled ", count, out)?;
    push_placed(b" low ", low, out)?;
    push_placed(b" high ", high, out)
}

fn push_moved(generation: u64, low: Token, out: &mut Vec<u8>) -> Result<(), AllocError>
    ensures { Writes out.old.items out.new.items result
        (codes "moved " ++ decimal generation ++ codes " low " ++ token_text low) }
{
    push_count(b"moved ", generation, out)?;
    push_placed(b" low ", low, out)
}

/// Appends a text, and behind it a subscription and the token of one of its events.
fn push_handled(
    before: &[u8],
    sub: &SubName,
    token: Token,
    out: &mut Vec<u8>,
) -> Result<(), AllocError>
    ensures { Writes out.old.items out.new.items result (before.now ++ name_text sub.now ++ 32 ∷ token_text token) }
{
    push_named(before, sub, out)?;
    push_placed(b" ", token, out)
}

/// Appends which turn runs.
fn push_running(
    sub: &SubName,
    activation: u64,
    turn: u64,
    out: &mut Vec<u8>,
) -> Result<(), AllocError>
    ensures { Writes out.old.items out.new.items result
        (codes "turn " ++ decimal turn ++ codes " sub " ++ name_text sub.now ++ codes " activation " ++ decimal activation) }
{
    push_count(b"turn ", turn, out)?;
    push_named(b" sub ", sub, out)?;
    push_count(b" activation ", activation, out)
}

fn push_events(events: &[Event], out: &mut Vec<u8>) -> Result<(), AllocError>
    ensures { Writes out.old.items out.new.items result (flat_map event_text events.now) }
{
    for event in events {
        push_event(event, out)?;
    }
    Ok(())
}

fn push_event(event: &Event, out: &mut Vec<u8>) -> Result<(), AllocError>
    ensures { Writes out.old.items out.new.items result (event_text event.now) }
{
    push_placed(b" event ", event.token, out)?;
    push_quoted(&event.payload, out)
}

fn push_due(sub: &SubName, ack: Option<Token>, out: &mut Vec<u8>) -> Result<(), AllocError>
    ensures { Writes out.old.items out.new.items result (codes "due " ++ name_text sub.now ++ codes " ack " ++ ack_text ack) }
{
    push_named(b"due ", sub, out)?;
    push_ack(ack, out)
}

/// Appends what a due subscription has to acknowledge.
fn push_ack(ack: Option<Token>, out: &mut Vec<u8>) -> Result<(), AllocError>
    ensures { Writes out.old.items out.new.items result (codes " ack " ++ ack_text ack) }
{
    match ack {
        None => push_text(b" ack -", out),
        Some(token) => push_placed(b" ack ", token, out),
    }
}

fn push_pending(why: &Pending, out: &mut Vec<u8>) -> Result<(), AllocError>
    ensures { Writes out.old.items out.new.items result (pending_text why.now) }
{
    match why {
        Pending::Behind => push_text(b"behind", out),
        Pending::Deliverable(sub) => push_named(b"deliverable ", sub, out),
        Pending::Waiting(grain) => push_grain(b"waiting ", grain, out),
        Pending::Running(grain) => push_grain(b"running ", grain, out),
    }
}

/// Appends the text of how a drain ended.
///
/// # Errors
/// The call failed to allocate, and nothing of the text stays.
pub fn drain_text(end: &DrainEnd, out: &mut Vec<u8>) -> Result<(), AllocError>
    ensures ok { OnOk result (out.new.items ≡ out.old.items ++ drain_text end.now) }
    ensures err { OnErr result (out.new.items ≡ out.old.items) }
{
    let before = out.len();
    let written = push_end(end, out);
    if written.is_err() {
        out.truncate(before);
    }
    written
}

/// Appends the line of a drain: the queue, a space and the text.
///
/// # Errors
/// The call failed to allocate, and a front of the line may stay.
pub fn drain_line(queue: usize, end: &DrainEnd, out: &mut Vec<u8>) -> Result<(), AllocError>
    ensures { Writes out.old.items out.new.items result (drain_line queue end.now) }
{
    push_queue(queue, out)?;
    push_end(end, out)?;
    push_text(b"\n", out)
}

/// Appends the text of how a drain ended, or a front of it where memory runs out.
#[tactic(auto, unfolding(crate::specs::Replies::drain_text))]
fn push_end(end: &DrainEnd, out: &mut Vec<u8>) -> Result<(), AllocError>
    ensures { Writes out.old.items out.new.items result (drain_text end.now) }
{
    match end {
        DrainEnd::Drained { turns } => push_count(b"drained ", *turns as u64, out),
        DrainEnd::Stuck { grain } => push_grain(b"stuck ", grain, out),
        DrainEnd::TooMany => push_text(b"too-many", out),
        DrainEnd::Spent => push_text(b"spent", out),
    }
}
