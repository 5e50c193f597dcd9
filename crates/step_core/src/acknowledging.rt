//! What agents ask of one subscription.
ghost use Rattle.std.specs.Prelude.{◌≡◌};
ghost use Rattle.stream_model.specs.Pulling.{ack, retry};
ghost use Rattle.stream_model.specs.Replies.{IsNoTurn};
ghost use Rattle.step_core.specs.Assembly.{Agrees, IsAssembled};
ghost use Rattle.step_core.specs.PlainOf.{plain_of};
ghost use Rattle.step_core.specs.Replies.{of_ack, of_retry, unknown};
ghost use Rattle.step_core.specs.Replied.{reply_of};

use crate::outcome::Outcome;
use crate::parts::Parts;
use pulling_agent::{Acked, Retried, StaleAgent};
use stream_ident::{SubName, Token};
use stream_model::Reply;

/// The agent sets a subscription's cursor back to its resume. It takes no memory.
#[inline(never)]
pub(crate) fn retry(parts: &mut Parts, generation: u64, sub: &SubName) -> Outcome
    requires { Agrees parts.old }
    ensures assembled { IsAssembled parts.new }
    ensures performs { (plain_of parts.new, reply_of result) ≡ retry (plain_of parts.old) generation sub.now }
    ensures told { IsNoTurn result }
{
    let Some(number) = parts.subs.find(sub) else {
        return unknown(parts, generation);
    };
    match parts.subs.retry(number, &parts.agent, generation) {
        Ok(retried) => told_of_retry(retried),
        Err(StaleAgent { now }) => Reply::StaleAgent { now },
    }
}

/// The agent learns that a subscription has handled an event and all that it was owed before. It takes no
/// memory.
#[inline(never)]
pub(crate) fn ack(parts: &mut Parts, generation: u64, sub: &SubName, token: Token) -> Outcome
    requires { Agrees parts.old }
    ensures assembled { IsAssembled parts.new }
    ensures performs { (plain_of parts.new, reply_of result) ≡ ack (plain_of parts.old) generation sub.now token }
    ensures told { IsNoTurn result }
{
    let Some(number) = parts.subs.find(sub) else {
        return unknown(parts, generation);
    };
    match parts
        .subs
        .ack(number, &parts.agent, generation, &parts.queue, &token)
    {
        Ok(acked) => told_of_ack(acked),
        Err(StaleAgent { now }) => Reply::StaleAgent { now },
    }
}

/// The reply to an agent that asks of a name without a subscription.
pub(crate) fn unknown(parts: &Parts, generation: u64) -> Outcome
    ensures reply { reply_of result ≡ unknown (plain_of parts.now) generation }
    ensures told { IsNoTurn result }
{
    match parts.agent.check(generation) {
        Ok(()) => Reply::NoSuch,
        Err(StaleAgent { now }) => Reply::StaleAgent { now },
    }
}

/// The reply to an agent that retries.
fn told_of_retry(retried: Retried) -> Outcome
    ensures reply { reply_of result ≡ of_retry retried }
    ensures told { IsNoTurn result }
{
    match retried {
        Retried::Closed => Reply::Closed,
        Retried::Rewound => Reply::Rewound,
    }
}

/// The reply to an agent that acknowledges.
fn told_of_ack(acked: Acked) -> Outcome
    ensures reply { reply_of result ≡ of_ack acked }
    ensures told { IsNoTurn result }
{
    match acked {
        Acked::Closed => Reply::Closed,
        Acked::NotHandled => Reply::NotHandled,
        Acked::Acked => Reply::Acked,
    }
}
