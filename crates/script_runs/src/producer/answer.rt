//! How the lines of a script are answered.
ghost use Rattle.std.specs.Prelude.{◌≡◌};
ghost use Rattle.script_runs.specs.Telling as told;

use step_core::Reply;

/// How a line of a script is answered that asks for something at a queue.
#[derive(Clone, Copy, Debug, PartialEq, Eq)]
pub enum Answer {
    /// It is done.
    Taken,
    /// The start token of a subscription is below the low token of the cache.
    Missed,
    /// It is refused for another reason than a limit: a batch is empty or too long, a subscription isn't there, is
    /// closed or is implicit, or a rule is there already.
    Refused,
    /// A limit is reached: of the events, subscriptions or rules of a partition, or of the history of a queue.
    Limit,
}

// How a reply answers what a line asked for.
pub(crate) fn answer_of(reply: &step_core::Answer) -> Answer
    ensures { result ≡ told.answer_of reply.now }
{
    match reply.outcome() {
        Reply::QueueFull | Reply::TooMany | Reply::Spent => Answer::Limit,
        Reply::Miss { .. } => Answer::Missed,
        Reply::BadBatch | Reply::NoSuch | Reply::Closed | Reply::Implicit | Reply::RuleThere => {
            Answer::Refused
        }
        _ => Answer::Taken,
    }
}
