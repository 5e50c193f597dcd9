//! The words that begin a command, and what stands behind each.
ghost use Rattle.std.specs.Prelude.{◌≡◌, ◌<◌};
ghost use Rattle.script_checker.specs.Counts.{verb_in, verb_of_op, word_of, number_of};

use crate::field::Field;
use stream_model::Op;
use stream_script::Command;

/// A command, without what it is done with.
#[derive(Clone, Copy, Debug, PartialEq, Eq)]
pub enum Verb {
    /// Publishes a batch.
    Pub,
    /// Subscribes a grain.
    Sub,
    /// Ends a subscription.
    Unsub,
    /// Adds a rule.
    Rule,
    /// Takes events into a cache.
    Pull,
    /// Hands an event to a mailbox.
    Deliver,
    /// Sets a cursor back.
    Retry,
    /// Acknowledges an event.
    Ack,
    /// Drops blocks of a cache.
    Purge,
    /// Moves a queue to another silo.
    Move,
    /// Begins a turn.
    Begin,
    /// Ends a turn.
    Commit,
    /// Takes a grain out of memory.
    Deactivate,
    /// Asks for a grain.
    Ready,
    /// Asks for a subscription.
    Due,
    /// Asks whether all is handled.
    Quiet,
    /// Does all that is left to do.
    Drain,
    /// Lets a silo join.
    Up,
    /// Lets a silo leave.
    Down,
    /// Reports what is handled.
    Report,
}

/// How many verbs there are.
pub(crate) const VERBS: usize = 20;

/// All verbs, each at its number.
pub(crate) static ALL: [Verb; VERBS] = [
    Verb::Pub,
    Verb::Sub,
    Verb::Unsub,
    Verb::Rule,
    Verb::Pull,
    Verb::Deliver,
    Verb::Retry,
    Verb::Ack,
    Verb::Purge,
    Verb::Move,
    Verb::Begin,
    Verb::Commit,
    Verb::Deactivate,
    Verb::Ready,
    Verb::Due,
    Verb::Quiet,
    Verb::Drain,
    Verb::Up,
    Verb::Down,
    Verb::Report,
];

impl Verb {
    /// The verb of a command.
    pub fn of(command: &Command) -> Verb
        ensures { result ≡ verb_in command.now }
    {
        match command {
            Command::Step { queue: _, op } => Verb::of_op(op),
            Command::Each(each) => Verb::of_op(&each.op()),
            Command::Drain => Verb::Drain,
            Command::Report => Verb::Report,
            Command::Up { .. } => Verb::Up,
            Command::Down { .. } => Verb::Down,
        }
    }

    /// The verb of an operation.
    fn of_op(op: &Op) -> Verb
        ensures { result ≡ verb_of_op op.now }
    {
        match op {
            Op::Publish { .. } => Verb::Pub,
            Op::Subscribe { .. } => Verb::Sub,
            Op::Unsubscribe { .. } => Verb::Unsub,
            Op::AddRule { .. } => Verb::Rule,
            Op::Pull { .. } => Verb::Pull,
            Op::Deliver { .. } => Verb::Deliver,
            Op::Retry { .. } => Verb::Retry,
            Op::Ack { .. } => Verb::Ack,
            Op::Purge { .. } => Verb::Purge,
            Op::Begin { .. } => Verb::Begin,
            Op::Commit { .. } => Verb::Commit,
            Op::Deactivate { .. } => Verb::Deactivate,
            Op::Move { .. } => Verb::Move,
            Op::Ready { .. } => Verb::Ready,
            Op::Due { .. } => Verb::Due,
            Op::Quiet => Verb::Quiet,
        }
    }

    /// The word that begins the command.
    pub fn word(self) -> &'static str
        ensures { result.now ≡ word_of self }
    {
        match self {
            Verb::Pub => "pub",
            Verb::Sub => "sub",
            Verb::Unsub => "unsub",
            Verb::Rule => "rule",
            Verb::Pull => "pull",
            Verb::Deliver => "deliver",
            Verb::Retry => "retry",
            Verb::Ack => "ack",
            Verb::Purge => "purge",
            Verb::Move => "move",
            Verb::Begin => "begin",
            Verb::Commit => "commit",
            Verb::Deactivate => "deactivate",
            Verb::Ready => "ready",
            Verb::Due => "due",
            Verb::Quiet => "quiet",
            Verb::Drain => "drain",
            Verb::Up => "up",
            Verb::Down => "down",
            Verb::Report => "report",
        }
    }

    /// The place of the verb among all.
    pub(crate) fn number(self) -> usize
        ensures exact { result ≡ number_of self }
        ensures within { result < VERBS }
    {
        self as usize
    }

    /// The verb that a word is.
    pub(crate) fn named(word: &[u8]) -> Option<Verb> {
        ALL.iter()
            .copied()
            .find(|verb| verb.word().as_bytes() == word)
    }

    /// The field at a place behind the word, counted from 0.
    pub(crate) fn field(self, number: usize) -> Option<Field> {
        match self {
            Verb::Pub if number > 0 => Some(Field::Text),
            _ => self.fields().get(number).copied(),
        }
    }

    /// The fields behind the word, in the command's longest form, but for the texts of a `pub`.
    fn fields(self) -> &'static [Field] {
        match self {
            Verb::Pub => &[Field::Stream],
            Verb::Sub => &[Field::Stream, Field::Grain, Field::Start, Field::Token],
            Verb::Unsub => &[Field::Sub],
            Verb::Rule => &[Field::Name, Field::Name],
            Verb::Pull => &[Field::Queue, Field::Number, Field::ShortNumber],
            Verb::Deliver | Verb::Retry => &[Field::Number, Field::Sub],
            Verb::Ack => &[Field::Number, Field::Sub, Field::Token],
            Verb::Purge => &[Field::Queue, Field::Number, Field::ShortNumber],
            Verb::Move => &[Field::Queue, Field::Silo],
            Verb::Begin => &[Field::Queue, Field::Grain, Field::ShortNumber],
            Verb::Commit => &[
                Field::Queue,
                Field::Grain,
                Field::Number,
                Field::Number,
                Field::Number,
            ],
            Verb::Deactivate | Verb::Ready => &[Field::Queue, Field::Grain],
            Verb::Due => &[Field::Queue, Field::Sub],
            Verb::Quiet | Verb::Drain | Verb::Report => &[],
            Verb::Up | Verb::Down => &[Field::Silo],
        }
    }

    /// How a line of the command is written.
    pub(crate) fn form(self) -> &'static str {
        match self {
            Verb::Pub => "the line is `pub STREAM TEXT ..`",
            Verb::Sub => {
                "the line is `sub STREAM GRAIN latest` or `sub STREAM GRAIN from TOKEN`"
            }
            Verb::Unsub => "the line is `unsub SUB`",
            Verb::Rule => "the line is `rule KIND NS`",
            Verb::Pull => "the line is `pull Q GENERATION MAX`",
            Verb::Deliver => "the line is `deliver GENERATION SUB`",
            Verb::Retry => "the line is `retry GENERATION SUB`",
            Verb::Ack => "the line is `ack GENERATION SUB TOKEN`",
            Verb::Purge => "the line is `purge Q GENERATION KEEP`",
            Verb::Move => "the line is `move Q SILO`",
            Verb::Begin => "the line is `begin Q GRAIN` or `begin Q GRAIN MAX`",
            Verb::Commit => "the line is `commit Q GRAIN ACTIVATION TURN NOTE`",
            Verb::Deactivate => "the line is `deactivate Q GRAIN`",
            Verb::Ready => "the line is `ready Q` or `ready Q GRAIN`",
            Verb::Due => "the line is `due Q` or `due Q SUB`",
            Verb::Quiet => "the line is `quiet`",
            Verb::Drain => "the line is `drain`",
            Verb::Up => "the line is `up SILO`",
            Verb::Down => "the line is `down SILO`",
            Verb::Report => "the line is `report`",
        }
    }
}
