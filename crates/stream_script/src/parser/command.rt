//! What a line of a script says, and the words that begin a command.
ghost use Rattle.std.specs.Prelude.{◌≡◌, Some};
ghost use Rattle.stream_ident.specs.Name.{same_name};
ghost use Rattle.stream_script.specs.declared.parser.command.LineError.TheVariants as error;
ghost use Rattle.stream_script.specs.FaultTexts.{fault_text, kind_text};
ghost use Rattle.stream_script.specs.Forms.{op_of};
ghost use Rattle.stream_script.specs.Lexer.{piece_of};
ghost use Rattle.stream_script.specs.Verbs.{verb_of, producer_verb, agent_verb, worker_verb, look_verb, operator_verb, verb_in_front, takes_texts, may_stand, not_here};

use crate::parser::lines::Piece;
use std::alloc::{AllocError, AllocFailed};
use std::fmt;
use stream_ident::Name;
use stream_model::Op;

/// What a script is for.
#[derive(Clone, Copy, Debug, PartialEq, Eq)]
pub enum Mode {
    /// It is done line by line, and each reply is printed.
    Sim,
    /// It is done by one producer, while silos run.
    Run,
}

/// An operation on each queue.
#[derive(Clone, Copy, Debug)]
pub enum EachOp {
    /// Grains of a kind shall consume the streams of a namespace.
    Rule {
        /// The kind of the grains.
        kind: Name,
        /// The namespace of the streams.
        namespace: Name,
    },
    /// Whether everything is pulled, delivered and handled.
    Quiet,
}

/// A command.
#[derive(Debug, Drop)]
pub enum Command {
    /// One operation on one queue.
    Step {
        /// The queue, below the number of queues.
        queue: usize,
        /// The operation.
        op: Op,
    },
    /// One operation on each queue, in order.
    Each(EachOp),
    /// A drain of each queue, in order.
    Drain,
    /// What each subscription has handled.
    Report,
    /// A silo joins the cluster.
    Up {
        /// Its number, 0 to 15.
        silo: u8,
    },
    /// A silo leaves the cluster.
    Down {
        /// Its number, 0 to 15.
        silo: u8,
    },
}

/// What is wrong with a line.
#[derive(Clone, Copy, Debug, PartialEq, Eq)]
pub enum FaultKind {
    /// A byte is outside 0x20 to 0x7E.
    BadByte,
    /// A text doesn't end, has a wrong escape, has something right after it or is longer than 256 bytes, or a
    /// `"` stands inside a word.
    BadText,
    /// There is no command, or a wrong word stands where a word is fixed.
    BadCommand,
    /// The command may not stand in a script that is simulated.
    NotInSim,
    /// The command may not stand in a script that is run.
    NotInRun,
    /// The number of pieces is wrong, or a text stands where a word belongs, or the reverse.
    WordCount,
    /// A word isn't the name, stream, grain or subscription that belongs there.
    BadName,
    /// A word isn't a number, or the number is too large.
    BadNumber,
    /// A word isn't a token.
    BadToken,
    /// A queue number isn't below the number of queues.
    NoQueue,
    /// The script has more bytes than [`MOST_SCRIPT_BYTES`](crate::MOST_SCRIPT_BYTES).
    TooLong,
}

/// The first fault of a script.
#[derive(Clone, Copy, Debug, PartialEq, Eq)]
pub struct Fault {
    /// The line, counted from 1, or 0 where the whole script is meant.
    pub line: usize,
    /// What is wrong with it.
    pub kind: FaultKind,
}

/// What a line is.
#[derive(Debug, Drop)]
pub enum Parsed {
    /// A command.
    Command(Command),
    /// A line to pass over.
    Skip,
    /// A fault.
    Fault(Fault),
}

impl Command {
    /// An operation on a queue.
    pub(crate) fn on_queue(queue: usize, op: Op) -> Command
        ensures { result ≡ Command.Step queue op }
    {
        Command::Step { queue, op }
    }
}

impl EachOp {
    /// The operation.
    pub fn op(&self) -> Op
        ensures { result ≡ op_of self.now }
    {
        match self {
            EachOp::Rule { kind, namespace } => Op::AddRule {
                kind: *kind,
                namespace: *namespace,
            },
            EachOp::Quiet => Op::Quiet,
        }
    }
}

impl fmt::Display for FaultKind {
    ghost output = { λ kind. Some (kind_text kind) };

    fn fmt<W: fmt::Write>(&self, f: &mut fmt::Formatter<W>) -> fmt::Result {
        f.write_str(match self {
            FaultKind::BadByte => "bad byte",
            FaultKind::BadText => "bad text",
            FaultKind::BadCommand => "bad command",
            FaultKind::NotInSim => "not in sim",
            FaultKind::NotInRun => "not in run",
            FaultKind::WordCount => "word count",
            FaultKind::BadName => "bad name",
            FaultKind::BadNumber => "bad number",
            FaultKind::BadToken => "bad token",
            FaultKind::NoQueue => "no queue",
            FaultKind::TooLong => "too long",
        })
    }
}

impl fmt::Display for Fault {
    ghost output = { λ fault. Some (fault_text fault) };

    fn fmt<W: fmt::Write>(&self, f: &mut fmt::Formatter<W>) -> fmt::Result {
        let line = self.line;
        let kind = self.kind;
        write!(f, "line {line}: {kind}")
    }
}

/// Why a line gives no command.
#[derive(Drop)]
pub(crate) enum LineError {
    /// Memory ran out.
    Memory,
    /// The line has this fault.
    Fault(FaultKind),
}

impl From<AllocError> for LineError {
    ghost from_gives = { λ _ e. e ≡ error.Memory };

    fn from(_e: AllocError) -> LineError {
        LineError::Memory
    }
}

impl<T: Drop> From<AllocFailed<T>> for LineError {
    ghost from_gives = { λ _ e. e ≡ error.Memory };

    fn from(_e: AllocFailed<T>) -> LineError {
        LineError::Memory
    }
}

impl From<FaultKind> for LineError {
    ghost from_gives = { λ kind e. e ≡ error.Fault kind };

    fn from(kind: FaultKind) -> LineError {
        LineError::Fault(kind)
    }
}

/// The words that begin a command.
#[derive(Clone, Copy)]
pub(crate) enum Verb {
    /// Publish.
    Pub,
    /// Subscribe.
    Sub,
    /// Unsubscribe.
    Unsub,
    /// Add a rule.
    Rule,
    /// Pull.
    Pull,
    /// Deliver.
    Deliver,
    /// Set a cursor back.
    Retry,
    /// Acknowledge.
    Ack,
    /// Drop blocks of the cache.
    Purge,
    /// Move a queue to another silo.
    Move,
    /// Begin a turn.
    Begin,
    /// Commit a turn.
    Commit,
    /// Deactivate a grain.
    Deactivate,
    /// Ask for a grain.
    Ready,
    /// Ask for a subscription.
    Due,
    /// Ask whether each queue is quiet.
    Quiet,
    /// Drain each queue.
    Drain,
    /// Report what each subscription has handled.
    Report,
    /// Let a silo join.
    Up,
    /// Let a silo leave.
    Down,
}

impl Verb {
    /// The verb that a word is. Those of agents and workers come first, since a simulation has most of them.
    pub(crate) fn of(word: &[u8]) -> Option<Verb>
        ensures { result ≡ verb_of word.now }
    {
        Verb::of_agent(word)
            .or_else(|| Verb::of_worker(word))
            .or_else(|| Verb::of_look(word))
            .or_else(|| Verb::of_producer(word))
            .or_else(|| Verb::of_operator(word))
    }

    /// A verb for what producers and subscribers do.
    fn of_producer(word: &[u8]) -> Option<Verb>
        ensures { result ≡ producer_verb word.now }
    {
        if is(word, b"pub") {
            Some(Verb::Pub)
        } else if is(word, b"sub") {
            Some(Verb::Sub)
        } else if is(word, b"unsub") {
            Some(Verb::Unsub)
        } else if is(word, b"rule") {
            Some(Verb::Rule)
        } else {
            None
        }
    }

    /// A verb for what pulling agents do.
    fn of_agent(word: &[u8]) -> Option<Verb>
        ensures { result ≡ agent_verb word.now }
    {
        if is(word, b"pull") {
            Some(Verb::Pull)
        } else if is(word, b"deliver") {
            Some(Verb::Deliver)
        } else if is(word, b"retry") {
            Some(Verb::Retry)
        } else if is(word, b"ack") {
            Some(Verb::Ack)
        } else if is(word, b"purge") {
            Some(Verb::Purge)
        } else {
            None
        }
    }

    /// A verb for what workers do.
    fn of_worker(word: &[u8]) -> Option<Verb>
        ensures { result ≡ worker_verb word.now }
    {
        if is(word, b"begin") {
            Some(Verb::Begin)
        } else if is(word, b"commit") {
            Some(Verb::Commit)
        } else if is(word, b"deactivate") {
            Some(Verb::Deactivate)
        } else {
            None
        }
    }

    /// A verb for what agents and workers ask, or a reader does.
    fn of_look(word: &[u8]) -> Option<Verb>
        ensures { result ≡ look_verb word.now }
    {
        if is(word, b"ready") {
            Some(Verb::Ready)
        } else if is(word, b"due") {
            Some(Verb::Due)
        } else if is(word, b"quiet") {
            Some(Verb::Quiet)
        } else if is(word, b"report") {
            Some(Verb::Report)
        } else {
            None
        }
    }

    /// A verb for what an operator does.
    fn of_operator(word: &[u8]) -> Option<Verb>
        ensures { result ≡ operator_verb word.now }
    {
        if is(word, b"drain") {
            Some(Verb::Drain)
        } else if is(word, b"move") {
            Some(Verb::Move)
        } else if is(word, b"up") {
            Some(Verb::Up)
        } else if is(word, b"down") {
            Some(Verb::Down)
        } else {
            None
        }
    }

    /// The verb of a line's first piece.
    pub(crate) fn in_front(piece: &Piece) -> Result<Verb, FaultKind>
        ensures { result ≡ verb_in_front (piece_of piece.now) }
    {
        match piece {
            Piece::Word(word) => Verb::of(*word).ok_or(FaultKind::BadCommand),
            Piece::Text(_) => Err(FaultKind::BadCommand),
        }
    }

    /// Whether texts stand behind the word.
    pub(crate) fn takes_texts(self) -> bool
        ensures { result ≡ takes_texts self }
    {
        matches!(self, Verb::Pub)
    }

    /// Whether the command may stand in a script for this.
    pub(crate) fn may_stand(self, mode: Mode) -> bool
        ensures { result ≡ may_stand mode self }
    {
        match mode {
            Mode::Sim => !matches!(self, Verb::Up | Verb::Down),
            Mode::Run => matches!(
                self,
                Verb::Pub
                    | Verb::Sub
                    | Verb::Unsub
                    | Verb::Rule
                    | Verb::Drain
                    | Verb::Up
                    | Verb::Down
            ),
        }
    }
}

/// Whether a word is this one.
fn is(word: &[u8], text: &[u8]) -> bool
    ensures { result ≡ same_name word.now text.now }
{
    word == text
}

/// The fault of a command that may not stand in a script for this.
pub(crate) fn not_here(mode: Mode) -> FaultKind
    ensures { result ≡ not_here mode }
{
    match mode {
        Mode::Sim => FaultKind::NotInSim,
        Mode::Run => FaultKind::NotInRun,
    }
}
