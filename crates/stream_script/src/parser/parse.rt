//! From a line's bytes to its command: its verb, and for the verbs of producers and operators what stands behind them.
//!
//! A command takes some 300 bytes, and each function that handed one on would clear its room and copy it. So the caller
//! has the room, and the function that knows the command's fields puts it there. Those functions aren't inlined, since a
//! function that inlined all of them would have the room of each field in its frame, and would clear it for every line.
ghost use Rattle.std.specs.Prelude.{◌≡◌, ◌≤◌, map, IfOk, Ok, Err};
ghost use Rattle.std.specs.List.{list_all};
ghost use Rattle.stream_ident.specs.Alphabet.{is_printable};
ghost use Rattle.stream_script.specs.declared.parser.command.Command.{Command};
ghost use Rattle.stream_script.specs.Forms.{queue_of, verb_command, words_command, alone, pub_command, pub_fields, sub_latest, sub_from, unsub_words, rule_words, up_words, down_words};
ghost use Rattle.stream_script.specs.Grammar.{Reads};
ghost use Rattle.stream_script.specs.Lexer.{pieces_in};
ghost use Rattle.stream_script.specs.Pieces.{is_space};
ghost use Rattle.stream_script.specs.Reading.{Gives, Makes, IsWithin, parsed_as, reading, is_skipped, line_command, command_of};

use crate::parser::command::{
    Command, EachOp, Fault, FaultKind, LineError, Mode, Parsed, Verb, not_here,
};
use crate::parser::lines::{Piece, begins_with, pieces};
use crate::parser::{agent_forms, fields};
use std::alloc::{AllocError, Global};
use stream_ident::{Batch, GrainId, Payload, StreamId};
use stream_model::{Op, Start};

/// What a line is, its line feed and carriage return taken off: a command, a line to pass over, or its
/// first fault.
///
/// `line` is the number that a fault gets. Queue numbers have to be below `queues`.
#[inline(never)]
pub fn parse_line(
    alloc: Global,
    bytes: &[u8],
    line: usize,
    queues: usize,
    mode: Mode,
) -> Result<Parsed, AllocError>
    requires { 1 ≤ queues }
    // It is the reading of the line.
    ensures exact { IfOk result (λ parsed. parsed ≡ reading queues mode line bytes.now) }
    // A command is of a queue that there is.
    ensures within { IfOk result (IsWithin queues) }
    // What is read as a command is written so.
    ensures found { (command : Command) → result ≡ Ok (Parsed.Command command)
        → Reads mode queues bytes.now command }
    // What is written as a command is read as it, unless memory runs out.
    ensures only { (command : Command) → Reads mode queues bytes.now command
        → IfOk result (λ parsed. parsed ≡ Parsed.Command command) }
{
    parsed(alloc, bytes, line, queues, mode)
}

/// What a line is, with its command.
#[inline(never)]
fn parsed(
    alloc: Global,
    bytes: &[u8],
    line: usize,
    queues: usize,
    mode: Mode,
) -> Result<Parsed, AllocError>
    requires { 1 ≤ queues }
    ensures { IfOk result (λ parsed. parsed ≡ reading queues mode line bytes.now) }
{
    let mut command = Command::Drain;
    match read_line(alloc, bytes, line, queues, mode, &mut command)? {
        Ok(true) => Ok(Parsed::Command(command)),
        Ok(false) => Ok(Parsed::Skip),
        Err(fault) => Ok(Parsed::Fault(fault)),
    }
}

/// Whether a line is a command, which then is put in the place of `command`, or its first fault.
#[tactic(auto, unfolding(crate::specs::Reading::reading))]
#[inline(never)]
pub(crate) fn read_line(
    alloc: Global,
    bytes: &[u8],
    line: usize,
    queues: usize,
    mode: Mode,
    command: &mut Command,
) -> Result<Result<bool, Fault>, AllocError>
    requires { 1 ≤ queues }
    ensures { IfOk result (λ read. parsed_as read command.new ≡ reading queues mode line bytes.now) }
{
    if is_skipped(bytes) {
        return Ok(Ok(false));
    }
    match line_command(alloc, bytes, queues, mode, command) {
        Ok(()) => Ok(Ok(true)),
        Err(LineError::Fault(kind)) => Ok(Err(Fault { line, kind })),
        Err(LineError::Memory) => Err(AllocError),
    }
}

/// Whether a line is empty, has spaces only, or is a comment.
fn is_skipped(bytes: &[u8]) -> bool
    ensures { result ≡ is_skipped bytes.now }
{
    are_spaces(bytes) || begins_with(bytes, b'#')
}

/// Whether each byte is a space.
fn are_spaces(bytes: &[u8]) -> bool
    ensures { result ≡ list_all is_space bytes.now }
{
    bytes.iter().all(|byte| *byte == b' ')
}

/// Whether each byte is printable.
pub(crate) fn are_printable(bytes: &[u8]) -> bool
    ensures { result ≡ list_all is_printable bytes.now }
{
    bytes.iter().all(|byte| matches!(*byte, b' '..=b'~'))
}

/// The command of a line that isn't skipped, in the place of `command`.
#[inline(never)]
fn line_command(
    alloc: Global,
    bytes: &[u8],
    queues: usize,
    mode: Mode,
    command: &mut Command,
) -> Result<(), LineError>
    requires { 1 ≤ queues }
    ensures { Gives (λ _. command.new) result (line_command mode queues bytes.now) }
{
    if !are_printable(bytes) {
        return Err(LineError::Fault(FaultKind::BadByte));
    }
    let Some(pieces) = pieces(alloc, bytes)? else {
        return Err(LineError::Fault(FaultKind::BadText));
    };
    of_pieces(alloc, &pieces, queues, mode, command)
}

/// The command of a line's pieces.
#[inline(never)]
fn of_pieces(
    alloc: Global,
    pieces: &[Piece],
    queues: usize,
    mode: Mode,
    command: &mut Command,
) -> Result<(), LineError>
    requires { 1 ≤ queues }
    ensures { Gives (λ _. command.new) result (command_of mode queues (pieces_in pieces.now)) }
{
    let [first, rest @ ..] = pieces else {
        return Err(LineError::Fault(FaultKind::BadCommand));
    };
    let verb = Verb::in_front(first)?;
    if !verb.may_stand(mode) {
        return Err(LineError::Fault(not_here(mode)));
    }
    of_verb(alloc, verb, rest, queues, command)
}

/// The command of a verb and the pieces behind it.
#[inline(never)]
fn of_verb(
    alloc: Global,
    verb: Verb,
    pieces: &[Piece],
    queues: usize,
    command: &mut Command,
) -> Result<(), LineError>
    requires { 1 ≤ queues }
    ensures { Gives (λ _. command.new) result (verb_command verb queues (pieces_in pieces.now)) }
{
    if verb.takes_texts() {
        return publish(alloc, pieces, queues, command);
    }
    let words = fields::words(alloc, pieces)?;
    Ok(of_words(verb, &words, queues, command)?)
}

/// The command of a verb and the words behind it.
#[inline(never)]
fn of_words(
    verb: Verb,
    words: &[&[u8]],
    queues: usize,
    command: &mut Command,
) -> Result<(), FaultKind>
    requires { 1 ≤ queues }
    ensures { Makes command.new result (words_command verb queues (map (λ word. word.now) words.now)) }
{
    match verb {
        // Texts stand behind it.
        Verb::Pub => Err(FaultKind::WordCount),
        Verb::Sub => match words {
            [stream, grain, word] => subscribe_latest(stream, grain, word, queues, command),
            [stream, grain, word, token] => {
                subscribe_from(stream, grain, word, token, queues, command)
            }
            _ => Err(FaultKind::WordCount),
        },
        Verb::Unsub => unsubscribe(words, queues, command),
        Verb::Rule => rule(words, command),
        Verb::Pull => match words {
            [queue, generation, max] => agent_forms::pull(queue, generation, max, queues, command),
            _ => Err(FaultKind::WordCount),
        },
        Verb::Deliver => agent_forms::deliver(words, queues, command),
        Verb::Retry => agent_forms::retry(words, queues, command),
        Verb::Ack => match words {
            [generation, sub, token] => agent_forms::ack(generation, sub, token, queues, command),
            _ => Err(FaultKind::WordCount),
        },
        Verb::Purge => match words {
            [queue, generation, keep] => {
                agent_forms::purge(queue, generation, keep, queues, command)
            }
            _ => Err(FaultKind::WordCount),
        },
        Verb::Move => agent_forms::move_queue(words, queues, command),
        Verb::Begin => match words {
            [queue, grain] => agent_forms::begin_one(queue, grain, queues, command),
            [queue, grain, max] => agent_forms::begin_most(queue, grain, max, queues, command),
            _ => Err(FaultKind::WordCount),
        },
        Verb::Commit => match words {
            [queue, grain, activation, turn, note] => {
                agent_forms::commit(queue, grain, activation, turn, note, queues, command)
            }
            _ => Err(FaultKind::WordCount),
        },
        Verb::Deactivate => agent_forms::deactivate(words, queues, command),
        Verb::Ready => match words {
            [queue] => agent_forms::ready_first(queue, queues, command),
            [queue, grain] => agent_forms::ready_after(queue, grain, queues, command),
            _ => Err(FaultKind::WordCount),
        },
        Verb::Due => match words {
            [queue] => agent_forms::due_first(queue, queues, command),
            [queue, sub] => agent_forms::due_after(queue, sub, queues, command),
            _ => Err(FaultKind::WordCount),
        },
        Verb::Report => report(words, command),
        Verb::Quiet => quiet(words, command),
        Verb::Drain => drain(words, command),
        Verb::Up => up(words, command),
        Verb::Down => down(words, command),
    }
}

/// `report`
#[inline(never)]
fn report(words: &[&[u8]], command: &mut Command) -> Result<(), FaultKind>
    ensures { Makes command.new result (alone Command.Report (map (λ word. word.now) words.now)) }
{
    alone(Command::Report, words, command)
}

/// `quiet`
#[inline(never)]
fn quiet(words: &[&[u8]], command: &mut Command) -> Result<(), FaultKind>
    ensures { Makes command.new result (alone (Command.Each EachOp.Quiet) (map (λ word. word.now) words.now)) }
{
    alone(Command::Each(EachOp::Quiet), words, command)
}

/// `drain`
#[inline(never)]
fn drain(words: &[&[u8]], command: &mut Command) -> Result<(), FaultKind>
    ensures { Makes command.new result (alone Command.Drain (map (λ word. word.now) words.now)) }
{
    alone(Command::Drain, words, command)
}

/// A command whose word stands alone.
fn alone(made: Command, words: &[&[u8]], command: &mut Command) -> Result<(), FaultKind>
    ensures { Makes command.new result (alone made (map (λ word. word.now) words.now)) }
{
    if !words.is_empty() {
        return Err(FaultKind::WordCount);
    }
    *command = made;
    Ok(())
}

/// `pub STREAM TEXT ..`
#[inline(never)]
fn publish(
    alloc: Global,
    pieces: &[Piece],
    queues: usize,
    command: &mut Command,
) -> Result<(), LineError>
    requires { 1 ≤ queues }
    ensures { Gives (λ _. command.new) result (pub_command queues (pieces_in pieces.now)) }
{
    let [first, rest @ ..] = pieces else {
        return Err(LineError::Fault(FaultKind::WordCount));
    };
    let stream = fields::word(first)?;
    let texts = fields::texts(alloc, rest)?;
    publish_fields(alloc, stream, &texts, queues, command)
}

#[tactic(auto, unfolding(crate::specs::Forms::pub_fields))]
#[inline(never)]
fn publish_fields(
    alloc: Global,
    stream: &[u8],
    texts: &[&[u8]],
    queues: usize,
    command: &mut Command,
) -> Result<(), LineError>
    requires { 1 ≤ queues }
    ensures { Gives (λ _. command.new) result (pub_fields queues stream.now (map (λ text. text.now) texts.now)) }
{
    let stream = fields::stream(stream)?;
    let payloads = fields::payloads(alloc, texts)?;
    *command = publication(stream, payloads, queues);
    Ok(())
}

/// A batch for the stream's queue.
#[inline(never)]
fn publication(stream: StreamId, payloads: Vec<Payload>, queues: usize) -> Command
    requires { 1 ≤ queues }
    ensures { result ≡ Command.Step (queue_of stream queues) (Op.Publish stream payloads.items) }
{
    let queue = fields::queue_of(&stream, queues);
    Command::on_queue(
        queue,
        Op::Publish {
            stream,
            payloads: Batch::of(payloads),
        },
    )
}

/// `sub STREAM GRAIN latest`
#[tactic(auto, unfolding(crate::specs::Forms::sub_latest))]
#[inline(never)]
fn subscribe_latest(
    stream: &[u8],
    grain: &[u8],
    word: &[u8],
    queues: usize,
    command: &mut Command,
) -> Result<(), FaultKind>
    requires { 1 ≤ queues }
    ensures { Makes command.new result (sub_latest queues stream.now grain.now word.now) }
{
    let stream = fields::stream(stream)?;
    let grain = fields::grain(grain)?;
    if word != b"latest".as_slice() {
        return Err(FaultKind::BadCommand);
    }
    *command = subscription(stream, grain, Start::Latest, queues);
    Ok(())
}

/// `sub STREAM GRAIN from TOKEN`
#[tactic(auto, unfolding(crate::specs::Forms::sub_from))]
#[inline(never)]
fn subscribe_from(
    stream: &[u8],
    grain: &[u8],
    word: &[u8],
    token: &[u8],
    queues: usize,
    command: &mut Command,
) -> Result<(), FaultKind>
    requires { 1 ≤ queues }
    ensures { Makes command.new result (sub_from queues stream.now grain.now word.now token.now) }
{
    let stream = fields::stream(stream)?;
    let grain = fields::grain(grain)?;
    if word != b"from".as_slice() {
        return Err(FaultKind::BadCommand);
    }
    let token = fields::token(token)?;
    *command = subscription(stream, grain, Start::At(token), queues);
    Ok(())
}

/// A subscription on the stream's queue.
fn subscription(stream: StreamId, grain: GrainId, start: Start, queues: usize) -> Command
    requires { 1 ≤ queues }
    ensures { result ≡ Command.Step (queue_of stream queues) (Op.Subscribe stream grain start) }
{
    let queue = fields::queue_of(&stream, queues);
    Command::on_queue(
        queue,
        Op::Subscribe {
            stream,
            grain,
            start,
        },
    )
}

/// `unsub SUB`
#[tactic(auto, unfolding(crate::specs::Forms::unsub_words))]
#[inline(never)]
fn unsubscribe(words: &[&[u8]], queues: usize, command: &mut Command) -> Result<(), FaultKind>
    ensures { Makes command.new result (unsub_words queues (map (λ word. word.now) words.now)) }
{
    let [sub] = words else {
        return Err(FaultKind::WordCount);
    };
    let (queue, sub) = fields::sub(sub, queues)?;
    *command = Command::on_queue(queue, Op::Unsubscribe { sub });
    Ok(())
}

/// `rule KIND NS`
#[tactic(auto, unfolding(crate::specs::Forms::rule_words))]
#[inline(never)]
fn rule(words: &[&[u8]], command: &mut Command) -> Result<(), FaultKind>
    ensures { Makes command.new result (rule_words (map (λ word. word.now) words.now)) }
{
    let [kind, namespace] = words else {
        return Err(FaultKind::WordCount);
    };
    let kind = fields::bare_name(kind)?;
    let namespace = fields::bare_name(namespace)?;
    *command = Command::Each(EachOp::Rule { kind, namespace });
    Ok(())
}

/// `up SILO`
#[tactic(auto, unfolding(crate::specs::Forms::up_words))]
#[inline(never)]
fn up(words: &[&[u8]], command: &mut Command) -> Result<(), FaultKind>
    ensures { Makes command.new result (up_words (map (λ word. word.now) words.now)) }
{
    let [silo] = words else {
        return Err(FaultKind::WordCount);
    };
    let silo = fields::silo(silo)?;
    *command = Command::Up { silo };
    Ok(())
}

/// `down SILO`
#[tactic(auto, unfolding(crate::specs::Forms::down_words))]
#[inline(never)]
fn down(words: &[&[u8]], command: &mut Command) -> Result<(), FaultKind>
    ensures { Makes command.new result (down_words (map (λ word. word.now) words.now)) }
{
    let [silo] = words else {
        return Err(FaultKind::WordCount);
    };
    let silo = fields::silo(silo)?;
    *command = Command::Down { silo };
    Ok(())
}
