//! What stands behind the verbs of pulling agents and workers.
ghost use Rattle.std.specs.Prelude.{map};
ghost use Rattle.stream_script.specs.Reading.{Makes};
ghost use Rattle.stream_script.specs.Forms.{pull_fields, deliver_words, retry_words, ack_fields, purge_fields, move_words, begin_one, begin_most, commit_fields, deactivate_words, ready_first, ready_after, due_first, due_after};

use crate::parser::command::{Command, FaultKind};
use crate::parser::fields;
use stream_model::Op;

/// `pull Q GEN MAX`
#[tactic(auto, unfolding(crate::specs::Forms::pull_fields))]
#[inline(never)]
pub(crate) fn pull(
    queue: &[u8],
    generation: &[u8],
    max: &[u8],
    queues: usize,
    command: &mut Command,
) -> Result<(), FaultKind>
    ensures { Makes command.new result (pull_fields queues queue.now generation.now max.now) }
{
    let queue = fields::queue(queue, queues)?;
    let generation = fields::number(generation)?;
    let max = fields::short_number(max)?;
    *command = Command::on_queue(queue, Op::Pull { generation, max });
    Ok(())
}

/// `deliver GEN SUB`
#[tactic(auto, unfolding(crate::specs::Forms::deliver_words))]
#[inline(never)]
pub(crate) fn deliver(
    words: &[&[u8]],
    queues: usize,
    command: &mut Command,
) -> Result<(), FaultKind>
    ensures { Makes command.new result (deliver_words queues (map (λ word. word.now) words.now)) }
{
    let [generation, sub] = words else {
        return Err(FaultKind::WordCount);
    };
    let generation = fields::number(generation)?;
    let (queue, sub) = fields::sub(sub, queues)?;
    *command = Command::on_queue(queue, Op::Deliver { generation, sub });
    Ok(())
}

/// `retry GEN SUB`
#[tactic(auto, unfolding(crate::specs::Forms::retry_words))]
#[inline(never)]
pub(crate) fn retry(words: &[&[u8]], queues: usize, command: &mut Command) -> Result<(), FaultKind>
    ensures { Makes command.new result (retry_words queues (map (λ word. word.now) words.now)) }
{
    let [generation, sub] = words else {
        return Err(FaultKind::WordCount);
    };
    let generation = fields::number(generation)?;
    let (queue, sub) = fields::sub(sub, queues)?;
    *command = Command::on_queue(queue, Op::Retry { generation, sub });
    Ok(())
}

/// `ack GEN SUB TOKEN`
#[tactic(auto, unfolding(crate::specs::Forms::ack_fields))]
#[inline(never)]
pub(crate) fn ack(
    generation: &[u8],
    sub: &[u8],
    token: &[u8],
    queues: usize,
    command: &mut Command,
) -> Result<(), FaultKind>
    ensures { Makes command.new result (ack_fields queues generation.now sub.now token.now) }
{
    let generation = fields::number(generation)?;
    let (queue, sub) = fields::sub(sub, queues)?;
    let token = fields::token(token)?;
    *command = Command::on_queue(
        queue,
        Op::Ack {
            generation,
            sub,
            token,
        },
    );
    Ok(())
}

/// `purge Q GEN KEEP`
#[tactic(auto, unfolding(crate::specs::Forms::purge_fields))]
#[inline(never)]
pub(crate) fn purge(
    queue: &[u8],
    generation: &[u8],
    keep: &[u8],
    queues: usize,
    command: &mut Command,
) -> Result<(), FaultKind>
    ensures { Makes command.new result (purge_fields queues queue.now generation.now keep.now) }
{
    let queue = fields::queue(queue, queues)?;
    let generation = fields::number(generation)?;
    let keep = fields::short_number(keep)?;
    *command = Command::on_queue(queue, Op::Purge { generation, keep });
    Ok(())
}

/// `move Q SILO`
#[tactic(auto, unfolding(crate::specs::Forms::move_words))]
#[inline(never)]
pub(crate) fn move_queue(
    words: &[&[u8]],
    queues: usize,
    command: &mut Command,
) -> Result<(), FaultKind>
    ensures { Makes command.new result (move_words queues (map (λ word. word.now) words.now)) }
{
    let [queue, silo] = words else {
        return Err(FaultKind::WordCount);
    };
    let queue = fields::queue(queue, queues)?;
    let silo = fields::silo(silo)?;
    *command = Command::on_queue(queue, Op::Move { silo });
    Ok(())
}

/// `begin Q GRAIN`
#[tactic(auto, unfolding(crate::specs::Forms::begin_one))]
#[inline(never)]
pub(crate) fn begin_one(
    queue: &[u8],
    grain: &[u8],
    queues: usize,
    command: &mut Command,
) -> Result<(), FaultKind>
    ensures { Makes command.new result (begin_one queues queue.now grain.now) }
{
    let queue = fields::queue(queue, queues)?;
    let grain = fields::grain(grain)?;
    *command = Command::on_queue(queue, Op::Begin { grain, max: 1 });
    Ok(())
}

/// `begin Q GRAIN MAX`
#[tactic(auto, unfolding(crate::specs::Forms::begin_most))]
#[inline(never)]
pub(crate) fn begin_most(
    queue: &[u8],
    grain: &[u8],
    max: &[u8],
    queues: usize,
    command: &mut Command,
) -> Result<(), FaultKind>
    ensures { Makes command.new result (begin_most queues queue.now grain.now max.now) }
{
    let queue = fields::queue(queue, queues)?;
    let grain = fields::grain(grain)?;
    let max = fields::short_number(max)?;
    *command = Command::on_queue(queue, Op::Begin { grain, max });
    Ok(())
}

/// `commit Q GRAIN ACTIVATION TURN NOTE`
#[tactic(auto, unfolding(crate::specs::Forms::commit_fields))]
#[inline(never)]
pub(crate) fn commit(
    queue: &[u8],
    grain: &[u8],
    activation: &[u8],
    turn: &[u8],
    note: &[u8],
    queues: usize,
    command: &mut Command,
) -> Result<(), FaultKind>
    ensures { Makes command.new result (commit_fields queues queue.now grain.now activation.now turn.now note.now) }
{
    let queue = fields::queue(queue, queues)?;
    let grain = fields::grain(grain)?;
    let activation = fields::number(activation)?;
    let turn = fields::number(turn)?;
    let note = fields::number(note)?;
    *command = Command::on_queue(
        queue,
        Op::Commit {
            grain,
            activation,
            turn,
            note,
        },
    );
    Ok(())
}

/// `deactivate Q GRAIN`
#[tactic(auto, unfolding(crate::specs::Forms::deactivate_words))]
#[inline(never)]
pub(crate) fn deactivate(
    words: &[&[u8]],
    queues: usize,
    command: &mut Command,
) -> Result<(), FaultKind>
    ensures { Makes command.new result (deactivate_words queues (map (λ word. word.now) words.now)) }
{
    let [queue, grain] = words else {
        return Err(FaultKind::WordCount);
    };
    let queue = fields::queue(queue, queues)?;
    let grain = fields::grain(grain)?;
    *command = Command::on_queue(queue, Op::Deactivate { grain });
    Ok(())
}

/// `ready Q`
#[tactic(auto, unfolding(crate::specs::Forms::ready_first))]
#[inline(never)]
pub(crate) fn ready_first(
    queue: &[u8],
    queues: usize,
    command: &mut Command,
) -> Result<(), FaultKind>
    ensures { Makes command.new result (ready_first queues queue.now) }
{
    let queue = fields::queue(queue, queues)?;
    *command = Command::on_queue(queue, Op::Ready { after: None });
    Ok(())
}

/// `ready Q GRAIN`
#[tactic(auto, unfolding(crate::specs::Forms::ready_after))]
#[inline(never)]
pub(crate) fn ready_after(
    queue: &[u8],
    grain: &[u8],
    queues: usize,
    command: &mut Command,
) -> Result<(), FaultKind>
    ensures { Makes command.new result (ready_after queues queue.now grain.now) }
{
    let queue = fields::queue(queue, queues)?;
    let after = Some(fields::grain(grain)?);
    *command = Command::on_queue(queue, Op::Ready { after });
    Ok(())
}

/// `due Q`
#[tactic(auto, unfolding(crate::specs::Forms::due_first))]
#[inline(never)]
pub(crate) fn due_first(queue: &[u8], queues: usize, command: &mut Command) -> Result<(), FaultKind>
    ensures { Makes command.new result (due_first queues queue.now) }
{
    let queue = fields::queue(queue, queues)?;
    *command = Command::on_queue(queue, Op::Due { after: None });
    Ok(())
}

/// `due Q SUB`
#[tactic(auto, unfolding(crate::specs::Forms::due_after))]
#[inline(never)]
pub(crate) fn due_after(
    queue: &[u8],
    sub: &[u8],
    queues: usize,
    command: &mut Command,
) -> Result<(), FaultKind>
    ensures { Makes command.new result (due_after queues queue.now sub.now) }
{
    let queue = fields::queue(queue, queues)?;
    let after = Some(fields::own_sub(sub, queue, queues)?);
    *command = Command::on_queue(queue, Op::Due { after });
    Ok(())
}
