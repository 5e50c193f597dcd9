//! The calls of a partition.
use crate::came::{Came, Stop, check, with_memory};
use crate::trying::{Tried, try_call};
use std::alloc::{AllocError, Global};
use step_core::{DrainEnd, Limits, Op, Partition, Quiet, Reply};
use stream_script::{Command, Mode, Parsed, parse_line};

/// The way of an event, up to its commit.
pub(crate) const STORY: [&str; 7] = [
    "rule log o",
    "sub o/k g/x latest",
    "pub o/k \"a\"",
    "pull 0 0 32",
    "deliver 0 0:1",
    "begin 0 g/x",
    "commit 0 g/x 1 1 1",
];

/// A cache of two blocks, of which nobody needs one.
pub(crate) const BLOCKS: [&str; 3] = [
    r#"pub o/k "a" "a" "a" "a" "a" "a" "a" "a" "a" "a" "a" "a" "a" "a" "a" "a" "a" "a" "a" "a" "a" "a" "a" "a" "a" "a" "a" "a" "a" "a" "a" "a" "a" "a" "a" "a" "a" "a" "a" "a" "a" "a" "a" "a" "a" "a" "a" "a" "a" "a" "a" "a" "a" "a" "a" "a" "a" "a" "a" "a" "a" "a" "a" "a""#,
    "pub o/k \"b\"",
    "pull 0 0 65",
];

/// How many lines of the story stand before the drain.
const PUBLISHED: usize = 3;

/// The operations of a drain behind these lines.
const DRAINED: [&str; 13] = [
    "deliver 0 0:1",
    "pull 0 0 32",
    "deliver 0 0:1",
    "begin 0 g/x 1",
    "commit 0 g/x 1 1 1",
    "ack 0 0:1 0.0",
    "deliver 0 0:1",
    "deliver 0 0:log@o/k",
    "begin 0 log/k 1",
    "commit 0 log/k 1 2 1",
    "ack 0 0:log@o/k 0.0",
    "deliver 0 0:log@o/k",
    "pull 0 0 32",
];

/// The operation of a line on a partition, and how its reply begins.
struct Step {
    partition: Partition,
    op: Op,
    reply: &'static str,
}

impl Drop for Step {
    fn drop(self) {
        let Self {
            partition: _,
            op: _,
            reply: _,
        } = self;
    }
}

impl Tried for Step {
    type Answer = Reply;

    fn call(&mut self, alloc: Global) -> Result<Reply, AllocError> {
        self.partition.apply(alloc, &self.op)
    }

    fn is_right(&self, alloc: Global, answer: &Reply, wanted: &Reply) -> Result<bool, AllocError> {
        let text = format!(in alloc; "{answer:?}")?;
        Ok(answer == wanted && text.as_str().starts_with(self.reply))
    }

    fn is_like(&mut self, alloc: Global, twin: &mut Step) -> Result<bool, AllocError> {
        are_alike(alloc, &mut self.partition, &mut twin.partition)
    }
}

/// Whether the same is seen of two partitions.
fn are_alike(alloc: Global, one: &mut Partition, twin: &mut Partition) -> Result<bool, AllocError> {
    Ok(
        looks_alike(one, twin)
            && reply_alike(alloc, one, twin, &Op::Ready { after: None })?
            && reply_alike(alloc, one, twin, &Op::Due { after: None })?
            && have_handled_alike(alloc, one, twin)?,
    )
}

fn looks_alike(one: &Partition, twin: &Partition) -> bool {
    one.quiet() == twin.quiet()
        && one.low_token() == twin.low_token()
        && one.high_token() == twin.high_token()
        && one.agent() == twin.agent()
}

/// Whether both reply alike to an operation.
fn reply_alike(
    alloc: Global,
    one: &mut Partition,
    twin: &mut Partition,
    op: &Op,
) -> Result<bool, AllocError> {
    Ok(one.apply(alloc, op)? == twin.apply(alloc, op)?)
}

/// Whether both have the same subscriptions, each of which has handled the same.
fn have_handled_alike(
    alloc: Global,
    one: &Partition,
    twin: &Partition,
) -> Result<bool, AllocError> {
    let subs = one.subs(alloc)?;
    if subs.as_slice() != twin.subs(alloc)?.as_slice() {
        return Ok(false);
    }
    for sub in &subs {
        let handled = one.handled(alloc, &sub.name)?;
        if handled.as_slice() != twin.handled(alloc, &sub.name)?.as_slice() {
            return Ok(false);
        }
    }
    Ok(true)
}

/// The operation of a line.
fn op_of(alloc: Global, line: &str) -> Result<Op, Stop> {
    match parse_line(alloc, line.as_bytes(), 1, 1, Mode::Sim)? {
        Parsed::Command(Command::Step { queue: _, op }) => Ok(op),
        Parsed::Command(Command::Each(each)) => Ok(each.op()),
        _ => Err(Stop::Wrong("a line of the case asks for no operation")),
    }
}

/// The operations of some lines.
fn ops_of(alloc: Global, lines: &[&str]) -> Result<Vec<Op>, Stop> {
    let mut ops = Vec::new(alloc);
    for line in lines {
        ops.push(op_of(alloc, line)?)?;
    }
    Ok(ops)
}

/// A partition to which the operations of some lines were done.
fn partition_after(alloc: Global, lines: &[&str]) -> Result<Partition, Stop> {
    let mut partition = Partition::new(alloc, 4, Limits::GREATEST)?;
    for line in lines {
        let _reply = partition.apply(alloc, &op_of(alloc, line)?)?;
    }
    Ok(partition)
}

/// Does the operations of some lines to both, and drains both.
fn go_on(
    alloc: Global,
    one: &mut Partition,
    twin: &mut Partition,
    lines: &[&str],
) -> Result<(), Stop> {
    for line in lines {
        let op = op_of(alloc, line)?;
        check(
            reply_alike(alloc, one, twin, &op)?,
            "an operation behind it is replied to otherwise",
        )?;
    }
    check(
        one.drain(alloc)? == twin.drain(alloc)? && are_alike(alloc, one, twin)?,
        "it drains otherwise",
    )
}

/// Tries the operation of a line behind others.
pub(crate) fn try_step(
    alloc: Global,
    before: &[&str],
    line: &str,
    reply: &'static str,
) -> Result<Came, Stop> {
    let mut one = Step {
        partition: partition_after(alloc, before)?,
        op: op_of(alloc, line)?,
        reply,
    };
    let mut twin = Step {
        partition: partition_after(alloc, before)?,
        op: op_of(alloc, line)?,
        reply,
    };
    let came = try_call(alloc, &mut one, &mut twin)?;
    go_on(alloc, &mut one.partition, &mut twin.partition, &[])?;
    Ok(came)
}

/// Tries a run of the story.
pub(crate) fn try_run(alloc: Global) -> Result<Came, Stop> {
    let mut one = partition_after(alloc, &[])?;
    let mut twin = partition_after(alloc, &[])?;
    let ops = ops_of(alloc, &STORY)?;
    let mut replies = Vec::new(alloc);
    match one.run(alloc, ops, &mut replies) {
        Ok(()) => {
            check(
                replies.len() == STORY.len(),
                "a run has left an operation out",
            )?;
            follow_run(alloc, &mut one, &mut twin, &replies)?;
            Ok(Came::Done)
        }
        Err(AllocError) => with_memory(follow_run(alloc, &mut one, &mut twin, &replies)),
    }
}

/// Those operations are done that have a reply, and no other. The others can be done then.
fn follow_run(
    alloc: Global,
    one: &mut Partition,
    twin: &mut Partition,
    replies: &[Reply],
) -> Result<(), Stop> {
    let (done, left) = STORY.split_at(replies.len().min(STORY.len()));
    for (line, reply) in done.iter().zip(replies) {
        let op = op_of(alloc, line)?;
        check(
            twin.apply(alloc, &op)? == *reply,
            "a run has replied otherwise",
        )?;
    }
    check(
        are_alike(alloc, one, twin)?,
        "a run has done something else",
    )?;
    go_on(alloc, one, twin, left)
}

/// Tries a drain.
pub(crate) fn try_drain(alloc: Global) -> Result<Came, Stop> {
    let mut one = partition_after(alloc, &STORY[..PUBLISHED])?;
    let mut twin = partition_after(alloc, &STORY[..PUBLISHED])?;
    match one.drain(alloc) {
        Ok(end) => {
            check(
                end == DrainEnd::Drained { turns: 2 } && one.quiet() == Quiet::Yes,
                "a drain has left something to do",
            )?;
            follow_drain(alloc, &mut one, &mut twin)?;
            Ok(Came::Done)
        }
        Err(AllocError) => with_memory(follow_drain(alloc, &mut one, &mut twin)),
    }
}

/// The first operations of the drain are done, and no other. The others can be done then.
fn follow_drain(alloc: Global, one: &mut Partition, twin: &mut Partition) -> Result<(), Stop> {
    for (done, line) in DRAINED.iter().enumerate() {
        if are_alike(alloc, one, twin)? {
            return go_on(alloc, one, twin, &DRAINED[done..]);
        }
        let _reply = twin.apply(alloc, &op_of(alloc, line)?)?;
    }
    check(
        are_alike(alloc, one, twin)?,
        "a drain has done something else",
    )
}
