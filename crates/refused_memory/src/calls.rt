//! The calls of a directory, of the balancer of queues, and of the parser of a line.
use crate::came::{Came, Stop};
use crate::trying::{Tried, try_call};
use activation_directory::{Directory, DirectoryOp, DirectoryReply};
use queue_balancer::{Assignment, RebalanceError, rebalance};
use std::alloc::{AllocError, Global};
use std::fmt::Debug;
use stream_ident::{BadName, GrainId};
use stream_script::{Mode, Parsed, parse_line};

/// An operation on a directory: on an empty one, or on one in which three grains are placed on silo 0, the first without
/// its permit.
#[derive(Clone, Copy)]
pub(crate) enum Placing {
    /// The first grain comes, for which there is no room yet.
    Enter,
    /// The permit of the second one is given back.
    Leave,
    /// The first one is taken out.
    Unplace,
    /// The silo goes.
    Down,
}

/// An operation, and how its reply reads.
struct Place {
    directory: Directory,
    op: DirectoryOp,
    reply: &'static str,
}

impl Drop for Place {
    fn drop(self) {
        let Self {
            directory: _,
            op: _,
            reply: _,
        } = self;
    }
}

/// Whether two values read alike.
fn read_alike<T: Debug>(alloc: Global, one: &T, other: &T) -> Result<bool, AllocError> {
    let text = format!(in alloc; "{one:?}")?;
    let wanted = format!(in alloc; "{other:?}")?;
    Ok(text == wanted)
}

impl Tried for Place {
    type Answer = DirectoryReply;

    fn call(&mut self, alloc: Global) -> Result<DirectoryReply, AllocError> {
        self.directory.step(alloc, self.op)
    }

    fn is_right(
        &self,
        alloc: Global,
        answer: &DirectoryReply,
        wanted: &DirectoryReply,
    ) -> Result<bool, AllocError> {
        let text = format!(in alloc; "{answer:?}")?;
        Ok(answer == wanted && text.as_str() == self.reply)
    }

    fn is_like(&mut self, alloc: Global, twin: &mut Place) -> Result<bool, AllocError> {
        read_alike(alloc, &self.directory, &twin.directory)
    }
}

/// The grain with a key.
pub(crate) fn grain(key: u8) -> Result<GrainId, BadName> {
    GrainId::new(b"g", &[key])
}

/// The operation.
fn operation(what: Placing) -> Result<DirectoryOp, BadName> {
    Ok(match what {
        Placing::Enter => DirectoryOp::Enter {
            grain: grain(b'd')?,
            silo: 0,
        },
        Placing::Leave => DirectoryOp::Leave {
            grain: grain(b'b')?,
            permit: 2,
        },
        Placing::Unplace => DirectoryOp::Unplace {
            grain: grain(b'a')?,
        },
        Placing::Down => DirectoryOp::Down { silo: 0 },
    })
}

/// A directory before an operation.
fn place_before(alloc: Global, what: Placing, reply: &'static str) -> Result<Place, Stop> {
    let placed = match what {
        Placing::Enter => 0,
        Placing::Leave | Placing::Unplace | Placing::Down => 3,
    };
    let mut directory = Directory::new(alloc, 1000);
    for key in b"abc".iter().take(placed) {
        let grain = grain(*key)?;
        let _reply = directory.step(alloc, DirectoryOp::Enter { grain, silo: 0 })?;
    }
    let first = DirectoryOp::Leave {
        grain: grain(b'a')?,
        permit: 1,
    };
    let _reply = directory.step(alloc, first)?;
    Ok(Place {
        directory,
        op: operation(what)?,
        reply,
    })
}

/// Tries an operation on a directory.
pub(crate) fn try_placing(alloc: Global, what: Placing, reply: &'static str) -> Result<Came, Stop> {
    let mut one = place_before(alloc, what, reply)?;
    let mut twin = place_before(alloc, what, reply)?;
    try_call(alloc, &mut one, &mut twin)
}

/// Four queues of a silo, of which another one gets two.
#[derive(Clone, Copy)]
struct Balance;

impl Tried for Balance {
    type Answer = Assignment;

    fn call(&mut self, alloc: Global) -> Result<Assignment, AllocError> {
        match rebalance(alloc, &[7, 7, 7, 7], &[7, 3]) {
            Ok(new) => Ok(new),
            Err(RebalanceError::NoSilo) => unreachable!(),
            Err(RebalanceError::Memory(wanting)) => Err(wanting),
        }
    }

    fn is_right(
        &self,
        _alloc: Global,
        answer: &Assignment,
        wanted: &Assignment,
    ) -> Result<bool, AllocError> {
        let moved = answer.as_slice().iter().filter(|silo| **silo == 3).count();
        Ok(answer.as_slice() == wanted.as_slice() && moved == 2)
    }

    fn is_like(&mut self, _alloc: Global, _twin: &mut Balance) -> Result<bool, AllocError> {
        Ok(true)
    }
}

/// Tries to spread queues.
pub(crate) fn try_balance(alloc: Global) -> Result<Came, Stop> {
    try_call(alloc, &mut Balance, &mut Balance)
}

/// A line, and how its command reads.
#[derive(Clone, Copy)]
struct Line;

const COMMAND: &str =
    r#"Command(Step { queue: 0, op: Publish { stream: StreamId { namespace: o, key: k }, payloads: Batch { payloads: [a, b"c] } } })"#;

impl Tried for Line {
    type Answer = Parsed;

    fn call(&mut self, alloc: Global) -> Result<Parsed, AllocError> {
        parse_line(alloc, br#"pub o/k "a" "b\"c""#, 1, 1, Mode::Sim)
    }

    fn is_right(
        &self,
        alloc: Global,
        answer: &Parsed,
        wanted: &Parsed,
    ) -> Result<bool, AllocError> {
        let text = format!(in alloc; "{answer:?}")?;
        Ok(text.as_str() == COMMAND && read_alike(alloc, answer, wanted)?)
    }

    fn is_like(&mut self, _alloc: Global, _twin: &mut Line) -> Result<bool, AllocError> {
        Ok(true)
    }
}

/// Tries to read a line.
pub(crate) fn try_line(alloc: Global) -> Result<Came, Stop> {
    try_call(alloc, &mut Line, &mut Line)
}
