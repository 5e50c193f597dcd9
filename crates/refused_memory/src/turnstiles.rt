//! The calls of a turnstile, over a directory.
ghost use Rattle.turnstile.specs.Calls.{IsOf};

use crate::calls::grain;
use crate::came::{Came, Stop, check, with_memory};
use activation_directory::{DirectoryOp, DirectoryReply};
use shared_partition::{DirectoryHistory, SharedDirectory};
use std::alloc::{AllocError, Global};
use std::sync::Wait;
use stream_ident::GrainId;
use turnstile::{Closed, Entry, PassOf, PlainHistory, Refusal, Replays, Traced, Turnstile};

/// How the calls are stored.
type Calls = PlainHistory<DirectoryOp, DirectoryReply>;

/// The keys of grains, in the order in which they enter.
const KEYS: &[u8; 4] = b"abcd";

/// A turnstile over a directory, and its first pass.
#[derive(Drop)]
struct Desk<H: DirectoryHistory> {
    turnstile: Turnstile<SharedDirectory<H>>,
    pass: PassOf<SharedDirectory<H>>,
    ghost own: { IsOf turnstile pass },
}

impl<H: DirectoryHistory> Desk<H> {
    /// A turnstile over an empty directory, with a history of ten entries at most.
    fn new(alloc: Global) -> Result<Desk<H>, AllocError> {
        let (turnstile, pass) = Turnstile::new(alloc, SharedDirectory::new(alloc, 1000), 10)?;
        Ok(Desk { turnstile, pass })
    }

    /// One at which so many grains have entered.
    fn used<R: Wait>(rt: &R, alloc: Global, calls: usize) -> Result<Desk<H>, Stop> {
        let mut desk = Desk::new(alloc)?;
        for key in KEYS.iter().take(calls) {
            desk.enter_key(rt, alloc, *key)?;
        }
        Ok(desk)
    }

    /// The grain with a key enters.
    fn enter_key<R: Wait>(&mut self, rt: &R, alloc: Global, key: u8) -> Result<(), Stop> {
        let grain = grain(key)?;
        let _reply = self.enter(rt, alloc, grain)?;
        Ok(())
    }

    /// A grain enters by the first pass.
    fn enter<R: Wait>(
        &mut self,
        rt: &R,
        alloc: Global,
        grain: GrainId,
    ) -> Result<DirectoryReply, Refusal> {
        enter(rt, alloc, &self.turnstile, &mut self.pass, grain)
    }

    /// A grain enters here and at another one. Whether the answers are equal.
    fn enter_both<R: Wait>(
        &mut self,
        rt: &R,
        alloc: Global,
        twin: &mut Desk<H>,
        grain: GrainId,
    ) -> Result<bool, Refusal> {
        Ok(self.enter(rt, alloc, grain)? == twin.enter(rt, alloc, grain)?)
    }

    /// A grain enters by a pass that is split off, and both are given back.
    fn close_both<R: Wait>(
        self,
        rt: &R,
        alloc: Global,
        grain: GrainId,
    ) -> Result<Traced<SharedDirectory<H>>, Stop> {
        let Desk {
            turnstile,
            mut pass,
        } = self;
        let Ok(mut second) = turnstile.split(&mut pass) else {
            return Err(Stop::Wrong("no pass is split off"));
        };
        let _reply = enter(rt, alloc, &turnstile, &mut second, grain)?;
        turnstile.join(&mut pass, second);
        Desk { turnstile, pass }.close(alloc)
    }

    /// All that was done.
    fn close(self, alloc: Global) -> Result<Traced<SharedDirectory<H>>, Stop> {
        let Desk { turnstile, pass } = self;
        let mut passes = Vec::with_capacity(alloc, 1)?;
        passes.push_reserved(pass);
        match turnstile.close(passes) {
            Closed::Traced(done) => Ok(done),
            _ => Err(Stop::Wrong("a pass is missing")),
        }
    }
}

/// A grain enters by a pass.
fn enter<H: DirectoryHistory, R: Wait>(
    rt: &R,
    alloc: Global,
    turnstile: &Turnstile<SharedDirectory<H>>,
    pass: &mut PassOf<SharedDirectory<H>>,
    grain: GrainId,
) -> Result<DirectoryReply, Refusal>
    requires { IsOf turnstile.now pass.old }
    ensures { IsOf turnstile.now pass.new }
{
    turnstile.call(rt, alloc, pass, DirectoryOp::Enter { grain, silo: 0 })
}

/// Stops unless two histories have the same entries, and their directories go on alike.
fn compare(
    alloc: Global,
    mut one: Traced<SharedDirectory<Calls>>,
    mut twin: Traced<SharedDirectory<Calls>>,
) -> Result<(), Stop> {
    check(
        are_equal(one.history.as_slice(), twin.history.as_slice()),
        "the history is another one",
    )?;
    let op = DirectoryOp::Enter {
        grain: grain(b'z')?,
        silo: 0,
    };
    check(
        one.object.apply(alloc, &op, &mut ())? == twin.object.apply(alloc, &op, &mut ())?,
        "the directory goes on otherwise",
    )
}

/// Whether two histories have the same entries.
fn are_equal(
    one: &[Entry<DirectoryOp, DirectoryReply>],
    twin: &[Entry<DirectoryOp, DirectoryReply>],
) -> bool {
    one.len() == twin.len()
        && one.iter().zip(twin).all(|(entry, other)| {
            entry.number == other.number && entry.op == other.op && entry.reply == other.reply
        })
}

/// Tries to make a turnstile. Where memory is refused the directory is dropped, and the next one gets an equal one.
pub(crate) fn try_new<R: Wait>(rt: &R, alloc: Global) -> Result<Came, Stop> {
    match Desk::new(alloc) {
        Ok(desk) => {
            follow_new(rt, alloc, desk)?;
            Ok(Came::Done)
        }
        Err(AllocError) => with_memory(new_again(rt, alloc)),
    }
}

fn new_again<R: Wait>(rt: &R, alloc: Global) -> Result<(), Stop> {
    follow_new(rt, alloc, Desk::new(alloc)?)
}

/// A new turnstile answers as another one.
fn follow_new<R: Wait>(rt: &R, alloc: Global, mut one: Desk<Calls>) -> Result<(), Stop> {
    let mut twin = Desk::new(alloc)?;
    let first = grain(b'a')?;
    check(
        one.enter_both(rt, alloc, &mut twin, first)?,
        "a new turnstile answers otherwise",
    )?;
    close_alike(alloc, one, twin)
}

/// Closes two turnstiles, which have the same history.
fn close_alike(alloc: Global, one: Desk<Calls>, twin: Desk<Calls>) -> Result<(), Stop> {
    let one = one.close(alloc)?;
    compare(alloc, one, twin.close(alloc)?)
}

/// Tries to split a pass off.
pub(crate) fn try_split<R: Wait>(rt: &R, alloc: Global) -> Result<Came, Stop> {
    let one = Desk::used(rt, alloc, 4)?;
    let twin = Desk::used(rt, alloc, 4)?;
    let next = grain(b'e')?;
    let one = one.close_both(rt, alloc, next)?;
    compare(alloc, one, twin.close_both(rt, alloc, next)?)?;
    Ok(Came::Done)
}

/// Tries a call. Where memory is refused, it is made again, or the turnstile is closed.
pub(crate) fn try_enter<R: Wait>(
    rt: &R,
    alloc: Global,
    calls: usize,
    again: bool,
) -> Result<Came, Stop> {
    let mut one = Desk::used(rt, alloc, calls)?;
    let mut twin = Desk::used(rt, alloc, calls)?;
    match one.enter_key(rt, alloc, b'e') {
        Ok(()) => {
            twin.enter_key(rt, alloc, b'e')?;
            close_alike(alloc, one, twin)?;
            Ok(Came::Done)
        }
        Err(Stop::Memory) => with_memory(follow_refusal(rt, alloc, one, twin, again)),
        Err(stop) => Err(stop),
    }
}

/// A call that was refused has no entry. It is made again, or the turnstile is closed.
fn follow_refusal<R: Wait>(
    rt: &R,
    alloc: Global,
    mut one: Desk<Calls>,
    mut twin: Desk<Calls>,
    again: bool,
) -> Result<(), Stop> {
    check(
        one.pass.len() == twin.pass.len(),
        "a call that was refused has seen an entry",
    )?;
    if !again {
        return close_alike(alloc, one, twin);
    }
    let next = grain(b'e')?;
    check(
        one.enter_both(rt, alloc, &mut twin, next)?,
        "the call is answered otherwise",
    )?;
    close_alike(alloc, one, twin)
}

/// Tries to close a turnstile.
pub(crate) fn try_close<R: Wait>(rt: &R, alloc: Global) -> Result<Came, Stop> {
    let one = Desk::used(rt, alloc, 4)?;
    let twin = Desk::used(rt, alloc, 4)?;
    close_alike(alloc, one, twin)?;
    Ok(Came::Done)
}
