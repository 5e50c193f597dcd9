//! The directory that a turnstile holds.
ghost use Rattle.std.specs.Prelude.{◌≡◌, ◌≤◌, MatchResult};
ghost use Rattle.stream_ident.specs.declared.limits.TheConstants.{MOST_PERMITS};
ghost use Rattle.activation_directory.specs.Plain.{PlainDirectory, empty};
ghost use Rattle.turnstile.specs.Calls.{Called, CallsBy, Found, HasOnlySeen, IsOf};
ghost use Rattle.turnstile.specs.Passes.{Origin};
ghost use Rattle.shared_partition.specs.Directories.{BeganEmpty, IsOfEmpty, LeavesLegal, TellsOnePermit, after, replied};

use crate::history::DirectoryHistory;
use activation_directory::{Directory, DirectoryOp, DirectoryReply};
use std::alloc::{AllocError, Global};
use std::marker::{Model, PhantomData};
use std::sync::Wait;
use turnstile::{Handle, PassOf, Refusal, Replays, Turnstile};

/// A directory of grains, with a way to store the history of its calls.
///
/// A contract sees it as the plain directory.
#[derive(Drop)]
pub struct SharedDirectory<H> {
    directory: Directory,
    history: PhantomData<H>,
}

impl<H> Model for SharedDirectory<H> {
    ghost use Rattle.activation_directory.specs.Plain.{PlainDirectory};

    ghost Value = { PlainDirectory };

    ghost view = { λ s. s.directory };
}

impl<H: DirectoryHistory> Replays for SharedDirectory<H> {
    type Op = DirectoryOp;

    type Reply = DirectoryReply;

    type History = H;

    type Room = ();

    type State = Directory;

    ghost state_of = { λ s. s };

    ghost replied = { replied };

    ghost after = { after };

    ghost shows = { λ _ _ _. Unit {0} };

    fn apply(
        &mut self,
        alloc: Global,
        op: &DirectoryOp,
        _room: &mut (),
    ) -> Result<DirectoryReply, AllocError> {
        self.directory.step(alloc, *op)
    }
}

impl<H: DirectoryHistory> SharedDirectory<H> {
    /// A directory in which no grain is placed, and which gives this many permits in all, at most
    /// 4,000,000. It takes no memory.
    pub fn new(alloc: Global, permits: u64) -> SharedDirectory<H>
        requires { permits ≤ MOST_PERMITS }
        ensures { result ≡ empty permits }
    {
        SharedDirectory {
            directory: Directory::new(alloc, permits),
            history: PhantomData,
        }
    }

    /// Waits for its turn, and does one operation on the directory of a turnstile that began with an empty
    /// one.
    ///
    /// In all that the pass has seen then, one permit of a grain is out at a time (`permit`), also where the
    /// call is refused. By the clause `stands` each law of [`laws`](activation_directory::laws) holds of it.
    ///
    /// # Errors
    /// `HistoryFull` where the history has as many entries as it may have, and else `Memory`. No entry is
    /// added, the directory is as before, and the pass has seen the whole history as it was found.
    pub fn call<R: Wait>(
        turnstile: &Turnstile<SharedDirectory<H>>,
        rt: &R,
        alloc: Global,
        pass: &mut PassOf<SharedDirectory<H>>,
        op: DirectoryOp,
    ) -> Result<DirectoryReply, Refusal>
        requires pass { IsOf turnstile.now pass.old }
        requires empty { BeganEmpty turnstile.now.start }
        ensures pass { HasOnlySeen pass.old pass.new }
        ensures call { MatchResult result (λ r. Called replied after turnstile.now.start pass.old op r pass.new.seen) (λ e. Found replied after turnstile.now.start pass.old e pass.new.seen) }
        ensures permit { TellsOnePermit pass.new.seen }
        ensures stands { LeavesLegal turnstile.now.start pass.new.seen }
    {
        turnstile.call(rt, alloc, pass, op)
    }

    /// Does one operation by a handle, in the turn that it keeps or in one that it waits for. It says what
    /// [`call`](SharedDirectory::call) says.
    ///
    /// # Errors
    /// They are those of `call`.
    pub fn call_by<R: Wait>(
        handle: &mut Handle<SharedDirectory<H>>,
        rt: &R,
        alloc: Global,
        op: DirectoryOp,
    ) -> Result<DirectoryReply, Refusal>
        requires { IsOfEmpty handle.old }
        ensures calls { CallsBy replied after handle.old op result handle.new }
        ensures permit { TellsOnePermit handle.new.seen }
        ensures stands { (t : Origin PlainDirectory) → IsOf t handle.old → LeavesLegal t.start handle.new.seen }
    {
        handle.call(rt, alloc, op, &mut ())
    }
}
