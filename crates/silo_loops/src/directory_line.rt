//! A pass at the turnstile of the directory, as loops hold it.
ghost use Rattle.std.specs.Prelude.{◌≡◌, IfOk, OnOk, OnErr};
ghost use Rattle.std.specs.Arc.{arc_value};
ghost use Rattle.turnstile.specs.Calls.{Agree, HasOnlyMade, IsOf, IsSplitOff, joined_pass};
ghost use Rattle.shared_partition.specs.Directories.{BeganEmpty};
ghost use Rattle.silo_loops.specs.Lines.{DirectoryCalls};

use activation_directory::{Directory, DirectoryOp, DirectoryReply};
use doorbells::{Bell, Doorbell, directory_rings};
use shared_partition::{DirectoryHistory, SharedDirectory};
use std::alloc::{AllocError, Global};
use std::marker::Model;
use std::sync::{Arc, Wait};
use turnstile::{Handle, Pass, Refusal, Turnstile};

/// A loop's pass at the directory, with its turnstile. A contract sees the pass.
pub struct DirectoryLine<D: DirectoryHistory> {
    handle: Handle<SharedDirectory<D>>,
    bell: Bell,
}

impl<D: DirectoryHistory + Drop> Drop for DirectoryLine<D> {
    fn drop(self) {
        let Self { handle: _, bell: _ } = self;
    }
}

impl<D: DirectoryHistory> Model for DirectoryLine<D> {
    ghost use Rattle.shared_partition.specs.Directories.{IsOfEmpty};
    ghost use Rattle.silo_loops.specs.Lines.{DirectoryPass};

    ghost Value = { DirectoryPass };

    ghost view = { λ l. l.handle };

    ghost invariant = { λ l. IsOfEmpty l.handle };
}

impl<D: DirectoryHistory> DirectoryLine<D> {
    /// A line of a pass.
    pub fn new(
        turnstile: Arc<Turnstile<SharedDirectory<D>>, Global>,
        pass: Pass<SharedDirectory<D>, D, DirectoryOp, DirectoryReply, Directory>,
    ) -> DirectoryLine<D>
        requires pass { IsOf (arc_value turnstile) pass }
        requires empty { BeganEmpty (arc_value turnstile).start }
        ensures { result ≡ pass }
    {
        DirectoryLine {
            handle: Handle::new(turnstile, pass),
            bell: Bell::new(),
        }
    }

    /// Waits for its turn, does an operation, and rings where a loop may then find more to do.
    ///
    /// # Errors
    /// `HistoryFull` where the history has as many entries as it may have, and else `Memory`. No entry is
    /// added, the directory is as before, and the pass has seen the whole history as it was found.
    pub fn call<R: Wait>(
        &mut self,
        rt: &R,
        alloc: Global,
        doorbell: &Doorbell,
        op: DirectoryOp,
    ) -> Result<DirectoryReply, Refusal>
        ensures { DirectoryCalls self.old op result self.new }
    {
        let answer = SharedDirectory::call_by(&mut self.handle, rt, alloc, op);
        if let Ok(ref reply) = answer {
            self.bell.ring(rt, doorbell, directory_rings(reply));
        }
        answer
    }

    // Keeps its turn from the next call on.
    pub(crate) fn keep(&mut self)
        ensures { self.new ≡ self.old }
    {
        self.handle.keep();
        self.bell.keep();
    }

    // Gives up the turn that it may have, and then rings once for all calls that were made in it.
    pub(crate) fn leave<R: Wait>(&mut self, rt: &R, doorbell: &Doorbell)
        ensures { self.new ≡ self.old }
    {
        self.handle.leave();
        self.bell.leave(rt, doorbell, 0);
    }

    /// A line with a pass of its own at the directory.
    ///
    /// # Errors
    /// The turnstile can't be shared once more, or 2^32 passes of it were made. The line is then as before,
    /// save that its pass may know of more passes.
    pub fn split(&mut self) -> Result<DirectoryLine<D>, AllocError>
        ensures same { OnOk result (self.new ≡ self.old) }
        ensures turnstile { self.new.turnstile ≡ self.old.turnstile }
        ensures new { IfOk result (λ line. IsSplitOff self.old line) }
        ensures made { OnErr result (HasOnlyMade self.old self.new) }
    {
        let handle = self.handle.split()?;
        Ok(DirectoryLine {
            handle,
            bell: Bell::new(),
        })
    }

    /// Takes in another line of the directory: the numbers of its pass, and what that has seen where it is
    /// more.
    pub fn join(&mut self, other: DirectoryLine<D>)
        requires { other.turnstile ≡ self.old.turnstile }
        ensures joined { self.new ≡ joined_pass self.old other }
        ensures agree { Agree self.old other self.new }
    {
        let DirectoryLine { handle, bell: _ } = other;
        self.handle.join(handle);
    }

    /// The turnstile and the pass.
    pub fn into_parts(
        self,
    ) -> (
        Arc<Turnstile<SharedDirectory<D>>, Global>,
        Pass<SharedDirectory<D>, D, DirectoryOp, DirectoryReply, Directory>,
    )
        ensures pass { result.1 ≡ self }
        ensures of { IsOf (arc_value result.0) result.1 }
        ensures empty { BeganEmpty (arc_value result.0).start }
    {
        let DirectoryLine { handle, bell: _ } = self;
        handle.into_parts()
    }
}
