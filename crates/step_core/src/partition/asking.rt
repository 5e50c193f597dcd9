//! What a drain asks of a partition: operations of its current agent and of a worker. They are those of `Partition::step`,
//! without the `Op` that asks for them and the `Reply` that is made of what they come to.
ghost use Rattle.std.specs.Prelude.{◌≡◌, ◌<◌, true, length, IfSome, OnErr};
ghost use Rattle.stream_ident.specs.Words.{Performs};
ghost use Rattle.stream_model.specs.declared.op.Op.TheVariants.{Ack, Begin, Commit, Deliver, Pull};
ghost use Rattle.stream_model.specs.Memory.{may_allocate};
ghost use Rattle.stream_model.specs.Step.{step};
ghost use Rattle.step_core.specs.Replied.{replied, reply_of, reply_with};
ghost use Rattle.step_core.specs.Serving.{name_of, CatchesUp, CatchesUpFrom, HandlesNext, HasNext};

use crate::acknowledging::ack;
use crate::delivering::deliver;
use crate::outcome::Outcome;
use crate::partition::Partition;
use crate::pulling::pull;
use crate::serving::{catch_up, catch_up_from, handle_next, ready_next};
use crate::turns::{begin, commit};
use pulling_agent::Sought;
use std::alloc::{AllocError, Global};
use stream_ident::{GrainId, SubName, Token};

impl Partition {
    /// The agent pulls events into the cache.
    ///
    /// # Errors
    /// The call failed to allocate, as `step` may, and nothing has changed.
    pub(crate) fn pull(&mut self, alloc: Global, max: u32) -> Result<Outcome, AllocError>
        ensures memory { OnErr result (may_allocate self.old (Pull self.old.generation max) ≡ true) }
        ensures performs { Performs self.old self.new (replied result) (step self.old (Pull self.old.generation max)) }
    {
        let generation = self.parts.agent.generation();
        let told = pull(&mut self.parts, alloc, generation, max);
        let _lengths = (self.parts.subs.len(), self.parts.grains.len());
        told
    }

    /// The agent hands a subscription its next event.
    ///
    /// # Errors
    /// The call failed to allocate, as `step` may, and nothing has changed.
    pub(crate) fn deliver(&mut self, alloc: Global, sub: &SubName) -> Result<Outcome, AllocError>
        ensures memory { OnErr result (may_allocate self.old (Deliver self.old.generation sub.now) ≡ true) }
        ensures performs { Performs self.old self.new (replied result) (step self.old (Deliver self.old.generation sub.now)) }
    {
        let generation = self.parts.agent.generation();
        let told = deliver(&mut self.parts, alloc, generation, sub);
        let _lengths = (self.parts.subs.len(), self.parts.grains.len());
        told
    }

    /// Serves the subscription with a number to its end, where the cache has nothing for it, nothing of it waits or runs, and
    /// it has handled no event past both its cursor and the end of the cache. Elsewhere nothing is done, and the result is
    /// false.
    pub(crate) fn catch_up(&mut self, number: usize) -> bool
        requires { number < length self.old.subs }
        ensures { CatchesUp self.old self.new (name_of self.old number) result }
    {
        let is_caught_up = catch_up(&mut self.parts, number);
        let _lengths = (self.parts.subs.len(), self.parts.grains.len());
        is_caught_up
    }

    /// Serves the subscription with a number to its end, and then each that is due after it, as long as the cache has nothing
    /// for them and no event was handled past the end of the cache. It gives the number of the last; elsewhere, and where
    /// anything waits or runs, nothing is done, and there is none.
    pub(crate) fn catch_up_from(&mut self, number: usize) -> Option<usize>
        requires { number < length self.old.subs }
        ensures within { IfSome result (λ last. last < length self.new.subs) }
        ensures told { CatchesUpFrom (name_of self.old) self.old self.new number result }
    {
        catch_up_from(&mut self.parts, number)
    }

    /// The next event of the cache that the subscription with a number is owed, where a turn can handle it at once: the
    /// subscription is open, has handled an event and has handled none from that one on, and its grain is active and at rest.
    pub(crate) fn ready_next(&self, number: usize) -> Option<usize>
        requires { number < length self.now.subs }
        ensures { IfSome result (HasNext self.now (name_of self.now number)) }
    {
        ready_next(&self.parts, number)
    }

    /// The next event of the subscription with a number is delivered, and a turn of its grain handles it, where a rise is left.
    /// It tells what comes next for the subscription, which is served to its end, as `catch_up` does, where the cache has
    /// nothing more for it. Elsewhere, and where there is no memory, nothing is done, and there is none.
    pub(crate) fn handle_next(
        &mut self,
        alloc: Global,
        number: usize,
        position: usize,
    ) -> Option<Sought>
        requires number { number < length self.old.subs }
        requires next { HasNext self.old (name_of self.old number) position }
        ensures { HandlesNext self.old self.new (name_of self.old number) result }
    {
        let sought = handle_next(&mut self.parts, alloc, number, position);
        let _lengths = (self.parts.subs.len(), self.parts.grains.len());
        sought
    }

    /// The agent learns that a subscription has handled an event and all that it was owed before.
    pub(crate) fn ack(&mut self, sub: &SubName, token: Token) -> Outcome
        ensures { (self.new, reply_of result) ≡ step self.old (Ack self.old.generation sub.now token) }
    {
        let generation = self.parts.agent.generation();
        let told = ack(&mut self.parts, generation, sub, token);
        let _lengths = (self.parts.subs.len(), self.parts.grains.len());
        told
    }

    /// A worker begins a turn of a grain.
    pub(crate) fn begin(&mut self, grain: &GrainId, max: u32) -> Outcome
        ensures { (self.new, reply_with self.new.log result) ≡ step self.old (Begin grain.now max) }
    {
        let outcome = begin(&mut self.parts, grain, max);
        let _lengths = (self.parts.subs.len(), self.parts.grains.len());
        outcome
    }

    /// A worker ends the turn that runs for a grain.
    ///
    /// # Errors
    /// The call failed to allocate, as `step` may, and nothing has changed.
    pub(crate) fn commit(
        &mut self,
        alloc: Global,
        grain: &GrainId,
        activation: u64,
        turn: u64,
        note: u64,
    ) -> Result<Outcome, AllocError>
        ensures memory { OnErr result (may_allocate self.old (Commit grain.now activation turn note) ≡ true) }
        ensures performs { Performs self.old self.new (replied result) (step self.old (Commit grain.now activation turn note)) }
    {
        let told = commit(&mut self.parts, alloc, grain, activation, turn, note);
        let _lengths = (self.parts.subs.len(), self.parts.grains.len());
        told
    }
}
