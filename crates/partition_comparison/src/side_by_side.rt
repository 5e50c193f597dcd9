//! A partition beside the plain program.
ghost use Rattle.std.specs.Prelude.{◌≤◌, ◌+◌};
ghost use Rattle.stream_model.specs.Bounds.{AreLimits};

use crate::fault::Fault;
use crate::looks::{Looks, plain_handled};
use crate::place::Place;
use std::alloc::{AllocError, Global};
use step_core::{DrainEnd, Limits, Op, Partition, Quiet, Reply};

/// A partition, its twin and the plain program, to which the same operations are done.
///
/// The twin is given one operation after another, also where the partition is given several at once, and gives answers
/// that stand for replies.
pub struct SideBySide {
    place: Place,
    partition: Partition,
    twin: Partition,
    reference: partition_reference::Partition,
}

impl Drop for SideBySide {
    fn drop(self) {
        let Self {
            place: _,
            partition: _,
            twin: _,
            reference: _,
        } = self;
    }
}

impl SideBySide {
    /// All of them before the first operation. The cache of the plain program has so many blocks more.
    ///
    /// # Errors
    /// The call failed to allocate.
    pub fn new(
        alloc: Global,
        seed: u64,
        blocks: usize,
        more: usize,
        limits: Limits,
    ) -> Result<SideBySide, AllocError>
        requires some_blocks { 1 ≤ blocks }
        requires blocks { blocks + more ≤ 64 }
        requires limits { AreLimits limits }
    {
        Ok(SideBySide {
            place: Place {
                alloc,
                seed,
                operation: 0,
            },
            partition: Partition::new(alloc, blocks, limits)?,
            twin: Partition::new(alloc, blocks, limits)?,
            reference: partition_reference::Partition::new(alloc, blocks + more, limits),
        })
    }

    /// Does an operation to each, and gives the reply, which is the same.
    ///
    /// # Errors
    /// There is a difference, or the call failed to allocate.
    pub fn step(&mut self, op: &Op) -> Result<Reply, Fault> {
        let reply = self.partition.apply(self.place.alloc, op)?;
        self.follow(op, &reply)?;
        Ok(reply)
    }

    /// Does the operations at once, and gives their replies.
    ///
    /// # Errors
    /// There is a difference, or the call failed to allocate.
    pub fn run(&mut self, ops: &[Op]) -> Result<Vec<Reply>, Fault> {
        let alloc = self.place.alloc;
        let mut replies = Vec::new(alloc);
        self.partition
            .run(alloc, copies(alloc, ops)?, &mut replies)?;
        self.place.compare(&replies.len(), &ops.len())?;
        for (op, reply) in ops.iter().zip(replies.as_slice().iter()) {
            self.follow(op, reply)?;
        }
        Ok(replies)
    }

    /// Does an operation to the twin and to the plain program, which have to reply so.
    fn follow(&mut self, op: &Op, reply: &Reply) -> Result<(), Fault> {
        let alloc = self.place.alloc;
        let mut events = Vec::with_capacity(alloc, 16)?;
        let answer = self.twin.answer(alloc, op, &mut events)?;
        self.place.compare(reply, &answer.reply(&events))?;
        let expected = self.reference.step(alloc, op.copy(alloc)?)?;
        self.place.compare(reply, &expected)?;
        self.place.operation = self.place.operation.saturating_add(1);
        Ok(())
    }

    /// Does an operation to the partition and its twin alone.
    ///
    /// # Errors
    /// The call failed to allocate.
    pub fn step_without_plain(&mut self, op: &Op) -> Result<(), AllocError> {
        let alloc = self.place.alloc;
        self.partition.apply(alloc, op)?;
        self.twin.apply(alloc, op)?;
        Ok(())
    }

    /// Does an operation to the partition and the plain program alone.
    ///
    /// # Errors
    /// The call failed to allocate.
    pub fn step_without_twin(&mut self, op: &Op) -> Result<(), AllocError> {
        let alloc = self.place.alloc;
        self.partition.apply(alloc, op)?;
        self.reference.step(alloc, op.copy(alloc)?)?;
        Ok(())
    }

    /// Compares all that can be looked at.
    ///
    /// # Errors
    /// There is a difference, or the call failed to allocate.
    pub fn compare_looks(&self) -> Result<(), Fault> {
        let looks = Looks::of(self.place.alloc, &self.partition)?;
        let expected = Looks::of_reference(self.place.alloc, &self.reference)?;
        self.place.compare(&looks, &expected)
    }

    /// Drains the partition and its twin, and gives the end, which is the same. The plain program has no
    /// drain, and tells what is owed.
    ///
    /// # Errors
    /// There is a difference, or the call failed to allocate.
    pub fn drain(&mut self) -> Result<DrainEnd, Fault> {
        let alloc = self.place.alloc;
        let end = self.partition.drain(alloc)?;
        let twins = self.twin.drain(alloc)?;
        self.place.compare(&end, &twins)?;
        let looks = Looks::of(alloc, &self.partition)?;
        let twins = Looks::of(alloc, &self.twin)?;
        self.place.compare(&looks, &twins)?;
        if let DrainEnd::Drained { .. } = end {
            self.compare_owed(&looks)?;
        }
        Ok(end)
    }

    /// Where nothing is left to do, each subscription has handled what it is owed.
    fn compare_owed(&self, looks: &Looks) -> Result<(), Fault> {
        let plain = self.reference.plain();
        let owed = plain_handled(self.place.alloc, plain, looks.subs.as_slice(), true)?;
        self.place.compare(&looks.quiet, &Quiet::Yes)?;
        self.place.compare(&looks.handled, &owed)
    }
}

/// Equal operations.
fn copies(alloc: Global, ops: &[Op]) -> Result<Vec<Op>, AllocError> {
    let mut copies = Vec::new(alloc);
    for op in ops {
        copies.push(op.copy(alloc)?)?;
    }
    Ok(copies)
}
