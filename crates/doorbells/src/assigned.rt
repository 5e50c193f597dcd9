//! The queues that are assigned to an agent.

use std::alloc::{AllocError, Global};
use std::sync::atomic::{AtomicU64, Ordering};

/// For each queue whether a silo's agent has it, and under which generation. Threads share it.
///
/// No contract can name what it holds, which others may change at any time.
#[derive(Drop)]
pub struct Assigned {
    // 0 where the agent hasn't the queue, else one more than the generation
    queues: Vec<AtomicU64>,
}

impl Assigned {
    /// No queue of these is assigned.
    ///
    /// # Errors
    /// The call failed to allocate.
    pub fn new(alloc: Global, queues: usize) -> Result<Assigned, AllocError> {
        let mut none = Vec::with_capacity(alloc, queues)?;
        for _ in 0..queues {
            none.push(AtomicU64::new(0))?;
        }
        Ok(Assigned { queues: none })
    }

    /// The agent has the queue from now on, under this generation, which a partition keeps far below the
    /// greatest number. Nothing happens where there is no such queue.
    pub fn assign(&self, queue: usize, generation: u64) {
        if let Some(cell) = self.queues.get(queue) {
            cell.store(generation.saturating_add(1), Ordering::SeqCst);
        }
    }

    /// The agent hasn't the queue any more.
    pub fn take_away(&self, queue: usize) {
        if let Some(cell) = self.queues.get(queue) {
            cell.store(0, Ordering::SeqCst);
        }
    }

    /// The generation under which the agent has the queue, where it has it.
    pub fn generation(&self, queue: usize) -> Option<u64> {
        let stored = self.queues.get(queue)?.load(Ordering::SeqCst);
        stored.checked_sub(1)
    }
}
