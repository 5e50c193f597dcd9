//! The agent.
ghost use Rattle.std.specs.Prelude.{◌≡◌, ◌+◌, ◌-◌, ◌*◌, ◌<◌, ◌≤◌, length, max, IfOk};
ghost use Rattle.stream_ident.specs.declared.limits.TheConstants.{MOST_BLOCKS};
ghost use Rattle.pulling_agent.specs.Agent.{check, drops, empty, free_blocks, if_current, plan_of, plan_pull, pull, purge, purge_free, take_next, take_over, take_planned, without_blocks, CanTake, MayTake};
ghost use Rattle.stream_ident.specs.Blocks.{pull_size};

use partition_queue::PartitionQueue;
use queue_cache::QueueCache;
use std::alloc::{AllocError, Global};
use std::marker::Model;
use stream_ident::{BLOCK_EVENTS, PULL_EVENTS};
use thiserror::Error;

/// The caller speaks for an agent that was replaced.
#[derive(Clone, Copy, Debug, PartialEq, Eq, Error)]
#[error("stale agent: the generation is {now}")]
pub struct StaleAgent {
    /// The generation of the current agent.
    pub now: u64,
}

/// What a pull would do.
#[derive(Clone, Copy, Debug, PartialEq, Eq)]
pub enum Plan {
    /// The cache has all events of the queue.
    Dry,
    /// The cache has no room, and no block that may be dropped.
    Held,
    /// It would drop blocks and take events.
    Take {
        /// How many blocks it drops, from the front.
        drops: usize,
        /// How many events it takes, 1 to 256.
        count: usize,
    },
}

/// The pulling agent of a queue.
///
/// A queue has one agent at a time, and each has a generation, counted from 0. A caller names the generation
/// of the agent that it speaks for: all calls that do something refuse one that speaks for an agent which was
/// replaced, except `take_over`, which replaces it.
///
/// A contract sees the agent as its generation, the silo that it runs on, and its cache.
pub struct Agent {
    generation: u64,
    silo: u8,
    cache: QueueCache,
}

impl Drop for Agent {
    fn drop(self) {
        let Self {
            generation: _,
            silo: _,
            cache: _,
        } = self;
    }
}

impl Model for Agent {
    ghost use Rattle.stream_ident.specs.declared.limits.TheConstants.{BLOCK_EVENTS};
    ghost use Rattle.std.specs.Prelude.{◌*◌, ◌≤◌, length};
    ghost use Rattle.pulling_agent.specs.Agent.{PlainAgent};

    ghost Value = { PlainAgent };

    ghost view = { λ a. record { generation = a.generation; silo = a.silo; cache = a.cache } };

    ghost invariant = { λ a. length a.cache.events ≤ BLOCK_EVENTS * a.cache.blocks };
}

impl Agent {
    /// The first agent of a queue: generation 0, on silo 0, with an empty cache of 1 to 64 blocks that
    /// begins at position 0.
    ///
    /// # Errors
    /// The call failed to allocate the cache.
    pub fn new(alloc: Global, blocks: usize) -> Result<Agent, AllocError>
        requires some { 1 ≤ blocks }
        requires few { blocks ≤ MOST_BLOCKS }
        ensures { IfOk result (λ agent. agent ≡ empty blocks) }
    {
        Ok(Agent {
            generation: 0,
            silo: 0,
            cache: QueueCache::new(alloc, blocks, 0)?,
        })
    }

    /// The generation of the agent.
    pub fn generation(&self) -> u64
        ensures { result ≡ self.now.generation }
    {
        self.generation
    }

    /// The silo that the agent runs on.
    pub fn silo(&self) -> u8
        ensures { result ≡ self.now.silo }
    {
        self.silo
    }

    /// The events that the agent has pulled and may read again.
    pub fn cache(&self) -> &QueueCache
        ensures { result.now ≡ self.now.cache }
    {
        &self.cache
    }

    /// Whether a caller speaks for this agent: it names its generation.
    ///
    /// # Errors
    /// `StaleAgent` where it names another.
    pub fn check(&self, generation: u64) -> Result<(), StaleAgent>
        ensures { result ≡ check self.now generation }
    {
        if generation != self.generation {
            return Err(StaleAgent {
                now: self.generation,
            });
        }
        Ok(())
    }

    /// What a pull of at most `max_events` would do, where the queue has `len` events and no open
    /// subscription may read again what lies before `least`.
    ///
    /// It takes 1 to 256 events: 0 is read as 1, and more as 256. It drops the fewest blocks that make
    /// room for them, of those that lie before `least`, and takes as many events as then fit.
    ///
    /// # Errors
    /// `StaleAgent` where the caller names another generation than the agent's.
    pub fn plan_pull(
        &self,
        generation: u64,
        max_events: usize,
        len: usize,
        least: usize,
    ) -> Result<Plan, StaleAgent>
        ensures plan { result ≡ plan_pull self.now generation max_events len least }
        ensures may { IfOk result (MayTake self.now len least) }
    {
        self.check(generation)?;
        Ok(self.plan(max_events, len, least))
    }

    /// What a pull would do, whoever asks.
    fn plan(&self, max_events: usize, len: usize, least: usize) -> Plan
        ensures plan { result ≡ plan_of self.now max_events len least }
        ensures may { MayTake self.now len least result }
    {
        let high = self.cache.high();
        if high == len {
            return Plan::Dry;
        }
        let want = pull_size(max_events).min(len.saturating_sub(high));
        let drops = self.drops(least, want);
        let room = self.cache.room().saturating_add(BLOCK_EVENTS * drops);
        match want.min(room) {
            0 => Plan::Held,
            count => Plan::Take { drops, count },
        }
    }

    /// Drops `drops` blocks and takes the next `count` events of the log in behind those of the cache, as a plan said, and
    /// gives how many it has taken. It drops fewer blocks where fewer are whole, and takes fewer events where the log
    /// or the room ends. It takes no memory.
    ///
    /// # Errors
    /// `StaleAgent` where the caller names another generation than the agent's. Nothing has changed then.
    pub fn pull(
        &mut self,
        generation: u64,
        drops: usize,
        queue: &PartitionQueue,
        count: usize,
    ) -> Result<usize, StaleAgent>
        ensures pull { (self.new, result) ≡ pull self.old generation drops queue.now count }
        ensures planned { CanTake self.old queue.now drops count → (self.new, result) ≡ if_current self.old generation self.old (take_planned self.old drops queue.now count) }
    {
        self.check(generation)?;
        Ok(self.take_next(drops, queue, count))
    }

    /// Drops blocks and takes events, whoever asks.
    fn take_next(&mut self, drops: usize, queue: &PartitionQueue, count: usize) -> usize
        ensures taken { (self.new, result) ≡ take_next self.old drops queue.now count }
        ensures planned { CanTake self.old queue.now drops count → (self.new, result) ≡ take_planned self.old drops queue.now count }
    {
        let whole = (self.cache.high() - self.cache.low()) / BLOCK_EVENTS;
        drop_blocks(&mut self.cache, drops.min(whole));
        let high = self.cache.high();
        let ahead = queue.len().saturating_sub(high);
        let count = count.min(self.cache.room()).min(ahead);
        if count > 0 {
            self.cache.take(&queue.between(high, high + count));
        }
        count
    }

    /// Drops the blocks beyond the `keep` last ones, a part of a block counted as one, of those that lie
    /// before `least`, and gives the position that the cache then begins at. It takes no memory.
    ///
    /// # Errors
    /// `StaleAgent` where the caller names another generation than the agent's. Nothing has changed then.
    pub fn purge(&mut self, generation: u64, keep: usize, least: usize) -> Result<usize, StaleAgent>
        ensures purge { (self.new, result) ≡ purge self.old generation keep least }
        ensures spent { IfOk result (λ low. low ≤ max self.old.cache.low least) }
    {
        self.check(generation)?;
        Ok(self.purge_free(keep, least))
    }

    /// Drops the free blocks beyond those to keep, whoever asks.
    fn purge_free(&mut self, keep: usize, least: usize) -> usize
        ensures purge { (self.new, result) ≡ purge_free self.old keep least }
        ensures spent { result ≤ max self.old.cache.low least }
    {
        let beyond = self.cache.block_count().saturating_sub(keep);
        let blocks = beyond.min(self.free_blocks(least));
        drop_blocks(&mut self.cache, blocks);
        self.cache.low()
    }

    /// The next agent of the queue takes over, on a silo, with an empty cache that begins at a position,
    /// and its generation is given: the next number, up to the greatest of 64 bits. It takes no memory.
    pub fn take_over(&mut self, silo: u8, at: usize) -> u64
        ensures { (self.new, result) ≡ take_over self.old silo at }
    {
        self.generation = self.generation.saturating_add(1);
        self.silo = silo;
        self.cache.reset(at);
        self.generation
    }

    /// How many blocks lie before both the end of the cache and the least resume.
    fn free_blocks(&self, least: usize) -> usize
        ensures free { result ≡ free_blocks self.now least }
        ensures there { BLOCK_EVENTS * result ≤ length self.now.cache.events }
        ensures spent { BLOCK_EVENTS * result ≤ least - self.now.cache.low }
    {
        let end = self.cache.high().min(least);
        end.saturating_sub(self.cache.low()) / BLOCK_EVENTS
    }

    /// The fewest blocks that make room for so many events, or all that are free.
    fn drops(&self, least: usize, want: usize) -> usize
        requires { want ≤ PULL_EVENTS }
        ensures drops { result ≡ drops self.now least want }
        ensures few { result ≤ 4 }
        ensures there { BLOCK_EVENTS * result ≤ length self.now.cache.events }
        ensures spent { BLOCK_EVENTS * result ≤ least - self.now.cache.low }
    {
        let missing = want.saturating_sub(self.cache.room());
        ((missing + BLOCK_EVENTS - 1) / BLOCK_EVENTS).min(self.free_blocks(least))
    }
}

/// How many events a pull that asks for so many is to bring.
fn pull_size(max_events: usize) -> usize
    ensures size { result ≡ pull_size max_events }
    ensures some { 0 < result }
    ensures few { result ≤ PULL_EVENTS }
{
    max_events.clamp(1, PULL_EVENTS)
}

/// Drops the first blocks of a cache.
fn drop_blocks(cache: &mut QueueCache, blocks: usize)
    requires { BLOCK_EVENTS * blocks ≤ length cache.old.events }
    ensures { cache.new ≡ without_blocks blocks cache.old }
{
    for _ in 0..blocks {
        cache.drop_front();
    }
}
