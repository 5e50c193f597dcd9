//! What a cluster is made of.
ghost use Rattle.std.specs.Prelude.{◌≡◌, ◌≤◌};
ghost use Rattle.stream_ident.specs.declared.limits.TheConstants.{MOST_QUEUES, MOST_SILOS};
ghost use Rattle.silo_threads.specs.Clusters.{IsConfig, standing_config};

use stream_model::Limits;

/// How many queues and silos a cluster begins with, and its limits.
#[derive(Clone, Copy, Debug, PartialEq, Eq)]
pub struct Config {
    /// Queues: 1 to 64.
    pub queues: usize,
    /// Blocks of 64 events in the cache of each queue: 1 to 64.
    pub blocks: usize,
    /// Silos at the start: 1 to 16. They are numbered from 0 on.
    pub silos: u8,
    /// The limits of each partition: [`Limits::GREATEST`] or lower ones, and at least one rise.
    pub limits: Limits,
    /// How many calls the history of each queue may have, and that of the directory: at least 1.
    pub history: u64,
    /// How many rounds each loop of a silo may begin before it ends for good. Where something comes a loop begins one or
    /// more, so several for each event where events come singly.
    pub rounds: u64,
    /// How often a drain looks at the queues before it gives up; with 0 it gives up at once.
    pub looks: u32,
}

impl Config {
    /// A configuration for a service that stays up: so many queues and silos, caches of four blocks, and the greatest
    /// limits. Its histories have room for as many calls as a number can count, and its loops may begin as many rounds.
    ///
    /// Each queue still has room for 1,000,000 events and 4,000,000 rises in all, and the directory for 4,000,000
    /// permits, of which a worker takes one each time it finds a grain ready. After the last rise or permit the loops
    /// that ask for one end: what is published is then no more handled, a drain answers `Ended`, and the cluster ends
    /// with `Limit`.
    pub fn new(queues: usize, silos: u8) -> Config
        requires queues { (1 ≤ queues) × (queues ≤ MOST_QUEUES) }
        requires silos { (1 ≤ silos) × (silos ≤ MOST_SILOS) }
        ensures config { IsConfig result }
        ensures whole { result ≡ standing_config queues silos }
    {
        Config {
            queues,
            blocks: 4,
            silos,
            limits: Limits::GREATEST,
            history: u64::MAX,
            rounds: u64::MAX,
            looks: 100_000,
        }
    }
}
