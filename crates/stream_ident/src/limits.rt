//! How much there may be of everything, each limit once.

/// The most bytes of a name.
pub const NAME_BYTES: usize = 64;

/// The most bytes of a payload.
pub const PAYLOAD_BYTES: usize = 256;

/// The most events of a batch.
pub const BATCH_EVENTS: usize = 64;

/// The most events of a turn.
pub const TURN_EVENTS: usize = 16;

/// How many deliveries wait for a grain at most.
pub const MAILBOX_PLACES: usize = 16;

/// How many events a block of a cache has.
pub const BLOCK_EVENTS: usize = 64;

/// The most events of a pull.
pub const PULL_EVENTS: usize = 256;

/// The most blocks of a cache.
pub const MOST_BLOCKS: usize = 64;

/// The most events of a partition.
pub const MOST_EVENTS: usize = 1_000_000;

/// The most subscriptions of a partition, closed and implicit ones counted.
pub const MOST_SUBS: usize = 10_000;

/// The most rules of a partition.
pub const MOST_RULES: usize = 64;

/// The most rises of a partition: turns, activations and moves.
pub const MOST_RISES: u64 = 4_000_000;

/// The most queues of a cluster.
pub const MOST_QUEUES: usize = 64;

/// The most silos of a cluster.
pub const MOST_SILOS: u8 = 16;

/// The most permits that a directory gives out.
pub const MOST_PERMITS: u64 = 4_000_000;

/// The most entries of a history that is stored.
pub const MOST_ENTRIES: u64 = 4_000_000;
