//! What is measured.

/// The blocks of a cache. A Purge drops each of them.
pub const BLOCKS: usize = 64;

/// What is measured, in which sizes, and what has to be answered.
pub struct Case {
    pub name: &'static str,
    pub work: Work,
    /// The sizes, each ten times that before.
    pub sizes: [usize; 4],
    /// What has to be answered at each size, as one sum: how many events are handled or pulled; the numbers of the
    /// subscriptions from 1 on, or the keys of the grains from 10,000 on, over and over; the numbers of the batches with
    /// which the cache begins, of which a block has 16.
    pub sums: [u64; 4],
    /// How many events are in the cache when the subscriptions come, which need none of them.
    pub early: usize,
    /// How many events come after the subscriptions, but for a drain, which has as many as its size says.
    pub late: usize,
    /// How many of these are in the cache.
    pub pulled: usize,
    /// How often the operation is asked for.
    pub times: usize,
}

/// What is done. A drain costs so much for each event, the others for each operation.
#[derive(Clone, Copy)]
pub enum Work {
    /// A drain of so many events.
    Drain,
    /// A Due among so many subscriptions.
    Due,
    /// A Ready among so many grains, to each of which an event is delivered.
    Ready,
    /// A Pull of one event beside so many subscriptions.
    Pull,
    /// A Purge of one block beside so many subscriptions.
    Purge,
}

pub static CASES: [Case; 5] = [
    Case {
        name: "drain, an event of",
        work: Work::Drain,
        sizes: [100, 1_000, 10_000, 100_000],
        sums: [100, 1_000, 10_000, 100_000],
        early: 0,
        late: 0,
        pulled: 0,
        times: 0,
    },
    Case {
        name: "Due, subscriptions",
        work: Work::Due,
        sizes: [10, 100, 1_000, 10_000],
        sums: [5_620, 50_800, 500_800, 524_800],
        early: 0,
        late: 4,
        pulled: 4,
        times: 1_024,
    },
    Case {
        name: "Ready, grains",
        work: Work::Ready,
        sizes: [10, 100, 1_000, 10_000],
        sums: [10_244_596, 10_289_776, 10_739_776, 10_763_776],
        early: 0,
        late: 4,
        pulled: 4,
        times: 1_024,
    },
    Case {
        name: "Pull, subscriptions",
        work: Work::Pull,
        sizes: [10, 100, 1_000, 10_000],
        sums: [1_024; 4],
        early: 0,
        late: 1_024,
        pulled: 0,
        times: 1_024,
    },
    Case {
        name: "Purge, subscriptions",
        work: Work::Purge,
        sizes: [10, 100, 1_000, 10_000],
        sums: [33_280; 4],
        early: 4_096,
        late: 0,
        pulled: 0,
        times: 64,
    },
];
