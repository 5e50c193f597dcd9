//! Subscriptions for which the cache has nothing: they catch up, one after another.
ghost use Rattle.std.specs.Prelude.{◌≡◌, ◌+◌, ◌-◌, ◌^◌, ◌<◌, ◌≤◌, ℕ, true, get_or, length, MatchOption};
ghost use Rattle.stream_ident.specs.Words.{past};
ghost use Rattle.queue_cache.specs.Cache.{high};
ghost use Rattle.queue_mapper.specs.Place.{tag_of};
ghost use Rattle.cache_cursor.specs.Cursor.{AreMarked};
ghost use Rattle.ranked_index.specs.Leaves.{open_leaf, with_leaves};
ghost use Rattle.subscription_table.specs.Idle.{CatchUp, CatchUpAt, IsBetween, IsIdle};
ghost use Rattle.subscription_table.specs.Standing.{IsTable};
ghost use Rattle.subscription_table.specs.Table.{no_entry};

use super::SubscriptionTable;
use cache_cursor::{TAGS, next, tags_from};
use consumer_grain::SubState;
use pubsub_registry::Registry;
use queue_cache::QueueCache;
use ranked_index::Resumes;
use stream_ident::BLOCK_EVENTS;

impl SubscriptionTable {
    /// The subscription with a number catches up with a cache, and then those after it in the order of the names, up to the
    /// first that isn't idle: open and due, though the cache has nothing for it, with nothing handled past the end of the
    /// cache. It gives the number of the last that did, and none where the first isn't idle, or the cache has more than 64
    /// events from its cursor on. It costs a few steps for each of them, and the logarithm of the length; it takes no
    /// memory.
    pub fn catch_up_from(&mut self, number: usize, cache: &QueueCache) -> Option<usize>
        requires within { number < length self.old.registry.names }
        requires high { high cache.now + 2 < 2 ^ 64 }
        ensures { MatchOption result (self.new ≡ self.old) (λ last. (more : ℕ) × CatchUp cache.now self.old self.new number more last) }
    {
        let first = self.resumes.rank(number);
        let end = catch_up_each(
            &self.registry,
            &self.tags,
            &self.resumes,
            &mut self.states,
            cache,
            first,
        );
        if end == first {
            return None;
        }
        self.resumes.fill(first, end, cache.high());
        Some(self.resumes.numbers()[end - 1])
    }
}

/// The subscriptions from a rank on catch up, up to the first that isn't idle, whose rank it gives, or one past the last
/// rank. The resumes are left behind.
fn catch_up_each(
    registry: &Registry,
    tags: &[u8],
    resumes: &Resumes,
    states: &mut [SubState],
    cache: &QueueCache,
    first: usize,
) -> usize
    requires table { IsTable (record { registry = registry.now; states = states.old }) tags.now resumes.now }
    requires first { first < length resumes.now.order }
    requires high { high cache.now + 2 < 2 ^ 64 }
    ensures from { first ≤ result }
    ensures within { result ≤ length resumes.now.order }
    ensures table { IsTable (record { registry = registry.now; states = states.new }) tags.now (with_leaves first (result - first) (open_leaf (high cache.now)) resumes.now) }
    ensures each { CatchUpAt cache.now resumes.now.order (record { registry = registry.now; states = states.old }) (record { registry = registry.now; states = states.new }) first (result - first) }
{
    let order = resumes.numbers();
    let head = order[first];
    let from = states[head].cursor;
    let high = cache.high();
    if from < cache.low() || high.saturating_sub(from) > BLOCK_EVENTS {
        return first;
    }
    // Tags are marked only where the first is idle.
    let start = &states[head].start;
    if next(cache, from, registry.stream(head), tags[head], start).is_some() {
        return first;
    }
    let marks = tags_from(cache, from);
    for rank in first..registry.len() {
        let number = order[rank];
        let tag = tags[number];
        if !is_idle(registry, number, &states[number], tag, cache, &marks, from) {
            return rank;
        }
        states[number].catch_up(high, false);
    }
    registry.len()
}

/// Whether the subscription with a number, whose stream has this tag, is idle, where its cursor doesn't stand before a
/// position from which on the tags are marked.
fn is_idle(
    registry: &Registry,
    number: usize,
    state: &SubState,
    tag: u8,
    cache: &QueueCache,
    marks: &[bool; TAGS],
    from: usize,
) -> bool
    requires number { number < length registry.now.names }
    requires tag { tag ≡ tag_of (get_or registry.now.names number no_entry).1.stream }
    requires low { cache.now.low ≤ from }
    requires marked { AreMarked cache.now from marks.now }
    ensures { result ≡ true → IsIdle cache.now state.now (get_or registry.now.names number no_entry).1.stream }
{
    if !is_between(state, from, cache.high()) {
        return false;
    }
    if !marks[tag as usize] {
        return true;
    }
    next(
        cache,
        state.cursor,
        registry.stream(number),
        tag,
        &state.start,
    )
    .is_none()
}

/// Whether a subscription is open and due, its cursor stands between two positions, and it has handled nothing past the
/// second.
fn is_between(state: &SubState, from: usize, high: usize) -> bool
    ensures { result ≡ true → IsBetween state.now from high }
{
    state.live
        && state.resume < high
        && state.handled.past() <= high
        && from <= state.cursor
        && state.cursor <= high
}
