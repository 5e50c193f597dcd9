//! The calls of an agent that move a subscription over the log.
ghost use Rattle.std.specs.Prelude.{◌≡◌, ◌<◌, ◌≤◌, true, length, All, IfOk, IfSome};
ghost use Rattle.partition_queue.specs.Queue.{TokensRise};
ghost use Rattle.queue_mapper.specs.Place.{tag_of};
ghost use Rattle.consumer_grain.specs.Handled.{rises_from};
ghost use Rattle.pulling_agent.specs.Agent.{if_current};
ghost use Rattle.pulling_agent.specs.Handled.{first_of, IsBound};
ghost use Rattle.pulling_agent.specs.Progress.{ack, handled_at, next_event, retry, IsFound};

use crate::agent::{Agent, StaleAgent};
use crate::told::{Acked, Retried, Sought};
use cache_cursor::next;
use consumer_grain::SubState;
use partition_queue::PartitionQueue;
use queue_cache::QueueCache;
use stream_ident::{StreamId, Token};

impl Agent {
    /// The next event of the cache that the subscription to a stream is owed. Where the cache has nothing more for it, its
    /// cursor goes to the end of the cache, and its resume too unless something is outstanding. The tag is that of
    /// the stream. It takes no memory.
    ///
    /// # Errors
    /// `StaleAgent` where the caller names another generation than the agent's. Nothing has changed then.
    pub fn deliver(
        &self,
        generation: u64,
        state: &mut SubState,
        stream: &StreamId,
        tag: u8,
        outstanding: bool,
    ) -> Result<Sought, StaleAgent>
        requires cursor { state.old.live ≡ true → self.now.cache.low ≤ state.old.cursor }
        requires tag { tag ≡ tag_of stream.now }
        ensures sought { (state.new, result) ≡ if_current self.now generation state.old (next_event self.now.cache state.old stream.now outstanding) }
        ensures found { IfOk result (IsFound self.now.cache state.old) }
    {
        self.check(generation)?;
        Ok(next_event(state, self.cache(), stream, tag, outstanding))
    }

    /// What a subscription hasn't acknowledged is sought again: its cursor goes back to its resume, where it is open. It
    /// takes no memory.
    ///
    /// # Errors
    /// `StaleAgent` where the caller names another generation than the agent's. Nothing has changed then.
    pub fn retry(&self, generation: u64, state: &mut SubState) -> Result<Retried, StaleAgent>
        ensures { (state.new, result) ≡ if_current self.now generation state.old (retry state.old) }
    {
        self.check(generation)?;
        Ok(retry(state))
    }

    /// Acknowledges what a subscription is owed up to and with a handled event, which its token names. The event is found
    /// in a logarithmic number of steps. It takes no memory.
    ///
    /// # Errors
    /// `StaleAgent` where the caller names another generation than the agent's. Nothing has changed then.
    pub fn ack(
        &self,
        generation: u64,
        state: &mut SubState,
        queue: &PartitionQueue,
        token: &Token,
    ) -> Result<Acked, StaleAgent>
        requires { All (λ position. position < length queue.now.events) state.old.handled }
        ensures { (state.new, result) ≡ if_current self.now generation state.old (ack state.old queue.now token.now) }
    {
        self.check(generation)?;
        Ok(ack(state, queue, token))
    }
}

/// The next event of a cache that the subscription to a stream is owed, whoever asks. Where the cache has nothing more for
/// it, its cursor goes to the end of the cache, and its resume too unless something is outstanding. The tag is that of the
/// stream. It takes no memory.
pub fn next_event(
    state: &mut SubState,
    cache: &QueueCache,
    stream: &StreamId,
    tag: u8,
    outstanding: bool,
) -> Sought
    requires cursor { state.old.live ≡ true → cache.now.low ≤ state.old.cursor }
    requires tag { tag ≡ tag_of stream.now }
    ensures sought { (state.new, result) ≡ next_event cache.now state.old stream.now outstanding }
    ensures found { IsFound cache.now state.old result }
{
    if !state.live {
        return Sought::Closed;
    }
    match next(cache, state.cursor, stream, tag, &state.start) {
        Some(position) => Sought::Next { position },
        None => {
            state.catch_up(cache.high(), outstanding);
            Sought::Nothing
        }
    }
}

/// What the subscription hasn't acknowledged is sought again, whoever asks.
fn retry(state: &mut SubState) -> Retried
    ensures { (state.new, result) ≡ retry state.old }
{
    if !state.live {
        return Retried::Closed;
    }
    state.rewind();
    Retried::Rewound
}

/// Acknowledges what the subscription is owed up to and with a handled event, whoever asks.
fn ack(state: &mut SubState, queue: &PartitionQueue, token: &Token) -> Acked
    requires { All (λ position. position < length queue.now.events) state.old.handled }
    ensures { (state.new, result) ≡ ack state.old queue.now token.now }
{
    if !state.live {
        return Acked::Closed;
    }
    // The queue says with its length that tokens rise, which the search by token rests on.
    prove!(state.handled.past() <= queue.len());
    let Some(position) = handled_at(state.handled.as_slice(), queue, token) else {
        return Acked::NotHandled;
    };
    state.acknowledge(position);
    Acked::Acked
}

/// The handled position whose event has a token, found in a logarithmic number of steps.
fn handled_at(handled: &[usize], queue: &PartitionQueue, token: &Token) -> Option<usize>
    requires rising { rises_from 0 handled.now ≡ true }
    requires there { All (λ position. position < length queue.now.events) handled.now }
    requires tokens { TokensRise queue.now }
    ensures found { result ≡ first_of (handled_at handled.now queue.now token.now) }
    ensures there { IfSome result (λ position. position < length queue.now.events) }
{
    let place = lower_bound(handled, queue, token);
    let position = *handled.get(place)?;
    (queue.token_at(position) == *token).then_some(position)
}

/// How many of the handled positions have tokens before this one: the first of the others.
fn lower_bound(handled: &[usize], queue: &PartitionQueue, token: &Token) -> usize
    requires rising { rises_from 0 handled.now ≡ true }
    requires there { All (λ position. position < length queue.now.events) handled.now }
    requires tokens { TokensRise queue.now }
    ensures { IsBound handled.now queue.now token.now result }
{
    let mut low = 0;
    let mut high = handled.len();
    while low < high {
        let middle = low + (high - low) / 2;
        if queue.token_at(handled[middle]).is_before(token) {
            low = middle + 1;
        } else {
            high = middle;
        }
    }
    low
}
