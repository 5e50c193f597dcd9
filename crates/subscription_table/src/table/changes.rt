//! The calls that change subscriptions: they make and close them, commit to them, and move them over the
//! log.
ghost use Rattle.std.specs.Prelude.{◌≡◌, ◌+◌, ◌^◌, ◌<◌, ◌≤◌, [], ◌∷◌, true, false, length, is_ok, is_some, OnErr, All, if◌then◌else◌, IfOk};
ghost use Rattle.stream_ident.specs.declared.limits.TheConstants.{MOST_EVENTS, PULL_EVENTS};
ghost use Rattle.stream_ident.specs.Words.{past, Performs};
ghost use Rattle.queue_cache.specs.Cache.{high};
ghost use Rattle.pubsub_registry.specs.Registry.{next_number};
ghost use Rattle.consumer_grain.specs.Handled.{rises_from};
ghost use Rattle.consumer_grain.specs.Subscriptions.{committed, advanced};
ghost use Rattle.subscription_table.specs.Table.{add_rule, close, imply, state_at, subscribe, with_state, registration_at, rewound_all, stepped, AreRewound};
ghost use Rattle.pulling_agent.specs.Agent.{if_current};
ghost use Rattle.pulling_agent.specs.Progress.{ack, next_event, retry, IsFound};

use super::{
    SubscriptionTable, add_rows, first_past, refresh, rewind_each, rewind_these, stream_tag,
};
use consumer_grain::SubState;
use partition_queue::{PartitionQueue, Span};
use pubsub_registry::{Added, Closing, Implied, RuleAdded};
use pulling_agent::{Acked, Agent, Retried, Sought, StaleAgent, next_event};
use queue_cache::QueueCache;
use std::alloc::{AllocError, Global};
use stream_ident::{GrainId, Name, Row, StreamId, SubName, Token};

impl SubscriptionTable {
    /// A grain subscribes to a stream, from a token on, whose first event is sought from a position on. The
    /// subscription has the next number of the table, and the next explicit number for its name, where one is left.
    ///
    /// # Errors
    /// The call failed to allocate, and nothing has changed. That can happen only where a subscription would
    /// be added.
    #[inline(never)]
    pub fn subscribe(
        &mut self,
        alloc: Global,
        stream: StreamId,
        grain: GrainId,
        start: Token,
        position: usize,
    ) -> Result<Added, AllocError>
        requires position { position + 2 < 2 ^ 64 }
        ensures performs { Performs self.old self.new result (subscribe self.old stream grain start position) }
        ensures memory { OnErr result (is_some (next_number self.old.registry) ≡ true) }
    {
        let Some(number) = self.registry.next_number() else {
            return Ok(Added::TooMany);
        };
        self.states.reserve(1)?;
        self.tags.reserve(1)?;
        let len = self.resumes.len();
        let tag = stream_tag(&self.registry, &self.tags, &stream);
        let sub = SubName::Explicit(number);
        let rank = first_past(&self.registry, self.resumes.numbers(), Some(&sub));
        self.resumes.push(alloc, rank, position)?;
        match self.registry.add(alloc, stream, grain, start) {
            Ok(added) => {
                self.states
                    .push_reserved(SubState::new(alloc, start, position));
                self.tags.push_reserved(tag);
                Ok(added)
            }
            Err(error) => {
                self.resumes.truncate(len);
                Err(error)
            }
        }
    }

    /// The rules make subscriptions of events, which are sought from a position on: all of those whose names
    /// aren't there, or none.
    ///
    /// # Errors
    /// The call failed to allocate, and nothing has changed. That can happen only where there would be more
    /// subscriptions than before.
    #[inline(never)]
    pub fn imply(
        &mut self,
        alloc: Global,
        events: &Span,
        position: usize,
    ) -> Result<Implied, AllocError>
        requires few { length events.now ≤ PULL_EVENTS }
        requires position { position + 2 < 2 ^ 64 }
        ensures performs { Performs self.old self.new result (imply self.old events.now position) }
        ensures memory { OnErr result (length self.old.registry.names < length (imply self.old events.now position).0.registry.names) }
    {
        let len = self.registry.len();
        if let Implied::TooMany = self.registry.imply(alloc, events)? {
            return Ok(Implied::TooMany);
        }
        let added = add_rows(
            alloc,
            &self.registry,
            events,
            position,
            &mut self.states,
            &mut self.tags,
            &mut self.resumes,
        );
        if let Err(error) = added {
            self.registry.truncate(len);
            return Err(error);
        }
        Ok(Implied::Implied)
    }

    /// From a batch on, grains of a kind consume the streams of a namespace.
    ///
    /// # Errors
    /// The call failed to allocate, and nothing has changed. That can happen only where the rule would be
    /// added.
    #[inline(never)]
    pub fn add_rule(
        &mut self,
        alloc: Global,
        kind: Name,
        namespace: Name,
        seq: u64,
    ) -> Result<RuleAdded, AllocError>
        ensures performs { Performs self.old self.new result (add_rule self.old kind namespace seq) }
        ensures memory { OnErr result ((add_rule self.old kind namespace seq).1 ≡ RuleAdded.Added) }
    {
        self.registry.add_rule(alloc, kind, namespace, seq)
    }

    /// The grain of the subscription with a number unsubscribes. It takes no memory.
    pub fn close(&mut self, number: usize) -> Closing
        requires { number < length self.old.registry.names }
        ensures { (self.new, result) ≡ close self.old number }
    {
        // No name stands twice, so that the name has this number.
        prove!(number < self.registry.len());
        let sub = self.registry.at(number).0;
        let closing = self.registry.close(&sub);
        if let Closing::Done = closing {
            let state = &mut self.states[number];
            state.close();
            refresh(&mut self.resumes, number, state);
        }
        closing
    }

    /// The positions of a turn are handled too, as `SubState::commit` says.
    ///
    /// # Errors
    /// The call failed to allocate, and nothing has changed.
    pub fn commit(
        &mut self,
        alloc: Global,
        number: usize,
        positions: &Row<usize>,
        note: u64,
    ) -> Result<(), AllocError>
        requires within { number < length self.old.registry.names }
        requires rising { rises_from (past (state_at self.old number).handled) positions.now ≡ true }
        requires room { past positions.now < 2 ^ 64 }
        ensures { self.new ≡ (if is_ok result then with_state self.old number (committed positions.now note (state_at self.old number)) else self.old) }
    {
        let state = &mut self.states[number];
        state.commit(alloc, positions, note)?;
        refresh(&mut self.resumes, number, state);
        Ok(())
    }

    /// The next event of the agent's cache that a subscription is owed. Where the cache has nothing more for it, its
    /// cursor goes to the end of the cache, and its resume too unless something is outstanding. It takes no
    /// memory.
    ///
    /// # Errors
    /// `StaleAgent` where the caller names another generation than the agent's. Nothing has changed then.
    pub fn deliver(
        &mut self,
        number: usize,
        agent: &Agent,
        generation: u64,
        outstanding: bool,
    ) -> Result<Sought, StaleAgent>
        requires within { number < length self.old.registry.names }
        requires cursor { (state_at self.old number).live ≡ true → agent.now.cache.low ≤ (state_at self.old number).cursor }
        requires high { high agent.now.cache + 2 < 2 ^ 64 }
        ensures sought { (self.new, result) ≡ if_current agent.now generation self.old (stepped self.old number (next_event agent.now.cache (state_at self.old number) (registration_at self.old number).stream outstanding)) }
        ensures found { IfOk result (IsFound agent.now.cache (state_at self.old number)) }
    {
        self.last = number;
        let stream = self.registry.stream(number);
        let tag = self.tags[number];
        let state = &mut self.states[number];
        let sought = agent.deliver(generation, state, stream, tag, outstanding)?;
        if let Sought::Nothing = sought {
            refresh(&mut self.resumes, number, state);
        }
        Ok(sought)
    }

    /// The cursor of a subscription goes past an event that was delivered. It takes no memory.
    pub fn advance(&mut self, number: usize, position: usize)
        requires within { number < length self.old.registry.names }
        requires room { position + 3 < 2 ^ 64 }
        ensures { self.new ≡ with_state self.old number (advanced position (state_at self.old number)) }
    {
        self.states[number].advance(position);
    }

    /// An event of a cache is handled, at its position, as `commit` and `advance` say, and the next one that the subscription
    /// is owed is sought, as `deliver` does where nothing is outstanding.
    ///
    /// # Errors
    /// The call failed to allocate, and nothing has changed.
    pub fn handle(
        &mut self,
        alloc: Global,
        number: usize,
        position: usize,
        note: u64,
        cache: &QueueCache,
    ) -> Result<Sought, AllocError>
        requires within { number < length self.old.registry.names }
        requires rising { rises_from (past (state_at self.old number).handled) (position ∷ []) ≡ true }
        requires room { position + 3 < 2 ^ 64 }
        requires cursor { (state_at self.old number).live ≡ true → cache.now.low ≤ position + 1 }
        requires high { high cache.now + 2 < 2 ^ 64 }
        ensures sought { IfOk result (λ told. (self.new, told) ≡ stepped self.old number (next_event cache.now (advanced position (committed (position ∷ []) note (state_at self.old number))) (registration_at self.old number).stream false)) }
        ensures refused { OnErr result (self.new ≡ self.old) }
    {
        self.last = number;
        let stream = self.registry.stream(number);
        let tag = self.tags[number];
        let state = &mut self.states[number];
        state.commit(alloc, &Row::of(position), note)?;
        state.advance(position);
        let sought = next_event(state, cache, stream, tag, false);
        refresh(&mut self.resumes, number, state);
        Ok(sought)
    }

    /// What a subscription hasn't acknowledged is sought again: its cursor goes back to its resume, where
    /// it is open. It takes no memory.
    ///
    /// # Errors
    /// `StaleAgent` where the caller names another generation than the agent's. Nothing has changed then.
    pub fn retry(
        &mut self,
        number: usize,
        agent: &Agent,
        generation: u64,
    ) -> Result<Retried, StaleAgent>
        requires { number < length self.old.registry.names }
        ensures { (self.new, result) ≡ if_current agent.now generation self.old (stepped self.old number (retry (state_at self.old number))) }
    {
        agent.retry(generation, &mut self.states[number])
    }

    /// Acknowledges what a subscription is owed up to and with a handled event, which its token names. The
    /// event is found in a logarithmic number of steps. It takes no memory.
    ///
    /// # Errors
    /// `StaleAgent` where the caller names another generation than the agent's. Nothing has changed then.
    pub fn ack(
        &mut self,
        number: usize,
        agent: &Agent,
        generation: u64,
        queue: &PartitionQueue,
        token: &Token,
    ) -> Result<Acked, StaleAgent>
        requires within { number < length self.old.registry.names }
        requires handled { All (λ position. position < length queue.now.events) (state_at self.old number).handled }
        requires few { length queue.now.events ≤ MOST_EVENTS }
        ensures { (self.new, result) ≡ if_current agent.now generation self.old (stepped self.old number (ack (state_at self.old number) queue.now token.now)) }
    {
        let state = &mut self.states[number];
        let acked = agent.ack(generation, state, queue, token)?;
        if let Acked::Acked = acked {
            refresh(&mut self.resumes, number, state);
        }
        Ok(acked)
    }

    /// The cursors of all open subscriptions go back to their resumes. It is one walk, and takes no memory.
    pub fn rewind_all(&mut self)
        ensures { self.new ≡ rewound_all self.old }
    {
        rewind_each(self.states.as_mut_slice());
    }

    /// The cursors of the open ones of these subscriptions go back to their resumes. It takes no memory.
    pub fn rewind(&mut self, numbers: &[usize])
        requires { All (λ number. number < length self.old.registry.names) numbers.now }
        ensures { AreRewound numbers.now self.old self.new }
    {
        rewind_these(self.states.as_mut_slice(), numbers);
    }
}
