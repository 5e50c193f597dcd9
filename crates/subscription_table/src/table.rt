//! The table, with the rows that stand beside the names of its registry: states, tags, and the resumes in the order of
//! the names.
ghost use Rattle.std.specs.Prelude.{◌≡◌, ◌<◌, ◌≤◌, ◌↔◌, ◌+◌, ◌^◌, ◌++◌, None, Some, length, IfNone, IfSome, IsTrue, OnErr, OnOk, All, drop, is_ok, map, if◌then◌else◌};
ghost use Rattle.stream_ident.specs.declared.limits.TheConstants.{MOST_RULES, MOST_SUBS};
ghost use Rattle.std.specs.Option.{option_copied};
ghost use Rattle.stream_ident.specs.SubName.{sub_lt};
ghost use Rattle.queue_mapper.specs.Place.{tag_of};
ghost use Rattle.pubsub_registry.specs.Index.{AreUnique};
ghost use Rattle.ranked_index.specs.Leaves.{with_leaf};
ghost use Rattle.ranked_index.specs.Listed.{AreRising};
ghost use Rattle.ranked_index.specs.Ranked.{is_up_to, AreRanked, IsFirstPast};
ghost use Rattle.subscription_table.specs.Leaves.{due_after, least_resume, slowest};
ghost use Rattle.subscription_table.specs.LeavesOf.{leaves_of, open_resume};
ghost use Rattle.subscription_table.specs.Standing.{kept_of, name_of, tags_of, AreRecords};
ghost use Rattle.subscription_table.specs.Table.{empty, name_at, number_of, registration_at, state_at, new_states, rewound_open};
ghost use Rattle.subscription_table.specs.Rows.{AreAllNamed, AreNamed, AreRewoundAt};

mod changes;
mod idle;

use consumer_grain::SubState;
use partition_queue::Span;
use pubsub_registry::Registry;
use queue_mapper::tag;
use ranked_index::Resumes;
use std::alloc::{AllocError, Global};
use std::marker::Model;
use stream_ident::{GrainId, StreamId, SubName};

/// The subscriptions of a partition.
///
/// A subscription goes by its number, which is its place in the order in which they were made and never
/// changes. A contract sees the table as the registry, whose names have the numbers 0, 1, 2 and so on, and
/// by number how far each subscription is. The tags of the streams, the order of the names, the trees of the resumes
/// and the room that all take in memory are no part of it.
#[derive(Debug)]
pub struct SubscriptionTable {
    registry: Registry,
    states: Vec<SubState>,
    tags: Vec<u8>,
    resumes: Resumes,
    // The number of the subscription whose next event was sought last: the next calls mostly ask for it again.
    last: usize,
}

impl Drop for SubscriptionTable {
    fn drop(self) {
        let Self {
            registry: _,
            states: _,
            tags: _,
            resumes: _,
            last: _,
        } = self;
    }
}

impl Model for SubscriptionTable {
    ghost use Rattle.subscription_table.specs.Standing.{IsTable};
    ghost use Rattle.subscription_table.specs.Table.{PlainTable};

    ghost Value = { PlainTable };

    ghost view = { λ t. record { registry = t.registry; states = t.states.items } };

    ghost invariant = { λ t. IsTable (record { registry = t.registry; states = t.states.items }) t.tags.items t.resumes };
}

impl SubscriptionTable {
    /// A table without subscriptions and rules, for at most this many of them. It takes no memory.
    pub fn new(alloc: Global, most_names: usize, most_rules: usize) -> SubscriptionTable
        requires names { most_names ≤ MOST_SUBS }
        requires rules { most_rules ≤ MOST_RULES }
        ensures { result ≡ empty most_names most_rules }
    {
        SubscriptionTable {
            registry: Registry::new(alloc, most_names, most_rules),
            states: Vec::new(alloc),
            tags: Vec::new(alloc),
            resumes: Resumes::new(alloc),
            last: 0,
        }
    }

    /// How many subscriptions there are, closed and implicit ones counted. Each has a state that agrees with
    /// its registration, and no name has two numbers.
    pub fn len(&self) -> usize
        ensures len { result ≡ length self.now.registry.names }
        ensures fits { length self.now.registry.names ≤ self.now.registry.most_names }
        ensures few { self.now.registry.most_names ≤ MOST_SUBS }
        ensures unique { AreUnique self.now.registry.names }
        ensures records { AreRecords self.now }
    {
        self.registry.len()
    }

    /// Whether there are no subscriptions.
    pub fn is_empty(&self) -> bool
        ensures { IsTrue result ↔ (length self.now.registry.names ≡ 0) }
    {
        self.len() == 0
    }

    /// The number of a name. It costs a look-up, and less for the subscription whose next event was sought last.
    pub fn find(&self, sub: &SubName) -> Option<usize>
        ensures number { result ≡ number_of self.now sub.now }
        ensures within { IfSome result (λ number. number < length self.now.registry.names) }
    {
        if let Some(number) = self.find_last(sub) {
            return Some(number);
        }
        self.registry.find(sub)
    }

    /// The number of a name, where it is that of the subscription whose next event was sought last.
    fn find_last(&self, sub: &SubName) -> Option<usize>
        ensures number { IfSome result (λ number. Some number ≡ number_of self.now sub.now) }
        ensures within { IfSome result (λ number. number < length self.now.registry.names) }
    {
        let number = self.last;
        if number >= self.len() {
            return None;
        }
        (*sub == self.name(number)).then_some(number)
    }

    /// The name with a number.
    pub fn name(&self, number: usize) -> SubName
        requires { number < length self.now.registry.names }
        ensures { result ≡ name_at self.now number }
    {
        self.registry.name(number)
    }

    /// The stream of the subscription with a number.
    pub fn stream(&self, number: usize) -> &StreamId
        requires { number < length self.now.registry.names }
        ensures { result.now ≡ (registration_at self.now number).stream }
    {
        self.registry.stream(number)
    }

    /// The grain of the subscription with a number.
    pub fn grain(&self, number: usize) -> &GrainId
        requires { number < length self.now.registry.names }
        ensures { result.now ≡ (registration_at self.now number).grain }
    {
        self.registry.grain(number)
    }

    /// The tag of the stream of the subscription with a number.
    pub fn tag(&self, number: usize) -> u8
        requires { number < length self.now.registry.names }
        ensures { result ≡ tag_of (registration_at self.now number).stream }
    {
        self.tags[number]
    }

    /// How far the subscription with a number is.
    pub fn state(&self, number: usize) -> &SubState
        requires { number < length self.now.registry.names }
        ensures { result.now ≡ state_at self.now number }
    {
        &self.states[number]
    }

    /// Whether the name of the subscription with a number is less than that of another. It costs a constant, and compares
    /// no names.
    pub fn is_before(&self, number: usize, other: usize) -> bool
        requires number { number < length self.now.registry.names }
        requires other { other < length self.now.registry.names }
        ensures { result ≡ sub_lt (name_at self.now number) (name_at self.now other) }
    {
        self.resumes.rank(number) < self.resumes.rank(other)
    }

    /// The numbers in the order of the names. It costs a constant.
    pub fn by_name(&self) -> &[usize]
        ensures { AreRanked name_of sub_lt self.now.registry.names result.now }
    {
        self.resumes.numbers()
    }

    /// The least resume of an open subscription, where one is open. It costs a constant.
    pub fn least_resume(&self) -> Option<usize>
        ensures { result ≡ least_resume (leaves_of self.now.registry.names self.now.states) }
    {
        self.resumes.least_resume()
    }

    /// The name of the open subscription with the least resume, and of those the least name, where one is
    /// open. It costs the logarithm of the length.
    pub fn slowest(&self) -> Option<SubName>
        ensures { result ≡ slowest (leaves_of self.now.registry.names self.now.states) }
    {
        let number = self.resumes.top()?;
        Some(self.name(number))
    }

    /// The number of the next subscription that is due: open, with something to acknowledge or a resume below
    /// `high`. It is the one with the least name that is greater than `after`, else the least of all. It
    /// costs the logarithm of the length.
    pub fn due_after(&self, after: Option<&SubName>, high: usize) -> Option<usize>
        ensures none { IfNone result (due_after high (option_copied after.entry) (leaves_of self.now.registry.names self.now.states) ≡ None) }
        ensures within { IfSome result (λ number. number < length self.now.registry.names) }
        ensures some { IfSome result (λ number. due_after high (option_copied after.entry) (leaves_of self.now.registry.names self.now.states) ≡ Some (name_at self.now number)) }
    {
        let from = first_past(&self.registry, self.resumes.numbers(), after);
        self.resumes.due_from(from, high)
    }

    /// The number of the next subscription that is due, as `due_after` says, after the name of the subscription with
    /// a number. It costs the logarithm of the length, and compares no names.
    pub fn due_past(&self, number: usize, high: usize) -> Option<usize>
        requires { number < length self.now.registry.names }
        ensures none { IfNone result (due_after high (Some (name_at self.now number)) (leaves_of self.now.registry.names self.now.states) ≡ None) }
        ensures within { IfSome result (λ found. found < length self.now.registry.names) }
        ensures some { IfSome result (λ found. due_after high (Some (name_at self.now number)) (leaves_of self.now.registry.names self.now.states) ≡ Some (name_at self.now found)) }
    {
        let from = self.resumes.rank(number) + 1;
        self.resumes.due_from(from, high)
    }
}

/// Adds the states, tags and leaves of those names of a registry that have none yet. Each has handled
/// nothing, and is sought from a position on. The events are those that the names were made of.
///
/// # Errors
/// The call failed to allocate, and nothing has changed. That can happen only where a name has none yet.
#[inline(never)]
fn add_rows(
    alloc: Global,
    registry: &Registry,
    events: &Span,
    position: usize,
    states: &mut Vec<SubState>,
    tags: &mut Vec<u8>,
    resumes: &mut Resumes,
) -> Result<(), AllocError>
    requires tags { length tags.old.items ≡ length states.old.items }
    requires leaves { length resumes.old.leaves ≡ length states.old.items }
    requires named { AreNamed resumes.old registry.now.names }
    requires below { position + 2 < 2 ^ 64 }
    ensures states { states.new.items ≡ (if is_ok result then states.old.items ++ new_states position (drop (length states.old.items) registry.now.names) else states.old.items) }
    ensures tags { tags.new.items ≡ (if is_ok result then tags.old.items ++ tags_of (drop (length states.old.items) registry.now.names) else tags.old.items) }
    ensures named { OnOk result (AreAllNamed position resumes.old resumes.new registry.now.names) }
    ensures same { OnErr result (resumes.new ≡ resumes.old) }
    ensures memory { OnErr result (length states.old.items < length registry.now.names) }
{
    let len = states.len();
    let more = registry.len() - len;
    states.reserve(more)?;
    tags.reserve(more)?;
    push_leaves(alloc, registry, position, resumes)?;
    for number in len..registry.len() {
        states.push_reserved(SubState::new(alloc, registry.start(number), position));
        tags.push_reserved(event_tag(events, registry.stream(number)));
    }
    Ok(())
}

/// The tag of a stream. It costs a digest only where the stream has no subscription yet.
fn stream_tag(registry: &Registry, tags: &[u8], stream: &StreamId) -> u8
    requires { tags.now ≡ tags_of registry.now.names }
    ensures { result ≡ tag_of stream.now }
{
    match registry.number_on(stream) {
        Some(number) => tags[number],
        None => tag(stream),
    }
}

/// The tag of a stream. It costs a digest only where none of the events is of the stream.
fn event_tag(events: &Span, stream: &StreamId) -> u8
    ensures { result ≡ tag_of stream.now }
{
    for place in 0..events.len() {
        let header = events.at(place);
        if *stream == *header.stream() {
            return header.tag();
        }
    }
    tag(stream)
}

/// Pushes the leaves of those names of a registry that have none yet, each with this resume and at the rank of its name.
///
/// # Errors
/// The call failed to allocate, and nothing has changed. That can happen only where a name has none yet.
#[inline(never)]
fn push_leaves(
    alloc: Global,
    registry: &Registry,
    position: usize,
    resumes: &mut Resumes,
) -> Result<(), AllocError>
    requires named { AreNamed resumes.old registry.now.names }
    requires below { position + 2 < 2 ^ 64 }
    ensures named { OnOk result (AreAllNamed position resumes.old resumes.new registry.now.names) }
    ensures same { OnErr result (resumes.new ≡ resumes.old) }
    ensures memory { OnErr result (length resumes.old.leaves < length registry.now.names) }
{
    let len = resumes.len();
    for number in len..registry.len() {
        let rank = first_past(registry, resumes.numbers(), Some(&registry.name(number)));
        if let Err(error) = resumes.push(alloc, rank, position) {
            resumes.truncate(len);
            return Err(error);
        }
    }
    Ok(())
}

/// The first rank whose name is greater than the given one, 0 where none is given. A binary search.
fn first_past(registry: &Registry, order: &[usize], after: Option<&SubName>) -> usize
    requires { AreRising name_of sub_lt registry.now.names order.now }
    ensures { IsFirstPast name_of sub_lt (option_copied after.entry) registry.now.names order.now result }
{
    let Some(name) = after else {
        return 0;
    };
    order.partition_point(|number| is_up_to(registry, *number, name))
}

/// Whether there is a name with this number, and it is not greater than the given one.
fn is_up_to(registry: &Registry, number: usize, name: &SubName) -> bool
    ensures { result ≡ is_up_to name_of sub_lt registry.now.names name.now number }
{
    number < registry.len() && !name.is_before(&registry.name(number))
}

/// Sets the leaf with a number to what is kept of a state. It takes no memory.
fn refresh(resumes: &mut Resumes, number: usize, state: &SubState)
    requires within { number < length resumes.old.leaves }
    requires below { state.now.resume + 2 < 2 ^ 64 }
    ensures { resumes.new ≡ with_leaf number (kept_of state.now) resumes.old }
{
    resumes.set(number, open_resume(state), state.is_unacknowledged());
}

/// The resume of a subscription, none where it is closed.
fn open_resume(state: &SubState) -> Option<usize>
    ensures { result ≡ open_resume state.now.live state.now.resume }
{
    state.live.then_some(state.resume)
}

/// The cursor goes back to the resume, where the state is open.
fn rewind_open(state: &mut SubState)
    ensures { state.new ≡ rewound_open state.old }
{
    if state.live {
        state.rewind();
    }
}

/// The cursors of all open states go back.
fn rewind_each(states: &mut [SubState])
    ensures { states.new ≡ map rewound_open states.old }
{
    for state in states.iter_mut() {
        rewind_open(state);
    }
}

/// The cursors of the open ones with these numbers go back.
fn rewind_these(states: &mut [SubState], numbers: &[usize])
    requires { All (λ number. number < length states.old) numbers.now }
    ensures { AreRewoundAt numbers.now states.old states.new }
{
    for number in numbers {
        rewind_open(&mut states[*number]);
    }
}
