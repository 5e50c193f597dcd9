//! A drain of a partition: operations, one after another, until nothing is left to do.
ghost use Rattle.std.specs.Prelude.{◌≡◌, ◌<◌, length, IfOk, None, OnErr, Some};
ghost use Rattle.stream_model.specs.declared.op.Op.TheVariants.{Commit, Deliver, Pull};
ghost use Rattle.stream_model.specs.Draining.{acknowledge, after_begin, after_commit, ask, deliver_once_more, drain, drain_all, drain_round, empty_mailboxes, last_handled, open_names, serve, serve_each, take_turn, DrainsTo, deliver_up_to};
ghost use Rattle.stream_ident.specs.Name.{grain_lt};
ghost use Rattle.stream_ident.specs.Words.{keys_where, least};
ghost use Rattle.stream_model.specs.Looks.{is_running};
ghost use Rattle.stream_model.specs.Positions.{sub_at};
ghost use Rattle.stream_model.specs.declared.plain.Subscription.{Subscription};
ghost use Rattle.step_core.specs.declared.draining.Stop.TheVariants.{Memory};
ghost use Rattle.step_core.specs.DrainPhases.{Asks, BreaksOff, Follows, after_deliveries, deliver_told, is_acknowledged, is_committed, is_nothing, pull_told};
ghost use Rattle.step_core.specs.Finishing.{Finishes};
ghost use Rattle.step_core.specs.Replied.{reply_of, reply_with};
ghost use Rattle.step_core.specs.Serving.{name_of, serve_up_to};

use crate::outcome::Outcome;
use crate::partition::Partition;
use crate::serving::next_note;
use pulling_agent::Sought;
use std::alloc::{AllocError, Global};
use stream_ident::{GrainId, SubName};
use stream_model::{DrainEnd, Reply};

/// The most events of a pull.
const PULL_MAX: u32 = 32;

/// Why a drain makes no more operations.
#[derive(Debug, Drop)]
enum Stop {
    /// A call failed to allocate.
    Memory(AllocError),
    /// A pull would have made more records than the limit.
    TooMany,
    /// A turn or an activation would have been one rise more than the limit.
    Spent,
    /// An operation had a reply other than those that are looked for, or the rounds didn't suffice.
    Astray,
}

impl From<AllocError> for Stop {
    ghost from_gives = { λ wanting stop. stop ≡ Memory wanting };

    fn from(wanting: AllocError) -> Stop {
        Stop::Memory(wanting)
    }
}

impl Partition {
    /// Does all that is left to do: what waits is handled, each open subscription is delivered to and its
    /// events handled, one at a time, and more is pulled, until the queue has nothing more. The note of each
    /// turn is one more than that before. Nothing is done where a turn runs.
    ///
    /// # Errors
    /// The call failed to allocate, which it never does where a turn runs. The first of the operations are
    /// done, and no other: it was the next one that failed, and so one that `step` may fail to allocate for
    /// and never one that is refused. A turn that was begun may run then, and the next drain is stuck until
    /// it is committed or its grain deactivated.
    pub fn drain(&mut self, alloc: Global) -> Result<DrainEnd, AllocError>
        ensures drains { DrainsTo self.old self.new result }
        ensures finishes { IfOk result (Finishes self.old self.new) }
        ensures memory { OnErr result (BreaksOff self.old self.new (drain self.old).0.entries) }
        ensures idle { OnErr result (least grain_lt (keys_where is_running self.old.grains) ≡ None) }
    {
        if let Some(grain) = self.least_running() {
            return Ok(DrainEnd::Stuck { grain });
        }
        let turns = self.turns();
        match drain_all(self, alloc) {
            Ok(()) => Ok(DrainEnd::Drained {
                turns: (self.turns() - turns) as usize,
            }),
            Err(Stop::TooMany) => Ok(DrainEnd::TooMany),
            Err(Stop::Spent) => Ok(DrainEnd::Spent),
            Err(Stop::Astray) => unreachable!(),
            Err(Stop::Memory(wanting)) => Err(wanting),
        }
    }
}

/// Rounds with a pull after each, until the cache has all events of the queue.
fn drain_all(partition: &mut Partition, alloc: Global) -> Result<(), Stop>
    ensures { Follows partition.old partition.new result (drain_all partition.old) }
{
    let rounds = partition.queued().saturating_sub(partition.high());
    for _ in 0..=rounds {
        drain_round(partition, alloc)?;
        if !pull_next(partition, alloc)? {
            return Ok(());
        }
    }
    Err(Stop::Astray)
}

/// Pulls, and says whether events went into the cache.
fn pull_next(partition: &mut Partition, alloc: Global) -> Result<bool, Stop>
    ensures { Asks partition.old partition.new result (Pull partition.old.generation 32) pull_told }
{
    match partition.pull(alloc, PULL_MAX) {
        Ok(told) => is_pulled(told),
        Err(wanting) => Err(Stop::Memory(wanting)),
    }
}

/// Whether the reply of an operation says that events went into the cache, or that the queue had none.
fn is_pulled(told: Outcome) -> Result<bool, Stop>
    ensures { result ≡ pull_told (reply_of told) }
{
    match told {
        Reply::Pulled { .. } => Ok(true),
        Reply::Dry => Ok(false),
        Reply::TooMany => Err(Stop::TooMany),
        _ => Err(Stop::Astray),
    }
}

/// A round: the mailboxes are emptied, and then each open subscription is served, in the order of names.
#[inline(never)]
fn drain_round(partition: &mut Partition, alloc: Global) -> Result<(), Stop>
    ensures { Follows partition.old partition.new result (drain_round partition.old) }
{
    empty_mailboxes(partition, alloc)?;
    serve_each(partition, alloc)
}

/// While something waits, a turn of the least grain for which it does.
fn empty_mailboxes(partition: &mut Partition, alloc: Global) -> Result<(), Stop>
    ensures { Follows partition.old partition.new result (empty_mailboxes partition.old) }
{
    for _ in 0..partition.all_waiting() {
        let Some(grain) = partition.least_waiting() else {
            return Ok(());
        };
        take_turn(partition, alloc, &grain)?;
    }
    match partition.least_waiting() {
        Some(_) => Err(Stop::Astray),
        None => Ok(()),
    }
}

/// Serves each open subscription that is due, in the order of names, and at once those that follow one another for which
/// the cache has nothing. To serve another one would change nothing.
fn serve_each(partition: &mut Partition, alloc: Global) -> Result<(), Stop>
    ensures { Follows partition.old partition.new result (serve_each (open_names partition.old) partition.old) }
{
    let mut last = None;
    while let Some(number) = partition.next_due(last) {
        let end = match partition.catch_up_from(number) {
            Some(end) => end,
            None => {
                serve_number(partition, alloc, number)?;
                number
            }
        };
        last = Some(end);
    }
    Ok(())
}

/// Serves the subscription with a number: all that the cache has for it is delivered and handled, the last of it is
/// acknowledged, and one more delivery finds nothing. As long as that comes to the same, it is done at once.
fn serve_number(partition: &mut Partition, alloc: Global, number: usize) -> Result<(), Stop>
    requires { number < length partition.old.subs }
    ensures { Follows partition.old partition.new result
        (serve (name_of partition.old number) partition.old (sub_at partition.old (name_of partition.old number))) }
{
    let most = partition.high().saturating_sub(partition.cursor(number));
    let Some(mut position) = partition.ready_next(number) else {
        return serve_rest(partition, alloc, number, most);
    };
    for done in 0..most {
        match partition.handle_next(alloc, number, position) {
            None => return serve_rest(partition, alloc, number, most - done),
            Some(Sought::Next { position: next }) => position = next,
            Some(Sought::Nothing) => return Ok(()),
            Some(Sought::Closed) => return Ok(()),
        }
    }
    serve_rest(partition, alloc, number, 0)
}

/// Serves the subscription with a number, to which so many events are delivered at most.
fn serve_rest(
    partition: &mut Partition,
    alloc: Global,
    number: usize,
    most: usize,
) -> Result<(), Stop>
    requires { number < length partition.old.subs }
    ensures { (r : Subscription) → sub_at partition.old (name_of partition.old number) ≡ Some r
        → Follows partition.old partition.new result (serve_up_to most (name_of partition.old number) r.grain partition.old) }
{
    if partition.catch_up(number) {
        return Ok(());
    }
    let sub = partition.name(number);
    let grain = partition.grain(number);
    deliver_all(partition, alloc, &sub, &grain, most)?;
    settle(partition, alloc, &sub)
}

/// Goes on after the deliveries of a subscription: the last of what it has handled is acknowledged, and one more delivery
/// finds nothing. Where that would change nothing, it isn't done.
fn settle(partition: &mut Partition, alloc: Global, sub: &SubName) -> Result<(), Stop>
    ensures { Follows partition.old partition.new result (after_deliveries sub.now partition.old) }
{
    if partition.is_settled(sub) {
        return Ok(());
    }
    acknowledge(partition, sub)?;
    deliver_once_more(partition, alloc, sub)
}

/// Delivers to a subscription, with a turn of its grain after each delivery, until there is nothing more.
fn deliver_all(
    partition: &mut Partition,
    alloc: Global,
    sub: &SubName,
    grain: &GrainId,
    most: usize,
) -> Result<(), Stop>
    ensures { Follows partition.old partition.new result (deliver_up_to most sub.now grain.now partition.old) }
{
    for _ in 0..most {
        if !deliver_next(partition, alloc, sub)? {
            return Ok(());
        }
        take_turn(partition, alloc, grain)?;
    }
    if deliver_next(partition, alloc, sub)? {
        return Err(Stop::Astray);
    }
    Ok(())
}

/// Delivers, and says whether an event went into the mailbox.
fn deliver_next(partition: &mut Partition, alloc: Global, sub: &SubName) -> Result<bool, Stop>
    ensures { Asks partition.old partition.new result (Deliver partition.old.generation sub.now) deliver_told }
{
    match partition.deliver(alloc, sub) {
        Ok(told) => is_delivered(told),
        Err(wanting) => Err(Stop::Memory(wanting)),
    }
}

/// Whether the reply of an operation says that an event went into the mailbox, or that there was none.
fn is_delivered(told: Outcome) -> Result<bool, Stop>
    ensures { result ≡ deliver_told (reply_of told) }
{
    match told {
        Reply::Delivered { .. } => Ok(true),
        Reply::Nothing => Ok(false),
        Reply::Spent => Err(Stop::Spent),
        _ => Err(Stop::Astray),
    }
}

/// Takes a turn of a grain: begins it, and commits it where it runs. A repeat is dropped.
fn take_turn(partition: &mut Partition, alloc: Global, grain: &GrainId) -> Result<(), Stop>
    ensures { Follows partition.old partition.new result (take_turn grain.now partition.old) }
{
    let outcome = partition.begin(grain, 1);
    follow_begin(partition, alloc, grain, &outcome)
}

/// Goes on after what a Begin came to.
fn follow_begin(
    partition: &mut Partition,
    alloc: Global,
    grain: &GrainId,
    outcome: &Outcome,
) -> Result<(), Stop>
    ensures { Follows partition.old partition.new result (after_begin grain.now partition.old (reply_with partition.old.log outcome.now)) }
{
    match outcome {
        Reply::Turn {
            activation,
            turn,
            note,
            ..
        } => {
            let note = next_note(*note);
            end_turn(partition, alloc, grain, *activation, *turn, note)
        }
        Reply::Dropped { .. } => Ok(()),
        Reply::Spent => Err(Stop::Spent),
        _ => Err(Stop::Astray),
    }
}

/// Commits a turn.
fn end_turn(
    partition: &mut Partition,
    alloc: Global,
    grain: &GrainId,
    activation: u64,
    turn: u64,
    note: u64,
) -> Result<(), Stop>
    ensures { Follows partition.old partition.new result (ask partition.old (Commit grain.now activation turn note) after_commit) }
{
    match partition.commit(alloc, grain, activation, turn, note) {
        Ok(told) => {
            if is_committed(told) {
                Ok(())
            } else {
                Err(Stop::Astray)
            }
        }
        Err(wanting) => Err(Stop::Memory(wanting)),
    }
}

/// Whether the reply of an operation says that the events of a turn are handled.
fn is_committed(told: Outcome) -> bool
    ensures { result ≡ is_committed (reply_of told) }
{
    matches!(told, Reply::Committed { .. })
}

/// Acknowledges the last event that a subscription has handled, where there is one.
fn acknowledge(partition: &mut Partition, sub: &SubName) -> Result<(), Stop>
    ensures { Follows partition.old partition.new result
        (acknowledge sub.now partition.old (last_handled partition.old (sub_at partition.old sub.now))) }
{
    let Some(token) = partition.last_handled(sub) else {
        return Ok(());
    };
    let told = partition.ack(sub, token);
    if !is_acknowledged(told) {
        return Err(Stop::Astray);
    }
    Ok(())
}

/// Whether the reply of an operation says that the resume stands past an event.
fn is_acknowledged(told: Outcome) -> bool
    ensures { result ≡ is_acknowledged (reply_of told) }
{
    matches!(told, Reply::Acked)
}

/// Delivers to a subscription for which the cache has nothing more, so that its resume follows.
fn deliver_once_more(partition: &mut Partition, alloc: Global, sub: &SubName) -> Result<(), Stop>
    ensures { Follows partition.old partition.new result (deliver_once_more sub.now partition.old) }
{
    match partition.deliver(alloc, sub) {
        Ok(told) => {
            if is_nothing(told) {
                Ok(())
            } else {
                Err(Stop::Astray)
            }
        }
        Err(wanting) => Err(Stop::Memory(wanting)),
    }
}

/// Whether the reply of an operation says that the cache has no further event.
fn is_nothing(told: Outcome) -> bool
    ensures { result ≡ is_nothing (reply_of told) }
{
    matches!(told, Reply::Nothing)
}
