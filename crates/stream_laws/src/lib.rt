//! What holds of every legal history of a partition.
//!
//! Each function has no parameter and no effect: its contract is the law, which its proof shows of the
//! definitions alone. A history is legal where each reply is that of the plain partition's step; repeats,
//! stale agents, moves, deactivations, closed and implicit subscriptions are all among them.
#![tactic(auto)]

ghost use Rattle.stream_laws.specs.DrainLaws.{DrainEnds, DrainStands, DrainedIsQuiet, DrainedTurns};
ghost use Rattle.stream_laws.specs.Laws.{CacheInBounds, CommitsBegun, CommittedOnce, DropsAreLeast, FrontsAreLegal, HandledInOrder, HistoriesGrow, LatestIsNeverMissed, LimitsAreKept, LogIsPublished, MissesBelowLow, NamesDiffer, NoneAfterClose, NoneTwice, NumbersAreNew, OneHistory, OneTurnAtATime, OwedIsKept, PurgesAreLeast, QuietIsDone, QuietOwesNoOther, RecordsAgree, RecordsAreOpen, TokensRise, TurnsAreLongest, TurnsInOrder, UnknownHasNoRecord};

/// What every legal history promises, in one: each subscription handles what it is owed in order, no event
/// twice and none after its unsubscribe, each commit has the number of exactly one turn before it, no number is committed
/// twice, and a start token is refused exactly where it is below the low token.
pub fn one_history()
    ensures { OneHistory }
{}

/// What a subscription has handled is a prefix of what it is owed: in the order of the queue, without a
/// gap, nothing twice.
pub fn handled_in_order()
    ensures { HandledInOrder }
{}

/// Along what a subscription is owed, and along what it has handled, tokens rise: no event is there twice.
pub fn none_twice()
    ensures { NoneTwice }
{}

/// What a subscription has handled stays as it is once it is unsubscribed.
pub fn none_after_close()
    ensures { NoneAfterClose }
{}

/// A commit that was answered so has the number of exactly one turn before it.
pub fn commits_begun()
    ensures { CommitsBegun }
{}

/// No number of a turn is given twice, and none is committed twice.
pub fn committed_once()
    ensures { CommittedOnce }
{}

/// A turn has 1 to 16 events, those that its subscription is owed next, and the note of its last commit.
pub fn turns_in_order()
    ensures { TurnsInOrder }
{}

/// One turn of a grain runs at a time: between the begins of two the first of them is ended, by its commit or
/// by a deactivation of the grain.
pub fn one_turn_at_a_time()
    ensures { OneTurnAtATime }
{}

/// A turn is the longest front of the mailbox that may be one: at most 16 events and no more than were asked
/// for, all of one subscription, at positions that rise.
pub fn turns_are_longest()
    ensures { TurnsAreLongest }
{}

/// The log is what was published.
pub fn log_is_published()
    ensures { LogIsPublished }
{}

/// Tokens rise along what was published, so that no two events of a partition have one token.
pub fn tokens_rise()
    ensures { TokensRise }
{}

/// The handled positions of a record are those of the handled events, and its stream and start are what
/// it was subscribed with.
pub fn records_agree()
    ensures { RecordsAgree }
{}

/// A record is open exactly where its subscription isn't unsubscribed, and its note is that of the last
/// commit.
pub fn records_are_open()
    ensures { RecordsAreOpen }
{}

/// No two records have one name, and no two grains.
pub fn names_differ()
    ensures { NamesDiffer }
{}

/// An explicit name has a record exactly where a subscribe was answered with its number; without one it is
/// owed nothing and has handled nothing.
pub fn unknown_has_no_record()
    ensures { UnknownHasNoRecord }
{}

/// No number of a subscription is given twice.
pub fn numbers_are_new()
    ensures { NumbersAreNew }
{}

/// A start token is refused exactly where it is below the last low token that a reply gave.
pub fn misses_below_low()
    ensures { MissesBelowLow }
{}

/// A subscribe from the latest on is never a miss.
pub fn latest_is_never_missed()
    ensures { LatestIsNeverMissed }
{}

/// The cache begins no later than it ends, ends no later than what was published, and has no more events than
/// its blocks hold.
pub fn cache_in_bounds()
    ensures { CacheInBounds }
{}

/// A partition keeps the limits that it began with. Its events, subscriptions, rules and rises are never more, and
/// the numbers of turns, activations and generations never pass the rises.
pub fn limits_are_kept()
    ensures { LimitsAreKept }
{}

/// What an open subscription is owed and hasn't handled isn't below the low token.
pub fn owed_is_kept()
    ensures { OwedIsKept }
{}

/// In a quiet partition each open subscription has handled all that it is owed.
pub fn quiet_is_done()
    ensures { QuietIsDone }
{}

/// In a quiet partition an implicit name without a record is owed nothing.
pub fn quiet_owes_no_other()
    ensures { QuietOwesNoOther }
{}

/// A pull drops the least number of blocks that makes room, or all that nobody needs.
pub fn drops_are_least()
    ensures { DropsAreLeast }
{}

/// A purge drops the least number of blocks that leaves no more than those to keep, or all that nobody
/// needs.
pub fn purges_are_least()
    ensures { PurgesAreLeast }
{}

/// What comes after a legal history goes on with it: later entries, or operations that were run with their
/// replies.
pub fn histories_grow()
    ensures { HistoriesGrow }
{}

/// A front of a legal history is legal, and the rest of it leads on from what the front leaves.
pub fn fronts_are_legal()
    ensures { FrontsAreLegal }
{}

/// A drain ends, and no reply on its way is another than those that it looks for.
pub fn drain_ends()
    ensures { DrainEnds }
{}

/// What a drain leaves stands for the history with the drain's operations appended.
pub fn drain_stands()
    ensures { DrainStands }
{}

/// After Drained the partition is quiet.
pub fn drained_is_quiet()
    ensures { DrainedIsQuiet }
{}

/// The turns of a drain are as many as what was owed less what was handled, over the open subscriptions.
pub fn drained_turns()
    ensures { DrainedTurns }
{}
