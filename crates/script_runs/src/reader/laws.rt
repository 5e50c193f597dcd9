//! What a script tells the producers of a partition, and what the report of a run of it is.
//!
//! A script that is run while silos come and go doesn't say when an event is pulled, delivered and handled, nor
//! which start tokens are refused by then. What else its producers are told, where no limit refuses what they
//! ask, and what is reported once the partitions are quiet, follows from it. Each function here has no
//! parameter and no effect: its contract is a law, which its proof shows of the definitions alone.
ghost use Rattle.script_runs.specs.ScriptLaws.{ExplicitAreTold, ImplicitAreOwed, ImplicitSubsAreOwed, MissesChangeNoOther, OpenHaveAll, ProducersTell, QuietTells, QuietTellsScript, RepliesAreTold, RulesAreTold, ScriptsGrow};

/// One line more at the end of a script adds what it asks and is answered to what is told at its queues, its
/// refusal to what is printed, and changes the silos that live.
pub fn scripts_grow()
    ensures { ScriptsGrow }
{}

/// That the start token of a line is refused changes nothing of what is told and printed by the lines of other
/// numbers alone.
pub fn misses_change_no_other()
    ensures { MissesChangeNoOther }
{}

/// What is published, bound, owed and closed, the rules and the subscriptions that a report names are functions
/// of the producers' entries alone.
pub fn producers_tell()
    ensures { ProducersTell }
{}

/// What a producer is answered is what a script tells after the producers' entries before it, as far as it
/// says what that is, unless a limit refuses the operation.
pub fn replies_are_told()
    ensures { RepliesAreTold }
{}

/// The rules of a partition are those that were added, in order.
pub fn rules_are_told()
    ensures { RulesAreTold }
{}

/// The records of the explicit subscriptions are those that were made, in the order in which they were, each of
/// its stream and grain, with its start, and open where it isn't unsubscribed.
pub fn explicit_are_told()
    ensures { ExplicitAreTold }
{}

/// An implicit subscription that has a record is owed an event, is of the grain that its name says, and is open.
pub fn implicit_are_owed()
    ensures { ImplicitAreOwed }
{}

/// The implicit subscriptions that a history tells are those that are owed an event.
pub fn implicit_subs_are_owed()
    ensures { ImplicitSubsAreOwed }
{}

/// In a quiet partition each open subscription has handled all that it is owed.
pub fn open_have_all()
    ensures { OpenHaveAll }
{}

/// In a quiet partition the records in the order of their names are what the history tells of them.
pub fn quiet_tells()
    ensures { QuietTells }
{}

/// The report of a quiet partition is the script's, where what its producers asked and were told is.
pub fn quiet_tells_script()
    ensures { QuietTellsScript }
{}
