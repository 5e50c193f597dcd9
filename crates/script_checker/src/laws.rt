//! What holds of the summary of any commands, and of the list of all verbs.
//!
//! Each function has no parameter and no effect: its contract is the law, which its proof shows of the definitions alone.
ghost use Rattle.script_checker.specs.SummaryLaws.{LinesAreCounted, QueuesAreTold, VerbsStandOnce};

/// The count of a verb is how many of the commands have it, as far as a number of 64 bits counts.
pub fn lines_are_counted()
    ensures { LinesAreCounted }
{}

/// A stream has a queue in the summary just where a command names it, and that is the queue that the mapper gives it.
pub fn queues_are_told()
    ensures { QueuesAreTold }
{}

/// Each verb stands in the list of all at its number, and at no other place. So a summary has one line of each verb at
/// most, and leaves out none that stands in the script.
pub fn verbs_stand_once()
    ensures { VerbsStandOnce }
{}
