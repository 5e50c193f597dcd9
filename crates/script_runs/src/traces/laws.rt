//! What holds of the line of an operation.
//!
//! Each function has no parameter and no effect: its contract is the law, which its proof shows of the
//! definitions alone.
ghost use Rattle.script_runs.specs.OpLine.{ReadsAgain, LinesArePrintable};
ghost use Rattle.script_runs.specs.Traces.{BusyCallsAreLegal};

/// Where the grammar of scripts has an operation's command, its line is read as that command: the operation on
/// its queue, or for a rule and for the question whether all is quiet the operation on each queue.
pub fn reads_again()
    ensures { ReadsAgain }
{}

/// Each byte of such a line is printable, so that a line feed behind it ends the line and nothing else does.
pub fn lines_are_printable()
    ensures { LinesArePrintable }
{}

/// The calls that a trace shows which leaves out those that found nothing are a legal history, too: done alone, they get
/// the replies that its comments tell, and leave what all calls leave.
pub fn busy_calls_are_legal()
    ensures { BusyCallsAreLegal }
{}
