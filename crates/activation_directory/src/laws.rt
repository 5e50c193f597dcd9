//! What holds of every legal history of a directory.
//!
//! Each function has no parameter and no effect: its contract is the law, which its proof shows of the
//! definitions alone. A history is legal where it begins with the empty directory and each reply is that
//! of its step.
ghost use Rattle.activation_directory.specs.Laws.{OnePermitAtATime, PermitsAreCounted, PermitsAreLimited, PermitsRise, SpentIsAll};

/// Between two permits of one grain, the first is given back or the grain is released from the silo that
/// had it.
pub fn one_permit_at_a_time()
    ensures { OnePermitAtATime }
{}

/// No permit is given twice, to the same grain or another: each is greater than those before it.
pub fn permits_rise()
    ensures { PermitsRise }
{}

/// No more permits are given than may be: each is one more than as many as were given before it, and at most
/// that limit. None is refused as spent before as many were given.
pub fn permits_are_limited()
    ensures limited { PermitsAreLimited }
    ensures counted { PermitsAreCounted }
    ensures spent { SpentIsAll }
{}
