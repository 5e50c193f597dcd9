//! The lines of all queues, split and joined.
ghost use Rattle.std.specs.Prelude.{◌≡◌, IfOk, OnOk};
ghost use Rattle.silo_loops.specs.Lines.{places};
ghost use Rattle.silo_loops.specs.Fronts.{AllZipFront};
ghost use Rattle.std.specs.List.{AllZip};
ghost use Rattle.silo_loops.specs.Silos.{AreAlike, AreSilent, GoOn, HasTakenIn, IsSplitLine, joined_lines};

use crate::Line;
use shared_partition::{Gate, QueueHistory};
use std::alloc::{AllocError, Global};

/// A line with a pass of its own beside each of these.
///
/// # Errors
/// The call failed to allocate, or a turnstile has no number for another pass. The passes that were split off by
/// then are joined back.
pub fn split_lines<G: Gate, H: QueueHistory>(
    alloc: Global,
    lines: &mut Vec<Line<G, H>>,
) -> Result<Vec<Line<G, H>>, AllocError>
    ensures same { OnOk result (lines.new.items ≡ lines.old.items) }
    ensures go_on { GoOn lines.old.items lines.new.items }
    ensures new { IfOk result (λ new. AllZip IsSplitLine lines.old.items new.items) }
{
    let mut new = Vec::with_capacity(alloc, lines.len())?;
    for at in 0..lines.len() {
        let line = &mut lines[at];
        match line.split() {
            Ok(split) => new.push_reserved(split),
            Err(error) => {
                join_front(lines, new);
                return Err(error);
            }
        }
    }
    Ok(new)
}

/// Takes in the passes of other lines, at the same turnstiles in the same order. It takes no memory.
pub fn join_lines<G: Gate, H: QueueHistory>(lines: &mut Vec<Line<G, H>>, others: Vec<Line<G, H>>)
    requires { places others.items ≡ places lines.old.items }
    ensures go_on { GoOn lines.old.items lines.new.items }
    ensures silent { AreSilent lines.old.items lines.new.items }
    ensures joined { lines.new.items ≡ joined_lines lines.old.items others.items }
    ensures taken { AllZip HasTakenIn lines.new.items others.items }
{
    join_front(lines, others)
}

// Takes in the passes of other lines, which are at the turnstiles of the first of these.
fn join_front<G: Gate, H: QueueHistory>(lines: &mut Vec<Line<G, H>>, mut others: Vec<Line<G, H>>)
    requires { AllZipFront AreAlike lines.old.items others.items }
    ensures go_on { GoOn lines.old.items lines.new.items }
    ensures silent { AreSilent lines.old.items lines.new.items }
    ensures joined { lines.new.items ≡ joined_lines lines.old.items others.items }
    ensures taken { AllZipFront HasTakenIn lines.new.items others.items }
{
    while let Some(other) = others.pop() {
        let line = &mut lines[others.len()];
        line.join(other);
    }
}
