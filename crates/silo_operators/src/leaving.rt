//! A silo that goes: its grains leave the directory and the partitions.
ghost use Rattle.std.specs.Prelude.{length, IfErr, OnOk};
ghost use Rattle.silo_loops.specs.Silos.{GoOn, GoesOn, LineGoesOn};
ghost use Rattle.silo_operators.specs.Changes.{AreDeactivated, HasFound, HasFoundOne, HasMade, HasMovedNowhere, HasSince, HaveMovedNowhere, HoldsGrains, IsDeactivated, IsDeactivation, IsNoneLeft, Releases};

use crate::halt::Halt;
use activation_directory::{DirectoryOp, DirectoryReply};
use shared_partition::{DirectoryHistory, Gate, QueueHistory};
use silo_loops::{DirectoryLine, Doorbell, Line};
use std::alloc::Global;
use std::sync::Wait;
use stream_ident::GrainId;
use stream_model::Op;

// Deactivates a grain at one queue, where it is active there.
fn deactivate<G: Gate, H: QueueHistory, R: Wait>(
    rt: &R,
    alloc: Global,
    doorbell: &Doorbell,
    line: &mut Line<G, H>,
    grain: &GrainId,
) -> Result<(), Halt>
    ensures on { LineGoesOn line.old line.new }
    ensures done { OnOk result (HasMovedNowhere line.old line.new × HasSince line.old line.new (IsDeactivation grain.now)) }
    ensures found { IfErr result (λ why. HasFound why line.new.pass) }
{
    line.call(rt, alloc, doorbell, Op::Deactivate { grain: *grain })?;
    Ok(())
}

// Deactivates a grain at each queue.
fn deactivate_everywhere<G: Gate, H: QueueHistory, R: Wait>(
    rt: &R,
    alloc: Global,
    doorbell: &Doorbell,
    lines: &mut Vec<Line<G, H>>,
    grain: &GrainId,
) -> Result<(), Halt>
    ensures on { GoOn lines.old.items lines.new.items }
    ensures nowhere { OnOk result (HaveMovedNowhere lines.old.items lines.new.items) }
    ensures done { OnOk result (IsDeactivated lines.old.items lines.new.items grain.now) }
    ensures found { IfErr result (λ why. HasFoundOne why lines.new.items) }
{
    for queue in 0..lines.len() {
        let line = &mut lines[queue];
        deactivate(rt, alloc, doorbell, line, grain)?;
    }
    Ok(())
}

// What the directory answers when it is asked for a grain on a silo.
enum Release {
    Grain(GrainId),
    NoneLeft,
}

// Takes one grain of the silo from the directory, where there is one.
fn take_grain<D: DirectoryHistory, R: Wait>(
    rt: &R,
    alloc: Global,
    doorbell: &Doorbell,
    directory: &mut DirectoryLine<D>,
    silo: u8,
) -> Result<Release, Halt>
    ensures { Releases silo directory.old result directory.new }
{
    match directory.call(rt, alloc, doorbell, DirectoryOp::Down { silo })? {
        DirectoryReply::Released { grain, left: _ } => Ok(Release::Grain(grain)),
        DirectoryReply::NoneLeft => Ok(Release::NoneLeft),
        _ => unreachable!(),
    }
}

/// Takes each grain of a silo from the directory, and deactivates it at each queue.
///
/// # Errors
/// A call was refused. Those before it stand.
pub(crate) fn evict<G: Gate, H: QueueHistory, D: DirectoryHistory, R: Wait>(
    rt: &R,
    alloc: Global,
    doorbell: &Doorbell,
    lines: &mut Vec<Line<G, H>>,
    directory: &mut DirectoryLine<D>,
    silo: u8,
) -> Result<(), Halt>
    ensures on { GoOn lines.old.items lines.new.items }
    ensures directory { GoesOn directory.old directory.new }
    ensures nowhere { OnOk result (HaveMovedNowhere lines.old.items lines.new.items) }
    ensures deactivated { OnOk result (AreDeactivated silo directory.old directory.new lines.old.items lines.new.items) }
    ensures none_left { OnOk result (HasMade (length directory.old.seen) directory.new (IsNoneLeft silo)) }
    ensures holds { IfErr result (λ why. HoldsGrains why silo directory.old directory.new lines.new.items) }
{
    for _ in rt.forever() {
        match take_grain(rt, alloc, doorbell, directory, silo)? {
            Release::Grain(grain) => deactivate_everywhere(rt, alloc, doorbell, lines, &grain)?,
            Release::NoneLeft => return Ok(()),
        }
    }
    unreachable!()
}
