//! What a partition is asked, and the number of each reply.
use crate::partition::cases::{BLOCKS, Work};
use anyhow::{Result, bail};
use std::alloc::Global;
use step_core::Partition;
use stream_ident::{GrainId, SubName, parse_number};
use stream_model::{Op, Reply};

/// Asks for an operation, which is to be done, and gives the number of the reply.
pub fn ask(partition: &mut Partition, alloc: Global, op: &Op) -> Result<u64> {
    match number_of(&partition.apply(alloc, op)?) {
        Some(number) => Ok(number),
        None => bail!("what was asked for isn't done"),
    }
}

/// A number that tells a reply from others of its kind, where what was asked for is done.
fn number_of(reply: &Reply) -> Option<u64> {
    match reply {
        Reply::Published { seq } => Some(*seq),
        Reply::Subscribed { number } => Some(u64::from(*number)),
        Reply::Pulled { count, .. } => Some(*count as u64),
        Reply::Delivered { token } => Some(token.seq),
        Reply::Purged { low } => Some(low.seq),
        Reply::Next(grain) => parse_number(grain.key.as_bytes()),
        Reply::DueSub {
            sub: SubName::Explicit(number),
            ..
        } => Some(u64::from(*number)),
        _ => None,
    }
}

/// Asks so many times for one operation after another, each for what follows the one before, and gives the sum of the
/// numbers that are answered.
pub fn ask_in_turn(
    partition: &mut Partition,
    alloc: Global,
    grains: &[GrainId],
    work: Work,
    times: usize,
) -> Result<u64> {
    let mut sum = 0u64;
    // What comes after the last one is the first.
    let mut before = grains.len().saturating_sub(1);
    for round in 0..times {
        let op = operation(work, grains, before, round);
        sum = sum.wrapping_add(ask(partition, alloc, &op)?);
        before = round % grains.len().max(1);
    }
    Ok(sum)
}

/// The operation of a round: for what follows this subscription or its grain, or to drop one more block.
fn operation(work: Work, grains: &[GrainId], before: usize, round: usize) -> Op {
    let generation = 0;
    match work {
        Work::Due => Op::Due {
            after: Some(sub(before)),
        },
        Work::Ready => Op::Ready {
            after: grains.get(before).copied(),
        },
        Work::Purge => Op::Purge {
            generation,
            keep: (BLOCKS - 1).saturating_sub(round) as u32,
        },
        _ => Op::Pull { generation, max: 1 },
    }
}

/// To deliver an event to the subscription at this place.
pub fn deliver(place: usize) -> Op {
    Op::Deliver {
        generation: 0,
        sub: sub(place),
    }
}

/// The name of the subscription at this place: they are numbered from 1 on.
fn sub(place: usize) -> SubName {
    SubName::Explicit(u32::try_from(place).unwrap_or(0).saturating_add(1))
}
