//! Draws operations.
ghost use Rattle.std.specs.Prelude.{◌<◌};

use crate::heard::Heard;
use crate::names::Names;
use rand::rngs::SmallRng;
use rand::{RngExt, SeedableRng};
use std::alloc::{AllocError, Global};
use step_core::{Op, Start};
use stream_ident::{Batch, GrainId, Payload, StreamId, SubName, Token};

/// Who does nothing for a while.
#[derive(Clone, Copy)]
pub enum Idle {
    /// All of them work.
    Nobody,
    /// The workers, so that mailboxes and the cache get full.
    Workers,
    /// The producers and subscribers, so that the others can come to an end.
    Producers,
}

/// Draws operations, so that many of them answer what was heard, and some ask for what isn't there.
#[derive(Drop)]
pub struct Draws {
    random: SmallRng,
    names: Names,
}

impl Draws {
    /// What is drawn of a seed.
    pub fn new(seed: u64, names: Names) -> Draws {
        Draws {
            random: SmallRng::seed_from_u64(seed),
            names,
        }
    }

    /// A number below another.
    fn below(&mut self, end: u32) -> u32
        requires { 0 < end }
        ensures { result < end }
    {
        self.random.random_range(0..end)
    }

    fn stream(&mut self) -> StreamId {
        self.names.streams[self.below(4) as usize]
    }

    /// The grain that was heard of last, or any.
    fn grain(&mut self, heard: &Heard) -> GrainId {
        match self.below(4) {
            0 => self.names.grains[self.below(4) as usize],
            _ => heard.grain,
        }
    }

    /// The subscription that was heard of last, or any, of which some aren't there.
    fn sub(&mut self, heard: &Heard) -> SubName {
        match self.below(20) {
            0 => SubName::Implicit {
                kind: self.names.kinds[self.below(2) as usize],
                stream: self.stream(),
            },
            1 => SubName::Explicit(self.below(heard.explicit.saturating_add(2))),
            2..=8 => SubName::Explicit(1 + self.below(heard.explicit.max(1))),
            _ => heard.sub,
        }
    }

    /// The last generation that a reply gave, and now and then another.
    fn generation(&mut self, heard: &Heard) -> u64 {
        match self.below(32) {
            0 => heard.generation.wrapping_add(1),
            1 => 0,
            _ => heard.generation,
        }
    }

    /// A start: from now on, or from a token near the front of the cache or anywhere.
    fn start(&mut self, heard: &Heard) -> Start {
        match self.below(4) {
            0 | 1 => Start::Latest,
            2 => Start::At(heard.low),
            _ => Start::At(Token {
                seq: u64::from(self.below(100)),
                idx: self.below(4),
            }),
        }
    }

    /// A batch of 0 to 5 payloads, and now and then one of up to 69.
    fn publication(&mut self, alloc: Global) -> Result<Op, AllocError> {
        let count = match self.below(12) {
            0 => self.below(70),
            _ => self.below(6),
        };
        let stream = self.stream();
        let payloads = batch(alloc, &self.names.payloads, count)?;
        Ok(Op::Publish { stream, payloads })
    }

    /// An operation of a subscriber.
    fn subscriber(&mut self, heard: &Heard) -> Op {
        match self.below(8) {
            0 => Op::Unsubscribe {
                sub: self.sub(heard),
            },
            1 | 2 => Op::AddRule {
                kind: self.names.kinds[self.below(2) as usize],
                namespace: self.names.namespaces[self.below(2) as usize],
            },
            _ => Op::Subscribe {
                stream: self.stream(),
                grain: self.grain(heard),
                start: self.start(heard),
            },
        }
    }

    /// An operation of an operator, or a look.
    fn operator(&mut self, heard: &Heard) -> Op {
        match self.below(8) {
            0 => Op::Move {
                silo: self.below(16) as u8,
            },
            1 => Op::Deactivate {
                grain: self.grain(heard),
            },
            2 | 3 => Op::Purge {
                generation: self.generation(heard),
                keep: self.below(3),
            },
            4 => Op::Retry {
                generation: self.generation(heard),
                sub: self.sub(heard),
            },
            _ => Op::Quiet,
        }
    }

    /// An operation of an agent.
    fn agent(&mut self, heard: &Heard) -> Op {
        let generation = self.generation(heard);
        match self.below(12) {
            0 => Op::Pull {
                generation,
                max: self.below(300),
            },
            1 | 2 => self.acknowledgement(generation, heard),
            3 => Op::Due {
                after: Some(self.sub(heard)),
            },
            4 => Op::Due { after: None },
            _ => Op::Deliver {
                generation,
                sub: self.sub(heard),
            },
        }
    }

    /// An acknowledgement of what was handled last, and now and then of what was before.
    fn acknowledgement(&mut self, generation: u64, heard: &Heard) -> Op {
        let handled = match self.below(8) {
            0 => heard.handled_before,
            _ => heard.handled,
        };
        Op::Ack {
            generation,
            sub: handled.sub,
            token: handled.token,
        }
    }

    /// An operation of a worker.
    fn worker(&mut self, heard: &Heard) -> Op {
        match self.below(8) {
            0 => Op::Ready { after: None },
            1 | 2 => Op::Ready {
                after: Some(self.grain(heard)),
            },
            3..=5 => Op::Begin {
                grain: self.grain(heard),
                max: self.below(20),
            },
            _ => self.commit(heard),
        }
    }

    /// The end of the last turn, and now and then of the one before.
    fn commit(&mut self, heard: &Heard) -> Op {
        let given = match self.below(8) {
            0 => heard.turn_before,
            _ => heard.turn,
        };
        Op::Commit {
            grain: given.grain,
            activation: given.activation,
            turn: given.turn,
            note: u64::from(self.below(5)),
        }
    }

    /// An operation of one who isn't idle.
    ///
    /// # Errors
    /// The call failed to allocate.
    pub fn operation(
        &mut self,
        alloc: Global,
        heard: &Heard,
        idle: Idle,
    ) -> Result<Op, AllocError> {
        match (self.below(20), idle) {
            (0 | 1, Idle::Nobody | Idle::Workers) => self.publication(alloc),
            (2, Idle::Nobody | Idle::Workers) => Ok(self.subscriber(heard)),
            (3, _) => Ok(self.operator(heard)),
            (4..=10, Idle::Nobody | Idle::Producers) => Ok(self.worker(heard)),
            _ => Ok(self.agent(heard)),
        }
    }
}

/// A batch of so many payloads, which take turns.
///
/// # Errors
/// The call failed to allocate.
pub fn batch(alloc: Global, payloads: &[Payload; 3], count: u32) -> Result<Batch, AllocError> {
    let mut batch = Vec::new(alloc);
    for place in 0..count {
        batch.push(payloads[place as usize % 3])?;
    }
    Ok(Batch::of(batch))
}
