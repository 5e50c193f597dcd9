//! The directory.
ghost use Rattle.std.specs.Prelude.{◌≡◌, ◌≤◌, true, OnErr};
ghost use Rattle.stream_ident.specs.declared.limits.TheConstants.{MOST_PERMITS};
ghost use Rattle.activation_directory.specs.Plain.{empty};
ghost use Rattle.activation_directory.specs.Placed.{least_on, place_in};
ghost use Rattle.activation_directory.specs.Step.{down, enter, leave, step, takes_memory, unplace};
ghost use Rattle.stream_ident.specs.Words.{Performs};
ghost use Rattle.activation_directory.specs.declared.op.DirectoryOp.TheVariants.{Enter};

use crate::op::DirectoryOp;
use crate::place::Place;
use crate::placed::on_silo;
use crate::reply::DirectoryReply;
use indexmap::IndexMap;
use std::alloc::{AllocError, Global};
use std::marker::Model;
use stream_ident::GrainId;

/// A directory of grains.
///
/// A contract sees it as the grains that are placed, with their places, and the number of permits that
/// were given, out of those that may be. Its room in memory is no part of it.
#[derive(Debug)]
pub struct Directory {
    placed: IndexMap<GrainId, Place>,
    given: u64,
    permits: u64,
}

impl Drop for Directory {
    fn drop(self) {
        let Self {
            placed: _,
            given: _,
            permits: _,
        } = self;
    }
}

impl Model for Directory {
    ghost use Rattle.activation_directory.specs.Plain.{PlainDirectory};

    ghost Value = { PlainDirectory };

    ghost view = { λ d. record { placed = d.placed.entries; given = d.given; permits = d.permits } };
}

impl Directory {
    /// A directory in which no grain is placed, and which gives this many permits in all, at most
    /// 4,000,000. It takes no memory.
    pub fn new(alloc: Global, permits: u64) -> Directory
        requires { permits ≤ MOST_PERMITS }
        ensures { result ≡ empty permits }
    {
        Directory {
            placed: IndexMap::new(alloc),
            given: 0,
            permits,
        }
    }

    /// Does one operation, and gives its reply. A refusal is a reply, and changes nothing.
    ///
    /// Enter and Leave look the grain up. Unplace and Down close the gap that the grain leaves, and so move
    /// the entries of the grains that were placed after it. Down walks over all placed grains, once.
    ///
    /// # Errors
    /// The call failed to allocate, and nothing has changed. That can happen only at an Enter that would
    /// place a grain and give a permit: each refusal, each Enter of a placed grain and each other operation
    /// takes no memory.
    pub fn step(&mut self, _alloc: Global, op: DirectoryOp) -> Result<DirectoryReply, AllocError>
        ensures performs { Performs self.old self.new result (step self.old op) }
        ensures memory { OnErr result (takes_memory self.old op ≡ true) }
    {
        match op {
            DirectoryOp::Enter { grain, silo } => self.enter(grain, silo),
            DirectoryOp::Leave { grain, permit } => Ok(self.leave(grain, permit)),
            DirectoryOp::Unplace { grain } => Ok(self.unplace(grain)),
            DirectoryOp::Down { silo } => Ok(self.down(silo)),
        }
    }

    /// A silo asks for the permit of a grain.
    fn enter(&mut self, grain: GrainId, silo: u8) -> Result<DirectoryReply, AllocError>
        ensures performs { Performs self.old self.new result (enter self.old grain silo (place_in self.old.placed grain)) }
        ensures memory { OnErr result (takes_memory self.old (Enter grain silo) ≡ true) }
    {
        if let Some(place) = self.placed.get(&grain) {
            if place.silo != silo {
                return Ok(DirectoryReply::Elsewhere { silo: place.silo });
            }
            if place.permit.is_some() {
                return Ok(DirectoryReply::Busy);
            }
        }
        if self.given >= self.permits {
            return Ok(DirectoryReply::Spent);
        }
        let permit = self.given + 1;
        let place = Place {
            silo,
            permit: Some(permit),
        };
        self.placed.insert(grain, place)?;
        self.given = permit;
        Ok(DirectoryReply::Entered { permit })
    }

    /// The holder of a permit gives it back.
    fn leave(&mut self, grain: GrainId, permit: u64) -> DirectoryReply
        ensures { (self.new, result) ≡ leave self.old grain permit (place_in self.old.placed grain) }
    {
        let Some(place) = self.placed.get(&grain) else {
            return DirectoryReply::NotYours;
        };
        if place.permit != Some(permit) {
            return DirectoryReply::NotYours;
        }
        let place = Place {
            silo: place.silo,
            permit: None,
        };
        self.placed.insert(grain, place).unwrap();
        DirectoryReply::Left
    }

    /// A grain is taken out of the directory.
    fn unplace(&mut self, grain: GrainId) -> DirectoryReply
        ensures { (self.new, result) ≡ unplace self.old grain (place_in self.old.placed grain) }
    {
        let Some(place) = self.placed.get(&grain) else {
            return DirectoryReply::NotPlaced;
        };
        if place.permit.is_some() {
            return DirectoryReply::Busy;
        }
        self.placed.shift_remove(&grain);
        DirectoryReply::Unplaced
    }

    /// The least grain of a silo is taken out of the directory.
    fn down(&mut self, silo: u8) -> DirectoryReply
        ensures { (self.new, result) ≡ down self.old silo (least_on silo self.old.placed) }
    {
        let (least, count) = on_silo(&self.placed, silo);
        let Some(least) = least else {
            return DirectoryReply::NoneLeft;
        };
        self.placed.shift_remove(&least);
        DirectoryReply::Released {
            grain: least,
            left: count - 1,
        }
    }
}
