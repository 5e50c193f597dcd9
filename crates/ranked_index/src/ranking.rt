//! The ranking.
ghost use Rattle.std.specs.Prelude.{◌≡◌, ◌+◌, ◌<◌, ◌≤◌, [], length, slice_index, is_ok, if◌then◌else◌};
ghost use Rattle.std.specs.List.{insert, remove};
ghost use Rattle.ranked_index.specs.Ranking.{IsRanking, IsReranked};

use std::alloc::{AllocError, Global};
use std::marker::Model;

/// The numbers from 0 to below a length in an order of their own, and the rank of each, its place in that
/// order.
///
/// What the numbers stand for, and by what it is ordered, is the caller's. A contract sees the list of the
/// numbers by rank.
#[derive(Debug, Drop)]
pub struct Ranking {
    order: Vec<usize>,
    ranks: Vec<usize>,
}

impl Model for Ranking {
    ghost use Rattle.std.specs.Prelude.{ℕ, List};
    ghost use Rattle.ranked_index.specs.Ranking.{AreRanks};

    ghost Value = { List ℕ };

    ghost view = { λ r. r.order.items };

    ghost invariant = { λ r. AreRanks r.order.items r.ranks.items };
}

impl Ranking {
    /// The ranking of no number. It takes no memory.
    pub fn new(alloc: Global) -> Ranking
        ensures { result ≡ [] }
    {
        Ranking {
            order: Vec::new(alloc),
            ranks: Vec::new(alloc),
        }
    }

    /// The numbers by rank. Each number stands at one rank.
    pub fn numbers(&self) -> &[usize]
        ensures numbers { result.now ≡ self.now }
        ensures ranking { IsRanking self.now }
    {
        self.order.as_slice()
    }

    /// Puts the next number, which is the length, at a rank, and those from there on one further. It costs
    /// the numbers behind it; where a row has to grow, once as much as all.
    ///
    /// # Errors
    /// The call failed to allocate. Everything is then as before.
    pub fn insert(&mut self, rank: usize) -> Result<(), AllocError>
        requires { rank ≤ length self.old }
        ensures numbers { self.new ≡ (if is_ok result then insert self.old rank (length self.old) else self.old) }
    {
        let number = self.order.len();
        self.ranks.reserve(1)?;
        self.order.insert(rank, number)?;
        self.ranks.push_reserved(rank);
        rerank(self.order.as_slice(), self.ranks.as_mut_slice(), rank);
        Ok(())
    }

    /// Takes the last number out, so that those behind it are one back, and gives the rank that it had. It
    /// costs the numbers behind it, and takes no memory.
    pub fn pop(&mut self) -> usize
        requires { 0 < length self.old }
        ensures within { result < length self.old }
        ensures last { slice_index self.old result + 1 ≡ length self.old }
        ensures numbers { self.new ≡ remove self.old result }
    {
        let last = self.order.len() - 1;
        let rank = self.ranks[last];
        self.order.remove(rank);
        self.ranks.truncate(last);
        rerank(self.order.as_slice(), self.ranks.as_mut_slice(), rank);
        rank
    }

    /// The rank of a number. It costs a constant.
    pub fn rank(&self, number: usize) -> usize
        requires { number < length self.now }
        ensures within { result < length self.now }
        ensures at { slice_index self.now result ≡ number }
    {
        self.ranks[number]
    }

    /// The number at a rank. It costs a constant.
    pub fn number(&self, rank: usize) -> usize
        requires { rank < length self.now }
        ensures is { result ≡ slice_index self.now rank }
        ensures within { result < length self.now }
    {
        self.order[rank]
    }
}

/// Gives each number from a rank on its rank.
fn rerank(order: &[usize], ranks: &mut [usize], from: usize)
    requires ranking { IsRanking order.now }
    requires long { length ranks.old ≡ length order.now }
    requires within { from ≤ length order.now }
    ensures { IsReranked order.now ranks.old ranks.new from (length order.now) }
{
    for rank in from..order.len() {
        ranks[order[rank]] = rank;
    }
}
