//! The resumes of a partition: its subscriptions by number in an order of the caller's, and their keys by rank
//! in a tree.
ghost use Rattle.std.specs.Prelude.{◌≡◌, ◌+◌, ◌-◌, ◌^◌, ◌<◌, ◌≤◌, ◌↔◌, [], length, slice_index, is_ok, IsTrue, IfSome, Some, if◌then◌else◌};
ghost use Rattle.ranked_index.specs.Leaves.{due_from, empty, least_resume, leaf_with, open_leaf, pushed, top, truncated, with_leaf, with_leaves};
ghost use Rattle.ranked_index.specs.Ranking.{IsRanking};
ghost use Rattle.ranked_index.specs.Ranks.{due_at};
ghost use Rattle.ranked_index.specs.Tree.{key_of};

use crate::ranking::Ranking;
use crate::tree::{Key, LeastTree, Node, leaf};
use std::alloc::{AllocError, Global};
use std::marker::Model;

/// What a subscription is to those that look for the slowest one and the next that is due.
#[derive(Clone, Copy, Debug, PartialEq, Eq)]
pub struct Leaf {
    /// The position from which it would resume, counted from 0; none where it is closed.
    pub resume: Option<usize>,
    /// Whether it is open and has handled what it has not acknowledged.
    pub is_unacknowledged: bool,
}

/// The resumes of the subscriptions of a partition, by the number of their records, counted from 0, and the order of
/// the numbers.
///
/// What the numbers stand for, and by what they are ordered, is the caller's. A contract sees the list of the leaves,
/// one for each number, and the list of the numbers by rank. Only the keys are kept, in the tree.
#[derive(Debug)]
pub struct Resumes {
    ranking: Ranking,
    tree: LeastTree,
}

impl Drop for Resumes {
    fn drop(self) {
        let Self {
            ranking: _,
            tree: _,
        } = self;
    }
}

impl Model for Resumes {
    ghost use Rattle.ranked_index.specs.Leaves.{PlainResumes};
    ghost use Rattle.ranked_index.specs.Ranks.{leaves_by, AreKept};

    ghost Value = { PlainResumes };

    ghost view = { λ r. record { leaves = leaves_by r.ranking r.tree; order = r.ranking } };

    ghost invariant = { λ r. AreKept (leaves_by r.ranking r.tree) r.ranking r.tree };
}

impl Resumes {
    /// No leaves. It takes no memory.
    pub fn new(alloc: Global) -> Resumes
        ensures { result ≡ empty }
    {
        Resumes {
            ranking: Ranking::new(alloc),
            tree: LeastTree::new(alloc),
        }
    }

    /// How many leaves there are.
    pub fn len(&self) -> usize
        ensures len { result ≡ length self.now.leaves }
        ensures order { length self.now.order ≡ length self.now.leaves }
        ensures ranking { IsRanking self.now.order }
    {
        self.tree.len()
    }

    /// Whether there is no leaf.
    pub fn is_empty(&self) -> bool
        ensures { IsTrue result ↔ (self.now.leaves ≡ []) }
    {
        self.len() == 0
    }

    /// The numbers by rank. Each number stands at one rank.
    pub fn numbers(&self) -> &[usize]
        ensures numbers { result.now ≡ self.now.order }
        ensures ranking { IsRanking self.now.order }
    {
        self.ranking.numbers()
    }

    /// The rank of a number. It costs a constant.
    pub fn rank(&self, number: usize) -> usize
        requires { number < length self.now.leaves }
        ensures within { result < length self.now.order }
        ensures at { slice_index self.now.order result ≡ number }
    {
        self.ranking.rank(number)
    }

    /// Adds an open leaf with nothing to acknowledge, which has the next number, at a rank. It costs the logarithm of
    /// the length and the leaves of greater ranks; where a row has to grow, once as much as all.
    ///
    /// # Errors
    /// The call failed to allocate. Everything is then as before.
    pub fn push(&mut self, alloc: Global, rank: usize, resume: usize) -> Result<(), AllocError>
        requires within { rank ≤ length self.old.order }
        requires below { resume + 2 < 2 ^ 64 }
        ensures { self.new ≡ (if is_ok result then pushed rank (open_leaf resume) self.old else self.old) }
    {
        self.tree.insert(alloc, rank, keys(Some(resume), false))?;
        if let Err(error) = self.ranking.insert(rank) {
            self.tree.remove(rank);
            return Err(error);
        }
        Ok(())
    }

    /// Changes the resume of a leaf, none to close it, and whether it has something to acknowledge. It costs
    /// the logarithm of the length, and takes no memory.
    pub fn set(&mut self, number: usize, resume: Option<usize>, is_unacknowledged: bool)
        requires within { number < length self.old.leaves }
        requires below { IfSome resume (λ position. position + 2 < 2 ^ 64) }
        ensures { self.new ≡ with_leaf number (leaf_with resume is_unacknowledged) self.old }
    {
        let rank = self.ranking.rank(number);
        self.tree.set(rank, keys(resume, is_unacknowledged));
    }

    /// Opens the leaves at the ranks from one to before another, with the same resume and nothing to acknowledge. It
    /// costs these ranks and the logarithm of the length, and takes no memory.
    pub fn fill(&mut self, from: usize, to: usize, resume: usize)
        requires ordered { from ≤ to }
        requires within { to ≤ length self.old.order }
        requires below { resume + 2 < 2 ^ 64 }
        ensures { self.new ≡ with_leaves from (to - from) (open_leaf resume) self.old }
    {
        self.tree.fill(from, to, keys(Some(resume), false));
    }

    /// Takes the last leaf out.
    fn pop(&mut self)
        requires { 0 < length self.old.leaves }
        ensures { self.new ≡ truncated (length self.old.leaves - 1) self.old }
    {
        let rank = self.ranking.pop();
        self.tree.remove(rank);
    }

    /// Keeps the first `len` leaves, in the order that they have, and takes the later ones back, where there are more.
    /// It costs the length for each that it takes back, and takes no memory.
    pub fn truncate(&mut self, len: usize)
        ensures { self.new ≡ truncated len self.old }
    {
        while self.len() > len {
            self.pop();
        }
    }

    /// The least resume of the open leaves, where one is open. It costs a constant.
    pub fn least_resume(&self) -> Option<usize>
        ensures { result ≡ least_resume self.now }
    {
        self.tree.least_resume()
    }

    /// The number of the open leaf with the least resume, and of those with the least rank, where one is
    /// open. It costs the logarithm of the length.
    pub fn top(&self) -> Option<usize>
        ensures top { result ≡ top self.now }
        ensures within { IfSome result (λ number. number < length self.now.leaves) }
    {
        let rank = self.tree.least()?;
        Some(self.ranking.number(rank))
    }

    /// The number of the first leaf at or past a rank that is due: open, with something to acknowledge or a resume below
    /// `high`. Where there is none, it is the first of all that is due. It costs the logarithm of the length.
    pub fn due_from(&self, rank: usize, high: usize) -> Option<usize>
        ensures due { result ≡ due_from rank high self.now }
        ensures within { IfSome result (λ number. number < length self.now.leaves) }
    {
        let rank = self.tree.next_at_most(Key::Due, rank, high)?;
        Some(self.ranking.number(rank))
    }
}

/// The key of a leaf among those that are due: it is at most `high` exactly where the leaf is due at `high`.
fn due_at(resume: Option<usize>, is_unacknowledged: bool) -> Option<usize>
    requires { IfSome resume (λ position. position + 2 < 2 ^ 64) }
    ensures key { result ≡ due_at resume is_unacknowledged }
    ensures below { IfSome result (λ key. key + 1 < 2 ^ 64) }
{
    let position = resume?;
    if is_unacknowledged {
        return Some(0);
    }
    Some(position + 1)
}

/// The keys of a leaf.
fn keys(resume: Option<usize>, is_unacknowledged: bool) -> Node
    requires { IfSome resume (λ position. position + 2 < 2 ^ 64) }
    ensures resume { key_of result.resume ≡ resume }
    ensures due { key_of result.due ≡ due_at resume is_unacknowledged }
{
    leaf(resume, due_at(resume, is_unacknowledged))
}
