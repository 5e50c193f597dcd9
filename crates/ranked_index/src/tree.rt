//! The tree: its nodes in a row, where node `i` has the children `2i` and `2i + 1` and the lesser of their
//! numbers, and the second half of the row are the leaves.
ghost use Rattle.std.specs.Prelude.{◌≡◌, ◌+◌, ◌^◌, ◌<◌, ◌≤◌, ◌-◌, ◌/◌, [], length, set, map, is_ok, IfSome, ℕ, take, drop, IfOk, MatchOption, if◌then◌else◌};
ghost use Rattle.std.specs.List.{insert, remove};
ghost use Rattle.stream_ident.specs.Words.{or_else};
ghost use Rattle.ranked_index.specs.Keys.{filled, least_key, least_place, first_at_most};
ghost use Rattle.ranked_index.specs.Tree.{key_in, key_of, lesser_node, number_by, AreGreater, IsFirstAtMost, IsLeastTree, IsPowerOfTwo, IsShifted, IsShiftedBack, IsSubtreeAtMost, IsTree, IsTreeBut};
ghost use Rattle.ranked_index.specs.declared.tree.Key.TheVariants.{Resume};

use std::alloc::{AllocError, Global};
use std::marker::Model;

/// The number that stands for no key.
const NO_KEY: usize = usize::MAX;

/// By what a leaf is found.
#[derive(Clone, Copy, Debug)]
pub(crate) enum Key {
    Resume,
    Due,
}

/// The keys of a leaf, or the least keys of the leaves below.
#[derive(Clone, Copy, Debug, PartialEq, Eq)]
pub(crate) struct Node {
    pub(crate) resume: usize,
    pub(crate) due: usize,
}

/// The node of no leaf.
const NO_NODE: Node = Node {
    resume: NO_KEY,
    due: NO_KEY,
};

/// A row of leaves, counted from place 0, that knows the least of each of their keys.
#[derive(Debug, Drop)]
pub(crate) struct LeastTree {
    nodes: Vec<Node>,
    first_leaf: usize,
    len: usize,
}

impl Model for LeastTree {
    ghost use Rattle.std.specs.Prelude.{List, take, drop};
    ghost use Rattle.ranked_index.specs.declared.tree.Node.{Node};

    ghost Value = { List Node };

    ghost use Rattle.ranked_index.specs.Tree.{IsLeastTree};

    ghost view = { λ t. take t.len (drop t.first_leaf t.nodes.items) };

    ghost invariant = { λ t. IsLeastTree t.nodes.items t.first_leaf t.len };
}

/// The key that a number stands for.
fn key_of(number: usize) -> Option<usize>
    ensures { result ≡ key_of number }
{
    if number < NO_KEY { Some(number) } else { None }
}

/// The leaf with a resume and a due key.
pub(crate) fn leaf(resume: Option<usize>, due: Option<usize>) -> Node
    requires resume { IfSome resume (λ k. k + 1 < 2 ^ 64) }
    requires due { IfSome due (λ k. k + 1 < 2 ^ 64) }
    ensures resume { key_of result.resume ≡ resume }
    ensures due { key_of result.due ≡ due }
{
    Node {
        resume: resume.unwrap_or(NO_KEY),
        due: due.unwrap_or(NO_KEY),
    }
}

/// The number of a node's key.
fn number(node: Node, key: Key) -> usize
    ensures { result ≡ number_by key node }
{
    match key {
        Key::Resume => node.resume,
        Key::Due => node.due,
    }
}

/// The lesser keys of two nodes.
fn lesser(left: Node, right: Node) -> Node
    ensures { result ≡ lesser_node left right }
{
    Node {
        resume: left.resume.min(right.resume),
        due: left.due.min(right.due),
    }
}

impl LeastTree {
    /// The empty row. It takes no memory.
    pub fn new(alloc: Global) -> LeastTree
        ensures { result ≡ [] }
    {
        LeastTree {
            nodes: Vec::new(alloc),
            first_leaf: 0,
            len: 0,
        }
    }

    /// How many places there are.
    pub fn len(&self) -> usize
        ensures { result ≡ length self.now }
    {
        self.len
    }

    /// Puts a leaf before the one at `place`, or at the end. It costs the logarithm of the
    /// length and what stands behind the place; where the row has to grow, once as much as the whole row.
    ///
    /// # Errors
    /// The call failed to allocate. The row is then as before.
    pub fn insert(&mut self, alloc: Global, place: usize, leaf: Node) -> Result<(), AllocError>
        requires { place ≤ length self.old }
        ensures { self.new ≡ (if is_ok result then insert self.old place leaf else self.old) }
    {
        if self.len == self.first_leaf {
            let first_leaf = if self.len == 0 { 1 } else { 2 * self.len };
            let leaves = &self.nodes.as_slice()[self.first_leaf..];
            self.nodes = grown(alloc, leaves, first_leaf)?;
            self.first_leaf = first_leaf;
        }
        let nodes = self.nodes.as_mut_slice();
        insert_leaf(nodes, self.first_leaf, self.len, place, leaf);
        self.len += 1;
        Ok(())
    }

    /// Changes the leaf at a place. It costs the logarithm of the length at most, and a constant where the least keys
    /// near it stay. It takes no memory.
    pub fn set(&mut self, place: usize, leaf: Node)
        requires { place < length self.old }
        ensures { self.new ≡ set self.old place leaf }
    {
        let nodes = self.nodes.as_mut_slice();
        set_leaf(nodes, self.first_leaf, self.len, place, leaf);
    }

    /// Changes the leaves at the places from one to before another to the same. It costs these places and the logarithm
    /// of the length, and takes no memory.
    pub fn fill(&mut self, from: usize, to: usize, leaf: Node)
        requires ordered { from ≤ to }
        requires within { to ≤ length self.old }
        ensures { self.new ≡ filled from (to - from) leaf self.old }
    {
        if from < to {
            let nodes = self.nodes.as_mut_slice();
            fill_leaves(nodes, self.first_leaf, self.len, from, to, leaf);
        }
    }

    /// Takes the leaf at a place out, so that those past it are one back. It costs the logarithm of the length and what
    /// stands behind the place, and takes no memory.
    pub fn remove(&mut self, place: usize)
        requires { place < length self.old }
        ensures { self.new ≡ remove self.old place }
    {
        let nodes = self.nodes.as_mut_slice();
        remove_leaf(nodes, self.first_leaf, self.len, place);
        self.len -= 1;
    }

    /// The first place that has the least resume, where a place has one. It costs the logarithm of the length.
    pub fn least(&self) -> Option<usize>
        ensures least { result ≡ least_place (map (key_in Resume) self.now) }
        ensures within { IfSome result (λ place. place < length self.now) }
    {
        let resume = self.least_resume()?;
        self.first_at_most(Key::Resume, 0, resume)
    }

    /// The least resume, where a place has one. It costs a constant.
    pub fn least_resume(&self) -> Option<usize>
        ensures { result ≡ least_key (map (key_in Resume) self.now) }
    {
        let root = self.nodes.get(1)?;
        key_of(root.resume)
    }

    /// The first place at or past `from` whose key is at most the bound; none where `from` is past the end.
    /// It costs the logarithm of the length.
    pub fn first_at_most(&self, key: Key, from: usize, bound: usize) -> Option<usize>
        ensures place { result ≡ first_at_most from bound (map (key_in key) self.now) }
        ensures within { IfSome result (λ place. place < length self.now) }
    {
        if from >= self.len {
            return None;
        }
        let nodes = self.nodes.as_slice();
        let most = bound.min(NO_KEY - 1);
        let leaf = first_leaf_at_most(nodes, key, self.first_leaf + from, most)?;
        Some(leaf - self.first_leaf)
    }

    /// The first place at or past `from` whose key is at most the bound, else the first of all. It costs the
    /// logarithm of the length.
    pub fn next_at_most(&self, key: Key, from: usize, bound: usize) -> Option<usize>
        ensures place { result ≡ or_else (first_at_most from bound (map (key_in key) self.now)) (first_at_most 0 bound (map (key_in key) self.now)) }
        ensures within { IfSome result (λ place. place < length self.now) }
    {
        self.first_at_most(key, from, bound)
            .or_else(|| self.first_at_most(key, 0, bound))
    }
}

/// Makes each node from `first` to `last` the lesser of its children.
fn settle_row(nodes: &mut [Node], first: usize, last: usize)
    requires inner { last + last + 1 < length nodes.old }
    requires ordered { first ≤ last }
    requires tree { IsTreeBut first last nodes.old }
    ensures tree { IsTreeBut (first / 2) (last / 2) nodes.new }
    ensures past { (place : ℕ) → last < place → drop place nodes.new ≡ drop place nodes.old }
{
    for at in first..last + 1 {
        nodes[at] = lesser(nodes[2 * at], nodes[2 * at + 1]);
    }
}

/// Makes the nodes from `first` to `last` of one level, and those above them, the lesser of their children.
fn settle(nodes: &mut [Node], mut first: usize, mut last: usize)
    requires inner { last + last + 1 < length nodes.old }
    requires ordered { first ≤ last }
    requires tree { IsTreeBut first last nodes.old }
    ensures tree { IsTree nodes.new }
    ensures past { (place : ℕ) → last < place → drop place nodes.new ≡ drop place nodes.old }
{
    while last > 0 {
        settle_row(nodes, first, last);
        first /= 2;
        last /= 2;
    }
}

/// Makes a node, and those above it, the lesser of their children, up to the first that is so already: those above
/// that one are too.
fn settle_path(nodes: &mut [Node], mut at: usize)
    requires inner { at + at + 1 < length nodes.old }
    requires tree { IsTreeBut at at nodes.old }
    ensures tree { IsTree nodes.new }
    ensures past { (place : ℕ) → at < place → drop place nodes.new ≡ drop place nodes.old }
{
    while at > 0 {
        let node = lesser(nodes[2 * at], nodes[2 * at + 1]);
        if nodes[at] == node {
            return;
        }
        nodes[at] = node;
        at /= 2;
    }
}

/// Moves the places from `leaf` to before `end` one further, and writes `n` into the gap.
fn shift(nodes: &mut [Node], leaf: usize, end: usize, n: Node)
    requires ordered { leaf ≤ end }
    requires room { end < length nodes.old }
    ensures { IsShifted nodes.old nodes.new leaf end n }
{
    nodes.copy_within(leaf..end, leaf + 1);
    nodes[leaf] = n;
}

/// A node that is at most the bound, where the leaves from `leaf` up to its own are greater.
fn subtree_at_most(nodes: &[Node], key: Key, leaf: usize, bound: usize) -> Option<usize>
    requires tree { IsTree nodes.now }
    requires power { IsPowerOfTwo (length nodes.now) }
    requires some { 0 < leaf }
    requires within { leaf ≤ length nodes.now }
    requires leaves { length nodes.now ≤ leaf + leaf }
    ensures { MatchOption result (AreGreater key leaf (length nodes.now) bound nodes.now) (λ at. IsSubtreeAtMost key leaf bound at nodes.now) }
{
    let mut at = leaf;
    let mut end = nodes.len();
    while at < end {
        if at % 2 == 1 && number(nodes[at], key) <= bound {
            return Some(at);
        }
        at = (at + 1) / 2;
        end /= 2;
    }
    None
}

/// The first leaf below a node that is at most the bound, where the node is.
fn first_below(nodes: &[Node], key: Key, mut at: usize, bound: usize) -> usize
    requires tree { IsTree nodes.now }
    requires some { 0 < at }
    requires within { at ≤ length nodes.now }
    ensures { (from : ℕ) → IsSubtreeAtMost key from bound at nodes.now → IsFirstAtMost key from bound result nodes.now }
{
    while at < nodes.len() - at {
        at *= 2;
        if number(nodes[at], key) > bound {
            at += 1;
        }
    }
    at
}

/// The first leaf at or past `leaf` that is at most the bound.
fn first_leaf_at_most(nodes: &[Node], key: Key, leaf: usize, bound: usize) -> Option<usize>
    requires tree { IsTree nodes.now }
    requires power { IsPowerOfTwo (length nodes.now) }
    requires some { 0 < leaf }
    requires within { leaf ≤ length nodes.now }
    requires leaves { length nodes.now ≤ leaf + leaf }
    ensures { MatchOption result (AreGreater key leaf (length nodes.now) bound nodes.now) (λ place. IsFirstAtMost key leaf bound place nodes.now) }
{
    // In a walk from one to the next that is due, the leaf itself mostly is.
    if leaf < nodes.len() && number(nodes[leaf], key) <= bound {
        return Some(leaf);
    }
    let at = subtree_at_most(nodes, key, leaf, bound)?;
    Some(first_below(nodes, key, at, bound))
}

/// A tree of so many leaves, of which the first are these. It takes memory once.
fn grown(alloc: Global, leaves: &[Node], first_leaf: usize) -> Result<Vec<Node>, AllocError>
    requires fits { first_leaf + first_leaf < 2 ^ 64 }
    requires room { length leaves.now < first_leaf }
    requires power { IsPowerOfTwo (first_leaf + first_leaf) }
    ensures tree { IfOk result (λ nodes. IsLeastTree nodes.items first_leaf (length leaves.now)) }
    ensures leaves { IfOk result (λ nodes. take (length leaves.now) (drop first_leaf nodes.items) ≡ leaves.now) }
{
    let mut nodes = Vec::with_capacity(alloc, 2 * first_leaf)?;
    nodes.resize(first_leaf, NO_NODE)?;
    nodes.extend_from_slice(leaves)?;
    nodes.resize(2 * first_leaf, NO_NODE)?;
    let end = first_leaf + leaves.len();
    settle(nodes.as_mut_slice(), first_leaf / 2, end / 2);
    Ok(nodes)
}

/// Writes a leaf.
fn set_leaf(nodes: &mut [Node], first_leaf: usize, len: usize, place: usize, n: Node)
    requires tree { IsLeastTree nodes.old first_leaf len }
    requires within { place < len }
    ensures tree { IsLeastTree nodes.new first_leaf len }
    ensures leaves { take len (drop first_leaf nodes.new) ≡ set (take len (drop first_leaf nodes.old)) place n }
{
    let leaf = first_leaf + place;
    nodes[leaf] = n;
    settle_path(nodes, leaf / 2);
}

/// Writes the same leaf at the places from one to before another.
fn fill_leaves(nodes: &mut [Node], first_leaf: usize, len: usize, from: usize, to: usize, n: Node)
    requires tree { IsLeastTree nodes.old first_leaf len }
    requires some { from < to }
    requires within { to ≤ len }
    ensures tree { IsLeastTree nodes.new first_leaf len }
    ensures leaves { take len (drop first_leaf nodes.new) ≡ filled from (to - from) n (take len (drop first_leaf nodes.old)) }
{
    let first = first_leaf + from;
    let end = first_leaf + to;
    for leaf in first..end {
        nodes[leaf] = n;
    }
    settle(nodes, first / 2, (end - 1) / 2);
}

/// Puts a leaf at a place, and those from there on one further.
fn insert_leaf(nodes: &mut [Node], first_leaf: usize, len: usize, place: usize, n: Node)
    requires tree { IsLeastTree nodes.old first_leaf len }
    requires room { len < first_leaf }
    requires within { place ≤ len }
    ensures tree { IsLeastTree nodes.new first_leaf (len + 1) }
    ensures leaves { take (len + 1) (drop first_leaf nodes.new) ≡ insert (take len (drop first_leaf nodes.old)) place n }
{
    let leaf = first_leaf + place;
    let end = first_leaf + len;
    shift(nodes, leaf, end, n);
    settle(nodes, leaf / 2, end / 2);
}

/// Moves the places past `leaf` to before `end` one back, and leaves no leaf at the last of them.
fn shift_back(nodes: &mut [Node], leaf: usize, end: usize)
    requires ordered { leaf < end }
    requires within { end ≤ length nodes.old }
    ensures { IsShiftedBack nodes.old nodes.new leaf end }
{
    nodes.copy_within(leaf + 1..end, leaf);
    nodes[end - 1] = NO_NODE;
}

/// Takes the leaf at a place out, and puts those past it one back.
fn remove_leaf(nodes: &mut [Node], first_leaf: usize, len: usize, place: usize)
    requires tree { IsLeastTree nodes.old first_leaf len }
    requires within { place < len }
    ensures tree { IsLeastTree nodes.new first_leaf (len - 1) }
    ensures leaves { take (len - 1) (drop first_leaf nodes.new) ≡ remove (take len (drop first_leaf nodes.old)) place }
{
    let leaf = first_leaf + place;
    let end = first_leaf + len;
    shift_back(nodes, leaf, end);
    settle(nodes, leaf / 2, (end - 1) / 2);
}
