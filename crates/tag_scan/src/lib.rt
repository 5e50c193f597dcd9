//! Searches of one-byte tags, 32 at a time: the first place of a tag, all its places among 64, and how
//! many there are. They take no memory, and cost a step for every 32 tags.
#![tactic(auto)]

ghost use Rattle.std.specs.Prelude.{◌≡◌, ◌↔◌, ◌==◌, ℕ, ◌+◌, ◌^◌, ◌<◌, ◌≤◌, IfNone, IfSome, IsTrue, count_by, count_ones, drop, length, slice_index, take};
ghost use Rattle.std.specs.Int.{bit_at};
ghost use Rattle.tag_scan.specs.Tags.{IsAbsentBetween, IsFirstFrom};

use std::simd::prelude::*;

/// How many tags one vector holds.
const LANES: usize = 32;

/// How many tags a search passes over at once where none of them is the one.
const STRETCH: usize = 128;

/// The first place at or after `from` that holds the tag; None where there is none, as where `from` is
/// at or past the end.
pub fn find_tag(tags: &[u8], from: usize, tag: u8) -> Option<usize>
    ensures found { IfSome result (IsFirstFrom tags.now from tag) }
    ensures absent { IfNone result (IsAbsentBetween tags.now from (length tags.now) tag) }
{
    let mut place = past_absent(tags, from, tag);
    while place < tags.len() && LANES <= tags.len() - place {
        let marks = mask_32(tags, place, tag);
        if marks != 0 {
            return Some(place + marks.trailing_zeros() as usize);
        }
        place += LANES;
    }
    find_in_rest(tags, place, tag)
}

/// Where a search from `from` goes on, past stretches that don't hold the tag.
fn past_absent(tags: &[u8], from: usize, tag: u8) -> usize
    ensures ordered { from ≤ result }
    ensures absent { IsAbsentBetween tags.now from result tag }
{
    let mut place = from;
    while place < tags.len()
        && STRETCH <= tags.len() - place
        && is_absent_in_stretch(tags, place, tag)
    {
        place += STRETCH;
    }
    place
}

/// Whether none of the 128 places from `start` on holds the tag.
fn is_absent_in_stretch(tags: &[u8], start: usize, tag: u8) -> bool
    requires { start + 128 ≤ length tags.now }
    ensures { IsTrue result → IsAbsentBetween tags.now start (start + 128) tag }
{
    let first = mask_32(tags, start, tag);
    let second = mask_32(tags, start + 32, tag);
    let third = mask_32(tags, start + 64, tag);
    let last = mask_32(tags, start + 96, tag);
    first | second | third | last == 0
}

/// The same as `find_tag` where fewer than 32 tags are left: in the last 32, if there are as many.
fn find_in_rest(tags: &[u8], from: usize, tag: u8) -> Option<usize>
    requires { length tags.now < from + 32 }
    ensures found { IfSome result (IsFirstFrom tags.now from tag) }
    ensures absent { IfNone result (IsAbsentBetween tags.now from (length tags.now) tag) }
{
    if tags.len() < LANES || tags.len() <= from {
        return find_one_by_one(tags, from, tag);
    }
    let start = tags.len() - LANES;
    let marks = mask_32(tags, start, tag) >> (from - start);
    if marks == 0 {
        return None;
    }
    Some(from + marks.trailing_zeros() as usize)
}

/// The same, one tag at a time.
fn find_one_by_one(tags: &[u8], from: usize, tag: u8) -> Option<usize>
    ensures found { IfSome result (IsFirstFrom tags.now from tag) }
    ensures absent { IfNone result (IsAbsentBetween tags.now from (length tags.now) tag) }
{
    for place in from..tags.len() {
        if tags[place] == tag {
            return Some(place);
        }
    }
    None
}

/// The places among 64 that hold the tag: bit i is set exactly where place i does.
pub fn mask(tags: &[u8; 64], tag: u8) -> u64
    ensures { (i : ℕ) → (bit_at result i ≡ 1) ↔ ((i < 64) × (slice_index tags.now i ≡ tag)) }
{
    let low = mask_32(tags, 0, tag);
    let high = mask_32(tags, LANES, tag);
    low | (high << LANES)
}

/// How many places hold the tag.
pub fn count_tag(tags: &[u8], tag: u8) -> usize
    ensures { result ≡ count_by (λ other. other == tag) tags.now }
{
    let mut count = 0;
    let mut place = 0;
    while LANES <= tags.len() - place {
        count += mask_32(tags, place, tag).count_ones() as usize;
        place += LANES;
    }
    count + count_one_by_one(&tags[place..], tag)
}

/// The same, one tag at a time.
fn count_one_by_one(tags: &[u8], tag: u8) -> usize
    ensures { result ≡ count_by (λ other. other == tag) tags.now }
{
    tags.iter().filter(|other| **other == tag).count()
}

/// The places among the 32 from `start` on that hold the tag, one bit for each.
fn mask_32(tags: &[u8], start: usize, tag: u8) -> u64
    requires { start + 32 ≤ length tags.now }
    ensures small { result < 2 ^ 32 }
    ensures marks { (i : ℕ) → (bit_at result i ≡ 1) ↔ ((i < 32) × (slice_index tags.now (start + i) ≡ tag)) }
    ensures ones { count_ones result ≡ count_by (λ other. other == tag) (take 32 (drop start tags.now)) }
{
    u8x32::from_slice(&tags[start..])
        .simd_eq(u8x32::splat(tag))
        .to_bitmask()
}
