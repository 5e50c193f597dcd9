use crate::random::Random;
use crate::rows::assert_at;
use tag_scan::{count_tag, find_tag, mask};

const BLOCK: usize = 64;

/// A block of one tag but for the last.
static TAGS: [u8; BLOCK] = [
    7, 7, 7, 7, 7, 7, 7, 7, 7, 7, 7, 7, 7, 7, 7, 7, 7, 7, 7, 7, 7, 7, 7, 7, 7, 7, 7, 7, 7, 7, 7, 7,
    7, 7, 7, 7, 7, 7, 7, 7, 7, 7, 7, 7, 7, 7, 7, 7, 7, 7, 7, 7, 7, 7, 7, 7, 7, 7, 7, 7, 7, 7, 7, 9,
];

#[test]
fn a_block_of_tags(rt: HostRuntime) {
    assert!(rt; find_tag(&TAGS, 0, 9) == Some(63));
    assert!(rt; find_tag(&TAGS, 1, 7) == Some(1));
    assert!(rt; find_tag(&TAGS, 64, 7) == None);
    assert!(rt; mask(&TAGS, 9) == 9223372036854775808);
    assert!(rt; count_tag(&TAGS, 7) == 63);
}

#[test]
fn one_tag_behind_a_vector(rt: HostRuntime) {
    assert!(rt; find_tag(&TAGS[31..], 0, 9) == Some(32));
}

/// Whether a tag is counted, and found from each start, also past the end, as loops over single tags have it.
fn is_listed(list: &[u8], tag: u8) -> bool {
    for from in 0..132 {
        if find_tag(list, from, tag) != plain_find(list, from, tag) {
            return false;
        }
    }
    count_tag(list, tag) == plain_count(list, tag)
}

/// Each length from 0 to 130.
#[test]
fn lists_as_plain_loops_have_it(rt: HostRuntime) {
    let tags = mixed_tags();
    for length in 0..131 {
        for tag in 0..6 {
            assert_at(&rt, length, is_listed(&tags[..length], tag));
        }
    }
}

/// Each block of 64 of those tags.
#[test]
fn masks_as_plain_loops_have_them(rt: HostRuntime) {
    let tags = mixed_tags();
    let mut block = [0; BLOCK];
    for start in 0..67 {
        block.copy_from_slice(&tags[start..start + BLOCK]);
        for tag in 0..6 {
            assert_at(&rt, start, mask(&block, tag) == plain_mask(&block, tag));
        }
    }
}

/// Tags of five values without order.
fn mixed_tags() -> [u8; 130] {
    let mut tags = [0; 130];
    let mut random = Random::new(1);
    for tag in tags.iter_mut() {
        *tag = random.below(5) as u8;
    }
    tags
}

fn plain_mask(tags: &[u8; BLOCK], tag: u8) -> u64 {
    let mut marks = 0;
    for (place, other) in tags.iter().enumerate() {
        if *other == tag {
            marks |= 1 << place;
        }
    }
    marks
}

fn plain_find(tags: &[u8], from: usize, tag: u8) -> Option<usize> {
    for (place, other) in tags.iter().enumerate() {
        if from <= place && *other == tag {
            return Some(place);
        }
    }
    None
}

fn plain_count(tags: &[u8], tag: u8) -> usize {
    let mut count = 0usize;
    for other in tags {
        if *other == tag {
            count = count.wrapping_add(1);
        }
    }
    count
}
