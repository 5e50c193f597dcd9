use crate::rows::assert_at;
use queue_mapper::{Place, place};
use std::test::Fail;
use stream_ident::StreamId;

/// Streams, their tags, and their queues among so many. The first four are those that another implementation of
/// SHA-256 gives, the others those of `sha256sum`.
static PLACES: [(&[u8], &[u8], u8, &[(usize, usize)]); 12] = [
    (b"o", b"k", 41, &[(1, 0), (2, 1), (3, 1), (64, 37)]),
    (b"orders", b"7", 36, &[(1, 0), (2, 0), (3, 2), (64, 26)]),
    (b"a", b"b", 29, &[(1, 0), (2, 1), (3, 2), (64, 19)]),
    (
        &[b'A'; 64],
        &[b'z'; 64],
        161,
        &[(1, 0), (2, 1), (3, 0), (64, 5)],
    ),
    (b"o", b"k", 41, &[(1, 0), (7, 3), (64, 37)]),
    (b"o", b"0", 184, &[(1, 0), (7, 1), (64, 42)]),
    (b"o", b"255", 165, &[(1, 0), (7, 6), (64, 13)]),
    (b"orders", b"7", 36, &[(1, 0), (7, 5), (64, 26)]),
    (b"orders", b"8", 181, &[(1, 0), (7, 4), (64, 18)]),
    (b"trades", b"ibm", 229, &[(1, 0), (7, 3), (64, 22)]),
    (b"users", b"0001", 174, &[(1, 0), (7, 2), (64, 30)]),
    (b"sensors.eu", b"42", 64, &[(1, 0), (7, 5), (64, 18)]),
];

/// Whether a stream has this place among so many queues.
fn is_placed(stream: &StreamId, count: usize, queue: usize, tag: u8) -> bool {
    1 <= count
        && place(stream, count) == Place { queue, tag }
        && queue_mapper::queue(stream, count) == queue
}

/// Whether a stream has each of these places, among so many queues.
fn are_placed(stream: &StreamId, tag: u8, queues: &[(usize, usize)]) -> bool {
    for (count, queue) in queues {
        if !is_placed(stream, *count, *queue, tag) {
            return false;
        }
    }
    true
}

#[test]
fn places_are_those_of_the_digest(rt: HostRuntime) -> Result<(), Fail> {
    for (row, (namespace, key, tag, queues)) in PLACES.iter().enumerate() {
        let stream = StreamId::new(namespace, key)?;
        assert_at(&rt, row, are_placed(&stream, *tag, queues));
    }
    Ok(())
}
