use crate::rows::assert_row;
use std::alloc::{AllocError, Global};
use std::cmp::Ordering;
use std::collections::HashMap;
use std::fmt::{Debug, Display};
use std::process::Abort;
use std::test::Fail;
use stream_ident::{
    Batch, Event, GrainId, Name, Payload, Row, StreamId, SubName, Token, parse_number, split_once,
};

/// What is read from bytes.
enum Read {
    Name(&'static [u8]),
    Stream(&'static [u8], &'static [u8]),
    Grain(&'static [u8], &'static [u8]),
    Token(&'static [u8]),
    Payload(&'static [u8]),
    Number(&'static [u8]),
    /// The parts of a text before and behind its first colon.
    Parts(&'static [u8]),
}

/// Writes the value with all its fields, or what its error says.
fn write_result<T: Debug + Copy, E: Display + Copy>(
    text: &mut String,
    read: Result<T, E>,
) -> Result<(), AllocError> {
    match read {
        Ok(value) => write!(text, "{value:?}"),
        Err(wrong) => write!(text, "{wrong}"),
    }
}

fn write_name(text: &mut String, bytes: &[u8]) -> Result<(), AllocError> {
    write_result(text, Name::new(bytes))
}

fn write_stream(text: &mut String, namespace: &[u8], key: &[u8]) -> Result<(), AllocError> {
    write_result(text, StreamId::new(namespace, key))
}

fn write_grain(text: &mut String, kind: &[u8], key: &[u8]) -> Result<(), AllocError> {
    write_result(text, GrainId::new(kind, key))
}

fn write_token(text: &mut String, bytes: &[u8]) -> Result<(), AllocError> {
    write_result(text, Token::parse(bytes))
}

fn write_payload(text: &mut String, bytes: &[u8]) -> Result<(), AllocError> {
    write_result(text, Payload::new(bytes))
}

fn write_number(text: &mut String, bytes: &[u8]) -> Result<(), AllocError> {
    write!(text, "{:?}", parse_number(bytes))
}

fn write_parts(text: &mut String, bytes: &[u8]) -> Result<(), AllocError> {
    write!(text, "{:?}", split_once(bytes, b':'))
}

/// Writes what is read, or what is wrong.
fn write_read(text: &mut String, read: &Read) -> Result<(), AllocError> {
    match *read {
        Read::Name(bytes) => write_name(text, bytes),
        Read::Stream(namespace, key) => write_stream(text, namespace, key),
        Read::Grain(kind, key) => write_grain(text, kind, key),
        Read::Token(bytes) => write_token(text, bytes),
        Read::Payload(bytes) => write_payload(text, bytes),
        Read::Number(bytes) => write_number(text, bytes),
        Read::Parts(bytes) => write_parts(text, bytes),
    }
}

/// A name of 64 bytes.
const LONGEST_NAME: &str = "kkkkkkkkkkkkkkkkkkkkkkkkkkkkkkkkkkkkkkkkkkkkkkkkkkkkkkkkkkkkkkkk";

/// A payload of 256 bytes.
const LONGEST_PAYLOAD: &str = concat!(
    "xxxxxxxxxxxxxxxxxxxxxxxxxxxxxxxxxxxxxxxxxxxxxxxxxxxxxxxxxxxxxxxx",
    "xxxxxxxxxxxxxxxxxxxxxxxxxxxxxxxxxxxxxxxxxxxxxxxxxxxxxxxxxxxxxxxx",
    "xxxxxxxxxxxxxxxxxxxxxxxxxxxxxxxxxxxxxxxxxxxxxxxxxxxxxxxxxxxxxxxx",
    "xxxxxxxxxxxxxxxxxxxxxxxxxxxxxxxxxxxxxxxxxxxxxxxxxxxxxxxxxxxxxxxx",
);

/// Names are short texts of the alphabet.
const NAMES: [(Read, &str); 7] = [
    (Read::Name(b"Az09_.-"), "Az09_.-"),
    (Read::Name(&[b'k'; 64]), LONGEST_NAME),
    (
        Read::Name(b""),
        "no name: wrong at byte 0, a name has 1 to 64 bytes of A-Z a-z 0-9 _ . -",
    ),
    (
        Read::Name(b"a/b"),
        "no name: wrong at byte 1, a name has 1 to 64 bytes of A-Z a-z 0-9 _ . -",
    ),
    (
        Read::Name(b"a "),
        "no name: wrong at byte 1, a name has 1 to 64 bytes of A-Z a-z 0-9 _ . -",
    ),
    (
        Read::Name(b"\xC3\xA9"),
        "no name: wrong at byte 0, a name has 1 to 64 bytes of A-Z a-z 0-9 _ . -",
    ),
    (
        Read::Name(&[b'k'; 65]),
        "no name: wrong at byte 64, a name has 1 to 64 bytes of A-Z a-z 0-9 _ . -",
    ),
];

/// Two texts make a stream, or it is said which is wrong where.
const STREAMS: [(Read, &str); 6] = [
    (
        Read::Stream(b"o", &[b'k'; 64]),
        "StreamId { namespace: o, key: kkkkkkkkkkkkkkkkkkkkkkkkkkkkkkkkkkkkkkkkkkkkkkkkkkkkkkkkkkkkkkkk }",
    ),
    (
        Read::Stream(b"cart", b"7"),
        "StreamId { namespace: cart, key: 7 }",
    ),
    (
        Read::Stream(b"", b"k"),
        "bad name: the namespace or kind is wrong at byte 0, a name has 1 to 64 bytes of A-Z a-z 0-9 _ . -",
    ),
    (
        Read::Stream(b"o", b"a/b"),
        "bad name: the key is wrong at byte 1, a name has 1 to 64 bytes of A-Z a-z 0-9 _ . -",
    ),
    (
        Read::Stream(b"o", &[b'k'; 65]),
        "bad name: the key is wrong at byte 64, a name has 1 to 64 bytes of A-Z a-z 0-9 _ . -",
    ),
    (
        Read::Stream(b"o o", b""),
        "bad name: the namespace or kind is wrong at byte 1, a name has 1 to 64 bytes of A-Z a-z 0-9 _ . -",
    ),
];

/// So it is with a grain.
const GRAINS: [(Read, &str); 6] = [
    (
        Read::Grain(b"o", &[b'k'; 64]),
        "GrainId { kind: o, key: kkkkkkkkkkkkkkkkkkkkkkkkkkkkkkkkkkkkkkkkkkkkkkkkkkkkkkkkkkkkkkkk }",
    ),
    (Read::Grain(b"cart", b"7"), "GrainId { kind: cart, key: 7 }"),
    (
        Read::Grain(b"", b"k"),
        "bad name: the namespace or kind is wrong at byte 0, a name has 1 to 64 bytes of A-Z a-z 0-9 _ . -",
    ),
    (
        Read::Grain(b"o", b"a/b"),
        "bad name: the key is wrong at byte 1, a name has 1 to 64 bytes of A-Z a-z 0-9 _ . -",
    ),
    (
        Read::Grain(b"o", &[b'k'; 65]),
        "bad name: the key is wrong at byte 64, a name has 1 to 64 bytes of A-Z a-z 0-9 _ . -",
    ),
    (
        Read::Grain(b"o o", b""),
        "bad name: the namespace or kind is wrong at byte 1, a name has 1 to 64 bytes of A-Z a-z 0-9 _ . -",
    ),
];

const BAD_TOKEN: &str =
    "bad token: a token is two decimal numbers without leading zeros, joined by a full stop, as 12.0";

/// A token has one text.
const TOKENS: [(Read, &str); 14] = [
    (Read::Token(b"7.2"), "Token { seq: 7, idx: 2 }"),
    (
        Read::Token(b"18446744073709551615.4294967295"),
        "Token { seq: 18446744073709551615, idx: 4294967295 }",
    ),
    (Read::Token(b""), BAD_TOKEN),
    (Read::Token(b"7"), BAD_TOKEN),
    (Read::Token(b"7."), BAD_TOKEN),
    (Read::Token(b".2"), BAD_TOKEN),
    (Read::Token(b"07.2"), BAD_TOKEN),
    (Read::Token(b"7.02"), BAD_TOKEN),
    (Read::Token(b"+7.2"), BAD_TOKEN),
    (Read::Token(b"7.+2"), BAD_TOKEN),
    (Read::Token(b"7.2.3"), BAD_TOKEN),
    (Read::Token(b"7 .2"), BAD_TOKEN),
    (Read::Token(b"7.4294967296"), BAD_TOKEN),
    (Read::Token(b"18446744073709551616.0"), BAD_TOKEN),
];

/// A number has one text, and a text has two parts where there is a colon.
const NUMBERS: [(Read, &str); 10] = [
    (Read::Number(b"0"), "Some(0)"),
    (Read::Number(b"10"), "Some(10)"),
    (
        Read::Number(b"18446744073709551615"),
        "Some(18446744073709551615)",
    ),
    (Read::Number(b"18446744073709551616"), "None"),
    (Read::Number(b"00"), "None"),
    (Read::Number(b"-1"), "None"),
    (Read::Number(b"1e3"), "None"),
    (Read::Number(b""), "None"),
    (Read::Parts(b"a"), "None"),
    (Read::Parts(b"a:b:c"), "Some(([97], [98, 58, 99]))"),
];

/// A payload has up to 256 printable bytes.
const PAYLOADS: [(Read, &str); 6] = [
    (Read::Payload(b""), ""),
    (Read::Payload(b" ~"), " ~"),
    (Read::Payload(&[b'x'; 256]), LONGEST_PAYLOAD),
    (
        Read::Payload(&[b'x'; 257]),
        "no payload: wrong at byte 256, a payload has at most 256 bytes of 0x20 to 0x7E",
    ),
    (
        Read::Payload(b"ab\x7F"),
        "no payload: wrong at byte 2, a payload has at most 256 bytes of 0x20 to 0x7E",
    ),
    (
        Read::Payload(b"\x1F"),
        "no payload: wrong at byte 0, a payload has at most 256 bytes of 0x20 to 0x7E",
    ),
];

static READS: [&[(Read, &str)]; 6] = [&NAMES, &STREAMS, &GRAINS, &TOKENS, &NUMBERS, &PAYLOADS];

/// Bytes are read as a value or refused with the place that is wrong.
#[test]
fn values_and_errors_are_read_from_bytes(rt: HostRuntime) -> Result<(), Fail> {
    let mut text = String::new(rt.alloc());
    for (table, rows) in READS.iter().enumerate() {
        for (row, (read, expected)) in rows.iter().enumerate() {
            text.clear();
            write_read(&mut text, read)?;
            assert_row(&rt, table, row, text.as_str() == *expected);
        }
    }
    Ok(())
}

/// Names that rise: a name comes before those that it begins.
static RISING_NAMES: [&[u8]; 4] = [b"Z", b"a", b"aa", b"b"];

/// Tokens that rise: the batch counts first.
static RISING_TOKENS: [Token; 4] = [
    Token { seq: 7, idx: 8 },
    Token { seq: 7, idx: 9 },
    Token { seq: 8, idx: 0 },
    Token { seq: 9, idx: 0 },
];

/// Keys of streams, batches and payloads of events that rise: the stream counts first, then the token, then the
/// payload.
static RISING_EVENTS: [(&[u8], u64, &[u8]); 4] = [
    (b"6", 9, b"z"),
    (b"7", 1, b"z"),
    (b"7", 2, b"a"),
    (b"7", 2, b"b"),
];

fn event_of(place: usize) -> Result<Event, Fail> {
    let (key, seq, payload) = RISING_EVENTS[place % 4];
    Ok(Event {
        stream: StreamId::new(b"orders", key)?,
        token: Token { seq, idx: 0 },
        payload: Payload::new(payload)?,
    })
}

/// Subscriptions that rise: those with a number come first.
fn sub_of(place: usize) -> Result<SubName, Fail> {
    Ok(match place {
        0 => SubName::Explicit(9),
        1 => SubName::Explicit(10),
        _ => SubName::Implicit {
            kind: Name::new(b"audit")?,
            stream: event_of(place - 2)?.stream,
        },
    })
}

/// Whether streams and grains of two names stand in this order: the first text decides, whatever the second one is.
fn ids_are_ordered(first: Name, second: Name, order: Ordering) -> bool {
    let stream = StreamId {
        namespace: first,
        key: second,
    };
    let twin = StreamId {
        namespace: second,
        key: first,
    };
    stream.is_before(&twin) == order.is_lt() && grain_is_before(first, second) == order.is_lt()
}

fn grain_is_before(first: Name, second: Name) -> bool {
    let grain = GrainId {
        kind: first,
        key: second,
    };
    let twin = GrainId {
        kind: second,
        key: first,
    };
    grain.is_before(&twin)
}

fn names_are_ordered(first: &Name, second: &Name, order: Ordering) -> bool {
    first.is_before(second) == order.is_lt() && (first == second) == order.is_eq()
}

fn subs_are_ordered(first: &SubName, second: &SubName, order: Ordering) -> bool {
    first.is_before(second) == order.is_lt() && (first == second) == order.is_eq()
}

/// What rises.
enum Rising {
    Names,
    Ids,
    Tokens,
    Subs,
    Events,
}

static KINDS: [Rising; 5] = [
    Rising::Names,
    Rising::Ids,
    Rising::Tokens,
    Rising::Subs,
    Rising::Events,
];

fn name_of(place: usize) -> Result<Name, Fail> {
    Ok(Name::new(RISING_NAMES[place % 4])?)
}

/// Whether the values of a kind at two places stand in this order.
fn are_ordered(kind: &Rising, i: usize, j: usize, order: Ordering) -> Result<bool, Fail> {
    match kind {
        Rising::Names => Ok(names_are_ordered(&name_of(i)?, &name_of(j)?, order)),
        Rising::Ids => Ok(ids_are_ordered(name_of(i)?, name_of(j)?, order)),
        Rising::Tokens => {
            Ok(RISING_TOKENS[i % 4].is_before(&RISING_TOKENS[j % 4]) == order.is_lt())
        }
        Rising::Subs => Ok(subs_are_ordered(&sub_of(i)?, &sub_of(j)?, order)),
        Rising::Events => Ok(event_of(i)?.cmp(&event_of(j)?) == order),
    }
}

/// Stops at two places of a kind whose values don't stand in order.
fn assert_order(rt: &impl Abort, kind: usize, i: usize, j: usize, is_so: bool) {
    assert!(rt; is_so, "kind {kind}: {i} and {j}");
}

/// Names, tokens, subscriptions and events are ordered as they stand here, and no two are equal.
#[test]
fn values_are_ordered(rt: HostRuntime) -> Result<(), Fail> {
    for (kind, rising) in KINDS.iter().enumerate() {
        for i in 0..4 {
            for j in 0..4 {
                let so = are_ordered(rising, i, j, i.cmp(&j))?;
                assert_order(&rt, kind, i, j, so);
            }
        }
    }
    Ok(())
}

const EVENT: &str =
    "Event { stream: StreamId { namespace: orders, key: 7 }, token: Token { seq: 2, idx: 0 }, payload: a }";

#[test]
fn an_event_shows_its_fields(rt: HostRuntime) -> Result<(), Fail> {
    let mut text = String::new(rt.alloc());
    write!(text, "{:?}", event_of(2)?)?;
    assert!(rt; text.as_str() == EVENT);
    Ok(())
}

fn batch_of(alloc: Global, payloads: &[Payload]) -> Result<Batch, AllocError> {
    Ok(Batch::of(Vec::from_slice(alloc, payloads)?))
}

/// Whether a batch has these payloads, and its copy too.
fn has_payloads(alloc: Global, batch: &Batch, payloads: &[Payload]) -> Result<bool, AllocError> {
    let copy = batch.copy(alloc)?.into_vec();
    Ok(batch.as_slice() == payloads && copy.as_slice() == payloads)
}

#[test]
fn batches_keep_their_payloads(rt: HostRuntime) -> Result<(), Fail> {
    let payloads = [Payload::new(b"one")?, Payload::new(b"two")?];
    let batch = batch_of(rt.alloc(), &payloads)?;
    assert!(rt; has_payloads(rt.alloc(), &batch, &payloads)?);
    Ok(())
}

/// Names that are inserted in this order, each with a number, and the number that was there.
static INSERTED: [(&[u8], u8, Option<u8>); 5] = [
    (b"cart", 7, None),
    (b"audit", 9, None),
    (b"cart", 1, Some(7)),
    (b"audit", 2, Some(9)),
    (b"other", 3, None),
];

/// Inserts a name with a number, and gives the number that was there.
fn insert(map: &mut HashMap<Name, u8>, name: &[u8], number: u8) -> Result<Option<u8>, Fail> {
    Ok(map.insert(Name::new(name)?, number)?)
}

#[test]
fn equal_names_hash_alike(rt: HostRuntime) -> Result<(), Fail> {
    let mut numbers = HashMap::new(rt.alloc());
    for (name, number, before) in &INSERTED {
        assert!(rt; insert(&mut numbers, name, *number)? == *before, "{number}");
    }
    Ok(())
}

#[test]
fn rows_are_equal_by_their_values(rt: HostRuntime) {
    let mut row = Row::of(1u8);
    let mut same = Row::of(1);
    let mut other = Row::of(2);
    assert!(rt; row == same && row != other);
    row.push(2);
    assert!(rt; row != same && row != other);
    same.push(2);
    other.push(2);
    // The places behind the values differ.
    assert!(rt; row == same && row != other && row == row.copy());
}
