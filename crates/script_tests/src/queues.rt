//! A hundred streams over seven queues: each reply is printed under the queue of its stream.
use queue_mapper::place;
use std::alloc::{AllocError, Global};
use std::test::Fail;
use stream_ident::StreamId;
use stream_model::Limits;
use stream_script::{Counted, SimConfig, SimError, sim};

/// How many streams there are: o/0, o/1 and so on.
const STREAMS: u32 = 100;

/// How many of them each of seven queues has, by another implementation of SHA-256.
static LOADS: [u64; 7] = [14, 18, 11, 14, 11, 12, 20];

/// A script that publishes an event to each stream.
fn script_of_all(alloc: Global) -> Result<String, AllocError> {
    let mut script = String::new(alloc);
    for number in 0..STREAMS {
        write!(script, "pub o/{number} \"a\"\n")?;
    }
    Ok(script)
}

/// What is to be printed for each stream: its queue, and how many batches that has had. Beside it how many each has in
/// the end.
fn replies_of_all(alloc: Global) -> Result<(String, [u64; 7]), Fail> {
    let mut replies = String::new(alloc);
    let mut loads = [0u64; 7];
    for number in 0..STREAMS {
        let key = format!(in alloc; "{number}")?;
        let queue = place(&StreamId::new(b"o", key.as_bytes())?, 7).queue;
        let load = &mut loads[queue];
        write!(replies, "{queue} published {load}\n")?;
        *load = load.wrapping_add(1);
    }
    Ok((replies, loads))
}

/// What the simulator prints for a script, with seven queues.
fn simulate(alloc: Global, script: &[u8]) -> Result<Vec<u8>, SimError> {
    let config = SimConfig {
        queues: 7,
        blocks: 1,
        limits: Limits::GREATEST,
    };
    let mut source = Counted::new(script);
    let mut sink = Counted::new(Vec::new(alloc));
    sim(alloc, config, &mut source, &mut sink)?;
    Ok(sink.into_inner())
}

#[test]
fn each_reply_is_under_the_queue_of_its_stream(rt: HostRuntime) -> Result<(), Fail> {
    let (replies, loads) = replies_of_all(rt.alloc())?;
    assert!(rt; loads == LOADS);
    let script = script_of_all(rt.alloc())?;
    let printed = simulate(rt.alloc(), script.as_bytes()).expect(&rt, "it is done");
    assert!(rt; printed.as_slice() == replies.as_bytes());
    Ok(())
}
