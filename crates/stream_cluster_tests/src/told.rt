//! What producers were told was published, and the report that follows of it.
ghost use Rattle.std.specs.Prelude.{◌≡◌};

use crate::producer::Producer;
use shared_partition::{Gate, QueueHistory};
use std::alloc::{AllocError, Global};
use std::process::Abort;
use std::sync::Wait;

/// An event that a producer was told was published, in a batch of its own.
#[derive(Clone, Copy)]
pub struct Told {
    pub queue: usize,
    /// The number of its batch.
    pub seq: usize,
    /// Its payload.
    pub payload: u64,
}

/// The grains that subscribe at a queue, in their order. Each stands at eight queues.
pub fn grains(queue: usize) -> [usize; 2] {
    [queue % 8, 8 + queue / 8]
}

// The payload of the batch with this number.
fn payload_at(told: &[Told], queue: usize, seq: usize) -> Option<u64> {
    for it in told {
        if it.queue == queue && it.seq == seq {
            return Some(it.payload);
        }
    }
    None
}

// What is reported of the events of a queue, whose numbers begin with 0, and how many these are.
fn events(alloc: Global, told: &[Told], queue: usize) -> Result<(usize, String), AllocError> {
    let mut text = String::new(alloc);
    for seq in 0..told.len() {
        let Some(payload) = payload_at(told, queue, seq) else {
            return Ok((seq, text));
        };
        write!(text, "  {seq}.0 \"{payload}\"\n")?;
    }
    Ok((told.len(), text))
}

// What is reported of the subscription with this number, of a grain that has handled so many events.
fn write_sub(
    text: &mut String,
    queue: usize,
    number: usize,
    grain: usize,
    count: usize,
    events: &str,
) -> Result<(), AllocError> {
    write!(
        text,
        "{queue}:{number} o/{queue} g/{grain} 0.0 {count}\n{events}"
    )?;
    Ok(())
}

/// What is reported of so many queues where all that was told was handled. There is none where the numbers that were
/// told at a queue leave one out, or one was told twice.
pub fn report_of(
    alloc: Global,
    told: &[Told],
    queues: usize,
) -> Result<Option<String>, AllocError> {
    let mut text = "report\n".to_string(alloc)?;
    let mut all = 0usize;
    for queue in 0..queues {
        let (count, events) = events(alloc, told, queue)?;
        all = all.wrapping_add(count);
        let [one, two] = grains(queue);
        write_sub(&mut text, queue, 1, one, count, events.as_str())?;
        write_sub(&mut text, queue, 2, two, count, events.as_str())?;
    }
    Ok(if all == told.len() { Some(text) } else { None })
}

/// Two grains subscribe at each queue. Whether that was refused somewhere; then it was asked for once more.
pub fn subscribe_all<G: Gate, H: QueueHistory, R: Wait + Abort>(
    rt: &R,
    alloc: Global,
    producer: &mut Producer<G, H>,
    queues: usize,
) -> bool
    ensures { producer.new ≡ producer.old }
{
    let mut refused = false;
    for at in 0..queues.wrapping_mul(2) {
        let queue = at / 2;
        let to = grains(queue)[at % 2];
        if producer.subscribe(rt, alloc, queue, to).is_err() {
            refused = true;
            let again = producer.subscribe(rt, alloc, queue, to);
            again.expect(rt, "memory");
        }
    }
    refused
}
