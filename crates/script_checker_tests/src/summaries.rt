//! What the summary of a script says.
use script_checker::{Checked, Summary, check_line};
use std::alloc::{AllocError, Global};
use std::test::Fail;
use stream_script::{Lines, Mode};

/// A script without a fault.
const SCRIPT: &[u8] = br#"# A clerk and two orders.
sub orders/17 clerk/17 latest

pub orders/17 "paid"
pub orders/2 "paid" "shipped"
pub orders/17 "shipped"
deliver 0 1:log@orders/1
drain
"#;

/// Its summary on four queues, which the digests of the streams tell: a stream has the queue that the first eight bytes of
/// SHA-256 of its two names, with a zero byte between them, are modulo four.
const SUMMARY: &str = "pub 3
sub 1
deliver 1
drain 1
orders/17 queue 3
orders/2 queue 2
orders/1 queue 3
";

/// The text of the summary of a script that is simulated.
fn summary(alloc: Global, script: &[u8]) -> Result<String, AllocError> {
    let mut summary = Summary::new(alloc, 4);
    let mut lines = Lines::of(script);
    while let Some(line) = lines.next_line() {
        if let Checked::Command(command) = check_line(alloc, line, 1, 4, Mode::Sim)? {
            summary.note(&command)?;
        }
    }
    summary.text(alloc)
}

#[test]
fn summaries(rt: HostRuntime) -> Result<(), Fail> {
    let text = summary(rt.alloc(), SCRIPT)?;
    assert!(rt; text.as_str() == SUMMARY, "{text}");
    Ok(())
}
