//! Traces that are simulated again.
use crate::ends::{STORY, Small, lessened};
use script_runs::Unfinished;
use script_tasks::{Calls, ProgramFault, Shown, sim_config, trace_config, trace_on_silos};
use std::alloc::{AllocError, Global};
use std::str;
use std::test::Fail;
use stream_script::{Counted, sim};

/// The replies that the comments of a trace tell, for queue 0.
fn comments(alloc: Global, trace: &[u8]) -> Result<Vec<u8>, AllocError> {
    let mut replies = Vec::new(alloc);
    for line in trace.split(|byte| *byte == b'\n') {
        if let Some(reply) = line.strip_prefix(b"# 0 ") {
            replies.extend_from_slice(b"0 ")?;
            replies.extend_from_slice(reply)?;
            replies.push(b'\n')?;
        }
    }
    Ok(replies)
}

/// What a simulation of one queue prints.
fn simulated(alloc: Global, script: &[u8]) -> Result<Vec<u8>, Fail> {
    let mut source = Counted::new(script);
    let mut sink = Counted::new(Vec::new(alloc));
    match sim(alloc, sim_config(1, 4), &mut source, &mut sink) {
        Ok(()) => Ok(sink.into_inner()),
        Err(_) => Err(Fail::from("not simulated")),
    }
}

/// A script that is traced.
const SCRIPT: &[u8] =
    b"rule log orders\nsub orders/17 clerk/17 latest\npub orders/17 \"a \\\"b\" \"\\\\\"\nup 2\ndown 0\npub orders/18 \"c\"\nunsub 0:1\n";

static SHOWN: [Shown; 2] = [
    Shown {
        calls: Calls::All,
        queue: None,
    },
    Shown {
        calls: Calls::Busy,
        queue: None,
    },
];

#[test]
fn a_trace_is_simulated_with_the_same_replies(rt: HostRuntime) -> Result<(), Fail> {
    for shown in &SHOWN {
        let mut source = Counted::new(SCRIPT);
        let mut trace = Vec::new(rt.alloc());
        let config = trace_config(1, 4, 2);
        let outcome = trace_on_silos(&rt, rt.alloc(), &config, *shown, &mut source, &mut trace);
        assert!(rt; outcome.is_ok());
        let told = comments(rt.alloc(), trace.as_slice())?;
        assert!(rt; told.as_slice().starts_with(b"0 "));
        let again = simulated(rt.alloc(), trace.as_slice())?;
        assert!(rt; again.as_slice() == told.as_slice());
    }
    Ok(())
}

/// Replies that a busy trace tells of the script, and replies that no busy trace tells.
static BUSY: [&str; 4] = [
    "\n# 0 rule-added 0\n",
    "\n# 0 subscribed 1\n",
    "\n# 0 published 0\n",
    "\n# 0 quiet\n",
];

static IDLE: [&str; 7] = [
    "\n# 0 dry\n",
    "\n# 0 none-ready\n",
    "\n# 0 none-due\n",
    "\n# 0 behind\n",
    "\n# 0 deliverable ",
    "\n# 0 waiting ",
    "\n# 0 running ",
];

#[test]
fn a_busy_trace_has_no_idle_looks(rt: HostRuntime) -> Result<(), Fail> {
    let mut source = Counted::new(SCRIPT);
    let mut trace = Vec::new(rt.alloc());
    let config = trace_config(1, 4, 2);
    let shown = Shown {
        calls: Calls::Busy,
        queue: None,
    };
    let outcome = trace_on_silos(&rt, rt.alloc(), &config, shown, &mut source, &mut trace);
    assert!(rt; outcome.is_ok());
    let text = str::from_utf8(&trace)?;
    for reply in &BUSY {
        assert!(rt; text.contains(*reply));
    }
    for reply in &IDLE {
        assert!(rt; !text.contains(*reply));
    }
    Ok(())
}

/// A queue of two, how its trace begins, what the rule of the script does there, and what stands in the other trace.
static ALONE: [(usize, &str, &str, &str); 2] = [
    (
        0,
        "# queue 0\n",
        "\nrule log orders\n# 0 rule-added 0\n",
        "# queue 1\n",
    ),
    (
        1,
        "# queue 1\n",
        "\nrule log orders\n# 1 rule-added 0\n",
        "# queue 0\n",
    ),
];

#[test]
fn a_queue_is_traced_alone(rt: HostRuntime) -> Result<(), Fail> {
    for (queue, front, told, other) in &ALONE {
        let mut source = Counted::new(b"rule log orders\ndrain\n".as_slice());
        let mut trace = Vec::new(rt.alloc());
        let config = trace_config(2, 4, 1);
        let shown = Shown {
            calls: Calls::All,
            queue: Some(*queue),
        };
        let outcome = trace_on_silos(&rt, rt.alloc(), &config, shown, &mut source, &mut trace);
        assert!(rt; outcome.is_ok());
        let text = str::from_utf8(&trace)?;
        assert!(rt; text.starts_with(*front));
        assert!(rt; text.contains(*told));
        assert!(rt; !text.contains(*other));
    }
    Ok(())
}

/// Three events, of which the third is one too many.
const EVENTS: &[u8] = b"pub orders/17 \"a\"\npub orders/17 \"b\"\npub orders/17 \"c\"\n";

/// What is small, on how many silos, the script, and what its trace tells.
struct Limit {
    small: Small,
    silos: u32,
    script: &'static [u8],
    comment: &'static str,
}

static LIMITS: [Limit; 3] = [
    Limit {
        small: Small::Events,
        silos: 1,
        script: EVENTS,
        comment: "\n# 0 queue-full\n",
    },
    Limit {
        small: Small::Events,
        silos: 2,
        script: STORY,
        comment: "\n# 0 queue-full\n",
    },
    Limit {
        small: Small::History,
        silos: 1,
        script: STORY,
        comment: "\n# 0 ",
    },
];

#[test]
fn a_run_that_meets_a_limit_is_traced(rt: HostRuntime) {
    for limit in &LIMITS {
        let mut source = Counted::new(limit.script);
        let mut trace = Vec::new(rt.alloc());
        let config = lessened(trace_config(1, 4, limit.silos), limit.small);
        let shown = Shown {
            calls: Calls::All,
            queue: None,
        };
        let ended = trace_on_silos(&rt, rt.alloc(), &config, shown, &mut source, &mut trace);
        assert!(rt; matches!(ended, Err(ProgramFault::Unfinished(Unfinished::Limit))));
        assert!(rt; str::from_utf8(&trace).is_ok_and(|text| text.contains(limit.comment)));
    }
}
