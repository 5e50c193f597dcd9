//! What comes of an output that is closed, and how often an output is written and flushed.
use crate::tasks::{Doing, task_of};
use script_tasks::{ProgramFault, perform_task, sim_config};
use std::alloc::Global;
use std::io::{self, ErrorKind, Write};
use stream_script::{Counted, Fault, FaultKind, SimError, sim};

/// An output that is closed after some calls, and counts those before.
#[derive(Drop)]
struct Output {
    /// How many calls don't fail.
    open: u32,
    /// The most bytes that a write takes.
    most: usize,
    writes: u32,
    flushes: u32,
    text: Vec<u8>,
}

/// An output that nothing was written to.
fn output_of(alloc: Global, open: u32, most: usize) -> Output {
    Output {
        open,
        most,
        writes: 0,
        flushes: 0,
        text: Vec::new(alloc),
    }
}

impl Output {
    fn next_call(&mut self) -> io::Result<()> {
        if self.open == 0 {
            return Err(io::Error::from(ErrorKind::BrokenPipe));
        }
        self.open -= 1;
        Ok(())
    }
}

impl Write for Output {
    fn write(&mut self, buf: &[u8]) -> io::Result<usize> {
        self.next_call()?;
        self.writes = self.writes.saturating_add(1);
        let most = buf.len().min(self.most);
        self.text.extend_from_slice(&buf[..most])?;
        Ok(most)
    }

    fn flush(&mut self) -> io::Result<()> {
        self.next_call()?;
        self.flushes = self.flushes.saturating_add(1);
        Ok(())
    }
}

/// A script that is simulated and run.
const SCRIPT: &[u8] = b"sub orders/17 clerk/17 latest\npub orders/17 \"a\"\ndrain\n";

/// What is done with the script, the most bytes that a write takes, how many calls don't fail, and whether it ends well.
struct Case {
    doing: Doing,
    most: usize,
    open: u32,
    is_done: bool,
}

/// A simulation of the script prints 41 bytes and a run of it 46, so that 8 bytes at once take six writes. The last call
/// is the flush.
static CASES: [Case; 15] = [
    Case {
        doing: Doing::Simulating,
        most: 4096,
        open: 0,
        is_done: false,
    },
    Case {
        doing: Doing::Simulating,
        most: 4096,
        open: 1,
        is_done: false,
    },
    Case {
        doing: Doing::Simulating,
        most: 4096,
        open: 2,
        is_done: true,
    },
    Case {
        doing: Doing::Simulating,
        most: 8,
        open: 3,
        is_done: false,
    },
    Case {
        doing: Doing::Simulating,
        most: 8,
        open: 5,
        is_done: false,
    },
    Case {
        doing: Doing::Simulating,
        most: 8,
        open: 6,
        is_done: false,
    },
    Case {
        doing: Doing::Running,
        most: 4096,
        open: 0,
        is_done: false,
    },
    Case {
        doing: Doing::Running,
        most: 4096,
        open: 1,
        is_done: false,
    },
    Case {
        doing: Doing::Running,
        most: 4096,
        open: 2,
        is_done: true,
    },
    Case {
        doing: Doing::Running,
        most: 8,
        open: 3,
        is_done: false,
    },
    Case {
        doing: Doing::Running,
        most: 8,
        open: 5,
        is_done: false,
    },
    Case {
        doing: Doing::Running,
        most: 8,
        open: 6,
        is_done: false,
    },
    Case {
        doing: Doing::Tracing,
        most: 4096,
        open: 0,
        is_done: false,
    },
    Case {
        doing: Doing::Tracing,
        most: 4096,
        open: 1,
        is_done: false,
    },
    Case {
        doing: Doing::Tracing,
        most: 4096,
        open: 2,
        is_done: true,
    },
];

fn is_ended(ended: &Result<(), ProgramFault>, is_done: bool) -> bool {
    match ended {
        Ok(()) => is_done,
        Err(fault) => !is_done && is_write_fault(fault),
    }
}

#[test]
fn a_closed_output_is_a_write_fault(rt: HostRuntime) {
    for case in &CASES {
        let mut output = output_of(rt.alloc(), case.open, case.most);
        let task = task_of(case.doing, 1, 4, 1);
        let ended = perform_task(&rt, rt.alloc(), task, SCRIPT, &mut output);
        assert!(rt; is_ended(&ended, case.is_done));
    }
}

fn is_write_fault(fault: &ProgramFault) -> bool {
    matches!(fault, ProgramFault::Script(SimError::WriteFault)) && fault.status() == 3
}

/// A simulation over an output.
struct Simulation {
    script: &'static [u8],
    /// How many calls of the output don't fail.
    open: u32,
    outcome: Result<(), SimError>,
    writes: u32,
    flushes: u32,
    text: &'static [u8],
}

/// The second line of a script is faulty, so it matters whether the first reply is written before that is found.
static SIMULATIONS: [Simulation; 5] = [
    Simulation {
        script: SCRIPT,
        open: 4,
        outcome: Ok(()),
        writes: 3,
        flushes: 1,
        text: b"0 subscribed 1\n0 published 0\n0 drained 1\n",
    },
    Simulation {
        script: SCRIPT,
        open: 2,
        outcome: Err(SimError::WriteFault),
        writes: 2,
        flushes: 0,
        text: b"0 subscribed 1\n0 published 0\n",
    },
    Simulation {
        script: b"pub orders/17 \"a\"\nnonsense\n",
        open: 2,
        outcome: Err(SimError::ScriptFault(Fault {
            line: 2,
            kind: FaultKind::BadCommand,
        })),
        writes: 1,
        flushes: 1,
        text: b"0 published 0\n",
    },
    Simulation {
        script: b"pub orders/17 \"a\"\nnonsense\n",
        open: 1,
        outcome: Err(SimError::WriteFault),
        writes: 1,
        flushes: 0,
        text: b"0 published 0\n",
    },
    Simulation {
        script: b"pub orders/17 \"a\"\nnonsense\n",
        open: 0,
        outcome: Err(SimError::WriteFault),
        writes: 0,
        flushes: 0,
        text: b"",
    },
];

fn is_left(output: &Output, case: &Simulation) -> bool {
    output.writes == case.writes
        && output.flushes == case.flushes
        && output.text.as_slice() == case.text
}

#[test]
fn each_reply_is_written_before_the_next_line_is_done(rt: HostRuntime) {
    for case in &SIMULATIONS {
        let mut source = Counted::new(case.script);
        let mut sink = Counted::new(output_of(rt.alloc(), case.open, 4096));
        let ended = sim(rt.alloc(), sim_config(1, 4), &mut source, &mut sink);
        assert!(rt; ended == case.outcome);
        assert!(rt; is_left(&sink.into_inner(), case));
    }
}
