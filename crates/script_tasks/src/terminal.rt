//! What the program does where standard error is a terminal: it says how far a script is, and why it can't be read.
ghost use Rattle.script_tasks.specs.Tasks.{IsTask};

use crate::fault::ProgramFault;
use crate::options::{Request, Task, parse_options};
use crate::performing::{end, perform_task, unread};
use crate::progress::{Progress, WatchedHandler, WatchedSink, events_in, lines_in};
use crate::silos::run_with_gate;
use std::alloc::Global;
use std::fs;
use std::io::{self, Read};
use std::process::ExitCode;
use std::rt::{Clock, Runtime};
use std::sync::atomic::AtomicU64;
use std::sync::{Arc, Wait};
use std::thread::Threads;
use stream_script::{Counted, MOST_SCRIPT_BYTES, SimError, sim};

/// Which outputs are terminals.
#[derive(Clone, Copy, Debug)]
pub struct Terminals {
    /// Whether standard output is one.
    pub output: bool,
    /// Whether standard error is one.
    pub error: bool,
}

/// Does what these words ask for as [`perform_words`](crate::perform_words) does, on standard output, and ends the program.
/// The script is read first.
pub(crate) fn perform_on_terminal<
    R: Runtime + AllocGlobal + Threads + Wait + Copy + Send + Sync + 'static,
>(rt: &R, words: &[String], terminals: Terminals) -> ExitCode {
    let alloc = rt.alloc();
    let Request { file, task } = match parse_options(alloc, words) {
        Ok(request) => request,
        Err(error) => return end(rt, &Err(ProgramFault::from(error))),
    };
    match read(rt, alloc, file) {
        Ok(script) => end(rt, &perform_watched(rt, alloc, task, terminals, &script)),
        Err(error) => end_unread(rt, file, &error),
    }
}

/// Reads a script, or as much of it as shows that it is too long.
fn read<R: Runtime>(rt: &R, alloc: Global, file: Option<&str>) -> io::Result<Vec<u8>> {
    let mut script = Vec::new(alloc);
    let most = MOST_SCRIPT_BYTES as u64 + 1;
    match file {
        None => rt.reader().take(most).read_to_end(&mut script)?,
        Some(path) => fs::open(rt, path)?.take(most).read_to_end(&mut script)?,
    };
    Ok(script)
}

/// Ends the program where its script isn't read. A read fault is followed by a line with the system's reason.
fn end_unread<R: Print + Eprint>(rt: &R, file: Option<&str>, error: &io::Error) -> ExitCode {
    let fault = unread(error);
    let status = end(rt, &Err(ProgramFault::Script(fault)));
    if fault == SimError::ReadFault {
        let file = file.unwrap_or("standard input");
        // Where standard error fails, the status has to do.
        let _ = eprintln!(rt; "streams: {file}: {error}");
    }
    status
}

/// Does a task on a script, on standard output. Of a run, and of a simulation whose replies don't go to a terminal, it says
/// how far it is.
fn perform_watched<R: Clock + Print + Eprint + Threads + Wait + Copy + Send + Sync + 'static>(
    rt: &R,
    alloc: Global,
    task: Task,
    terminals: Terminals,
    script: &[u8],
) -> Result<(), ProgramFault>
    requires { IsTask task }
{
    let mut source = Counted::new(script);
    match task {
        Task::Run(config, detail) => {
            let handler = WatchedHandler {
                progress: Progress::new(*rt),
                events: events_in(alloc, script, config.queues)?,
                handled: AtomicU64::new(0),
            };
            let gate = Arc::new(alloc, handler)?;
            let mut writer = io::BufWriter::new(alloc, io::writer(rt))?;
            run_with_gate(rt, alloc, &config, gate, detail, &mut source, &mut writer)
        }
        Task::Simulate(config) if !terminals.output => {
            let writer = io::BufWriter::new(alloc, io::writer(rt))?;
            let mut sink = WatchedSink {
                inner: Counted::new(writer),
                progress: Progress::new(*rt),
                lines: lines_in(script),
                replies: 0,
            };
            Ok(sim(alloc, config, &mut source, &mut sink)?)
        }
        _ => perform_task(rt, alloc, task, script, io::writer(rt)),
    }
}
