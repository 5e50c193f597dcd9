//! What the command line asks for is done.
ghost use Rattle.std.specs.Prelude.{◌-◌, ◌^◌, ◌<◌, IfSome};
ghost use Rattle.stream_script.specs.Simulation.{IsSimConfig, simulation};
ghost use Rattle.script_tasks.specs.Statuses.{Exits};
ghost use Rattle.script_tasks.specs.Tasks.{IsTask, PrintsSimulation, PrintsTask};

use crate::checking::check_source;
use crate::fault::ProgramFault;
use crate::options::{Request, Task, parse_options, unread_words};
use crate::silos::{run_on_silos, trace_on_silos};
use crate::terminal::{Terminals, perform_on_terminal};
use std::alloc::Global;
use std::fs;
use std::io::{self, Read, Write};
use std::process::ExitCode;
use std::rt::Runtime;
use std::sync::Wait;
use std::thread::Threads;
use stream_script::{Counted, SimConfig, SimError, Source, sim};

/// Does what the command line asks for, and gives the exit status of the program: 0 done, 1 a faulty script, 2 a faulty
/// command line, 3 a read or write fault or a failure to allocate, 4 a run without a report. What stops the program is
/// printed on standard error, once. Where that is a terminal, it also says how far a script is, and after a read fault
/// why the script can't be read.
pub fn perform<R: Runtime + AllocGlobal + Threads + Wait + Copy + Send + Sync + 'static>(
    rt: &R,
    terminals: Terminals,
) -> ExitCode {
    match words_of(rt) {
        Ok(words) if terminals.error => perform_on_terminal(rt, words.as_slice(), terminals),
        Ok(words) => end(rt, &perform_words(rt, words.as_slice(), io::writer(rt))),
        Err(fault) => end(rt, &Err(fault)),
    }
}

/// Ends the program, by how that ended which it was asked for: prints what stopped it on standard error, once, or help or
/// the version on standard output, and gives the exit status, which is 0 where it was done, and else that of the fault,
/// as [`ProgramFault::report`] tells.
pub fn end<R: Print + Eprint>(rt: &R, ended: &Result<(), ProgramFault>) -> ExitCode
    ensures { Exits ended.now result }
{
    match ended {
        Ok(()) => ExitCode::SUCCESS,
        Err(fault) => fault.report(rt),
    }
}

/// The words of the command line.
fn words_of<R: Runtime + AllocGlobal>(rt: &R) -> Result<Vec<String>, ProgramFault> {
    let alloc = rt.alloc();
    let words = std::env::args(rt)
        .map_err(|error| unread_words(alloc, &error))?
        .collect::<Vec<String>>(alloc)?;
    Ok(words)
}

/// Does what these words ask for, of which the first is the name of the program. The script is read from the file that
/// they name, or else from standard input.
///
/// # Errors
/// The words ask for no task, the file can't be opened (`ReadFault`), the call failed to allocate, or the task ends with
/// a fault, as [`perform_task`] tells.
pub fn perform_words<
    R: Runtime + AllocGlobal + Threads + Wait + Copy + Send + 'static,
    W: Write + Drop,
>(rt: &R, words: &[String], sink: W) -> Result<(), ProgramFault> {
    let alloc = rt.alloc();
    let Request { file, task } = parse_options(alloc, words)?;
    match file {
        None => perform_task(rt, alloc, task, rt.reader(), sink),
        Some(path) => {
            let script = fs::open(rt, path).map_err(|error| unread(&error))?;
            perform_task(rt, alloc, task, script, sink)
        }
    }
}

/// The fault of a script that isn't read: `Memory` where the call failed to allocate, and else `ReadFault`.
pub(crate) fn unread(error: &io::Error) -> SimError {
    match error.kind() {
        io::ErrorKind::OutOfMemory => SimError::Memory,
        _ => SimError::ReadFault,
    }
}

/// Does a task on a script. The text goes out through a buffer, which is flushed at the end.
///
/// # Errors
/// They are those of [`sim`], [`run_on_silos`], [`trace_on_silos`] or [`check_source`], by the task, or the buffer failed
/// to allocate.
pub fn perform_task<T: Threads + Wait + Copy + Send + 'static, R: Read + Drop, W: Write + Drop>(
    rt: &T,
    alloc: Global,
    task: Task,
    script: R,
    sink: W,
) -> Result<(), ProgramFault>
    requires { IsTask task }
{
    let mut source = Counted::new(script);
    let writer = io::BufWriter::new(alloc, sink)?;
    let (_writer, ended) = write_task(rt, alloc, task, &mut source, writer);
    ended
}

/// Does a task on a script, writes what it prints, and gives the sink back.
///
/// # Errors
/// They are those of [`perform_task`].
fn write_task<T: Threads + Wait + Copy + Send + 'static, R: Source, W: Write>(
    rt: &T,
    alloc: Global,
    task: Task,
    source: &mut R,
    mut sink: W,
) -> (W, Result<(), ProgramFault>)
    requires task { IsTask task }
    requires count { R.failures source.old < 2 ^ 64 - 1 }
    // What was written, where the source's bytes are known.
    ensures { IfSome (R.remaining source.old) (λ input.
        PrintsTask task input (W.contents sink) (W.contents result.0) result.1) }
{
    let ended = match task {
        Task::Simulate(config) => return simulate(alloc, config, source, sink),
        Task::Run(config, detail) => run_on_silos(rt, alloc, &config, detail, source, &mut sink),
        Task::Trace(config, shown) => trace_on_silos(rt, alloc, &config, shown, source, &mut sink),
        Task::Check(config) => check_source(alloc, config, source, &mut sink),
    };
    (sink, ended)
}

/// Simulates a script, writes the replies to its lines, and gives the sink back.
fn simulate<R: Source, W: Write>(
    alloc: Global,
    config: SimConfig,
    source: &mut R,
    sink: W,
) -> (W, Result<(), ProgramFault>)
    requires config { IsSimConfig config }
    requires count { R.failures source.old < 2 ^ 64 - 1 }
    // What was written, where the source's bytes are known.
    ensures { IfSome (R.remaining source.old) (λ input.
        PrintsSimulation (simulation config input) (W.contents sink) (W.contents result.0) result.1) }
{
    let mut counted = Counted::new(sink);
    match sim(alloc, config, source, &mut counted) {
        Ok(()) => (counted.into_inner(), Ok(())),
        Err(error) => (counted.into_inner(), Err(ProgramFault::Script(error))),
    }
}
