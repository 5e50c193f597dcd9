//! Why the program ends with a status other than 0.
ghost use Rattle.std.specs.Prelude.{◌≡◌};
ghost use Rattle.std.specs.Process.{exit_status};
ghost use Rattle.script_tasks.specs.Statuses.{EndsWith, EndsWords, status_of};

use script_runs::Unfinished;
use std::alloc::{AllocError, AllocFailed};
use std::io;
use std::process::ExitCode;
use stream_script::SimError;
use thiserror::Error;

/// What stops the program.
#[derive(Debug, Drop, Error)]
pub enum ProgramFault {
    /// The command line is faulty, or asks for help or for the version.
    #[error("{0}")]
    CommandLine(clap::Error),
    /// The script can't be read or is faulty, its text can't be written, or memory ran out.
    #[error("streams: {0}")]
    Script(SimError),
    /// A run on silos has no report.
    #[error("streams: {}", reason(.0))]
    Unfinished(Unfinished),
}

/// Why there is no report.
fn reason(why: &Unfinished) -> &'static str {
    match why {
        Unfinished::Limit => "limit reached",
        Unfinished::RoundLimit => "round limit",
        Unfinished::NotQuiet => "not quiet",
    }
}

impl ProgramFault {
    /// Prints the fault on standard error, or help or the version on standard output, and gives the exit status.
    pub fn report<R: Print + Eprint>(&self, rt: &R) -> ExitCode
        ensures { EndsWith self.now result }
    {
        match self {
            ProgramFault::CommandLine(error) => report_words(error, rt),
            _ => self.tell(rt),
        }
    }

    /// Prints the fault on standard error, and gives the exit status.
    fn tell<R: Eprint>(&self, rt: &R) -> ExitCode
        ensures { exit_status result ≡ status_of self.now }
    {
        // Where standard error fails too, the status has to do.
        let _ = eprintln!(rt; "{self}");
        ExitCode::from(self.status())
    }

    /// The exit status, where it isn't help or the version that was asked for: 1 a faulty script, 2 a faulty command line, 3 a read or
    /// write fault or a failure to allocate, 4 a run without a report.
    pub fn status(&self) -> u8
        ensures { result ≡ status_of self.now }
    {
        match self {
            ProgramFault::Script(SimError::ScriptFault(_)) => 1,
            ProgramFault::CommandLine(_) => 2,
            ProgramFault::Script(SimError::ReadFault | SimError::WriteFault | SimError::Memory) =>
                3,
            ProgramFault::Unfinished(_) => 4,
        }
    }
}

/// Prints what is wrong with the words on standard error, or help or the version on standard output, and gives the exit
/// status.
fn report_words<R: Print + Eprint>(error: &clap::Error, rt: &R) -> ExitCode
    ensures { EndsWords error.now (exit_status result) }
{
    let printed = error.print(rt);
    if error.use_stderr() {
        return ExitCode::from(2);
    }
    match printed {
        Ok(()) => ExitCode::SUCCESS,
        Err(_) => ProgramFault::Script(SimError::WriteFault).tell(rt),
    }
}

impl From<clap::Error> for ProgramFault {
    fn from(error: clap::Error) -> ProgramFault {
        if error.kind() == clap::error::ErrorKind::OutOfMemory {
            return ProgramFault::Script(SimError::Memory);
        }
        ProgramFault::CommandLine(error)
    }
}

impl From<SimError> for ProgramFault {
    ghost use Rattle.script_tasks.specs.declared.fault.ProgramFault.TheVariants.{Script};

    ghost from_gives = { λ error fault. fault ≡ Script error };

    fn from(error: SimError) -> ProgramFault {
        ProgramFault::Script(error)
    }
}

impl From<AllocError> for ProgramFault {
    ghost use Rattle.script_tasks.specs.declared.fault.ProgramFault.TheVariants.{Script};
    ghost use Rattle.stream_script.specs.declared.simulate.SimError.TheVariants.{Memory};

    ghost from_gives = { λ _ fault. fault ≡ Script Memory };

    fn from(_: AllocError) -> ProgramFault {
        ProgramFault::Script(SimError::Memory)
    }
}

impl<T: Drop> From<AllocFailed<T>> for ProgramFault {
    ghost use Rattle.script_tasks.specs.declared.fault.ProgramFault.TheVariants.{Script};
    ghost use Rattle.stream_script.specs.declared.simulate.SimError.TheVariants.{Memory};

    ghost from_gives = { λ _ fault. fault ≡ Script Memory };

    fn from(_: AllocFailed<T>) -> ProgramFault {
        ProgramFault::Script(SimError::Memory)
    }
}

impl From<io::Error> for ProgramFault {
    // Only making a buffer ends here: it fails where it cannot allocate.
    fn from(_: io::Error) -> ProgramFault {
        ProgramFault::Script(SimError::Memory)
    }
}
