//! Why the program ends with a status other than 0.
use std::alloc::{AllocError, AllocFailed};
use std::io;
use std::process::ExitCode;
use stream_ident::{BadName, BadPayload};

/// What ends the program.
#[derive(Drop)]
pub enum Fault {
    /// The command line is faulty.
    CommandLine,
    /// The partition isn't what it has to be, as the text tells.
    Different(String),
    /// A partition that differs was taken for the same.
    Untold,
    /// A call failed to allocate.
    Memory,
    /// The output couldn't be written.
    Write,
    /// A text that operations are made of is no name or no payload.
    Name,
}

impl Fault {
    /// Prints the fault on standard error, and gives the exit status.
    pub fn report<R: Eprint>(&self, rt: &R) -> ExitCode {
        let text = self.text();
        let _ = eprintln!(rt; "{text}");
        ExitCode::from(self.status())
    }

    fn text(&self) -> &str {
        match self {
            Fault::CommandLine => "partition_comparison [RUNS [ROUNDS [SEED]]], three numbers",
            Fault::Different(text) => text.as_str(),
            Fault::Untold => "a partition that differs was taken for the same",
            Fault::Memory => "out of memory",
            Fault::Write => "write fault",
            Fault::Name => "bad name",
        }
    }

    fn status(&self) -> u8 {
        match self {
            Fault::Different(_) | Fault::Untold => 1,
            Fault::CommandLine => 2,
            Fault::Memory | Fault::Write | Fault::Name => 3,
        }
    }
}

impl From<AllocError> for Fault {
    fn from(_: AllocError) -> Fault {
        Fault::Memory
    }
}

impl<T: Drop> From<AllocFailed<T>> for Fault {
    fn from(_: AllocFailed<T>) -> Fault {
        Fault::Memory
    }
}

impl From<io::Error> for Fault {
    fn from(_: io::Error) -> Fault {
        Fault::Write
    }
}

impl From<BadName> for Fault {
    fn from(_: BadName) -> Fault {
        Fault::Name
    }
}

impl From<BadPayload> for Fault {
    fn from(_: BadPayload) -> Fault {
        Fault::Name
    }
}
