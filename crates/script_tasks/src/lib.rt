//! What the program `streams` does: its command line, the tasks that it can ask for, and how the program ends. A script
//! is simulated on one thread, run on silos in threads, run and traced, or checked.
#![tactic(auto)]

mod checking;
mod fault;
mod options;
mod performing;
mod progress;
mod shown;
mod silos;
mod summary;
mod terminal;

pub use checking::check_source;
pub use fault::ProgramFault;
pub use options::{
    CheckConfig, RUN_EXAMPLE, Request, SIM_EXAMPLE, Task, check_config, parse_options, run_config,
    sim_config, trace_config, unread_words,
};
pub use performing::{end, perform, perform_task, perform_words};
pub use script_runs::Calls;
pub use shown::Shown;
pub use silos::{run_on_silos, trace_on_silos};
pub use summary::Detail;
pub use terminal::Terminals;
