//! The tasks that the tests do, as their tables name them.
ghost use Rattle.script_tasks.specs.Tasks.{IsTask};

use script_tasks::{
    Calls, Detail, Shown, Task, check_config, run_config, sim_config, trace_config,
};
use stream_script::Mode;

/// What is done with a script.
#[derive(Clone, Copy)]
pub enum Doing {
    Simulating,
    Running,
    Summarizing,
    Tracing,
    TracingBusy,
    TracingQueue0,
    Checking,
    CheckingForARun,
}

/// The task, with this many queues, blocks and silos. A simulation has no silos, and a check neither these nor blocks.
pub fn task_of(doing: Doing, queues: u32, blocks: u32, silos: u32) -> Task
    ensures { IsTask result }
{
    match doing {
        Doing::Simulating => Task::Simulate(sim_config(queues, blocks)),
        Doing::Running => Task::Run(run_config(queues, blocks, silos), Detail::Events),
        Doing::Summarizing => Task::Run(run_config(queues, blocks, silos), Detail::Counts),
        Doing::Tracing => Task::Trace(
            trace_config(queues, blocks, silos),
            Shown {
                calls: Calls::All,
                queue: None,
            },
        ),
        Doing::TracingBusy => Task::Trace(
            trace_config(queues, blocks, silos),
            Shown {
                calls: Calls::Busy,
                queue: None,
            },
        ),
        Doing::TracingQueue0 => Task::Trace(
            trace_config(queues, blocks, silos),
            Shown {
                calls: Calls::All,
                queue: Some(0),
            },
        ),
        Doing::Checking => Task::Check(check_config(queues, Mode::Sim)),
        Doing::CheckingForARun => Task::Check(check_config(queues, Mode::Run)),
    }
}
