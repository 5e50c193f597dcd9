//! The command line.
ghost use Rattle.std.specs.Prelude.{◌≡◌, ◌≢◌, ◌⊎◌, ◌≤◌, ◌-◌, ◌^◌, length, IfOk, None, Ok, OnErr};
ghost use Rattle.std.specs.IoError.{error_kind};
ghost use Rattle.std.specs.declared.io.ErrorKind.TheVariants.{InvalidData};
ghost use Rattle.clap.specs.Values.{kind_of};
ghost use Rattle.silo_threads.specs.Clusters.{IsConfig};
ghost use Rattle.script_tasks.specs.Tasks.{IsAsked, IsPast, IsQueueMissing, IsShown, IsTask, calls_with, check_with, cluster_with, detail_with, mode_with, shown_with, simulation_with};
ghost use Rattle.script_tasks.specs.declared.options.Task.TheVariants.{Simulate};
ghost use Rattle.stream_script.specs.Simulation.{IsSimConfig};

use crate::shown::Shown;
use crate::summary::Detail;
use clap::error::ErrorKind;
use clap::{Arg, ArgAction, ArgMatches, Command, value_parser};
use script_runs::Calls;
use silo_threads::Config;
use std::alloc::{AllocError, Global};
use std::io;
use stream_ident::{MOST_BLOCKS, MOST_ENTRIES, MOST_QUEUES, MOST_SILOS};
use stream_model::Limits;
use stream_script::{Mode, SimConfig};

/// What `streams --version` says behind the name.
const VERSION: &str = "0.1.0";

/// What help says below the subcommands.
const STATUSES: &str =
    r#"Called without words, streams simulates a script. `streams sim --help` and `streams run --help` show an example.
sim, run, trace and check read their script from FILE. Without FILE they read it from standard input, to its end.

Exit status: 0 done; 1 a line is faulty; 2 the command line is faulty; 3 reading or writing failed, or
memory ran out; 4 a run met a limit, or not all of it was handled."#;

/// What help says below the options of a simulation: an example, and how the program ends.
pub const SIM_EXAMPLE: &str =
    r#"A script has one command per line. This one subscribes the grain clerk/17 to the stream orders/17,
publishes a batch of two events to it, and then does everything that is left to do:

    sub orders/17 clerk/17 latest
    pub orders/17 "paid" "shipped"
    drain
    report

Each command prints a line that begins with the number of its queue. The report lists what each
subscription has handled:

    0 subscribed 1
    0 published 0
    0 drained 2
    report
    0:1 orders/17 clerk/17 0.0 2
      0.0 "paid"
      0.1 "shipped"

The whole script is read before its first line is done. Empty lines and lines that begin with # are
skipped. docs/SCRIPT.md lists all commands, and examples/ has more scripts.

Exit status: 0 done; 1 a line is faulty, and the replies to the lines before it are printed; 2 the
command line is faulty; 3 reading or writing failed, or memory ran out."#;

/// What help says below the options of a run: an example, and how the program ends.
pub const RUN_EXAMPLE: &str =
    r#"A script to run says what producers do, and when silos join or leave: pub, sub, unsub, rule, drain, up
and down. The silos do everything else, in threads. In this script silo 0 leaves in the middle, and the
last line names a subscription that doesn't exist:

    sub orders/17 clerk/17 latest
    pub orders/17 "paid"
    down 0
    pub orders/17 "shipped"
    unsub 0:7

The run then waits until every event is handled. It prints the numbers of the lines that were refused,
and a report of what each subscription has handled:

    refused 5
    report
    0:1 orders/17 clerk/17 0.0 2
      0.0 "paid"
      1.0 "shipped"

With --summary the two lines of events are left out. The 2 above them still says how many there are.

This script needs --silos 2, since the last silo can't leave. Empty lines and lines that begin with #
are skipped, but counted. docs/SCRIPT.md says more, and examples/auctions.script is another script.

Exit status: 0 done; 1 a line is faulty, and nothing is done; 2 the command line is faulty; 3 reading or
writing failed, or memory ran out; 4 a run met a limit (`limit reached`, `round limit`), or not all of it
was handled (`not quiet`), and the report is missing."#;

/// What help says below the options of a trace.
const TRACE_EXAMPLE: &str =
    r#"The script is run as by `streams run`. The trace is what producers and silos did at each queue, as a
script that `streams sim` can do again on one thread. Each line is followed by its reply, in a comment.
For the script

    sub orders/17 clerk/17 latest
    pub orders/17 "paid"

the trace may begin like this:

    # queue 0
    sub orders/17 clerk/17 latest
    # 0 subscribed 1
    pull 0 0 32
    # 0 dry
    pub orders/17 "paid"
    # 0 published 0

With --busy the pull that was answered `dry` is left out, and so is every other look that found nothing.

The lines of each queue stand together, below a comment that names it, and are a script of their own.
Simulate it with the same number of queues, since `rule` and `quiet` act on every queue of a simulation.
It then gives these replies at its queue.

Exit status: as for `streams run`. A run that met a limit, or that didn't handle everything, is printed
as far as it went. A trace stores at most 4,000,000 calls per queue."#;

/// What help says below the options of a check.
const CHECK_EXAMPLE: &str = r#"Every line is read, and nothing is done. For the script

    sub orders/17 clerk/17 latst
    pub orders/17 "paid" shipped

it prints both faults, each with its line and column, the word, and what was expected:

    line 1, column 24: bad command: "latst": a subscription starts with `latest`, or with `from` and a token
        hint: write `latest`, or `from 0.0` to begin with the first event
    line 2, column 22: word count: "shipped": the line is `pub STREAM TEXT ..`
        hint: a text stands between quotes, as "paid"

For a script without faults it prints how many lines each command has, and the queue of each stream that
it names.

Exit status: 0 no line is faulty; 1 a line is faulty; 2 the command line is faulty; 3 reading or writing
failed, or memory ran out."#;

/// How many rounds a loop of a silo may begin in a run.
const MOST_ROUNDS: u64 = 1_000_000;

/// How often a drain of a run looks at the queues.
const MOST_LOOKS: u32 = 100_000;

/// What the command line asks for.
#[derive(Drop)]
pub struct Request<'a> {
    /// The file of the script, or none where it is on standard input.
    pub file: Option<&'a str>,
    /// What is done with the script.
    pub task: Task,
}

/// What is done with a script.
#[derive(Clone, Copy, Debug, PartialEq, Eq)]
pub enum Task {
    /// It is simulated, on one thread.
    Simulate(SimConfig),
    /// It is run, on silos in threads.
    Run(Config, Detail),
    /// It is run, and what was done at each queue is printed.
    Trace(Config, Shown),
    /// Its lines are checked, and nothing is done.
    Check(CheckConfig),
}

/// How a script is checked.
#[derive(Clone, Copy, Debug, PartialEq, Eq)]
pub struct CheckConfig {
    /// How many queues there are, 1 to 64.
    pub queues: usize,
    /// Whether it is to be simulated or run.
    pub mode: Mode,
}

/// What the words ask for. Where there are none, they ask for a simulation with one queue and four blocks.
///
/// # Errors
/// A word isn't understood, help or the version is asked for, or the call failed to allocate.
pub fn parse_options<'a>(alloc: Global, words: &'a [String]) -> Result<Request<'a>, clap::Error>
    ensures task { IfOk result (λ request. IsTask request.task) }
    ensures usual { length words.now ≤ 1 → result ≡ Ok (record { file = None; task = Simulate (simulation_with 1 4) }) }
{
    if words.len() <= 1 {
        return Ok(usual());
    }
    let matches = command(alloc)?.try_get_matches_from(words)?;
    let Some((name, given)) = matches.subcommand() else {
        return Ok(usual());
    };
    Ok(Request {
        file: given.get_str("file"),
        task: task_of(alloc, name, options_of(given))?,
    })
}

/// Why the program can't have its words: one of them isn't UTF-8, which is a mistake in the command line, or memory ran
/// out.
pub fn unread_words(alloc: Global, error: &io::Error) -> clap::Error
    ensures text { error_kind error.now ≡ InvalidData → (kind_of result ≡ ErrorKind.InvalidValue) ⊎ (kind_of result ≡ ErrorKind.OutOfMemory) }
    ensures memory { error_kind error.now ≢ InvalidData → kind_of result ≡ ErrorKind.OutOfMemory }
{
    if error.kind() != io::ErrorKind::InvalidData {
        return clap::Error::from(AllocError);
    }
    match not_utf8(alloc) {
        Ok(mistake) => mistake,
        Err(refused) => clap::Error::from(refused),
    }
}

/// The mistake of a word that isn't UTF-8.
fn not_utf8(alloc: Global) -> Result<clap::Error, AllocError>
    ensures { IfOk result (λ mistake. kind_of mistake ≡ ErrorKind.InvalidValue) }
{
    command(alloc)?.error(
        ErrorKind::InvalidValue,
        "invalid UTF-8 was detected in one or more arguments",
    )
}

/// What is done where nothing is asked for.
fn usual<'a>() -> Request<'a>
    ensures task { IsTask result.task }
    ensures usual { result ≡ record { file = None; task = Simulate (simulation_with 1 4) } }
{
    Request {
        file: None,
        task: Task::Simulate(sim_config(1, 4)),
    }
}

/// What the options of a subcommand say, or what stands for those that it hasn't.
#[derive(Clone, Copy)]
struct Options {
    /// How many queues.
    queues: u32,
    /// How many blocks.
    blocks: u32,
    /// How many silos.
    silos: u32,
    /// Whether a run is printed without the events.
    summary: bool,
    /// Whether a trace leaves out the calls that found nothing.
    busy: bool,
    /// The one queue that a trace shows.
    queue: Option<u32>,
    /// Whether a script is checked as one to run.
    run: bool,
}

/// The options of the words.
fn options_of(given: &ArgMatches<'_>) -> Options {
    Options {
        queues: given.get_one::<u32>("queues").unwrap_or(1),
        blocks: given.get_one::<u32>("blocks").unwrap_or(4),
        silos: given.get_one::<u32>("silos").unwrap_or(1),
        summary: given.get_flag("summary"),
        busy: given.get_flag("busy"),
        queue: given.get_one::<u32>("queue"),
        run: given.get_flag("run"),
    }
}

/// What a subcommand with these options asks for.
fn task_of(alloc: Global, name: &str, options: Options) -> Result<Task, clap::Error>
    ensures task { IfOk result (λ task. IsTask task) }
    ensures exact { IfOk result (IsAsked name.now options) }
    ensures refused { OnErr result (IsQueueMissing name.now options) }
{
    match name {
        "run" => Ok(Task::Run(
            run_config(options.queues, options.blocks, options.silos),
            detail_of(options.summary),
        )),
        "trace" => {
            let config = trace_config(options.queues, options.blocks, options.silos);
            let shown = shown_of(alloc, options, config.queues)?;
            Ok(Task::Trace(config, shown))
        }
        "check" => Ok(Task::Check(check_config(options.queues, mode_of(options.run)))),
        _ => Ok(Task::Simulate(sim_config(options.queues, options.blocks))),
    }
}

/// What a trace of so many queues shows.
fn shown_of(alloc: Global, options: Options, queues: usize) -> Result<Shown, clap::Error>
    ensures shown { IfOk result (λ shown. IsShown queues shown) }
    ensures exact { IfOk result (λ shown. shown ≡ shown_with options) }
    ensures refused { OnErr result (IsPast queues options.queue) }
{
    let calls = calls_of(options.busy);
    match options.queue {
        None => Ok(Shown { calls, queue: None }),
        Some(queue) if (queue as usize) < queues => Ok(Shown {
            calls,
            queue: Some(queue as usize),
        }),
        Some(_) => Err(no_queue(alloc)?),
    }
}

/// The mistake of a queue that there isn't.
fn no_queue(alloc: Global) -> Result<clap::Error, AllocError> {
    command(alloc)?.error(
        ErrorKind::ValueValidation,
        "the queue of --queue isn't below the number of --queues",
    )
}

/// Which calls a trace shows.
fn calls_of(busy: bool) -> Calls
    ensures { result ≡ calls_with busy }
{
    if busy { Calls::Busy } else { Calls::All }
}

/// How much is printed of a run.
fn detail_of(summary: bool) -> Detail
    ensures { result ≡ detail_with summary }
{
    if summary {
        Detail::Counts
    } else {
        Detail::Events
    }
}

/// What a script that is checked is for.
fn mode_of(run: bool) -> Mode
    ensures { result ≡ mode_with run }
{
    if run { Mode::Run } else { Mode::Sim }
}

/// The command with its four subcommands.
fn command<'a>(alloc: Global) -> Result<Command<'a>, AllocError> {
    let sim = Command::new(alloc, "sim")
        .about("Does a script line by line, and prints the reply to each line")
        .arg(file(alloc))?
        .arg(queues(alloc))?
        .arg(blocks(alloc))?
        .after_help(SIM_EXAMPLE);
    let run = Command::new(alloc, "run")
        .about("Runs a script on silos in threads, and prints what each subscription has handled")
        .arg(file(alloc))?
        .arg(silos(alloc))?
        .arg(queues(alloc))?
        .arg(blocks(alloc))?
        .arg(flag(
            alloc,
            "summary",
            "Prints how many events each subscription has handled, without the events",
        ))?
        .after_help(RUN_EXAMPLE);
    let trace = Command::new(alloc, "trace")
        .about(
            "Runs a script on silos, and prints what was done at each queue as a script to simulate",
        )
        .arg(file(alloc))?
        .arg(silos(alloc))?
        .arg(queues(alloc))?
        .arg(blocks(alloc))?
        .arg(flag(
            alloc,
            "busy",
            "Leaves out the looks that found nothing to do",
        ))?
        .arg(queue(alloc))?
        .after_help(TRACE_EXAMPLE);
    let check = Command::new(alloc, "check")
        .about("Tells all faults of a script, or what stands in one without a fault")
        .arg(file(alloc))?
        .arg(queues(alloc))?
        .arg(flag(
            alloc,
            "run",
            "Checks the script as `streams run` reads it, and not as `streams sim` does",
        ))?
        .after_help(CHECK_EXAMPLE);
    Command::new(alloc, "streams")
        .bin_name("streams")?
        .version(VERSION)
        .about("Streams of events for virtual actors: publishes, pulls, delivers and handles")
        .subcommand_required(true)
        .after_help(STATUSES)
        .subcommand(sim)?
        .subcommand(run)?
        .subcommand(trace)?
        .subcommand(check)
}

/// The script.
fn file<'a>(alloc: Global) -> Arg<'a> {
    Arg::new(alloc, "file").value_name("FILE").help(
        "The file of the script; without it the script is read from standard input",
    )
}

/// How many silos.
fn silos<'a>(alloc: Global) -> Arg<'a> {
    Arg::new(alloc, "silos")
        .long("silos")
        .value_name("N")
        .help("How many silos there are at the start, 1 to 16")
        .value_parser(value_parser!(u32).range(1..=MOST_SILOS as i64))
        .default_value("1")
}

/// How many queues.
fn queues<'a>(alloc: Global) -> Arg<'a> {
    Arg::new(alloc, "queues")
        .long("queues")
        .value_name("N")
        .help("How many queues the streams share, 1 to 64")
        .value_parser(value_parser!(u32).range(1..=MOST_QUEUES as i64))
        .default_value("1")
}

/// How many blocks.
fn blocks<'a>(alloc: Global) -> Arg<'a> {
    Arg::new(alloc, "blocks")
        .long("blocks")
        .value_name("N")
        .help("How many blocks of 64 events each queue's cache has, 1 to 64")
        .value_parser(value_parser!(u32).range(1..=MOST_BLOCKS as i64))
        .default_value("4")
}

/// A flag.
fn flag<'a>(alloc: Global, name: &'a str, help: &'a str) -> Arg<'a> {
    Arg::new(alloc, name)
        .long(name)
        .help(help)
        .action(ArgAction::SetTrue)
}

/// The one queue that a trace shows.
fn queue<'a>(alloc: Global) -> Arg<'a> {
    Arg::new(alloc, "queue")
        .long("queue")
        .value_name("Q")
        .help("Prints the history of this queue alone, the first of which is 0")
        .value_parser(value_parser!(u32).range(0..MOST_QUEUES as i64))
}

/// The simulation with this many queues and blocks, each taken as 1 to 64.
pub fn sim_config(queues: u32, blocks: u32) -> SimConfig
    ensures config { IsSimConfig result }
    ensures exact { result ≡ simulation_with queues blocks }
{
    SimConfig {
        queues: (queues as usize).clamp(1, MOST_QUEUES),
        blocks: (blocks as usize).clamp(1, MOST_BLOCKS),
        limits: Limits::GREATEST,
    }
}

/// The check of a script on this many queues, taken as 1 to 64.
pub fn check_config(queues: u32, mode: Mode) -> CheckConfig
    ensures { result ≡ check_with queues mode }
{
    CheckConfig {
        queues: (queues as usize).clamp(1, MOST_QUEUES),
        mode,
    }
}

/// The cluster with this many queues, blocks and silos, each taken as 1 to 64, silos as 1 to 16. A run stores no
/// history, so that there is room for as many calls as a number can count.
pub fn run_config(queues: u32, blocks: u32, silos: u32) -> Config
    ensures config { IsConfig result }
    ensures exact { result ≡ cluster_with queues blocks silos (2 ^ 64 - 1) }
{
    Config {
        queues: (queues as usize).clamp(1, MOST_QUEUES),
        blocks: (blocks as usize).clamp(1, MOST_BLOCKS),
        silos: silos.clamp(1, MOST_SILOS as u32) as u8,
        limits: Limits::GREATEST,
        history: u64::MAX,
        rounds: MOST_ROUNDS,
        looks: MOST_LOOKS,
    }
}

/// The cluster of a run whose calls are stored.
pub fn trace_config(queues: u32, blocks: u32, silos: u32) -> Config
    ensures config { IsConfig result }
    ensures exact { result ≡ cluster_with queues blocks silos MOST_ENTRIES }
{
    Config {
        history: MOST_ENTRIES,
        ..run_config(queues, blocks, silos)
    }
}
