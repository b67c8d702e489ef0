//! The arguments of the command line.

ghost use Rattle.std.specs.Prelude.{◌≡◌, [], Some, IfOk, IfErr, MatchResult, true, false, codes, map, option_and_then, option_map};
ghost use Rattle.std.specs.String.{string_bytes};
ghost use Rattle.clap.specs.Words.{FailsBy, app_of, fault_of, found_of, has_subcommand};
ghost use Rattle.clap.specs.Words.{kind_of, rows_of, subcommand_rows_of, takes};
ghost use Rattle.clap.specs.declared.error.kind.ErrorKind.TheVariants.{OutOfMemory};
ghost use Rattle.clap.specs.declared.builder.command.Command.TheViews.{out-Command};
ghost use Rattle.command_line.specs.Tasks.{explains, is_strict, limits_of};
ghost use Rattle.command_line.specs.Words.{IsArg, IsCommand, alone_in, alone_shape, check_shape, dnlab, flag, flag_in, format_in, format_of, format_rule, traced_in};
ghost use Rattle.command_line.specs.Words.{limits_in, live_in, live_shape, max_output_rule, max_steps_rule, moves_rule, number};
ghost use Rattle.command_line.specs.Words.{plan_of, program_shape, run_in, run_shape, task_in, workers_rule};

use alone::{Format, Limits};
use clap::builder::ValueParser;
use clap::{Arg, ArgAction, ArgMatches, Command, Error};
use std::alloc::Global;

/// A task of the program.
#[derive(Clone, Copy)]
pub enum Task {
    /// Run the experiments with `workers` threads, each of which offers an experiment to the others
    /// after `moves` turns, and report the progress if `progress` is true.
    Run {
        workers: usize,
        moves: u32,
        format: Format,
        limits: Limits,
        progress: bool,
        explain: bool,
        strict: bool,
    },
    /// Run each experiment by itself, and report the progress if `progress` is true.
    Alone {
        format: Format,
        limits: Limits,
        progress: bool,
        explain: bool,
        strict: bool,
    },
    /// Check that a text is a scenario.
    Check {
        explain: bool,
        strict: bool,
    },
    /// Answer each line of a session as it arrives, with a hint for a faulty line if `explain` is
    /// true. Its experiments may take at most `steps` steps together, if there is a limit.
    Live {
        steps: Option<u64>,
        explain: bool,
    },
}

impl Task {
    /// Returns true if faults, refused commands and silent mistakes are to be explained, once the
    /// text has ended.
    pub fn explains(&self) -> bool
        ensures { result ≡ explains self.now }
    {
        match self {
            Task::Run { explain, .. } => *explain,
            Task::Alone { explain, .. } => *explain,
            Task::Check { explain, .. } => *explain,
            Task::Live { .. } => false,
        }
    }

    /// Returns true if refused commands, and after a run spent steps, have an exit status of their
    /// own.
    pub fn is_strict(&self) -> bool
        ensures { result ≡ is_strict self.now }
    {
        match self {
            Task::Run { strict, .. } => *strict,
            Task::Alone { strict, .. } => *strict,
            Task::Check { strict, .. } => *strict,
            Task::Live { .. } => false,
        }
    }

    /// Returns the limits for all experiments together.
    pub fn limits(&self) -> Limits
        ensures { result ≡ limits_of self.now }
    {
        match self {
            Task::Run { limits, .. } => *limits,
            Task::Alone { limits, .. } => *limits,
            Task::Check { .. } => Limits::none(),
            Task::Live { steps, .. } => Limits {
                steps: *steps,
                output: None,
            },
        }
    }
}

const ABOUT: &str = "A link emulator in simulated time: rules and pipes of ipfw(8) and dummynet,
CoDel of RFC 8289, senders of RFC 5681";

const EXAMPLE: &str = "Example:
  A packet of 1000 bytes goes through a pipe of 1 Mbit/s with 10 ms of delay.
  Lines with @ are commands, each at its moment in nanoseconds.

    dnlab alone <<'END'
    experiment first seed 0 budget 10
    @0 pipe 1 config bw 1Mbit/s delay 10
    @0 add 100 pipe 1 ip from any to any
    @0 inject udp 10.0.0.1 1000 10.0.0.2 2000 1000
    @20000000 end
    END

  The same by four workers, to the same bytes: dnlab run --workers 4 < scenario
  What is wrong with a text, and where: dnlab check --explain < scenario

Exit status:
  0  done
  1  a fault in the scenario (standard error says `line L: CAUSE`)
  2  words that are no command
  3  memory was refused, a read or write failed, or a limit was passed
  4  the workers lost an experiment (never, unless the program is wrong)
  5  `--strict` found a refused command or spent steps; of `check`, a
     command that will be refused";

// The help for `--max-steps`.
const MAX_STEPS: &str = "Runs nothing that may take more steps in all";

// The default number of workers.
const WORKERS: usize = 2;

// The default number of turns after which a worker offers an experiment.
const MOVES: u32 = 64;

fn flag<'a>(alloc: Global, name: &'a str, help: &'a str) -> Arg<'a>
    ensures { IsArg (flag name.entry.now) result }
{
    Arg::new(alloc, name)
        .long(name)
        .action(ArgAction::SetTrue)
        .help(help)
}

fn number<'a>(
    alloc: Global,
    name: &'a str,
    value: &'a str,
    help: &'a str,
    range: ValueParser<'a>,
) -> Arg<'a>
    ensures { IsArg (number name.entry.now range.entry) result }
{
    Arg::new(alloc, name)
        .long(name)
        .value_name(value)
        .help(help)
        .value_parser(range)
}

fn workers<'a>(alloc: Global) -> Arg<'a>
    ensures { IsArg workers_rule result }
{
    let range = clap::value_parser!(u64).range(1..=16);
    number(
        alloc,
        "workers",
        "N",
        "Threads that run them, 1 to 16 [default: 2]",
        range,
    )
}

fn moves<'a>(alloc: Global) -> Arg<'a>
    ensures { IsArg moves_rule result }
{
    let range = clap::value_parser!(u32).range(..=1_000_000);
    number(
        alloc,
        "moves",
        "M",
        "Turns between offers, 0: never [default: 64]",
        range,
    )
}

fn progress<'a>(alloc: Global) -> Arg<'a>
    ensures { IsArg (flag (codes "progress")) result }
{
    flag(alloc, "progress", "Says on standard error how far it is")
}

fn explain<'a>(alloc: Global) -> Arg<'a>
    ensures { IsArg (flag (codes "explain")) result }
{
    flag(
        alloc,
        "explain",
        "Says what is at fault, refused or likely wrong",
    )
}

fn strict<'a>(alloc: Global) -> Arg<'a>
    ensures { IsArg (flag (codes "strict")) result }
{
    flag(
        alloc,
        "strict",
        "Status 5 if a command is refused or steps run out",
    )
}

fn trace<'a>(alloc: Global) -> Arg<'a>
    ensures { IsArg (flag (codes "trace")) result }
{
    flag(alloc, "trace", "Traces all packets from the first event on")
}

fn max_steps<'a>(alloc: Global, help: &'a str) -> Arg<'a>
    ensures { IsArg max_steps_rule result }
{
    number(alloc, "max-steps", "N", help, clap::value_parser!(u64))
}

fn max_output<'a>(alloc: Global) -> Arg<'a>
    ensures { IsArg max_output_rule result }
{
    let help = "Writes nothing if the reports are longer in all";
    number(alloc, "max-output", "BYTES", help, clap::value_parser!(u64))
}

fn format<'a>(alloc: Global) -> Arg<'a>
    ensures { IsArg format_rule result }
{
    let help = "Writes lines (text) or rows for NumPy (npy) [default: text]";
    number(alloc, "format", "FORMAT", help, ValueParser::String)
}

fn run_command<'a>(alloc: Global) -> Result<Command<'a>, Error>
    ensures { MatchResult result (IsCommand run_shape) (λ error. kind_of error ≡ OutOfMemory) }
{
    let run = Command::new(alloc, "run")
        .about("Runs the experiments by many threads: the same bytes as `alone`")
        .arg(workers(alloc))?
        .arg(moves(alloc))?
        .arg(format(alloc))?
        .arg(progress(alloc))?
        .arg(explain(alloc))?
        .arg(strict(alloc))?
        .arg(trace(alloc))?
        .arg(max_steps(alloc, MAX_STEPS))?
        .arg(max_output(alloc))?;
    Ok(run)
}

fn alone_command<'a>(alloc: Global) -> Result<Command<'a>, Error>
    ensures { MatchResult result (IsCommand alone_shape) (λ error. kind_of error ≡ OutOfMemory) }
{
    let alone = Command::new(alloc, "alone")
        .about("Reads a scenario on standard input and prints its reports")
        .arg(format(alloc))?
        .arg(progress(alloc))?
        .arg(explain(alloc))?
        .arg(strict(alloc))?
        .arg(trace(alloc))?
        .arg(max_steps(alloc, MAX_STEPS))?
        .arg(max_output(alloc))?;
    Ok(alone)
}

fn check_command<'a>(alloc: Global) -> Result<Command<'a>, Error>
    ensures { MatchResult result (IsCommand check_shape) (λ error. kind_of error ≡ OutOfMemory) }
{
    let check = Command::new(alloc, "check")
        .about("Says `ok`, how many experiments and commands, or the fault")
        .arg(explain(alloc))?
        .arg(strict(alloc))?;
    Ok(check)
}

fn live_command<'a>(alloc: Global) -> Result<Command<'a>, Error>
    ensures { MatchResult result (IsCommand live_shape) (λ error. kind_of error ≡ OutOfMemory) }
{
    let explain = flag(
        alloc,
        "explain",
        "Says, behind #, what is wrong with a line at fault",
    );
    let live = Command::new(alloc, "live")
        .about("Answers lines of a scenario as they come (`#> help`: what to ask)")
        .arg(explain)?
        .arg(max_steps(
            alloc,
            "Begins no experiment that may exceed these steps in all",
        ))?;
    Ok(live)
}

// Returns the program itself, without its commands.
fn program<'a>(alloc: Global, version: &'a str) -> Command<'a>
    ensures app { app_of result ≡ record { top = program_shape; subs = [] } }
    ensures local { (out-Command result).has_globals ≡ false }
{
    Command::new(alloc, "dnlab")
        .about(ABOUT)
        .version(version)
        .after_help(EXAMPLE)
        .subcommand_required(true)
        .arg_required_else_help(true)
}

fn command<'a>(alloc: Global, version: &'a str) -> Result<Command<'a>, Error>
    ensures { MatchResult result (λ command. (app_of command ≡ dnlab)
        × ((out-Command command).has_globals ≡ false)) (λ error. kind_of error ≡ OutOfMemory) }
{
    let run = run_command(alloc)?;
    let alone = alone_command(alloc)?;
    let check = check_command(alloc)?;
    let live = live_command(alloc)?;
    let program = program(alloc, version)
        .subcommand(run)?
        .subcommand(alone)?
        .subcommand(check)?
        .subcommand(live)?;
    Ok(program)
}

// Returns the value of a flag, like `get_flag`, whose contract doesn't cover a value that is not a
// `bool`.
fn flag_in(given: &ArgMatches<'_>, name: &str) -> bool
    ensures { result ≡ flag_in name.now (rows_of (found_of given.now)) }
{
    given.get_one::<bool>(name).unwrap_or(false)
}

// Returns the format that a text names.
fn format_of(text: &str) -> Option<Format>
    ensures { result ≡ format_of text.now }
{
    if text == "text" {
        Some(Format::Text)
    } else if text == "npy" {
        Some(Format::Npy)
    } else {
        None
    }
}

// Returns the format that is requested, or `None` if the option has a value that is no format.
fn format_in(given: &ArgMatches<'_>) -> Option<Format>
    ensures { result ≡ format_in (rows_of (found_of given.now)) }
{
    match given.get_str("format") {
        Some(text) => format_of(text),
        None => Some(Format::Text),
    }
}

// Returns the format with all packets traced, if `--trace` is given.
fn traced_in(given: &ArgMatches<'_>, format: Format) -> Format
    ensures { result ≡ traced_in (rows_of (found_of given.now)) format }
{
    if flag_in(given, "trace") {
        return format.traced();
    }
    format
}

fn limits_in(given: &ArgMatches<'_>) -> Limits
    ensures { result ≡ limits_in (rows_of (found_of given.now)) }
{
    Limits {
        steps: given.get_one::<u64>("max-steps"),
        output: given.get_one::<u64>("max-output"),
    }
}

fn run_in(format: Format, given: &ArgMatches<'_>) -> Task
    ensures { result ≡ run_in format (rows_of (found_of given.now)) }
{
    Task::Run {
        workers: given.get_one::<usize>("workers").unwrap_or(WORKERS),
        moves: given.get_one::<u32>("moves").unwrap_or(MOVES),
        format: traced_in(given, format),
        limits: limits_in(given),
        progress: flag_in(given, "progress"),
        explain: flag_in(given, "explain"),
        strict: flag_in(given, "strict"),
    }
}

fn alone_in(format: Format, given: &ArgMatches<'_>) -> Task
    ensures { result ≡ alone_in format (rows_of (found_of given.now)) }
{
    Task::Alone {
        format: traced_in(given, format),
        limits: limits_in(given),
        progress: flag_in(given, "progress"),
        explain: flag_in(given, "explain"),
        strict: flag_in(given, "strict"),
    }
}

fn live_in(given: &ArgMatches<'_>) -> Task
    ensures { result ≡ live_in (rows_of (found_of given.now)) }
{
    Task::Live {
        steps: limits_in(given).steps,
        explain: flag_in(given, "explain"),
    }
}

// Returns the task of a command, or `None` if its format is unknown. `clap` accepts four names, so
// the last one is `check`.
fn task_in(name: &str, given: &ArgMatches<'_>) -> Option<Task>
    ensures { result ≡ task_in (name.now, rows_of (found_of given.now)) }
{
    if name == "run" {
        Some(run_in(format_in(given)?, given))
    } else if name == "alone" {
        Some(alone_in(format_in(given)?, given))
    } else if name == "live" {
        Some(live_in(given))
    } else {
        Some(Task::Check {
            explain: flag_in(given, "explain"),
            strict: flag_in(given, "strict"),
        })
    }
}

// Returns the task that the arguments accepted by `clap` request, or `None` if its format is
// unknown.
fn task_met(matches: &ArgMatches<'_>) -> Option<Task>
    requires { has_subcommand matches.now ≡ true }
    ensures { option_and_then task_in (subcommand_rows_of matches.now) ≡ result }
{
    let (name, given) = matches.subcommand()?;
    task_in(name, given)
}

/// Returns the task that the arguments (the program's name first) request, `None` if they name an
/// unknown format, or the message for them: a mistake, help, the version, or out of memory.
pub fn task_of(alloc: Global, version: &str, words: &[String]) -> Result<Option<Task>, Error>
    ensures plan { IfOk result (λ task. plan_of (map string_bytes words.now) ≡ task) }
    ensures taken { IfErr result (λ error. takes dnlab (map string_bytes words.now) ≡ true
        → kind_of error ≡ OutOfMemory) }
    ensures kinds { FailsBy (fault_of dnlab (map string_bytes words.now)) result }
{
    let command = command(alloc, version)?;
    match command.try_get_matches_from(words) {
        Ok(matches) => Ok(task_met(&matches)),
        Err(error) => Err(error),
    }
}

fn has_value(word: &str) -> bool {
    word == "--workers"
        || word == "--moves"
        || word == "--format"
        || word == "--max-steps"
        || word == "--max-output"
}

/// Returns the first argument after a command that is neither an option nor its value, which is
/// usually the name of a file.
pub fn stray_word(words: &[String]) -> Option<&str> {
    let mut is_value = false;
    for word in words.iter().skip(2) {
        let word = word.as_str();
        if is_value {
            is_value = false;
        } else if has_value(word) {
            is_value = true;
        } else if !word.starts_with("-") {
            return Some(word);
        }
    }
    None
}
