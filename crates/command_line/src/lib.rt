//! The command line of `dnlab`, its exit statuses, and what it prints on standard error. `alone`
//! performs the tasks; the program `dnlab` adds workers and its version.
#![tactic(auto)]

mod hinted;
mod meter;
mod tell;
mod words;

ghost use Rattle.std.specs.Prelude.{◌≡◌, ◌⊎◌, [], ℕ, List, Option, Some, Ok, Err, Bool, false, true, IsOk, IfOk, IfErr, OnOk, MatchResult};
ghost use Rattle.std.specs.Prelude.{if◌then◌else◌, ◌==◌, count_by, length, map};
ghost use Rattle.std.specs.Process.{exit_status};
ghost use Rattle.std.specs.String.{string_bytes};
ghost use Rattle.clap.specs.Words.{fault_of, kind_of};
ghost use Rattle.alone.specs.Bytes.{IsRead};
ghost use Rattle.alone.specs.FaultLines.{IsSaid};
ghost use Rattle.alone.specs.Within.{IsMade, done_of, leaves};
ghost use Rattle.alone.specs.declared.limits.Format.{Format};
ghost use Rattle.command_line.specs.Status.{EndsCall, EndsStrictly, EndsWell, EndsWords, IsStatusAfter, IsStatusOf};
ghost use Rattle.command_line.specs.Status.{fault_after, is_clean, is_spent, line_of, status_after};
ghost use Rattle.command_line.specs.Status.{IsMadeOf, status_of_fault, status_of_kind, status_told};
ghost use Rattle.command_line.specs.Tasks.{Does, Talks, explains, is_strict, limits_of};
ghost use Rattle.command_line.specs.Words.{dnlab, plan_of};

use alone::{Inlet, Made, Outlet, RunFault, Stop, check_kept, live, run_alone_within, write_fault};
use clap::Error;
use clap::error::ErrorKind;
use explain::{
    Account, Note, RefusedCommand, Run, Subject, account_of, explanation, faults_text, refusals_of,
    scenario_explained,
};
use hinted::LineHints;
pub use meter::Meter;
use std::alloc::{AllocError, Global};
use std::process::ExitCode;
use std::rt::{Clock, Env};
use std::{env, io};
use tell::{hint_at, print, tell_output, tell_steps};
pub use words::Task;
use words::{stray_word, task_of};

/// The exit status of a strict call in which a command was or will be refused, or an experiment
/// spent its steps.
const NOT_STRICT: u8 = 5;

/// Returns the exit status after a call.
fn status_of(outcome: &Result<(), Stop>) -> u8
    ensures { result ≡ status_after outcome.now }
{
    match outcome {
        Ok(()) => 0,
        Err(Stop::Fault(RunFault::Scenario(_))) => 1,
        Err(Stop::Fault(RunFault::Read | RunFault::Write | RunFault::Memory)) => 3,
        Err(Stop::Steps { .. } | Stop::Output(_)) => 3,
        Err(Stop::Fault(RunFault::Strange | RunFault::Gate)) => 4,
    }
}

// Returns the exit code after a call that needs no further output.
fn end(outcome: Result<(), Stop>) -> ExitCode
    ensures { exit_status result ≡ status_after outcome }
{
    ExitCode::from(status_of(&outcome))
}

// Prints a fault of the program's arguments or of the explanation, and returns the exit code.
fn fail(rt: &impl Eprint, fault: RunFault) -> ExitCode
    ensures { exit_status result ≡ status_of_fault fault }
{
    // There is nowhere else to report that this can't be printed.
    let _ = eprintln!(rt; "{fault}");
    end(Err(Stop::Fault(fault)))
}

// Returns the fault of a call that returned no result, if there is one.
fn said_fault<T: Drop>(outcome: &Result<T, Stop>) -> Option<RunFault>
    ensures { result ≡ fault_after (done_of outcome.now) }
{
    match outcome {
        Ok(_) => None,
        Err(Stop::Fault(fault)) => Some(*fault),
        Err(Stop::Steps { .. } | Stop::Output(_)) => None,
    }
}

/// Writes the line of the fault of a call that returned no result, if there is one.
pub fn say_fault<T: Drop, E: Outlet>(console: &mut E, outcome: &Result<T, Stop>)
    ensures { IsSaid (line_of (fault_after (done_of outcome.now))) (E.contents console.old)
        (E.contents console.new) (E.failed console.new) }
{
    match said_fault(outcome) {
        Some(fault) => write_fault(console, &fault),
        None => {}
    }
}

// Returns the outcome of a call that has no limits and makes no reports.
fn unlimited_outcome(outcome: Result<(), RunFault>) -> Result<Option<Made>, Stop>
    ensures leaves { leaves (done_of result) ≡ outcome }
    ensures made { (read : Option (List ℕ)) → IfOk result (IsMadeOf read) }
{
    match outcome {
        Ok(()) => Ok(None),
        Err(fault) => Err(Stop::Fault(fault)),
    }
}

/// Returns the outcome of a call that makes reports.
#[tactic(auto, using(crate::proofs::MadeFacts::made_read))]
pub fn with_reports(outcome: Result<Made, Stop>) -> Result<Option<Made>, Stop>
    ensures result { MatchResult outcome (λ made. result ≡ Ok (Some made)) (λ stop. result ≡ Err stop) }
    ensures done { done_of result ≡ done_of outcome }
    ensures made { (format : Format) (read rest : Option (List ℕ)) (text : List ℕ) →
        IfOk outcome (IsMade format (Some text)) → OnOk outcome (IsRead read rest text) →
        IfOk result (IsMadeOf read) }
{
    match outcome {
        Ok(made) => Ok(Some(made)),
        Err(stop) => Err(stop),
    }
}

fn is_spent(note: &Note) -> bool
    ensures { result ≡ is_spent note.now.subject }
{
    match note.subject {
        Subject::Spent => true,
        Subject::OverBudget | Subject::NoPipe | Subject::DeniedPlain => false,
        Subject::DeniedData(_) | Subject::DeniedAck(_) => false,
    }
}

// Returns the number of experiments that spent their steps.
fn count_spent(notes: &[Note]) -> usize
    ensures { result ≡ count_by (λ n. is_spent n.subject) notes.now }
{
    notes.iter().filter(|note| is_spent(note)).count()
}

// Prints the numbers of refused commands and of experiments that spent their steps, if there are
// any, and returns the exit code of a strict run.
fn end_strictly(rt: &impl Eprint, account: &Account) -> ExitCode
    ensures { exit_status result ≡ (if is_clean account.now then 0 else 5) }
{
    let refused = account.refusals().len();
    let spent = count_spent(account.notes());
    if refused == 0 && spent == 0 {
        return ExitCode::from(0);
    }
    let _ = eprintln!(rt;
        "dnlab: --strict: commands refused: {refused}, experiments that spent their steps: {spent} (--explain says which)"
    );
    ExitCode::from(NOT_STRICT)
}

// Prints the number of commands that will be refused, if there are any, and returns the exit code
// of a strict check.
fn end_checked(rt: &impl Eprint, expected: &[RefusedCommand]) -> ExitCode
    ensures { exit_status result ≡ (if length expected.now == 0 then 0 else 5) }
{
    let refused = expected.len();
    if refused == 0 {
        return ExitCode::from(0);
    }
    let _ = eprintln!(rt;
        "dnlab: --strict: commands that will be refused: {refused} (--explain says which)"
    );
    ExitCode::from(NOT_STRICT)
}

// Prints what the task requests after a successful run, according to its reports: the commands that
// were refused and what is silently wrong. Returns the exit code, which is a failure if the task is
// strict and the account isn't clean.
fn end_told(
    rt: &impl Eprint,
    alloc: Global,
    text: &[u8],
    made: &Made,
    account: &Account,
    task: &Task,
) -> Result<ExitCode, AllocError>
    ensures plain { explains task.now ≡ false → IsOk result }
    ensures told { IfOk result (λ code. exit_status code ≡ status_told task.now account.now) }
    ensures strict { is_strict task.now ≡ true →
        IfOk result (λ code. exit_status code ≡ (if is_clean account.now then 0 else 5)) }
{
    if task.explains() {
        let experiments = made.scenario.experiments();
        let run = Run {
            account,
            reports: made.reports.as_slice(),
        };
        let said = scenario_explained(alloc, text, experiments, Some(&run))?;
        print(rt, said.as_slice());
    }
    if task.is_strict() {
        return Ok(end_strictly(rt, account));
    }
    Ok(ExitCode::from(0))
}

// Ends a successful run with `end_told` if the task requests an explanation or is strict, and with
// exit code 0 otherwise.
#[tactic(auto, using(crate::proofs::MadeFacts::ends_strictly))]
fn end_run(
    rt: &impl Eprint,
    alloc: Global,
    text: &[u8],
    made: &Made,
    task: &Task,
) -> Result<ExitCode, AllocError>
    ensures plain { explains task.now ≡ false → is_strict task.now ≡ false →
        IsOk result × IfOk result (λ code. exit_status code ≡ 0) }
    ensures lax { is_strict task.now ≡ false → IfOk result (λ code. exit_status code ≡ 0) }
    ensures strict { is_strict task.now ≡ true →
        IfOk result (λ code. EndsStrictly made.now (exit_status code)) }
{
    if !task.explains() && !task.is_strict() {
        return Ok(ExitCode::from(0));
    }
    let account = account_of(alloc, made.reports.as_slice())?;
    end_told(rt, alloc, text, made, &account, task)
}

// Prints what the task requests about a text that was checked, and returns the exit code.
fn end_text(
    rt: &impl Eprint,
    alloc: Global,
    text: &[u8],
    task: &Task,
) -> Result<ExitCode, AllocError>
    ensures lax { is_strict task.now ≡ false → IfOk result (λ code. exit_status code ≡ 0) }
    ensures strict { IfOk result (λ code. (exit_status code ≡ 0) ⊎ (exit_status code ≡ 5)) }
{
    if task.explains() {
        let said = explanation(alloc, text, None)?;
        print(rt, said.as_slice());
    }
    if !task.is_strict() {
        return Ok(ExitCode::from(0));
    }
    let expected = refusals_of(alloc, text)?;
    Ok(end_checked(rt, expected.as_slice()))
}

// Ends a successful check with `end_text` if the task requests an explanation or is strict, and
// with exit code 0 otherwise.
fn end_unrun(
    rt: &impl Eprint,
    alloc: Global,
    text: &[u8],
    task: &Task,
) -> Result<ExitCode, AllocError>
    ensures plain { explains task.now ≡ false → is_strict task.now ≡ false → IsOk result }
    ensures lax { is_strict task.now ≡ false → IfOk result (λ code. exit_status code ≡ 0) }
    ensures strict { IfOk result (λ code. (exit_status code ≡ 0) ⊎ (exit_status code ≡ 5)) }
{
    if !task.explains() && !task.is_strict() {
        return Ok(ExitCode::from(0));
    }
    end_text(rt, alloc, text, task)
}

// Prints the limit that stopped a call or, if requested, the explanation of the text's fault. The
// line of the fault has already been printed.
fn end_stopped(
    rt: &impl Eprint,
    alloc: Global,
    text: &[u8],
    stop: Stop,
    task: &Task,
) -> Result<ExitCode, AllocError>
    ensures plain { explains task.now ≡ false → IsOk result }
    ensures stopped { IfOk result (λ code. exit_status code ≡ status_after (Err stop)) }
{
    match stop {
        Stop::Fault(RunFault::Scenario(fault)) if task.explains() => {
            let shown = faults_text(alloc, text, &fault)?;
            print(rt, shown.as_slice());
        }
        Stop::Steps { number, total } => tell_steps(rt, text, number, total, &task.limits()),
        Stop::Output(bytes) => tell_output(rt, bytes, &task.limits()),
        Stop::Fault(_) => {}
    }
    Ok(end(Err(stop)))
}

/// Prints what is required after a call and after the line of its fault, and returns the exit code.
/// If an allocation for that fails, it prints the fault `memory`.
#[tactic(auto, using(crate::proofs::MadeFacts::ends_early))]
pub fn end_with(
    rt: &impl Eprint,
    alloc: Global,
    text: &[u8],
    outcome: Result<Option<Made>, Stop>,
    task: &Task,
) -> ExitCode
    ensures plain { explains task.now ≡ false → is_strict task.now ≡ false →
        exit_status result ≡ status_after (done_of outcome) }
    ensures lax { is_strict task.now ≡ false → IsStatusAfter (done_of outcome) (exit_status result) }
    ensures stopped { IfErr outcome (λ stop. IsStatusAfter (Err stop) (exit_status result)) }
    ensures strict { is_strict task.now ≡ true →
        IfOk outcome (λ made. EndsWell made (exit_status result)) }
    ensures ends { EndsCall task.now outcome (exit_status result) }
{
    let code = match outcome {
        Ok(Some(made)) => end_run(rt, alloc, text, &made, task),
        Ok(None) => end_unrun(rt, alloc, text, task),
        Err(stop) => end_stopped(rt, alloc, text, stop, task),
    };
    match code {
        Ok(code) => code,
        Err(_) => fail(rt, RunFault::Memory),
    }
}

// Returns the exit code for arguments that are no command, after their message was printed or
// couldn't be printed.
fn end_words(rt: &impl Eprint, kind: ErrorKind, is_printed: bool) -> ExitCode
    ensures { exit_status result ≡ (if is_printed then status_of_kind kind else 3) }
{
    if !is_printed {
        return fail(rt, RunFault::Write);
    }
    match kind {
        ErrorKind::DisplayHelp | ErrorKind::DisplayVersion => ExitCode::from(0),
        ErrorKind::OutOfMemory => fail(rt, RunFault::Memory),
        _ => ExitCode::from(2),
    }
}

// Prints the message from `clap`: a mistake in the arguments, help or the version. For a surplus
// argument, it also prints how to pass a file.
fn say<R: Print + Eprint>(rt: &R, error: &Error, words: &[String]) -> ExitCode
    ensures { IsStatusOf (kind_of error.now) (exit_status result) }
{
    let kind = error.kind();
    if kind == ErrorKind::OutOfMemory {
        return fail(rt, RunFault::Memory);
    }
    let is_printed = error.print(rt).is_ok();
    if is_printed && kind == ErrorKind::UnknownArgument && words.len() > 1 {
        hint_at(rt, words[1].as_str(), stray_word(words));
    }
    end_words(rt, kind, is_printed)
}

// Prints which formats there are, and returns the exit code for a format that is unknown.
fn say_formats(rt: &impl Eprint) -> ExitCode
    ensures { exit_status result ≡ 2 }
{
    let _ = eprintln!(rt; "error: --format takes `text` or `npy`");
    ExitCode::from(2)
}

/// Returns the program's arguments, its name first. If it can't, it prints the reason and returns
/// the exit code.
pub fn words_given<H: Alloc<A = Global> + Env + Eprint>(rt: &H) -> Result<Vec<String>, ExitCode>
    ensures { IfErr result (λ code. (exit_status code ≡ 2) ⊎ (exit_status code ≡ 3)) }
{
    let words = match env::args(rt) {
        Ok(words) => words,
        Err(error) if error.kind() == io::ErrorKind::OutOfMemory => {
            return Err(fail(rt, RunFault::Memory));
        }
        Err(error) => {
            let _ = eprintln!(rt; "error: {error}");
            return Err(ExitCode::from(2));
        }
    };
    match words.collect::<Vec<String>>(rt.alloc()) {
        Ok(words) => Ok(words),
        Err(_) => Err(fail(rt, RunFault::Memory)),
    }
}

/// Returns the task that the arguments (the program's name first) request. If there is none, it
/// prints the reason and returns the exit code. `version` is the version that the program reports.
pub fn asked<R: Eprint + Print>(
    rt: &R,
    alloc: Global,
    version: &str,
    words: &[String],
) -> Result<Task, ExitCode>
    ensures plan { IfOk result (λ task. plan_of (map string_bytes words.now) ≡ Some task) }
    ensures taken { OnOk result (fault_of dnlab (map string_bytes words.now) ≡ []) }
    ensures ends { IfErr result (λ code. EndsWords (map string_bytes words.now) (exit_status code)) }
{
    match task_of(alloc, version, words) {
        Ok(Some(task)) => Ok(task),
        Ok(None) => Err(say_formats(rt)),
        Err(error) => Err(say(rt, &error, words)),
    }
}

// Answers a session line by line, with hints for faulty lines if `explain` is true.
fn converse<R: Inlet, W: Outlet>(
    alloc: Global,
    reader: &mut R,
    writer: &mut W,
    steps: Option<u64>,
    explain: bool,
) -> Result<Option<Made>, Stop>
    ensures talks { Talks explain steps (λ text. R.gives reader.old text reader.new)
        (R.remaining reader.old) (W.contents writer.old) (W.contents writer.new)
        (leaves (done_of result)) }
    ensures made { (read : Option (List ℕ)) → IfOk result (IsMadeOf read) }
{
    let hints = LineHints { wanted: explain };
    unlimited_outcome(live(alloc, reader, writer, &hints, steps))
}

/// Performs a task on one thread. A run with workers is performed in the same way and writes the
/// same bytes. A program that has workers performs it with those.
pub fn by_one_thread<H: Clock + Eprint + Sync, R: Inlet, W: Outlet>(
    rt: &H,
    alloc: Global,
    task: &Task,
    reader: &mut R,
    writer: &mut W,
    text: &mut Vec<u8>,
) -> Result<Option<Made>, Stop>
    ensures does { Does task.now (λ text. R.gives reader.old text reader.new)
        (R.remaining reader.old) (W.contents writer.old) (W.contents writer.new) (done_of result) }
    ensures made { IfOk result (IsMadeOf (R.remaining reader.old)) }
{
    match *task {
        Task::Run {
            format,
            limits,
            progress,
            ..
        }
        | Task::Alone {
            format,
            limits,
            progress,
            ..
        } => {
            let meter = Meter::new(rt, progress);
            with_reports(run_alone_within(alloc, reader, writer, text, format, &limits, &meter))
        }
        Task::Check { .. } => unlimited_outcome(check_kept(alloc, reader, writer, text)),
        Task::Live { steps, explain } => converse(alloc, reader, writer, steps, explain),
    }
}
