//! `dnlab`: a link emulator in simulated time. This crate has its workers and its version, so that
//! a new version costs a short proof; everything else is in `command_line`.
#![tactic(auto)]

mod version;

ghost use Rattle.std.specs.Prelude.{IfOk, map};
ghost use Rattle.std.specs.Process.{exit_status};
ghost use Rattle.std.specs.String.{string_bytes};
ghost use Rattle.alone.specs.FaultLines.{IsSaid};
ghost use Rattle.alone.specs.Within.{done_of};
ghost use Rattle.command_line.specs.Status.{Answers, IsMadeOf};
ghost use Rattle.command_line.specs.Tasks.{Does};

use alone::{Device, Inlet, Made, Outlet, Stop};
use command_line::{
    Meter, Task, asked, by_one_thread, end_with, say_fault, with_reports, words_given,
};
use lab::{OpenGate, Plan, run_within};
use std::alloc::Global;
use std::io;
use std::process::ExitCode;
use std::rt::Clock;
use std::sync::Wait;
use std::thread::Threads;
use version::VERSION;

fn main(rt: HostRuntime) -> ExitCode {
    let (mut reader, mut writer) = (Device::new(rt.reader()), Device::new(io::writer(&rt)));
    let mut console = Device::new(rt.stderr());
    match words_given(&rt) {
        Ok(words) => answer(
            &rt,
            words.as_slice(),
            &mut reader,
            &mut writer,
            &mut console,
        ),
        Err(code) => code,
    }
}

// Performs a task: a run uses its workers, and every other task uses one thread.
fn done<H, R: Inlet, W: Outlet>(
    rt: &H,
    task: &Task,
    reader: &mut R,
    writer: &mut W,
    text: &mut Vec<u8>,
) -> Result<Option<Made>, Stop>
where
    H: Alloc<A = Global> + Clock + Eprint + Sync + Threads + Wait,
    ensures does { Does task.now (λ text. R.gives reader.old text reader.new)
        (R.remaining reader.old) (W.contents writer.old) (W.contents writer.new) (done_of result) }
    ensures made { IfOk result (IsMadeOf (R.remaining reader.old)) }
{
    let alloc = rt.alloc();
    if let Task::Run {
        workers,
        moves,
        format,
        limits,
        progress,
        ..
    } = *task
    {
        // The ranges of the options are those of a plan.
        if let Some(plan) = Plan::new(workers, moves) {
            let meter = Meter::new(rt, progress);
            return with_reports(run_within(
                rt, alloc, reader, writer, text, format, &limits, plan, &OpenGate, &meter,
            ));
        }
    }
    by_one_thread(rt, alloc, task, reader, writer, text)
}

// Runs the program for its arguments, of which the first is its name, and returns the exit status.
fn answer<H, R: Inlet, W: Outlet, E: Outlet>(
    rt: &H,
    words: &[String],
    reader: &mut R,
    writer: &mut W,
    console: &mut E,
) -> ExitCode
where
    H: Alloc<A = Global> + Clock + Eprint + Print + Sync + Threads + Wait,
    ensures { Answers (map string_bytes words.now) (λ text. R.gives reader.old text reader.new)
        (λ line. IsSaid line (E.contents console.old) (E.contents console.new)
        (E.failed console.new)) (R.remaining reader.old) (W.contents writer.old) (W.contents writer.new)
        (exit_status result) }
{
    let alloc = rt.alloc();
    let task = match asked(rt, alloc, VERSION, words) {
        Ok(task) => task,
        Err(code) => return code,
    };
    let mut text = Vec::new(alloc);
    let outcome = done(rt, &task, reader, writer, &mut text);
    say_fault(console, &outcome);
    end_with(rt, alloc, text.as_slice(), outcome, &task)
}
