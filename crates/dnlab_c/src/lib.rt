//! The calls of the program for callers that are not Rattle: they turn the bytes of a scenario into
//! the bytes of its reports, in the caller's memory. Only an open session keeps state, and the
//! caller has its place. `library/dnlab.h` declares the calls for C. Our choice.
#![tactic(auto)]

mod answer;
mod guest;
mod loose;
mod place;
mod version;

ghost use Rattle.std.specs.Prelude.{◌≡◌, List, IfOk, IfErr};
ghost use Rattle.control.specs.Scenario.{Spells};
ghost use Rattle.control.specs.declared.scenario.Experiment.{Experiment as Script};
ghost use Rattle.alone.specs.Reports.{output_as, reports, tally, IsTextFault};
ghost use Rattle.dnlab_c.specs.Answers.{Answers, AnswersWithin, IsPut, PutsSome};
ghost use Rattle.dnlab_c.specs.Guests.{Opens, TakesAt, ClosesAt};

use alone::{Format, Limits, RunFault, Silent, Stop, check_of, made_of, reports_of};
pub use answer::Answer;
use answer::{all_well, fault_answer, no_memory, no_session, put, put_all, too_many_steps};
use explain::{explanation, faults_text};
use guest::Guest;
use loose::Loose;
pub use place::{Hidden, Place};
use std::alloc::{AllocError, Global};
use std::mem;
use version::VERSION;

/// Runs the experiments of a scenario, each by itself. Status 0: the reports are the first `length`
/// bytes of the room. 1: `line` and `cause` have the fault of the text. 3: an allocation failed. 5:
/// the room is too small, and `length` bytes are required.
#[tactic(auto, using(crate::proofs::Answering::answers_put_all, crate::proofs::Answering::answers_fault, crate::proofs::Answering::answers_memory))]
#[unsafe(no_mangle)]
pub extern "C" fn dnlab_alone(alloc: Global, text: &[u8], room: &mut [u8], answer: &mut Answer)
    ensures { Answers reports text.now room.old room.new answer.new }
{
    *answer = match reports_of(alloc, text) {
        Ok(reports) => put_all(alloc, Format::Text, reports.each(), room),
        Err(RunFault::Scenario(fault)) => fault_answer(&fault),
        Err(_) => no_memory(),
    };
}

/// Runs the experiments of a scenario, like `dnlab_alone`, if they may take at most `most_steps`
/// steps together. Status 4 if they may take more: nothing runs, `line` is the number of the first
/// experiment that exceeds the limit, from 0, and `length` is the number of steps that all may take.
#[tactic(auto, using(crate::proofs::Answering::within_put_all, crate::proofs::Answering::within_fault, crate::proofs::Answering::within_steps, crate::proofs::Answering::within_memory))]
#[unsafe(no_mangle)]
pub extern "C" fn dnlab_alone_within(
    alloc: Global,
    text: &[u8],
    most_steps: u64,
    room: &mut [u8],
    answer: &mut Answer,
)
    ensures { AnswersWithin most_steps text.now room.old room.new answer.new }
{
    let limits = Limits {
        steps: Some(most_steps),
        output: None,
    };
    *answer = match made_of(alloc, text, Format::Text, &limits, &Silent) {
        Ok(made) => put_all(alloc, Format::Text, made.reports.as_slice(), room),
        Err(Stop::Fault(RunFault::Scenario(fault))) => fault_answer(&fault),
        Err(Stop::Steps { number, total }) => too_many_steps(number, total),
        Err(_) => no_memory(),
    };
}

/// Runs the experiments of a scenario, like `dnlab_alone`, with all packets traced, and writes their
/// records as one NumPy array, as `dnlab alone --format npy` does. The statuses are those of
/// `dnlab_alone`.
#[tactic(auto, using(crate::proofs::Answering::made_put_all, crate::proofs::Answering::made_fault, crate::proofs::Answering::answers_memory))]
#[unsafe(no_mangle)]
pub extern "C" fn dnlab_records(alloc: Global, text: &[u8], room: &mut [u8], answer: &mut Answer)
    ensures { Answers (output_as Format.Npy) text.now room.old room.new answer.new }
{
    *answer = match made_of(alloc, text, Format::Npy, &Limits::none(), &Silent) {
        Ok(made) => put_all(alloc, Format::Npy, made.reports.as_slice(), room),
        Err(Stop::Fault(RunFault::Scenario(fault))) => fault_answer(&fault),
        Err(_) => no_memory(),
    };
}

// Returns the line that `check` writes for a text.
fn tally_of(alloc: Global, text: &[u8]) -> Result<Vec<u8>, RunFault>
    ensures ok { IfOk result
        (λ line. (es : List Script) × Spells text.now es × (line.items ≡ tally es)) }
    ensures fault { IfErr result (IsTextFault text.now) }
{
    let tally = check_of(alloc, text)?;
    match tally.line(alloc) {
        Ok(line) => Ok(line),
        Err(_) => Err(RunFault::Memory),
    }
}

/// Checks that a text is a scenario, and writes the numbers of its experiments and commands.
#[tactic(auto, using(crate::proofs::Answering::answers_put, crate::proofs::Answering::answers_fault, crate::proofs::Answering::answers_memory))]
#[unsafe(no_mangle)]
pub extern "C" fn dnlab_check(alloc: Global, text: &[u8], room: &mut [u8], answer: &mut Answer)
    ensures { Answers tally text.now room.old room.new answer.new }
{
    *answer = match tally_of(alloc, text) {
        Ok(line) => put(line.as_slice(), room),
        Err(RunFault::Scenario(fault)) => fault_answer(&fault),
        Err(_) => no_memory(),
    };
}

// Returns the explanation of a text and, if `runs` is true, of its run.
fn explanation_of(alloc: Global, text: &[u8], runs: bool) -> Result<Vec<u8>, AllocError> {
    if !runs {
        return explanation(alloc, text, None);
    }
    match reports_of(alloc, text) {
        Ok(reports) => explanation(alloc, text, Some(reports.each())),
        Err(RunFault::Scenario(fault)) => faults_text(alloc, text, &fault),
        Err(_) => Err(AllocError),
    }
}

/// Writes what `--explain` prints about a text on standard error, after the line of its fault. If
/// `runs` is true, it runs the scenario and explains the run too. The statuses are those of
/// `dnlab_alone`, except that a fault is explained instead of returned.
#[unsafe(no_mangle)]
pub extern "C" fn dnlab_explain(
    alloc: Global,
    text: &[u8],
    runs: bool,
    room: &mut [u8],
    answer: &mut Answer,
)
    ensures { PutsSome room.old room.new answer.new }
{
    *answer = match explanation_of(alloc, text, runs) {
        Ok(said) => put(said.as_slice(), room),
        Err(_) => no_memory(),
    };
}

/// Writes the version of the library, the commit of its sources, and the kit that proved it.
#[unsafe(no_mangle)]
pub extern "C" fn dnlab_version(room: &mut [u8], answer: &mut Answer)
    ensures { IsPut VERSION.now room.old room.new answer.new }
{
    *answer = put(VERSION.as_bytes(), room);
}

// Frees the session of a place.
fn free(alloc: Global, place: Place) {
    if let Some(loose) = place.into_loose(alloc) {
        let _gone = loose.into_box();
    }
}

/// Opens a session at a place, and first closes one that is open there. Status 0: the session is
/// open. 3: an allocation failed, and there is no session.
#[unsafe(no_mangle)]
pub extern "C" fn dnlab_open(alloc: Global, session: &mut Place, answer: &mut Answer)
    ensures { Opens session.new.guest answer.new }
{
    free(alloc, mem::replace(session, Place::empty()));
    let Ok(guest) = Box::new(alloc, Guest::new(alloc)) else {
        *answer = no_memory();
        return;
    };
    free(alloc, mem::replace(session, Place::of(Loose::of(guest))));
    *answer = all_well();
}

/// Passes a line, without its line feed, to the session at a place. Status 0: the answer is the
/// first `length` bytes of the room, after the answers that an earlier room was too small for. 5:
/// the room is too small, and all of it is kept for the next call, which requires `length` bytes.
/// 2: there is no session. 3: an allocation failed, and every later call will return that; close
/// the session.
#[unsafe(no_mangle)]
pub extern "C" fn dnlab_take(
    alloc: Global,
    session: &mut Place,
    line: &[u8],
    room: &mut [u8],
    answer: &mut Answer,
)
    ensures { TakesAt line.now room.old room.new session.old.guest session.new.guest answer.new }
{
    let at = mem::replace(session, Place::empty());
    let Some(loose) = at.into_loose(alloc) else {
        *answer = no_session();
        return;
    };
    let mut guest = loose.into_box();
    *answer = guest.take(line, room);
    free(alloc, mem::replace(session, Place::of(Loose::of(guest))));
}

/// Closes the session at a place. Status 0: each of its experiments has its end. 1: an experiment
/// has no end, which, as in `live`, is a fault of the line after the last. 2: there was no session.
/// 3: an allocation had failed.
#[unsafe(no_mangle)]
pub extern "C" fn dnlab_close(alloc: Global, session: &mut Place, answer: &mut Answer)
    ensures { ClosesAt session.old.guest session.new.guest answer.new }
{
    let at = mem::replace(session, Place::empty());
    let Some(loose) = at.into_loose(alloc) else {
        *answer = no_session();
        return;
    };
    let guest = loose.into_box();
    *answer = guest.end();
}
