//! The answer of a call to a caller that is not Rattle.

ghost use Rattle.std.specs.Prelude.{◌≡◌, ◌<◌, ◌⊎◌, length, IfOk};
ghost use Rattle.experiment.specs.Rooms.{IsPutAt};
ghost use Rattle.alone.specs.Reports.{bytes_as};
ghost use Rattle.control.specs.declared.fault.Cause.TheVariants.{NoEnd};
ghost use Rattle.dnlab_c.specs.Answers as specs;
ghost use Rattle.dnlab_c.specs.Answers.{cause_number, faulty, plain, IsPut};

use alone::Format;
use control::{Cause, Fault};
use experiment::{Report, put_npy, put_reports};
use std::alloc::{AllocError, Global};

/// The text was written to the room.
pub const DONE: u32 = 0;
/// The scenario has the fault in `line` and `cause`.
pub const FAULT: u32 = 1;
/// No session is open.
pub const CLOSED: u32 = 2;
/// An allocation failed.
pub const MEMORY: u32 = 3;
/// The experiments may take more steps than the limit: `line` is the number of the first one that
/// exceeds it, from 0, and `length` is the number of steps that all may take.
pub const STEPS: u32 = 4;
/// The room is too small; `length` is the number of bytes required.
pub const ROOM: u32 = 5;

/// The answer of a call.
#[repr(C)]
#[derive(Clone, Copy)]
pub struct Answer {
    pub status: u32,
    /// The cause of a fault, 1 to 12 in the order of `control::Cause`, or 0 if there is no fault.
    pub cause: u32,
    pub line: u64,
    pub length: u64,
}

fn cause_number(cause: Cause) -> u32
    ensures { result ≡ cause_number cause }
{
    match cause {
        Cause::TooBig => 1,
        Cause::Cut => 2,
        Cause::TooLong => 3,
        Cause::BadByte => 4,
        Cause::BadWord => 5,
        Cause::OutOfRange => 6,
        Cause::NoEnd => 7,
        Cause::TooMany => 8,
        Cause::SameName => 9,
        Cause::NoExperiment => 10,
        Cause::AfterEnd => 11,
        Cause::Backwards => 12,
    }
}

// Returns the answer for a text that has no fault.
fn answer_of(status: u32, length: usize) -> Answer
    ensures { result ≡ plain status length }
{
    Answer {
        status,
        cause: 0,
        line: 0,
        length: length as u64,
    }
}

/// Returns the answer after a failed allocation.
pub fn no_memory() -> Answer
    ensures { result ≡ specs.no_memory }
{
    answer_of(MEMORY, 0)
}

/// Returns the answer of a call that finds no session.
pub fn no_session() -> Answer
    ensures { result ≡ plain 2 0 }
{
    answer_of(CLOSED, 0)
}

/// Returns the answer of a call that succeeds and writes nothing to a room.
pub fn all_well() -> Answer
    ensures { result ≡ plain 0 0 }
{
    answer_of(DONE, 0)
}

/// Returns the answer if an experiment has no end, which shows at this line.
pub fn no_end(line: u64) -> Answer
    ensures { result ≡ faulty (record { line = line; cause = NoEnd }) }
{
    fault_answer(&Fault {
        line,
        cause: Cause::NoEnd,
    })
}

/// Returns the answer if the text has a fault.
pub fn fault_answer(fault: &Fault) -> Answer
    ensures { result ≡ faulty fault.now }
{
    Answer {
        status: FAULT,
        cause: cause_number(fault.cause),
        line: fault.line,
        length: 0,
    }
}

/// Returns the answer if the experiments may take more steps than the limit, with the number of the
/// first one that exceeds it and the steps of all.
pub fn too_many_steps(number: u64, total: u64) -> Answer
    ensures { result ≡ specs.too_many_steps number total }
{
    let mut answer = answer_of(STEPS, 0);
    answer.line = number;
    answer.length = total;
    answer
}

/// Writes a text to the beginning of the room if the whole text fits, and nothing otherwise.
pub fn put(text: &[u8], room: &mut [u8]) -> Answer
    ensures is { IsPut text.now room.old room.new result }
    ensures stays { length room.old < length text.now → room.new ≡ room.old }
{
    let length = text.len();
    if length > room.len() {
        return answer_of(ROOM, length);
    }
    room[..length].copy_from_slice(text);
    answer_of(DONE, length)
}

// Writes reports to a room in a format, as far as they fit, and returns their length.
fn put_as(
    alloc: Global,
    format: Format,
    reports: &[Report],
    room: &mut [u8],
) -> Result<usize, AllocError>
    ensures put { IfOk result (IsPutAt (bytes_as format reports.now) 0 room.old room.new) }
    ensures room { length room.new ≡ length room.old }
{
    match format {
        Format::Text | Format::TracedText => put_reports(alloc, reports, room),
        Format::Npy => put_npy(alloc, reports, room),
    }
}

/// Writes reports to the room in a format if all of them fit, and otherwise those that fit.
#[tactic(auto, using(crate::proofs::Answering::put_whole))]
pub fn put_all(alloc: Global, format: Format, reports: &[Report], room: &mut [u8]) -> Answer
    ensures { (result ≡ specs.no_memory)
        ⊎ IsPut (bytes_as format reports.now) room.old room.new result }
{
    let Ok(length) = put_as(alloc, format, reports, room) else {
        return no_memory();
    };
    if length > room.len() {
        return answer_of(ROOM, length);
    }
    answer_of(DONE, length)
}
