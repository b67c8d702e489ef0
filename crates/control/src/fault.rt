//! The reasons why a text is not a scenario.

ghost use Rattle.std.specs.Prelude.{◌≡◌};
ghost use Rattle.control.specs.Steps.{cause_in_line, error_at};
ghost use Rattle.control.specs.declared.fault.LineError.TheVariants.{Memory};

use control_lines::LineFault;
use std::alloc::{AllocError, AllocFailed};
use thiserror::Error;

/// The cause of a fault. If a line has several, the first in this order is reported.
#[derive(Clone, Copy, Debug, Error, PartialEq, Eq)]
pub enum Cause {
    /// The text has more than 16777216 bytes; the line is 0.
    #[error("toobig")]
    TooBig,
    /// The last line has no line feed.
    #[error("cut")]
    Cut,
    /// A line has more than 512 bytes.
    #[error("toolong")]
    TooLong,
    /// A byte isn't one of 32 to 126.
    #[error("badbyte")]
    BadByte,
    /// The words aren't those of a line, whatever the numbers are.
    #[error("badword")]
    BadWord,
    /// A number is outside its range.
    #[error("outofrange")]
    OutOfRange,
    /// An experiment begins, or the text ends, while the previous experiment has no end.
    #[error("noend")]
    NoEnd,
    /// The 257th experiment begins.
    #[error("toomany")]
    TooMany,
    /// An earlier experiment has the same name.
    #[error("samename")]
    SameName,
    /// A command is before any experiment.
    #[error("noexperiment")]
    NoExperiment,
    /// A command is after its experiment's end.
    #[error("afterend")]
    AfterEnd,
    /// A command's time is before that of the previous command in its experiment.
    #[error("backwards")]
    Backwards,
}

/// The first faulty line, counted from 1, and its first cause.
#[derive(Clone, Copy, Debug, Error, PartialEq, Eq)]
#[error("line {line}: {cause}")]
pub struct Fault {
    pub line: u64,
    pub cause: Cause,
}

/// The reason why a text could not be parsed.
#[derive(Debug, Drop)]
pub enum ParseError {
    Fault(Fault),
    NoMemory,
}

/// The reason why a line was rejected.
#[derive(Debug, Drop)]
pub enum LineError {
    Memory,
    Cause(Cause),
}

impl From<AllocError> for LineError {
    ghost from_gives = { λ _ e. e ≡ Memory };

    fn from(_e: AllocError) -> LineError {
        LineError::Memory
    }
}

impl<T: Drop> From<AllocFailed<T>> for LineError {
    ghost from_gives = { λ _ e. e ≡ Memory };

    fn from(_e: AllocFailed<T>) -> LineError {
        LineError::Memory
    }
}

/// Returns the cause for a fault of a single line.
pub fn in_line(fault: LineFault) -> Cause
    ensures { result ≡ cause_in_line fault }
{
    match fault {
        LineFault::TooLong => Cause::TooLong,
        LineFault::BadByte => Cause::BadByte,
        LineFault::BadWord => Cause::BadWord,
        LineFault::OutOfRange => Cause::OutOfRange,
    }
}

/// Returns the error of the line with this number.
pub fn at_line(error: LineError, line: u64) -> ParseError
    ensures { result ≡ error_at error line }
{
    match error {
        LineError::Memory => ParseError::NoMemory,
        LineError::Cause(cause) => ParseError::Fault(Fault { line, cause }),
    }
}
