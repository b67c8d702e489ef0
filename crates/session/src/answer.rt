//! The line that answers a line of a session.

ghost use Rattle.std.specs.Prelude.{◌≡◌, ◌≤◌, ◌++◌, OnOk, codes, decimal, length};
ghost use Rattle.session.specs.Effects.{can_add};
ghost use Rattle.session.specs.Lines.{answer_line, answer_words, answer_with, cause_word, comment_line, comment_of};

use control::Cause;
use control_words::first_line;
use itoa::Buffer as Digits;
use std::alloc::AllocError;

/// The answer to a line of a session. It follows the records that the line caused.
#[derive(Clone, Copy, PartialEq)]
pub enum Answer {
    /// The line was obeyed.
    Done,
    /// The line was obeyed, and created the packet with this serial number.
    Packet(u64),
    /// The command was refused with this code; it counts as a command of the experiment.
    Refused(u64),
    /// The session's time is this (ns), the earliest time that a command can have.
    Now(u64),
    /// The time (ns) of the first event that is due, if there is one.
    Next(Option<u64>),
    /// The experiment is over, and its counters were written. Any later command, including its
    /// `end` if that hasn't arrived, must have this time (ns) or a later one.
    Over(u64),
    /// The line was rejected, and nothing has changed.
    Fault(Cause),
}

impl Answer {
    /// Returns true if the answer to `next` can be added. The other answers already report the
    /// state of the experiment.
    pub fn can_add(self) -> bool
        ensures { result ≡ can_add self }
    {
        match self {
            Answer::Done | Answer::Packet(_) | Answer::Refused(_) | Answer::Now(_) => true,
            Answer::Next(_) | Answer::Over(_) | Answer::Fault(_) => false,
        }
    }
}

/// Returns the word for a cause, as in a fault of a scenario.
pub fn cause_word(cause: Cause) -> &'static [u8]
    ensures word { result.now ≡ cause_word cause }
    ensures short { length result.now ≤ 12 }
{
    match cause {
        Cause::TooBig => b"toobig",
        Cause::Cut => b"cut",
        Cause::TooLong => b"toolong",
        Cause::BadByte => b"badbyte",
        Cause::BadWord => b"badword",
        Cause::OutOfRange => b"outofrange",
        Cause::NoEnd => b"noend",
        Cause::TooMany => b"toomany",
        Cause::SameName => b"samename",
        Cause::NoExperiment => b"noexperiment",
        Cause::AfterEnd => b"afterend",
        Cause::Backwards => b"backwards",
    }
}

// Appends words and a number.
fn put_number(out: &mut Vec<u8>, words: &[u8], number: u64) -> Result<(), AllocError>
    ensures { OnOk result
        (out.new.items ≡ out.old.items ++ (words.now ++ decimal number)) }
{
    let mut digits = Digits::new();
    out.extend_from_slice(words)?;
    out.extend_from_slice(digits.format(number).as_bytes())?;
    Ok(())
}

// Appends the words of a fault.
fn put_fault(out: &mut Vec<u8>, cause: Cause) -> Result<(), AllocError>
    ensures { OnOk result
        (out.new.items ≡ out.old.items ++ (codes "fault " ++ cause_word cause)) }
{
    out.extend_from_slice(b"fault ")?;
    out.extend_from_slice(cause_word(cause))?;
    Ok(())
}

// Appends words.
fn put_words(out: &mut Vec<u8>, words: &[u8]) -> Result<(), AllocError>
    ensures { OnOk result (out.new.items ≡ out.old.items ++ words.now) }
{
    out.extend_from_slice(words)?;
    Ok(())
}

// Appends the words of an answer.
fn put_answer_words(out: &mut Vec<u8>, answer: Answer) -> Result<(), AllocError>
    ensures { OnOk result (out.new.items ≡ out.old.items ++ answer_words answer) }
{
    match answer {
        Answer::Done => put_words(out, b"ok"),
        Answer::Packet(number) => put_number(out, b"packet ", number),
        Answer::Refused(code) => put_number(out, b"refused ", code),
        Answer::Now(moment) => put_number(out, b"now ", moment),
        Answer::Next(Some(moment)) => put_number(out, b"next ", moment),
        Answer::Next(None) => put_words(out, b"next none"),
        Answer::Over(moment) => put_number(out, b"over ", moment),
        Answer::Fault(cause) => put_fault(out, cause),
    }
}

/// Appends the answer line, which includes a second answer if there is one. `AllocError` leaves
/// what was already appended.
pub fn put_answer_with(
    out: &mut Vec<u8>,
    answer: Answer,
    more: Option<Answer>,
) -> Result<(), AllocError>
    ensures { OnOk result (out.new.items ≡ out.old.items ++ answer_with answer more) }
{
    out.extend_from_slice(b"#< ")?;
    put_answer_words(out, answer)?;
    if let Some(more) = more {
        out.push(b' ')?;
        put_answer_words(out, more)?;
    }
    out.push(b'\n')?;
    Ok(())
}

/// Appends the answer line. `AllocError` leaves what was already appended.
pub fn put_answer(out: &mut Vec<u8>, answer: Answer) -> Result<(), AllocError>
    ensures { OnOk result (out.new.items ≡ out.old.items ++ answer_line answer) }
{
    put_answer_with(out, answer, None)
}

// Appends a line as a comment.
fn put_comment_line(out: &mut Vec<u8>, line: &[u8]) -> Result<(), AllocError>
    ensures { OnOk result (out.new.items ≡ out.old.items ++ comment_line line.now) }
{
    out.extend_from_slice(b"# ")?;
    out.extend_from_slice(line)?;
    out.extend_from_slice(b"\n")?;
    Ok(())
}

/// Appends a text as comments, each of its lines after `# `. `AllocError` leaves what was already
/// appended.
pub fn put_comment(out: &mut Vec<u8>, text: &[u8]) -> Result<(), AllocError>
    ensures { OnOk result (out.new.items ≡ out.old.items ++ comment_of text.now) }
{
    let mut rest = text;
    while let Some((line, after)) = first_line(rest) {
        put_comment_line(out, line)?;
        rest = after;
    }
    if rest.is_empty() {
        return Ok(());
    }
    put_comment_line(out, rest)
}
