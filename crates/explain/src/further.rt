//! Faulty lines after the first.

ghost use Rattle.std.specs.Prelude.{◌≡◌, ◌≤◌, ◌++◌, IfOk, OnOk, vec_len};
ghost use Rattle.control_words.specs.Text.{lines};
ghost use Rattle.explain.specs.Further.{cause_alone, cause_word, found_text, IsTold, AreTold, IsToldFrom, IsCut};

use crate::finding::Finding;
use crate::show_findings::{put_number, show_finding};
use control::{Cause, Fault, ParseError, parse_scenario};
use control_lines::{LineEntry, LineFault, read_line};
use control_words::first_line;
use std::alloc::{AllocError, Global};

/// The maximum number of faults that are reported after the first.
const MAX_BEHIND: usize = 9;

fn put_text(out: &mut Vec<u8>, text: &str) -> Result<(), AllocError>
    ensures { OnOk result (out.new.items ≡ out.old.items ++ text.now) }
{
    out.extend_from_slice(text.as_bytes())
}

// Returns the cause for a fault of a single line.
fn cause_alone(fault: LineFault) -> Cause
    ensures { result ≡ cause_alone fault }
{
    match fault {
        LineFault::TooLong => Cause::TooLong,
        LineFault::BadByte => Cause::BadByte,
        LineFault::BadWord => Cause::BadWord,
        LineFault::OutOfRange => Cause::OutOfRange,
    }
}

// Returns the fault of a last line without a line feed, if the line has a byte and follows the line
// with number `after`.
fn cut_behind(line: &[u8], before: u64, after: u64) -> Option<Fault>
    ensures { IsCut before after line.now result }
{
    let number = before.checked_add(1)?;
    if number <= after || line.is_empty() {
        return None;
    }
    Some(Fault {
        line: number,
        cause: Cause::Cut,
    })
}

// Returns the fault of a text that follows `before` other lines, if the fault is after the line
// with number `after`.
fn fault_behind(
    alloc: Global,
    text: &[u8],
    before: u64,
    after: u64,
) -> Result<Option<Fault>, AllocError>
    ensures { IfOk result (λ f. IsToldFrom before after text.now f) }
{
    let fault = match parse_scenario(alloc, text) {
        Ok(_) => return Ok(None),
        Err(ParseError::NoMemory) => return Err(AllocError),
        Err(ParseError::Fault(fault)) => fault,
    };
    let Some(line) = before.checked_add(fault.line) else {
        return Ok(None);
    };
    if line <= after {
        return Ok(None);
    }
    Ok(Some(Fault {
        line,
        cause: fault.cause,
    }))
}

/// Returns the next faulty line after the one with this number. Up to the next line that begins an
/// experiment, it is a line that is faulty by itself; from there on, it is the fault of the
/// remaining text, parsed as a text of its own. Parsing allocates. Our choice.
pub fn next_fault(alloc: Global, text: &[u8], after: u64) -> Result<Option<Fault>, AllocError>
    ensures { IfOk result (λ f. IsTold (lines text.now) after f) }
{
    let mut rest = text;
    let mut before = 0u64;
    while let Some((line, behind)) = first_line(rest) {
        let Some(number) = before.checked_add(1) else {
            return Ok(None);
        };
        match read_line(line) {
            Ok(LineEntry::Begins { .. }) if number >= after => {
                return fault_behind(alloc, rest, before, after);
            }
            Err(fault) if number > after => {
                return Ok(Some(Fault {
                    line: number,
                    cause: cause_alone(fault),
                }));
            }
            _ => {}
        }
        rest = behind;
        before = number;
    }
    Ok(cut_behind(rest, before, after))
}

// Returns the word for a cause, as in `line L: CAUSE`.
fn cause_word(cause: Cause) -> &'static str
    ensures { result.now ≡ cause_word cause }
{
    match cause {
        Cause::TooBig => "toobig",
        Cause::Cut => "cut",
        Cause::TooLong => "toolong",
        Cause::BadByte => "badbyte",
        Cause::BadWord => "badword",
        Cause::OutOfRange => "outofrange",
        Cause::NoEnd => "noend",
        Cause::TooMany => "toomany",
        Cause::SameName => "samename",
        Cause::NoExperiment => "noexperiment",
        Cause::AfterEnd => "afterend",
        Cause::Backwards => "backwards",
    }
}

// Returns the fault after another one, unless that is about the whole text.
fn fault_after(alloc: Global, text: &[u8], fault: Fault) -> Result<Option<Fault>, AllocError>
    ensures { IfOk result (λ f. IsTold (lines text.now) fault.line f) }
{
    match fault.cause {
        Cause::TooBig => Ok(None),
        _ => next_fault(alloc, text, fault.line),
    }
}

/// Returns the faults after the first fault of a text that are reported: at most nine, each the
/// next after the previous one (`next_fault`), and none after `toobig`. Our choice.
pub fn faults_behind(alloc: Global, text: &[u8], first: &Fault) -> Result<Vec<Fault>, AllocError>
    ensures told { IfOk result (λ out. AreTold (lines text.now) first.now.line out.items) }
    ensures few { IfOk result (λ out. vec_len out ≤ 9) }
{
    let mut out = Vec::new(alloc);
    let mut last = *first;
    for _count in 0..MAX_BEHIND {
        let Some(fault) = fault_after(alloc, text, last)? else {
            break;
        };
        out.push(fault)?;
        last = fault;
    }
    Ok(out)
}

/// Returns the text for a fault after the first: its `line L: CAUSE`, and then the text as for the
/// first fault. Our choice.
pub fn show_found(alloc: Global, fault: &Fault, finding: &Finding) -> Result<Vec<u8>, AllocError>
    ensures { IfOk result (λ out. out.items ≡ found_text fault.now finding.now) }
{
    let mut out = Vec::new(alloc);
    put_text(&mut out, "line ")?;
    put_number(&mut out, fault.line)?;
    put_text(&mut out, ": ")?;
    put_text(&mut out, cause_word(fault.cause))?;
    put_text(&mut out, "\n")?;
    let shown = show_finding(alloc, finding)?;
    out.extend_from_slice(shown.as_slice())?;
    Ok(out)
}
