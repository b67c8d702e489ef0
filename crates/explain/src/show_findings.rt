//! The text for a fault and for a refused command.

ghost use Rattle.std.specs.Prelude.{◌≡◌, ◌≤◌, ◌++◌, length, map, take, replicate, decimal, option_map, OnOk, IfOk};
ghost use Rattle.explain.specs.ShownFindings.{shown_byte, row, marks, marked_line, earlier_row, before_row, line_rows, optional_row, finding_text, refused_text};

use crate::finding::Finding;
use crate::past::Earlier;
use crate::refused::Refused;
use crate::span::Span;
use itoa::Buffer as Digits;
use std::alloc::{AllocError, Global};

/// The maximum length of a line that is shown whole, which is that of a scenario; a longer line is
/// cut to its beginning.
const LONGEST: usize = 512;

const BEGINNING: usize = 64;

// Appends bytes, with `?` for those that aren't printable ASCII.
fn put_plain(out: &mut Vec<u8>, bytes: &[u8]) -> Result<(), AllocError>
    ensures { OnOk result (out.new.items ≡ out.old.items ++ map shown_byte bytes.now) }
{
    for byte in bytes {
        let shown = if *byte < 32 || *byte > 126 {
            b'?'
        } else {
            *byte
        };
        out.push(shown)?;
    }
    Ok(())
}

fn put_times(out: &mut Vec<u8>, byte: u8, times: usize) -> Result<(), AllocError>
    ensures { OnOk result (out.new.items ≡ out.old.items ++ replicate times byte) }
{
    for _count in 0..times {
        out.push(byte)?;
    }
    Ok(())
}

fn beginning(text: &[u8]) -> &[u8]
    requires { 64 ≤ length text.now }
    ensures { result.now ≡ take 64 text.now }
{
    text.split_at(BEGINNING).0
}

/// Appends a label, the bytes of a text and a line feed. Bytes outside 32 to 126 become `?`, and a
/// text of more than 512 bytes is cut to the first 64.
pub fn put_row(out: &mut Vec<u8>, label: &str, text: &[u8]) -> Result<(), AllocError>
    ensures { OnOk result (out.new.items ≡ out.old.items ++ row label.now text.now) }
{
    out.extend_from_slice(label.as_bytes())?;
    if text.len() <= LONGEST {
        put_plain(out, text)?;
    } else {
        put_plain(out, beginning(text))?;
        out.extend_from_slice(b"...")?;
    }
    out.push(b'\n')?;
    Ok(())
}

// Appends the marks under a part of a line.
fn put_marks(out: &mut Vec<u8>, place: Span) -> Result<(), AllocError>
    ensures { OnOk result (out.new.items ≡ out.old.items ++ marks place) }
{
    out.extend_from_slice(b"  ")?;
    put_times(out, b' ', place.start)?;
    put_times(out, b'^', place.width.max(1))?;
    out.push(b'\n')?;
    Ok(())
}

// Appends the line, and marks beneath it.
fn put_line(out: &mut Vec<u8>, line: &[u8], place: Option<Span>) -> Result<(), AllocError>
    ensures { OnOk result (out.new.items ≡ out.old.items ++ marked_line line.now place) }
{
    put_row(out, "  ", line)?;
    match place {
        Some(place) if line.len() <= LONGEST => put_marks(out, place),
        _ => Ok(()),
    }
}

// Appends the line, if there is one, and marks beneath it.
fn put_lines(out: &mut Vec<u8>, line: Option<&[u8]>, place: Option<Span>) -> Result<(), AllocError>
    ensures { OnOk result
        (out.new.items ≡ out.old.items ++ line_rows (option_map (λ l. l.now) line.entry) place) }
{
    match line {
        None => Ok(()),
        Some(line) => put_line(out, line, place),
    }
}

fn put_optional(out: &mut Vec<u8>, label: &str, text: Option<&str>) -> Result<(), AllocError>
    ensures { OnOk result
        (out.new.items
        ≡ out.old.items ++ optional_row label.now (option_map (λ t. t.now) text.entry)) }
{
    match text {
        None => Ok(()),
        Some(text) => put_row(out, label, text.as_bytes()),
    }
}

/// Appends a number in decimal digits.
pub fn put_number(out: &mut Vec<u8>, number: u64) -> Result<(), AllocError>
    ensures { OnOk result (out.new.items ≡ out.old.items ++ decimal number) }
{
    let mut digits = Digits::new();
    out.extend_from_slice(digits.format(number).as_bytes())
}

// Appends an earlier line and its number.
fn put_earlier(out: &mut Vec<u8>, earlier: Earlier) -> Result<(), AllocError>
    ensures { OnOk result (out.new.items ≡ out.old.items ++ earlier_row earlier.entry) }
{
    out.extend_from_slice(b"  before: line ")?;
    put_number(out, earlier.number)?;
    put_row(out, ": ", earlier.line)?;
    Ok(())
}

fn put_before(out: &mut Vec<u8>, before: Option<Earlier>) -> Result<(), AllocError>
    ensures { OnOk result (out.new.items ≡ out.old.items ++ before_row before.entry) }
{
    match before {
        None => Ok(()),
        Some(earlier) => put_earlier(out, earlier),
    }
}

/// Returns the text for a fault that follows its `line L: CAUSE`: the line, marks under the first
/// faulty word, what was expected, an example, what to write instead, and the earlier line that it
/// depends on. The text is ASCII; each row begins with two spaces and ends with a line feed. Our
/// choice.
pub fn show_finding(alloc: Global, finding: &Finding) -> Result<Vec<u8>, AllocError>
    ensures { IfOk result
        (λ out. out.items
        ≡ finding_text
        (option_map
        (λ l. l.now) finding.now.line) finding.now.inside.place finding.now.inside.expected.now
        (option_map (λ t. t.now) finding.now.inside.example)
        (option_map (λ t. t.now) finding.now.inside.hint) finding.now.before) }
{
    let mut out = Vec::new(alloc);
    put_lines(&mut out, finding.line, finding.inside.place)?;
    put_row(&mut out, "  expected: ", finding.inside.expected.as_bytes())?;
    put_optional(&mut out, "  example: ", finding.inside.example)?;
    put_optional(&mut out, "  hint: ", finding.inside.hint)?;
    put_before(&mut out, finding.before)?;
    Ok(out)
}

/// Returns the text for a refused command: `line L: refused CODE`, the line, its experiment, what
/// the code means and what to do. Our choice.
pub fn show_refused(alloc: Global, refused: &Refused) -> Result<Vec<u8>, AllocError>
    ensures { IfOk result (λ out. out.items ≡ refused_text refused.now) }
{
    let mut out = Vec::new(alloc);
    out.extend_from_slice(b"line ")?;
    put_number(&mut out, refused.number)?;
    out.extend_from_slice(b": refused ")?;
    put_number(&mut out, refused.code)?;
    out.extend_from_slice(b"\n")?;
    put_row(&mut out, "  ", refused.line)?;
    put_row(&mut out, "  experiment: ", refused.experiment)?;
    put_row(&mut out, "  means: ", refused.meaning.text.as_bytes())?;
    put_row(&mut out, "  hint: ", refused.meaning.hint.as_bytes())?;
    Ok(out)
}
