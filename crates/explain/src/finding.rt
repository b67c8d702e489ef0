//! The explanation of a fault.

ghost use Rattle.std.specs.Prelude.{◌≡◌, ℕ, List, Some, IfSome, option_map};
ghost use Rattle.std.specs.List.{prefix_len};
ghost use Rattle.control_lines.specs.Entries.{is_printable};
ghost use Rattle.control_words.specs.Text.{lines};
ghost use Rattle.explain.specs.Lines.{
  nth_line,
  nonempty,
  IsWithin,
  IsInLine,
  Marks,
  marked_word,
  MarksWord,
  MarksBlamed,
};
ghost use Rattle.explain.specs.Past.{IsBefore, IsPastOf, line_for};

use crate::expected_words::expected_at;
use crate::hints::{byte_hint, hint, range_hint};
use crate::past::{Earlier, Past, name_in, past_of};
use crate::span::{Span, line_at, part, span_of_word};
use control::{Cause, Check, Fault, blame};

/// The finding in a line: where the first faulty word is, what was expected there, an example, and
/// what to write instead.
#[derive(Clone, Copy)]
pub struct Inside {
    pub place: Option<Span>,
    pub expected: &'static str,
    pub example: Option<&'static str>,
    pub hint: Option<&'static str>,
}

/// The explanation of a fault: its line, if that has a byte, the finding in the line, and an
/// earlier line, if the fault depends on one.
#[derive(Clone, Copy)]
pub struct Finding<'a> {
    pub line: Option<&'a [u8]>,
    pub inside: Inside,
    pub before: Option<Earlier<'a>>,
}

// Returns a finding about the whole line.
fn inside_of_line(expected: &'static str, hint: Option<&'static str>) -> Inside
    ensures { result.place ≡ None }
{
    Inside {
        place: None,
        expected,
        example: None,
        hint,
    }
}

// Returns a finding about the word with this number.
fn at_word(
    line: &[u8],
    index: usize,
    expected: &'static str,
    example: Option<&'static str>,
) -> Inside
    ensures within { IsWithin result.place line.now }
    ensures marks { Marks (Some index) result.place line.now }
{
    Inside {
        place: Some(span_of_word(line, index)),
        expected,
        example,
        hint: None,
    }
}

// Returns the finding for a byte outside 32 to 126.
fn bad_byte(line: &[u8]) -> Inside
    ensures within { IsWithin result.place line.now }
    ensures first { IfSome result.place (λ p. p.start ≡ prefix_len is_printable line.now) }
{
    let expected = "bytes 32 to 126 alone: printable ASCII and spaces";
    for (start, byte) in line.iter().enumerate() {
        if *byte < 32 || *byte > 126 {
            return Inside {
                place: Some(Span { start, width: 1 }),
                expected,
                example: None,
                hint: Some(byte_hint(&line[start..])),
            };
        }
    }
    inside_of_line(expected, None)
}

// Returns the finding for a word without the expected form, or for a number outside its range.
fn bad_word(line: &[u8], check: Check) -> Inside
    ensures within { IsWithin result.place line.now }
    ensures word { MarksWord check result.place line.now }
{
    let Some(blamed) = blame(line, check) else {
        return inside_of_line("a line of docs/reference/scenario.md", None);
    };
    let place = span_of_word(line, blamed.index);
    let word = part(line, place);
    let wanted = expected_at(blamed.expected, word);
    let hint = if word.is_empty() {
        Some("the line ends before it")
    } else {
        match check {
            Check::Forms => hint(blamed.expected, word),
            Check::Ranges => range_hint(blamed.expected, word),
        }
    };
    Inside {
        place: Some(place),
        expected: wanted.expected,
        example: Some(wanted.example),
        hint,
    }
}

// Returns the finding for a last line without a line feed.
fn cut_off(line: &[u8]) -> Inside
    ensures { IsWithin result.place line.now }
{
    let hint = if line.iter().any(|byte| *byte == b'\r') {
        "lines end with LF, and these with CR, as on old Macs: `tr '\\r' '\\n'` replaces them"
    } else {
        "the text was cut off, or the editor left the last line feed out"
    };
    Inside {
        place: Some(Span {
            start: line.len(),
            width: 0,
        }),
        expected: "a line feed at the end of the last line",
        example: None,
        hint: Some(hint),
    }
}

const NO_END: &str = "`end`, as the last command of the experiment before";

const AFTER_END: &str = "an experiment's line: the experiment before has its `end`";

const BACKWARDS: &str = "a moment not below that of the command before it";

// Returns the finding for a cause.
fn in_line(line: &[u8], cause: Cause) -> Inside
    ensures within { IsWithin result.place line.now }
    ensures marks { Marks (marked_word cause) result.place line.now }
    ensures blamed { MarksBlamed cause result.place line.now }
{
    match cause {
        Cause::TooBig => inside_of_line(
            "at most 16777216 bytes",
            Some("split it between its experiments (docs/howto/many_machines.md)"),
        ),
        Cause::Cut => cut_off(line),
        Cause::TooLong => inside_of_line("at most 512 bytes in a line, comments too", None),
        Cause::BadByte => bad_byte(line),
        Cause::BadWord => bad_word(line, Check::Forms),
        Cause::OutOfRange => bad_word(line, Check::Ranges),
        Cause::NoEnd => at_word(line, 0, NO_END, Some("@5000000000 end")),
        Cause::TooMany => inside_of_line(
            "at most 256 experiments",
            Some("put the others into a text of their own; if `live` has --max-steps, raise it"),
        ),
        Cause::SameName => at_word(line, 1, "a name that no experiment before it has", None),
        Cause::NoExperiment => at_word(
            line,
            0,
            "an experiment's line before its commands",
            Some("experiment first seed 1 budget 1000"),
        ),
        Cause::AfterEnd => at_word(
            line,
            0,
            AFTER_END,
            Some("experiment second seed 1 budget 1000"),
        ),
        Cause::Backwards => at_word(line, 0, BACKWARDS, None),
    }
}

// Returns the earlier line that the fault depends on.
fn earlier_line<'a>(past: &Past<'a>, cause: Cause) -> Option<Earlier<'a>>
    ensures before { (ls : List (List ℕ)) (n : ℕ) → IsPastOf ls n past.now → IsBefore ls n result }
    ensures which { result ≡ line_for cause past.now }
{
    match cause {
        Cause::NoEnd => past.begun,
        Cause::SameName => past.named,
        Cause::AfterEnd | Cause::Backwards => past.command,
        _ => None,
    }
}

// Returns true if a fault depends on earlier lines.
fn goes_by_past(cause: Cause) -> bool {
    match cause {
        Cause::NoEnd | Cause::SameName | Cause::AfterEnd | Cause::Backwards => true,
        _ => false,
    }
}

// Returns the earlier line that the fault of this line depends on.
fn before<'a>(text: &'a [u8], line: &[u8], fault: &Fault) -> Option<Earlier<'a>>
    ensures { IsBefore (lines text.now) fault.now.line result }
{
    if !goes_by_past(fault.cause) {
        return None;
    }
    let past = past_of(text, fault.line, name_in(line));
    earlier_line(&past, fault.cause)
}

fn with_a_byte(line: &[u8]) -> Option<&[u8]>
    ensures { option_map (λ l. l.now) result ≡ nonempty (Some line.now) }
{
    if line.is_empty() { None } else { Some(line) }
}

/// Returns the explanation of the fault of a text. Trusts that the text has this fault, and does
/// not allocate. Makes one pass over the lines up to the fault, and a second one if the fault
/// depends on earlier lines. Our choice.
pub fn find<'a>(text: &'a [u8], fault: &Fault) -> Finding<'a>
    ensures line { option_map (λ l. l.now) result.line
        ≡ nonempty (nth_line fault.now.line (lines text.now)) }
    ensures place { IsInLine result.inside.place (option_map (λ l. l.now) result.line) }
    ensures before { IsBefore (lines text.now) fault.now.line result.before }
    ensures marks { (l : List ℕ) → nth_line fault.now.line (lines text.now) ≡ Some l →
        Marks (marked_word fault.now.cause) result.inside.place l }
    ensures blamed { (l : List ℕ) → nth_line fault.now.line (lines text.now) ≡ Some l →
        MarksBlamed fault.now.cause result.inside.place l }
{
    let Some(line) = line_at(text, fault.line) else {
        return Finding {
            line: None,
            inside: in_line(b"", fault.cause),
            before: None,
        };
    };
    Finding {
        line: with_a_byte(line),
        inside: in_line(line, fault.cause),
        before: before(text, line, fault),
    }
}
