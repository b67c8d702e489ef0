//! A line of a scenario, whatever precedes it.

ghost use Rattle.std.specs.Prelude.{◌≡◌, option_map, MatchResult};
ghost use Rattle.std.specs.List.{list_all};
ghost use Rattle.control_words.specs.Text.{words as words_of};
ghost use Rattle.control_lines.specs.Shape.{view_line};
ghost use Rattle.control_lines.specs.Entries.{
  is_skipped,
  is_printable,
  view_entry,
  line_within,
  entry_of,
  IsEntry,
  IsFirstAlone,
};

use crate::packet_line::packet_line;
use crate::ranges;
use crate::raw::RawLine;
use crate::shape::line_shape;
use control_words::{Words, laws};
use emu_model::{Spec, Timed};

/// The maximum length of a line in bytes, without its line feed.
const MAX_LINE: usize = 512;

/// The fault of a line, whatever precedes it. If a line has several, the first in this order is
/// reported.
#[derive(Clone, Copy, Debug, PartialEq, Eq)]
pub enum LineFault {
    /// The line has more than 512 bytes.
    TooLong,
    /// A byte isn't one of 32 to 126.
    BadByte,
    /// The words aren't those of a line, whatever the numbers are.
    BadWord,
    /// A number is outside its range.
    OutOfRange,
}

/// The contents of a line: nothing (the line has no word, or is a comment), an experiment, or a
/// command.
#[derive(Clone, Copy)]
pub enum LineEntry<'a> {
    Nothing,
    Begins { name: &'a [u8], spec: Spec },
    Does(Timed),
}

fn all_printable(line: &[u8]) -> bool
    ensures { result ≡ list_all is_printable line.now }
{
    let mut all = true;
    // The loop has no early exit, so the compiler can test many bytes at a time.
    for c in line {
        all &= (b' ' <= *c) & (*c <= b'~');
    }
    all
}

/// Returns true if the line has no word, or is a comment.
fn is_comment(line: &[u8]) -> bool
    ensures { result ≡ is_skipped (words_of line.now) }
{
    let mut words = Words { rest: line };
    match words.next_word() {
        None => true,
        Some(word) => word.first() == Some(&b'#'),
    }
}

#[tactic(auto, unfolding(crate::specs::Entries::line_within))]
fn in_ranges(line: RawLine) -> Option<LineEntry>
    ensures { option_map view_entry result ≡ line_within (view_line line.entry) }
{
    match line {
        RawLine::Experiment(header) => {
            let spec = ranges::spec(header)?;
            Some(LineEntry::Begins {
                name: header.name,
                spec,
            })
        }
        RawLine::Command(command) => Some(LineEntry::Does(ranges::timed_command(command)?)),
    }
}

#[tactic(auto, unfolding(crate::specs::Entries::entry_of))]
fn entry(line: &[u8]) -> Result<LineEntry, LineFault>
    ensures { MatchResult result (λ e. entry_of line.now ≡ Ok (view_entry e))
        (λ c. entry_of line.now ≡ Err c) }
{
    if line.len() > MAX_LINE {
        return Err(LineFault::TooLong);
    }
    if let Some(command) = packet_line(line) {
        return Ok(LineEntry::Does(command));
    }
    if !all_printable(line) {
        return Err(LineFault::BadByte);
    }
    if is_comment(line) {
        return Ok(LineEntry::Nothing);
    }
    let mut words = Words { rest: line };
    let Some(shape) = line_shape(&mut words) else {
        return Err(LineFault::BadWord);
    };
    let Some(entry) = in_ranges(shape) else {
        return Err(LineFault::OutOfRange);
    };
    Ok(entry)
}

/// Returns the contents of a line by itself, without its line feed: exactly what its words spell,
/// or the first of its faults. Our choice.
pub fn read_line(line: &[u8]) -> Result<LineEntry, LineFault>
    ensures { MatchResult result (λ e. IsEntry line.now (view_entry e))
        (λ c. IsFirstAlone c line.now) }
{
    laws::options_are_read();
    entry(line)
}
