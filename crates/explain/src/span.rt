//! Lines of a text, and parts of a line.

ghost use Rattle.std.specs.Prelude.{◌≡◌, ◌+◌, ◌≤◌, ◌==◌, length, take, drop, option_map};
ghost use Rattle.std.specs.List.{prefix_len, position_or_len};
ghost use Rattle.control_words.specs.Text.{lines, words};
ghost use Rattle.explain.specs.Lines.{nth_line, IsFirstAt, IsPastWord};

use control_words::first_line;

/// A part of a line: its start in bytes, from 0, and its width in bytes.
#[derive(Clone, Copy, Debug, PartialEq)]
pub struct Span {
    pub start: usize,
    pub width: usize,
}

/// Returns the line with this number (from 1), without its line feed. The bytes after the last line
/// feed are a line too. Returns `None` if there is no such line. Our choice.
pub fn line_at(text: &[u8], number: u64) -> Option<&[u8]>
    ensures { option_map (λ l. l.now) result ≡ nth_line number (lines text.now) }
{
    let mut rest = text;
    let mut left = number;
    while let Some((line, after)) = first_line(rest) {
        if left == 1 {
            return Some(line);
        }
        rest = after;
        left = left.saturating_sub(1);
    }
    if left == 1 { Some(rest) } else { None }
}

fn tail(line: &[u8], from: usize) -> &[u8]
    requires { from ≤ length line.now }
    ensures { result.now ≡ drop from line.now }
{
    line.split_at(from).1
}

// Returns the number of leading spaces.
fn leading_spaces(bytes: &[u8]) -> usize
    ensures value { result ≡ prefix_len (λ b. b == 32) bytes.now }
    ensures within { result ≤ length bytes.now }
{
    let mut count = 0;
    for b in bytes {
        if *b != b' ' {
            break;
        }
        count += 1;
    }
    count
}

// Returns the position of the first space, or the length if there is none.
fn word_end(bytes: &[u8]) -> usize
    ensures value { result ≡ position_or_len (λ b. b == 32) bytes.now }
    ensures within { result ≤ length bytes.now }
{
    let mut count = 0;
    for b in bytes {
        if *b == b' ' {
            break;
        }
        count += 1;
    }
    count
}

// Returns the position after the word that begins here and after the spaces that follow it.
fn past_word(line: &[u8], start: usize) -> usize
    requires { start ≤ length line.now }
    ensures { IsPastWord line.now start result }
{
    let end = start + word_end(tail(line, start));
    end + leading_spaces(tail(line, end))
}

/// Returns the position of the word with this number, from 0. If there are fewer words, the span is
/// after the line's last byte and has no width. Our choice.
pub fn span_of_word(line: &[u8], index: usize) -> Span
    ensures within { result.start + result.width ≤ length line.now }
    ensures word { IsFirstAt (drop index (words line.now)) line.now result }
    ensures rest { words (drop result.start line.now) ≡ drop index (words line.now) }
{
    let mut start = leading_spaces(line);
    for _count in 0..index {
        start = past_word(line, start);
    }
    Span {
        start,
        width: word_end(tail(line, start)),
    }
}

/// Returns the bytes of a span. Our choice.
pub fn part(line: &[u8], place: Span) -> &[u8]
    requires { place.start + place.width ≤ length line.now }
    ensures { result.now ≡ take place.width (drop place.start line.now) }
{
    &line[place.start..place.start + place.width]
}
