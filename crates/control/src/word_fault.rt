//! The first faulty word of a line.

ghost use Rattle.std.specs.Prelude.{◌≡◌, ◌+◌, ◌<◌, ◌≤◌, ◌^◌, MatchOption, drop, length};
ghost use Rattle.control_words.specs.Text.{words as words_of};
ghost use Rattle.control.specs.FirstWrong.{IsFine, IsFirstWrong};
ghost use Rattle.control.specs.Behind.{value_behind, found, behind};
ghost use Rattle.control.specs.Walk.{next_of, next, walk};
ghost use Rattle.control.specs.declared.expected.Expected.TheVariants.{First};

use crate::choice::choice_of;
use crate::expected::Expected;
use crate::form::{Form, fits};
use crate::value::{Value, value_at};
use control_lines::lines_are_read;
use control_words::Words;

/// The strictness of a check: only the forms of lines, or the range of each number too.
#[derive(Clone, Copy, Debug, PartialEq, Eq)]
pub enum Check {
    Forms,
    Ranges,
}

/// A faulty word: its number in the line, counted from 0, and what was expected in its place. If
/// the line ends too early, the number is that of the missing word.
#[derive(Clone, Copy)]
pub struct Blamed {
    pub index: usize,
    pub expected: Expected,
}

// Returns what is expected after a word, if it has the form.
fn next_of(check: Check, value: Option<Value>, word: &[u8]) -> Option<Expected>
    ensures { result ≡ next_of check value word.now }
{
    let value = value?;
    if fits(check, value.form, word) {
        Some(value.next)
    } else {
        None
    }
}

// Returns what is expected after a word, or `None` if the word is not allowed there.
#[tactic(auto, unfolding(crate::specs::Walk::next))]
fn next(check: Check, expected: Expected, word: &[u8]) -> Option<Expected>
    ensures { result ≡ next check expected word.now }
{
    match choice_of(expected, word) {
        Some(next) => Some(next),
        None => next_of(check, value_at(expected), word),
    }
}

// Returns the first faulty word of those that are left. The first of these has number `index`.
fn walk(check: Check, mut index: usize, mut expected: Expected, mut words: Words) -> Option<Blamed>
    requires { index + length (words_of words.rest.now) < 2 ^ 64 }
    ensures { result ≡ walk check index expected (words_of words.entry.rest.now) }
{
    while let Some(word) = words.next_word() {
        let Some(next) = next(check, expected, word) else {
            return Some(Blamed { index, expected });
        };
        expected = next;
        index += 1;
    }
    if expected.may_end() {
        None
    } else {
        Some(Blamed { index, expected })
    }
}

/// Returns the first faulty word of a line: the first such that no line begins with the words up to
/// it or, if the check covers ranges, no line whose numbers are within their ranges. If the line
/// ends too early, it is the missing word after the last. Returns `None` if the words are a line,
/// with its numbers within their ranges if the check covers them. Our choice.
pub fn blame(line: &[u8], check: Check) -> Option<Blamed>
    ensures walk { result ≡ walk check 0 First (words_of line.now) }
    ensures blamed { MatchOption result (IsFine check (words_of line.now))
        (λ b. IsFirstWrong check (words_of line.now) b.index) }
{
    lines_are_read();
    walk(check, 0, Expected::First, Words { rest: line })
}

// Returns what is expected after a value, whatever the value is. Returns `None` if a value isn't
// expected there, but a word that decides how the line continues.
fn value_behind(expected: Expected) -> Option<Expected>
    ensures { result ≡ value_behind expected }
{
    let value = value_at(expected)?;
    match value.form {
        Form::Word(_) => None,
        _ => Some(value.next),
    }
}

/// The result of the check after a faulty word, if the line continues as if that word were valid.
#[derive(Clone, Copy)]
pub enum Behind {
    /// All other words are valid.
    Fine,
    /// Another value isn't what is expected.
    Fault(Blamed),
    /// A word is missing, surplus or a different one, so the first may have been taken for what it
    /// isn't.
    Unsure,
}

fn behind_of(blamed: Option<Blamed>) -> Behind
    ensures { result ≡ found blamed }
{
    match blamed {
        None => Behind::Fine,
        Some(blamed) => match value_behind(blamed.expected) {
            Some(_) => Behind::Fault(blamed),
            None => Behind::Unsure,
        },
    }
}

// Returns the words after the one with this number, or `None` if there is no such word.
#[tactic(auto, using(crate::proofs::Taken::none))]
fn words_behind(line: &[u8], index: usize) -> Option<Words>
    ensures { MatchOption result (length (words_of line.now) ≤ index)
        (λ w. (index < length (words_of line.now))
        × (words_of w.rest.now ≡ drop (index + 1) (words_of line.now))) }
{
    let mut words = Words { rest: line };
    for _count in 0..index {
        let _word = words.next_word()?;
    }
    let _word = words.next_word()?;
    Some(words)
}

/// Returns the next word after a faulty one whose form or range is wrong, if the line continues
/// after that one as after a value of the form that was expected there. Our choice.
#[tactic(auto, unfolding(crate::specs::Behind::behind))]
pub fn blame_behind(line: &[u8], before: &Blamed) -> Behind
    ensures { result ≡ behind (words_of line.now) before.now }
{
    let Some(words) = words_behind(line, before.index) else {
        return Behind::Unsure;
    };
    let Some(next) = value_behind(before.expected) else {
        return Behind::Unsure;
    };
    behind_of(walk(Check::Ranges, before.index + 1, next, words))
}
