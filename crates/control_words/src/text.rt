//! Lines and words.

ghost use Rattle.std.specs.Prelude.{◌≡◌, ◌∷◌, ◌+◌, [], length, take, drop, position, ◌==◌, ◌<◌, MatchOption, IfSome};
ghost use Rattle.std.specs.List.{prefix_len, position_or_len};
ghost use Rattle.std.specs.Str.{bytes_eq};
ghost use Rattle.control_words.specs.Text.{parts, lines, words};

use memchr::memchr;

/// Returns true if the word equals this text. Our choice.
pub fn is(word: &[u8], text: &str) -> bool
    ensures { result ≡ bytes_eq word.now text.now }
{
    word == text.as_bytes()
}

fn place_of(bytes: &[u8], separator: u8) -> Option<usize>
    ensures { result ≡ position (λ b. b == separator) bytes.now }
{
    bytes.iter().position(|b| *b == separator)
}

/// Returns the same position as `place_of`. It scans many bytes at a time, for a separator that is
/// likely to be far away.
fn far_place_of(bytes: &[u8], separator: u8) -> Option<usize>
    ensures { result ≡ position (λ b. b == separator) bytes.now }
{
    memchr(separator, bytes)
}

/// Returns the bytes before this position, and the bytes after it.
fn around(bytes: &[u8], place: usize) -> (&[u8], &[u8])
    requires { place < length bytes.now }
    ensures before { result.0.now ≡ take place bytes.now }
    ensures behind { result.1.now ≡ drop (place + 1) bytes.now }
{
    (&bytes[..place], &bytes[place + 1..])
}

/// Returns the bytes before the first separator, and the bytes after it, or `None` if there is no
/// separator.
pub fn split_once(bytes: &[u8], separator: u8) -> Option<(&[u8], &[u8])>
    ensures value { MatchOption result (parts separator bytes.now ≡ bytes.now ∷ [])
        (λ x. parts separator bytes.now ≡ x.0.now ∷ parts separator x.1.now) }
    ensures shorter { IfSome result (λ x. length x.1.now < length bytes.now) }
{
    let end = place_of(bytes, separator)?;
    Some(around(bytes, end))
}

/// Returns the first line, without its line feed, and the bytes after it, or `None` if there is no
/// line feed. Our choice.
pub fn first_line(bytes: &[u8]) -> Option<(&[u8], &[u8])>
    ensures value { MatchOption result (lines bytes.now ≡ bytes.now ∷ [])
        (λ x. lines bytes.now ≡ x.0.now ∷ lines x.1.now) }
    ensures shorter { IfSome result (λ x. length x.1.now < length bytes.now) }
{
    let end = far_place_of(bytes, b'\n')?;
    Some(around(bytes, end))
}

fn leading_spaces(bytes: &[u8]) -> usize
    ensures value { result ≡ prefix_len (λ b. b == 32) bytes.now }
{
    let mut count = 0;
    for b in bytes {
        if *b != b' ' {
            break;
        }
        count += 1;
    }
    count
}

fn word_end(bytes: &[u8]) -> usize
    ensures { result ≡ position_or_len (λ b. b == 32) bytes.now }
{
    let mut count = 0;
    for b in bytes {
        if *b == b' ' {
            break;
        }
        count += 1;
    }
    count
}

/// Returns the first word, and the bytes after it, or `None` if there are only spaces.
fn first_word(bytes: &[u8]) -> Option<(&[u8], &[u8])>
    ensures { MatchOption result (words bytes.now ≡ [])
        (λ x. words bytes.now ≡ x.0.now ∷ words x.1.now) }
{
    let (_, bytes) = bytes.split_at(leading_spaces(bytes));
    if bytes.is_empty() {
        return None;
    }
    Some(bytes.split_at(word_end(bytes)))
}

/// The remaining words of a line, separated by runs of spaces. `rest` is the remaining part of the
/// line. Our choice.
#[derive(Clone, Copy)]
pub struct Words<'a> {
    pub rest: &'a [u8],
}

impl<'a> Words<'a> {
    ghost use Rattle.control_words.specs.Words.{next, after, none_left};
    ghost use Rattle.std.specs.Prelude.{◌≡◌, [], option_map, drop};
    ghost use Rattle.control_words.specs.Text.{words};

    /// Consumes and returns the next word, or `None` if no word is left. Our choice.
    pub fn next_word(&mut self) -> Option<&'a [u8]>
        ensures value { option_map (λ w. (w.now, words self.new.rest.now)) result
            ≡ next (words self.old.rest.now) }
        ensures left { words self.new.rest.now ≡ drop 1 (words self.old.rest.now) }
    {
        let (word, rest) = first_word(self.rest)?;
        self.rest = rest;
        Some(word)
    }

    /// Consumes the next word, whatever it is. Returns `None` if it isn't this text, or if no word
    /// is left. Our choice.
    pub fn expect_word(&mut self, text: &str) -> Option<()>
        ensures value { option_map (λ _. words self.new.rest.now) result
            ≡ after text.now (words self.old.rest.now) }
        ensures left { words self.new.rest.now ≡ drop 1 (words self.old.rest.now) }
    {
        is(self.next_word()?, text).then_some(())
    }

    /// Consumes the next word, if one is left, and returns `None` in that case. Our choice.
    pub fn expect_end(&mut self) -> Option<()>
        ensures value { option_map (λ _. []) result ≡ none_left (words self.old.rest.now) }
        ensures left { words self.new.rest.now ≡ drop 1 (words self.old.rest.now) }
    {
        match self.next_word() {
            None => Some(()),
            Some(_) => None,
        }
    }
}
