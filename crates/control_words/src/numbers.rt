//! Parsers for single words: numbers with and without units.

ghost use Rattle.std.specs.Prelude.{◌≡◌, ◌≤◌, ◌<◌, ◌^◌, ◌*◌, length, IfSome, option_map};
ghost use Rattle.std.specs.List.{prefix_len};
ghost use Rattle.std.specs.Char.{is_ascii_digit};
ghost use Rattle.control_words.specs.Numbers.{
  digits_after,
  number_of,
  number_with_unit,
  rate_unit,
  rate_of,
  delay_unit,
  delay_of,
  time_unit,
  time_of,
  decimals_of,
  fraction_of,
  is_kbytes,
  queue_of,
  hex_digit_of,
  hex_digits_after,
  hex_digits_of,
  hex_of,
  timing_of,
  moment_of,
};

use crate::raw::{RawQueue, RawTiming};
use crate::text::is;

fn digits(word: &[u8]) -> Option<u128>
    requires { length word.now ≤ 20 }
    ensures value { result ≡ digits_after 0 word.now }
    ensures small { IfSome result (λ n. n < 10 ^ length word.now) }
{
    let mut n = 0u128;
    for c in word {
        if !c.is_ascii_digit() {
            return None;
        }
        n = n * 10 + u128::from(*c - b'0');
    }
    Some(n)
}

/// Parses a number: `0`, or 1 to 20 digits that don't begin with `0`. Returns `None` for any other
/// word. Our choice.
#[tactic(auto, unfolding(crate::specs::Numbers::number_of))]
pub fn number(word: &[u8]) -> Option<u128>
    ensures value { result ≡ number_of word.now }
    ensures small { IfSome result (λ n. n < 10 ^ 20) }
{
    if word.is_empty() {
        return None;
    }
    if word.len() > 20 {
        return None;
    }
    if word[0] == b'0' && word.len() != 1 {
        return None;
    }
    digits(word)
}

fn leading_digits(word: &[u8]) -> usize
    ensures value { result ≡ prefix_len is_ascii_digit word.now }
    ensures within { result ≤ length word.now }
{
    let mut count = 0;
    for c in word {
        if !c.is_ascii_digit() {
            break;
        }
        count += 1;
    }
    count
}

/// Parses a leading number, and returns it with the bytes that directly follow it.
#[tactic(auto, unfolding(crate::specs::Numbers::number_with_unit))]
fn with_unit(word: &[u8]) -> Option<(u128, &[u8])>
    ensures value { option_map (λ x. (x.0, x.1.now)) result ≡ number_with_unit word.now }
    ensures small { IfSome result (λ x. x.0 < 10 ^ 20) }
{
    let (digits, unit) = word.split_at(leading_digits(word));
    Some((number(digits)?, unit))
}

#[tactic(auto, unfolding(crate::specs::Numbers::rate_unit))]
fn bits_in(unit: &[u8]) -> Option<u128>
    ensures value { result ≡ rate_unit unit.now }
    ensures small { IfSome result (λ n. n ≤ 8000000000) }
{
    if is(unit, "") || is(unit, "bit/s") {
        Some(1)
    } else if is(unit, "Kbit/s") {
        Some(1_000)
    } else if is(unit, "Mbit/s") {
        Some(1_000_000)
    } else if is(unit, "Gbit/s") {
        Some(1_000_000_000)
    } else if is(unit, "Byte/s") {
        Some(8)
    } else if is(unit, "KByte/s") {
        Some(8_000)
    } else if is(unit, "MByte/s") {
        Some(8_000_000)
    } else if is(unit, "GByte/s") {
        Some(8_000_000_000)
    } else {
        None
    }
}

/// Parses a rate in bit/s: a number, directly followed by nothing, or by `bit/s` or `Byte/s`, which
/// may have the prefix `K`, `M` or `G` (1000, 1000^2 and 1000^3). Returns `None` for any other word
/// (ipfw(8), bw).
#[tactic(auto, unfolding(crate::specs::Numbers::rate_of))]
pub fn rate(word: &[u8]) -> Option<u128>
    ensures { result ≡ rate_of word.now }
{
    let (n, unit) = with_unit(word)?;
    Some(n * bits_in(unit)?)
}

#[tactic(auto, unfolding(crate::specs::Numbers::delay_unit))]
fn milliseconds_in(unit: &[u8]) -> Option<u128>
    ensures value { result ≡ delay_unit unit.now }
    ensures small { IfSome result (λ n. n ≤ 1) }
{
    match unit {
        b"" | b"ms" => Some(1),
        _ => None,
    }
}

/// Parses a delay in ms: a number, directly followed by nothing or `ms`. Returns `None` for any
/// other word (ipfw(8), delay).
#[tactic(auto, unfolding(crate::specs::Numbers::delay_of))]
pub fn delay(word: &[u8]) -> Option<u128>
    ensures { result ≡ delay_of word.now }
{
    let (n, unit) = with_unit(word)?;
    Some(n * milliseconds_in(unit)?)
}

#[tactic(auto, unfolding(crate::specs::Numbers::time_unit))]
fn nanoseconds_in(unit: &[u8]) -> Option<u128>
    ensures value { result ≡ time_unit unit.now }
    ensures small { IfSome result (λ n. n ≤ 1000000000) }
{
    if is(unit, "") || is(unit, "ms") {
        Some(1_000_000)
    } else if is(unit, "s") {
        Some(1_000_000_000)
    } else if is(unit, "us") {
        Some(1_000)
    } else {
        None
    }
}

/// Parses a time in ns: a number, directly followed by `s`, `ms` or `us`, or by nothing, which
/// means ms. Returns `None` for any other word (ipfw(8), codel).
#[tactic(auto, unfolding(crate::specs::Numbers::time_of))]
pub fn time(word: &[u8]) -> Option<u128>
    ensures { result ≡ time_of word.now }
{
    let (n, unit) = with_unit(word)?;
    Some(n * nanoseconds_in(unit)?)
}

#[tactic(auto, unfolding(crate::specs::Numbers::decimals_of))]
fn decimals(word: &[u8]) -> Option<u128>
    ensures value { result ≡ decimals_of word.now }
    ensures small { IfSome result (λ n. n < 1000000) }
{
    if word.is_empty() {
        return None;
    }
    if word.len() > 6 {
        return None;
    }
    let n = digits(word)?;
    Some(n * 10u128.pow(6 - word.len() as u32))
}

/// Parses a fraction in millionths: `0` or `1`, followed by nothing, or by a point and 1 to 6
/// digits. Returns `None` for any other word (ipfw(8), plr).
#[tactic(auto, unfolding(crate::specs::Numbers::fraction_of))]
pub fn fraction(word: &[u8]) -> Option<u128>
    ensures { result ≡ fraction_of word.now }
{
    match word {
        [b'0'] => Some(0),
        [b'1'] => Some(1_000_000),
        [b'0', b'.', part @ ..] => decimals(part),
        [b'1', b'.', part @ ..] => Some(1_000_000 + decimals(part)?),
        _ => None,
    }
}

fn is_kilobytes(unit: &[u8]) -> bool
    ensures { result ≡ is_kbytes unit.now }
{
    is(unit, "KBytes") || is(unit, "Kbytes") || is(unit, "KB") || is(unit, "K")
}

/// Parses a queue's limit: a number of slots, or a number directly followed by `KBytes`, `Kbytes`,
/// `KB` or `K`. Returns `None` for any other word (ipfw(8), queue).
#[tactic(auto, unfolding(crate::specs::Numbers::queue_of))]
pub fn queue(word: &[u8]) -> Option<RawQueue>
    ensures { result ≡ queue_of word.now }
{
    let (n, unit) = with_unit(word)?;
    if is(unit, "") {
        Some(RawQueue::Slots(n))
    } else if is_kilobytes(unit) {
        Some(RawQueue::KBytes(n))
    } else {
        None
    }
}

fn hex_digit(c: u8) -> Option<u128>
    ensures value { result ≡ hex_digit_of c }
    ensures small { IfSome result (λ d. d < 16) }
{
    if b'0' <= c && c <= b'9' {
        Some(u128::from(c - b'0'))
    } else if b'a' <= c && c <= b'f' {
        Some(u128::from(c - 87))
    } else if b'A' <= c && c <= b'F' {
        Some(u128::from(c - 55))
    } else {
        None
    }
}

fn hex_digits(word: &[u8]) -> Option<u128>
    requires { length word.now ≤ 8 }
    ensures { result ≡ hex_digits_after 0 word.now }
{
    let mut n = 0u128;
    for c in word {
        let digit = hex_digit(*c)?;
        n = n * 16 + digit;
    }
    Some(n)
}

#[tactic(auto, unfolding(crate::specs::Numbers::hex_digits_of))]
fn some_hex_digits(word: &[u8], greatest: usize) -> Option<u128>
    requires { greatest ≤ 8 }
    ensures { result ≡ hex_digits_of greatest word.now }
{
    if word.is_empty() {
        return None;
    }
    if word.len() > greatest {
        return None;
    }
    hex_digits(word)
}

/// Parses `0x` and 1 to `greatest` hexadecimal digits in either case. Returns `None` for any other
/// word (ipfw(8), mask).
#[tactic(auto, unfolding(crate::specs::Numbers::hex_of))]
pub fn hexadecimal(word: &[u8], greatest: usize) -> Option<u128>
    requires { greatest ≤ 8 }
    ensures { result ≡ hex_of greatest word.now }
{
    match word {
        [b'0', b'x', digits @ ..] => some_hex_digits(digits, greatest),
        _ => None,
    }
}

/// Parses a retransmission timeout: a number of ms, or `adaptive`. Returns `None` for any other
/// word. Our choice.
#[tactic(auto, unfolding(crate::specs::Numbers::timing_of))]
pub fn timing(word: &[u8]) -> Option<RawTiming>
    ensures { result ≡ timing_of word.now }
{
    if is(word, "adaptive") {
        return Some(RawTiming::Adaptive);
    }
    Some(RawTiming::Fixed(number(word)?))
}

/// Parses `@`, directly followed by a number of ns. Returns `None` for any other word. Our choice.
#[tactic(auto, unfolding(crate::specs::Numbers::moment_of))]
pub fn moment(word: &[u8]) -> Option<u128>
    ensures { result ≡ moment_of word.now }
{
    match word {
        [b'@', digits @ ..] => number(digits),
        _ => None,
    }
}
