//! The forms of words, and their ranges.

ghost use Rattle.std.specs.Prelude.{◌≡◌, ◌&&◌};
ghost use Rattle.std.specs.Option.{is_some};
ghost use Rattle.control_words.specs.Addresses.{address_of, prefix_of, ports_of};
ghost use Rattle.control_words.specs.Numbers.{queue_of, timing_of};
ghost use Rattle.control_lines.specs.Ranges.{
  within,
  address_within,
  prefix_within,
  span_within,
  queue_within,
  timing_within,
};
ghost use Rattle.control.specs.Forms.{asked, holds, spelling, fits};

use crate::word_fault::Check;
use control_words::{RawAddress, RawPorts, RawPrefix, RawQueue, RawTiming, addresses, is, numbers};
use emu_model::LATEST_MOMENT;

/// A fixed word of a line.
#[derive(Clone, Copy, PartialEq, Eq)]
pub enum Keyword {
    Seed,
    Budget,
    Steps,
    From,
    To,
    Config,
    Count,
    Gap,
    Smss,
    Segments,
}

/// Returns the keyword's text. Our choice.
pub fn text_of(keyword: Keyword) -> &'static str
    ensures { result.now ≡ spelling keyword }
{
    match keyword {
        Keyword::Seed => "seed",
        Keyword::Budget => "budget",
        Keyword::Steps => "steps",
        Keyword::From => "from",
        Keyword::To => "to",
        Keyword::Config => "config",
        Keyword::Count => "count",
        Keyword::Gap => "gap",
        Keyword::Smss => "smss",
        Keyword::Segments => "segments",
    }
}

/// The form of a word, and the range of its number.
#[derive(Clone, Copy)]
pub enum Form {
    Word(Keyword),
    /// A number, from the first to the second.
    Number(u64, u64),
    /// The number of bytes in a segment.
    Segment,
    /// A receiver's window, in bytes.
    Window,
    Moment,
    Name,
    Protocol,
    ProtocolMatch,
    Address,
    Prefix,
    Ports,
    Rate,
    Delay,
    Queue,
    Fraction,
    Time,
    Timing,
    /// A field of a mask, with at most 8, 4 or 2 hexadecimal digits.
    Field8,
    Field4,
    Field2,
}

// Returns true unless the check covers ranges and `is_so` is false.
fn passes_check(check: Check, is_so: bool) -> bool
    ensures { result ≡ asked check is_so }
{
    match check {
        Check::Forms => true,
        Check::Ranges => is_so,
    }
}

fn is_within(number: u128, least: u64, most: u64) -> bool
    ensures { result ≡ is_some (within number least most) }
{
    u128::from(least) <= number && number <= u128::from(most)
}

// Returns true if there is a number of the form, within its range if the check covers ranges.
fn number(check: Check, number: Option<u128>, least: u64, most: u64) -> bool
    ensures { result ≡ holds check number (λ n. is_some (within n least most)) }
{
    match number {
        None => false,
        Some(n) => passes_check(check, is_within(n, least, most)),
    }
}

#[tactic(auto, unfolding(control_lines::specs::Ranges::address_within))]
fn is_address(raw: RawAddress) -> bool
    ensures { result ≡ is_some (address_within raw) }
{
    is_within(raw.first, 0, 255)
        && is_within(raw.second, 0, 255)
        && is_within(raw.third, 0, 255)
        && is_within(raw.fourth, 0, 255)
}

fn address(check: Check, word: &[u8]) -> bool
    ensures { result ≡ holds check (address_of word.now) (λ a. is_some (address_within a)) }
{
    match addresses::address(word) {
        None => false,
        Some(raw) => passes_check(check, is_address(raw)),
    }
}

#[tactic(auto, unfolding(control_lines::specs::Ranges::prefix_within))]
fn is_prefix(raw: RawPrefix) -> bool
    ensures { result ≡ is_some (prefix_within raw) }
{
    is_address(raw.address) && is_within(raw.length, 0, 32)
}

fn prefix(check: Check, word: &[u8]) -> bool
    ensures { result ≡ holds check (prefix_of word.now) (λ p. is_some (prefix_within p)) }
{
    match addresses::prefix(word) {
        None => false,
        Some(raw) => passes_check(check, is_prefix(raw)),
    }
}

#[tactic(auto, unfolding(control_lines::specs::Ranges::span_within))]
fn is_span(raw: RawPorts) -> bool
    ensures { result ≡ is_some (span_within raw) }
{
    is_within(raw.first, 0, 65_535) && is_within(raw.last, 0, 65_535) && raw.first <= raw.last
}

fn ports(check: Check, word: &[u8]) -> bool
    ensures { result ≡ holds check (ports_of word.now) (λ p. is_some (span_within p)) }
{
    match addresses::ports(word) {
        None => false,
        Some(raw) => passes_check(check, is_span(raw)),
    }
}

#[tactic(auto, unfolding(control_lines::specs::Ranges::queue_within))]
fn is_queue(raw: RawQueue) -> bool
    ensures { result ≡ is_some (queue_within (Some raw)) }
{
    match raw {
        RawQueue::Slots(n) => is_within(n, 1, 1000),
        RawQueue::KBytes(n) => is_within(n, 1, 1024),
    }
}

fn queue(check: Check, word: &[u8]) -> bool
    ensures { result ≡ holds check (queue_of word.now) (λ q. is_some (queue_within (Some q))) }
{
    match numbers::queue(word) {
        None => false,
        Some(raw) => passes_check(check, is_queue(raw)),
    }
}

#[tactic(auto, unfolding(control_lines::specs::Ranges::timing_within))]
fn is_timing(raw: RawTiming) -> bool
    ensures { result ≡ is_some (timing_within (Some raw)) }
{
    match raw {
        RawTiming::Adaptive => true,
        RawTiming::Fixed(n) => is_within(n, 1, 60_000),
    }
}

fn timing(check: Check, word: &[u8]) -> bool
    ensures { result ≡ holds check (timing_of word.now) (λ t. is_some (timing_within (Some t))) }
{
    match numbers::timing(word) {
        None => false,
        Some(raw) => passes_check(check, is_timing(raw)),
    }
}

/// Returns true if a word has a form, according to the parser itself, and its number is within its
/// range if the check covers ranges. Our choice.
pub fn fits(check: Check, form: Form, word: &[u8]) -> bool
    ensures { result ≡ fits check form word.now }
{
    match form {
        Form::Word(keyword) => is(word, text_of(keyword)),
        Form::Number(least, most) => number(check, numbers::number(word), least, most),
        Form::Segment => number(check, numbers::number(word), 64, 1460),
        Form::Window => number(check, numbers::number(word), 1, 65_535),
        Form::Moment => number(check, numbers::moment(word), 0, LATEST_MOMENT),
        Form::Name => addresses::name(word).is_some(),
        Form::Protocol => addresses::protocol(word).is_some(),
        Form::ProtocolMatch => addresses::protocol_match(word).is_some(),
        Form::Address => address(check, word),
        Form::Prefix => prefix(check, word),
        Form::Ports => ports(check, word),
        Form::Rate => number(check, numbers::rate(word), 0, 10_000_000_000),
        Form::Delay => number(check, numbers::delay(word), 0, 60_000),
        Form::Queue => queue(check, word),
        Form::Fraction => number(check, numbers::fraction(word), 0, 1_000_000),
        Form::Time => number(check, numbers::time(word), 1_000, 60_000_000_000),
        Form::Timing => timing(check, word),
        Form::Field8 => number(check, numbers::hexadecimal(word, 8), 0, 4_294_967_295),
        Form::Field4 => number(check, numbers::hexadecimal(word, 4), 0, 65_535),
        Form::Field2 => number(check, numbers::hexadecimal(word, 2), 0, 255),
    }
}
