//! The digits of a time, cached for the next line. The lines of one step have the same time, and
//! most times of a report differ only in their last eight digits.

ghost use Rattle.std.specs.Prelude.{◌≡◌, ℕ, ◌+◌, ◌≤◌, ◌<◌, ◌++◌, List, decimal, drop, length, take};
ghost use Rattle.report.specs.Alike.{AreAlike};

use crate::digits::{EIGHT_DIGITS, put_eight};
use crate::forward::put_bytes;
use itoa::write_digits;
use std::marker::Model;
use unchecked::unreachable_unchecked;

/// The number of bytes that are copied for a time, which has at most 20 digits.
const WIDTH: usize = 24;

/// A time (ns), and its digits. Contracts see the time.
#[derive(Drop)]
pub struct Clock {
    moment: u64,
    // All times from `first` to `last` have the same number of digits, and differ only in the last
    // eight, which are the digits of the difference to `base`.
    first: u64,
    last: u64,
    base: u64,
    // The place of the first digit; the last one is before `WIDTH`.
    start: usize,
    digits: [u8; 2 * WIDTH],
}

impl Model for Clock {
    ghost use Rattle.std.specs.Prelude.{ℕ, ◌≡◌, ◌-◌, ◌≤◌, ◌++◌, take};
    ghost use Rattle.report.specs.Words.{eight_of};
    ghost use Rattle.report.specs.Alike.{AreAlike};

    ghost Value = { ℕ };

    ghost view = { λ c. c.moment };

    ghost invariant = { λ c. (c.start ≤ 23)
        × (c.first ≤ c.moment) × (c.moment ≤ c.last)
        × (AreAlike c.first c.last c.base c.start (take 16 c.digits))
        × (take 24 c.digits ≡ take 16 c.digits ++ eight_of (c.moment - c.base)) };
}

// Returns the first and the last time with as many digits as this one, which has at most eight, and
// the place of the first digit.
fn as_long(moment: u64) -> (u64, u64, usize)
    requires { moment < 100000000 }
    ensures inside { (result.0 ≤ moment) × (moment ≤ result.1) }
    ensures start { result.2 ≤ 23 }
    ensures alike { (front : List ℕ) → length front ≡ 16 →
        AreAlike result.0 result.1 0 result.2 front }
{
    if moment >= 10_000_000 {
        return (10_000_000, 99_999_999, 16);
    }
    if moment >= 1_000_000 {
        return (1_000_000, 9_999_999, 17);
    }
    if moment >= 100_000 {
        return (100_000, 999_999, 18);
    }
    if moment >= 10_000 {
        return (10_000, 99_999, 19);
    }
    if moment >= 1_000 {
        return (1_000, 9_999, 20);
    }
    if moment >= 100 {
        return (100, 999, 21);
    }
    if moment >= 10 {
        return (10, 99, 22);
    }
    (0, 9, 23)
}

// Returns eight bytes from a place on.
#[inline(always)]
fn eight_from(bytes: &[u8], from: usize) -> [u8; 8]
    requires { from + 8 ≤ length bytes.now }
    ensures { result ≡ take 8 (drop from bytes.now) }
{
    let Some(eight) = bytes[from..].first_chunk::<8>() else {
        unreachable_unchecked!()
    };
    *eight
}

impl Clock {
    /// Creates a clock at time 0.
    pub fn new() -> Self
        ensures { result ≡ 0 }
    {
        Clock {
            moment: 0,
            first: 0,
            last: 9,
            base: 0,
            start: 23,
            digits: [b'0'; 2 * WIDTH],
        }
    }

    /// Writes a time, and returns its end.
    #[inline(always)]
    pub fn put(&mut self, text: &mut [u8], at: usize, moment: u64) -> usize
        requires { at + 24 ≤ length text.old }
        ensures end { (at ≤ result) × (result ≤ at + 24) }
        ensures items { take result text.new ≡ take at text.old ++ decimal moment }
    {
        if moment != self.moment {
            self.turn(moment);
        }
        self.put_kept(text, at)
    }

    // Writes the cached time.
    #[inline(always)]
    fn put_kept(&self, text: &mut [u8], at: usize) -> usize
        requires { at + 24 ≤ length text.old }
        ensures end { (at ≤ result) × (result ≤ at + 24) }
        ensures items { take result text.new ≡ take at text.old ++ decimal self.now }
    {
        let start = self.start;
        put_bytes(text, at, eight_from(&self.digits, start));
        put_bytes(text, at + 8, eight_from(&self.digits, start + 8));
        put_bytes(text, at + 16, eight_from(&self.digits, start + 16));
        at + (WIDTH - start)
    }

    // Caches another time.
    #[inline(always)]
    fn turn(&mut self, moment: u64)
        ensures { self.new ≡ moment }
    {
        if moment < self.first {
            return self.turn_over(moment);
        }
        if moment > self.last {
            return self.turn_over(moment);
        }
        put_eight(&mut self.digits, 16, (moment - self.base) as u32);
        self.moment = moment;
    }

    // Caches a time whose number of digits or leading digits differ.
    #[inline(never)]
    fn turn_over(&mut self, moment: u64)
        ensures { self.new ≡ moment }
    {
        if moment < EIGHT_DIGITS {
            return self.turn_short(moment);
        }
        self.turn_long(moment);
    }

    // Caches a time of at most eight digits.
    fn turn_short(&mut self, moment: u64)
        requires { moment < 100000000 }
        ensures { self.new ≡ moment }
    {
        let (first, last, start) = as_long(moment);
        put_eight(&mut self.digits, 16, moment as u32);
        self.moment = moment;
        self.first = first;
        self.last = last;
        self.base = 0;
        self.start = start;
    }

    // Caches a time of at least nine digits.
    fn turn_long(&mut self, moment: u64)
        requires { 100000000 ≤ moment }
        ensures { self.new ≡ moment }
    {
        let high = moment / EIGHT_DIGITS;
        let base = high * EIGHT_DIGITS;
        self.start = write_digits(high, &mut self.digits, 16);
        put_eight(&mut self.digits, 16, (moment - base) as u32);
        self.moment = moment;
        self.first = base;
        self.last = base.saturating_add(EIGHT_DIGITS - 1);
        self.base = base;
    }
}
