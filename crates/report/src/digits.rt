//! Numbers in decimal digits, two at a time, each written after the text before a place.

ghost use Rattle.std.specs.Prelude.{◌≡◌, ◌+◌, ◌/◌, ◌%◌, ◌<◌, ◌≤◌, ◌++◌, decimal, length, take};
ghost use Rattle.report.specs.Words.{pair_of, eight_of};

// Each number below 100, in two digits.
static PAIRS: [u8; 200] =
    *b"00010203040506070809101112131415161718192021222324252627282930313233343536373839404142434445464748495051525354555657585960616263646566676869707172737475767778798081828384858687888990919293949596979899";

/// The smallest number with nine digits.
pub const EIGHT_DIGITS: u64 = 100_000_000;

// Writes two digits.
#[inline(always)]
fn put_pair(text: &mut [u8], at: usize, pair: u32)
    requires { (pair < 100) × (at + 2 ≤ length text.old) }
    ensures { take (at + 2) text.new ≡ take at text.old ++ pair_of pair }
{
    let from = pair as usize * 2;
    let (tens, ones) = (PAIRS[from], PAIRS[from + 1]);
    text[at] = tens;
    text[at + 1] = ones;
}

// Returns the first two of four digits.
#[inline(always)]
fn hundreds(four: u32) -> u32
    requires { four < 10000 }
    ensures { result ≡ four / 100 }
{
    (four * 5243) >> 19
}

// Writes four digits.
#[inline(always)]
fn put_four(text: &mut [u8], at: usize, four: u32)
    requires { (four < 10000) × (at + 4 ≤ length text.old) }
    ensures { take (at + 4) text.new
        ≡ take at text.old ++ (pair_of (four / 100) ++ pair_of (four % 100)) }
{
    let high = hundreds(four);
    put_pair(text, at, high);
    put_pair(text, at + 2, four - high * 100);
}

/// Writes eight digits, with leading zeros.
#[inline(always)]
pub fn put_eight(text: &mut [u8], at: usize, eight: u32)
    requires { (eight < 100000000) × (at + 8 ≤ length text.old) }
    ensures { take (at + 8) text.new ≡ take at text.old ++ eight_of eight }
{
    let high = eight / 10_000;
    put_four(text, at, high);
    put_four(text, at + 4, eight - high * 10_000);
}

// Writes a number of one or two digits, and returns its end.
#[inline(always)]
fn put_first(text: &mut [u8], at: usize, number: u32) -> usize
    requires { (number < 100) × (at + 2 ≤ length text.old) }
    ensures end { (at ≤ result) × (result ≤ at + 2) }
    ensures items { take result text.new ≡ take at text.old ++ decimal number }
{
    if number < 10 {
        text[at] = b'0' + number as u8;
        return at + 1;
    }
    put_pair(text, at, number);
    at + 2
}

// Writes a number of up to four digits, and returns its end.
#[inline(always)]
fn put_short(text: &mut [u8], at: usize, number: u32) -> usize
    requires { (number < 10000) × (at + 4 ≤ length text.old) }
    ensures end { (at ≤ result) × (result ≤ at + 4) }
    ensures items { take result text.new ≡ take at text.old ++ decimal number }
{
    if number < 100 {
        return put_first(text, at, number);
    }
    let high = hundreds(number);
    let end = put_first(text, at, high);
    put_pair(text, end, number - high * 100);
    end + 2
}

// Writes a number of up to eight digits, and returns its end.
#[inline(always)]
fn put_middle(text: &mut [u8], at: usize, number: u32) -> usize
    requires { (number < 100000000) × (at + 8 ≤ length text.old) }
    ensures end { (at ≤ result) × (result ≤ at + 8) }
    ensures items { take result text.new ≡ take at text.old ++ decimal number }
{
    if number < 10_000 {
        return put_short(text, at, number);
    }
    let high = number / 10_000;
    let end = put_short(text, at, high);
    put_four(text, end, number - high * 10_000);
    end + 4
}

// Writes a number of up to twelve digits, and returns its end.
fn put_high(text: &mut [u8], at: usize, number: u64) -> usize
    requires { (number < 1000000000000) × (at + 12 ≤ length text.old) }
    ensures end { (at ≤ result) × (result ≤ at + 12) }
    ensures items { take result text.new ≡ take at text.old ++ decimal number }
{
    if number < EIGHT_DIGITS {
        return put_middle(text, at, number as u32);
    }
    let end = put_short(text, at, (number / EIGHT_DIGITS) as u32);
    put_eight(text, end, (number % EIGHT_DIGITS) as u32);
    end + 8
}

// Writes a number of nine or more digits, and returns its end.
#[cold]
#[inline(never)]
fn put_long(text: &mut [u8], at: usize, number: u64) -> usize
    requires { (100000000 ≤ number) × (at + 20 ≤ length text.old) }
    ensures end { (at ≤ result) × (result ≤ at + 20) }
    ensures items { take result text.new ≡ take at text.old ++ decimal number }
{
    let end = put_high(text, at, number / EIGHT_DIGITS);
    put_eight(text, end, (number % EIGHT_DIGITS) as u32);
    end + 8
}

/// Writes a number, and returns its end.
#[inline(always)]
pub fn put_number(text: &mut [u8], at: usize, number: u64) -> usize
    requires { at + 20 ≤ length text.old }
    ensures end { (at ≤ result) × (result ≤ at + 20) }
    ensures items { take result text.new ≡ take at text.old ++ decimal number }
{
    if number < EIGHT_DIGITS {
        return put_middle(text, at, number as u32);
    }
    put_long(text, at, number)
}

/// Writes a number that usually has few digits, such as that of a flow, a pipe or an instance, and
/// returns its end.
#[inline(always)]
pub fn put_small(text: &mut [u8], at: usize, number: u64) -> usize
    requires { at + 20 ≤ length text.old }
    ensures end { (at ≤ result) × (result ≤ at + 20) }
    ensures items { take result text.new ≡ take at text.old ++ decimal number }
{
    if number < 10 {
        text[at] = b'0' + number as u8;
        return at + 1;
    }
    if number < 10_000 {
        return put_short(text, at, number as u32);
    }
    put_wide(text, at, number)
}

// Calls `put_number`, so that `put_small` stays short enough to be inlined.
#[inline(never)]
fn put_wide(text: &mut [u8], at: usize, number: u64) -> usize
    requires { at + 20 ≤ length text.old }
    ensures end { (at ≤ result) × (result ≤ at + 20) }
    ensures items { take result text.new ≡ take at text.old ++ decimal number }
{
    put_number(text, at, number)
}
