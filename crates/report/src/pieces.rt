//! The pieces of a line. Each function requires that the room it needs is reserved.

ghost use Rattle.std.specs.Prelude.{◌+◌, ◌≤◌, ◌++◌, length, decimal};
ghost use Rattle.report.specs.Room.{spare, Appends};
ghost use Rattle.report.specs.Words.{places};

use itoa::Buffer;
use unchecked::unreachable_unchecked;

/// Appends bytes.
#[tactic(auto, unfolding(crate::specs::Room::spare))]
#[inline]
pub fn append(out: &mut Vec<u8>, bytes: &[u8])
    requires { length bytes.now ≤ spare out.old }
    ensures { Appends bytes.now (length bytes.now) out.old out.new }
{
    let Ok(()) = out.extend_from_slice(bytes) else {
        unreachable_unchecked!()
    };
}

/// Appends a number in decimal digits, at most 20.
#[inline]
pub fn append_number(out: &mut Vec<u8>, number: u64)
    requires { 20 ≤ spare out.old }
    ensures { Appends (decimal number) 20 out.old out.new }
{
    // Half of all numbers are those of a flow, a pipe or an instance with one digit.
    if number < 10 {
        return append(out, &[b'0' + number as u8]);
    }
    let mut buffer = Buffer::new();
    append(out, buffer.format(number).as_bytes());
}

/// Appends a label and a number.
#[inline]
pub fn append_labelled(out: &mut Vec<u8>, label: &[u8], number: u64)
    requires { length label.now + 20 ≤ spare out.old }
    ensures { Appends (label.now ++ decimal number) (length label.now + 20) out.old out.new }
{
    append(out, label);
    append_number(out, number);
}

/// Appends the lowest digits of a number, with leading zeros.
#[tactic(auto, unfolding(crate::specs::Words::places))]
pub fn append_places(out: &mut Vec<u8>, base: u32, count: u32, number: u32)
    requires base { (2 ≤ base) × (base ≤ 16) }
    requires room { count ≤ spare out.old }
    ensures { Appends (places base count number) count out.old out.new }
{
    if count == 0 {
        return;
    }
    append_places(out, base, count - 1, number / base);
    let digit = b"0123456789abcdef"[(number % base) as usize];
    append(out, &[digit]);
}
