//! The pieces of an event's line, each written after the one before. Short words are written as
//! eight bytes, which takes one move; the bytes past a word's end are overwritten by the next
//! piece.

ghost use Rattle.std.specs.Prelude.{◌≡◌, ◌+◌, ◌≤◌, ◌<◌, ◌++◌, [], ◌∷◌, codes, decimal, length, take};
ghost use Rattle.report.specs.Words.{instance_name, load_of, cause_of};

use crate::digits::{put_number, put_small};
use emu_model::{DropCause, Load, PipeNumber};

/// Writes one byte, and returns its end.
#[inline(always)]
pub fn put_byte(text: &mut [u8], at: usize, byte: u8) -> usize
    requires { at < length text.old }
    ensures end { result ≡ at + 1 }
    ensures items { take result text.new ≡ take at text.old ++ byte ∷ [] }
{
    text[at] = byte;
    at + 1
}

/// Writes eight bytes one by one, which takes one move: copying a slice would first check for
/// overlap.
#[inline(always)]
pub fn put_bytes(text: &mut [u8], at: usize, bytes: [u8; 8])
    requires { at + 8 ≤ length text.old }
    ensures { take (at + 8) text.new ≡ take at text.old ++ bytes }
{
    let [a, b, c, d, e, f, g, h] = bytes;
    text[at] = a;
    text[at + 1] = b;
    text[at + 2] = c;
    text[at + 3] = d;
    text[at + 4] = e;
    text[at + 5] = f;
    text[at + 6] = g;
    text[at + 7] = h;
}

/// Writes the first `count` of eight bytes, and returns their end.
#[inline(always)]
pub fn put_word(text: &mut [u8], at: usize, word: &[u8; 8], count: usize) -> usize
    requires { (count ≤ 8) × (at + 8 ≤ length text.old) }
    ensures end { result ≡ at + count }
    ensures items { take result text.new ≡ take at text.old ++ take count word.now }
{
    put_bytes(text, at, *word);
    at + count
}

/// Writes a space and a number, and returns its end.
#[inline(always)]
pub fn put_next(text: &mut [u8], at: usize, number: u64) -> usize
    requires { at + 21 ≤ length text.old }
    ensures end { (at ≤ result) × (result ≤ at + 21) }
    ensures items { take result text.new ≡ take at text.old ++ (codes " " ++ decimal number) }
{
    let at = put_byte(text, at, b' ');
    put_number(text, at, number)
}

/// Writes a space and an instance's name, and returns its end.
#[inline(always)]
pub fn put_instance(text: &mut [u8], at: usize, pipe: PipeNumber, instance: u8) -> usize
    requires { at + 42 ≤ length text.old }
    ensures end { (at ≤ result) × (result ≤ at + 42) }
    ensures items { take result text.new
        ≡ take at text.old ++ (codes " " ++ instance_name pipe instance) }
{
    let at = put_byte(text, at, b' ');
    let at = put_small(text, at, u64::from(pipe.get()));
    let at = put_byte(text, at, b'.');
    put_small(text, at, u64::from(instance))
}

/// Writes a space and a packet's load, and returns its end.
#[inline(always)]
pub fn put_load(text: &mut [u8], at: usize, load: Load) -> usize
    requires { at + 47 ≤ length text.old }
    ensures end { (at ≤ result) × (result ≤ at + 47) }
    ensures items { take result text.new ≡ take at text.old ++ (codes " " ++ load_of load) }
{
    let (end, flow, number) = match load {
        Load::Plain => return put_word(text, at, b" plain  ", 6),
        Load::Seg { flow, first } => (put_word(text, at, b" data   ", 6), flow, first),
        Load::Ack { flow, upto } => (put_word(text, at, b" ack    ", 5), flow, upto),
    };
    let end = put_small(text, end, u64::from(flow.get()));
    put_next(text, end, number)
}

/// Writes a space and the cause of a drop, and returns its end.
#[inline(always)]
pub fn put_cause(text: &mut [u8], at: usize, cause: DropCause) -> usize
    requires { at + 16 ≤ length text.old }
    ensures end { (at ≤ result) × (result ≤ at + 11) }
    ensures items { take result text.new ≡ take at text.old ++ (codes " " ++ cause_of cause) }
{
    match cause {
        DropCause::Denied => put_word(text, at, b" denied ", 7),
        DropCause::NoPipe => put_word(text, at, b" nopipe ", 7),
        DropCause::NoInstance => {
            let at = put_word(text, at, b" noinsta", 8);
            put_word(text, at, b"nce     ", 3)
        }
        DropCause::Lost => put_word(text, at, b" lost   ", 5),
        DropCause::Full => put_word(text, at, b" full   ", 5),
        DropCause::Codel => put_word(text, at, b" codel  ", 6),
        DropCause::Deleted => put_word(text, at, b" deleted", 8),
        DropCause::Budget => put_word(text, at, b" budget ", 7),
    }
}
