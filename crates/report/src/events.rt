//! The lines of events, each written after the text before a place.

ghost use Rattle.std.specs.Prelude.{◌≡◌, ◌+◌, ◌≤◌, ◌++◌, None, codes, decimal, false, length, take, true, IfSome};
ghost use Rattle.report.specs.Archive.{Names, is_elsewhere, record_of};
ghost use Rattle.report.specs.Words.{instance_name, load_of, cause_of};
ghost use Rattle.report.specs.Lines.{line_of};

use crate::clock::Clock;
use crate::digits::{put_number, put_small};
use crate::forward::{put_byte, put_cause, put_instance, put_load, put_next, put_word};
use crate::packed::{Kind, Parts, cause_at, flow_of, pipe_of};
use emu_model::{DropCause, Load, PipeNumber};

/// Writes a time, an event and a number, and returns the end of the number.
#[inline(always)]
pub fn put_event(
    clock: &mut Clock,
    text: &mut [u8],
    at: usize,
    moment: u64,
    word: &[u8; 8],
    count: usize,
    number: u64,
) -> usize
    requires { (count ≤ 8) × (at + 52 ≤ length text.old) }
    ensures end { (at ≤ result) × (result ≤ at + 52) }
    ensures items { take result text.new
        ≡ take at text.old ++ (decimal moment ++ (take count word.now ++ decimal number)) }
{
    let at = clock.put(text, at, moment);
    let at = put_word(text, at, word, count);
    put_number(text, at, number)
}

// Writes that a command was done.
#[inline(always)]
fn put_done(clock: &mut Clock, text: &mut [u8], at: usize, moment: u64, command: u64) -> usize
    requires { at + 256 ≤ length text.old }
    ensures end { (at ≤ result) × (result ≤ at + 128) }
    ensures items { take result text.new
        ≡ take at text.old
        ++ (decimal moment ++ (codes " ok " ++ (decimal command ++ codes "\n"))) }
{
    let at = put_event(clock, text, at, moment, b" ok     ", 4, command);
    put_byte(text, at, b'\n')
}

// Writes an event of a packet at an instance.
#[inline(always)]
fn put_at_instance(
    clock: &mut Clock,
    text: &mut [u8],
    at: usize,
    moment: u64,
    word: &[u8; 8],
    count: usize,
    packet: u64,
    pipe: PipeNumber,
    instance: u8,
) -> usize
    requires { (count ≤ 8) × (at + 256 ≤ length text.old) }
    ensures end { (at ≤ result) × (result ≤ at + 128) }
    ensures items { take result text.new
        ≡ take at text.old
        ++ (decimal moment
        ++ (take count word.now
        ++ (decimal packet ++ (codes " " ++ (instance_name pipe instance ++ codes "\n"))))) }
{
    let at = put_event(clock, text, at, moment, word, count, packet);
    let at = put_instance(text, at, pipe, instance);
    put_byte(text, at, b'\n')
}

// Writes that a packet was delivered.
#[inline(always)]
fn put_delivery(
    clock: &mut Clock,
    text: &mut [u8],
    at: usize,
    moment: u64,
    packet: u64,
    load: Load,
) -> usize
    requires { at + 256 ≤ length text.old }
    ensures end { (at ≤ result) × (result ≤ at + 128) }
    ensures items { take result text.new
        ≡ take at text.old
        ++ (decimal moment
        ++ (codes " deliver " ++ (decimal packet ++ (codes " " ++ (load_of load ++ codes "\n"))))) }
{
    let at = clock.put(text, at, moment);
    let at = put_word(text, at, b" deliver", 8);
    let at = put_next(text, at, packet);
    let at = put_load(text, at, load);
    put_byte(text, at, b'\n')
}

/// Writes that a packet was dropped, and the cause.
#[inline(never)]
pub(crate) fn put_drop(
    clock: &mut Clock,
    text: &mut [u8],
    at: usize,
    moment: u64,
    packet: u64,
    load: Load,
    cause: DropCause,
) -> usize
    requires { at + 256 ≤ length text.old }
    ensures end { (at ≤ result) × (result ≤ at + 128) }
    ensures items { take result text.new
        ≡ take at text.old
        ++ (decimal moment
        ++ (codes " drop "
        ++ (decimal packet
        ++ (codes " " ++ (load_of load ++ (codes " " ++ (cause_of cause ++ codes "\n"))))))) }
{
    let at = put_event(clock, text, at, moment, b" drop   ", 6, packet);
    let at = put_load(text, at, load);
    let at = put_cause(text, at, cause);
    put_byte(text, at, b'\n')
}

// Writes a sender's window after an acknowledgement or a timeout.
#[inline(always)]
fn put_window(
    clock: &mut Clock,
    text: &mut [u8],
    at: usize,
    moment: u64,
    word: &[u8; 8],
    count: usize,
    flow: u64,
    cwnd: u64,
    ssthresh: u64,
) -> usize
    requires { (count ≤ 8) × (at + 256 ≤ length text.old) }
    ensures end { (at ≤ result) × (result ≤ at + 128) }
    ensures items { take result text.new
        ≡ take at text.old
        ++ (decimal moment
        ++ (take count word.now
        ++ (decimal flow
        ++ (codes " " ++ (decimal cwnd ++ (codes " " ++ (decimal ssthresh ++ codes "\n"))))))) }
{
    let at = clock.put(text, at, moment);
    let at = put_word(text, at, word, count);
    let at = put_small(text, at, flow);
    let at = put_next(text, at, cwnd);
    let at = put_next(text, at, ssthresh);
    put_byte(text, at, b'\n')
}

/// Writes the line of a common record, and returns its end, or `None` if the record is stored
/// elsewhere. `S` is the caller: each has a copy of its own, because the function is so large that
/// only a single call of it is inlined.
#[inline(always)]
pub(crate) fn put_parts<S>(
    clock: &mut Clock,
    text: &mut [u8],
    at: usize,
    parts: Parts,
) -> Option<usize>
    requires room { at + 256 ≤ length text.old }
    requires names { is_elsewhere parts.kind ≡ false → Names parts.kind parts.tag parts.number }
    ensures some { IfSome result (λ end. (is_elsewhere parts.kind ≡ false)
        × (at ≤ end) × (end ≤ at + 128)
        × (take end text.new ≡ take at text.old ++ line_of (record_of parts))) }
    ensures none { result ≡ None → (is_elsewhere parts.kind ≡ true) × (text.new ≡ text.old) }
{
    let Parts {
        kind,
        moment,
        tag,
        packet,
        number,
    } = parts;
    let end = match kind {
        Kind::Whole | Kind::Made | Kind::Entered => return None,
        Kind::Finished => {
            let (pipe, instance) = (pipe_of(tag), number as u8);
            put_at_instance(
                clock,
                text,
                at,
                moment,
                b" finish ",
                8,
                packet,
                pipe,
                instance,
            )
        }
        Kind::Segment => {
            let load = Load::Seg {
                flow: flow_of(tag),
                first: number,
            };
            put_delivery(clock, text, at, moment, packet, load)
        }
        Kind::Acknowledged => {
            let load = Load::Ack {
                flow: flow_of(tag),
                upto: number,
            };
            put_delivery(clock, text, at, moment, packet, load)
        }
        Kind::Delivered => put_delivery(clock, text, at, moment, packet, Load::Plain),
        Kind::Window => put_window(
            clock,
            text,
            at,
            moment,
            b" ack    ",
            5,
            u64::from(tag),
            packet,
            number,
        ),
        Kind::Expired => put_window(
            clock,
            text,
            at,
            moment,
            b" expire ",
            8,
            u64::from(tag),
            packet,
            number,
        ),
        Kind::Dropped => {
            let cause = cause_at(tag);
            put_drop(clock, text, at, moment, packet, Load::Plain, cause)
        }
        Kind::Arrived => {
            let (pipe, instance) = (pipe_of(tag), number as u8);
            put_at_instance(
                clock,
                text,
                at,
                moment,
                b" arrive ",
                8,
                packet,
                pipe,
                instance,
            )
        }
        Kind::Passed => {
            let (pipe, instance) = (pipe_of(tag), number as u8);
            put_at_instance(
                clock,
                text,
                at,
                moment,
                b" pass   ",
                6,
                packet,
                pipe,
                instance,
            )
        }
        Kind::Done => put_done(clock, text, at, moment, number),
    };
    Some(end)
}
