//! The text of a warning.

ghost use Rattle.std.specs.Prelude.{◌≡◌, ◌++◌, decimal, OnOk, IfOk};
ghost use Rattle.explain.specs.ShownWarnings.{with_address, protocol_word, with_ends, sent_word, with_spent, with_dropped, with_denied, with_way, with_meaning, with_advice, with_hint, kind_word, with_heading, warning_text};

use crate::ends::Ends;
use crate::refused::Stand;
use crate::show_findings::put_row;
use crate::warning::{Concern, Sent};
use emu_model::Protocol;
use itoa::Buffer as Digits;
use std::alloc::{AllocError, Global};

fn put(out: &mut Vec<u8>, text: &str) -> Result<(), AllocError>
    ensures { OnOk result (out.new.items ≡ out.old.items ++ text.now) }
{
    out.extend_from_slice(text.as_bytes())
}

fn put_number(out: &mut Vec<u8>, number: u64) -> Result<(), AllocError>
    ensures { OnOk result (out.new.items ≡ out.old.items ++ decimal number) }
{
    let mut digits = Digits::new();
    out.extend_from_slice(digits.format(number).as_bytes())
}

// Appends an address in dotted decimal notation.
fn put_address(out: &mut Vec<u8>, address: u32) -> Result<(), AllocError>
    ensures { OnOk result (out.new.items ≡ with_address out.old.items address) }
{
    put_number(out, u64::from(address / 16_777_216))?;
    put(out, ".")?;
    put_number(out, u64::from(address / 65_536 % 256))?;
    put(out, ".")?;
    put_number(out, u64::from(address / 256 % 256))?;
    put(out, ".")?;
    put_number(out, u64::from(address % 256))
}

fn protocol_word(proto: Protocol) -> &'static str
    ensures { result.now ≡ protocol_word proto }
{
    match proto {
        Protocol::Tcp => "tcp",
        Protocol::Udp => "udp",
    }
}

// Appends the ends in the form of a rule: tcp from A PORT to A PORT.
fn put_ends(out: &mut Vec<u8>, ends: &Ends) -> Result<(), AllocError>
    ensures { OnOk result (out.new.items ≡ with_ends out.old.items ends.now) }
{
    put(out, protocol_word(ends.proto))?;
    put(out, " from ")?;
    put_address(out, ends.src)?;
    put(out, " ")?;
    put_number(out, u64::from(ends.sport))?;
    put(out, " to ")?;
    put_address(out, ends.dst)?;
    put(out, " ")?;
    put_number(out, u64::from(ends.dport))
}

fn sent_word(sent: Sent) -> &'static str
    ensures { result.now ≡ sent_word sent }
{
    match sent {
        Sent::Packets => "packets",
        Sent::Segments => "segments",
        Sent::Acks => "acknowledgements",
    }
}

fn put_spent(out: &mut Vec<u8>, moment: u64, end: u64) -> Result<(), AllocError>
    ensures { OnOk result (out.new.items ≡ with_spent out.old.items moment end) }
{
    put(out, "its steps were used up at ")?;
    put_number(out, moment)?;
    put(out, " ns, before its `end` at ")?;
    put_number(out, end)?;
    put(out, " ns")
}

// Appends the kind of the packets, their number, and the time of the first.
fn put_dropped(out: &mut Vec<u8>, packets: &str, count: u64, first: u64) -> Result<(), AllocError>
    ensures { OnOk result (out.new.items ≡ with_dropped out.old.items packets.now count first) }
{
    put(out, packets)?;
    put_number(out, count)?;
    put(out, ", the first at ")?;
    put_number(out, first)?;
    put(out, " ns")
}

fn put_denied(out: &mut Vec<u8>, count: u64) -> Result<(), AllocError>
    ensures { OnOk result (out.new.items ≡ with_denied out.old.items count) }
{
    put(out, "the rules denied ")?;
    put_number(out, count)?;
    put(out, " of its ")
}

fn put_way(out: &mut Vec<u8>, ends: &Ends, sent: Sent, count: Option<u64>) -> Result<(), AllocError>
    ensures { OnOk result (out.new.items ≡ with_way out.old.items ends.now sent count) }
{
    match count {
        None => put(out, "the rules that stand then deny its ")?,
        Some(count) => put_denied(out, count)?,
    }
    put(out, sent_word(sent))?;
    put(out, ": ")?;
    put_ends(out, ends)
}

// Appends the meaning of a warning.
fn put_meaning(out: &mut Vec<u8>, concern: &Concern) -> Result<(), AllocError>
    ensures { OnOk result (out.new.items ≡ with_meaning out.old.items concern.now) }
{
    match concern {
        Concern::Spent { moment, end } => put_spent(out, *moment, *end),
        Concern::OverBudget { first, count } => {
            put_dropped(out, "packets dropped for the budget: ", *count, *first)
        }
        Concern::PipeGone { first, count } => put_dropped(
            out,
            "packets dropped since a rule hands them to a pipe that isn't there: ",
            *count,
            *first,
        ),
        Concern::Denied { first, count } => put_dropped(
            out,
            "packets of trains and injects that the rules denied: ",
            *count,
            *first,
        ),
        Concern::UnusedSeed => put(out, "nothing uses its seed: no pipe has a `plr` above 0"),
        Concern::NoPipe(pipe) => {
            put(out, "no command of its experiment configures pipe ")?;
            put_number(out, u64::from(pipe.get()))
        }
        Concern::NoWay {
            ends,
            sent,
            count,
            ..
        } => put_way(out, ends, *sent, *count),
    }
}

// Appends a rule that would let packets with these ends through.
fn put_advice(out: &mut Vec<u8>, advice: &str, ends: &Ends) -> Result<(), AllocError>
    ensures { OnOk result (out.new.items ≡ with_advice out.old.items advice.now ends.now) }
{
    put(out, advice)?;
    put(out, ": add R allow ")?;
    put_ends(out, ends)
}

// Appends what to do about a warning.
fn put_hint(out: &mut Vec<u8>, concern: &Concern) -> Result<(), AllocError>
    ensures { OnOk result (out.new.items ≡ with_hint out.old.items concern.now) }
{
    match concern {
        Concern::Spent { .. } => put(
            out,
            "a greater `steps` behind `budget`, at most 10000000, goes further",
        ),
        Concern::OverBudget { .. } => put(
            out,
            "`budget` is how many packets may be under way at once, at most 65535",
        ),
        Concern::PipeGone { .. } => put(
            out,
            "configure that pipe before they come, or name another: `pipe show` lists the pipes",
        ),
        Concern::Denied { .. } => put(
            out,
            "what no rule matches is denied too: `show` counts what each rule matched, `trace 1` names each packet",
        ),
        Concern::UnusedSeed => put(
            out,
            "a seed draws losses alone: give a pipe a `plr`, or write `seed 0`",
        ),
        Concern::NoPipe(_) => put(
            out,
            "what comes to it is dropped: configure that pipe, or name another",
        ),
        Concern::NoWay {
            ends,
            other: true,
            ..
        } => put_advice(
            out,
            "a rule lets the other direction through, and each needs one of its own",
            ends,
        ),
        Concern::NoWay { ends, .. } => put_advice(
            out,
            "what no rule matches is denied, and here the other direction too",
            ends,
        ),
    }
}

fn kind_word(concern: &Concern) -> &'static str
    ensures { result.now ≡ kind_word concern.now }
{
    match concern {
        Concern::Spent { .. } => ": spent\n",
        Concern::OverBudget { .. } => ": budget\n",
        Concern::Denied { .. } | Concern::NoWay { .. } => ": denied\n",
        Concern::UnusedSeed => ": seed\n",
        Concern::NoPipe(_) | Concern::PipeGone { .. } => ": nopipe\n",
    }
}

// Appends the line that a warning is about, and its experiment.
fn put_heading(out: &mut Vec<u8>, concern: &Concern, stand: &Stand) -> Result<(), AllocError>
    ensures { OnOk result (out.new.items ≡ with_heading out.old.items concern.now stand.now) }
{
    put(out, "line ")?;
    put_number(out, stand.number)?;
    put(out, kind_word(concern))?;
    put_row(out, "  ", stand.line)?;
    put_row(out, "  experiment: ", stand.experiment)
}

/// Returns the text of a warning about a line: `line L: KIND`, the line, its experiment, the
/// meaning and what to do. The text is ASCII, with a line feed at the end of each row. Our choice.
pub fn show_warning(alloc: Global, concern: &Concern, stand: &Stand) -> Result<Vec<u8>, AllocError>
    ensures { IfOk result (λ out. out.items ≡ warning_text concern.now stand.now) }
{
    let mut out = Vec::new(alloc);
    put_heading(&mut out, concern, stand)?;
    put(&mut out, "  means: ")?;
    put_meaning(&mut out, concern)?;
    put(&mut out, "\n  hint: ")?;
    put_hint(&mut out, concern)?;
    put(&mut out, "\n")?;
    Ok(out)
}
