//! Rates that end before one packet is sent. A packet in service keeps the time of its finish, so
//! such a rate stops the link for longer than it lasts.

ghost use Rattle.std.specs.Prelude.{◌≡◌, ℕ, ◌==◌, ◌<◌, ◌++◌, if◌then◌else◌, length, OnOk, OnErr, IfOk};
ghost use Rattle.explain.specs.Likely.{doubts_at};
ghost use Rattle.explain.specs.Outages.{continued, ended_by, held_by, held_in, largest, outage_in, outage_of, outages, size_of};

use crate::doubt::{Doubt, Doubtful};
use crate::likely::put_doubt;
use emu_model::{Command, PipeNumber, Timed};
use std::alloc::{AllocError, Global};

/// A pipe's rate (bit/s), with the number and the time (ns) of the command that set it.
#[derive(Clone, Copy)]
pub struct Held {
    pub pipe: PipeNumber,
    pub command: u64,
    pub moment: u64,
    pub rate: u64,
}

/// The number of bits in a byte times the number of nanoseconds in a second.
const BYTE: u64 = 8_000_000_000;

/// The bytes of the headers of a segment.
const HEADERS: u64 = 40;

// Returns the size in bytes of the packets that a command sends.
fn size_of(command: &Command) -> u64
    ensures { result ≡ size_of command.now }
{
    match command {
        Command::Inject(send) => u64::from(send.size.get()),
        Command::Train { train, .. } => u64::from(train.packet.size.get()),
        Command::Flow { flow, .. } => u64::from(flow.smss.get()) + HEADERS,
        _ => 0,
    }
}

// Returns the size in bytes of the largest packet.
fn largest(commands: &[Timed]) -> u64
    ensures { result ≡ largest commands.now }
{
    let mut size = 0;
    for timed in commands {
        size = size.max(size_of(&timed.command));
    }
    size
}

// Returns the rate of a pipe.
fn held_in(rates: &[Option<Held>], pipe: PipeNumber) -> Option<Held>
    ensures { result ≡ held_in rates.now pipe }
{
    match rates.get(usize::from(pipe.get())) {
        Some(held) => *held,
        None => None,
    }
}

// Makes an entry for a pipe and for all with smaller numbers.
fn make_room(rates: &mut Vec<Option<Held>>, pipe: PipeNumber) -> Result<(), AllocError>
    ensures same { (n : ℕ) → held_in rates.new.items n ≡ held_in rates.old.items n }
    ensures ready { OnOk result (pipe < length rates.new.items) }
{
    let entries = usize::from(pipe.get()) + 1;
    if entries <= rates.len() {
        return Ok(());
    }
    rates.resize(entries, None)
}

fn set_held(
    rates: &mut Vec<Option<Held>>,
    pipe: PipeNumber,
    held: Option<Held>,
) -> Result<(), AllocError>
    ensures { OnOk result ((n : ℕ) → held_in rates.new.items n
        ≡ (if pipe == n then held else held_in rates.old.items n)) }
{
    make_room(rates, pipe)?;
    rates[usize::from(pipe.get())] = held;
    Ok(())
}

// Returns the rate that a configuration sets; one that is the same goes on.
fn continued(held: Option<Held>, new: Held) -> Held
    ensures { result ≡ continued held new }
{
    match held {
        Some(old) if old.rate == new.rate => old,
        _ => new,
    }
}

// Notes the rate that the command with this number sets.
fn note_rate(rates: &mut Vec<Option<Held>>, number: u64, timed: &Timed) -> Result<(), AllocError>
    ensures { OnOk result ((n : ℕ) → held_in rates.new.items n
        ≡ held_by n number timed.now (held_in rates.old.items n)) }
{
    match &timed.command {
        Command::Config { pipe, config } => {
            let held = Held {
                pipe: *pipe,
                command: number,
                moment: timed.moment,
                rate: config.bw.get(),
            };
            let held = continued(held_in(rates.as_slice(), *pipe), held);
            set_held(rates, *pipe, Some(held))
        }
        Command::PipeDelete(pipe) => set_held(rates, *pipe, None),
        _ => Ok(()),
    }
}

// Returns the doubt about a rate that ends at this time (ns), if it lasts for less time than a
// packet of this size (bytes) takes.
fn outage_of(size: u64, moment: u64, held: &Held) -> Option<Doubt>
    ensures { result ≡ outage_of size moment held.now }
{
    if held.rate == 0 || moment <= held.moment {
        return None;
    }
    let time = size.saturating_mul(BYTE) / held.rate;
    let lasts = moment - held.moment;
    if time <= lasts {
        return None;
    }
    Some(Doubt::Outage {
        pipe: held.pipe,
        size,
        time,
        lasts,
    })
}

// Returns the rate that a command ends.
fn ended_in(rates: &[Option<Held>], command: &Command) -> Option<Held>
    ensures { result ≡ ended_by (held_in rates.now) command.now }
{
    match command {
        Command::Config { pipe, config } => {
            held_in(rates, *pipe).filter(|held| held.rate != config.bw.get())
        }
        _ => None,
    }
}

// Appends the doubt about this rate, which ends at this time (ns).
fn put_held(out: &mut Vec<Doubtful>, size: u64, moment: u64, held: &Held) -> Result<(), AllocError>
    ensures { OnOk result (out.new.items
        ≡ out.old.items ++ doubts_at held.now.command (outage_of size moment held.now)) }
{
    put_doubt(out, held.command, outage_of(size, moment, held))
}

// Appends the doubt about a rate that ends at this time (ns).
fn put_outage(
    out: &mut Vec<Doubtful>,
    size: u64,
    moment: u64,
    held: Option<Held>,
) -> Result<(), AllocError>
    ensures { OnOk result (out.new.items ≡ out.old.items ++ outage_in size moment held) }
{
    match held {
        Some(held) => put_held(out, size, moment, &held),
        None => Ok(()),
    }
}

/// Returns the configurations whose rate ends, by a configuration of the pipe with another rate, in
/// less time than the largest packet of the experiment takes at it.
pub fn outages(alloc: Global, commands: &[Timed]) -> Result<Vec<Doubtful>, AllocError>
    ensures { IfOk result (λ out. out.items ≡ outages commands.now) }
{
    let size = largest(commands);
    let mut rates = Vec::new(alloc);
    let mut out = Vec::new(alloc);
    for (number, timed) in commands.iter().enumerate() {
        let held = ended_in(rates.as_slice(), &timed.command);
        put_outage(&mut out, size, timed.moment, held)?;
        note_rate(&mut rates, number as u64, timed)?;
    }
    Ok(out)
}
