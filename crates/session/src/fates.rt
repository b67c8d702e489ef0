//! The outcomes of commands and of injected packets, according to the records.

ghost use Rattle.std.specs.Prelude.{◌≡◌, option_map, OnOk};
ghost use Rattle.session.specs.Fates.{is_mine, is_fate, is_fate_of, concerns, hold_of, first_hold, refusal_code, refusal_in, taken_by, MarkedBy};

use crate::marks::Marks;
use emu_model::{Command, Load, Record, Refusal};
use std::alloc::AllocError;

/// The condition that stops time on its way to a given time.
#[derive(Clone, Copy, PartialEq)]
pub enum Stop {
    /// At the given time only.
    Moment,
    /// This long (ns, at least 1) after the first delivery or drop of an injected packet.
    Mine(u64),
    /// This long (ns, at least 1) after the first delivery or drop of any packet.
    Any(u64),
}

/// The outcome of a command.
#[derive(Clone, Copy, PartialEq)]
pub enum Taken {
    /// The command was obeyed.
    Done,
    /// The command was obeyed, and created the packet with this serial number.
    Packet(u64),
    /// The command was refused with this code.
    Refused(u64),
}

// Returns true if a packet with this load was injected.
fn is_mine(mine: &Marks, load: Load, packet: u64) -> bool
    ensures { result ≡ is_mine mine.now load packet }
{
    match load {
        Load::Plain => mine.has(packet),
        _ => false,
    }
}

// Returns true if a record is the delivery or the drop of a packet.
fn is_fate(line: &Record) -> bool
    ensures { result ≡ is_fate line.now }
{
    match line {
        Record::PacketDelivered { .. } | Record::PacketDropped { .. } => true,
        _ => false,
    }
}

// Returns true if a record is the delivery or the drop of an injected packet.
fn is_fate_of(mine: &Marks, line: &Record) -> bool
    ensures { result ≡ is_fate_of mine.now line.now }
{
    match line {
        Record::PacketDelivered { packet, load, .. } => is_mine(mine, *load, *packet),
        Record::PacketDropped { packet, load, .. } => is_mine(mine, *load, *packet),
        _ => false,
    }
}

/// Returns true if a record is reported to a client that requested only the records about injected
/// packets: their deliveries and drops, refusals, listings, and that the steps were spent.
pub fn concerns(mine: &Marks, line: &Record) -> bool
    ensures { result ≡ concerns mine.now line.now }
{
    match line {
        Record::PacketDelivered { packet, load, .. } => is_mine(mine, *load, *packet),
        Record::PacketDropped { packet, load, .. } => is_mine(mine, *load, *packet),
        Record::CommandRefused { .. }
        | Record::StepsSpent { .. }
        | Record::RuleLine { .. }
        | Record::PipeLine { .. }
        | Record::InstanceLine { .. } => true,
        _ => false,
    }
}

// Returns how long after its time (ns) a record stops time, if it does.
fn hold_of(mine: &Marks, line: &Record, stop: Stop) -> Option<u64>
    ensures { result ≡ hold_of mine.now stop line.now }
{
    match stop {
        Stop::Moment => None,
        Stop::Mine(hold) => is_fate_of(mine, line).then_some(hold),
        Stop::Any(hold) => is_fate(line).then_some(hold),
    }
}

/// Returns the result of `hold_of` for the first of these records that stops time.
pub fn first_hold(mine: &Marks, records: &[Record], stop: Stop) -> Option<u64>
    ensures { result ≡ first_hold mine.now stop records.now }
{
    let mut rest = records;
    while let [line, others @ ..] = rest {
        let hold = hold_of(mine, line, stop);
        if hold.is_some() {
            return hold;
        }
        rest = others;
    }
    None
}

/// Marks the packet that a command injects, if it injects one.
pub fn mark_injected(mine: &mut Marks, command: &Command, number: u64) -> Result<(), AllocError>
    ensures { OnOk result (MarkedBy command.now number mine.old mine.new) }
{
    match command {
        Command::Inject(_) => mine.mark(number),
        _ => Ok(()),
    }
}

// Returns the code of a refusal.
fn code_of(refusal: Refusal) -> u64
    ensures { result ≡ refusal_code refusal }
{
    u64::from(refusal as u8)
}

/// Returns the outcome of a command, given the first record that it caused. `number` is the serial
/// number of the packet that it created, if it created one.
pub fn taken_by(command: &Command, number: u64, first: Option<&Record>) -> Taken
    ensures { result ≡ taken_by command.now number (refusal_in (option_map (λ r. r.now) first.entry)) }
{
    if let Some(Record::CommandRefused { refusal, .. }) = first {
        return Taken::Refused(code_of(*refusal));
    }
    match command {
        Command::Inject(_) => Taken::Packet(number),
        _ => Taken::Done,
    }
}
