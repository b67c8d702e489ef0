//! Packets that were created, each stored by its difference from an earlier one of the same source
//! (our choice).

ghost use Rattle.std.specs.Prelude.{◌≡◌, ◌^◌, ◌<◌, ◌∷◌, [], length, slice_index_or, suc, IfSome, IsTrue};
ghost use Rattle.emu_model.specs.declared.records.Record.TheVariants.{StepsSpent};
ghost use Rattle.report.specs.Archive.{IsArrival, IsEntry, Names, arrived_as, entries_of, made_as, origin_with, record_of};
ghost use Rattle.report.specs.declared.packed.Kind.TheVariants.{Arrived};

use crate::packed::{Kind, Packed, Parts, at_instance, pack};
use emu_model::{Origin, Record};
use std::alloc::Global;
use unchecked::unreachable_unchecked;

/// The places of whole records from which the packets of a source differ only in time, packet and
/// number. A place may be of any record: it is compared before it is used.
#[derive(Drop)]
pub(crate) struct Firsts {
    places: Vec<u16>,
}

// The number of places for packets of commands, which are chosen by their headers.
const COMMANDS: usize = 64;

// Returns the key of a source, and of the direction of its packets.
#[inline(always)]
fn key_of(origin: Origin, src: u32, dst: u32, sport: u16, dport: u16) -> usize
    ensures { result < 2 ^ 32 }
{
    match origin {
        Origin::ByCommand(_) => {
            let ports = u32::from(sport) + u32::from(dport);
            src.wrapping_add(dst).wrapping_add(ports) as usize % COMMANDS
        }
        Origin::ByTrain(train) => COMMANDS + 3 * usize::from(train.get()),
        Origin::BySender { flow, .. } => COMMANDS + 3 * usize::from(flow.get()) + 1,
        Origin::ByReceiver { flow, .. } => COMMANDS + 3 * usize::from(flow.get()) + 2,
    }
}

// Returns the key of the source of a packet that was created.
#[inline(always)]
fn source_key(entry: &Record) -> Option<usize>
    ensures { IfSome result (λ k. k < 2 ^ 32) }
{
    let Record::PacketMade {
        origin,
        src,
        sport,
        dst,
        dport,
        ..
    } = *entry
    else {
        return None;
    };
    Some(key_of(origin, src, dst, sport, dport))
}

/// Returns an origin with another number: that of a command, a first byte or an acknowledged number.
#[inline(always)]
pub(crate) fn with_number(origin: Origin, number: u64) -> Origin
    ensures { result ≡ origin_with origin number }
{
    match origin {
        Origin::ByCommand(_) => Origin::ByCommand(number),
        Origin::ByTrain(train) => Origin::ByTrain(train),
        Origin::BySender { flow, .. } => Origin::BySender {
            flow,
            first: number,
        },
        Origin::ByReceiver { flow, .. } => Origin::ByReceiver { flow, upto: number },
    }
}

/// Returns the record of a packet that was created as another one, with the number, the time and the
/// packet in these parts.
pub(crate) fn made_as(first: &Record, parts: Parts) -> Record
    ensures { result ≡ made_as first.now parts }
{
    let Record::PacketMade {
        origin,
        proto,
        src,
        sport,
        dst,
        dport,
        size,
        ..
    } = *first
    else {
        return *first;
    };
    Record::PacketMade {
        moment: parts.moment,
        packet: parts.packet,
        origin: with_number(origin, parts.number),
        proto,
        src,
        sport,
        dst,
        dport,
        size,
    }
}

/// Returns the parts of the arrival that follows the creation of a packet with these parts.
#[inline(always)]
pub(crate) fn arrival_parts(others: &[Record], parts: Parts) -> Parts
    requires inside { suc parts.tag < length others.now }
    requires arrival { IsArrival (slice_index_or others.now (suc parts.tag) (StepsSpent 0)) }
    ensures record { record_of result
        ≡ arrived_as (slice_index_or others.now (suc parts.tag) (StepsSpent 0)) parts }
    ensures kind { result.kind ≡ Arrived }
    ensures names { Names result.kind result.tag result.number }
{
    let Record::PacketArrived { pipe, instance, .. } = others[usize::from(parts.tag) + 1] else {
        unreachable_unchecked!()
    };
    at_instance(Kind::Arrived, parts.moment, parts.packet, pipe, instance)
}

// Returns true if a record is the arrival of the packet with these parts, at their time, where
// another record says that a packet arrived.
#[inline(always)]
fn is_arrival_as(known: &Record, parts: Parts, entry: &Record) -> bool
    ensures { IsTrue result → IsArrival known.now × (arrived_as known.now parts ≡ entry.now) }
{
    let Record::PacketArrived {
        pipe: known_pipe,
        instance: known_instance,
        ..
    } = *known
    else {
        return false;
    };
    let Record::PacketArrived {
        moment,
        packet,
        pipe,
        instance,
    } = *entry
    else {
        return false;
    };
    moment == parts.moment
        && packet == parts.packet
        && pipe.get() == known_pipe.get()
        && instance == known_instance
}

// Returns the number of an origin that differs from another one in its number alone: that of a
// command, a first byte or an acknowledged number.
#[inline(always)]
fn number_from(known: Origin, origin: Origin) -> Option<u64>
    ensures { IfSome result (λ number. origin_with known number ≡ origin) }
{
    match origin {
        Origin::ByCommand(command) => match known {
            Origin::ByCommand(_) => Some(command),
            _ => None,
        },
        Origin::ByTrain(train) => match known {
            Origin::ByTrain(other) if other.get() == train.get() => Some(0),
            _ => None,
        },
        Origin::BySender { flow, first } => match known {
            Origin::BySender { flow: other, .. } if other.get() == flow.get() => Some(first),
            _ => None,
        },
        Origin::ByReceiver { flow, upto } => match known {
            Origin::ByReceiver { flow: other, .. } if other.get() == flow.get() => Some(upto),
            _ => None,
        },
    }
}

// Returns the parts of a packet that was created as the record at a place, but for its number, its
// time and its packet.
#[inline(always)]
fn parts_from(first: &Record, place: u16, kind: Kind, entry: &Record) -> Option<Parts>
    ensures { IfSome result
        (λ p. (made_as first.now p ≡ entry.now) × (p.kind ≡ kind) × (p.tag ≡ place)) }
{
    let Record::PacketMade {
        origin: known,
        proto: known_proto,
        src: known_src,
        sport: known_sport,
        dst: known_dst,
        dport: known_dport,
        size: known_size,
        ..
    } = *first
    else {
        return None;
    };
    let Record::PacketMade {
        moment,
        packet,
        origin,
        proto,
        src,
        sport,
        dst,
        dport,
        size,
    } = *entry
    else {
        return None;
    };
    if src != known_src || sport != known_sport || dst != known_dst || dport != known_dport {
        return None;
    }
    if proto != known_proto || size.get() != known_size.get() {
        return None;
    }
    let number = number_from(known, origin)?;
    Some(Parts {
        kind,
        moment,
        tag: place,
        packet,
        number,
    })
}

impl Firsts {
    /// Creates an empty table. Does not allocate.
    pub(crate) fn new(alloc: Global) -> Self {
        Firsts {
            places: Vec::new(alloc),
        }
    }

    // Returns the parts, of a kind, of a packet that was created as an earlier one of the same source.
    #[inline(always)]
    fn parts_of(&self, others: &[Record], kind: Kind, entry: &Record) -> Option<Parts>
        ensures { IfSome result (λ p. (p.tag < length others.now) × (p.kind ≡ kind)
            × (made_as (slice_index_or others.now p.tag (StepsSpent 0)) p ≡ entry.now)) }
    {
        let place = *self.places.get(source_key(entry)?)?;
        let first = others.get(usize::from(place))?;
        parts_from(first, place, kind, entry)
    }

    /// Returns the words of a packet that was created as an earlier one of the same source. Returns
    /// `None` for any other record, and for one that doesn't fit.
    #[inline(always)]
    pub(crate) fn word_of(&self, others: &[Record], entry: &Record) -> Option<Packed>
        ensures same { IfSome result (λ w. entries_of others.now w ≡ entry.now ∷ []) }
        ensures stands { IfSome result (IsEntry others.now) }
    {
        pack(self.parts_of(others, Kind::Made, entry)?)
    }

    /// Returns the words of a packet's creation and of the arrival that follows it, both as for an
    /// earlier packet of the same source. Returns `None` for any other records, and for those that
    /// don't fit.
    #[inline(always)]
    pub(crate) fn pair_of(&self, others: &[Record], entry: &Record, next: &Record) -> Option<Packed>
        ensures same { IfSome result (λ w. entries_of others.now w ≡ entry.now ∷ next.now ∷ []) }
        ensures stands { IfSome result (IsEntry others.now) }
    {
        let parts = self.parts_of(others, Kind::Entered, entry)?;
        let known = others.get(usize::from(parts.tag) + 1)?;
        if !is_arrival_as(known, parts, next) {
            return None;
        }
        pack(parts)
    }

    /// Returns true if two whole records would serve later packets of their source: a packet's
    /// creation and its arrival, if no arrival stands behind an earlier creation.
    pub(crate) fn wants_pair(&self, others: &[Record], entry: &Record, next: &Record) -> bool {
        let Record::PacketArrived { .. } = *next else {
            return false;
        };
        let Some(parts) = self.parts_of(others, Kind::Made, entry) else {
            return source_key(entry).is_some();
        };
        match others.get(usize::from(parts.tag) + 1) {
            Some(Record::PacketArrived { .. }) => false,
            _ => true,
        }
    }

    /// Registers a whole record's place for the next packets of the same source, if it is of a packet
    /// that was created. If memory runs out, or the place has more than sixteen bits, nothing
    /// happens: these packets are then stored whole, too.
    #[inline(never)]
    pub(crate) fn register(&mut self, entry: &Record, place: usize) {
        let Some(key) = source_key(entry) else {
            return;
        };
        if place >= 65_536 {
            return;
        }
        if key >= self.places.len() && self.places.resize(key + 1, 0).is_err() {
            return;
        }
        self.places[key] = place as u16;
    }
}
