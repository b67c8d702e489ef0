//! Common records, each in two words of eight bytes (our choice).

ghost use Rattle.std.specs.Prelude.{◌≡◌, ◌<◌, false, IfSome, None};
ghost use Rattle.emu_model.specs.declared.records.Record.TheVariants.{PacketDelivered};
ghost use Rattle.report.specs.Lines.{is_common};
ghost use Rattle.report.specs.Rows.{cause_number};
ghost use Rattle.report.specs.Archive.{Names, cause_at, kind_at, parts_in, rank, record_of};
ghost use Rattle.report.specs.declared.packed.Kind.TheVariants.{Whole};

use emu_model::{DropCause, FlowNumber, Load, PipeNumber, Record};
use unchecked::unreachable_unchecked;

/// The kind of a record that fits into sixteen bytes; a `Whole` record is stored elsewhere, and the
/// header of a `Made` one. `Entered` is two records: a packet was created, and arrived at a pipe.
#[derive(Clone, Copy)]
pub(crate) enum Kind {
    Whole,
    Done,
    Arrived,
    Finished,
    Delivered,
    Segment,
    Acknowledged,
    Passed,
    Dropped,
    Window,
    Expired,
    Made,
    Entered,
}

/// The parts of a common record: its kind; its time (ns); its flow, its pipe, or the cause of a
/// drop; its packet, or a window; and another number.
#[derive(Clone, Copy)]
pub(crate) struct Parts {
    pub(crate) kind: Kind,
    pub(crate) moment: u64,
    pub(crate) tag: u16,
    pub(crate) packet: u64,
    pub(crate) number: u64,
}

/// Parts in two words.
#[derive(Clone, Copy)]
pub(crate) struct Packed {
    pub(crate) high: u64,
    pub(crate) low: u64,
}

/// The weights of the parts in a word.
const MOMENT: u64 = 65_536;

const PACKET: u64 = 16;

const NUMBER: u64 = 1_073_741_824;

/// The first time, packet and number that don't fit: 2^48, 2^26, 2^34.
const MOMENTS: u64 = 281_474_976_710_656;

const PACKETS: u64 = 67_108_864;

const NUMBERS: u64 = 17_179_869_184;

fn rank(kind: Kind) -> u64
    ensures { result ≡ rank kind }
{
    match kind {
        Kind::Whole => 0,
        Kind::Done => 1,
        Kind::Arrived => 2,
        Kind::Finished => 3,
        Kind::Delivered => 4,
        Kind::Segment => 5,
        Kind::Acknowledged => 6,
        Kind::Passed => 7,
        Kind::Dropped => 8,
        Kind::Window => 9,
        Kind::Expired => 10,
        Kind::Made => 11,
        Kind::Entered => 12,
    }
}

// Returns the kind of a rank, which has four bits. All sixteen are listed, so that the kind is read
// from a table without comparisons.
fn kind_at(rank: u64) -> Kind
    requires { rank < 16 }
    ensures { result ≡ kind_at rank }
{
    match rank {
        0 => Kind::Whole,
        1 => Kind::Done,
        2 => Kind::Arrived,
        3 => Kind::Finished,
        4 => Kind::Delivered,
        5 => Kind::Segment,
        6 => Kind::Acknowledged,
        7 => Kind::Passed,
        8 => Kind::Dropped,
        9 => Kind::Window,
        10 => Kind::Expired,
        11 => Kind::Made,
        12 => Kind::Entered,
        13 => Kind::Whole,
        14 => Kind::Whole,
        15 => Kind::Whole,
        _ => unreachable_unchecked!(),
    }
}

pub(crate) fn cause_at(number: u16) -> DropCause
    ensures { result ≡ cause_at number }
{
    match number {
        0 => DropCause::Denied,
        1 => DropCause::Denied,
        2 => DropCause::NoPipe,
        3 => DropCause::NoInstance,
        4 => DropCause::Lost,
        5 => DropCause::Full,
        6 => DropCause::Codel,
        7 => DropCause::Deleted,
        _ => DropCause::Budget,
    }
}

/// Returns the number of a cause, which its definition in `emu_model` has.
pub(crate) fn number_of(cause: DropCause) -> u8
    ensures number { result ≡ cause_number cause }
    ensures back { cause_at result ≡ cause }
{
    cause as u8
}

/// Returns the parts of a common record, or `None` if the record isn't common.
#[inline(always)]
pub(crate) fn parts_of(entry: &Record) -> Option<Parts>
    ensures some { IfSome result
        (λ p. (record_of p ≡ entry.now) × Names p.kind p.tag p.number) }
    ensures none { result ≡ None → is_common entry.now ≡ false }
{
    let parts = match *entry {
        Record::PacketFinished {
            moment,
            packet,
            pipe,
            instance,
        } => at_instance(Kind::Finished, moment, packet, pipe, instance),
        Record::PacketDelivered {
            moment,
            packet,
            load,
        } => delivery(moment, packet, load),
        Record::AckTaken {
            moment,
            flow,
            cwnd,
            ssthresh,
        } => window(Kind::Window, moment, flow, cwnd, ssthresh),
        Record::TimerExpired {
            moment,
            flow,
            cwnd,
            ssthresh,
        } => window(Kind::Expired, moment, flow, cwnd, ssthresh),
        Record::PacketDropped {
            moment,
            packet,
            load: Load::Plain,
            cause,
        } => Parts {
            kind: Kind::Dropped,
            moment,
            tag: u16::from(number_of(cause)),
            packet,
            number: 0,
        },
        Record::PacketArrived {
            moment,
            packet,
            pipe,
            instance,
        } => at_instance(Kind::Arrived, moment, packet, pipe, instance),
        Record::PacketPassed {
            moment,
            packet,
            pipe,
            instance,
        } => at_instance(Kind::Passed, moment, packet, pipe, instance),
        Record::CommandDone { moment, command } => Parts {
            kind: Kind::Done,
            moment,
            tag: 0,
            packet: 0,
            number: command,
        },
        _ => return None,
    };
    Some(parts)
}

/// Returns the parts of an event of a packet at an instance.
#[inline(always)]
pub(crate) fn at_instance(
    kind: Kind,
    moment: u64,
    packet: u64,
    pipe: PipeNumber,
    instance: u8,
) -> Parts
    ensures { (result.kind ≡ kind) × (result.moment ≡ moment) × (result.tag ≡ pipe)
        × (result.packet ≡ packet) × (result.number ≡ instance) × (0 < result.tag)
        × (result.number < 256) }
{
    Parts {
        kind,
        moment,
        tag: pipe.get(),
        packet,
        number: u64::from(instance),
    }
}

// Returns the parts of a delivery.
#[inline(always)]
fn delivery(moment: u64, packet: u64, load: Load) -> Parts
    ensures { (record_of result ≡ PacketDelivered moment packet load)
        × Names result.kind result.tag result.number }
{
    match load {
        Load::Plain => Parts {
            kind: Kind::Delivered,
            moment,
            tag: 0,
            packet,
            number: 0,
        },
        Load::Seg { flow, first } => Parts {
            kind: Kind::Segment,
            moment,
            tag: flow.get(),
            packet,
            number: first,
        },
        Load::Ack { flow, upto } => Parts {
            kind: Kind::Acknowledged,
            moment,
            tag: flow.get(),
            packet,
            number: upto,
        },
    }
}

// Returns the parts of a sender's window (bytes).
#[inline(always)]
fn window(kind: Kind, moment: u64, flow: FlowNumber, cwnd: u64, ssthresh: u64) -> Parts
    ensures { (result.kind ≡ kind) × (result.moment ≡ moment) × (result.tag ≡ flow)
        × (result.packet ≡ cwnd) × (result.number ≡ ssthresh) × (0 < result.tag) }
{
    Parts {
        kind,
        moment,
        tag: flow.get(),
        packet: cwnd,
        number: ssthresh,
    }
}

/// Returns the record with these parts.
#[inline(always)]
pub(crate) fn record_of(parts: Parts) -> Record
    requires { Names parts.kind parts.tag parts.number }
    ensures { result ≡ record_of parts }
{
    let Parts {
        kind,
        moment,
        tag,
        packet,
        number,
    } = parts;
    match kind {
        Kind::Whole | Kind::Made | Kind::Entered => unreachable_unchecked!(),
        Kind::Done => Record::CommandDone {
            moment,
            command: number,
        },
        Kind::Arrived => Record::PacketArrived {
            moment,
            packet,
            pipe: pipe_of(tag),
            instance: number as u8,
        },
        Kind::Finished => Record::PacketFinished {
            moment,
            packet,
            pipe: pipe_of(tag),
            instance: number as u8,
        },
        Kind::Delivered => Record::PacketDelivered {
            moment,
            packet,
            load: Load::Plain,
        },
        Kind::Segment => Record::PacketDelivered {
            moment,
            packet,
            load: Load::Seg {
                flow: flow_of(tag),
                first: number,
            },
        },
        Kind::Acknowledged => Record::PacketDelivered {
            moment,
            packet,
            load: Load::Ack {
                flow: flow_of(tag),
                upto: number,
            },
        },
        Kind::Passed => Record::PacketPassed {
            moment,
            packet,
            pipe: pipe_of(tag),
            instance: number as u8,
        },
        Kind::Dropped => Record::PacketDropped {
            moment,
            packet,
            load: Load::Plain,
            cause: cause_at(tag),
        },
        Kind::Window => Record::AckTaken {
            moment,
            flow: flow_of(tag),
            cwnd: packet,
            ssthresh: number,
        },
        Kind::Expired => Record::TimerExpired {
            moment,
            flow: flow_of(tag),
            cwnd: packet,
            ssthresh: number,
        },
    }
}

#[inline(always)]
pub(crate) fn flow_of(tag: u16) -> FlowNumber
    requires { 0 < tag }
    ensures { result ≡ tag }
{
    let Some(flow) = FlowNumber::new(tag) else {
        unreachable_unchecked!()
    };
    flow
}

#[inline(always)]
pub(crate) fn pipe_of(tag: u16) -> PipeNumber
    requires { 0 < tag }
    ensures { result ≡ tag }
{
    let Some(pipe) = PipeNumber::new(tag) else {
        unreachable_unchecked!()
    };
    pipe
}

/// Packs parts into two words. Returns `None` if they don't fit.
#[tactic(auto, using(crate::proofs::Packing::packed))]
#[inline(always)]
pub(crate) fn pack(parts: Parts) -> Option<Packed>
    ensures { IfSome result (λ w. parts_in w ≡ parts) }
{
    // One comparison instead of three.
    if parts.moment / MOMENTS + parts.packet / PACKETS + parts.number / NUMBERS != 0 {
        return None;
    }
    Some(Packed {
        high: parts.moment * MOMENT + u64::from(parts.tag),
        low: parts.number * NUMBER + (parts.packet * PACKET + rank(parts.kind)),
    })
}

/// Returns the words that refer to a whole record at a place.
pub(crate) fn place_mark(place: usize) -> Packed
    ensures kind { (parts_in result).kind ≡ Whole }
    ensures place { result.high ≡ place }
{
    Packed {
        high: place as u64,
        low: 0,
    }
}

/// Returns the parts of two words.
#[inline(always)]
pub(crate) fn unpack(word: Packed) -> Parts
    ensures { result ≡ parts_in word }
{
    let Packed { high, low } = word;
    Parts {
        kind: kind_at(low % PACKET),
        moment: high / MOMENT,
        tag: (high % MOMENT) as u16,
        packet: low / PACKET % PACKETS,
        number: low / NUMBER,
    }
}
