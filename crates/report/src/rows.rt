//! Records as rows of 40 bytes, which NumPy reads without parsing (our choice).

ghost use Rattle.std.specs.Prelude.{◌≡◌, ◌+◌, ◌*◌, ◌^◌, ◌≤◌, ◌<◌, ◌++◌, drop, false, length, take, true, IfOk, OnOk};
ghost use Rattle.std.specs.List.{flat_map};
ghost use Rattle.report.specs.Archive.{Names, is_elsewhere, made_as, record_of};
ghost use Rattle.emu_model.specs.declared.records.Record.TheVariants.{PacketMade};
ghost use Rattle.report.specs.Lines.{is_common};
ghost use Rattle.report.specs.Rows as rows;

use crate::forward::put_bytes;
use crate::made::with_number;
use crate::packed::{Kind, Parts, cause_at, flow_of, number_of, parts_of, pipe_of};
use crate::reader::Reader;
use emu_model::{Counters, FlowNumber, Load, Origin, PipeNumber, Protocol, Record, SendSpec};
use itoa::Buffer;
use std::alloc::{AllocError, Global};
use unchecked::unreachable_unchecked;

/// The size of a row, in bytes.
pub const ROW: usize = 40;

/// The weights of the columns of a word.
const HALF: u64 = 4_294_967_296;

const PORT: u32 = 65_536;

/// The kinds of rows. Of three kinds for a packet, the first is of a plain packet, the second of a
/// segment, the third of an acknowledgement.
const DONE: u8 = 0;

const REFUSED: u8 = 1;

const INJECTED: u8 = 2;

const EMITTED: u8 = 3;

const SENT: u8 = 4;

const REPLIED: u8 = 5;

const IDENTIFIED: u8 = 6;

const ARRIVED: u8 = 7;

const FINISHED: u8 = 8;

const PASSED: u8 = 9;

const DELIVERED: u8 = 10;

const DROPPED: u8 = 13;

const WINDOW: u8 = 16;

const EXPIRED: u8 = 17;

const SPENT: u8 = 18;

const RULE: u8 = 19;

const PIPE: u8 = 20;

const INSTANCE: u8 = 21;

const COUNTERS: u8 = 22;

/// The columns of a row but the number of its experiment. Their meaning depends on the kind.
#[derive(Clone, Copy)]
pub struct Row {
    pub moment: u64,
    pub packet: u32,
    pub source: u32,
    pub number: u32,
    pub more: u32,
    pub src: u32,
    pub dst: u32,
    pub size: u16,
    pub pipe: u16,
    pub kind: u8,
    pub instance: u8,
    pub code: u8,
}

// Returns a number, or the largest of 32 bits if it has more.
#[inline(always)]
fn fitted(number: u64) -> u32
    ensures { result ≡ rows.fitted 32 number }
{
    number.min(u64::from(u32::MAX)) as u32
}

// Returns a row with nothing but a kind and a time (ns).
#[inline(always)]
fn row_at(kind: u8, moment: u64) -> Row
    ensures { result ≡ rows.row_at kind moment }
{
    Row {
        moment: moment.min(i64::MAX as u64),
        packet: 0,
        source: 0,
        number: 0,
        more: 0,
        src: 0,
        dst: 0,
        size: 0,
        pipe: 0,
        kind,
        instance: 0,
        code: 0,
    }
}

#[inline(always)]
fn command_row(kind: u8, moment: u64, command: u64) -> Row
    ensures { result ≡ rows.command_row kind moment command }
{
    Row {
        source: fitted(command),
        ..row_at(kind, moment)
    }
}

#[inline(always)]
fn instance_row(kind: u8, moment: u64, packet: u64, pipe: PipeNumber, instance: u8) -> Row
    ensures { result ≡ rows.instance_row kind moment packet pipe instance }
{
    Row {
        packet: fitted(packet),
        pipe: pipe.get(),
        instance,
        ..row_at(kind, moment)
    }
}

// Returns the row of a packet by its load; `first` is the kind of a plain packet.
#[inline(always)]
fn load_row(first: u8, moment: u64, packet: u64, load: Load) -> Row
    requires { first < 254 }
    ensures { result ≡ rows.load_row first moment packet load }
{
    let (kind, source, number) = match load {
        Load::Plain => (first, 0, 0),
        Load::Seg { flow, first: byte } => (first + 1, u32::from(flow.get()), fitted(byte)),
        Load::Ack { flow, upto } => (first + 2, u32::from(flow.get()), fitted(upto)),
    };
    Row {
        packet: fitted(packet),
        source,
        number,
        ..row_at(kind, moment)
    }
}

// Returns the row of a packet's creation, without its header.
fn origin_row(moment: u64, packet: u64, origin: Origin) -> Row
    ensures { result ≡ rows.origin_row moment packet origin }
{
    let (kind, source, number) = match origin {
        Origin::ByCommand(command) => (INJECTED, fitted(command), 0),
        Origin::ByTrain(train) => (EMITTED, u32::from(train.get()), 0),
        Origin::BySender { flow, first } => (SENT, u32::from(flow.get()), fitted(first)),
        Origin::ByReceiver { flow, upto } => (REPLIED, u32::from(flow.get()), fitted(upto)),
    };
    Row {
        packet: fitted(packet),
        source,
        number,
        ..row_at(kind, moment)
    }
}

#[inline(always)]
fn window_row(kind: u8, moment: u64, flow: FlowNumber, cwnd: u64, ssthresh: u64) -> Row
    ensures { result ≡ rows.window_row kind moment flow cwnd ssthresh }
{
    Row {
        source: u32::from(flow.get()),
        number: fitted(cwnd),
        more: fitted(ssthresh),
        ..row_at(kind, moment)
    }
}

fn ports_in_one(sport: u16, dport: u16) -> u32
    ensures { result ≡ rows.ports_in_one sport dport }
{
    u32::from(sport) + u32::from(dport) * PORT
}

fn ip_number(proto: Protocol) -> u8
    ensures { result ≡ rows.ip_number proto }
{
    match proto {
        Protocol::Tcp => 6,
        Protocol::Udp => 17,
    }
}

// Returns the row of a packet's creation.
#[inline(always)]
fn made_row(moment: u64, packet: u64, origin: Origin, header: &SendSpec) -> Row
    ensures { let h = header.now in
        result ≡ rows.row_of
        (PacketMade moment packet origin h.proto h.src h.sport h.dst h.dport h.size) }
{
    Row {
        more: ports_in_one(header.sport, header.dport),
        src: header.src,
        dst: header.dst,
        size: header.size.get(),
        code: ip_number(header.proto),
        ..origin_row(moment, packet, origin)
    }
}

// Returns the row of a record that isn't common.
fn row_of(entry: &Record) -> Row
    requires { is_common entry.now ≡ false }
    ensures { result ≡ rows.row_of entry.now }
{
    match *entry {
        Record::CommandRefused {
            moment,
            command,
            refusal,
        } => Row {
            code: refusal as u8,
            ..command_row(REFUSED, moment, command)
        },
        Record::PacketMade {
            moment,
            packet,
            origin,
            proto,
            src,
            sport,
            dst,
            dport,
            size,
        } => {
            let header = SendSpec {
                proto,
                src,
                sport,
                dst,
                dport,
                size,
            };
            made_row(moment, packet, origin, &header)
        }
        Record::InstanceIdentified {
            moment,
            pipe,
            instance,
            proto,
            src,
            dst,
            sport,
            dport,
        } => Row {
            more: ports_in_one(sport, dport),
            src,
            dst,
            pipe: pipe.get(),
            instance,
            code: proto,
            ..row_at(IDENTIFIED, moment)
        },
        Record::PacketDropped {
            moment,
            packet,
            load,
            cause,
        } => Row {
            code: number_of(cause),
            ..load_row(DROPPED, moment, packet, load)
        },
        Record::StepsSpent { moment } => row_at(SPENT, moment),
        Record::RuleLine {
            rule,
            packets,
            bytes,
        } => Row {
            source: rule.number.get(),
            number: fitted(packets),
            more: fitted(bytes),
            ..row_at(RULE, 0)
        },
        Record::PipeLine { pipe, .. } => Row {
            pipe: pipe.get(),
            ..row_at(PIPE, 0)
        },
        Record::InstanceLine {
            pipe,
            instance,
            waiting,
            bytes,
            busy,
            in_flight,
            drawn,
        } => Row {
            packet: fitted(in_flight),
            source: fitted(drawn),
            number: fitted(waiting),
            more: fitted(bytes),
            pipe: pipe.get(),
            instance,
            code: u8::from(busy),
            ..row_at(INSTANCE, 0)
        },
        _ => unreachable_unchecked!(),
    }
}

// Returns the word of two columns of 32 bits.
#[inline(always)]
fn joined(low: u32, high: u32) -> u64
    ensures { result ≡ low + high * 2 ^ 32 }
{
    u64::from(low) + u64::from(high) * HALF
}

// Returns the word of the short columns, and of the experiment's number.
#[inline(always)]
fn last_word(row: &Row, experiment: u8) -> u64
    ensures { let r = row.now in
        result ≡ r.size + r.pipe * 2 ^ 16 + r.kind * 2 ^ 32 + r.instance * 2 ^ 40
        + r.code * 2 ^ 48 + experiment * 2 ^ 56 }
{
    u64::from(row.size)
        + u64::from(row.pipe) * 65_536
        + u64::from(row.kind) * HALF
        + u64::from(row.instance) * 1_099_511_627_776
        + u64::from(row.code) * 281_474_976_710_656
        + u64::from(experiment) * 72_057_594_037_927_936
}

// Writes a row at a place.
#[tactic(auto, unfolding(crate::specs::Rows::row_bytes))]
#[inline(always)]
fn put_row(page: &mut [u8], at: usize, experiment: u8, row: Row)
    requires { at + 40 ≤ length page.old }
    ensures { take (at + 40) page.new ≡ take at page.old ++ rows.row_bytes experiment row }
{
    let last = last_word(&row, experiment);
    put_bytes(page, at, row.moment.to_le_bytes());
    put_bytes(page, at + 8, joined(row.packet, row.source).to_le_bytes());
    put_bytes(page, at + 16, joined(row.number, row.more).to_le_bytes());
    put_bytes(page, at + 24, joined(row.src, row.dst).to_le_bytes());
    put_bytes(page, at + 32, last.to_le_bytes());
}

/// Writes the row of a record at a place.
#[inline(never)]
pub(crate) fn put_whole(page: &mut [u8], at: usize, experiment: u8, entry: &Record)
    requires { at + 40 ≤ length page.old }
    ensures { take (at + 40) page.new ≡ take at page.old ++ rows.record_bytes experiment entry.now }
{
    let Some(parts) = parts_of(entry) else {
        return put_row(page, at, experiment, row_of(entry));
    };
    if !put_parts(page, at, experiment, parts) {
        unreachable_unchecked!()
    }
}

/// Writes the row of a packet that was created as another one, with the number, the time and the
/// packet in these parts.
#[inline(always)]
pub(crate) fn put_made(page: &mut [u8], at: usize, experiment: u8, first: &Record, parts: Parts)
    requires { at + 40 ≤ length page.old }
    ensures { take (at + 40) page.new ≡ take at page.old
        ++ rows.record_bytes experiment (made_as first.now parts) }
{
    let Record::PacketMade {
        origin,
        proto,
        src,
        sport,
        dst,
        dport,
        size,
        ..
    } = *first
    else {
        return put_whole(page, at, experiment, first);
    };
    let header = SendSpec {
        proto,
        src,
        sport,
        dst,
        dport,
        size,
    };
    let origin = with_number(origin, parts.number);
    let row = made_row(parts.moment, parts.packet, origin, &header);
    put_row(page, at, experiment, row);
}

// Writes the row of an event of a packet at an instance.
#[inline(always)]
fn put_instance(page: &mut [u8], at: usize, experiment: u8, kind: u8, parts: Parts)
    requires room { at + 40 ≤ length page.old }
    requires names { (0 < parts.tag) × (parts.number < 256) }
    ensures { let p = parts in take (at + 40) page.new ≡ take at page.old
        ++ rows.row_bytes experiment (rows.instance_row kind p.moment p.packet p.tag p.number) }
{
    let (pipe, instance) = (pipe_of(parts.tag), parts.number as u8);
    let row = instance_row(kind, parts.moment, parts.packet, pipe, instance);
    put_row(page, at, experiment, row);
}

// Writes the row of a delivery.
#[inline(always)]
fn put_delivery(page: &mut [u8], at: usize, experiment: u8, parts: Parts, load: Load)
    requires { at + 40 ≤ length page.old }
    ensures { take (at + 40) page.new ≡ take at page.old
        ++ rows.row_bytes experiment (rows.load_row 10 parts.moment parts.packet load) }
{
    let row = load_row(DELIVERED, parts.moment, parts.packet, load);
    put_row(page, at, experiment, row);
}

// Writes the row of a sender's window.
#[inline(always)]
fn put_window(page: &mut [u8], at: usize, experiment: u8, kind: u8, parts: Parts)
    requires room { at + 40 ≤ length page.old }
    requires names { 0 < parts.tag }
    ensures { let p = parts in take (at + 40) page.new ≡ take at page.old
        ++ rows.row_bytes experiment (rows.window_row kind p.moment p.tag p.packet p.number) }
{
    let flow = flow_of(parts.tag);
    let row = window_row(kind, parts.moment, flow, parts.packet, parts.number);
    put_row(page, at, experiment, row);
}

/// Writes the row of a common record at a place, and returns true, or does nothing and returns false
/// if the record is stored elsewhere. Each kind writes its own row, so that the columns that it
/// doesn't use cost nothing.
#[inline(always)]
pub(crate) fn put_parts(page: &mut [u8], at: usize, experiment: u8, parts: Parts) -> bool
    requires room { at + 40 ≤ length page.old }
    requires names { is_elsewhere parts.kind ≡ false → Names parts.kind parts.tag parts.number }
    ensures written { result ≡ true → (is_elsewhere parts.kind ≡ false)
        × (take (at + 40) page.new ≡ take at page.old
        ++ rows.record_bytes experiment (record_of parts)) }
    ensures left { result ≡ false → (is_elsewhere parts.kind ≡ true) × (page.new ≡ page.old) }
{
    match parts.kind {
        Kind::Whole | Kind::Made | Kind::Entered => return false,
        Kind::Finished => put_instance(page, at, experiment, FINISHED, parts),
        Kind::Segment => {
            let load = Load::Seg {
                flow: flow_of(parts.tag),
                first: parts.number,
            };
            put_delivery(page, at, experiment, parts, load);
        }
        Kind::Acknowledged => {
            let load = Load::Ack {
                flow: flow_of(parts.tag),
                upto: parts.number,
            };
            put_delivery(page, at, experiment, parts, load);
        }
        Kind::Delivered => put_delivery(page, at, experiment, parts, Load::Plain),
        Kind::Window => put_window(page, at, experiment, WINDOW, parts),
        Kind::Expired => put_window(page, at, experiment, EXPIRED, parts),
        Kind::Dropped => {
            let row = Row {
                code: number_of(cause_at(parts.tag)),
                ..load_row(DROPPED, parts.moment, parts.packet, Load::Plain)
            };
            put_row(page, at, experiment, row);
        }
        Kind::Arrived => put_instance(page, at, experiment, ARRIVED, parts),
        Kind::Passed => put_instance(page, at, experiment, PASSED, parts),
        Kind::Done => {
            let row = command_row(DONE, parts.moment, parts.number);
            put_row(page, at, experiment, row);
        }
    }
    true
}

/// Writes the rows of the next records, as many as the page holds, and returns their number.
pub fn put_rows(page: &mut [u8], records: &mut Reader<'_>, experiment: u8) -> usize
    requires left { 0 < length records.old }
    requires room { 40 ≤ length page.old }
    ensures count { (0 < result) × (result ≤ length records.old) }
    ensures left { records.new ≡ drop result records.old }
    ensures room { (result * 40 ≤ length page.new) × (length page.new ≡ length page.old) }
    ensures rows { take (result * 40) page.new
        ≡ flat_map (rows.record_bytes experiment) (take result records.old) }
{
    let most = page.len() / ROW;
    let mut done = 0;
    while done < most && records.put_row(page, done * ROW, experiment) {
        done += 1;
    }
    done
}

/// Writes the row of an experiment's counters at the beginning of a page.
pub fn put_counters(page: &mut [u8], counters: &Counters, experiment: u8)
    requires { 40 ≤ length page.old }
    ensures room { length page.new ≡ length page.old }
    ensures row { take 40 page.new ≡ rows.row_bytes experiment (rows.counters_row counters.now) }
{
    let row = Row {
        packet: fitted(counters.made),
        source: fitted(counters.held),
        number: fitted(counters.delivered),
        ..row_at(COUNTERS, 0)
    };
    put_row(page, 0, experiment, row);
}

const COLUMNS: &[u8] =
    b"{'descr': [('moment','<i8'),('packet','<u4'),('source','<u4'),('number','<u4'),('more','<u4'),('src','<u4'),('dst','<u4'),('size','<u2'),('pipe','<u2'),('kind','u1'),('instance','u1'),('code','u1'),('experiment','u1')], 'fortran_order': False, 'shape': (";

// Appends the names and types of the columns.
#[tactic(auto, unfolding(crate::specs::Rows::columns))]
fn append_columns(header: &mut Vec<u8>) -> Result<(), AllocError>
    ensures { OnOk result (header.new.items ≡ header.old.items ++ rows.columns) }
{
    header.extend_from_slice(COLUMNS)
}

/// Returns the header for `count` rows, in NumPy's format .npy 1.0: 512 bytes. Fails with
/// `AllocError` if memory runs out.
pub fn npy_header(alloc: Global, count: u64) -> Result<Vec<u8>, AllocError>
    ensures { IfOk result (λ h. h.items ≡ rows.npy_header count) }
{
    let mut header = Vec::new(alloc);
    header.extend_from_slice(b"\x93NUMPY\x01\x00\xf6\x01")?;
    append_columns(&mut header)?;
    let mut digits = Buffer::new();
    header.extend_from_slice(digits.format(count).as_bytes())?;
    header.extend_from_slice(b",), }")?;
    header.resize(511, b' ')?;
    header.push(b'\n')?;
    Ok(header)
}
