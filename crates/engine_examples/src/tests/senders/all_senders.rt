ghost use Rattle.std.specs.Prelude.{◌≡◌, ◌*◌, ◌<◌};
ghost use Rattle.emu_model.specs.Moments.{IsMoment};
ghost use Rattle.emu_model.specs.Dues.{due};

use crate::tests::wants::{assert_same, assert_with_message};
use emu_model::{
    Amount, Class, Due, FlowNumber, FlowSpec, Gap, Load, Origin, Protocol, Refusal, SegmentSize,
    SendSpec, Size, Source, Threshold, Timing, TrainSpec, Window as Offered,
};
use sources::{Sending, Traffic, Window};
use std::process::Abort;

/// One millisecond (ns).
const MS: u64 = 1_000_000;

fn number(rt: &impl Abort, n: u16) -> FlowNumber {
    FlowNumber::new(n).expect(rt, "a number")
}

/// Returns the flow of the worked examples: four segments of 1460 bytes.
fn four_segments() -> Option<FlowSpec> {
    Some(FlowSpec {
        src: 0x0a000001,
        sport: 1000,
        dst: 0x0a000002,
        dport: 80,
        smss: SegmentSize::new(1460)?,
        segments: Amount::new(4)?,
        ssthresh: Threshold::new(65535)?,
        rwnd: Offered::new(65535)?,
        timing: Timing::Adaptive,
    })
}

/// Returns the train of the worked example: three packets of 1000 bytes, 5 ns apart.
fn three_packets() -> Option<TrainSpec> {
    Some(TrainSpec {
        packet: SendSpec {
            proto: Protocol::Udp,
            src: 0x0a000001,
            sport: 1000,
            dst: 0x0a000002,
            dport: 2000,
            size: Size::new(1000)?,
        },
        count: Amount::new(3)?,
        gap: Gap::new(5)?,
    })
}

/// Begins a flow, and retries once if an allocation fails, after which it must not exist.
fn begins_flow(traffic: &mut Traffic, n: u16) -> bool {
    let (Some(number), Some(flow)) = (FlowNumber::new(n), four_segments()) else {
        return false;
    };
    let None = traffic.refusal(number) else {
        return false;
    };
    if traffic.start_flow(number, &flow).is_ok() {
        return traffic.has_flow(number);
    }
    let None = traffic.refusal(number) else {
        return false;
    };
    traffic.start_flow(number, &flow).is_ok()
}

/// Begins a train, and retries in the same way.
fn begins_train(traffic: &mut Traffic, now: u64, n: u16) -> bool
    requires early { IsMoment now }
{
    let (Some(number), Some(train)) = (FlowNumber::new(n), three_packets()) else {
        return false;
    };
    let None = traffic.refusal(number) else {
        return false;
    };
    if traffic.start_train(now, number, &train).is_ok() {
        return traffic.find(number).is_some();
    }
    let None = traffic.refusal(number) else {
        return false;
    };
    traffic.start_train(now, number, &train).is_ok()
}

/// Returns a command at a time, which is before everything that is due later.
fn command(moment: u64) -> Due
    ensures { result ≡ due Class.NextCommand 0 moment }
{
    Due {
        moment,
        source: Source {
            class: Class::NextCommand,
            number: 0,
        },
    }
}

fn due_of(class: Class, number: u32, moment: u64) -> Due {
    Due {
        moment,
        source: Source { class, number },
    }
}

/// Returns what is sent next, if that is before another time.
fn sends(traffic: &mut Traffic, now: u64, end: u64) -> Option<Sending>
    requires early { IsMoment now }
{
    let due = traffic.earliest(now, command(end));
    let Class::Emission = due.source.class else {
        return None;
    };
    let number = FlowNumber::new(due.source.number as u16)?;
    let found = traffic.find(number)?;
    let send = traffic.header_at(&found);
    let origin = traffic.emit_at(now, &found);
    Some(Sending { origin, send })
}

/// Returns the source and the destination, each with its port.
fn ends_of(send: SendSpec) -> (u32, u16, u32, u16) {
    (send.src, send.sport, send.dst, send.dport)
}

/// Returns the flow and the first byte of a segment.
fn segment_in(load: Load) -> Option<(u16, u64)> {
    match load {
        Load::Seg { flow, first } => Some((flow.get(), first)),
        _ => None,
    }
}

/// Checks that the segment of flow 1 that begins at this byte is sent.
fn sends_segment(rt: &impl Abort, traffic: &mut Traffic, now: u64, first: u64)
    requires early { IsMoment now }
{
    let sent = sends(traffic, now, now.saturating_add(1)).expect(rt, "a segment");
    assert_same(rt, ends_of(sent.send), (0x0a000001, 1000, 0x0a000002, 80));
    assert_same(rt, sent.send.size.get(), 1500);
    assert_same(rt, segment_in(sent.origin.load()), Some((1, first)));
}

/// Checks that exactly the segments that begin at these bytes are sent.
fn sends_segments(rt: &impl Abort, traffic: &mut Traffic, now: u64, firsts: &[u64])
    requires early { IsMoment now }
{
    for first in firsts {
        sends_segment(rt, traffic, now, *first);
    }
    let more = sends(traffic, now, now.saturating_add(1));
    assert_same(rt, (now, more.is_none()), (now, true));
}

/// Returns the acknowledgement of a segment, and retries once if an allocation fails.
fn answers(traffic: &mut Traffic, n: u16, first: u64) -> Option<Sending> {
    let number = FlowNumber::new(n)?;
    if traffic.take_ready(number, first).is_err() {
        traffic.take_ready(number, first).ok()?;
    }
    traffic.take(number, first)
}

/// Returns the flow and the byte that is acknowledged.
fn acknowledged_in(load: Load) -> Option<(u16, u64)> {
    match load {
        Load::Ack { flow, upto } => Some((flow.get(), upto)),
        _ => None,
    }
}

fn answers_upto(rt: &impl Abort, traffic: &mut Traffic, first: u64, upto: u64) {
    let answer = answers(traffic, 1, first).expect(rt, "an answer");
    assert_same(rt, ends_of(answer.send), (0x0a000002, 80, 0x0a000001, 1000));
    assert_same(rt, answer.send.size.get(), 40);
    assert_same(rt, acknowledged_in(answer.origin.load()), Some((1, upto)));
}

fn windows(rt: &impl Abort, window: Option<Window>, wanted: (u64, u64)) {
    let window = window.expect(rt, "windows");
    assert_same(rt, (window.cwnd, window.ssthresh), wanted);
}

fn flow_begins(rt: &impl Abort, traffic: &mut Traffic, n: u16) {
    assert_same(rt, (n, begins_flow(traffic, n)), (n, true));
}

fn train_begins(rt: &impl Abort, traffic: &mut Traffic, now: u64, n: u16)
    requires early { IsMoment now }
{
    assert_same(rt, (n, begins_train(traffic, now, n)), (n, true));
}

/// Checks that a timer with this number and this time is due next, before a command.
fn timer_is_next(rt: &impl Abort, traffic: &Traffic, now: u64, end: u64, wanted: (u32, u64)) {
    let due = traffic.earliest(now, command(end));
    assert_with_message(rt, due.source.class == Class::Expiry, "a timer");
    assert_same(rt, (due.source.number, due.moment), wanted);
}

/// Checks that nothing is due before a command.
fn command_is_next(rt: &impl Abort, traffic: &Traffic, now: u64, end: u64) {
    let due = traffic.earliest(now, command(end));
    assert_with_message(rt, due.source.class == Class::NextCommand, "no timer runs");
}

// Checks the example of four segments over 10 ms in each direction against its report.
#[test]
fn four_segments_are_sent_and_answered(rt: HostRuntime) {
    let one = number(&rt, 1);
    let mut traffic = Traffic::new(rt.alloc());
    flow_begins(&rt, &mut traffic, 1);
    sends_segments(&rt, &mut traffic, 0, &[0, 1460, 2920]);
    answers_upto(&rt, &mut traffic, 0, 1460);
    answers_upto(&rt, &mut traffic, 1460, 2920);
    answers_upto(&rt, &mut traffic, 2920, 4380);
    windows(&rt, traffic.take_ack(21_200_000, one, 1460), (5840, 65535));
    sends_segments(&rt, &mut traffic, 21_200_000, &[4380]);
    windows(&rt, traffic.take_ack(22_400_000, one, 2920), (7300, 65535));
    windows(&rt, traffic.take_ack(23_600_000, one, 4380), (8760, 65535));
    answers_upto(&rt, &mut traffic, 4380, 5840);
    windows(&rt, traffic.take_ack(42_400_000, one, 5840), (10220, 65535));
    command_is_next(&rt, &traffic, 42_400_000, 100 * MS);
    drop(traffic);
}

// Checks the example of a flow that is stopped between its first and its second acknowledgement.
#[test]
fn stopped_flow_answers_and_sends_nothing(rt: HostRuntime) {
    let one = number(&rt, 1);
    let mut traffic = Traffic::new(rt.alloc());
    flow_begins(&rt, &mut traffic, 1);
    sends_segments(&rt, &mut traffic, 0, &[0, 1460, 2920]);
    windows(&rt, traffic.take_ack(21_200_000, one, 1460), (5840, 65535));
    traffic.stop(one);
    sends_segments(&rt, &mut traffic, 21_300_000, &[]);
    assert_with_message(
        &rt,
        traffic.take_ack(22_400_000, one, 2920).is_none(),
        "it is stopped",
    );
    answers_upto(&rt, &mut traffic, 0, 1460);
    assert_with_message(&rt, traffic.has_flow(one), "it is there");
    assert_with_message(
        &rt,
        traffic.refusal(one) == Some(Refusal::FlowThere),
        "its number is in use",
    );
    drop(traffic);
}

// Checks that one segment is left at the beginning of slow start, and that the timeout of one
// second is doubled.
#[test]
fn timer_expires(rt: HostRuntime) {
    let one = number(&rt, 1);
    let mut traffic = Traffic::new(rt.alloc());
    flow_begins(&rt, &mut traffic, 1);
    sends_segments(&rt, &mut traffic, 0, &[0, 1460, 2920]);
    timer_is_next(&rt, &traffic, 0, 2000 * MS, (1, 1000 * MS));
    windows(&rt, traffic.expire(1000 * MS, one), (1460, 2920));
    sends_segments(&rt, &mut traffic, 1000 * MS, &[0]);
    timer_is_next(&rt, &traffic, 1000 * MS, 9000 * MS, (1, 3000 * MS));
    drop(traffic);
}

/// Returns the flow that sends a segment now, if any.
fn sender(traffic: &mut Traffic, now: u64) -> Option<u16>
    requires early { IsMoment now }
{
    let sent = sends(traffic, now, now + 1)?;
    let (flow, _) = segment_in(sent.origin.load())?;
    Some(flow)
}

/// Checks that this flow sends three segments now.
fn three_of(rt: &impl Abort, traffic: &mut Traffic, now: u64, n: u16)
    requires early { IsMoment now }
{
    for _ in 0..3 {
        assert_same(rt, (now, sender(traffic, now)), (now, Some(n)));
    }
}

/// Checks that the timer of a flow that sent first at this time is next, and stops the flow.
fn timer_goes(rt: &impl Abort, traffic: &mut Traffic, now: u64, n: u16)
    requires early { IsMoment now }
{
    timer_is_next(rt, traffic, 6, 9000 * MS, (u32::from(n), now + 1000 * MS));
    traffic.stop(number(rt, n));
}

// Checks that of the flows that may send, the one with the smallest number sends, whichever began
// first. Their first timers expire after a second, and a stopped flow has none.
#[test]
fn least_number_sends_and_first_timer_expires(rt: HostRuntime) {
    let mut traffic = Traffic::new(rt.alloc());
    for n in [9, 2, 5] {
        flow_begins(&rt, &mut traffic, n);
    }
    for (now, n) in [(3, 2), (4, 5), (6, 9)] {
        three_of(&rt, &mut traffic, now, n);
    }
    assert_same(&rt, sender(&mut traffic, 6), None);
    for (now, n) in [(3, 2), (4, 5), (6, 9)] {
        timer_goes(&rt, &mut traffic, now, n);
    }
    command_is_next(&rt, &traffic, 6, 9000 * MS);
    drop(traffic);
}

/// Returns the header of the next packet that is sent.
fn header_of(traffic: &Traffic, number: FlowNumber) -> Option<SendSpec> {
    let found = traffic.find(number)?;
    Some(traffic.header_at(&found))
}

/// Returns true if a packet of 1000 bytes with this header was sent by a train.
fn is_thousand(sent: Option<Sending>, header: Option<SendSpec>, train: FlowNumber) -> bool {
    let Some(Sending { origin, send }) = sent else {
        return false;
    };
    let size = send.size.get();
    header == Some(send) && origin == Origin::ByTrain(train) && size == 1000
}

/// Checks that a packet of a train, whose number is the smallest, is due and sent now.
fn thousand_is_sent(rt: &impl Abort, traffic: &mut Traffic, now: u64, number: FlowNumber)
    requires early { IsMoment now }
{
    let due = traffic.earliest(now, command(20));
    let number_of = u32::from(number.get());
    assert_same(rt, (due.moment, due.source.number), (now, number_of));
    let header = header_of(traffic, number);
    let sent = sends(traffic, now, 20);
    assert_same(rt, (now, is_thousand(sent, header, number)), (now, true));
}

// Checks the example of a train of three packets, 5 ns apart.
#[test]
fn train_sends_its_packets(rt: HostRuntime) {
    let one = number(&rt, 1);
    let mut traffic = Traffic::new(rt.alloc());
    train_begins(&rt, &mut traffic, 0, 1);
    for now in [0, 5, 10] {
        thousand_is_sent(&rt, &mut traffic, now, one);
    }
    assert_with_message(&rt, sends(&mut traffic, 10, 20).is_none(), "three are all");
    traffic.stop(one);
    assert_with_message(&rt, !traffic.has_flow(one), "it is no flow");
    assert_with_message(&rt, traffic.reply(one).is_none(), "it has no receiver");
    drop(traffic);
}

fn refuses(rt: &impl Abort, traffic: &Traffic, n: u16, wanted: Refusal) {
    let refusal = traffic.refusal(number(rt, n));
    assert_same(rt, (n, refusal == Some(wanted)), (n, true));
}

// Checks that flows and trains share one set of numbers, and the limit of 256.
#[test]
fn sources_are_refused_in_order(rt: HostRuntime) {
    let mut traffic = Traffic::new(rt.alloc());
    flow_begins(&rt, &mut traffic, 1);
    for n in 2..257 {
        train_begins(&rt, &mut traffic, 0, n);
    }
    refuses(&rt, &traffic, 1, Refusal::FlowThere);
    refuses(&rt, &traffic, 256, Refusal::FlowThere);
    refuses(&rt, &traffic, 257, Refusal::TooManyFlows);
    drop(traffic);
}

// Checks that a flow's timer, its segment, and a train's packet are in this order.
#[test]
fn dues_stand_in_order(rt: HostRuntime) {
    let mut traffic = Traffic::new(rt.alloc());
    flow_begins(&rt, &mut traffic, 1);
    train_begins(&rt, &mut traffic, 7, 2);
    let sent = sends(&mut traffic, 3, 4);
    assert_with_message(&rt, sent.is_some(), "a segment");
    let mut dues = Vec::new(rt.alloc());
    let added = traffic.add_dues(9, &mut dues).is_ok();
    assert_with_message(&rt, added, "memory");
    let wanted = [
        due_of(Class::Expiry, 1, 3 + 1000 * MS),
        due_of(Class::Emission, 1, 9),
        due_of(Class::Emission, 2, 7),
    ];
    assert_holds!(&rt; dues[..] == wanted[..]);
    drop(traffic);
}

/// Checks the start of flows. Passes with ample memory, and if any one allocation fails.
#[test]
fn start_flow_may_be_refused_memory(rt: HostRuntime) {
    let mut traffic = Traffic::new(rt.alloc());
    for n in 1..20 {
        flow_begins(&rt, &mut traffic, n);
    }
    drop(traffic);
}

#[test]
fn start_train_may_be_refused_memory(rt: HostRuntime) {
    let mut traffic = Traffic::new(rt.alloc());
    for n in 1..20 {
        train_begins(&rt, &mut traffic, 0, n);
    }
    drop(traffic);
}

/// Lets segments after a gap arrive, and then the missing one.
#[test]
fn take_ready_may_be_refused_memory(rt: HostRuntime) {
    let mut traffic = Traffic::new(rt.alloc());
    flow_begins(&rt, &mut traffic, 1);
    for n in 1..20 {
        answers_upto(&rt, &mut traffic, 1460 * n, 0);
    }
    answers_upto(&rt, &mut traffic, 0, 29200);
    drop(traffic);
}

/// Adds the dues, and retries once if an allocation fails, after which the list must be unchanged.
fn adds_dues(rt: &impl Abort, traffic: &Traffic, dues: &mut Vec<Due>) {
    let before = dues.len();
    if traffic.add_dues(0, dues).is_err() {
        assert_same(rt, dues.len(), before);
        assert_with_message(rt, traffic.add_dues(0, dues).is_ok(), "at the second try");
    }
}

/// Checks that a failed allocation leaves the list unchanged.
#[test]
fn add_dues_may_be_refused_memory(rt: HostRuntime) {
    let mut traffic = Traffic::new(rt.alloc());
    flow_begins(&rt, &mut traffic, 1);
    let mut dues = Vec::new(rt.alloc());
    for n in 1..9 {
        adds_dues(&rt, &traffic, &mut dues);
        assert_same(&rt, dues.len(), n);
    }
    drop(traffic);
}
