ghost use Rattle.std.specs.Prelude.{◌*◌, ◌<◌};
ghost use Rattle.emu_model.specs.Moments.{IsMoment};

use crate::tests::wants::{assert_same, assert_with_message};
use emu_model::{Amount, FlowSpec, SegmentSize, Threshold, Timeout, Timing, Window};
use reno_core::{Receiver, Sender};
use std::process::Abort;

fn segment_size(rt: &impl Abort, bytes: u16) -> SegmentSize {
    SegmentSize::new(bytes).expect(rt, "a segment size")
}

fn fixed_timing(rt: &impl Abort, milliseconds: u16) -> Timing {
    Timing::Fixed(Timeout::new(milliseconds).expect(rt, "a time"))
}

fn sender(rt: &impl Abort, smss: u16, segments: u32, ssthresh: u32, timing: Timing) -> Sender {
    Sender::new(FlowSpec {
        src: 0x0a000001,
        sport: 1000,
        dst: 0x0a000002,
        dport: 80,
        smss: segment_size(rt, smss),
        segments: Amount::new(segments).expect(rt, "a count"),
        ssthresh: Threshold::new(ssthresh).expect(rt, "a threshold"),
        rwnd: Window::new(65535).expect(rt, "a window"),
        timing,
    })
}

/// Sends a segment if one may be sent, and returns its first byte.
fn sent(sender: &mut Sender, now: u64) -> Option<u64>
    requires early { IsMoment now }
{
    if !sender.may_emit() {
        return None;
    }
    Some(sender.emit(now))
}

/// Checks that exactly the segments that begin at these bytes are sent.
fn sends(rt: &impl Abort, sender: &mut Sender, now: u64, firsts: &[u64])
    requires early { IsMoment now }
{
    for first in firsts {
        assert_same(rt, sent(sender, now), Some(*first));
    }
    assert_with_message(rt, !sender.may_emit(), "no more");
}

/// Checks cwnd and ssthresh after an acknowledgement.
fn check_ack(rt: &impl Abort, sender: &mut Sender, now: u64, upto: u64, wanted: (u64, u64))
    requires early { IsMoment now }
{
    sender.ack(now, upto);
    let windows = (upto, sender.cwnd(), sender.ssthresh());
    assert_same(rt, windows, (upto, wanted.0, wanted.1));
}

/// Checks cwnd and ssthresh after an expiry.
fn check_expiry(rt: &impl Abort, sender: &mut Sender, now: u64, wanted: (u64, u64))
    requires early { IsMoment now }
{
    sender.expire(now);
    let windows = (now, sender.cwnd(), sender.ssthresh());
    assert_same(rt, windows, (now, wanted.0, wanted.1));
}

fn due_at(rt: &impl Abort, sender: &Sender, wanted: Option<u64>) {
    assert_same(rt, sender.due(), wanted);
}

#[test]
fn adaptive_times_follow_samples(rt: HostRuntime) {
    let mut adaptive = sender(&rt, 1000, 100, 65535, Timing::Adaptive);
    sends(&rt, &mut adaptive, 0, &[0, 1000, 2000, 3000]);
    due_at(&rt, &adaptive, Some(1_000_000_000));
    check_ack(&rt, &mut adaptive, 800_000_000, 1000, (5000, 65535));
    due_at(&rt, &adaptive, Some(3_200_000_000));
    sends(&rt, &mut adaptive, 1_000_000_000, &[4000, 5000]);
    check_ack(&rt, &mut adaptive, 1_400_000_000, 5000, (6000, 65535));
    due_at(&rt, &adaptive, Some(3_750_000_000));
    check_expiry(&rt, &mut adaptive, 3_750_000_000, (1000, 2000));
    due_at(&rt, &adaptive, Some(8_450_000_000));
}

#[test]
fn adaptive_times_are_one_second_at_least(rt: HostRuntime) {
    let mut quick = sender(&rt, 1000, 100, 65535, Timing::Adaptive);
    sends(&rt, &mut quick, 0, &[0, 1000, 2000, 3000]);
    check_ack(&rt, &mut quick, 1, 1000, (5000, 65535));
    due_at(&rt, &quick, Some(1_000_000_001));
}

#[test]
fn slow_start_adds_a_segment(rt: HostRuntime) {
    let mut slow = sender(&rt, 1460, 4, 65535, fixed_timing(&rt, 1000));
    assert_same(&rt, slow.cwnd(), 4380);
    sends(&rt, &mut slow, 0, &[0, 1460, 2920]);
    due_at(&rt, &slow, Some(1_000_000_000));
    check_ack(&rt, &mut slow, 10, 1460, (5840, 65535));
    due_at(&rt, &slow, Some(1_000_000_010));
    sends(&rt, &mut slow, 20, &[4380]);
    for (upto, cwnd) in [(2920, 7300), (4380, 8760), (5840, 10220), (5840, 10220)] {
        check_ack(&rt, &mut slow, 30, upto, (cwnd, 65535));
    }
    due_at(&rt, &slow, None);
}

#[test]
fn third_duplicate_sends_again(rt: HostRuntime) {
    let mut fast = sender(&rt, 1000, 8, 4000, fixed_timing(&rt, 1000));
    sends(&rt, &mut fast, 0, &[0, 1000, 2000, 3000]);
    for (upto, cwnd, next) in [
        (1000, 4250, 4000),
        (2000, 4485, 5000),
        (3000, 4707, 6000),
        (4000, 4919, 7000),
    ] {
        check_ack(&rt, &mut fast, 10, upto, (cwnd, 4000));
        sends(&rt, &mut fast, 10, &[next]);
    }
    for wanted in [(4919, 4000), (4919, 4000), (5000, 2000)] {
        check_ack(&rt, &mut fast, 20, 4000, wanted);
    }
    sends(&rt, &mut fast, 20, &[4000]);
    check_ack(&rt, &mut fast, 30, 8000, (2000, 2000));
}

// Checks the threshold after a second expiry. Duplicate acknowledgements let new segments through
// after the first expiry, so 10 segments are in flight at the second; half of them would be 5000.
#[test]
fn second_expiry_holds_the_threshold(rt: HostRuntime) {
    let mut late = sender(&rt, 1000, 20, 65535, fixed_timing(&rt, 1000));
    sends(&rt, &mut late, 0, &[0, 1000, 2000, 3000]);
    for (upto, cwnd) in [(1000, 5000), (2000, 6000), (3000, 7000), (4000, 8000)] {
        check_ack(&rt, &mut late, 20_000_000, upto, (cwnd, 65535));
    }
    let eight = [4000, 5000, 6000, 7000, 8000, 9000, 10000, 11000];
    sends(&rt, &mut late, 20_000_000, &eight);
    check_expiry(&rt, &mut late, 1_020_000_000, (1000, 4000));
    due_at(&rt, &late, Some(3_020_000_000));
    sends(&rt, &mut late, 1_020_000_000, &[4000]);
    for cwnd in [1000, 1000, 7000] {
        check_ack(&rt, &mut late, 1_030_000_000, 4000, (cwnd, 4000));
    }
    let again = [4000, 5000, 6000, 7000, 8000, 9000, 10000];
    sends(&rt, &mut late, 1_030_000_000, &again);
    for cwnd in [8000, 9000, 10000] {
        check_ack(&rt, &mut late, 1_040_000_000, 4000, (cwnd, 4000));
    }
    sends(&rt, &mut late, 1_040_000_000, &[11000, 12000, 13000]);
    check_expiry(&rt, &mut late, 3_020_000_000, (1000, 4000));
    due_at(&rt, &late, Some(7_020_000_000));
    check_ack(&rt, &mut late, 7_000_000_000, 14000, (2000, 4000));
    sends(&rt, &mut late, 7_000_000_000, &[14000, 15000]);
    due_at(&rt, &late, Some(8_000_000_000));
}

/// Checks that a segment after `take_ready` is acknowledged up to `wanted`.
fn takes(rt: &impl Abort, receiver: &mut Receiver, first: u64, wanted: u64) {
    assert_with_message(rt, receiver.take_ready(first).is_ok(), "memory");
    assert_same(rt, (first, receiver.take(first)), (first, Ok(wanted)));
}

#[test]
fn receiver_acknowledges_the_first_gap(rt: HostRuntime) {
    let mut receiver = Receiver::new(rt.alloc(), segment_size(&rt, 1000));
    for (first, wanted) in [(0, 1000), (2000, 1000), (1000, 3000), (2000, 3000)] {
        takes(&rt, &mut receiver, first, wanted);
    }
}

/// Checks that a failed call leaves the receiver unchanged, of whose segments only the first has
/// arrived without a gap, and that a segment after `take_ready` can't fail.
fn comes_behind_a_gap(rt: &impl Abort, receiver: &mut Receiver, first: u64) {
    if receiver.take(first).is_ok() {
        return;
    }
    assert_same(rt, receiver.take(0), Ok(64));
    if receiver.take_ready(first).is_ok() {
        assert_same(rt, receiver.take(first), Ok(64));
    }
}

/// Checks that failed segments change nothing, with every second segment first. Only a run in which
/// an allocation fails shows it.
#[test]
fn refused_segments_change_nothing(rt: HostRuntime) {
    let mut receiver = Receiver::new(rt.alloc(), segment_size(&rt, 64));
    assert_same(&rt, receiver.take(0), Ok(64));
    for place in 1..40u64 {
        comes_behind_a_gap(&rt, &mut receiver, 128 * place);
    }
    for place in 0..39u64 {
        assert_same(&rt, receiver.take(128 * place + 64), Ok(128 * place + 192));
    }
}
