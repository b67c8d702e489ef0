ghost use Rattle.emu_model.specs.Moments.{IsMoment};

use crate::tests::wants::assert_same;
use emu_model::{Bandwidth, Delay, Size};
use link_core::{DelayLine, RateServer};
use std::process::Abort;

fn rate(rt: &impl Abort, bits: u64) -> Bandwidth {
    Bandwidth::new(bits).expect(rt, "a rate")
}

fn bytes(rt: &impl Abort, count: u16) -> Size {
    Size::new(count).expect(rt, "a size")
}

fn milliseconds(rt: &impl Abort, count: u16) -> Delay {
    Delay::new(count).expect(rt, "a delay")
}

#[test]
fn period_is_rounded_once(rt: HostRuntime) {
    let size = bytes(&rt, 1000);
    let mut server = RateServer::new(rate(&rt, 3_000_000));
    assert_same(&rt, server.due(), None);
    server.start(0, size);
    assert_same(&rt, server.due(), Some(2_666_667));
    server.follow(size);
    assert_same(&rt, server.due(), Some(5_333_334));
    server.follow(size);
    assert_same(&rt, server.due(), Some(8_000_000));
    server.rest();
    assert_same(&rt, server.due(), None);
    server.follow(size);
    assert_same(&rt, server.due(), None);
}

#[test]
fn new_rate_waits_for_packet_in_service(rt: HostRuntime) {
    let size = bytes(&rt, 1000);
    let mut server = RateServer::new(rate(&rt, 1_000_000));
    server.start(0, size);
    assert_same(&rt, server.due(), Some(8_000_000));
    server.configure(rate(&rt, 2_000_000));
    assert_same(&rt, server.due(), Some(8_000_000));
    server.follow(size);
    assert_same(&rt, server.due(), Some(12_000_000));
}

#[test]
fn unlimited_rate_takes_no_time(rt: HostRuntime) {
    let mut server = RateServer::new(rate(&rt, 0));
    server.start(7, bytes(&rt, 1500));
    assert_same(&rt, server.due(), Some(7));
    server.follow(bytes(&rt, 40));
    assert_same(&rt, server.due(), Some(7));
}

/// Returns the due of the next item in flight, and the item, which leaves.
fn next(line: &mut DelayLine<u8>) -> (Option<u64>, Option<u8>) {
    (line.due(), line.leave())
}

fn enters(rt: &impl Abort, line: &mut DelayLine<u8>, item: u8, now: u64, delay: u16)
    requires { IsMoment now }
{
    let entered = line.enter(item, now, milliseconds(rt, delay));
    assert_holds!(rt; entered.is_ok());
}

fn exits_keep_order_on(rt: &impl Abort, line: &mut DelayLine<u8>) {
    assert_same(rt, line.due(), None);
    assert_holds!(rt; line.enter_ready(0, milliseconds(rt, 100)).is_ok());
    enters(rt, line, 1, 0, 100);
    enters(rt, line, 2, 20_000_000, 1);
    assert_same(rt, line.in_flight(), 2);
    assert_same(rt, next(line), (Some(100_000_000), Some(1)));
    assert_same(rt, next(line), (Some(100_000_000), Some(2)));
    assert_same(rt, next(line), (None, None));
    enters(rt, line, 3, 100_000_000, 0);
    assert_same(rt, line.due(), Some(100_000_001));
}

#[test]
fn exits_keep_order(rt: HostRuntime) {
    exits_keep_order_on(&rt, &mut DelayLine::new(rt.alloc()));
}

/// Enters one item after `enter_ready`, and one without it. A failed call must leave the line
/// unchanged.
fn two_enter(rt: &impl Abort, line: &mut DelayLine<u8>, item: u8, delay: Delay) {
    let now = u64::from(item);
    let before = (line.due(), line.in_flight());
    if line.enter_ready(now, delay).is_ok() {
        assert_same(rt, line.enter(item, now, delay), Ok(()));
    } else {
        assert_holds!(rt; (line.due(), line.in_flight()) == before);
    }
    let before = (line.due(), line.in_flight());
    if line.enter(item, now, delay).is_err() {
        assert_holds!(rt; (line.due(), line.in_flight()) == before);
    }
}

/// Checks that a failed entry leaves the line unchanged, and that an entry after `enter_ready`
/// can't fail. Only a run in which an allocation fails shows it.
#[test]
fn refused_entries_change_nothing(rt: HostRuntime) {
    let delay = milliseconds(&rt, 0);
    let mut line = DelayLine::new(rt.alloc());
    for item in 0..40u8 {
        two_enter(&rt, &mut line, item, delay);
    }
}

fn items_are_replaced_on(rt: &impl Abort, line: &mut DelayLine<u8>) {
    assert_same(rt, line.at(0), None);
    enters(rt, line, 1, 0, 1);
    enters(rt, line, 2, 0, 2);
    assert!(rt; line.in_flight() == 2);
    line.replace(1, 12);
    assert_same(
        rt,
        (line.at(0), line.at(1), line.at(2)),
        (Some(1), Some(12), None),
    );
    assert!(rt; line.in_flight() == 2);
    line.replace(0, 11);
    assert_same(rt, next(line), (Some(1_000_000), Some(11)));
    assert_same(rt, next(line), (Some(2_000_000), Some(12)));
}

/// Checks that an item in flight keeps its place, and that another item put in that place leaves at
/// the same time.
#[test]
fn items_are_replaced_in_place(rt: HostRuntime) {
    items_are_replaced_on(&rt, &mut DelayLine::new(rt.alloc()));
}
