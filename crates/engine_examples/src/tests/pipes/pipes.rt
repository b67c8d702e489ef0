//! Worked pipes, with the times from the texts that explain them, and pipes for which an allocation
//! may fail.

use super::bench::{Act, FIRST, Fate, SECOND, keep, number_at, plays, thousand};
use super::*;
use crate::tests::wants::assert_same;
use emu_model::{PacketBudget, Refusal, SlotLimit};
use link_core::DelayLine;
use packet_store::{OwnShelf, Shelf, Store};
use pipe_core::{Shown, rehouse_line};
use std::process::Abort;

/// Returns a drop-tail pipe with this bandwidth (bit/s), delay (ms) and number of slots.
fn plain_config(rt: &impl Abort, bw: u64, delay: u16, slots: u16) -> PipeConfig {
    let slots = SlotLimit::new(slots).expect(rt, "a limit");
    let tail = Discipline::TailDrop;
    pipe(bw, delay, QueueLimit::Slots(slots), tail).expect(rt, "a pipe")
}

/// Returns a pipe with 1 Mbit/s, this delay (ms) and an instance for each destination.
fn masked_config(rt: &impl Abort, delay: u16) -> PipeConfig {
    let mut config = plain_config(rt, 1_000_000, delay, 50);
    config.mask.dst = 0xffff_ffff;
    config
}

#[test]
fn one_slot(rt: HostRuntime) {
    let busy = Shown {
        waiting: 1,
        bytes: 1000,
        busy: true,
        in_flight: 0,
        drawn: 3,
    };
    let acts = [
        thousand(0, FIRST),
        thousand(1, FIRST),
        thousand(2, FIRST),
        Act::Show {
            index: 0,
            shown: Some(busy),
        },
        Act::Show {
            index: 1,
            shown: None,
        },
        Act::Run { until: END },
    ];
    let wanted = [
        (Fate::Full, 0, 2),
        (Fate::Finished, 8_000_000, 0),
        (Fate::Left, 8_000_001, 0),
        (Fate::Finished, 16_000_000, 1),
        (Fate::Left, 16_000_001, 1),
    ];
    plays(&rt, plain_config(&rt, 1_000_000, 0, 1), &acts, &wanted);
}

/// Checks three packets to two destinations, and then a mask that is refused.
#[test]
fn masked_instances_with_a_refused_allocation(rt: HostRuntime) {
    let acts = [
        thousand(0, FIRST),
        thousand(1, SECOND),
        thousand(2, FIRST),
        Act::Run { until: 17_000_000 },
        Act::Configure {
            config: plain_config(&rt, 1_000_000, 0, 50),
            refusal: Some(Refusal::MaskFixed),
        },
    ];
    let wanted = [
        (Fate::Finished, 8_000_000, 0),
        (Fate::Finished, 8_000_000, 1),
        (Fate::Left, 8_000_001, 0),
        (Fate::Left, 8_000_001, 1),
        (Fate::Finished, 16_000_000, 2),
        (Fate::Left, 16_000_001, 2),
    ];
    plays(&rt, masked_config(&rt, 0), &acts, &wanted);
}

/// Checks that a pipe is deleted that has a packet in the delay line of each instance, and in the
/// first instance one in service and one that waits. It returns them by instance, and in each
/// instance in the order in which they would have left.
#[test]
fn pipe_deleted_with_a_refused_allocation(rt: HostRuntime) {
    let acts = [
        thousand(0, FIRST),
        thousand(1, SECOND),
        thousand(2, FIRST),
        thousand(3, FIRST),
        Act::Run { until: 10_000_000 },
        Act::Delete,
    ];
    let wanted = [
        (Fate::Finished, 8_000_000, 0),
        (Fate::Finished, 8_000_000, 1),
        (Fate::Gone, 0, 0),
        (Fate::Gone, 0, 2),
        (Fate::Gone, 0, 3),
        (Fate::Gone, 0, 1),
    ];
    plays(&rt, masked_config(&rt, 100), &acts, &wanted);
}

/// Checks that a pipe that moves while a packet is in the delay line, one is in service and one
/// waits, continues with the same times.
#[test]
fn a_pipe_that_moves_goes_on(rt: HostRuntime) {
    let acts = [
        thousand(0, FIRST),
        thousand(1, FIRST),
        thousand(2, FIRST),
        Act::Run { until: 10_000_000 },
        Act::Travel { stood: 3 },
        Act::Run { until: END },
    ];
    let wanted = [
        (Fate::Finished, 8_000_000, 0),
        (Fate::Finished, 16_000_000, 1),
        (Fate::Left, 18_000_000, 0),
        (Fate::Finished, 24_000_000, 2),
        (Fate::Left, 26_000_000, 1),
        (Fate::Left, 34_000_000, 2),
    ];
    plays(&rt, plain_config(&rt, 1_000_000, 10, 50), &acts, &wanted);
}

/// Checks that a delay line without a pipe moves in the same way.
#[test]
fn a_line_that_moves_goes_on(rt: HostRuntime) {
    let limit = PacketBudget::new(1).expect(&rt, "a budget");
    let delay = Delay::new(1).expect(&rt, "a delay");
    let mut store = Store::new(rt.alloc());
    let owner = store.admit(limit).expect(&rt, "memory");
    let mut shelf = OwnShelf::new(rt.alloc(), limit);
    let key = keep(&mut shelf, 0, 7).expect(&rt, "a key");
    let mut line = DelayLine::new(rt.alloc());
    line.enter(key, 0, delay).expect(&rt, "memory");
    rehouse_line(&mut line, &mut shelf, 0, &mut store, owner);
    assert_same(&rt, (line.due(), line.in_flight()), (Some(1_000_000), 1));
    assert_same(&rt, (shelf.count(0), store.count(owner)), (0, 1));
    let key = line.leave().expect(&rt, "a packet");
    assert_same(&rt, number_at(&store, owner, key), Some(7));
}
