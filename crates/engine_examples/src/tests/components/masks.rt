//! Masks and instance numbers, with packets chosen by hand.

use crate::tests::wants::assert_same;
use emu_model::{Load, Mask, Packet, Place, Protocol, RuleNumber, Size};
use flow_mask::*;
use std::process::Abort;

fn mask(proto: u8, dst: u32, dport: u16) -> Mask {
    Mask {
        proto,
        src: 0,
        dst,
        sport: 0,
        dport,
    }
}

fn apply(mask: Mask, proto: Protocol, dst: u32, dport: u16) -> FlowId {
    let Some(size) = Size::new(1000) else {
        unreachable!()
    };
    let Some(rule) = RuleNumber::new(0) else {
        unreachable!()
    };
    mask.apply(&Packet {
        proto,
        src: 0x0a00_0001,
        sport: 1000,
        dst,
        dport,
        size,
        number: 0,
        load: Load::Plain,
        place: Place {
            number: rule,
            order: 0,
        },
    })
}

fn to(dst: u32) -> FlowId {
    apply(mask(0, 0xffff_ffff, 0), Protocol::Udp, dst, 2000)
}

// Returns the number of a destination, which may be new.
fn number(rt: &impl Abort, instances: &mut Instances, dst: u32) -> u8 {
    instances
        .find_or_make(to(dst))
        .ok()
        .expect(rt, "an instance")
}

#[test]
fn each_destination_has_its_instance(rt: HostRuntime) {
    let mut instances = Instances::new(rt.alloc());
    for (dst, want) in &[(0x0a00_0002, 0), (0x0a00_0003, 1), (0x0a00_0002, 0)] {
        assert_same(&rt, number(&rt, &mut instances, *dst), *want);
    }
    assert_same(&rt, instances.find(to(0x0a00_0003)), Some(1));
    assert_same(&rt, instances.len(), 2);
}

// Returns true if packets of two protocols, to two destinations and ports, are one flow.
fn are_one(mask: Mask, one: (Protocol, u32, u16), other: (Protocol, u32, u16)) -> bool {
    apply(mask, one.0, one.1, one.2) == apply(mask, other.0, other.1, other.2)
}

#[test]
fn a_mask_tells_its_bits_apart(rt: HostRuntime) {
    use Protocol::{Tcp, Udp};

    assert_holds!(&rt; are_one(mask(0, 0, 0), (Udp, 1, 80), (Tcp, 2, 90)));
    // 6 and 17 differ, and 8 is a bit of neither.
    assert_holds!(&rt; !are_one(mask(0xff, 0, 0), (Udp, 1, 80), (Tcp, 1, 80)));
    assert_holds!(&rt; are_one(mask(8, 0, 0), (Udp, 1, 80), (Tcp, 1, 80)));
    assert_holds!(&rt; !are_one(mask(0, 0, 1), (Udp, 1, 80), (Udp, 1, 83)));
    assert_holds!(&rt; are_one(mask(0, 0, 1), (Udp, 1, 80), (Udp, 1, 82)));
}

fn take_no_257th(rt: &impl Abort, instances: &mut Instances) {
    for low in 0..256u16 {
        assert_same(rt, u16::from(number(rt, instances, u32::from(low))), low);
    }
    assert_holds!(rt; instances.find_or_make_ready(to(256)).is_ok());
    let answer = instances.find_or_make(to(256));
    assert_holds!(rt; matches!(answer, Err(InstanceError::TooMany)));
    assert_same(rt, number(rt, instances, 255), 255);
}

#[test]
fn the_257th_has_no_instance(rt: HostRuntime) {
    let mut instances = Instances::new(rt.alloc());
    take_no_257th(&rt, &mut instances);
}

// Returns the number of a destination, and retries once if an allocation fails.
fn number_in_the_end(instances: &mut Instances, dst: u32) -> Option<u8> {
    if dst % 2 == 0 && instances.find_or_make_ready(to(dst)).is_err() {
        instances.find_or_make_ready(to(dst)).ok()?;
    }
    match instances.find_or_make(to(dst)) {
        Ok(index) => Some(index),
        Err(_) => instances.find_or_make(to(dst)).ok(),
    }
}

// Checks that a failed call changes nothing, and succeeds when it is repeated. Passes with ample
// memory, and if any one of its allocations fails.
#[test]
fn a_refused_growth_changes_nothing(rt: HostRuntime) {
    let mut instances = Instances::new(rt.alloc());
    for low in 0..20u8 {
        let index = number_in_the_end(&mut instances, u32::from(low));
        assert_same(&rt, index, Some(low));
    }
}
