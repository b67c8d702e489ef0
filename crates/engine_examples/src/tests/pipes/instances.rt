//! Worked pipes of one instance, with the times from the texts that explain them.

use super::*;
use crate::tests::wants::assert_same;
use emu_model::{
    Load, Packet, PacketBudget, PipeNumber, Place, Protocol, RuleNumber, Size, SlotLimit,
};
use packet_store::{Key, OwnShelf, Shelf};
use pipe_core::Instance;
use std::process::Abort;

/// The result of a packet's arrival.
#[derive(Clone, Copy, Debug, PartialEq)]
enum Arrival {
    In,
    Full,
    Lost,
}

/// Lets a packet arrive at a time: its random word is drawn, and then the limit decides. Returns
/// `None` if an allocation fails, before anything is drawn.
fn arrive(
    instance: &mut Instance,
    shelf: &mut OwnShelf,
    now: u64,
    number: u64,
    size: Size,
) -> Option<Arrival> {
    if now >= END || instance.shown().drawn > 1000 {
        return None;
    }
    let plr = LossRate::new(0)?;
    let rule = RuleNumber::new(100)?;
    instance.accept_ready(size, now).ok()?;
    shelf.put_ready(0).ok()?;
    if instance.lose(plr) {
        return Some(Arrival::Lost);
    }
    if !instance.accepts(size) {
        return Some(Arrival::Full);
    }
    let packet = Packet {
        proto: Protocol::Udp,
        src: 0x0a00_0001,
        sport: 1000,
        dst: 0x0a00_0002,
        dport: 2000,
        size,
        number,
        load: Load::Plain,
        place: Place {
            number: rule,
            order: 0,
        },
    };
    let key = shelf.put(0, packet).ok()?;
    instance.accept(key, size, now);
    Some(Arrival::In)
}

fn number_at(shelf: &OwnShelf, key: Key) -> u64 {
    match shelf.look(0, key) {
        Some(packet) => packet.number,
        None => u64::MAX,
    }
}

/// Processes the next exit or finish, an exit before a finish, or returns `None` if there is none.
/// Records the packet that left, with its time (ns). If a finish fails for lack of memory, the next
/// call repeats it.
fn step(
    instance: &mut Instance,
    shelf: &OwnShelf,
    delay: Delay,
    left: &mut Vec<(u64, u64)>,
) -> Option<()> {
    let dues = instance.dues();
    if let Some(exit) = dues.exit {
        if dues.finish.is_none_or(|finish| exit <= finish) {
            let key = instance.exit()?;
            return left.push((exit, number_at(shelf, key))).ok();
        }
    }
    let finish = dues.finish?;
    if finish >= END {
        return None;
    }
    let plain = instance.drops_none(finish);
    drop(instance.finish(finish, delay, plain));
    Some(())
}

/// Returns a pipe with this rate (bit/s) and delay (ms), with 50 slots.
fn plain_config(rt: &impl Abort, bw: u64, delay: u16) -> PipeConfig {
    let slots = QueueLimit::Slots(SlotLimit::new(50).expect(rt, "a limit"));
    pipe(bw, delay, slots, Discipline::TailDrop).expect(rt, "a pipe")
}

/// Lets a packet of 1000 bytes arrive, and retries once if an allocation fails.
fn one_arrives(rt: &impl Abort, instance: &mut Instance, shelf: &mut OwnShelf) {
    let size = Size::new(1000).expect(rt, "a size");
    if arrive(instance, shelf, 0, 7, size).is_none() {
        assert_same(rt, arrive(instance, shelf, 0, 7, size), Some(Arrival::In));
    }
}

/// Checks that a configuration before the first packet changes the rate, and that the instance then
/// gives up exactly one packet.
#[test]
fn configured_and_given_up(rt: HostRuntime) {
    let (first, second) = (
        plain_config(&rt, 1_000_000, 0),
        plain_config(&rt, 2_000_000, 0),
    );
    let number = PipeNumber::new(1).expect(&rt, "a number");
    let budget = PacketBudget::new(1).expect(&rt, "a budget");
    let mut instance = Instance::new(rt.alloc(), &first, 0, number, 0);
    instance.configure(&first, &second);
    let mut shelf = OwnShelf::new(rt.alloc(), budget);
    one_arrives(&rt, &mut instance, &mut shelf);
    assert_holds!(&rt; instance.dues().finish == Some(4_000_000));
    let mut leftovers = instance.into_leftovers();
    let key = leftovers.next().expect(&rt, "a packet");
    assert_same(&rt, number_at(&shelf, key), 7);
    assert_holds!(&rt; leftovers.next().is_none());
}

/// Reverses the order of three packets by their keys, of which one is in the delay line, one is in
/// service and one waits, and records the packets that leave.
fn change_places(
    instance: &mut Instance,
    shelf: &mut OwnShelf,
    left: &mut Vec<(u64, u64)>,
    keys: &mut Vec<Key>,
    delay: Delay,
) -> Option<()> {
    let size = Size::new(1000)?;
    for packet in 0..3 {
        arrive(instance, shelf, 0, packet, size)?;
    }
    step(instance, shelf, delay, left)?;
    for place in 0..3 {
        let key = instance.key_at(place)?;
        if number_at(shelf, key) != place as u64 {
            return None;
        }
        keys.push(key).ok()?;
    }
    for place in 0..keys.len() {
        let held = instance.key_count();
        if held != 3 || held <= place {
            return None;
        }
        instance.replace_key(place, keys[keys.len() - 1 - place]);
    }
    for _ in 0..5 {
        step(instance, shelf, delay, left)?;
    }
    Some(())
}

/// Checks that the packets leave in the new order, at the old times.
#[test]
fn keys_are_replaced_in_place(rt: HostRuntime) {
    let config = plain_config(&rt, 1_000_000, 20);
    let number = PipeNumber::new(1).expect(&rt, "a number");
    let budget = PacketBudget::new(3).expect(&rt, "a budget");
    let mut instance = Instance::new(rt.alloc(), &config, 0, number, 0);
    assert_same(&rt, instance.key_count(), 0);
    assert_holds!(&rt; instance.key_at(0).is_none());
    let mut shelf = OwnShelf::new(rt.alloc(), budget);
    let mut left = Vec::new(rt.alloc());
    let mut keys = Vec::new(rt.alloc());
    let changed = change_places(
        &mut instance,
        &mut shelf,
        &mut left,
        &mut keys,
        config.delay,
    );
    assert_holds!(&rt; changed.is_some());
    let wanted = [(28_000_000, 2), (36_000_000, 1), (44_000_000, 0)];
    assert_holds!(&rt; left.as_slice() == wanted.as_slice());
}
