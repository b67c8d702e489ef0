//! A full shard whose residents have numbers chosen by hand. Each call affects only the slot that
//! it names, up to the last one.

use super::turns::{Lists, Was, consumed_count, parcel, put, turn_once};
use crate::tests::wants::assert_same;
use shard::{MAX_RESIDENTS, PackError, Polled};
use std::alloc::Global;
use std::process::Abort;
use std::test::Fail;

/// The name of the resident in slot 0; the others follow.
const FIRST: u32 = 1_000;

// Returns the name of a slot's resident.
fn name_at(slot: usize) -> u32 {
    FIRST.saturating_add(u32::try_from(slot).unwrap_or(0))
}

// Fills a shard. Returns `None` if an allocation fails.
fn fill(rt: &impl Abort, alloc: Global, shard: &mut Lists) -> Option<()> {
    for slot in 0..MAX_RESIDENTS {
        let parcel = parcel(alloc, name_at(slot))?;
        assert_same(rt, shard.take_in(parcel).ok()?, slot);
    }
    Some(())
}

// Posts one command to each resident. The last slot's command is the earliest.
fn posts_to_each(rt: &impl Abort, shard: &mut Lists) {
    for slot in 0..MAX_RESIDENTS {
        assert_same(rt, shard.slot_of(name_at(slot)), Some(slot));
        assert_same(rt, consumed_count(shard, slot), Some(0));
        assert_same(rt, shard.poll(slot), Polled::Empty(name_at(slot)));
        let moment = u16::try_from(MAX_RESIDENTS - slot).unwrap_or(0);
        assert_holds!(rt; put(shard, slot, moment).is_ok());
    }
    for slot in 0..MAX_RESIDENTS {
        assert_same(rt, shard.poll(slot), Polled::Took(name_at(slot)));
        assert_same(rt, shard.poll(slot), Polled::Held(name_at(slot)));
        assert_same(rt, consumed_count(shard, slot), Some(1));
    }
}

// Returns the number of records of the resident in a slot.
fn record_count(shard: &Lists, slot: usize) -> usize {
    shard.records(slot).map_or(0, |records| records.len())
}

// Checks that each turn is that of the slot whose command is next, and of no other.
fn turns_each(rt: &impl Abort, shard: &mut Lists) {
    for before in 0..MAX_RESIDENTS {
        let slot = MAX_RESIDENTS - 1 - before;
        assert_same(rt, record_count(shard, slot), 0);
        assert_same(rt, turn_once(shard), Was::Ran(name_at(slot)));
        assert_same(rt, record_count(shard, slot), 1);
        assert_holds!(rt; matches!(shard.read(slot), Ok(Some(_))));
        assert_holds!(rt; matches!(shard.read(slot), Ok(None)));
    }
    assert_same(rt, turn_once(shard), Was::Idle);
}

// Checks that each resident is packed by its own slot and comes back to it, and that no other slot
// becomes vacant.
fn moves_each(rt: &impl Abort, shard: &mut Lists) {
    for slot in 0..MAX_RESIDENTS {
        let Ok(parcel) = shard.pack(slot) else {
            // One allocation failed, and no more.
            continue;
        };
        assert_same(rt, parcel.name(), name_at(slot));
        assert_holds!(rt; matches!(shard.pack(slot).err(), Some(PackError::Vacant)));
        assert_same(rt, shard.slot_of(name_at(slot)), None);
        assert_same(rt, shard.take_in(parcel).ok(), Some(slot));
        assert_same(rt, shard.slot_of(name_at(slot)), Some(slot));
        assert_same(rt, record_count(shard, slot), 1);
    }
}

#[test]
fn each_slot_is_its_own(rt: HostRuntime) -> Result<(), Fail> {
    let mut shard = Lists::new(rt.alloc())?;
    let filled = fill(&rt, rt.alloc(), &mut shard);
    if filled.is_some() {
        posts_to_each(&rt, &mut shard);
        turns_each(&rt, &mut shard);
        moves_each(&rt, &mut shard);
    }
    drop(shard);
    filled.ok_or("memory")?;
    Ok(())
}
