//! A shard over a list agenda and mails of two lists, with numbers chosen by hand.

use crate::tests::wants::assert_same;
use emu_model::{Budget, Command, PacketBudget, Record, Spec, StepBudget, Timed};
use shard::*;
use std::alloc::Global;
use std::process::Abort;
use std::test::Fail;
use timer_wheel::ListAgenda;

pub type Lists = Shard<ListAgenda, ListMail>;

/// Creates an experiment without commands. Returns `None` if an allocation fails.
pub fn parcel(alloc: Global, name: u32) -> Option<Parcel<ListMail>> {
    let packets = PacketBudget::new(4)?;
    let steps = StepBudget::new(100)?;
    let budget = Budget { packets, steps };
    let Ok(mail) = ListMail::new(alloc) else {
        return None;
    };
    match Parcel::open(
        alloc,
        name,
        Spec {
            seed: 0,
            budget,
            traced: false,
        },
        mail,
    ) {
        Ok(parcel) => Some(parcel),
        Err(_) => None,
    }
}

// Takes in a resident for each name. Returns `None` if an allocation fails.
fn seat_all(alloc: Global, shard: &mut Lists, names: &[u32]) -> Option<()> {
    for name in names {
        let parcel = parcel(alloc, *name)?;
        shard.take_in(parcel).ok()?;
    }
    Some(())
}

/// Puts a listing of the pipes at a time.
pub fn put(shard: &mut Lists, slot: usize, moment: u16) -> Result<(), PostError> {
    let moment = u64::from(moment);
    let command = Command::PipeShow;
    shard.put(slot, Timed { moment, command })
}

/// The kind of a turn.
#[derive(Clone, Copy, Debug, PartialEq)]
pub enum Was {
    Ran(u32),
    Ended,
    Idle,
}

/// Processes a turn. A shard, a parcel and the result of a turn are dropped by calls, because each
/// of their parts would be proved wherever they are dropped in place.
pub fn turn_once(shard: &mut Lists) -> Was {
    let turned = shard.turn();
    let was = match &turned {
        Turned::Ran(name) => Was::Ran(*name),
        Turned::Ended(_) => Was::Ended,
        Turned::Idle => Was::Idle,
    };
    drop(turned);
    was
}

/// Returns the number of commands that the resident in a slot has consumed.
pub fn consumed_count(shard: &Lists, slot: usize) -> Option<usize> {
    let commands = shard.consumed(slot).ok()?;
    Some(commands.len())
}

fn has_nobody(rt: &impl Abort, shard: &mut Lists) {
    assert_holds!(rt; shard.slot_of(1).is_none());
    assert_holds!(rt; matches!(shard.records(0), Err(Vacant)));
    assert_holds!(rt; matches!(shard.consumed(255), Err(Vacant)));
    for slot in [0, 255, 256] {
        assert_holds!(rt; matches!(put(shard, slot, 5), Err(PostError::Vacant(t)) if t.moment == 5));
        assert_holds!(rt; shard.read(slot).is_err());
    }
    shard.reveal_invariant();
}

#[test]
fn nobody_is_in_a_new_shard(rt: HostRuntime) -> Result<(), Fail> {
    let mut shard = Lists::with_clock(rt.alloc(), 7)?;
    has_nobody(&rt, &mut shard);
    drop(shard);
    Ok(())
}

fn fills_a_mail(rt: &impl Abort, shard: &mut Lists) {
    assert_same(rt, shard.slot_of(20), Some(1));
    assert_same(rt, shard.slot_of(30), None);
    for moment in 0..64 {
        assert_holds!(rt; put(shard, 1, moment).is_ok());
    }
    assert_holds!(rt; matches!(put(shard, 1, 64), Err(PostError::Full(t)) if t.moment == 64));
    assert_holds!(rt; put(shard, 0, 64).is_ok());

    // A place is free again once the first command is taken.
    assert_same(rt, shard.poll(1), Polled::Took(20));
    assert_same(rt, consumed_count(shard, 1), Some(1));
    assert_holds!(rt; put(shard, 1, 64).is_ok());
}

fn reads_a_letter(rt: &impl Abort, shard: &mut Lists) {
    assert_holds!(rt; matches!(shard.read(1), Ok(None)));
    assert_same(rt, turn_once(shard), Was::Ran(20));
    assert_holds!(rt; matches!(shard.records(1), Ok([_])));
    assert_holds!(rt; matches!(
            shard.read(1),
            Ok(Some(Record::CommandDone { moment: 0, .. }))
        ));
    assert_holds!(rt; matches!(shard.read(1), Ok(None)));
}

#[test]
fn a_resident_is_posted_to_and_read(rt: HostRuntime) -> Result<(), Fail> {
    let mut shard = Lists::new(rt.alloc())?;
    let seated = seat_all(rt.alloc(), &mut shard, &[10, 20]);
    if seated.is_some() {
        fills_a_mail(&rt, &mut shard);
        reads_a_letter(&rt, &mut shard);
    }
    drop(shard);
    seated.ok_or("memory")?;
    Ok(())
}

fn goes_on_after_rebases(rt: &impl Abort, shard: &mut Lists) {
    assert_holds!(rt; put(shard, 0, 9).is_ok());
    assert_holds!(rt; put(shard, 1, 5).is_ok());
    assert_same(rt, shard.poll(0), Polled::Took(10));
    assert_same(rt, shard.poll(1), Polled::Took(20));
    shard.rebase();
    assert_same(rt, shard.slot_of(20), Some(1));
    assert_same(rt, turn_once(shard), Was::Ran(20));
    shard.rebase();
    assert_same(rt, turn_once(shard), Was::Ran(10));
    assert_same(rt, turn_once(shard), Was::Idle);
    assert_same(rt, consumed_count(shard, 0), Some(1));
}

#[test]
fn a_rebase_changes_nobody(rt: HostRuntime) -> Result<(), Fail> {
    let mut shard = Lists::new(rt.alloc())?;
    let seated = seat_all(rt.alloc(), &mut shard, &[10, 20]);
    if seated.is_some() {
        goes_on_after_rebases(&rt, &mut shard);
    }
    drop(shard);
    seated.ok_or("memory")?;
    Ok(())
}

// Passes with ample memory, and if any one of its allocations fails.
#[test]
fn a_refused_shard_is_made_at_the_second_try(rt: HostRuntime) -> Result<(), Fail> {
    let first = Lists::new(rt.alloc());
    let shard = if first.is_ok() {
        first.ok()
    } else {
        drop(first);
        Lists::new(rt.alloc()).ok()
    };
    let vacant = shard.as_ref().map(|shard| shard.slot_of(0).is_none());
    drop(shard);
    assert_same(&rt, vacant, Some(true));
    Ok(())
}
