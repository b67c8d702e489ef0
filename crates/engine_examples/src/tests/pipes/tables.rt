//! The contents of the table, with numbers chosen by hand.

ghost use Rattle.std.specs.Prelude.{[], ◌≡◌};
ghost use Rattle.packet_store.specs.Own.{own_pocket};
ghost use Rattle.packet_store.specs.Pocket.{empty_pocket};

use crate::tests::wants::assert_same;
use due_index::DueNumber;
use emu_model::{
    Bandwidth, Class, Delay, Discipline, Due, Load, LossRate, Mask, Packet, PacketBudget,
    PipeConfig, PipeNumber, Place, Protocol, QueueLimit, Record, Refusal, RuleNumber, Size,
    SlotLimit, Source,
};
use packet_store::{OwnShelf, Shelf};
use pipe_table::*;
use std::process::Abort;

fn config(bw: u64, delay: u16) -> Option<PipeConfig> {
    Some(PipeConfig {
        bw: Bandwidth::new(bw)?,
        delay: Delay::new(delay)?,
        queue: QueueLimit::Slots(SlotLimit::new(50)?),
        plr: LossRate::new(0)?,
        mask: Mask {
            proto: 0,
            src: 0,
            dst: 0,
            sport: 0,
            dport: 0,
        },
        discipline: Discipline::TailDrop,
    })
}

fn packet(rt: &impl Abort, number: u64) -> Packet {
    Packet {
        proto: Protocol::Udp,
        src: 0x0a00_0001,
        sport: 1000,
        dst: 0x0a00_0002,
        dport: 2000,
        size: Size::new(1000).expect(rt, "a size"),
        number,
        load: Load::Plain,
        place: Place {
            number: RuleNumber::new(100).expect(rt, "a rule"),
            order: 0,
        },
    }
}

fn command(moment: u64) -> Due {
    Due {
        moment,
        source: Source {
            class: Class::NextCommand,
            number: 0,
        },
    }
}

fn is(due: Due, moment: u64, class: Class, number: u32) -> bool {
    due.moment == moment && due.source.class == class && due.source.number == number
}

/// Configures a pipe, and retries once if an allocation fails.
fn configures(pipes: &mut PipeTable, number: u16, config: &PipeConfig) -> bool {
    let Some(number) = PipeNumber::new(number) else {
        return false;
    };
    let lines = pipes.lines();
    if pipes.configure(number, config).is_ok() {
        return true;
    }
    pipes.lines() == lines && pipes.configure(number, config).is_ok()
}

fn slow_config(rt: &impl Abort) -> PipeConfig {
    config(1_000_000, 10).expect(rt, "a pipe")
}

fn number(rt: &impl Abort, value: u16) -> PipeNumber {
    PipeNumber::new(value).expect(rt, "a number")
}

// Checks that without packets the first due is the one that was given, and that a listing has one
// line for each pipe.
#[test]
fn pipes_stand_by_number(rt: HostRuntime) {
    let mut pipes = PipeTable::new(rt.alloc(), 0);
    let slow = slow_config(&rt);
    assert_holds!(&rt; configures(&mut pipes, 7, &slow));
    assert_holds!(&rt; configures(&mut pipes, 1, &slow));
    assert_holds!(&rt; configures(&mut pipes, 3, &slow));
    let least = pipes.earliest(DueNumber::of(Some(command(9)))).due();
    let least = least.expect(&rt, "something is due");
    assert_holds!(&rt; is(least, 9, Class::NextCommand, 0));
    assert_holds!(&rt; pipes.lines() == 3);
}

// Checks that a failed allocation changes nothing.
#[test]
fn a_refused_pipe_is_not_made(rt: HostRuntime) {
    let mut pipes = PipeTable::new(rt.alloc(), 0);
    let wanted = match pipes.configure(number(&rt, 1), &slow_config(&rt)) {
        Ok(()) => 1,
        Err(ConfigureError::NoMemory) => 0,
        Err(ConfigureError::Refused(_)) => 99,
    };
    assert_holds!(&rt; pipes.lines() == wanted);
}

/// Lets a packet arrive at a pipe that is created for it. Returns `None` if an allocation fails.
fn arrives_alone(rt: &impl Abort, pipes: &mut PipeTable, shelf: &mut OwnShelf) -> Option<()>
    requires empty { pipes.old ≡ record { seed = 0; pipes = [] } }
    requires room { own_pocket shelf.old ≡ empty_pocket 2 }
{
    let one = number(rt, 1);
    let first = packet(rt, 0);
    pipes.configure(one, &slow_config(rt)).ok()?;
    let place = pipes.place_of(one).expect(rt, "a place");
    pipes.route_ready(shelf, 0, 0, place, &first).ok()?;
    assert_holds!(rt; pipes.arrive(place, shelf, 0, 0, &first).is_none());
    Some(())
}

/// Checks that the packet's finish at 8000000 is appended to the given dues, or nothing if an
/// allocation fails.
fn appends_dues(rt: &(impl Abort + AllocGlobal), pipes: &PipeTable) {
    let mut dues = Vec::new(rt.alloc());
    if dues.push(command(9)).is_err() {
        return;
    }
    if pipes.add_dues(&mut dues).is_err() {
        return assert_same(rt, dues.len(), 1);
    }
    assert!(rt; dues.len() == 2);
    assert_holds!(rt; is(dues[0], 9, Class::NextCommand, 0));
    assert_holds!(rt; is(dues[1], 8_000_000, Class::Finish, 256));
}

// Checks that a packet of 1000 bytes at time 0 finishes at 8000000, and that this is appended to
// the given dues.
#[test]
fn dues_are_appended(rt: HostRuntime) {
    let mut shelf = OwnShelf::new(rt.alloc(), PacketBudget::new(2).expect(&rt, "a budget"));
    let mut pipes = PipeTable::new(rt.alloc(), 0);
    let arrived = arrives_alone(&rt, &mut pipes, &mut shelf);
    drop(shelf);
    if arrived.is_some() {
        appends_dues(&rt, &pipes);
    }
    drop(pipes);
}

fn sixty_four_are_there(rt: &impl Abort, pipes: &mut PipeTable, slow: &PipeConfig) {
    for number in 1..65 {
        assert_holds!(rt; configures(pipes, number, slow));
    }
}

// Checks that a 65th pipe is refused, and that an existing one can be configured again.
#[test]
fn pipes_are_counted(rt: HostRuntime) {
    let mut pipes = PipeTable::new(rt.alloc(), 0);
    let slow = slow_config(&rt);
    sixty_four_are_there(&rt, &mut pipes, &slow);
    let refused = pipes.configure(number(&rt, 65), &slow);
    assert_holds!(&rt; matches!(refused, Err(ConfigureError::Refused(Refusal::TooManyPipes))));
    assert_holds!(&rt; pipes.lines() == 64);
    assert_holds!(&rt; configures(&mut pipes, 64, &slow));
}
