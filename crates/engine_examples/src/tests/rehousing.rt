//! An experiment whose packets move to a store and back between its events, which must have the
//! same records as one whose packets stay.

ghost use Rattle.std.specs.Prelude.{◌≡◌, IsSome};
ghost use Rattle.packet_store.specs.Pocket.{empty_pocket};
ghost use Rattle.packet_store.specs.Own.{own_pocket};
ghost use Rattle.packet_store.specs.Books.{pocket_of};
ghost use Rattle.experiment.specs.Kept.{IsHousedIn};

use crate::tests::wants::assert_same;
use emu_model::{
    Action, Amount, Bandwidth, Budget, Command, Delay, Discipline, FlowNumber, FlowSpec, Load,
    LossRate, Mask, PacketBudget, PipeConfig, PipeNumber, Prefix, PrefixLength, ProtocolMatch,
    QueueLimit, Record, Rule, RuleNumber, SegmentSize, SlotLimit, Spec, StepBudget, Threshold,
    Timed, Timing, Window,
};
use experiment::*;
use packet_store::{OwnShelf, Owner, Shelf, Store};
use std::alloc::Global;
use std::process::Abort;

/// Moves the experiment to the store, processes an event there, and moves it back. Returns `None`
/// if an allocation fails.
fn visits(
    experiment: &mut Experiment,
    own: &mut OwnShelf,
    store: &mut Store,
    owner: Owner,
) -> Option<Event>
    requires housed { IsHousedIn (own_pocket own.old) experiment.old }
    requires empty { pocket_of store.old owner ≡ empty_pocket (own_pocket own.old).budget }
    ensures housed { IsSome result → IsHousedIn (own_pocket own.new) experiment.new }
    ensures empty { IsSome result →
        pocket_of store.new owner ≡ empty_pocket (own_pocket own.new).budget }
{
    let _few = own.count(0);
    experiment.rehouse(own, 0, store, owner);
    let event = experiment.event(store, owner);
    let held = store.count(owner);
    if own.reserve(held).is_err() {
        return None;
    }
    experiment.rehouse(store, owner, own, 0);
    Some(event)
}

/// Processes events until the next command is due, alternately here and in the store.
fn goes_on(
    experiment: &mut Experiment,
    own: &mut OwnShelf,
    store: &mut Store,
    owner: Owner,
) -> Option<Event>
    requires housed { IsHousedIn (own_pocket own.old) experiment.old }
    requires empty { pocket_of store.old owner ≡ empty_pocket (own_pocket own.old).budget }
    ensures housed { IsSome result → IsHousedIn (own_pocket own.new) experiment.new }
    ensures empty { IsSome result →
        pocket_of store.new owner ≡ empty_pocket (own_pocket own.new).budget }
{
    for _turn in 0..1000 {
        let event = experiment.event(own, 0);
        if event != Event::Ran {
            return Some(event);
        }
        visits(experiment, own, store, owner)?;
    }
    None
}

/// Applies each command in turn, and processes its events. Returns false if an allocation fails.
fn plays(
    experiment: &mut Experiment,
    own: &mut OwnShelf,
    store: &mut Store,
    owner: Owner,
    commands: &[Timed],
) -> bool
    requires housed { IsHousedIn (own_pocket own.old) experiment.old }
    requires empty { pocket_of store.old owner ≡ empty_pocket (own_pocket own.old).budget }
{
    for command in commands {
        if command.moment > 1_000_000_000 || experiment.apply(command).is_err() {
            return false;
        }
        let Some(_) = goes_on(experiment, own, store, owner) else {
            return false;
        };
    }
    true
}

/// Returns the records of an experiment of seed 1 that moves between its events, in a store with
/// another owner. (What is created here is dropped by calls, because each of its parts would
/// otherwise be proved here.)
fn records_of_moves(alloc: Global, commands: &[Timed]) -> Option<Vec<Record>> {
    let packets = PacketBudget::new(100)?;
    let steps = StepBudget::new(1000)?;
    let budget = Budget { packets, steps };
    let Ok(mut experiment) = Experiment::new(
        alloc,
        Spec {
            seed: 1,
            budget,
            traced: false,
        },
    ) else {
        return None;
    };
    let mut own = OwnShelf::new(alloc, packets);
    let mut store = Store::new(alloc);
    let beside = store.admit(packets);
    let mut played = false;
    if let Ok(owner) = store.admit(packets) {
        played = beside.is_ok() && plays(&mut experiment, &mut own, &mut store, owner, commands);
    }
    drop(own);
    drop(store);
    if !played {
        drop(experiment);
        return None;
    }
    let (_, records) = experiment.into_lists();
    Some(records)
}

/// Returns a pipe with this bandwidth (bit/s), or 0 for none, and 10 ms.
fn pipe(number: u16, bw: u64) -> Option<Command> {
    Some(Command::Config {
        pipe: PipeNumber::new(number)?,
        config: PipeConfig {
            bw: Bandwidth::new(bw)?,
            delay: Delay::new(10)?,
            queue: QueueLimit::Slots(SlotLimit::new(50)?),
            plr: LossRate::new(0)?,
            mask: Mask {
                proto: 0,
                src: 0,
                dst: 0,
                sport: 0,
                dport: 0,
            },
            discipline: Discipline::TailDrop,
        },
    })
}

/// Returns a rule for TCP from one host to another.
fn between(number: u32, from: u32, to: u32, pipe: u16) -> Option<Command> {
    let host = PrefixLength::new(32)?;
    Some(Command::Add(Rule {
        number: RuleNumber::new(number)?,
        action: Action::Pipe(PipeNumber::new(pipe)?),
        proto: ProtocolMatch::OnlyTcp,
        src: Prefix::new(from, host),
        sports: None,
        dst: Prefix::new(to, host),
        dports: None,
    }))
}

/// Returns a flow of four segments of 1460 bytes.
fn four_segments() -> Option<Command> {
    Some(Command::Flow {
        number: FlowNumber::new(1)?,
        flow: FlowSpec {
            src: 0x0a00_0001,
            sport: 1000,
            dst: 0x0a00_0002,
            dport: 80,
            smss: SegmentSize::new(1460)?,
            segments: Amount::new(4)?,
            ssthresh: Threshold::new(65535)?,
            rwnd: Window::new(65535)?,
            timing: Timing::Adaptive,
        },
    })
}

fn timed_command(moment: u64, command: Command) -> Timed {
    Timed { moment, command }
}

/// Returns the commands of the example of four segments.
fn commands() -> Option<[Timed; 6]> {
    Some([
        timed_command(0, pipe(1, 10_000_000)?),
        timed_command(0, pipe(2, 0)?),
        timed_command(0, between(100, 0x0a00_0001, 0x0a00_0002, 1)?),
        timed_command(0, between(200, 0x0a00_0002, 0x0a00_0001, 2)?),
        timed_command(0, four_segments()?),
        timed_command(100_000_000, Command::End),
    ])
}

/// The kinds of records in the example.
#[derive(Clone, Copy, PartialEq)]
enum Kind {
    Command,
    Finish,
    Segment,
    Answer,
    Window,
}

/// The kind of a record, its time, and two of its numbers: for a command its own number; for a
/// finish its packet and pipe; for a delivery its packet, and its first byte or the byte that it
/// acknowledges; for an acknowledgement that was accepted the window and the threshold.
type Line = (Kind, u64, u64, u64);

/// The lines of that example.
const LINES: [Line; 26] = [
    (Kind::Command, 0, 0, 0),
    (Kind::Command, 0, 1, 0),
    (Kind::Command, 0, 2, 0),
    (Kind::Command, 0, 3, 0),
    (Kind::Command, 0, 4, 0),
    (Kind::Finish, 1_200_000, 0, 1),
    (Kind::Finish, 2_400_000, 1, 1),
    (Kind::Finish, 3_600_000, 2, 1),
    (Kind::Segment, 11_200_000, 0, 0),
    (Kind::Finish, 11_200_000, 3, 2),
    (Kind::Segment, 12_400_000, 1, 1460),
    (Kind::Finish, 12_400_000, 4, 2),
    (Kind::Segment, 13_600_000, 2, 2920),
    (Kind::Finish, 13_600_000, 5, 2),
    (Kind::Answer, 21_200_000, 3, 1460),
    (Kind::Window, 21_200_000, 5840, 65535),
    (Kind::Answer, 22_400_000, 4, 2920),
    (Kind::Window, 22_400_000, 7300, 65535),
    (Kind::Finish, 22_400_000, 6, 1),
    (Kind::Answer, 23_600_000, 5, 4380),
    (Kind::Window, 23_600_000, 8760, 65535),
    (Kind::Segment, 32_400_000, 6, 4380),
    (Kind::Finish, 32_400_000, 7, 2),
    (Kind::Answer, 42_400_000, 7, 5840),
    (Kind::Window, 42_400_000, 10220, 65535),
    (Kind::Command, 100_000_000, 5, 0),
];

/// Returns the line of a record, or `None` for other kinds, other flows and other instances.
fn line_of(record: &Record) -> Option<Line> {
    match *record {
        Record::CommandDone { moment, command } => Some((Kind::Command, moment, command, 0)),
        Record::PacketFinished {
            moment,
            packet,
            pipe,
            instance: 0,
        } => Some((Kind::Finish, moment, packet, u64::from(pipe.get()))),
        Record::PacketDelivered {
            moment,
            packet,
            load: Load::Seg { flow, first },
        } if flow.get() == 1 => Some((Kind::Segment, moment, packet, first)),
        Record::PacketDelivered {
            moment,
            packet,
            load: Load::Ack { flow, upto },
        } if flow.get() == 1 => Some((Kind::Answer, moment, packet, upto)),
        Record::AckTaken {
            moment,
            flow,
            cwnd,
            ssthresh,
        } if flow.get() == 1 => Some((Kind::Window, moment, cwnd, ssthresh)),
        _ => None,
    }
}

fn are_the_lines(rt: &impl Abort, records: &[Record]) {
    assert_holds!(rt; records.len() == LINES.len());
    for (record, line) in records.iter().zip(LINES.iter()) {
        assert_holds!(rt; line_of(record) == Some(*line));
    }
}

#[test]
fn four_segments_on_two_shelves(rt: HostRuntime) {
    let commands = commands().expect(&rt, "in range");
    if let Some(records) = records_of_moves(rt.alloc(), &commands) {
        are_the_lines(&rt, &records);
    }
}
