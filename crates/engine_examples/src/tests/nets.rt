//! Worked examples: what a net records for a few commands, also if one allocation fails.

ghost use Rattle.std.specs.Prelude.{IsTrue, IfSome, [], ◌≡◌, ◌+◌, ◌^◌, ◌<◌, ◌≤◌, length};
ghost use Rattle.emu_model.specs.Moments.{IsMoment};
ghost use Rattle.emu_model.specs.Dues.{due};
ghost use Rattle.emu_model.specs.Step.{setting};
ghost use Rattle.network.specs.Kept.{net_keys, IsHoused, Stands};
ghost use Rattle.network.specs.Due.{IsDue};
ghost use Rattle.packet_store.specs.Own.{own_pocket};

mod traces;

use crate::tests::wants::{assert_records, assert_same, assert_with_message};
use emu_model::{
    Action, Amount, Bandwidth, Budget, Class, Command, Delay, Discipline, DropCause, Due,
    FlowNumber, FlowSpec, Gap, Load, LossRate, Mask, Origin, PacketBudget, PipeConfig, PipeNumber,
    Prefix, PrefixLength, Protocol, ProtocolMatch, QueueLimit, Record, Rule, RuleNumber,
    SegmentSize, SendSpec, Size, SlotLimit, Source, Spec, StepBudget, Threshold, Timed, Timing,
    TrainSpec, Window,
};
use network::{Network, laws};
use packet_store::{OwnShelf, Shelf};
use std::alloc::Global;

/// The latest time of a test (ns).
const LATEST: u64 = 1_000_000_000;

/// Returns a spec of seed 0 with this packet budget.
fn spec_of(packets: PacketBudget) -> Spec
    ensures { (result.seed ≡ 0) × (result.budget.packets ≡ packets) }
{
    Spec {
        seed: 0,
        budget: Budget {
            packets,
            steps: StepBudget::new(1).unwrap(),
        },
        traced: false,
    }
}

/// Returns the due of a command that is before everything that is due later.
fn next_command(moment: u64) -> Due
    ensures { result ≡ due Class.NextCommand 0 moment }
{
    Due {
        moment,
        source: Source {
            class: Class::NextCommand,
            number: 0,
        },
    }
}

/// Obeys a command. Returns false if an allocation fails.
#[tactic(auto, using(crate::proofs::Standing::refused_made))]
fn obeys_once(
    net: &mut Network,
    shelf: &mut OwnShelf,
    spec: &Spec,
    now: u64,
    number: u64,
    command: &Command,
) -> bool
    requires stands { Stands (setting spec.now now) (own_pocket shelf.old) net.old }
    requires made { net.old.made < 2 ^ 63 }
    ensures housed { IsHoused (own_pocket shelf.new) net.new }
    ensures budget { (own_pocket shelf.new).budget ≡ (own_pocket shelf.old).budget }
    ensures seed { net.new.table.seed ≡ net.old.table.seed }
    ensures made { net.new.made ≤ net.old.made + 1 }
    ensures room { IsTrue result → 0 < net.new.log.spare }
{
    laws::still_is_housed();
    let Ok(()) = net.obey(shelf, 0, spec, now, number, command) else {
        return false;
    };
    true
}

/// Returns the numbers of records, created packets and held packets, and the first due.
fn totals_and_due(net: &Network, shelf: &OwnShelf) -> (usize, u64, usize, Due) {
    let held = shelf.count(0);
    (
        net.records().len(),
        net.counters(held as u64).made,
        held,
        net.earliest(0, next_command(LATEST)),
    )
}

/// Obeys a command, and retries once if an allocation fails, after which nothing must have changed.
#[tactic(auto, using(crate::proofs::Standing::stands_at))]
fn obeys(
    net: &mut Network,
    shelf: &mut OwnShelf,
    room: PacketBudget,
    now: u64,
    number: u64,
    command: &Command,
) -> bool
    requires early { IsMoment now }
    requires seed { net.old.table.seed ≡ 0 }
    requires room { room ≤ (own_pocket shelf.old).budget }
    requires housed { IsHoused (own_pocket shelf.old) net.old }
    requires made { net.old.made < 2 ^ 62 }
    ensures seed { net.new.table.seed ≡ 0 }
    ensures budget { (own_pocket shelf.new).budget ≡ (own_pocket shelf.old).budget }
    ensures housed { IsHoused (own_pocket shelf.new) net.new }
    ensures made { net.new.made ≤ net.old.made + 2 }
    ensures spare { IsTrue result → 0 < net.new.log.spare }
{
    let before = totals_and_due(net, shelf);
    let spec = spec_of(room);
    if obeys_once(net, shelf, &spec, now, number, command) {
        return true;
    }
    if totals_and_due(net, shelf) != before {
        return false;
    }
    obeys_once(net, shelf, &spec, now, number, command)
}

/// Processes an event. Returns false if an allocation fails.
#[tactic(auto, using(crate::proofs::Standing::refused_made))]
fn happens(net: &mut Network, shelf: &mut OwnShelf, spec: &Spec, due: Due) -> bool
    requires stands { Stands (setting spec.now due.moment) (own_pocket shelf.old) net.old }
    requires made { net.old.made < 2 ^ 63 }
    requires due { IsDue due net.old }
    ensures housed { IsHoused (own_pocket shelf.new) net.new }
    ensures budget { (own_pocket shelf.new).budget ≡ (own_pocket shelf.old).budget }
    ensures seed { net.new.table.seed ≡ net.old.table.seed }
    ensures made { net.new.made ≤ net.old.made + 1 }
{
    laws::still_is_housed();
    let Ok(()) = net.event(shelf, 0, spec, due) else {
        return false;
    };
    true
}

/// Processes all events before a time. If an allocation fails, nothing must have changed, and the
/// event is repeated.
#[tactic(auto, using(crate::proofs::Standing::stands_at, crate::proofs::Standing::next_is_due))]
fn goes_on(
    net: &mut Network,
    shelf: &mut OwnShelf,
    room: PacketBudget,
    clock: u64,
    end: u64,
) -> bool
    requires end { IsMoment end }
    requires seed { net.old.table.seed ≡ 0 }
    requires room { room ≤ (own_pocket shelf.old).budget }
    requires housed { IsHoused (own_pocket shelf.old) net.old }
    requires made { net.old.made < 2 ^ 62 }
    ensures seed { net.new.table.seed ≡ 0 }
    ensures budget { (own_pocket shelf.new).budget ≡ (own_pocket shelf.old).budget }
    ensures housed { IsHoused (own_pocket shelf.new) net.new }
    ensures made { net.new.made ≤ net.old.made + 500 }
{
    let spec = spec_of(room);
    let mut clock = clock;
    for _ in 0..500_u64 {
        let due = net.earliest(clock, next_command(end));
        if due.source.class == Class::NextCommand {
            return true;
        }
        let before = totals_and_due(net, shelf);
        if happens(net, shelf, &spec, due) {
            clock = due.moment;
        } else if totals_and_due(net, shelf) != before {
            return false;
        }
    }
    false
}

/// Creates a net of seed 0, and retries once if an allocation fails.
fn opens(alloc: Global) -> Option<Network>
    ensures keys { IfSome result (λ n. net_keys n ≡ []) }
    ensures seed { IfSome result (λ n. n.table.seed ≡ 0) }
    ensures made { IfSome result (λ n. n.made ≡ 0) }
{
    match Network::new(alloc, 0, false).ok() {
        Some(net) => Some(net),
        None => Network::new(alloc, 0, false).ok(),
    }
}

/// Obeys the commands, and processes the events before the last of them.
#[tactic(auto, using(crate::proofs::Standing::stands_at))]
fn goes_through(
    net: &mut Network,
    shelf: &mut OwnShelf,
    room: PacketBudget,
    commands: &[Timed],
) -> bool
    requires few { length commands.now ≤ 100 }
    requires seed { net.old.table.seed ≡ 0 }
    requires room { room ≤ (own_pocket shelf.old).budget }
    requires housed { IsHoused (own_pocket shelf.old) net.old }
    requires made { net.old.made ≡ 0 }
    ensures housed { IsHoused (own_pocket shelf.new) net.new }
{
    let mut clock = 0;
    for (index, timed) in commands.iter().enumerate() {
        if LATEST < timed.moment || !goes_on(net, shelf, room, clock, timed.moment) {
            return false;
        }
        clock = timed.moment;
        if !obeys(net, shelf, room, clock, index as u64, &timed.command) {
            return false;
        }
    }
    true
}

/// Returns the records of the commands and of the events before the last of them.
fn plays(alloc: Global, room: PacketBudget, commands: &[Timed]) -> Option<Vec<Record>>
    requires { length commands.now ≤ 100 }
{
    let mut net = opens(alloc)?;
    let mut shelf = OwnShelf::new(alloc, room);
    let is_through = goes_through(&mut net, &mut shelf, room, commands);
    let records = net.into_records();
    drop(shelf);
    if !is_through {
        drop(records);
        return None;
    }
    Some(records)
}

/// Returns a configuration with this bandwidth (bit/s) and delay (ms).
fn config(bw: u64, delay: u16) -> Option<PipeConfig> {
    Some(PipeConfig {
        bw: Bandwidth::new(bw)?,
        delay: Delay::new(delay)?,
        queue: QueueLimit::Slots(SlotLimit::new(50)?),
        plr: LossRate::new(0)?,
        mask: Mask {
            proto: 0,
            src: 0,
            dst: 0,
            sport: 0,
            dport: 0,
        },
        discipline: Discipline::TailDrop,
    })
}

/// Returns a pipe with this bandwidth (bit/s) and delay (ms).
fn pipe(number: u16, bw: u64, delay: u16) -> Option<Command> {
    let pipe = PipeNumber::new(number)?;
    let config = config(bw, delay)?;
    Some(Command::Config { pipe, config })
}

/// Returns a rule for all packets.
fn rule(number: u32, action: Action) -> Option<Rule> {
    let any = Prefix::new(0, PrefixLength::new(0)?);
    Some(Rule {
        number: RuleNumber::new(number)?,
        action,
        proto: ProtocolMatch::AnyProtocol,
        src: any,
        sports: None,
        dst: any,
        dports: None,
    })
}

fn send_to(pipe: u16) -> Option<Action> {
    Some(Action::Pipe(PipeNumber::new(pipe)?))
}

/// Returns a packet of 1000 bytes.
fn thousand() -> Option<SendSpec> {
    Some(SendSpec {
        proto: Protocol::Udp,
        src: 0x0a00_0001,
        sport: 1000,
        dst: 0x0a00_0002,
        dport: 2000,
        size: Size::new(1000)?,
    })
}

/// Returns a flow of four segments of 1460 bytes.
fn four_segments() -> Option<FlowSpec> {
    Some(FlowSpec {
        src: 0x0a00_0001,
        sport: 1000,
        dst: 0x0a00_0002,
        dport: 80,
        smss: SegmentSize::new(1460)?,
        segments: Amount::new(4)?,
        ssthresh: Threshold::new(65535)?,
        rwnd: Window::new(65535)?,
        timing: Timing::Adaptive,
    })
}

/// Returns a rule for TCP from one host to another.
fn between(number: u32, from: u32, to: u32, pipe: u16) -> Option<Command> {
    let host = PrefixLength::new(32)?;
    Some(Command::Add(Rule {
        number: RuleNumber::new(number)?,
        action: Action::Pipe(PipeNumber::new(pipe)?),
        proto: ProtocolMatch::OnlyTcp,
        src: Prefix::new(from, host),
        sports: None,
        dst: Prefix::new(to, host),
        dports: None,
    }))
}

fn timed_command(moment: u64, command: Command) -> Timed {
    Timed { moment, command }
}

fn done_record(moment: u64, command: u64) -> Record {
    Record::CommandDone { moment, command }
}

fn finish_record(moment: u64, packet: u64, pipe: PipeNumber) -> Record {
    Record::PacketFinished {
        moment,
        packet,
        pipe,
        instance: 0,
    }
}

fn pass_record(moment: u64, packet: u64, pipe: PipeNumber) -> Record {
    Record::PacketPassed {
        moment,
        packet,
        pipe,
        instance: 0,
    }
}

fn delivery_record(moment: u64, packet: u64, load: Load) -> Record {
    Record::PacketDelivered {
        moment,
        packet,
        load,
    }
}

fn drop_record(moment: u64, packet: u64, cause: DropCause) -> Record {
    Record::PacketDropped {
        moment,
        packet,
        load: Load::Plain,
        cause,
    }
}

fn rule_line(rule: Rule, packets: u64, bytes: u64) -> Record {
    Record::RuleLine {
        rule,
        packets,
        bytes,
    }
}

// Checks that a packet continues in the rules after each pipe.
#[test]
fn two_pipes_in_turn(rt: HostRuntime) {
    let room = PacketBudget::new(1000).expect(&rt, "budget");
    let (one, two) = (
        PipeNumber::new(1).expect(&rt, "1"),
        PipeNumber::new(2).expect(&rt, "2"),
    );
    let slow = pipe(1, 0, 10).expect(&rt, "pipe 1");
    let fast = pipe(2, 0, 5).expect(&rt, "pipe 2");
    let first = rule(100, Action::Pipe(one)).expect(&rt, "100");
    let second = rule(200, Action::Pipe(two)).expect(&rt, "200");
    let third = rule(300, Action::Allow).expect(&rt, "300");
    let send = thousand().expect(&rt, "packet");
    let commands = [
        timed_command(0, Command::OnePass(false)),
        timed_command(0, slow),
        timed_command(0, fast),
        timed_command(0, Command::Add(first)),
        timed_command(0, Command::Add(second)),
        timed_command(0, Command::Add(third)),
        timed_command(0, Command::Inject(send)),
        timed_command(20_000_000, Command::End),
    ];
    let expected = [
        finish_record(0, 0, one),
        pass_record(10_000_000, 0, one),
        finish_record(10_000_000, 0, two),
        pass_record(15_000_000, 0, two),
        delivery_record(15_000_001, 0, Load::Plain),
        done_record(20_000_000, 7),
    ];
    let records = plays(rt.alloc(), room, &commands).expect(&rt, "memory");
    assert_same(&rt, records.len(), 13);
    assert_records(&rt, &records, 7, &expected);
}

// Checks that the packets of a deleted pipe are gone, and that nothing enters the pipe afterwards.
#[test]
fn pipe_deleted(rt: HostRuntime) {
    let room = PacketBudget::new(1000).expect(&rt, "budget");
    let one = PipeNumber::new(1).expect(&rt, "1");
    let config = pipe(1, 0, 100).expect(&rt, "pipe");
    let all = rule(100, Action::Pipe(one)).expect(&rt, "rule");
    let other = thousand().expect(&rt, "packet");
    let send = thousand().expect(&rt, "packet");
    let commands = [
        timed_command(0, config),
        timed_command(0, Command::Add(all)),
        timed_command(0, Command::Inject(send)),
        timed_command(10_000_000, Command::PipeDelete(one)),
        timed_command(10_000_000, Command::Inject(other)),
        timed_command(200_000_000, Command::End),
    ];
    let expected = [
        done_record(0, 0),
        done_record(0, 1),
        done_record(0, 2),
        finish_record(0, 0, one),
        done_record(10_000_000, 3),
        drop_record(10_000_000, 0, DropCause::Deleted),
        done_record(10_000_000, 4),
        drop_record(10_000_000, 1, DropCause::NoPipe),
        done_record(200_000_000, 5),
    ];
    let records = plays(rt.alloc(), room, &commands).expect(&rt, "memory");
    assert_records(&rt, &records, 0, &expected);
}

// Checks a flow with 10 Mbit/s and 10 ms there and 10 ms back: the segments that it sent before it
// was stopped still arrive, and are not accepted.
#[test]
fn stopped_flow(rt: HostRuntime) {
    let room = PacketBudget::new(100).expect(&rt, "budget");
    let (one, two) = (
        PipeNumber::new(1).expect(&rt, "1"),
        PipeNumber::new(2).expect(&rt, "2"),
    );
    let number = FlowNumber::new(1).expect(&rt, "flow");
    let there = pipe(1, 10_000_000, 10).expect(&rt, "pipe 1");
    let back = pipe(2, 0, 10).expect(&rt, "pipe 2");
    let data = between(100, 0x0a00_0001, 0x0a00_0002, 1).expect(&rt, "100");
    let answers = between(200, 0x0a00_0002, 0x0a00_0001, 2).expect(&rt, "200");
    let flow = four_segments().expect(&rt, "segments");
    let commands = [
        timed_command(0, there),
        timed_command(0, back),
        timed_command(0, data),
        timed_command(0, answers),
        timed_command(0, Command::Flow { number, flow }),
        timed_command(21_300_000, Command::Stop(number)),
        timed_command(100_000_000, Command::End),
    ];
    let expected = [
        finish_record(1_200_000, 0, one),
        finish_record(2_400_000, 1, one),
        finish_record(3_600_000, 2, one),
        delivery_record(
            11_200_000,
            0,
            Load::Seg {
                flow: number,
                first: 0,
            },
        ),
        finish_record(11_200_000, 3, two),
        delivery_record(
            12_400_000,
            1,
            Load::Seg {
                flow: number,
                first: 1460,
            },
        ),
        finish_record(12_400_000, 4, two),
        delivery_record(
            13_600_000,
            2,
            Load::Seg {
                flow: number,
                first: 2920,
            },
        ),
        finish_record(13_600_000, 5, two),
        delivery_record(
            21_200_000,
            3,
            Load::Ack {
                flow: number,
                upto: 1460,
            },
        ),
        Record::AckTaken {
            moment: 21_200_000,
            flow: number,
            cwnd: 5840,
            ssthresh: 65535,
        },
        done_record(21_300_000, 5),
        delivery_record(
            22_400_000,
            4,
            Load::Ack {
                flow: number,
                upto: 2920,
            },
        ),
        finish_record(22_400_000, 6, one),
        delivery_record(
            23_600_000,
            5,
            Load::Ack {
                flow: number,
                upto: 4380,
            },
        ),
        delivery_record(
            32_400_000,
            6,
            Load::Seg {
                flow: number,
                first: 4380,
            },
        ),
        finish_record(32_400_000, 7, two),
        delivery_record(
            42_400_000,
            7,
            Load::Ack {
                flow: number,
                upto: 5840,
            },
        ),
        done_record(100_000_000, 6),
    ];
    let records = plays(rt.alloc(), room, &commands).expect(&rt, "memory");
    assert_same(&rt, records.len(), 24);
    assert_records(&rt, &records, 5, &expected);
}

/// Returns the rules of the listing, of which the last sends to this pipe.
fn listed_rules(pipe: PipeNumber) -> Option<[Rule; 4]> {
    let place = RuleNumber::new(300)?;
    Some([
        rule(100, Action::Count)?,
        rule(100, Action::SkipTo(place))?,
        rule(200, Action::Deny)?,
        rule(300, Action::Pipe(pipe))?,
    ])
}

// Checks the listing of the rules with their counters, and of the pipe with its instance, which
// serves the packet.
#[test]
fn listings(rt: HostRuntime) {
    let room = PacketBudget::new(10).expect(&rt, "budget");
    let one = PipeNumber::new(1).expect(&rt, "1");
    let made = pipe(1, 1_000_000, 0).expect(&rt, "pipe");
    let [count, skip, deny, send] = listed_rules(one).expect(&rt, "rules");
    let packet = thousand().expect(&rt, "packet");
    let commands = [
        timed_command(0, Command::Add(send)),
        timed_command(0, Command::Add(count)),
        timed_command(0, Command::Add(skip)),
        timed_command(0, Command::Add(deny)),
        timed_command(0, made),
        timed_command(0, Command::Inject(packet)),
        timed_command(0, Command::Show),
        timed_command(0, Command::PipeShow),
    ];
    let [count, skip, deny, send] = listed_rules(one).expect(&rt, "rules");
    let default = rule(65535, Action::Deny).expect(&rt, "default");
    let config = config(1_000_000, 0).expect(&rt, "config");
    let expected = [
        done_record(0, 6),
        rule_line(count, 1, 1000),
        rule_line(skip, 1, 1000),
        rule_line(deny, 0, 0),
        rule_line(send, 1, 1000),
        rule_line(default, 0, 0),
        done_record(0, 7),
        Record::PipeLine { pipe: one, config },
        Record::InstanceLine {
            pipe: one,
            instance: 0,
            waiting: 0,
            bytes: 0,
            busy: true,
            in_flight: 0,
            drawn: 1,
        },
    ];
    let records = plays(rt.alloc(), room, &commands).expect(&rt, "memory");
    assert_same(&rt, records.len(), 15);
    assert_records(&rt, &records, 6, &expected);
}

// Checks that the steps are spent after a listing.
#[test]
fn steps_are_spent(rt: HostRuntime) {
    let room = PacketBudget::new(10).expect(&rt, "budget");
    let default = rule(65535, Action::Deny).expect(&rt, "default");
    let expected = [
        done_record(0, 0),
        rule_line(default, 0, 0),
        Record::StepsSpent { moment: 0 },
    ];
    let Some(mut net) = opens(rt.alloc()) else {
        return assert_with_message(&rt, false, "memory");
    };
    let mut shelf = OwnShelf::new(rt.alloc(), room);
    assert!(rt; obeys(&mut net, &mut shelf, room, 0, 0, &Command::Show));
    net.note_spent(0);
    assert_records(&rt, net.records(), 0, &expected);
    drop(net);
    drop(shelf);
}
