//! The records of `trace`.

use super::*;

fn make_record(moment: u64, packet: u64, command: u64) -> Option<Record> {
    let origin = Origin::ByCommand(command);
    Some(made_of(moment, packet, origin, &thousand()?))
}

fn made_of(moment: u64, packet: u64, origin: Origin, send: &SendSpec) -> Record {
    Record::PacketMade {
        moment,
        packet,
        origin,
        proto: send.proto,
        src: send.src,
        sport: send.sport,
        dst: send.dst,
        dport: send.dport,
        size: send.size,
    }
}

fn arrival_record(moment: u64, packet: u64, pipe: PipeNumber, instance: u8) -> Record {
    Record::PacketArrived {
        moment,
        packet,
        pipe,
        instance,
    }
}

/// Returns the record that packets from this address have this instance.
fn identifier_record(pipe: PipeNumber, instance: u8, src: u32) -> Record {
    Record::InstanceIdentified {
        moment: 0,
        pipe,
        instance,
        proto: 0,
        src,
        dst: 0,
        sport: 0,
        dport: 0,
    }
}

fn finished_in(moment: u64, packet: u64, pipe: PipeNumber, instance: u8) -> Record {
    Record::PacketFinished {
        moment,
        packet,
        pipe,
        instance,
    }
}

/// Returns a pipe with 1 Mbit/s and 10 ms for each source.
fn pipe_for_each_source(pipe: PipeNumber) -> Option<Command> {
    let mut config = config(1_000_000, 10)?;
    config.mask.src = 0xffff_ffff;
    Some(Command::Config { pipe, config })
}

/// Returns a packet of 1000 bytes from another source.
fn other_thousand() -> Option<SendSpec> {
    let mut send = thousand()?;
    send.src = 0x0a00_0003;
    Some(send)
}

// Checks that `trace` records a creation, the instance that the packet creates, an arrival, and a
// creation that the budget drops, and that nothing of this is recorded without `trace`.
#[test]
fn traced_budget(rt: HostRuntime) {
    let room = PacketBudget::new(1).expect(&rt, "budget");
    let one = PipeNumber::new(1).expect(&rt, "1");
    let config = pipe(1, 0, 100).expect(&rt, "pipe");
    let all = rule(100, Action::Pipe(one)).expect(&rt, "rule");
    let commands = [
        timed_command(0, Command::Trace(true)),
        timed_command(0, config),
        timed_command(0, Command::Add(all)),
        timed_command(0, Command::Inject(thousand().expect(&rt, "packet"))),
        timed_command(0, Command::Inject(thousand().expect(&rt, "packet"))),
        timed_command(5, Command::Trace(false)),
        timed_command(5, Command::Inject(thousand().expect(&rt, "packet"))),
        timed_command(6, Command::End),
    ];
    let expected = [
        done_record(0, 3),
        make_record(0, 0, 3).expect(&rt, "size"),
        Record::InstanceIdentified {
            moment: 0,
            pipe: one,
            instance: 0,
            proto: 0,
            src: 0,
            dst: 0,
            sport: 0,
            dport: 0,
        },
        Record::PacketArrived {
            moment: 0,
            packet: 0,
            pipe: one,
            instance: 0,
        },
        done_record(0, 4),
        make_record(0, 1, 4).expect(&rt, "size"),
        drop_record(0, 1, DropCause::Budget),
        finish_record(0, 0, one),
        done_record(5, 5),
        done_record(5, 6),
        drop_record(5, 2, DropCause::Budget),
        done_record(6, 7),
    ];
    let records = plays(rt.alloc(), room, &commands).expect(&rt, "memory");
    assert_same(&rt, records.len(), 15);
    assert_records(&rt, &records, 3, &expected);
}

// Checks a command and an event that each create an instance, and an event that creates none.
// Passes with ample memory, and if any one allocation fails. What fails changes nothing (`obeys`
// and `goes_on` check that), and records its three lines on the second try.
#[test]
fn refused_trace_changes_nothing(rt: HostRuntime) {
    let room = PacketBudget::new(10).expect(&rt, "budget");
    let one = PipeNumber::new(1).expect(&rt, "1");
    let masked = pipe_for_each_source(one).expect(&rt, "pipe");
    let all = rule(100, Action::Pipe(one)).expect(&rt, "rule");
    let send = thousand().expect(&rt, "packet");
    let other = other_thousand().expect(&rt, "packet");
    let train = TrainSpec {
        packet: other,
        count: Amount::new(2).expect(&rt, "count"),
        gap: Gap::new(4_000_000).expect(&rt, "gap"),
    };
    let number = FlowNumber::new(7).expect(&rt, "7");
    let commands = [
        timed_command(0, Command::Trace(true)),
        timed_command(0, masked),
        timed_command(0, Command::Add(all)),
        timed_command(0, Command::Inject(send)),
        timed_command(0, Command::Train { number, train }),
        timed_command(30_000_000, Command::End),
    ];
    let expected = [
        done_record(0, 0),
        done_record(0, 1),
        done_record(0, 2),
        done_record(0, 3),
        made_of(0, 0, Origin::ByCommand(3), &send),
        identifier_record(one, 0, 0x0a00_0001),
        arrival_record(0, 0, one, 0),
        done_record(0, 4),
        made_of(0, 1, Origin::ByTrain(number), &other),
        identifier_record(one, 1, 0x0a00_0003),
        arrival_record(0, 1, one, 1),
        made_of(4_000_000, 2, Origin::ByTrain(number), &other),
        arrival_record(4_000_000, 2, one, 1),
        finished_in(8_000_000, 0, one, 0),
        finished_in(8_000_000, 1, one, 1),
        finished_in(16_000_000, 2, one, 1),
        delivery_record(18_000_000, 0, Load::Plain),
        delivery_record(18_000_000, 1, Load::Plain),
        delivery_record(26_000_000, 2, Load::Plain),
        done_record(30_000_000, 5),
    ];
    let records = plays(rt.alloc(), room, &commands).expect(&rt, "refused twice, or changed");
    assert_records(&rt, &records, 0, &expected);
}
