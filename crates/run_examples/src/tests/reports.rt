//! Whole reports of worked experiments, and each kind of line. The texts are those of the format.

use emu_model::{
    Action, Bandwidth, CodelTime, Counters, Delay, Discipline, DropCause, FlowNumber, KByteLimit,
    Load, LossRate, Mask, Origin, PipeConfig, PipeNumber, PortRange, Prefix, PrefixLength,
    Protocol, ProtocolMatch, QueueLimit, Record, Refusal, Rule, RuleNumber, Size, SlotLimit,
};
use report::{
    Moments, pipe_listing, report_text, rule_listing, write_counters, write_heading, write_record,
    write_records,
};
use std::alloc::AllocError;
use std::process::Abort;
use std::str;

const NO_DROPS: [u64; 8] = [0; 8];

fn done_record(moment: u64, command: u64) -> Record {
    Record::CommandDone { moment, command }
}

fn pipe_number(rt: &impl Abort, number: u16) -> PipeNumber {
    PipeNumber::new(number).expect(rt, "a pipe's number")
}

fn flow_number(rt: &impl Abort, number: u16) -> FlowNumber {
    FlowNumber::new(number).expect(rt, "a flow's number")
}

fn finish(rt: &impl Abort, moment: u64, packet: u64, pipe: u16) -> Record {
    Record::PacketFinished {
        moment,
        packet,
        pipe: pipe_number(rt, pipe),
        instance: 0,
    }
}

fn deliver(moment: u64, packet: u64, load: Load) -> Record {
    Record::PacketDelivered {
        moment,
        packet,
        load,
    }
}

fn segment(rt: &impl Abort, moment: u64, packet: u64, first: u64) -> Record {
    let flow = flow_number(rt, 1);
    deliver(moment, packet, Load::Seg { flow, first })
}

fn acknowledgement(rt: &impl Abort, moment: u64, packet: u64, upto: u64) -> Record {
    let flow = flow_number(rt, 1);
    deliver(moment, packet, Load::Ack { flow, upto })
}

fn ack_record(rt: &impl Abort, moment: u64, cwnd: u64) -> Record {
    Record::AckTaken {
        moment,
        flow: flow_number(rt, 1),
        cwnd,
        ssthresh: 65535,
    }
}

fn prefix(rt: &impl Abort, address: u32, len: u8) -> Prefix {
    Prefix::new(address, PrefixLength::new(len).expect(rt, "a length"))
}

fn rule(rt: &impl Abort, number: u32, action: Action) -> Rule {
    let anywhere = prefix(rt, 0, 0);
    Rule {
        number: RuleNumber::new(number).expect(rt, "a rule's number"),
        action,
        proto: ProtocolMatch::AnyProtocol,
        src: anywhere,
        sports: None,
        dst: anywhere,
        dports: None,
    }
}

fn plain_pipe(rt: &impl Abort, slots: u16) -> Record {
    Record::PipeLine {
        pipe: pipe_number(rt, 1),
        config: PipeConfig {
            bw: Bandwidth::new(1000000).expect(rt, "a bandwidth"),
            delay: Delay::new(0).expect(rt, "a delay"),
            queue: QueueLimit::Slots(SlotLimit::new(slots).expect(rt, "a limit")),
            plr: LossRate::new(0).expect(rt, "a rate"),
            mask: Mask {
                proto: 0,
                src: 0,
                dst: 0,
                sport: 0,
                dport: 0,
            },
            discipline: Discipline::TailDrop,
        },
    }
}

fn instance(rt: &impl Abort, waiting: u64, drawn: u64) -> Record {
    Record::InstanceLine {
        pipe: pipe_number(rt, 1),
        instance: 0,
        waiting,
        bytes: waiting.wrapping_mul(1000),
        busy: true,
        in_flight: 0,
        drawn,
    }
}

fn same_text(rt: &impl Abort, written: &[u8], wanted: &str) {
    assert_eq!(rt; str::from_utf8(written).ok(), Some(wanted));
}

/// Checks the report of these records.
fn reports(
    rt: &(impl Abort + AllocGlobal),
    name: &[u8],
    records: &[Record],
    counters: &Counters,
    wanted: &str,
) {
    let text = report_text(rt.alloc(), name, records, counters).expect(rt, "memory");
    same_text(rt, &text, wanted);
}

/// Checks the lines of these records, which are written one by one.
fn writes(rt: &(impl Abort + AllocGlobal), records: &[Record], wanted: &str) {
    let mut text = Vec::new(rt.alloc());
    let mut moments = Moments::new();
    for record in records {
        let written = write_record(&mut text, &mut moments, record);
        assert!(rt; written.is_ok());
    }
    same_text(rt, &text, wanted);
}

#[test]
fn one_packet(rt: HostRuntime) {
    let records = [
        done_record(0, 0),
        done_record(0, 1),
        done_record(0, 2),
        finish(&rt, 8000000, 0, 1),
        deliver(18000000, 0, Load::Plain),
        done_record(20000000, 3),
    ];
    let counters = Counters {
        made: 1,
        delivered: 1,
        held: 0,
        drops: NO_DROPS,
    };
    let wanted =
        "experiment a\n0 ok 0\n0 ok 1\n0 ok 2\n8000000 finish 0 1.0\n18000000 deliver 0 plain\n20000000 ok 3\ncounters 1 1 0 0 0 0 0 0 0 0 0\n";
    reports(&rt, b"a", &records, &counters, wanted);
}

#[test]
fn listings(rt: HostRuntime) {
    let second = RuleNumber::new(300).expect(&rt, "a rule's number");
    let counted = |action, number| Record::RuleLine {
        rule: rule(&rt, number, action),
        packets: 1,
        bytes: 1000,
    };
    let idle = |number| Record::RuleLine {
        rule: rule(&rt, number, Action::Deny),
        packets: 0,
        bytes: 0,
    };
    let records = [
        done_record(0, 6),
        counted(Action::Count, 100),
        counted(Action::SkipTo(second), 100),
        idle(200),
        counted(Action::Pipe(pipe_number(&rt, 1)), 300),
        idle(65535),
        done_record(0, 7),
        plain_pipe(&rt, 50),
        instance(&rt, 0, 1),
        finish(&rt, 8000000, 0, 1),
    ];
    let rules =
        "rule 00100 1 1000 count ip from any to any\nrule 00100 1 1000 skipto 300 ip from any to any\nrule 00200 0 0 deny ip from any to any\nrule 00300 1 1000 pipe 1 ip from any to any\nrule 65535 0 0 deny ip from any to any\n";
    let listing = rule_listing(rt.alloc(), &records).expect(&rt, "memory");
    same_text(&rt, &listing, rules);
    let pipes =
        "pipe 1 bw 1000000 delay 0 queue 50 plr 0 mask 00/00000000/00000000/0000/0000 droptail\ninstance 1.0 waiting 0 bytes 0 busy 1 flight 0 drawn 1\n";
    let listing = pipe_listing(rt.alloc(), &records).expect(&rt, "memory");
    same_text(&rt, &listing, pipes);
}

#[test]
fn one_slot(rt: HostRuntime) {
    let records = [
        done_record(0, 4),
        Record::PacketDropped {
            moment: 0,
            packet: 2,
            load: Load::Plain,
            cause: DropCause::Full,
        },
        done_record(0, 5),
        plain_pipe(&rt, 1),
        instance(&rt, 1, 3),
        finish(&rt, 8000000, 0, 1),
        deliver(8000001, 0, Load::Plain),
        finish(&rt, 16000000, 1, 1),
        deliver(16000001, 1, Load::Plain),
        done_record(20000000, 6),
    ];
    let counters = Counters {
        made: 3,
        delivered: 2,
        held: 0,
        drops: [0, 0, 0, 0, 1, 0, 0, 0],
    };
    let wanted =
        "experiment one-slot\n0 ok 4\n0 drop 2 plain full\n0 ok 5\npipe 1 bw 1000000 delay 0 queue 1 plr 0 mask 00/00000000/00000000/0000/0000 droptail\ninstance 1.0 waiting 1 bytes 1000 busy 1 flight 0 drawn 3\n8000000 finish 0 1.0\n8000001 deliver 0 plain\n16000000 finish 1 1.0\n16000001 deliver 1 plain\n20000000 ok 6\ncounters 3 2 0 0 0 0 0 1 0 0 0\n";
    reports(&rt, b"one-slot", &records, &counters, wanted);
}

#[test]
fn reno_four_segments(rt: HostRuntime) {
    let records = [
        done_record(0, 4),
        finish(&rt, 1200000, 0, 1),
        finish(&rt, 2400000, 1, 1),
        finish(&rt, 3600000, 2, 1),
        segment(&rt, 11200000, 0, 0),
        finish(&rt, 11200000, 3, 2),
        segment(&rt, 12400000, 1, 1460),
        finish(&rt, 12400000, 4, 2),
        segment(&rt, 13600000, 2, 2920),
        finish(&rt, 13600000, 5, 2),
        acknowledgement(&rt, 21200000, 3, 1460),
        ack_record(&rt, 21200000, 5840),
        acknowledgement(&rt, 22400000, 4, 2920),
        ack_record(&rt, 22400000, 7300),
        finish(&rt, 22400000, 6, 1),
        acknowledgement(&rt, 42400000, 7, 5840),
        ack_record(&rt, 42400000, 10220),
        done_record(100000000, 5),
    ];
    let counters = Counters {
        made: 8,
        delivered: 8,
        held: 0,
        drops: NO_DROPS,
    };
    let wanted =
        "experiment r\n0 ok 4\n1200000 finish 0 1.0\n2400000 finish 1 1.0\n3600000 finish 2 1.0\n11200000 deliver 0 data 1 0\n11200000 finish 3 2.0\n12400000 deliver 1 data 1 1460\n12400000 finish 4 2.0\n13600000 deliver 2 data 1 2920\n13600000 finish 5 2.0\n21200000 deliver 3 ack 1 1460\n21200000 ack 1 5840 65535\n22400000 deliver 4 ack 1 2920\n22400000 ack 1 7300 65535\n22400000 finish 6 1.0\n42400000 deliver 7 ack 1 5840\n42400000 ack 1 10220 65535\n100000000 ok 5\ncounters 8 8 0 0 0 0 0 0 0 0 0\n";
    reports(&rt, b"r", &records, &counters, wanted);
}

// The cases that the worked reports lack: each cause and refusal, addresses and ports of all kinds,
// a mask with all kinds of digits, the longest numbers.
const REFUSALS: [Refusal; 10] = [
    Refusal::BadNumber,
    Refusal::BadSkip,
    Refusal::RulesFull,
    Refusal::NoRule,
    Refusal::NoSuchPipe,
    Refusal::MaskFixed,
    Refusal::FlowThere,
    Refusal::NoFlow,
    Refusal::TooManyPipes,
    Refusal::TooManyFlows,
];

fn refusal_record(command: u64, refusal: Refusal) -> Record {
    let moment = 5;
    Record::CommandRefused {
        moment,
        command,
        refusal,
    }
}

#[test]
fn each_refusal(rt: HostRuntime) {
    let mut text = Vec::new(rt.alloc());
    let mut moments = Moments::new();
    for (command, refusal) in REFUSALS.iter().enumerate() {
        let record = refusal_record(command as u64, *refusal);
        assert!(rt; write_record(&mut text, &mut moments, &record).is_ok());
    }
    same_text(
        &rt,
        &text,
        "5 refused 0 10\n5 refused 1 11\n5 refused 2 12\n5 refused 3 13\n5 refused 4 20\n5 refused 5 21\n5 refused 6 22\n5 refused 7 23\n5 refused 8 24\n5 refused 9 25\n",
    );
}

const CAUSES: [DropCause; 8] = [
    DropCause::Denied,
    DropCause::NoPipe,
    DropCause::NoInstance,
    DropCause::Lost,
    DropCause::Full,
    DropCause::Codel,
    DropCause::Deleted,
    DropCause::Budget,
];

fn drop_record(cause: DropCause) -> Record {
    let (moment, packet, load) = (6, 7, Load::Plain);
    Record::PacketDropped {
        moment,
        packet,
        load,
        cause,
    }
}

#[test]
fn each_cause_of_a_drop(rt: HostRuntime) {
    let mut text = Vec::new(rt.alloc());
    let mut moments = Moments::new();
    for cause in &CAUSES {
        let written = write_record(&mut text, &mut moments, &drop_record(*cause));
        assert!(rt; written.is_ok());
    }
    same_text(
        &rt,
        &text,
        "6 drop 7 plain denied\n6 drop 7 plain nopipe\n6 drop 7 plain noinstance\n6 drop 7 plain lost\n6 drop 7 plain full\n6 drop 7 plain codel\n6 drop 7 plain deleted\n6 drop 7 plain budget\n",
    );
}

fn strange_rule(rt: &impl Abort) -> Rule {
    let ports = PortRange::new(1024, 65535);
    let mut strange = rule(rt, 5, Action::Allow);
    strange.proto = ProtocolMatch::OnlyTcp;
    strange.src = prefix(rt, 0x0a0b0c0d, 32);
    strange.sports = PortRange::new(80, 80);
    strange.dst = prefix(rt, 0xffffffff, 31);
    strange.dports = ports;
    strange
}

fn strange_config(rt: &impl Abort) -> PipeConfig {
    PipeConfig {
        bw: Bandwidth::new(10000000000).expect(rt, "a bandwidth"),
        delay: Delay::new(60000).expect(rt, "a delay"),
        queue: QueueLimit::KBytes(KByteLimit::new(10).expect(rt, "a limit")),
        plr: LossRate::new(600000).expect(rt, "a rate"),
        mask: Mask {
            proto: 0x0f,
            src: 0x01234567,
            dst: 0x89abcdef,
            sport: 0xffff,
            dport: 0x0a,
        },
        discipline: Discipline::ControlledDelay {
            target: CodelTime::new(5000000).expect(rt, "a time"),
            interval: CodelTime::new(100000000).expect(rt, "a time"),
        },
    }
}

#[test]
fn each_kind_of_line(rt: HostRuntime) {
    let pipe = pipe_number(&rt, 65535);
    let records = [
        Record::PacketPassed {
            moment: u64::MAX,
            packet: u64::MAX,
            pipe,
            instance: 255,
        },
        Record::TimerExpired {
            moment: 1000000000,
            flow: flow_number(&rt, 1),
            cwnd: 1460,
            ssthresh: 2920,
        },
        Record::StepsSpent { moment: 0 },
        Record::RuleLine {
            rule: strange_rule(&rt),
            packets: 12,
            bytes: 345,
        },
        Record::PipeLine {
            pipe,
            config: strange_config(&rt),
        },
        Record::InstanceLine {
            pipe,
            instance: 255,
            waiting: 1,
            bytes: 2,
            busy: false,
            in_flight: 3,
            drawn: 4,
        },
    ];
    let wanted =
        "18446744073709551615 pass 18446744073709551615 65535.255\n1000000000 expire 1 1460 2920\n0 spent\nrule 00005 12 345 allow tcp from 10.11.12.13 80 to 255.255.255.254/31 1024-65535\npipe 65535 bw 10000000000 delay 60000 queue 10KBytes plr 600000 mask 0f/01234567/89abcdef/ffff/000a codel target 5000000 interval 100000000\ninstance 65535.255 waiting 1 bytes 2 busy 0 flight 3 drawn 4\n";
    writes(&rt, &records, wanted);
}

// Checks the lines that `trace 1` adds: the minimum values, the maximum values, and values that
// differ within a line.
#[test]
fn lines_of_a_trace(rt: HostRuntime) {
    let (first_pipe, last_pipe) = (pipe_number(&rt, 1), pipe_number(&rt, 65535));
    let (first_flow, last_flow) = (flow_number(&rt, 1), flow_number(&rt, 65535));
    let size = |bytes| Size::new(bytes).expect(&rt, "a size");
    let records = [
        Record::PacketMade {
            moment: 0,
            packet: 0,
            origin: Origin::ByCommand(0),
            proto: Protocol::Udp,
            src: 0,
            sport: 0,
            dst: 0,
            dport: 0,
            size: size(40),
        },
        Record::PacketMade {
            moment: u64::MAX,
            packet: u64::MAX,
            origin: Origin::BySender {
                flow: last_flow,
                first: u64::MAX,
            },
            proto: Protocol::Tcp,
            src: 0xffffffff,
            sport: 65535,
            dst: 0xffffffff,
            dport: 65535,
            size: size(1500),
        },
        Record::PacketMade {
            moment: 11200000,
            packet: 3,
            origin: Origin::ByReceiver {
                flow: first_flow,
                upto: 1460,
            },
            proto: Protocol::Tcp,
            src: 0x0a0b0c0d,
            sport: 80,
            dst: 0xc0a80102,
            dport: 1024,
            size: size(41),
        },
        Record::PacketArrived {
            moment: 0,
            packet: 0,
            pipe: first_pipe,
            instance: 0,
        },
        Record::PacketArrived {
            moment: u64::MAX,
            packet: u64::MAX,
            pipe: last_pipe,
            instance: 255,
        },
        Record::PacketArrived {
            moment: 12,
            packet: 34,
            pipe: first_pipe,
            instance: 56,
        },
        Record::InstanceIdentified {
            moment: 0,
            pipe: first_pipe,
            instance: 0,
            proto: 0,
            src: 0,
            dst: 0,
            sport: 0,
            dport: 0,
        },
        Record::InstanceIdentified {
            moment: u64::MAX,
            pipe: last_pipe,
            instance: 255,
            proto: 255,
            src: 0xffffffff,
            dst: 0xffffffff,
            sport: 65535,
            dport: 65535,
        },
        Record::InstanceIdentified {
            moment: 12,
            pipe: first_pipe,
            instance: 34,
            proto: 6,
            src: 0x0a0b0c0d,
            dst: 0xc0a80102,
            sport: 1000,
            dport: 80,
        },
    ];
    // 1000 is 3e8 in hexadecimal, and 80 is 50.
    writes(
        &rt,
        &records,
        "0 make 0 plain udp 0.0.0.0 0 0.0.0.0 0 40\n18446744073709551615 make 18446744073709551615 data 65535 18446744073709551615 tcp 255.255.255.255 65535 255.255.255.255 65535 1500\n11200000 make 3 ack 1 1460 tcp 10.11.12.13 80 192.168.1.2 1024 41\n0 arrive 0 1.0\n18446744073709551615 arrive 18446744073709551615 65535.255\n12 arrive 34 1.56\n0 identify 1.0 00/00000000/00000000/0000/0000\n18446744073709551615 identify 65535.255 ff/ffffffff/ffffffff/ffff/ffff\n12 identify 1.34 06/0a0b0c0d/c0a80102/03e8/0050\n",
    );
}

const MOMENTS: [u64; 16] = [
    7,
    99999999,
    100000000,
    100000001,
    199999999,
    200000000,
    200000000,
    100000000,
    300000000000012,
    300000012345678,
    300000099999999,
    300000100000000,
    5,
    u64::MAX,
    u64::MAX - 9551615,
    u64::MAX - 9551616,
];

// Checks times whose last eight digits change by themselves, or with those before them, forwards
// and backwards. The longest line of an event is far longer than most.
#[test]
fn digits_of_moments(rt: HostRuntime) {
    let mut text = Vec::new(rt.alloc());
    let mut moments = Moments::new();
    for moment in &MOMENTS {
        let written = write_record(&mut text, &mut moments, &done_record(*moment, 10));
        assert!(rt; written.is_ok());
    }
    let load = Load::Seg {
        flow: flow_number(&rt, 65535),
        first: u64::MAX,
    };
    let longest = Record::PacketDropped {
        moment: u64::MAX,
        packet: u64::MAX,
        load,
        cause: DropCause::NoInstance,
    };
    assert!(rt; write_record(&mut text, &mut moments, &longest).is_ok());
    same_text(
        &rt,
        &text,
        "7 ok 10\n99999999 ok 10\n100000000 ok 10\n100000001 ok 10\n199999999 ok 10\n200000000 ok 10\n200000000 ok 10\n100000000 ok 10\n300000000000012 ok 10\n300000012345678 ok 10\n300000099999999 ok 10\n300000100000000 ok 10\n5 ok 10\n18446744073709551615 ok 10\n18446744073700000000 ok 10\n18446744073699999999 ok 10\n18446744073709551615 drop 18446744073709551615 data 65535 18446744073709551615 noinstance\n",
    );
}

/// Adds a record, and its line.
fn add(
    rt: &impl Abort,
    records: &mut Vec<Record>,
    wanted: &mut Vec<u8>,
    record: Record,
    line: Result<String, AllocError>,
) {
    let line = line.expect(rt, "memory");
    assert!(rt; records.push(record).is_ok());
    assert!(rt; wanted.extend_from_slice(line.as_bytes()).is_ok());
}

// Adds numbers of each length, and many lines at once: more events than are formatted together, and
// among them lines of other kinds, one of them the last.
fn add_many(rt: &(impl Abort + AllocGlobal), records: &mut Vec<Record>, wanted: &mut Vec<u8>) {
    let mut number = 0u64;
    for turn in 0..100u64 {
        number = if turn % 20 == 0 {
            1
        } else {
            number.wrapping_mul(10).wrapping_add(turn % 10)
        };
        let line = format!(in rt.alloc(); "{turn} ok {number}\n");
        add(rt, records, wanted, done_record(turn, number), line);
        if turn == 50 || turn == 99 {
            let line = format!(in rt.alloc(); "{turn} spent\n");
            add(
                rt,
                records,
                wanted,
                Record::StepsSpent { moment: turn },
                line,
            );
        }
    }
}

#[test]
fn many_lines_at_once(rt: HostRuntime) {
    let mut records = Vec::new(rt.alloc());
    let mut wanted = Vec::new(rt.alloc());
    add_many(&rt, &mut records, &mut wanted);
    let mut text = Vec::new(rt.alloc());
    let mut moments = Moments::new();
    assert!(rt; write_records(&mut text, &mut moments, &records).is_ok());
    assert!(rt; text.as_slice() == wanted.as_slice(), "all lines");
    assert!(rt; write_records(&mut text, &mut moments, &[]).is_ok());
    assert!(rt; text.len() == wanted.len(), "none");
}

/// Checks that a failed call has left a text of this length.
fn is_kept(rt: &impl Abort, refused: bool, text: &Vec<u8>, length: usize) {
    assert!(rt; !refused || text.len() == length);
}

fn keep_what_was_written(rt: &impl Abort, text: &mut Vec<u8>, moments: &mut Moments, command: u64) {
    let length = text.len();
    is_kept(rt, write_heading(text, b"again").is_err(), text, length);
    let length = text.len();
    let refused = write_record(text, moments, &done_record(0, command)).is_err();
    is_kept(rt, refused, text, length);
    let length = text.len();
    let counters = Counters {
        made: 0,
        delivered: 0,
        held: 0,
        drops: NO_DROPS,
    };
    is_kept(rt, write_counters(text, &counters).is_err(), text, length);
    let length = text.len();
    let lines = [
        done_record(0, command),
        Record::StepsSpent { moment: 1 },
        done_record(2, command),
    ];
    let refused = write_records(text, moments, &lines).is_err();
    is_kept(rt, refused, text, length);
}

/// Checks that a failed call leaves the text unchanged. Only a run in which an allocation fails
/// shows it.
#[test]
fn refused_lines_change_nothing(rt: HostRuntime) {
    let mut text = Vec::new(rt.alloc());
    let mut moments = Moments::new();
    for command in 0..100 {
        keep_what_was_written(&rt, &mut text, &mut moments, command);
    }
}
