//! The expected words at each place of a line, with their ranges and an example.

use control::{
    EndsWord, Expected, FlowWord, HeaderWord, PacketWord, PipeWord, RuleWord, TrainWord,
    stood_before,
};
use control_words::is;

/// The words that may be at a place of a line, described for its author.
#[derive(Clone, Copy)]
pub struct Wanted {
    pub expected: &'static str,
    pub example: &'static str,
}

const FIRST: Wanted = Wanted {
    expected: "`experiment`, or a command's moment: @ and a whole number of nanoseconds, @0 to @1000000000000000",
    example: "@1500000 show   (at 1.5 ms)",
};

const NAME: Wanted = Wanted {
    expected: "a name: 1 to 32 of a to z, 0 to 9, - and _",
    example: "experiment two-flows seed 1 budget 1000",
};

const SEED_WORD: Wanted = Wanted {
    expected: "the word `seed`",
    example: "experiment two-flows seed 1 budget 1000",
};

const SEED: Wanted = Wanted {
    expected: "a seed, 0 to 18446744073709551615",
    example: "experiment two-flows seed 1 budget 1000",
};

const BUDGET_WORD: Wanted = Wanted {
    expected: "the word `budget`",
    example: "experiment two-flows seed 1 budget 1000",
};

const BUDGET: Wanted = Wanted {
    expected: "how many packets may be under way at once, 1 to 65535",
    example: "experiment two-flows seed 1 budget 1000",
};

const STEPS_WORD: Wanted = Wanted {
    expected: "`steps` and a number, or the end of the line",
    example: "experiment two-flows seed 1 budget 1000 steps 10000000",
};

const STEPS: Wanted = Wanted {
    expected: "a number of steps, 1 to 10000000",
    example: "experiment two-flows seed 1 budget 1000 steps 10000000",
};

const VERB: Wanted = Wanted {
    expected: "a command: add, delete, pipe, show, inject, train, flow, stop, one_pass, trace or end",
    example: "@0 add 100 pipe 1 ip from any to any",
};

const RULE: Wanted = Wanted {
    expected: "a rule's number, 1 to 65534",
    example: "@0 add 100 pipe 1 ip from any to any",
};

const ACTION: Wanted = Wanted {
    expected: "what the rule does: allow, deny, count, skipto R or pipe P",
    example: "@0 add 100 pipe 1 ip from any to any",
};

const SKIP: Wanted = Wanted {
    expected: "the number of the rule to go on with, above the rule's own, at most 65535",
    example: "@0 add 100 skipto 200 tcp from any to any",
};

const PIPE: Wanted = Wanted {
    expected: "a pipe's number, 1 to 65535",
    example: "@0 add 100 pipe 1 ip from any to any",
};

const MATCH: Wanted = Wanted {
    expected: "a protocol: ip (both), tcp or udp",
    example: "@0 add 100 pipe 1 ip from any to any",
};

const FROM: Wanted = Wanted {
    expected: "the word `from`",
    example: "@0 add 100 pipe 1 ip from 10.0.0.0/24 to any",
};

const PREFIX: Wanted = Wanted {
    expected: "`any`, or an address of four numbers 0 to 255, alone or directly followed by / and a length of 0 to 32",
    example: "@0 add 100 pipe 1 ip from 10.0.0.0/24 to any",
};

const PORTS_OR_TO: Wanted = Wanted {
    expected: "the word `to`, or a port or a range of ports before it, 0 to 65535, the first not above the last",
    example: "@0 add 100 pipe 1 tcp from any 1024-65535 to any 80",
};

const TO: Wanted = Wanted {
    expected: "the word `to`",
    example: "@0 add 100 pipe 1 tcp from any 1024-65535 to any 80",
};

const LAST_PORTS: Wanted = Wanted {
    expected: "the end of the line, or a port or a range of ports, 0 to 65535, the first not above the last",
    example: "@0 add 100 pipe 1 tcp from any 1024-65535 to any 80",
};

const END: Wanted = Wanted {
    expected: "the end of the line",
    example: "@5000000000 end",
};

const PIPE_WHAT: Wanted = Wanted {
    expected: "a pipe's number, 1 to 65535; or `delete` or `show`",
    example: "@0 pipe 1 config bw 10Mbit/s",
};

const PIPE_GONE: Wanted = Wanted {
    expected: "a pipe's number, 1 to 65535",
    example: "@0 pipe delete 1",
};

const CONFIG: Wanted = Wanted {
    expected: "the word `config`",
    example: "@0 pipe 1 config bw 10Mbit/s",
};

const OPTION: Wanted = Wanted {
    expected: "an option of a pipe: bw, delay, queue, plr, mask, droptail or codel; or the end of the line",
    example: "@0 pipe 1 config bw 10Mbit/s delay 20 queue 50 plr 0.01",
};

const ONCE: Wanted = Wanted {
    expected: "each option at most once",
    example: "@0 pipe 1 config bw 10Mbit/s delay 20",
};

const ONE_DISCIPLINE: Wanted = Wanted {
    expected: "`droptail` or `codel`, one of them and once",
    example: "@0 pipe 1 config bw 10Mbit/s codel target 5 interval 100",
};

const RATE: Wanted = Wanted {
    expected: "a rate, at most 10000000000 bit/s: a whole number, directly followed by nothing (bit/s), or by bit/s or Byte/s with K, M, G or nothing before it",
    example: "@0 pipe 1 config bw 10Mbit/s",
};

const DELAY: Wanted = Wanted {
    expected: "a delay of 0 to 60000 ms: a whole number, directly followed by nothing or ms",
    example: "@0 pipe 1 config delay 20ms",
};

const QUEUE: Wanted = Wanted {
    expected: "a queue's limit: 1 to 1000 packets, or 1 to 1024 directly followed by KBytes, Kbytes, KB or K",
    example: "@0 pipe 1 config queue 50   (or queue 100KB)",
};

const LOSS: Wanted = Wanted {
    expected: "a loss rate of 0 to 1: 0 or 1, alone or with a point and 1 to 6 digits",
    example: "@0 pipe 1 config plr 0.05",
};

const MASK: Wanted = Wanted {
    expected: "`all`, or a field: src-ip, dst-ip, src-port, dst-port or proto",
    example: "@0 pipe 1 config mask src-ip 0xffffffff",
};

const FIELD8: Wanted = Wanted {
    expected: "0x and 1 to 8 digits of base 16",
    example: "@0 pipe 1 config mask src-ip 0xffffffff",
};

const FIELD4: Wanted = Wanted {
    expected: "0x and 1 to 4 digits of base 16",
    example: "@0 pipe 1 config mask dst-port 0xffff",
};

const FIELD2: Wanted = Wanted {
    expected: "0x and 1 or 2 digits of base 16",
    example: "@0 pipe 1 config mask proto 0xff",
};

const TIME: Wanted = Wanted {
    expected: "a time of 1us to 60s: a whole number, directly followed by s, ms, us or nothing (ms)",
    example: "@0 pipe 1 config codel target 5ms interval 100ms",
};

const PROTOCOL: Wanted = Wanted {
    expected: "a packet's protocol: tcp or udp",
    example: "@0 inject udp 10.0.0.1 1000 10.0.0.2 2000 1000",
};

const ADDRESS: Wanted = Wanted {
    expected: "an address: four numbers 0 to 255 with points between",
    example: "@0 inject udp 10.0.0.1 1000 10.0.0.2 2000 1000",
};

const PORT: Wanted = Wanted {
    expected: "a port, 0 to 65535",
    example: "@0 inject udp 10.0.0.1 1000 10.0.0.2 2000 1000",
};

const SIZE: Wanted = Wanted {
    expected: "a packet's size, 40 to 1500 bytes",
    example: "@0 inject udp 10.0.0.1 1000 10.0.0.2 2000 1000",
};

const SOURCE: Wanted = Wanted {
    expected: "the number of a flow or a train, 1 to 65535",
    example: "@0 flow 1 10.0.0.1 1000 10.0.1.1 80 smss 1460 segments 1000",
};

const COUNT_WORD: Wanted = Wanted {
    expected: "the word `count`",
    example: "@0 train 2 udp 10.0.0.1 1000 10.0.0.2 2000 100 count 7 gap 1000000",
};

const COUNT: Wanted = Wanted {
    expected: "how many packets, 1 to 1000000",
    example: "@0 train 2 udp 10.0.0.1 1000 10.0.0.2 2000 100 count 7 gap 1000000",
};

const GAP_WORD: Wanted = Wanted {
    expected: "the word `gap`",
    example: "@0 train 2 udp 10.0.0.1 1000 10.0.0.2 2000 100 count 7 gap 1000000",
};

const GAP: Wanted = Wanted {
    expected: "the time between two packets, 0 to 1000000000000 ns",
    example: "@0 train 2 udp 10.0.0.1 1000 10.0.0.2 2000 100 count 7 gap 1000000",
};

const SMSS_WORD: Wanted = Wanted {
    expected: "the word `smss`",
    example: "@0 flow 1 10.0.0.1 1000 10.0.1.1 80 smss 1460 segments 1000",
};

const SMSS: Wanted = Wanted {
    expected: "a segment's bytes, 64 to 1460",
    example: "@0 flow 1 10.0.0.1 1000 10.0.1.1 80 smss 1460 segments 1000",
};

const SEGMENTS_WORD: Wanted = Wanted {
    expected: "the word `segments`",
    example: "@0 flow 1 10.0.0.1 1000 10.0.1.1 80 smss 1460 segments 1000",
};

const SEGMENTS: Wanted = Wanted {
    expected: "how many segments, 1 to 1000000",
    example: "@0 flow 1 10.0.0.1 1000 10.0.1.1 80 smss 1460 segments 1000",
};

const FLOW_OPTION: Wanted = Wanted {
    expected: "an option of a flow: ssthresh, window or rto; or the end of the line",
    example: "@0 flow 1 10.0.0.1 1000 10.0.1.1 80 smss 1460 segments 1000 rto 200",
};

const SSTHRESH: Wanted = Wanted {
    expected: "a threshold, 1 to 1000000000 bytes",
    example: "@0 flow 1 10.0.0.1 1000 10.0.1.1 80 smss 1460 segments 1000 ssthresh 3000",
};

const WINDOW: Wanted = Wanted {
    expected: "a receiver's window, 1 to 65535 bytes",
    example: "@0 flow 1 10.0.0.1 1000 10.0.1.1 80 smss 1460 segments 1000 window 20000",
};

const TIMEOUT: Wanted = Wanted {
    expected: "`adaptive`, or a retransmission time of 1 to 60000 ms without a unit",
    example: "@0 flow 1 10.0.0.1 1000 10.0.1.1 80 smss 1460 segments 1000 rto 200",
};

const STOPPED: Wanted = Wanted {
    expected: "the number of a flow or a train, 1 to 65535",
    example: "@1000000000 stop 1",
};

const ONE_PASS: Wanted = Wanted {
    expected: "0 or 1",
    example: "@0 one_pass 0",
};

const TRACE: Wanted = Wanted {
    expected: "0 or 1",
    example: "@0 trace 1",
};

// Returns true if the word is a queue discipline, of which a line may have only one.
fn is_discipline(word: &[u8]) -> bool {
    is(word, "droptail") || is(word, "codel")
}

fn header_wanted(place: HeaderWord) -> Wanted {
    match place {
        HeaderWord::Name => NAME,
        HeaderWord::SeedWord => SEED_WORD,
        HeaderWord::Seed => SEED,
        HeaderWord::BudgetWord => BUDGET_WORD,
        HeaderWord::Budget => BUDGET,
        HeaderWord::StepsWord => STEPS_WORD,
        HeaderWord::Steps => STEPS,
    }
}

fn rule_wanted(place: RuleWord) -> Wanted {
    match place {
        RuleWord::Number => RULE,
        RuleWord::Action => ACTION,
        RuleWord::SkipTo => SKIP,
        RuleWord::ToPipe => PIPE,
        RuleWord::Protocol => MATCH,
        RuleWord::From => FROM,
        RuleWord::Source | RuleWord::Destination => PREFIX,
        RuleWord::SourcePorts => PORTS_OR_TO,
        RuleWord::To => TO,
        RuleWord::LastPorts => LAST_PORTS,
    }
}

fn ends_wanted(place: EndsWord) -> Wanted {
    match place {
        EndsWord::Source | EndsWord::Destination => ADDRESS,
        EndsWord::SourcePort | EndsWord::DestinationPort => PORT,
    }
}

fn packet_wanted(place: PacketWord) -> Wanted {
    match place {
        PacketWord::Protocol => PROTOCOL,
        PacketWord::Ends(place) => ends_wanted(place),
        PacketWord::Size => SIZE,
    }
}

// Returns a description that commands share, with an example for one command.
fn with_example(wanted: Wanted, own: Wanted) -> Wanted {
    Wanted {
        example: own.example,
        ..wanted
    }
}

fn train_wanted(place: TrainWord) -> Wanted {
    match place {
        TrainWord::Number => with_example(SOURCE, COUNT),
        TrainWord::Packet(place) => with_example(packet_wanted(place), COUNT),
        TrainWord::CountWord => COUNT_WORD,
        TrainWord::Count => COUNT,
        TrainWord::GapWord => GAP_WORD,
        TrainWord::Gap => GAP,
    }
}

fn flow_wanted(place: FlowWord) -> Wanted {
    match place {
        FlowWord::Number => SOURCE,
        FlowWord::Ends(place) => with_example(ends_wanted(place), SMSS),
        FlowWord::SmssWord => SMSS_WORD,
        FlowWord::Smss => SMSS,
        FlowWord::SegmentsWord => SEGMENTS_WORD,
        FlowWord::Segments => SEGMENTS,
        FlowWord::Setting(_) => FLOW_OPTION,
        FlowWord::Ssthresh(_) => SSTHRESH,
        FlowWord::Window(_) => WINDOW,
        FlowWord::Timing(_) => TIMEOUT,
    }
}

fn pipe_wanted(place: PipeWord) -> Wanted {
    match place {
        PipeWord::What => PIPE_WHAT,
        PipeWord::Gone => PIPE_GONE,
        PipeWord::Config => CONFIG,
        PipeWord::Setting(_) | PipeWord::Fields(_, _) | PipeWord::Times(_, _) => OPTION,
        PipeWord::Bw(_) => RATE,
        PipeWord::Delay(_) => DELAY,
        PipeWord::Queue(_) => QUEUE,
        PipeWord::Plr(_) => LOSS,
        PipeWord::Mask(_) => MASK,
        PipeWord::AddressBits(_, _) => FIELD8,
        PipeWord::PortBits(_, _) => FIELD4,
        PipeWord::ProtocolBits(_, _) => FIELD2,
        PipeWord::Time(_, _) => TIME,
    }
}

/// Returns what is expected in the place of a faulty or missing word. Our choice.
pub fn expected_at(expected: Expected, word: &[u8]) -> Wanted {
    if stood_before(expected, word) {
        return if is_discipline(word) {
            ONE_DISCIPLINE
        } else {
            ONCE
        };
    }
    match expected {
        Expected::First => FIRST,
        Expected::Header(place) => header_wanted(place),
        Expected::Verb => VERB,
        Expected::Rule(place) => rule_wanted(place),
        Expected::RuleGone => RULE,
        Expected::Pipe(place) => pipe_wanted(place),
        Expected::Inject(place) => packet_wanted(place),
        Expected::Train(place) => train_wanted(place),
        Expected::Flow(place) => flow_wanted(place),
        Expected::Stopped => STOPPED,
        Expected::OnePass => ONE_PASS,
        Expected::Trace => TRACE,
        Expected::End => END,
    }
}
