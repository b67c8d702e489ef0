//! The records of a report (our choice).

use crate::packets::{Load, Origin, Protocol};
use crate::pipes::PipeConfig;
use crate::ranged::{FlowNumber, PipeNumber, Size};
use crate::rules::Rule;

/// The cause of a packet's drop.
#[derive(Clone, Copy, PartialEq)]
pub enum DropCause {
    Denied = 1,
    NoPipe = 2,
    NoInstance = 3,
    Lost = 4,
    Full = 5,
    Codel = 6,
    Deleted = 7,
    Budget = 8,
}

/// The reason why a command was refused.
#[derive(Clone, Copy, PartialEq)]
pub enum Refusal {
    BadNumber = 10,
    BadSkip = 11,
    RulesFull = 12,
    NoRule = 13,
    NoSuchPipe = 20,
    MaskFixed = 21,
    FlowThere = 22,
    NoFlow = 23,
    TooManyPipes = 24,
    TooManyFlows = 25,
}

/// A line of a report, other than its first and its last. Times are in ns.
#[derive(Clone, Copy, PartialEq)]
pub enum Record {
    CommandDone {
        moment: u64,
        command: u64,
    },
    CommandRefused {
        moment: u64,
        command: u64,
        refusal: Refusal,
    },
    PacketMade {
        moment: u64,
        packet: u64,
        origin: Origin,
        proto: Protocol,
        src: u32,
        sport: u16,
        dst: u32,
        dport: u16,
        size: Size,
    },
    PacketArrived {
        moment: u64,
        packet: u64,
        pipe: PipeNumber,
        instance: u8,
    },
    InstanceIdentified {
        moment: u64,
        pipe: PipeNumber,
        instance: u8,
        proto: u8,
        src: u32,
        dst: u32,
        sport: u16,
        dport: u16,
    },
    PacketFinished {
        moment: u64,
        packet: u64,
        pipe: PipeNumber,
        instance: u8,
    },
    PacketDelivered {
        moment: u64,
        packet: u64,
        load: Load,
    },
    PacketPassed {
        moment: u64,
        packet: u64,
        pipe: PipeNumber,
        instance: u8,
    },
    PacketDropped {
        moment: u64,
        packet: u64,
        load: Load,
        cause: DropCause,
    },
    AckTaken {
        moment: u64,
        flow: FlowNumber,
        cwnd: u64,
        ssthresh: u64,
    },
    TimerExpired {
        moment: u64,
        flow: FlowNumber,
        cwnd: u64,
        ssthresh: u64,
    },
    StepsSpent {
        moment: u64,
    },
    RuleLine {
        rule: Rule,
        packets: u64,
        bytes: u64,
    },
    PipeLine {
        pipe: PipeNumber,
        config: PipeConfig,
    },
    InstanceLine {
        pipe: PipeNumber,
        instance: u8,
        waiting: u64,
        bytes: u64,
        busy: bool,
        in_flight: u64,
        drawn: u64,
    },
}

/// The numbers of an experiment's packets, with the drops by cause.
#[derive(Clone, Copy)]
pub struct Counters {
    pub made: u64,
    pub delivered: u64,
    pub held: u64,
    pub drops: [u64; 8],
}

/// The ending of an experiment: by its command, by its step budget, or because memory ran out.
#[derive(Clone, Copy)]
pub enum Ending {
    Ended,
    Spent,
    Halted,
}
