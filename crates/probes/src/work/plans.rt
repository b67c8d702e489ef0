//! The commands of the experiments: a flow through two pipes, and a train that one pipe holds.

ghost use Rattle.std.specs.Prelude.{◌≤◌, ◌^◌};

use emu_model::{
    Action, Amount, Bandwidth, Budget, Command, Delay, Discipline, FlowNumber, FlowSpec, Gap,
    LossRate, Mask, PacketBudget, PipeConfig, PipeNumber, Prefix, PrefixLength, Protocol,
    ProtocolMatch, QueueLimit, Rule, RuleNumber, SegmentSize, SendSpec, Size, SlotLimit, Spec,
    StepBudget, Threshold, Timed, Timing, TrainSpec, Window,
};

const HERE: u32 = 0x0a00_0001;

const THERE: u32 = 0x0a00_0002;

/// A command, and its time (ms).
#[derive(Clone, Copy)]
pub struct Order {
    milliseconds: u16,
    command: Command,
}

/// The specification and the commands of an experiment. The last command is its end.
#[derive(Clone, Copy)]
pub struct Plan {
    pub spec: Spec,
    pub orders: [Order; 6],
}

impl Order {
    /// Returns the command at its time (ns).
    pub fn timed_command(&self) -> Timed
        ensures { result.moment ≤ 10 ^ 15 }
    {
        Timed {
            moment: u64::from(self.milliseconds) * 1_000_000,
            command: self.command,
        }
    }
}

fn at(milliseconds: u16, command: Command) -> Order {
    Order {
        milliseconds,
        command,
    }
}

// Returns a pipe with this bandwidth (bit/s), or 0 for none, and this delay (ms).
fn pipe(number: u16, bw: u64, delay: u16) -> Option<Command> {
    Some(Command::Config {
        pipe: PipeNumber::new(number)?,
        config: PipeConfig {
            bw: Bandwidth::new(bw)?,
            delay: Delay::new(delay)?,
            queue: QueueLimit::Slots(SlotLimit::new(50)?),
            plr: LossRate::new(0)?,
            mask: Mask {
                proto: 0,
                src: 0,
                dst: 0,
                sport: 0,
                dport: 0,
            },
            discipline: Discipline::TailDrop,
        },
    })
}

// Returns a rule for packets from one host to another.
fn between(number: u32, from: u32, to: u32, pipe: u16) -> Option<Command> {
    let host = PrefixLength::new(32)?;
    Some(Command::Add(Rule {
        number: RuleNumber::new(number)?,
        action: Action::Pipe(PipeNumber::new(pipe)?),
        proto: ProtocolMatch::AnyProtocol,
        src: Prefix::new(from, host),
        sports: None,
        dst: Prefix::new(to, host),
        dports: None,
    }))
}

// Returns a flow of 400 segments of 1000 bytes.
fn segments() -> Option<Command> {
    Some(Command::Flow {
        number: FlowNumber::new(1)?,
        flow: FlowSpec {
            src: HERE,
            sport: 1000,
            dst: THERE,
            dport: 80,
            smss: SegmentSize::new(1000)?,
            segments: Amount::new(400)?,
            ssthresh: Threshold::new(65535)?,
            rwnd: Window::new(65535)?,
            timing: Timing::Adaptive,
        },
    })
}

// Returns a train of `count` packets of 1000 bytes at one time.
fn train(count: u16) -> Option<Command> {
    let packet = SendSpec {
        proto: Protocol::Udp,
        src: HERE,
        sport: 1000,
        dst: THERE,
        dport: 80,
        size: Size::new(1000)?,
    };
    Some(Command::Train {
        number: FlowNumber::new(1)?,
        train: TrainSpec {
            packet,
            count: Amount::new(u32::from(count))?,
            gap: Gap::new(0)?,
        },
    })
}

// Returns a specification with this packet budget, and ample steps.
fn spec(packets: u16) -> Option<Spec> {
    let packets = PacketBudget::new(packets)?;
    let steps = StepBudget::new(1_000_000)?;
    let budget = Budget { packets, steps };
    Some(Spec {
        seed: 1,
        budget,
        traced: false,
    })
}

/// Returns a flow of 400 segments there, and its acknowledgements back, which end long before the
/// experiment. Never returns `None`.
pub fn flow_plan() -> Option<Plan> {
    let orders = [
        at(0, pipe(1, 10_000_000, 10)?),
        at(0, pipe(2, 0, 10)?),
        at(0, between(100, HERE, THERE, 1)?),
        at(0, between(200, THERE, HERE, 2)?),
        at(0, segments()?),
        at(10_000, Command::End),
    ];
    Some(Plan {
        spec: spec(200)?,
        orders,
    })
}

/// Returns a train of `packets` packets at once into a pipe that holds them past the end, or `None`
/// if their number is not 1 to 65,535.
pub fn train_plan(packets: u16) -> Option<Plan> {
    let orders = [
        at(0, pipe(1, 0, 60_000)?),
        at(0, pipe(2, 0, 10)?),
        at(0, between(100, HERE, THERE, 1)?),
        at(0, train(packets)?),
        at(1, Command::Show),
        at(2_000, Command::End),
    ];
    Some(Plan {
        spec: spec(packets)?,
        orders,
    })
}
