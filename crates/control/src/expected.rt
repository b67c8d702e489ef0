//! The next word of a line, given the words before it.

/// A word of an experiment's line, after `experiment`.
#[derive(Clone, Copy)]
pub enum HeaderWord {
    Name,
    SeedWord,
    Seed,
    BudgetWord,
    Budget,
    /// `steps`, or the end of the line.
    StepsWord,
    Steps,
}

/// A word of a rule, after `add`.
#[derive(Clone, Copy)]
pub enum RuleWord {
    Number,
    Action,
    /// The rule of `skipto`.
    SkipTo,
    /// The pipe of `pipe`.
    ToPipe,
    Protocol,
    From,
    Source,
    /// Ports, or `to`.
    SourcePorts,
    To,
    Destination,
    /// Ports, or the end of the line.
    LastPorts,
}

/// A word of the source and the destination of packets.
#[derive(Clone, Copy)]
pub enum EndsWord {
    Source,
    SourcePort,
    Destination,
    DestinationPort,
}

/// A word of a packet.
#[derive(Clone, Copy)]
pub enum PacketWord {
    Protocol,
    Ends(EndsWord),
    Size,
}

/// A word of a train, after `train`.
#[derive(Clone, Copy)]
pub enum TrainWord {
    Number,
    Packet(PacketWord),
    CountWord,
    Count,
    GapWord,
    Gap,
}

/// The options of a flow that were already given.
#[derive(Clone, Copy)]
pub struct FlowSeen {
    pub ssthresh: bool,
    pub window: bool,
    pub timing: bool,
}

impl FlowSeen {
    ghost use Rattle.std.specs.Prelude.{◌≡◌};
    ghost use Rattle.control.specs.Values.{no_flow};

    /// Returns the state in which no option has been given. Our choice.
    pub fn none() -> FlowSeen
        ensures { result ≡ no_flow }
    {
        FlowSeen {
            ssthresh: false,
            window: false,
            timing: false,
        }
    }
}

/// A word of a flow, after `flow`.
#[derive(Clone, Copy)]
pub enum FlowWord {
    Number,
    Ends(EndsWord),
    SmssWord,
    Smss,
    SegmentsWord,
    Segments,
    /// An option, or the end of the line.
    Setting(FlowSeen),
    /// The value of an option that is among these.
    Ssthresh(FlowSeen),
    Window(FlowSeen),
    Timing(FlowSeen),
}

/// The options of a pipe that were already given.
#[derive(Clone, Copy)]
pub struct PipeSeen {
    pub bw: bool,
    pub delay: bool,
    pub queue: bool,
    pub plr: bool,
    pub mask: bool,
    pub discipline: bool,
}

impl PipeSeen {
    ghost use Rattle.std.specs.Prelude.{◌≡◌};
    ghost use Rattle.control.specs.Values.{no_pipe};

    /// Returns the state in which no option has been given. Our choice.
    pub fn none() -> PipeSeen
        ensures { result ≡ no_pipe }
    {
        PipeSeen {
            bw: false,
            delay: false,
            queue: false,
            plr: false,
            mask: false,
            discipline: false,
        }
    }
}

/// The fields of a mask that were already given.
#[derive(Clone, Copy)]
pub struct FieldsSeen {
    pub src_ip: bool,
    pub dst_ip: bool,
    pub src_port: bool,
    pub dst_port: bool,
    pub proto: bool,
}

impl FieldsSeen {
    ghost use Rattle.std.specs.Prelude.{◌≡◌};
    ghost use Rattle.control.specs.Choices.{no_fields_seen};

    /// Returns the state in which no field has been given. Our choice.
    pub fn none() -> FieldsSeen
        ensures { result ≡ no_fields_seen }
    {
        FieldsSeen {
            src_ip: false,
            dst_ip: false,
            src_port: false,
            dst_port: false,
            proto: false,
        }
    }
}

/// The times of CoDel that were already given.
#[derive(Clone, Copy)]
pub struct TimesSeen {
    pub target: bool,
    pub interval: bool,
}

impl TimesSeen {
    ghost use Rattle.std.specs.Prelude.{◌≡◌};
    ghost use Rattle.control.specs.Choices.{no_times_seen};

    /// Returns the state in which no time has been given. Our choice.
    pub fn none() -> TimesSeen
        ensures { result ≡ no_times_seen }
    {
        TimesSeen {
            target: false,
            interval: false,
        }
    }
}

/// A word of a command about pipes, after `pipe`.
#[derive(Clone, Copy)]
pub enum PipeWord {
    /// A pipe's number, `delete` or `show`.
    What,
    /// The pipe of `pipe delete`.
    Gone,
    Config,
    /// An option, or the end of the line.
    Setting(PipeSeen),
    /// The value of an option that is among these.
    Bw(PipeSeen),
    Delay(PipeSeen),
    Queue(PipeSeen),
    Plr(PipeSeen),
    /// `all`, or a field.
    Mask(PipeSeen),
    /// A field, an option, or the end of the line.
    Fields(PipeSeen, FieldsSeen),
    /// The bits of a field that is among these: of an address, of a port, of the protocol.
    AddressBits(PipeSeen, FieldsSeen),
    PortBits(PipeSeen, FieldsSeen),
    ProtocolBits(PipeSeen, FieldsSeen),
    /// `target` or `interval`, an option, or the end of the line.
    Times(PipeSeen, TimesSeen),
    /// The value of a time that is among these.
    Time(PipeSeen, TimesSeen),
}

/// The next word of a line.
#[derive(Clone, Copy)]
pub enum Expected {
    /// `experiment`, or a time.
    First,
    Header(HeaderWord),
    /// The word of a command.
    Verb,
    Rule(RuleWord),
    /// The rule of `delete`.
    RuleGone,
    Pipe(PipeWord),
    Inject(PacketWord),
    Train(TrainWord),
    Flow(FlowWord),
    /// The flow or train of `stop`.
    Stopped,
    OnePass,
    Trace,
    /// Only the end of the line.
    End,
}

impl Expected {
    ghost use Rattle.std.specs.Prelude.{◌≡◌};
    ghost use Rattle.control.specs.Walk.{may_end};

    /// Returns true if the line may end there. Our choice.
    pub fn may_end(self) -> bool
        ensures { result ≡ may_end self }
    {
        match self {
            Expected::End => true,
            Expected::Header(HeaderWord::StepsWord) => true,
            Expected::Rule(RuleWord::LastPorts) => true,
            Expected::Pipe(PipeWord::Setting(_)) => true,
            Expected::Pipe(PipeWord::Fields(_, _)) => true,
            Expected::Pipe(PipeWord::Times(_, _)) => true,
            Expected::Flow(FlowWord::Setting(_)) => true,
            _ => false,
        }
    }
}
