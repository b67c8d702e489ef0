//! Lines as they are written: only their shape, with numbers of up to 20 digits in base units.

use control_words::{RawAddress, RawConfig, RawFlowOptions, RawPorts, RawPrefix};
use emu_model::{Protocol, ProtocolMatch};

#[derive(Clone, Copy)]
pub enum RawAction {
    Allow,
    Deny,
    Count,
    SkipTo(u128),
    Pipe(u128),
}

#[derive(Clone, Copy)]
pub struct RawRule {
    pub number: u128,
    pub action: RawAction,
    pub proto: ProtocolMatch,
    pub src: RawPrefix,
    pub sports: Option<RawPorts>,
    pub dst: RawPrefix,
    pub dports: Option<RawPorts>,
}

/// The source and the destination of a packet.
#[derive(Clone, Copy)]
pub struct RawEnds {
    pub src: RawAddress,
    pub sport: u128,
    pub dst: RawAddress,
    pub dport: u128,
}

#[derive(Clone, Copy)]
pub struct RawSend {
    pub proto: Protocol,
    pub ends: RawEnds,
    pub size: u128,
}

#[derive(Clone, Copy)]
pub struct RawTrain {
    pub number: u128,
    pub packet: RawSend,
    pub count: u128,
    pub gap: u128,
}

#[derive(Clone, Copy)]
pub struct RawFlow {
    pub number: u128,
    pub ends: RawEnds,
    pub smss: u128,
    pub segments: u128,
    pub options: RawFlowOptions,
}

#[derive(Clone, Copy)]
pub enum RawCommand {
    Add(RawRule),
    Delete(u128),
    Config(u128, RawConfig),
    PipeDelete(u128),
    PipeShow,
    Show,
    Inject(RawSend),
    Train(RawTrain),
    Flow(RawFlow),
    Stop(u128),
    OnePass(u128),
    Trace(u128),
    End,
}

#[derive(Clone, Copy)]
pub struct RawTimed {
    pub moment: u128,
    pub command: RawCommand,
}

/// The line that begins an experiment.
#[derive(Clone, Copy)]
pub struct RawHeader<'a> {
    pub name: &'a [u8],
    pub seed: u128,
    pub budget: u128,
    pub steps: Option<u128>,
}

#[derive(Clone, Copy)]
pub enum RawLine<'a> {
    Experiment(RawHeader<'a>),
    Command(RawTimed),
}
