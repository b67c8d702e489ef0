//! Options as they are written: numbers of up to 20 digits in base units, whatever their range.

use crate::raw::{RawQueue, RawTiming};

/// One field of a mask.
#[derive(Clone, Copy)]
pub enum Field {
    SrcIp(u128),
    DstIp(u128),
    SrcPort(u128),
    DstPort(u128),
    Proto(u128),
}

/// The fields of a mask.
#[derive(Clone, Copy)]
pub struct RawFields {
    pub src_ip: Option<u128>,
    pub dst_ip: Option<u128>,
    pub src_port: Option<u128>,
    pub dst_port: Option<u128>,
    pub proto: Option<u128>,
}

/// `all`, or the fields that are given.
#[derive(Clone, Copy)]
pub enum RawMask {
    Everything,
    Fields(RawFields),
}

/// A time of CoDel, in ns.
#[derive(Clone, Copy)]
pub enum Time {
    Target(u128),
    Interval(u128),
}

/// The times of CoDel, in ns.
#[derive(Clone, Copy)]
pub struct RawCodel {
    pub target: Option<u128>,
    pub interval: Option<u128>,
}

/// A discipline that has no options of its own: `droptail`.
#[derive(Clone, Copy)]
pub enum BareDiscipline {
    TailDrop,
}

/// A discipline without options, or `codel` with its times.
#[derive(Clone, Copy)]
pub enum RawDiscipline {
    Bare(BareDiscipline),
    ControlledDelay(RawCodel),
}

/// One option of a pipe.
#[derive(Clone, Copy)]
pub enum Setting {
    Bw(u128),
    Delay(u128),
    Queue(RawQueue),
    Plr(u128),
    Mask(RawMask),
    Discipline(RawDiscipline),
}

/// The options of a pipe, in bit/s, ms and millionths.
#[derive(Clone, Copy)]
pub struct RawConfig {
    pub bw: Option<u128>,
    pub delay: Option<u128>,
    pub queue: Option<RawQueue>,
    pub plr: Option<u128>,
    pub mask: Option<RawMask>,
    pub discipline: Option<RawDiscipline>,
}

/// One option of a flow.
#[derive(Clone, Copy)]
pub enum FlowSetting {
    Ssthresh(u128),
    Window(u128),
    Timing(RawTiming),
}

/// The options of a flow.
#[derive(Clone, Copy)]
pub struct RawFlowOptions {
    pub ssthresh: Option<u128>,
    pub window: Option<u128>,
    pub timing: Option<RawTiming>,
}
