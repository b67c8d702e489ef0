//! The data of an emulated link: the commands of a scenario, the records of a report, and the
//! definitions, in `specs/`, of an experiment's behaviour. Each type includes its ranges.
#![tactic(auto)]

mod codel_laws;
mod commands;
mod component_laws;
mod due_laws;
pub mod laws;
mod packets;
mod pipes;
mod ranged;
mod records;
mod reno_laws;
mod rules;
mod run_laws;
mod sources;
mod trace_laws;

pub use commands::{Budget, Command, EventContext, LATEST_MOMENT, Spec, Timed, command_in_range};
pub use packets::{Load, Origin, Packet, Place, Protocol};
pub use pipes::{Discipline, Mask, PipeConfig, QueueLimit};
pub use ranged::{
    Amount, Bandwidth, CodelTime, Delay, FlowNumber, Gap, KByteLimit, LossRate, PacketBudget,
    PipeNumber, PrefixLength, RangedU8, RangedU16, RangedU32, RangedU64, RuleNumber, SegmentSize,
    Size, SlotLimit, StepBudget, Threshold, Timeout, Window,
};
pub use records::{Counters, DropCause, Ending, Record, Refusal};
pub use rules::{Action, PortRange, Prefix, ProtocolMatch, Rule, Verdict};
pub use sources::{Class, Due, FlowSpec, SendSpec, Source, Timing, TrainSpec};

// Lists hold many of these.
const _: () = prove!(size_of::<Record>() <= 72);

const _: () = prove!(size_of::<Timed>() <= 80);
