//! The words of a scenario: lines and words, numbers with their units, addresses, ports and names,
//! and the options of a pipe and of a flow, which may be in any order, each at most once (our
//! choice, in the terms of ipfw(8)). A number has up to 20 digits here, whatever its range.
#![tactic(auto)]

pub mod addresses;
pub mod laws;
pub mod numbers;
mod options;
mod options_law;
mod raw;
mod raw_options;
mod text;

pub use options::{bare_discipline, flow_options, pipe_options};
pub use raw::{RawAddress, RawPorts, RawPrefix, RawQueue, RawTiming};
pub use raw_options::{
    BareDiscipline, RawCodel, RawConfig, RawDiscipline, RawFields, RawFlowOptions, RawMask,
};
pub use text::{Words, first_line, is};
