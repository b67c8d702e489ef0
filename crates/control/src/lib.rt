//! The text of a scenario: the scenario that it spells, or its first fault. For a rejected line
//! also the first faulty word and what was expected in its place (our choice). This is the first
//! word such that no line begins with the words up to it.
#![tactic(auto)]

mod choice;
mod expected;
mod fault;
mod form;
pub mod laws;
mod names;
mod reading;
mod scenario;
mod text_laws;
mod value;
mod word_fault;
mod word_fault_law;

pub use choice::stood_before;
pub use expected::{
    EndsWord, Expected, FieldsSeen, FlowSeen, FlowWord, HeaderWord, PacketWord, PipeSeen, PipeWord,
    RuleWord, TimesSeen, TrainWord,
};
pub use fault::{Cause, Fault, ParseError};
pub use form::{Form, Keyword};
pub use names::ExperimentName;
pub use reading::{MAX_EXPERIMENTS, parse_scenario};
pub use scenario::{CommandList, Experiment, Scenario};
pub use value::{Value, value_at};
pub use word_fault::{Behind, Blamed, Check, blame, blame_behind};
