//! The calls of the program with many workers, from the bytes of a scenario to the bytes of its
//! reports. Our choice.
#![tactic(auto)]

mod calls;
mod joined;
mod outcome;
mod plan;
mod reports;
mod tenants;
mod together;
mod within;
mod worker;

pub use calls::{run, run_with_progress};
pub use plan::{Gate, OpenGate, Plan};
pub use within::run_within;
