//! Masks of flow identifiers, and the numbers of a pipe's instances (ipfw(8), mask; at most 256
//! instances is our choice).
#![tactic(auto)]

mod ids;
mod instances;

pub use ids::{ApplyMask, FlowId};
pub use instances::{InstanceError, Instances};
