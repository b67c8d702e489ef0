//! The laws of a session's runs. A call `laws::name()` does nothing; the prover knows the theorem
//! from there on.

pub use crate::run_laws::{earlier_commands_come, ended_runs_are_reports, spent_runs_are_reports};
