//! The calls of the program that need only one thread: they turn the bytes of a scenario into the
//! bytes of its reports. Our choice.
#![tactic(auto)]

mod alone;
mod calls;
mod device;
mod ends;
mod fault;
mod fault_line;
mod hints;
mod input;
mod joining_law;
mod limits;
mod lone;
mod output;
mod progress;
mod talk;
mod whole;
mod within;

pub use calls::{check, check_kept, run_alone, run_alone_with_progress, unlimited_outcome};
pub use device::Device;
pub use ends::{Inlet, Outlet, Trouble};
pub use fault::RunFault;
pub use fault_line::write_fault;
pub use hints::{Hints, NoHints};
pub use input::read_text;
pub use joining_law::reports_join;
pub use limits::{Format, Limits, Stop};
pub use progress::{Progress, Silent};
pub use talk::live;
pub use whole::{Reports, Tally, check_of, reports_of, scenario_of};
pub use within::{Made, made_of, run_alone_within, write_reports};
