//! The pipes of one experiment by number (ipfw(8), traffic shaper), over any shelf of packets, and
//! the log of the experiment's records, with packet counts (our choice).
#![tactic(auto)]

mod arrivals;
mod dues;
mod lines;
mod log;
mod places;
mod rehousing;
mod table;

pub use log::RecordLog;
pub use table::{ConfigureError, PipeTable};
