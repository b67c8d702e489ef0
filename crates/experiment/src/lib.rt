//! One experiment on its own, over any shelf of packets: its commands at their times, its events,
//! and its ending; its report, written while it runs or packed until it is written; and laws about
//! an experiment whose next command isn't known yet, which sessions rely on. Our choice.
#![tactic(auto)]

mod counts;
mod experiment;
mod keeper;
pub mod laws;
mod rehousing;
mod room;
mod rows;
mod sessions;
mod told;
mod touched;
mod waiting;
mod waits;
mod writer;

pub use counts::RecordCounts;
pub use experiment::{ApplyError, Event, Experiment};
pub use keeper::{BATCH, Report, ReportKeeper};
pub use room::{put_npy, put_reports};
pub use rows::{count_rows, npy_length};
pub use writer::ReportWriter;
