//! The text of a report, and of the listings in it (our choice).
#![tactic(auto)]

mod archive;
mod clock;
mod digits;
mod events;
mod forward;
mod lines;
mod made;
mod moments;
mod packed;
mod pieces;
mod reader;
mod report;
mod rows;
mod runs;
mod source;
mod stretches;
mod words;

pub use archive::Archive;
pub use lines::{write_counters, write_heading, write_record};
pub use moments::Moments;
pub use reader::Reader;
pub use report::{pipe_listing, report_text, rule_listing};
pub use rows::{ROW, npy_header, put_counters, put_rows};
pub use runs::{write_records, write_some, write_source};
pub use source::Source;
