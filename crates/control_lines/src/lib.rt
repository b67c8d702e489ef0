//! A line of a scenario: its contents, whatever precedes it, or its first fault (our choice, in the
//! terms of ipfw(8)). A line is parsed by its shape first, and then each number is checked against
//! its range.
#![tactic(auto)]

mod line;
mod lines_law;
mod packet_line;
mod ranges;
mod raw;
mod shape;

pub use line::{LineEntry, LineFault, read_line};
pub use lines_law::{lines_are_read, lines_say_one};
