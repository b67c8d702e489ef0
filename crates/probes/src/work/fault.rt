//! The reasons why the work was not done.

use thiserror::Error;

#[derive(Clone, Copy, Debug, Drop, Error, PartialEq)]
pub enum Fault {
    /// The arguments are not those of the program.
    #[error("words: work, then turns, alone, moves, wheel, list, flow, train, drops or read, and their numbers")]
    Words,
    /// A number is out of its range: 1 to 65,535 packets, and at most 256 residents.
    #[error("range")]
    Range,
    /// An allocation failed.
    #[error("memory")]
    Memory,
    /// An experiment didn't reach its last command.
    #[error("unfinished")]
    Unfinished,
}
