//! The reasons why there are no reports.

use std::alloc::AllocError;
use thiserror::Error;

#[derive(Clone, Copy, Debug, Drop, Error, PartialEq)]
pub enum Fault {
    /// The arguments are not those of the program.
    #[error("words: random LISTS STEPS SEED [on], of which LISTS is 1 or more")]
    Words,
    /// The text is not a scenario.
    #[error("the text is no scenario")]
    Scenario,
    /// An allocation failed.
    #[error("memory")]
    Memory,
    /// An experiment did not reach its end.
    #[error("list {0}: not ended")]
    Unfinished(u32),
    /// A list left different reports from the first.
    #[error("list {0}: other reports than those of list 0")]
    Differs(u32),
}

impl From<AllocError> for Fault {
    fn from(_error: AllocError) -> Fault {
        Fault::Memory
    }
}
