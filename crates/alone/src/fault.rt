//! The reasons why a call of the program returned no result.

use control::Fault;
use thiserror::Error;

/// A fault of a call, with the text that the program prints for it.
#[derive(Clone, Copy, Debug, Drop, Error, PartialEq)]
pub enum RunFault {
    /// The text that was read spells no scenario.
    #[error("{0}")]
    Scenario(Fault),
    /// The reader failed.
    #[error("read")]
    Read,
    /// The writer failed.
    #[error("write")]
    Write,
    /// An allocation failed, or a thread can't be started.
    #[error("memory")]
    Memory,
    /// A dossier belongs to no experiment, is missing or exists twice, or an experiment was lost.
    #[error("strange")]
    Strange,
    /// The gate refused.
    #[error("gate")]
    Gate,
}
