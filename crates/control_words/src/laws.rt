//! The law of the words of a configuration. A call `laws::name()` does nothing; the prover knows
//! the theorem from there on.

pub use crate::options_law::options_are_read;
