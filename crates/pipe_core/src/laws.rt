//! The law of a pipe's view. A call `laws::name()` does nothing; the prover knows the theorem from
//! there on.

pub use crate::keys_law::keys_say_all;
