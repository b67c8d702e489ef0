//! The law of a network's packets. A call `laws::name()` does nothing; the prover knows the theorem
//! from there on.

pub use crate::housing_law::still_is_housed;
