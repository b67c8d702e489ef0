//! The laws of scenarios as text. A call `laws::name()` does nothing; the prover knows the theorem
//! from there on.

pub use crate::text_laws::{texts_join, texts_part, texts_spell_one};
pub use crate::word_fault_law::{one_is_first_wrong, refused_are_blamed};
