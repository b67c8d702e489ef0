//! The names of experiments.

ghost use Rattle.std.specs.Prelude.{◌≡◌, IfOk};
ghost use Rattle.control.specs.Names.{IsName};

use std::alloc::{AllocError, Global};
use std::marker::Model;

/// The name of an experiment: 1 to 32 characters of `a` to `z`, `0` to `9`, `-` and `_`.
#[derive(Drop)]
pub struct ExperimentName {
    text: Vec<u8>,
}

impl Model for ExperimentName {
    ghost use Rattle.std.specs.Prelude.{ℕ, List};
    ghost use Rattle.control.specs.Names.{IsName};

    ghost Value = { List ℕ };

    ghost view = { λ n. n.text.items };

    ghost invariant = { λ n. IsName n.text.items };
}

impl ExperimentName {
    /// Creates a name from a text that has the form of a name. Allocates a copy of the text.
    pub fn new(alloc: Global, text: &[u8]) -> Result<Self, AllocError>
        requires { IsName text.now }
        ensures { IfOk result (λ n. n ≡ text.now) }
    {
        Ok(ExperimentName {
            text: Vec::from_slice(alloc, text)?,
        })
    }

    /// Returns the name's bytes: 1 to 32, each of them allowed in a name.
    pub fn as_bytes(&self) -> &[u8]
        ensures value { result.now ≡ self.now }
        ensures ranged { IsName result.now }
    {
        self.text.as_slice()
    }
}
