//! The hints for a line that a session rejects.

ghost use Rattle.std.specs.Prelude.{◌≡◌, ℕ, List, [], IfOk};

use control::Cause;
use std::alloc::{AllocError, Global};

/// A source of hints for faulty lines.
pub trait Hints {
    ghost use Rattle.control.specs.declared.fault.Cause.{Cause};

    /// True of the texts that may be the hint for a line with this fault.
    ghost may_say: { Self → List ℕ → Cause → List ℕ → Type 0 };

    /// Returns the hint for a rejected line (without its line feed): lines, each with its line
    /// feed, or nothing.
    fn hint(&self, alloc: Global, line: &[u8], cause: Cause) -> Result<Vec<u8>, AllocError>
        ensures { IfOk result (λ hint. may_say self.now line.now cause hint.items) };
}

/// A source that has no hints.
#[derive(Clone, Copy)]
pub struct NoHints;

impl Hints for NoHints {
    ghost may_say = { λ _ _ _ hint. hint ≡ [] };

    fn hint(&self, alloc: Global, _line: &[u8], _cause: Cause) -> Result<Vec<u8>, AllocError> {
        Ok(Vec::new(alloc))
    }
}
