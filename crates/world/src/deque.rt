//! The names in a shard's deque, which wait to be taken in again.

ghost use Rattle.std.specs.Prelude.{◌≡◌, [], ◌∷◌, ◌++◌, OnOk, OnErr, IfSome, IfNone};

use std::alloc::{AllocError, Global};
use std::collections::VecDeque;
use std::marker::Model;

/// The names in a deque, from its front. Contracts see their list.
#[derive(Drop)]
pub(crate) struct Deque {
    names: VecDeque<u32>,
}

impl Model for Deque {
    ghost use Rattle.std.specs.Prelude.{ℕ, List};

    ghost Value = { List ℕ };

    ghost view = { λ d. d.names.items };
}

impl Deque {
    /// Creates an empty deque.
    pub(crate) fn new(alloc: Global) -> Self
        ensures { result ≡ [] }
    {
        Deque {
            names: VecDeque::new(alloc),
        }
    }

    /// Adds a name at the back.
    pub(crate) fn push(&mut self, name: u32) -> Result<(), AllocError>
        ensures ok { OnOk result (self.new ≡ self.old ++ name ∷ []) }
        ensures err { OnErr result (self.new ≡ self.old) }
    {
        match self.names.push_back(name) {
            Ok(()) => return Ok(()),
            Err(_) => return Err(AllocError),
        }
    }

    /// Removes the name at the front, and returns it.
    pub(crate) fn pop(&mut self) -> Option<u32>
        ensures some { IfSome result (λ name. self.old ≡ name ∷ self.new) }
        ensures none { IfNone result ((self.old ≡ []) × (self.new ≡ self.old)) }
    {
        match self.names.pop_front() {
            Some(name) => return Some(name),
            None => return None,
        }
    }
}
